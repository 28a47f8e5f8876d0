//! Context subtables over glyphs.
ghost use Rattle.std.specs.Prelude.{◌≡◌};
ghost use Rattle.std.specs.Option.{option_map};
ghost use Rattle.opentype.specs.Filters.{add_sets};
ghost use Rattle.opentype.specs.Matching.{rules_in, set_applies, set_finds};
ghost use Rattle.opentype.specs.Subtables.{by_glyph, glyph_adding, meaning, same};
ghost use Rattle.opentype.proofs.Sounding.{filters_sound};
ghost use Rattle.digest.specs.Allowances.{allowance_of};
ghost use Rattle.filters.specs.Digested.{Walked};
ghost use Rattle.rules.specs.Views.{found_of};
ghost use Rattle.context.specs.Glyphs.{glyph_sets, glyph_table, same_glyphs};

use answers::Refusal;
use bank::subtable::ContextSubtable;
use digest::budget::{Budget, Exhausted};
use digest::set_digest::SetDigest;
use filters::walk::{SecondGlyph, add_sets};
use rules::matching::SameGlyph;
use rules::rule_sets::RuleSets;
use rules::walk::{ChainMatchers, Found};
use rules::widths::{Narrow, WideChainedGlyphs, WideGlyphs};
use tables::coverage::Coverage;

/// The rule sets of a subtable over glyphs, by their widths. In the wide kind set offsets and values have three bytes, and
/// so have rule offsets if the rules are chained.
///
/// Each call is one arm for each width: a trait with a generic method, or a macro, would be longer than the arms.
#[derive(Clone, Copy)]
pub enum GlyphSets<'a> {
    Narrow(RuleSets<'a, Narrow>),
    Wide(RuleSets<'a, WideGlyphs>),
    WideChained(RuleSets<'a, WideChainedGlyphs>),
}

/// Rules over glyphs: the coverage index of the first glyph selects the set.
#[derive(Drop)]
pub struct ChainContext1<'a> {
    pub coverage: Coverage<'a>,
    pub sets: GlyphSets<'a>,
}

impl<'a> ContextSubtable for ChainContext1<'a> {
    ghost table = { λ view. meaning (by_glyph (glyph_table view)) };

    ghost sound = { λ view. filters_sound (by_glyph (glyph_table view)) };

    fn applies(&self, glyphs: &[u32], zero_context: bool) -> bool {
        // By `is_some_and` the proof did not close: what the closure answers was not known behind it.
        let Some(first) = glyphs.first() else {
            return false;
        };
        let Some(index) = self.coverage.get(*first) else {
            return false;
        };
        self.sets.apply(index, glyphs, zero_context)
    }

    fn find(&self, run: &[u32], place: usize) -> Option<Found> {
        let index = self.coverage.get(*run.get(place)?)?;
        self.sets.find(index, run, place)
    }

    fn can_filter(&self) -> bool {
        true
    }

    fn digest(&self, budget: &mut Budget) -> Result<SetDigest, Refusal> {
        Ok(self.sets.seconds(budget)?)
    }
}

impl<'a> GlyphSets<'a> {
    fn apply(&self, index: u32, glyphs: &[u32], zero_context: bool) -> bool
        ensures { result ≡ set_applies same zero_context glyphs.now (rules_in (glyph_sets self.now) index) }
    {
        match self {
            GlyphSets::Narrow(sets) => sets.apply(index, &SameGlyph, glyphs, zero_context),
            GlyphSets::Wide(sets) => sets.apply(index, &SameGlyph, glyphs, zero_context),
            GlyphSets::WideChained(sets) => sets.apply(index, &SameGlyph, glyphs, zero_context),
        }
    }

    fn find(&self, index: u32, run: &[u32], place: usize) -> Option<Found>
        ensures { option_map found_of result ≡ set_finds same_glyphs run.now place (rules_in (glyph_sets self.now) index) }
    {
        let matchers = ChainMatchers {
            backtrack: SameGlyph,
            input: SameGlyph,
            lookahead: SameGlyph,
        };
        match self {
            GlyphSets::Narrow(sets) => sets.find(index, &matchers, run, place),
            GlyphSets::Wide(sets) => sets.find(index, &matchers, run, place),
            GlyphSets::WideChained(sets) => sets.find(index, &matchers, run, place),
        }
    }

    /// The glyphs that may follow the first one in a match.
    fn seconds(&self, budget: &mut Budget) -> Result<SetDigest, Exhausted>
        ensures { Walked (add_sets glyph_adding (glyph_sets self.now)) (allowance_of budget.old) (allowance_of budget.new) result }
    {
        match self {
            GlyphSets::Narrow(sets) => add_sets(sets, &SecondGlyph, budget),
            GlyphSets::Wide(sets) => add_sets(sets, &SecondGlyph, budget),
            GlyphSets::WideChained(sets) => add_sets(sets, &SecondGlyph, budget),
        }
    }
}
