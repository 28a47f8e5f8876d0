//! The rule sets of a subtable, by their numbers.
ghost use Rattle.std.specs.Prelude.{◌≡◌};
ghost use Rattle.std.specs.Option.{option_map};
ghost use Rattle.opentype.specs.Matching.{rules_in, set_applies, set_finds};
ghost use Rattle.readers.specs.Views.{entries};
ghost use Rattle.rules.specs.Left.{sets_left};
ghost use Rattle.rules.specs.Views.{found_of, layout_of, matchers_of, parts_in, rule_set_of, set_of, sets_of, tried_of};

use crate::matching::ValueMatch;
use crate::parsed::RuleLayout;
use crate::sets::{RuleSet, Rules};
use crate::walk::{ChainMatchers, Found};
use crate::widths::RuleWidths;
use readers::each::Each;
use readers::uints::Uints;
use std::marker::PhantomData;

/// The rule sets of a subtable: its bytes, the offsets to its sets, and whether their rules are chained.
#[derive_where(Clone, Copy)]
pub struct RuleSets<'a, F> {
    pub bytes: &'a [u8],
    pub offsets: Uints<'a>,
    pub chained: bool,
    pub widths: PhantomData<F>,
}

impl<'a, F: RuleWidths> RuleSets<'a, F> {
    /// How many sets there are.
    pub fn len(&self) -> u32
        ensures { result ≡ self.now.offsets.count }
    {
        self.offsets.len()
    }

    /// How the rules are laid out.
    pub fn layout(&self) -> RuleLayout
        ensures { result ≡ layout_of self.now }
    {
        RuleLayout {
            chained: self.chained,
            whole: self.bytes.len(),
        }
    }

    /// Set `index`.
    pub fn set(&self, index: u32) -> RuleSet<'a, F>
        ensures parts { set_of F.Offset.BYTES result ≡ (parts_in F.Set.BYTES F.Offset.BYTES self.now).entry index }
        ensures rules { rule_set_of F.Offset.BYTES F.Value.BYTES result ≡ (sets_of F.Set.BYTES F.Offset.BYTES F.Value.BYTES self.now).entry index }
    {
        RuleSet::at(self.bytes, self.layout(), self.offsets.get::<F::Set>(index))
    }

    /// The sets in order.
    pub fn iter(&self) -> Each<RuleSets<'a, F>>
        ensures { sets_left F.Set.BYTES F.Offset.BYTES F.Value.BYTES result ≡ entries (sets_of F.Set.BYTES F.Offset.BYTES F.Value.BYTES self.now) }
    {
        Each::of(*self)
    }

    /// The rules of set `index`: none where it is null or unreadable, or past the last set.
    fn rules(&self, index: u32) -> Option<Rules<'a, F>>
        ensures { rules_in (sets_of F.Set.BYTES F.Offset.BYTES F.Value.BYTES self.now) index ≡ tried_of F.Offset.BYTES F.Value.BYTES result }
    {
        if index >= self.len() {
            return None;
        }
        match self.set(index) {
            RuleSet::Rules(rules) => Some(rules),
            RuleSet::Null | RuleSet::Unreadable => None,
        }
    }

    /// Whether some readable rule of set `index` applies to `glyphs`; there is none past the last set.
    pub fn apply<I: ValueMatch>(
        &self,
        index: u32,
        input: &I,
        glyphs: &[u32],
        zero_context: bool,
    ) -> bool
        ensures { result ≡ set_applies (I.ValueMatch.means input.now) zero_context glyphs.now (rules_in (sets_of F.Set.BYTES F.Offset.BYTES F.Value.BYTES self.now) index) }
    {
        self.rules(index)
            .is_some_and(|rules| rules.apply(input, glyphs, zero_context))
    }

    /// What the first readable rule of set `index` that matches at `place` of `run` tells.
    pub fn find<B: ValueMatch, I: ValueMatch, L: ValueMatch>(
        &self,
        index: u32,
        matchers: &ChainMatchers<B, I, L>,
        run: &[u32],
        place: usize,
    ) -> Option<Found>
        ensures { option_map found_of result ≡ set_finds (matchers_of B.ValueMatch.means I.ValueMatch.means L.ValueMatch.means matchers.now) run.now place (rules_in (sets_of F.Set.BYTES F.Offset.BYTES F.Value.BYTES self.now) index) }
    {
        self.rules(index)?.find(matchers, run, place)
    }
}
