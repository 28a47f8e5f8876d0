//! Context subtables over coverages.
ghost use Rattle.std.specs.Prelude.{◌≡◌, Some};
ghost use Rattle.std.specs.Option.{option_map};
ghost use Rattle.opentype.specs.Coverages.{covers};
ghost use Rattle.opentype.specs.Matching.{rule_applies, rule_finds};
ghost use Rattle.opentype.specs.Subtables.{by_coverage, coverage_step, meaning};
ghost use Rattle.opentype.proofs.Sounding.{filters_sound};
ghost use Rattle.digest.specs.Allowances.{allowance_of};
ghost use Rattle.filters.specs.Digested.{Walked};
ghost use Rattle.rules.specs.Views.{found_of};
ghost use Rattle.context.specs.Coverages.{cover_matchers, coverage_table_of};

use answers::Refusal;
use bank::subtable::ContextSubtable;
use digest::budget::{Budget, Exhausted};
use digest::set_digest::SetDigest;
use filters::walk::{SecondCoverage, add_rule_alone};
use readers::width::{Three, Two};
use rules::matching::CoveredBy;
use rules::parsed::ParsedRule;
use rules::walk::{ChainMatchers, Found};
use tables::coverage::Coverage;

/// A rule over coverages, by the width of its values. In the wide kind these have three bytes.
///
/// Each call is one arm for each width: a trait with a generic method, or a macro, would be longer than the arms.
#[derive(Clone, Copy)]
pub enum CoverageRule<'a> {
    Narrow(ParsedRule<'a, Two>),
    Wide(ParsedRule<'a, Three>),
}

/// One rule over coverages: its values are offsets, in the subtable's bytes, of coverage tables. The first glyph's is
/// apart.
#[derive(Drop)]
pub struct ChainContext3<'a> {
    pub bytes: &'a [u8],
    pub coverage: Coverage<'a>,
    pub rule: CoverageRule<'a>,
}

impl<'a> ContextSubtable for ChainContext3<'a> {
    ghost table = { λ view. meaning (by_coverage (coverage_table_of view)) };

    ghost sound = { λ view. filters_sound (by_coverage (coverage_table_of view)) };

    fn applies(&self, glyphs: &[u32], zero_context: bool) -> bool {
        // By `is_some_and` the proof did not close: what the closure answers was not known behind it.
        let Some(first) = glyphs.first() else {
            return false;
        };
        self.coverage.covers(*first) && self.rule_applies(glyphs, zero_context)
    }

    fn find(&self, run: &[u32], place: usize) -> Option<Found> {
        if !self.coverage.covers(*run.get(place)?) {
            return None;
        }
        self.rule_finds(run, place)
    }

    fn can_filter(&self) -> bool {
        true
    }

    fn digest(&self, budget: &mut Budget) -> Result<SetDigest, Refusal> {
        Ok(self.seconds(budget)?)
    }
}

impl<'a> ChainContext3<'a> {
    fn rule_applies(&self, glyphs: &[u32], zero_context: bool) -> bool
        ensures { result ≡ rule_applies covers zero_context glyphs.now (Some (coverage_table_of self.now).rule) }
    {
        let input = CoveredBy(self.bytes);
        match &self.rule {
            CoverageRule::Narrow(rule) => rule.applies(&input, glyphs, zero_context),
            CoverageRule::Wide(rule) => rule.applies(&input, glyphs, zero_context),
        }
    }

    fn rule_finds(&self, run: &[u32], place: usize) -> Option<Found>
        ensures { option_map found_of result ≡ rule_finds cover_matchers run.now place (Some (coverage_table_of self.now).rule) }
    {
        let matchers = ChainMatchers {
            backtrack: CoveredBy(self.bytes),
            input: CoveredBy(self.bytes),
            lookahead: CoveredBy(self.bytes),
        };
        match &self.rule {
            CoverageRule::Narrow(rule) => rule.find(&matchers, run, place),
            CoverageRule::Wide(rule) => rule.find(&matchers, run, place),
        }
    }

    /// The glyphs that may follow the first one in a match.
    fn seconds(&self, budget: &mut Budget) -> Result<SetDigest, Exhausted>
        ensures { Walked (coverage_step (coverage_table_of self.now)) (allowance_of budget.old) (allowance_of budget.new) result }
    {
        let adding = SecondCoverage(self.bytes);
        match &self.rule {
            CoverageRule::Narrow(rule) => add_rule_alone(rule, &adding, budget),
            CoverageRule::Wide(rule) => add_rule_alone(rule, &adding, budget),
        }
    }
}
