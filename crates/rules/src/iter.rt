//! The rules of a set, their bytes, and the sets of a subtable, each read by its index.
ghost use Rattle.std.specs.Prelude.{ℕ, List, Option};
ghost use Rattle.std.specs.Option.{option_map};
ghost use Rattle.opentype.specs.Rules.{Rule, RuleSet as Set};
ghost use Rattle.rules.specs.Views.{parts_of, rule_of, rule_set_of, rules_of, sets_of};

use crate::parsed::ParsedRule;
use crate::rule_sets::RuleSets;
use crate::sets::{RuleSet, Rules};
use crate::widths::RuleWidths;
use readers::each::Indexed;

// Each rule, where it is readable.
impl<'a, F: RuleWidths> Indexed for Rules<'a, F> {
    type Item = Option<ParsedRule<'a, F::Value>>;

    ghost Shown = { Option (Rule ℕ) };

    ghost shows = { option_map (rule_of F.Value.BYTES) };

    ghost array = { rules_of F.Offset.BYTES F.Value.BYTES };

    fn size(&self) -> u32 {
        self.offsets.len()
    }

    fn item(&self, index: u32) -> Option<ParsedRule<'a, F::Value>> {
        self.parsed(index)
    }
}

/// The bytes of the rules of a set, each from its offset to the set's end: none where the offset passes it.
#[derive_where(Clone, Copy)]
pub struct Parts<'a, F>(pub Rules<'a, F>);

impl<'a, F: RuleWidths> Indexed for Parts<'a, F> {
    type Item = Option<&'a [u8]>;

    ghost Shown = { Option (List ℕ) };

    ghost shows = { option_map (λ x. x.now) };

    ghost array = { λ s. parts_of F.Offset.BYTES s.0 };

    fn size(&self) -> u32 {
        self.0.len()
    }

    fn item(&self, index: u32) -> Option<&'a [u8]> {
        self.0.rule(index)
    }
}

impl<'a, F: RuleWidths> Indexed for RuleSets<'a, F> {
    type Item = RuleSet<'a, F>;

    ghost Shown = { Set (Option (Rule ℕ)) };

    ghost shows = { rule_set_of F.Offset.BYTES F.Value.BYTES };

    ghost array = { sets_of F.Set.BYTES F.Offset.BYTES F.Value.BYTES };

    fn size(&self) -> u32 {
        self.len()
    }

    fn item(&self, index: u32) -> RuleSet<'a, F> {
        self.set(index)
    }
}
