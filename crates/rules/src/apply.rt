//! Rules and the rules of a set, held against a list of glyphs.
ghost use Rattle.std.specs.Prelude.{◌≡◌, Some};
ghost use Rattle.std.specs.Option.{option_map};
ghost use Rattle.opentype.specs.Matching.{rule_applies, set_applies};
ghost use Rattle.opentype.specs.Rules.{rule_in};
ghost use Rattle.rules.specs.Views.{rule_of, rules_of};

use crate::matching::ValueMatch;
use crate::parsed::ParsedRule;
use crate::sequence::matches_from;
use crate::sets::Rules;
use crate::widths::RuleWidths;
use readers::width::Width;

impl<'a, W: Width> ParsedRule<'a, W> {
    /// Whether the rule applies to `glyphs`; where `zero_context`, only without backtrack and lookahead.
    pub fn applies<I: ValueMatch>(&self, input: &I, glyphs: &[u32], zero_context: bool) -> bool
        ensures { result ≡ rule_applies (I.ValueMatch.means input.now) zero_context glyphs.now (Some (rule_of W.Width.BYTES self.now)) }
    {
        glyphs.len() == self.input.count as usize + 1
            && (!zero_context || (self.backtrack.is_empty() && self.lookahead.is_empty()))
            && matches_from::<W, _>(&self.input, input, glyphs, 1)
    }
}

impl<'a, F: RuleWidths> Rules<'a, F> {
    /// Whether some readable rule of the set applies.
    pub fn apply<I: ValueMatch>(&self, input: &I, glyphs: &[u32], zero_context: bool) -> bool
        ensures { result ≡ set_applies (I.ValueMatch.means input.now) zero_context glyphs.now (rules_of F.Offset.BYTES F.Value.BYTES self.now) }
    {
        // Over the rules' bytes, so that no parsed rule is moved through an iterator.
        self.parts()
            .any(|part| self.applies_in(part, input, glyphs, zero_context))
    }

    /// Whether the rule in these bytes is readable and applies.
    fn applies_in<I: ValueMatch>(
        &self,
        part: Option<&[u8]>,
        input: &I,
        glyphs: &[u32],
        zero_context: bool,
    ) -> bool
        ensures { result ≡ rule_applies (I.ValueMatch.means input.now) zero_context glyphs.now (rule_in self.now.layout.chained F.Value.BYTES self.now.layout.whole (option_map (λ x. x.now) part.entry)) }
    {
        let Some(bytes) = part else {
            return false;
        };
        let Some(rule) = ParsedRule::<F::Value>::parse(bytes, self.layout) else {
            return false;
        };
        rule.applies(input, glyphs, zero_context)
    }
}
