//! Rules and the rules of a set, matched at a place of a run.
ghost use Rattle.std.specs.Prelude.{◌≡◌, Some};
ghost use Rattle.std.specs.Option.{option_map};
ghost use Rattle.opentype.specs.Matching.{rule_finds, rule_matches, set_finds};
ghost use Rattle.opentype.specs.Rules.{rule_in};
ghost use Rattle.rules.specs.Views.{found_of, matchers_of, rule_of, rules_of};

use crate::matching::ValueMatch;
use crate::parsed::ParsedRule;
use crate::sequence::{matches_before, matches_from};
use crate::sets::Rules;
use crate::widths::RuleWidths;
use readers::width::Width;

/// How the values of a rule's three sequences match.
#[derive(Clone, Copy)]
pub struct ChainMatchers<B, I, L> {
    pub backtrack: B,
    pub input: I,
    pub lookahead: L,
}

/// What a rule that matches tells: the length of its input with the first glyph, and the place in the subtable and the
/// number of its records.
#[derive(Clone, Copy)]
pub struct Found {
    pub length: usize,
    pub records: usize,
    pub record_count: u32,
}

impl<'a, W: Width> ParsedRule<'a, W> {
    /// What the rule tells at `place` of `run`, where it matches there. The glyph at the place itself is not asked.
    pub fn find<B: ValueMatch, I: ValueMatch, L: ValueMatch>(
        &self,
        matchers: &ChainMatchers<B, I, L>,
        run: &[u32],
        place: usize,
    ) -> Option<Found>
        ensures { option_map found_of result ≡ rule_finds (matchers_of B.ValueMatch.means I.ValueMatch.means L.ValueMatch.means matchers.now) run.now place (Some (rule_of W.Width.BYTES self.now)) }
    {
        self.matches(matchers, run, place).then_some(Found {
            length: self.input.count as usize + 1,
            records: self.records,
            record_count: self.record_count,
        })
    }

    /// Whether the rule matches at `place` of `run`: inputs follow the place, lookahead follows them, backtrack goes
    /// outwards before it.
    fn matches<B: ValueMatch, I: ValueMatch, L: ValueMatch>(
        &self,
        matchers: &ChainMatchers<B, I, L>,
        run: &[u32],
        place: usize,
    ) -> bool
        ensures { result ≡ rule_matches (matchers_of B.ValueMatch.means I.ValueMatch.means L.ValueMatch.means matchers.now) run.now place (rule_of W.Width.BYTES self.now) }
    {
        let inputs = self.input.count as usize;
        if place >= run.len() || run.len() - place <= inputs {
            return false;
        }
        matches_from::<W, _>(&self.input, &matchers.input, run, place + 1)
            && matches_from::<W, _>(
                &self.lookahead,
                &matchers.lookahead,
                run,
                place + 1 + inputs,
            )
            && matches_before::<W, _>(&self.backtrack, &matchers.backtrack, run, place)
    }
}

impl<'a, F: RuleWidths> Rules<'a, F> {
    /// What the first readable rule that matches at `place` of `run` tells.
    pub fn find<B: ValueMatch, I: ValueMatch, L: ValueMatch>(
        &self,
        matchers: &ChainMatchers<B, I, L>,
        run: &[u32],
        place: usize,
    ) -> Option<Found>
        ensures { option_map found_of result ≡ set_finds (matchers_of B.ValueMatch.means I.ValueMatch.means L.ValueMatch.means matchers.now) run.now place (rules_of F.Offset.BYTES F.Value.BYTES self.now) }
    {
        // Over the rules' bytes, so that no parsed rule is moved through an iterator.
        self.parts()
            .find_map(|part| self.find_in(part, matchers, run, place))
    }

    /// What the rule in these bytes tells, where it is readable and matches at `place` of `run`.
    fn find_in<B: ValueMatch, I: ValueMatch, L: ValueMatch>(
        &self,
        part: Option<&[u8]>,
        matchers: &ChainMatchers<B, I, L>,
        run: &[u32],
        place: usize,
    ) -> Option<Found>
        ensures { option_map found_of result ≡ rule_finds (matchers_of B.ValueMatch.means I.ValueMatch.means L.ValueMatch.means matchers.now) run.now place (rule_in self.now.layout.chained F.Value.BYTES self.now.layout.whole (option_map (λ x. x.now) part.entry)) }
    {
        ParsedRule::<F::Value>::parse(part?, self.layout)?.find(matchers, run, place)
    }
}
