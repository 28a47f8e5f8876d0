//! The words of a class subtable's rule sets: which first input classes the rules of each set have, modulo 64.
#![tactic(auto)]

ghost use Rattle.std.specs.Prelude.{◌≡◌, ℕ, ◌+◌, ◌^◌, ◌<◌, ◌≤◌, Bool, length, is_ok, IfOk, Some, slice_index};
ghost use Rattle.std.specs.Option.{option_map};
ghost use Rattle.opentype.specs.Draws.{Drew};
ghost use Rattle.opentype.specs.Rules.{first_input_by, first_input_in};
ghost use Rattle.opentype.specs.Words.{set_draws, word_below, word_draws, word_of};
ghost use Rattle.digest.specs.Allowances.{allowance_of};
ghost use Rattle.rules.specs.Views.{parts_of};
ghost use Rattle.rule_words.specs.Fills.{entry_of, fill_answer, fill_leaves, fill_stores, firsts_in, firsts_of, stored_below};

use answers::Refusal;
use digest::budget::{Budget, Exhausted};
use digest::rule_set_digest::RuleSetDigest;
use readers::bytes::{number, read};
use readers::width::Two;
use rules::rule_sets::RuleSets;
use rules::sets::{RuleSet, Rules};
use rules::widths::RuleWidths;

/// The bytes of a word.
const WORD_BYTES: u64 = 8;

/// The bytes of a class, and of a count.
const CLASS_BYTES: usize = 2;

/// The bytes of a plain rule's two counts.
const PLAIN_FIELDS: usize = 4;

/// The bytes of a chained rule's four counts.
const CHAINED_FIELDS: usize = 8;

/// An input count with a first value: the first glyph is counted, and has none.
const INPUTS_WITH_FIRST: u32 = 2;

/// Stores the word of each set in `words`, in order. A buffer shorter than the sets is refused, and nothing is drawn. The
/// set count is drawn, 8 bytes for each, and the rule count of each set before its word is stored: where a draw is
/// refused, the words before it stay, and the rest of the buffer is as it was.
pub fn fill_words<F: RuleWidths>(
    sets: &RuleSets<F>,
    words: &mut [u64],
    budget: &mut Budget,
) -> Result<(), Refusal>
    ensures answer { result ≡ fill_answer (firsts_of F.Set.BYTES F.Offset.BYTES sets.now) (length words.old) (allowance_of budget.old) }
    ensures left { allowance_of budget.new ≡ fill_leaves (firsts_of F.Set.BYTES F.Offset.BYTES sets.now) (length words.old) (allowance_of budget.old) }
    ensures buffer { let all = firsts_of F.Set.BYTES F.Offset.BYTES sets.now in ((k : ℕ) → slice_index words.new k ≡ entry_of all (fill_stores all (length words.old) (allowance_of budget.old)) words.old k) }
{
    if words.len() < sets.len() as usize {
        return Err(Refusal::ShortBuffer);
    }
    fill(sets, words, budget)?;
    Ok(())
}

/// The same for a buffer that has room.
fn fill<F: RuleWidths>(
    sets: &RuleSets<F>,
    words: &mut [u64],
    budget: &mut Budget,
) -> Result<(), Exhausted>
    requires room { sets.now.offsets.count ≤ length words.old }
    ensures drew { Drew (word_draws (firsts_of F.Set.BYTES F.Offset.BYTES sets.now)) (allowance_of budget.old) (allowance_of budget.new) (is_ok result) }
    ensures buffer { let all = firsts_of F.Set.BYTES F.Offset.BYTES sets.now in ((k : ℕ) → slice_index words.new k ≡ entry_of all (stored_below all all.count (allowance_of budget.old)) words.old k) }
{
    let count = u64::from(sets.len());
    budget.work(count)?;
    budget.bytes(WORD_BYTES * count)?;
    // By index: no proof knows afterwards what was written through a zipped `iter_mut`.
    for (i, offset) in (0..words.len()).zip(sets.offsets.iter::<F::Set>()) {
        words[i] = set_word(sets, offset, budget)?.word();
    }
    Ok(())
}

/// The word of the set at `offset`, after a draw of its rule count: empty where the set is null, all ones where it is
/// unreadable or a rule has no first input. Compiled apart from `fill`, in which the loop over the rules lacks registers.
#[inline(never)]
fn set_word<F: RuleWidths>(
    sets: &RuleSets<F>,
    offset: u32,
    budget: &mut Budget,
) -> Result<RuleSetDigest, Exhausted>
    ensures drew { Drew (set_draws (firsts_in F.Offset.BYTES sets.now offset)) (allowance_of budget.old) (allowance_of budget.new) (is_ok result) }
    ensures word { IfOk result (λ d. d.word ≡ word_of (firsts_in F.Offset.BYTES sets.now offset)) }
{
    match RuleSet::<F>::at(sets.bytes, sets.layout(), offset) {
        RuleSet::Null => Ok(RuleSetDigest::new()),
        RuleSet::Unreadable => Ok(RuleSetDigest::full()),
        RuleSet::Rules(rules) => {
            budget.work(u64::from(rules.len()))?;
            Ok(rules_word(&rules, sets.chained).unwrap_or(RuleSetDigest::full()))
        }
    }
}

/// The word of a set's rules: none where a rule has no first input. `chained` goes beside the rules, since that a set keeps
/// the layout of its subtable is said of parsed rules alone.
fn rules_word<F: RuleWidths>(rules: &Rules<F>, chained: bool) -> Option<RuleSetDigest>
    ensures word { let parts = parts_of F.Offset.BYTES rules.now in option_map (λ d. d.word) result ≡ word_below (λ k. first_input_in chained 2 (parts.entry k)) parts.count }
{
    let mut digest = RuleSetDigest::new();
    for rule in rules.parts() {
        digest.add(first_input(rule?, chained)?);
    }
    Some(digest)
}

/// The first input of a rule, where it has one. The rest of the rule is not read.
fn first_input(rule: &[u8], chained: bool) -> Option<u32>
    ensures value { result ≡ first_input_in chained 2 (Some rule.now) }
{
    if chained {
        let backtracks = number::<Two>(rule, 0) as usize;
        let place = CLASS_BYTES + CLASS_BYTES * backtracks;
        first_value(rule, CHAINED_FIELDS, place, place + CLASS_BYTES)
    } else {
        first_value(rule, PLAIN_FIELDS, 0, PLAIN_FIELDS)
    }
}

/// The value at `value_place`, where the rule's fixed fields and the value lie inside, and the count says that there is
/// one.
fn first_value(rule: &[u8], fixed: usize, count_place: usize, value_place: usize) -> Option<u32>
    ensures value { result ≡ first_input_by 2 rule.now fixed count_place value_place }
{
    if rule.len() < fixed || number::<Two>(rule, count_place) < INPUTS_WITH_FIRST {
        return None;
    }
    read::<Two>(rule, value_place)
}
