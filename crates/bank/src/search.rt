//! Questions to all subtables of a bank, and what is known of the filters of any bank.
ghost use Rattle.std.specs.Prelude.{◌≡◌, ℕ, length, IfOk, Decides};
ghost use Rattle.answers.specs.Questions.{answered, list_refused, place_refused};
ghost use Rattle.opentype.specs.Meaning.{Sound, subtable};
ghost use Rattle.bank.specs.Searches.{FirstOrNone, SomeApplies, first_hit, some_applies};

use crate::traits::{Filtering, Matching};
use answers::{Hit, Refusal, ask_list, ask_place};

/// Would some subtable of the bank apply to `glyphs`? Refused first: an empty list, and one of more than 65,536 glyphs.
pub fn any_applies<B: Matching>(
    bank: &B,
    glyphs: &[u32],
    zero_context: bool,
) -> Result<bool, Refusal>
    ensures value { result ≡ answered (list_refused (length glyphs.now)) (some_applies (B.Matching.meaning bank.now) glyphs.now zero_context) }
    ensures exactly { IfOk result (λ b. Decides b (SomeApplies (B.Matching.meaning bank.now) glyphs.now zero_context)) }
{
    ask_list(glyphs)?;
    // A bank is asked by number: it has no list of its subtables to go through.
    for k in 0..bank.count() {
        if bank.would_apply(k, glyphs, zero_context)? {
            return Ok(true);
        }
    }
    Ok(false)
}

/// The hit of the first subtable of the bank that matches at `place` of `run`. Refused first: a run of more than 65,536
/// glyphs, and a place that is not in it.
pub fn first_hit<B: Matching>(bank: &B, run: &[u32], place: usize) -> Result<Option<Hit>, Refusal>
    ensures value { result ≡ answered (place_refused (length run.now) place) (first_hit (B.Matching.meaning bank.now) run.now place) }
    ensures exactly { IfOk result (FirstOrNone (B.Matching.meaning bank.now) run.now place) }
{
    ask_place(run, place)?;
    let count = bank.count();
    // Asked by number, as above.
    for k in 0..count {
        if let Some(hit) = bank.hit(k, run, place)? {
            return Ok(Some(hit));
        }
    }
    Ok(None)
}

/// What any bank's filters promise: they hide no list that a subtable would apply to, and no hit.
pub fn filters_hide_nothing<B: Filtering>(bank: &B) -> u8
    ensures sound { (k : ℕ) → Sound (subtable (B.Matching.meaning bank.now) k) }
{
    0
}
