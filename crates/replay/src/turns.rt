//! One book after another, on the same allowance.
ghost use Rattle.std.specs.Prelude.{◌≡◌, ◌++◌, map};
ghost use Rattle.calls.specs.Events.{beside, leaves};
ghost use Rattle.calls.specs.Promise.{AddsUp, Promise};
ghost use Rattle.calls.specs.Replied.{Replied, WorkedOff, sheet};
ghost use Rattle.calls.specs.Sheets.{calls_of, event_of, outcome_of};
ghost use Rattle.digest.specs.Allowances.{allowance_of};

use crate::working::replay;
use bank::{Filtering, Matching};
use book::Book;
use calls::Line;
use digest::budget::Budget;

/// The bank of the first book, which is ended, and the second book.
pub struct Turns<A, B> {
    pub ended: A,
    pub book: Book<B>,
}

/// Works off a sheet on a new book, ends that book, and works off another sheet on a book over another bank. Each
/// keeps the promise, and the second begins with what the first leaves. The tally goes on: the ended book's calls come
/// first.
pub fn in_turn<A: Filtering, B: Filtering, O: Filtering, Q: Filtering>(
    first: A,
    first_beside: &O,
    first_lines: &mut [Line<'_>],
    second: B,
    second_beside: &Q,
    second_lines: &mut [Line<'_>],
    budget: &mut Budget,
) -> Turns<A, B>
    ensures same { (result.ended ≡ first) × (result.book.bank ≡ second) }
    ensures calls { (calls_of first_lines.new ≡ calls_of first_lines.old) × (calls_of second_lines.new ≡ calls_of second_lines.old) }
    ensures first { let aside = O.Matching.meaning first_beside.now in
        let bank = A.Matching.meaning first in
        let given = allowance_of budget.old in
        let x = sheet aside bank given (leaves bank given (map (event_of aside) first_lines.old)) first_lines.old first_lines.new in
        (Replied x (map outcome_of first_lines.old)) × (Promise x) }
    ensures second { let between = leaves (A.Matching.meaning first) (allowance_of budget.old) (map (event_of (O.Matching.meaning first_beside.now)) first_lines.old) in
        let y = sheet (Q.Matching.meaning second_beside.now) (B.Matching.meaning second) between (allowance_of budget.new) second_lines.old second_lines.new in
        WorkedOff y (map outcome_of second_lines.old) result.book.slots.table }
    ensures adds_up { let calls = map (event_of (O.Matching.meaning first_beside.now)) first_lines.old in
        let more = map (event_of (Q.Matching.meaning second_beside.now)) second_lines.old in
        AddsUp (B.Matching.meaning second) (allowance_of budget.old) (map (beside (A.Matching.meaning first)) calls ++ more) (allowance_of budget.new) }
{
    let ended = replay(first, first_beside, budget, first_lines).end();
    let book = replay(second, second_beside, budget, second_lines);
    Turns { ended, book }
}
