//! Two books, each with any sheet of calls of its own.
ghost use Rattle.std.specs.Prelude.{◌≡◌, map};
ghost use Rattle.calls.specs.Promise.{Agree};
ghost use Rattle.calls.specs.Replied.{WorkedOff, sheet};
ghost use Rattle.calls.specs.Sheets.{calls_of, outcome_of};
ghost use Rattle.digest.specs.Allowances.{allowance_of};

use crate::working::replay;
use bank::{Filtering, Matching};
use book::Book;
use calls::Line;
use digest::budget::Budget;

/// The two books, after their calls.
pub struct Audited<A, B> {
    pub one: Book<A>,
    pub other: Book<B>,
}

/// Works off a sheet of calls on each of two new books. Each keeps the promise; and on banks of one meaning, whatever
/// their types, the two agree: accepted scans of the same run have the same hits, and where the one holds every filter
/// that the other holds, it makes no more tries.
// A bank, the bank beside it, an allowance and a sheet go in singly, as `replay` takes them: a struct of the four would be
// taken apart at once, and could not serve `in_turn`, where two books share an allowance.
pub fn audit<A: Filtering, B: Filtering, O: Filtering, Q: Filtering>(
    one: A,
    one_beside: &O,
    one_budget: &mut Budget,
    one_lines: &mut [Line<'_>],
    other: B,
    other_beside: &Q,
    other_budget: &mut Budget,
    other_lines: &mut [Line<'_>],
) -> Audited<A, B>
    ensures same { (result.one.bank ≡ one) × (result.other.bank ≡ other) }
    ensures calls { (calls_of one_lines.new ≡ calls_of one_lines.old) × (calls_of other_lines.new ≡ calls_of other_lines.old) }
    ensures one { WorkedOff (sheet (O.Matching.meaning one_beside.now) (A.Matching.meaning one) (allowance_of one_budget.old) (allowance_of one_budget.new) one_lines.old one_lines.new) (map outcome_of one_lines.old) result.one.slots.table }
    ensures other { WorkedOff (sheet (Q.Matching.meaning other_beside.now) (B.Matching.meaning other) (allowance_of other_budget.old) (allowance_of other_budget.new) other_lines.old other_lines.new) (map outcome_of other_lines.old) result.other.slots.table }
    ensures agree { let x = sheet (O.Matching.meaning one_beside.now) (A.Matching.meaning one) (allowance_of one_budget.old) (allowance_of one_budget.new) one_lines.old one_lines.new in
        let y = sheet (Q.Matching.meaning other_beside.now) (B.Matching.meaning other) (allowance_of other_budget.old) (allowance_of other_budget.new) other_lines.old other_lines.new in
        (A.Matching.meaning one ≡ B.Matching.meaning other → Agree x y × Agree y x) }
{
    let one = replay(one, one_beside, one_budget, one_lines);
    let other = replay(other, other_beside, other_budget, other_lines);
    Audited { one, other }
}
