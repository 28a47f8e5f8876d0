//! Working off a sheet of calls.
ghost use Rattle.std.specs.Prelude.{◌≡◌, map, length};
ghost use Rattle.calls.specs.Answers.{Does, answer_to, hits_after, words_after};
ghost use Rattle.calls.specs.Replied.{WorkedOff, outcome_then, sheet};
ghost use Rattle.calls.specs.Sheets.{calls_of, event, event_of, outcome_of};
ghost use Rattle.digest.specs.Allowances.{allowance_of};

use answers::Hit;
use bank::{Filtering, Matching};
use book::Book;
use calls::{Answer, Call, Granted, Left, Line};
use digest::budget::Budget;
use opening::open::{open, open_wide};

/// Makes one call, with the lists that are lent to it.
#[tactic(auto, using(crate::proofs::Openings::opening_draws_left))]
fn ask<B: Filtering, O: Filtering>(
    book: &mut Book<B>,
    beside: &O,
    budget: &mut Budget,
    call: Call<'_>,
    hits: &mut [Hit],
    words: &mut [u64],
) -> Answer
    ensures same { book.new.bank ≡ book.old.bank }
    ensures does { Does (B.Matching.meaning book.old.bank) (event (O.Matching.meaning beside.now) call.entry (length hits.old) (length words.old)) book.old.slots.table book.new.slots.table (allowance_of budget.old) (allowance_of budget.new) }
    ensures answer { result ≡ answer_to (B.Matching.meaning book.old.bank) (event (O.Matching.meaning beside.now) call.entry (length hits.old) (length words.old)) book.old.slots.table (allowance_of budget.old) }
    ensures hits { hits.new ≡ hits_after (B.Matching.meaning book.old.bank) (event (O.Matching.meaning beside.now) call.entry (length hits.old) (length words.old)) book.old.slots.table hits.old }
    ensures words { words.new ≡ words_after (event (O.Matching.meaning beside.now) call.entry (length hits.old) (length words.old)) (allowance_of budget.old) words.old }
{
    match call {
        Call::Open(bytes, chained) => open(bytes, chained, budget).map(|_| Granted::Done),
        Call::OpenWide(bytes, parts) => open_wide(bytes, parts, budget).map(|_| Granted::Done),
        Call::Fill(view) => view.fill_words(words, budget).map(|_| Granted::Done),
        Call::Filter(k) => book.filter(k, budget).map(|_| Granted::Done),
        Call::FilterBeside(k) => beside.digest_second(k, budget).map(Granted::Digest),
        Call::Forget(k) => book.forget(k).map(|_| Granted::Done),
        Call::State(k) => book.state(k).map(Granted::StateIs),
        Call::WouldApply(glyphs, zero_context) => {
            book.would_apply(glyphs, zero_context).map(Granted::Applies)
        }
        Call::Scan(run) => book.scan(run, hits).map(Granted::Scanned),
        Call::Anew => {
            book.anew();
            Ok(Granted::Done)
        }
    }
}

/// Works off one line.
fn work<B: Filtering, O: Filtering>(
    book: &mut Book<B>,
    beside: &O,
    budget: &mut Budget,
    line: &mut Line<'_>,
)
    ensures same { book.new.bank ≡ book.old.bank }
    ensures does { Does (B.Matching.meaning book.old.bank) (event_of (O.Matching.meaning beside.now) line.old) book.old.slots.table book.new.slots.table (allowance_of budget.old) (allowance_of budget.new) }
    ensures call { line.new.call ≡ line.old.call }
    ensures came { outcome_of line.new ≡ outcome_then (B.Matching.meaning book.old.bank) (event_of (O.Matching.meaning beside.now) line.old) (record { slots = book.old.slots.table; left = allowance_of budget.old }) (outcome_of line.old) }
{
    let answer = ask(
        book,
        beside,
        budget,
        line.call,
        &mut line.hits,
        &mut line.words,
    );
    line.answer = Some(answer);
    line.left = Left::of(budget);
}

/// Works off a sheet of calls, in order, on a new book over the bank, and writes into each line its answer and what is
/// left of the allowance after it. Every answer, list and rest is what it is defined to be after the calls before it, and
/// the sheet keeps the promise: scans are complete and counted by the try rule, would-apply is exact, and the allowance
/// adds up.
pub fn replay<B: Filtering, O: Filtering>(
    bank: B,
    beside: &O,
    budget: &mut Budget,
    lines: &mut [Line<'_>],
) -> Book<B>
    ensures same { result.bank ≡ bank }
    ensures calls { calls_of lines.new ≡ calls_of lines.old }
    ensures worked_off { WorkedOff (sheet (O.Matching.meaning beside.now) (B.Matching.meaning bank) (allowance_of budget.old) (allowance_of budget.new) lines.old lines.new) (map outcome_of lines.old) result.slots.table }
{
    let mut book = Book::new(bank);
    // By index: an edit that leaves a line out would turn the type of an iterator, and be refused for that alone.
    for i in 0..lines.len() {
        work(&mut book, beside, budget, &mut lines[i]);
    }
    book
}
