//! The lines from `book` to the end of the book: one list of calls, worked off together.
ghost use Rattle.std.specs.Prelude.{◌≤◌, length};

use crate::desk::{MOST_WORDS, UNFILLED, answered, at, at_any_time, nth};
use crate::failed::Failed;
use answers::questions::MOST_GLYPHS;
use answers::{Hit, Refusal};
use bank::traits::Matching;
use calls::{Call, Granted, Left, Line};
use context::subtable::Subtable;
use digest::budget::Budget;
use lookup::list::Lookup;
use replay::replay;
use replies::reply::{Denied, Reply, Response};
use script::command::{BookCommand, Command};
use script::reader::Script;
use std::alloc::{AllocError, Global};
use words::fault::Fault;

/// What a list of hits holds before a scan.
const NO_HIT: Hit = Hit {
    place: 0,
    subtable: 0,
    length: 0,
    records: 0,
    record_count: 0,
};

/// How many of the lines after `book` are its: up to `end`, and before a new allowance.
pub(crate) fn sheet_length(lines: &[Result<Command, Fault>]) -> usize
    ensures { result ≤ length lines.now }
{
    // By index: `position` tells which line ends the sheet, and not whether that line is the book's own.
    for (i, said) in lines.iter().enumerate() {
        match said {
            Ok(Command::OnBook(BookCommand::End)) => return i + 1,
            Ok(Command::Allowance { .. }) => return i,
            _ => {}
        }
    }
    lines.len()
}

/// A bank for a book, and the bank beside it.
#[derive(Drop)]
pub(crate) struct Banks<'a> {
    pub bank: Lookup<'a>,
    pub beside: Lookup<'a>,
}

/// What a line comes to.
#[derive(Drop)]
enum Step {
    /// The next call of the list answers it.
    Called,
    /// It reads what is left after the calls so far.
    Left,
    /// It is answered already.
    Said(Response),
}

/// The lines of a book as a list of calls.
#[derive(Drop)]
pub(crate) struct Sheet<'view> {
    heap: Global,
    count: u32,
    steps: Vec<Step>,
    lines: Vec<Line<'view>>,
}

impl<'view> Sheet<'view> {
    /// No lines yet, of a book of so many subtables.
    pub(crate) fn new(heap: Global, count: u32) -> Self {
        Sheet {
            heap,
            count,
            steps: Vec::new(heap),
            lines: Vec::new(heap),
        }
    }

    /// Adds a line.
    pub(crate) fn add<'s: 'view, 'a: 'view>(
        &mut self,
        script: &'s Script,
        beside: &'view Lookup<'a>,
        said: Result<Command, Fault>,
    ) -> Result<(), AllocError> {
        // A match: a command comes to a step, for which there has to be memory, and a fault does not.
        let step = match said {
            Ok(command) => answered(self.step(script, beside, command))?,
            Err(fault) => Err(fault.into()),
        };
        self.steps
            .push(step.unwrap_or_else(|denied| Step::Said(Err(denied))))?;
        Ok(())
    }

    /// What a command comes to.
    fn step<'s: 'view, 'a: 'view>(
        &mut self,
        script: &'s Script,
        beside: &'view Lookup<'a>,
        command: Command,
    ) -> Result<Step, Failed> {
        let bytes = script.bytes.as_slice();
        match command {
            Command::Left => Ok(Step::Left),
            Command::Open { table, chained } => self.call(Call::Open(at(bytes, table), chained)),
            Command::OpenWide { table, parts } => {
                self.call(Call::OpenWide(at(bytes, table), parts))
            }
            Command::OnBook(command) => self.on_book(script, beside, command),
            _ => Ok(Step::Said(at_any_time(script, command).unwrap_or(Err(Denied::BookOpen)))),
        }
    }

    /// What a command on the book comes to.
    fn on_book<'s: 'view, 'a: 'view>(
        &mut self,
        script: &'s Script,
        beside: &'view Lookup<'a>,
        command: BookCommand,
    ) -> Result<Step, Failed> {
        let runs = script.glyphs.as_slice();
        match command {
            BookCommand::Filter { subtable } => self.call(Call::Filter(subtable)),
            BookCommand::Forget { subtable } => self.call(Call::Forget(subtable)),
            BookCommand::State { subtable } => self.call(Call::State(subtable)),
            BookCommand::WouldApply {
                zero_context,
                glyphs,
            } => self.call(Call::WouldApply(at(runs, glyphs), zero_context)),
            BookCommand::Scan { count, glyphs } => self.scan(count, at(runs, glyphs)),
            BookCommand::MasksBeside { subtable } => self.call(Call::FilterBeside(subtable)),
            BookCommand::WordsBeside { subtable, count } => self.fill(beside, subtable, count),
            BookCommand::Anew => self.call(Call::Anew),
            BookCommand::End => Ok(Step::Said(Ok(Reply::Ended(self.count)))),
        }
    }

    /// A call that wants no lists.
    fn call(&mut self, call: Call<'view>) -> Result<Step, Failed> {
        self.push(call, Vec::new(self.heap), Vec::new(self.heap))
    }

    /// A scan into a list of so many entries. No run has more hits than glyphs, so that entries past the most glyphs of a
    /// run are never written or told.
    fn scan(&mut self, count: u32, run: &'view [u32]) -> Result<Step, Failed> {
        let entries = (count as usize).min(MOST_GLYPHS);
        let hits = Vec::from_elem(self.heap, NO_HIT, entries)?;
        self.push(Call::Scan(run), hits, Vec::new(self.heap))
    }

    /// A fill of the words of a subtable beside the book, into a buffer of so many words.
    fn fill<'a: 'view>(
        &mut self,
        beside: &'view Lookup<'a>,
        subtable: u32,
        count: u32,
    ) -> Result<Step, Failed> {
        let Subtable::Classes(view) = nth(beside.subtables(), subtable)? else {
            return Err(Denied::NotClasses.into());
        };
        if count > MOST_WORDS {
            return Err(Denied::TooLargeABuffer.into());
        }
        let words = Vec::from_elem(self.heap, UNFILLED, count as usize)?;
        self.push(Call::Fill(view), Vec::new(self.heap), words)
    }

    /// Adds a call with the lists lent to it.
    fn push(&mut self, call: Call<'view>, hits: Vec<Hit>, words: Vec<u64>) -> Result<Step, Failed> {
        self.lines.push(Line {
            call,
            hits,
            words,
            answer: None,
            left: Left { work: 0, bytes: 0 },
        })?;
        Ok(Step::Called)
    }

    /// Works the calls off on a new book, and ends it.
    pub(crate) fn work<'c>(
        &mut self,
        bank: Lookup<'c>,
        beside: &Lookup<'c>,
        budget: &mut Budget,
    ) -> Lookup<'c> {
        replay(bank, beside, budget, &mut self.lines).end()
    }

    /// What every line is answered, where so much of the allowance was left before the first.
    pub(crate) fn responses(self, before: Left) -> Result<Vec<Response>, AllocError> {
        let Sheet {
            heap,
            count,
            steps,
            lines,
        } = self;
        let mut responses = Vec::new(heap);
        responses.push(Ok(Reply::Book(count)))?;
        let mut lines = lines.into_iter();
        let mut left = before;
        for step in steps {
            let response = match step {
                Step::Said(response) => response,
                Step::Left => Ok(Reply::Left {
                    work: left.work,
                    bytes: left.bytes,
                }),
                // A match: a closure would change what is left.
                Step::Called => match lines.next() {
                    Some(line) => {
                        left = line.left;
                        told(line, count)
                    }
                    None => Err(Denied::NoBook),
                },
            };
            responses.push(response)?;
        }
        Ok(responses)
    }
}

/// What a line that was worked off is answered, on a book of so many subtables.
fn told(line: Line<'_>, count: u32) -> Response {
    let Line {
        call,
        hits,
        words,
        answer,
        left: _,
    } = line;
    // A match: what was granted makes five replies, and a refusal takes the lists with it.
    match answer.unwrap_or(Ok(Granted::Done)) {
        Ok(Granted::Done) => Ok(done(call, words, count)),
        Ok(Granted::StateIs(state)) => Ok(Reply::State(state)),
        Ok(Granted::Applies(yes)) => Ok(Reply::Applies(yes)),
        Ok(Granted::Scanned(counts)) => Ok(Reply::Scan {
            hits: counts.hits,
            tries: counts.tries,
            list: hits,
        }),
        Ok(Granted::Digest(digest)) => Ok(Reply::Masks(digest.masks())),
        Err(refusal) => Err(refused(call, refusal, hits, words)),
    }
}

/// Why a call was refused. A scan and a fill tell what they wrote.
fn refused(call: Call<'_>, refusal: Refusal, hits: Vec<Hit>, words: Vec<u64>) -> Denied {
    match (call, refusal) {
        (Call::Scan(_), Refusal::ListFull) => Denied::ScanRefused {
            refusal,
            list: hits,
        },
        (Call::Fill(_), Refusal::Exhausted) => Denied::WordsRefused { refusal, words },
        _ => refusal.into(),
    }
}

/// The answer of a call that was granted and tells nothing.
fn done(call: Call<'_>, words: Vec<u64>, count: u32) -> Reply {
    match call {
        Call::Fill(view) => Reply::Words {
            count: view.set_count(),
            words,
        },
        Call::Filter(_) => Reply::Filtered,
        Call::Forget(_) => Reply::Forgotten,
        Call::Anew => Reply::Anew(count),
        _ => Reply::Opened,
    }
}
