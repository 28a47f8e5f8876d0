//! What the commands of a script work on.
ghost use Rattle.std.specs.Prelude.{◌≡◌};
ghost use Rattle.panel.specs.Answers.{answer_of};

use crate::failed::Failed;
use crate::sheet::{Banks, Sheet};
use answers::Refusal;
use bank::subtable::ContextSubtable;
use bank::traits::Matching;
use calls::Left;
use context::subtable::Subtable;
use digest::budget::Budget;
use digest::set_digest::SetDigest;
use lookup::list::Lookup;
use opening::open::{open, open_wide};
use replies::reply::{Denied, Reply, Response};
use script::command::Command;
use script::reader::Script;
use std::alloc::{AllocError, Global};
use tables::class::ClassDef;
use tables::coverage::Coverage;
use words::fault::Fault;
use words::span::Span;

/// What every word of a buffer holds before a fill.
pub(crate) const UNFILLED: u64 = 0x5555_5555_5555_5555;

/// The most words of a buffer: a subtable has fewer sets than it may have bytes.
pub(crate) const MOST_WORDS: u32 = 16_777_216;

/// What the commands so far leave: the allowance, the subtables that are listed, and those that were put aside.
pub struct Desk<'a> {
    heap: Global,
    budget: Budget,
    listed: Vec<Subtable<'a>>,
    aside: Vec<Subtable<'a>>,
}

impl<'a> Desk<'a> {
    /// An allowance of nothing, and no subtables.
    pub fn new(heap: Global) -> Self {
        Desk {
            heap,
            budget: Budget::new(0, 0),
            listed: Vec::new(heap),
            aside: Vec::new(heap),
        }
    }

    /// Answers a line while there is no book. One that would start a book comes here only where it cannot be started.
    pub(crate) fn answer(
        &mut self,
        script: &'a Script,
        said: Result<Command, Fault>,
    ) -> Result<Response, AllocError> {
        // Three cases, of two types within one another: no method tells them apart.
        match said {
            Ok(Command::Book) => Ok(Err(Refusal::TooManySubtables.into())),
            Ok(command) => answered(self.carry_out(script, command)),
            Err(fault) => Ok(Err(fault.into())),
        }
    }

    /// Carries one command out, while there is no book.
    pub fn carry_out(&mut self, script: &'a Script, command: Command) -> Result<Reply, Failed> {
        // A match: one arm may leave by `?`, the other works on the desk.
        match at_any_time(script, command) {
            Some(response) => Ok(response?),
            None => self.without_a_book(script, command),
        }
    }

    /// Carries out a command that works on the allowance or on the lists.
    fn without_a_book(&mut self, script: &'a Script, command: Command) -> Result<Reply, Failed> {
        let runs = script.glyphs.as_slice();
        match command {
            Command::Allowance { work, bytes } => Ok(self.renew(work, bytes)),
            Command::Left => Ok(self.left()),
            Command::Open { table, chained } => {
                let opened = open(
                    at(script.bytes.as_slice(), table),
                    chained,
                    &mut self.budget,
                )?;
                self.list(opened)
            }
            Command::OpenWide { table, parts } => {
                let opened = open_wide(
                    at(script.bytes.as_slice(), table),
                    parts,
                    &mut self.budget,
                )?;
                self.list(opened)
            }
            Command::Hit {
                subtable,
                place,
                glyphs,
            } => {
                let hit = nth(&self.listed, subtable)?.hit(at(runs, glyphs), place)?;
                Ok(Reply::Hit(hit))
            }
            Command::Applies {
                subtable,
                zero_context,
                glyphs,
            } => {
                let subtable = nth(&self.listed, subtable)?;
                let applies = subtable.would_apply(at(runs, glyphs), zero_context)?;
                Ok(Reply::Applies(applies))
            }
            Command::Aside => self.put_aside(),
            Command::Masks { subtable } => {
                let digest = nth(&self.listed, subtable)?.digest(&mut self.budget)?;
                Ok(Reply::Masks(digest.masks()))
            }
            Command::Words { subtable, count } => self.words(subtable, count),
            _ => Err(Denied::NoBook.into()),
        }
    }

    /// Starts over with a new allowance.
    fn renew(&mut self, work: u64, bytes: u64) -> Reply {
        let old = std::mem::replace(&mut self.budget, Budget::new(work, bytes));
        old.end();
        self.listed.clear();
        self.aside.clear();
        Reply::Allowance { work, bytes }
    }

    /// Reads the allowance.
    fn left(&self) -> Reply {
        let Left { work, bytes } = Left::of(&self.budget);
        Reply::Left { work, bytes }
    }

    /// Lists a subtable that was opened.
    fn list(&mut self, subtable: Subtable<'a>) -> Result<Reply, Failed> {
        let number = self.listed.len();
        self.listed.push(subtable)?;
        Ok(Reply::Open(number))
    }

    /// Puts the last listed subtable aside.
    fn put_aside(&mut self) -> Result<Reply, Failed> {
        let subtable = self.listed.pop().ok_or(Denied::NothingListed)?;
        let number = self.aside.len();
        self.aside.push(subtable)?;
        Ok(Reply::Aside(number))
    }

    /// Fills the rule-set words of a listed subtable into a buffer of so many words.
    fn words(&mut self, number: u32, count: u32) -> Result<Reply, Failed> {
        let Subtable::Classes(view) = nth(&self.listed, number)? else {
            return Err(Denied::NotClasses.into());
        };
        let mut words = Vec::from_elem(self.heap, UNFILLED, count as usize)?;
        // A match: a refused fill tells its buffer, but for one that was too short.
        match view.fill_words(&mut words, &mut self.budget) {
            Ok(()) => Ok(Reply::Words {
                count: view.set_count(),
                words,
            }),
            Err(Refusal::ShortBuffer) => Err(Refusal::ShortBuffer.into()),
            Err(refusal) => Err(Denied::WordsRefused { refusal, words }.into()),
        }
    }

    /// Makes the listed subtables a bank, and those put aside another. More than 32 of either stay where they are.
    pub(crate) fn banks(&mut self) -> Option<Banks<'a>> {
        let bank = taken(self.heap, &mut self.listed)?;
        // The other arm puts the subtables back.
        match taken(self.heap, &mut self.aside) {
            Some(beside) => Some(Banks { bank, beside }),
            None => {
                self.listed = bank.into_list();
                None
            }
        }
    }

    /// Works off the lines of a book, from its start to its end, and lists the subtables again.
    pub(crate) fn work_book(
        &mut self,
        script: &'a Script,
        banks: Banks<'a>,
        lines: &[Result<Command, Fault>],
    ) -> Result<Vec<Response>, AllocError> {
        let Banks { bank, beside } = banks;
        let before = Left::of(&self.budget);
        let mut sheet = Sheet::new(self.heap, bank.count());
        for said in lines {
            sheet.add(script, &beside, *said)?;
        }
        let bank = sheet.work(bank, &beside, &mut self.budget);
        let responses = sheet.responses(before)?;
        self.listed = bank.into_list();
        self.aside = beside.into_list();
        Ok(responses)
    }

    /// Lets everything go.
    pub fn end(self) {
        let Desk {
            heap: _,
            budget,
            listed: _,
            aside: _,
        } = self;
        budget.end();
    }
}

/// A bank of all subtables of a list. More than 32 stay where they are.
fn taken<'a>(heap: Global, list: &mut Vec<Subtable<'a>>) -> Option<Lookup<'a>> {
    // The other arm puts the subtables back.
    match Lookup::new(std::mem::replace(list, Vec::new(heap))) {
        Ok(bank) => Some(bank),
        Err(subtables) => {
            *list = subtables;
            None
        }
    }
}

/// Subtable `number` of a list.
pub(crate) fn nth<'l, 'a>(
    list: &'l [Subtable<'a>],
    number: u32,
) -> Result<&'l Subtable<'a>, Denied> {
    list.get(number as usize).ok_or(Denied::NoSubtable)
}

/// What a command is answered, where there was memory for it.
pub(crate) fn answered<T: Drop>(done: Result<T, Failed>) -> Result<Result<T, Denied>, AllocError>
    ensures { result ≡ answer_of done }
{
    // No method turns one result into two by the kind of its error.
    match done {
        Ok(value) => Ok(Ok(value)),
        Err(Failed::Denied(denied)) => Ok(Err(denied)),
        Err(Failed::NoMemory(error)) => Err(error),
    }
}

/// Carries out a command that stands on its arguments alone; none of the others.
pub(crate) fn at_any_time(script: &Script, command: Command) -> Option<Response> {
    let bytes = script.bytes.as_slice();
    match command {
        Command::Coverage { table, glyph } => {
            let index = Coverage::new(at(bytes, table)).get(glyph);
            Some(Ok(Reply::Index(index)))
        }
        Command::Class { table, glyph } => {
            let class = ClassDef::new(at(bytes, table)).get(glyph);
            Some(Ok(Reply::Class(class)))
        }
        Command::DigestOf { glyphs } => Some(Ok(masks_of(at(script.glyphs.as_slice(), glyphs)))),
        Command::DigestSpan { first, last } => Some(masks_of_span(first, last)),
        _ => None,
    }
}

/// The elements of a buffer at a span. Every span of a script that was read lies inside its buffer.
pub(crate) fn at<'a, T>(buffer: &'a [T], span: Span) -> &'a [T] {
    buffer.get(span.start..span.end).unwrap_or(&[])
}

/// The masks of these glyphs.
fn masks_of(glyphs: &[u32]) -> Reply {
    let mut digest = SetDigest::new();
    for glyph in glyphs {
        digest.add(*glyph);
    }
    Reply::Masks(digest.masks())
}

/// The masks of the glyphs from `first` to `last`.
fn masks_of_span(first: u32, last: u32) -> Response {
    let mut digest = SetDigest::new();
    digest.add_range(first, last)?;
    Ok(Reply::Masks(digest.masks()))
}
