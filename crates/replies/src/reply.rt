//! What a command is answered.
ghost use Rattle.std.specs.Prelude.{◌≡◌};
ghost use Rattle.replies.specs.declared.reply.Denied.TheVariants as denied;

use answers::{Hit, Refusal};
use book::SlotState;
use std::fmt;
use words::fault::Fault;

/// What a command that was carried out is answered.
#[derive(Drop)]
pub enum Reply {
    /// A coverage index, or that the glyph is not covered.
    Index(Option<u32>),
    Class(u32),
    Masks([u64; 3]),
    Allowance {
        work: u64,
        bytes: u64,
    },
    Left {
        work: u64,
        bytes: u64,
    },
    /// The number in the list of a subtable that was opened.
    Open(usize),
    /// A hit, or that there is none.
    Hit(Option<Hit>),
    Applies(bool),
    /// The number of a subtable that was put aside.
    Aside(usize),
    /// How many rule sets there are, and the whole buffer with their words.
    Words {
        count: u32,
        words: Vec<u64>,
    },
    /// How many subtables the book has that was started.
    Book(u32),
    Filtered,
    Forgotten,
    State(SlotState),
    /// How many hits a scan lists, how many tries it took, and the list: the hits come first.
    Scan {
        hits: usize,
        tries: usize,
        list: Vec<Hit>,
    },
    /// A subtable was opened and let go.
    Opened,
    /// How many subtables the book has that was started in place of another.
    Anew(u32),
    /// How many subtables are listed again.
    Ended(u32),
}

/// Why a command was not carried out.
#[derive(Drop)]
pub enum Denied {
    Refused(Refusal),
    /// A fill that was refused on its way, and the whole buffer as it left it.
    WordsRefused { refusal: Refusal, words: Vec<u64> },
    /// A scan that was refused on its way, and the list as it left it.
    ScanRefused { refusal: Refusal, list: Vec<Hit> },
    /// A line says nothing that can be carried out.
    Unread(Fault),
    /// There is no subtable to put aside.
    NothingListed,
    /// A command wants a book, and there is none.
    NoBook,
    /// A command wants no book, and one is open.
    BookOpen,
    /// A buffer for more words than a subtable has bytes.
    TooLargeABuffer,
    /// A subtable has no rule-set words.
    NotClasses,
    /// A number is past the list of subtables.
    NoSubtable,
}

/// What a command is answered, carried out or not.
pub type Response = Result<Reply, Denied>;

impl From<Refusal> for Denied {
    ghost from_gives = { λ refusal why. why ≡ denied.Refused refusal };

    fn from(refusal: Refusal) -> Denied {
        Denied::Refused(refusal)
    }
}

impl From<Fault> for Denied {
    ghost from_gives = { λ fault why. why ≡ denied.Unread fault };

    fn from(fault: Fault) -> Denied {
        Denied::Unread(fault)
    }
}

/// The elements of a list, each behind a space.
#[derive(Drop)]
struct Listed<'a, T>(&'a [T]);

impl fmt::Display for Listed<'_, u64> {
    fn fmt<W: fmt::Write>(&self, f: &mut fmt::Formatter<W>) -> fmt::Result {
        for word in self.0 {
            write!(f, " {word:016X}")?;
        }
        Ok(())
    }
}

impl fmt::Display for Listed<'_, Hit> {
    fn fmt<W: fmt::Write>(&self, f: &mut fmt::Formatter<W>) -> fmt::Result {
        for hit in self.0 {
            let Hit {
                place,
                subtable,
                length,
                records,
                record_count,
            } = *hit;
            write!(f, " {place},{subtable},{length},{records},{record_count}")?;
        }
        Ok(())
    }
}

impl fmt::Display for Reply {
    fn fmt<W: fmt::Write>(&self, f: &mut fmt::Formatter<W>) -> fmt::Result {
        match self {
            Reply::Index(Some(index)) => write!(f, "index {index}"),
            Reply::Index(None) => f.write_str("not covered"),
            Reply::Class(class) => write!(f, "class {class}"),
            Reply::Masks([first, second, third]) => {
                write!(f, "masks {first:016X} {second:016X} {third:016X}")
            }
            Reply::Allowance { work, bytes } => write!(f, "allowance {work} {bytes}"),
            Reply::Left { work, bytes } => write!(f, "left {work} {bytes}"),
            Reply::Open(number) => write!(f, "open {number}"),
            Reply::Hit(
                Some(
                    Hit {
                        place,
                        subtable,
                        length,
                        records,
                        record_count,
                    },
                ),
            ) => {
                write!(
                    f,
                    "hit {place} {subtable} {length} {records} {record_count}"
                )
            }
            Reply::Hit(None) => f.write_str("none"),
            Reply::Applies(true) => f.write_str("yes"),
            Reply::Applies(false) => f.write_str("no"),
            Reply::Aside(number) => write!(f, "aside {number}"),
            Reply::Words { count, words } => {
                let words = Listed(words.as_slice());
                write!(f, "words {count}{words}")
            }
            Reply::Book(count) => write!(f, "book {count}"),
            Reply::Filtered => f.write_str("filtered"),
            Reply::Forgotten => f.write_str("forgotten"),
            Reply::State(state) => {
                let number = u8::from(*state);
                write!(f, "state {number}")
            }
            Reply::Scan { hits, tries, list } => {
                let first = Listed(list.get(..*hits).unwrap_or(list.as_slice()));
                write!(f, "scan {hits} {tries}{first}")
            }
            Reply::Opened => f.write_str("opened"),
            Reply::Anew(count) => write!(f, "anew {count}"),
            Reply::Ended(count) => write!(f, "ended {count}"),
        }
    }
}

impl fmt::Display for Denied {
    fn fmt<W: fmt::Write>(&self, f: &mut fmt::Formatter<W>) -> fmt::Result {
        match self {
            Denied::Refused(why) => write!(f, "{why}"),
            Denied::WordsRefused { refusal, words } => {
                let words = Listed(words.as_slice());
                write!(f, "{refusal}{words}")
            }
            Denied::ScanRefused { refusal, list } => {
                let hits = Listed(list.as_slice());
                write!(f, "{refusal}{hits}")
            }
            Denied::Unread(why) => write!(f, "error: {why}"),
            Denied::NothingListed => f.write_str("error: nothing listed"),
            Denied::NoBook => f.write_str("error: no book"),
            Denied::BookOpen => f.write_str("error: a book is open"),
            Denied::TooLargeABuffer => f.write_str("error: too large a buffer"),
            Denied::NotClasses => f.write_str("error: not a class subtable"),
            Denied::NoSubtable => f.write_str("error: no such subtable"),
        }
    }
}
