//! A sheet of calls: each line holds one call, the lists that are lent to it, and what came of it.
ghost use Rattle.std.specs.Prelude.{◌≡◌};
ghost use Rattle.calls.specs.Sheets.{allowance_left};
ghost use Rattle.digest.specs.Allowances.{allowance_of};

use answers::{Hit, Refusal};
use book::{Counts, SlotState};
use context::classes::ChainContext2;
use digest::budget::Budget;
use digest::set_digest::SetDigest;
use opening::wide::WideParts;

/// One call: on a book, on another bank beside it, or on the allowance alone.
#[derive(Clone, Copy)]
pub enum Call<'a> {
    /// Opens a subtable by its header: its bytes, and whether it is chained.
    Open(&'a [u8], bool),
    /// Opens a subtable of a wide kind: its bytes, and where its parts lie.
    OpenWide(&'a [u8], WideParts),
    /// Fills the words of a class subtable's rule sets into the line's words.
    Fill(&'a ChainContext2<'a>),
    /// Filters a subtable of the book.
    Filter(u32),
    /// Filters a subtable of the bank beside the book.
    FilterBeside(u32),
    /// Forgets the filter of a subtable.
    Forget(u32),
    /// Asks for the state of a slot.
    State(u32),
    /// Would some subtable apply to the glyphs; where the flag is set, only by rules without backtrack and lookahead?
    WouldApply(&'a [u32], bool),
    /// Lists the hits of a run in the line's hits.
    Scan(&'a [u32]),
    /// Ends the book, and starts another on its bank.
    Anew,
}

/// What a granted call tells.
#[derive(Clone, Copy, PartialEq, Eq, Debug)]
pub enum Granted {
    /// Nothing.
    Done,
    /// A slot's state.
    StateIs(SlotState),
    /// Whether some subtable would apply.
    Applies(bool),
    /// How many hits a scan lists, and how many tries it took.
    Scanned(Counts),
    /// The filter of a subtable beside the book.
    Digest(SetDigest),
}

/// What a call answers: what it tells where it was granted, or why it was refused.
pub type Answer = Result<Granted, Refusal>;

/// What is left of an allowance.
#[derive(Clone, Copy, PartialEq, Eq, Debug)]
pub struct Left {
    pub work: u64,
    pub bytes: u64,
}

impl Left {
    /// What is left of a budget.
    pub fn of(budget: &Budget) -> Self
        ensures value { allowance_left result ≡ allowance_of budget.now }
    {
        Left {
            work: budget.work_left(),
            bytes: budget.bytes_left(),
        }
    }
}

/// One line: the call with the lists lent to it, its answer once it is worked off, and what is left of the allowance then.
#[derive(Drop)]
pub struct Line<'a> {
    pub call: Call<'a>,
    pub hits: Vec<Hit>,
    pub words: Vec<u64>,
    pub answer: Option<Answer>,
    pub left: Left,
}
