//! The slots of a book: one for each subtable that a bank may have.
ghost use Rattle.std.specs.Prelude.{◌≡◌, ◌<◌, length, replicate};
ghost use Rattle.book.specs.Slots.{after, bare, changed, held, idle, state_number};
ghost use Rattle.book.specs.Scans.{may_try};

use digest::set_digest::SetDigest;

/// How many slots there are: as many as a bank may have subtables.
const SLOTS: usize = 32;

/// What a book knows of a subtable's filter. The number stands for the state where answers are printed or stored.
#[derive(Clone, Copy, PartialEq, Eq, Debug)]
pub enum SlotState {
    /// Nothing: it was never asked for, or is forgotten.
    Bare = 0,
    /// The filter is held.
    Held = 1,
    /// The allowance did not suffice for it.
    GivenUp = 2,
}

impl From<SlotState> for u8 {
    ghost from_gives = { λ state number. number ≡ state_number state };

    fn from(state: SlotState) -> u8 {
        // The number of a case is had by `as` alone.
        state as u8
    }
}

/// One slot: its state, and which glyphs may follow the first of its subtable. A slot that holds no filter admits all; the
/// digest stands beside the state and not within `Held`, so that a try asks it whatever the state.
#[derive(Clone, Copy)]
pub struct Slot {
    pub state: SlotState,
    pub digest: SetDigest,
}

impl Slot {
    /// A slot that holds a filter.
    pub fn held(digest: SetDigest) -> Self
        ensures value { result ≡ held digest.masks }
    {
        Slot {
            state: SlotState::Held,
            digest,
        }
    }

    /// A slot in a state in which it holds none.
    pub fn idle(state: SlotState) -> Self
        ensures value { result ≡ idle state }
    {
        Slot {
            state,
            digest: SetDigest::full(),
        }
    }
}

/// What can happen to a slot.
#[derive(Clone, Copy)]
pub enum SlotEvent {
    /// Every draw of a filter was granted: here it is.
    Granted(SetDigest),
    /// A draw of a filter was refused.
    Exhausted,
    /// The filter is to be forgotten.
    Forget,
}

/// The slots of a book: fixed memory, since no call of a book allocates.
#[derive(Drop)]
pub struct Slots {
    pub table: [Slot; SLOTS],
}

impl Slots {
    /// Slots that are all bare.
    pub fn new() -> Self
        ensures table { result.table ≡ replicate 32 bare }
    {
        Slots {
            table: [Slot::idle(SlotState::Bare); SLOTS],
        }
    }

    /// Lets an event happen to slot `k`, where it is; the others stay.
    pub(crate) fn happen(&mut self, k: u32, event: SlotEvent)
        requires known { k < 32 }
        ensures table { self.new.table ≡ changed self.old.table k event }
    {
        step(&mut self.table[k as usize], event);
    }

    /// Whether subtable `k` is to be tried at a place: its slot admits the next glyph, or there is none.
    pub(crate) fn may_try(&self, k: u32, run: &[u32], place: usize) -> bool
        requires known { k < 32 }
        requires inside { place < length run.now }
        ensures value { result ≡ may_try self.now.table run.now place k }
    {
        run.get(place + 1)
            .is_none_or(|next| self.table[k as usize].digest.may_have(*next))
    }
}

/// Rewrites a slot as an event asks.
fn step(slot: &mut Slot, event: SlotEvent)
    ensures value { slot.new ≡ after slot.old event }
{
    // The states are named, so that one that is added has to say what each event makes of it.
    *slot = match (slot.state, event) {
        (SlotState::Bare | SlotState::Held | SlotState::GivenUp, SlotEvent::Granted(digest)) => {
            Slot::held(digest)
        }
        (SlotState::Bare | SlotState::Held | SlotState::GivenUp, SlotEvent::Exhausted) => {
            Slot::idle(SlotState::GivenUp)
        }
        (SlotState::Bare | SlotState::Held | SlotState::GivenUp, SlotEvent::Forget) => {
            Slot::idle(SlotState::Bare)
        }
    };
}
