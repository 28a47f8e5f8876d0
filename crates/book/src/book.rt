//! The calls of a book. `Kept` says that every held slot has its subtable's masks and every other all ones: `new` and
//! `anew` make it so, and every call keeps it.
ghost use Rattle.std.specs.Prelude.{◌≡◌, ◌≤◌, length, replicate, IfOk, Ok};
ghost use Rattle.answers.specs.Questions.{answered, list_refused, place_refused};
ghost use Rattle.opentype.specs.Meaning.{subtable};
ghost use Rattle.digest.specs.Allowances.{allowance_of};
ghost use Rattle.bank.specs.Answers.{digest_leaves};
ghost use Rattle.book.specs.Slots.{Kept, bare};
ghost use Rattle.book.specs.Scans.{applies_in, hit_at, scan_answer, scan_list, tries_at};
ghost use Rattle.book.specs.Calls.{filter_answer, filter_slots, forget_answer, forget_slots, of_subtable, state_answer};

use crate::slots::{SlotEvent, SlotState, Slots};
use answers::{Hit, Refusal, ask_list, ask_place, ask_run};
use bank::{Filtering, Matching};
use digest::budget::Budget;

/// A bank, and the filters of its subtables that are held. It takes the bank, and can be neither copied nor dropped:
/// `end` gives the bank back.
pub struct Book<B> {
    bank: B,
    slots: Slots,
}

/// What an accepted scan returns.
#[derive(Clone, Copy, PartialEq, Eq, Debug)]
pub struct Counts {
    /// How many hits are listed.
    pub hits: usize,
    /// How many times a subtable was tried at a place.
    pub tries: usize,
}

/// What is found at one place: the hit, if there is one, and how many subtables were tried.
#[derive(Clone, Copy)]
struct Look {
    hit: Option<Hit>,
    tries: usize,
}

impl<B: Filtering> Book<B> {
    /// A book over the bank, with every slot bare.
    pub fn new(bank: B) -> Self
        ensures bank { result.bank ≡ bank }
        ensures slots { result.slots.table ≡ replicate 32 bare }
        ensures kept { Kept (B.Matching.meaning bank) result.slots.table }
    {
        Book {
            bank,
            slots: Slots::new(),
        }
    }

    /// Is there a subtable `k`?
    fn ask_subtable(&self, k: u32) -> Result<(), Refusal>
        ensures value { result ≡ of_subtable (B.Matching.meaning self.now.bank) k (Ok tt) }
    {
        if k >= self.bank.count() {
            return Err(Refusal::NoSuchSubtable);
        }
        Ok(())
    }

    /// Makes the filter of subtable `k` and holds it. Refused: a number that is not below the count, a subtable that
    /// cannot be filtered, both with nothing changed; a draw above what is left, with the draws before it made, and the
    /// slot given up even where it was held.
    pub fn filter(&mut self, k: u32, budget: &mut Budget) -> Result<(), Refusal>
        ensures answer { result ≡ filter_answer (B.Matching.meaning self.old.bank) k (allowance_of budget.old) }
        ensures bank { self.new.bank ≡ self.old.bank }
        ensures slots { self.new.slots.table ≡ filter_slots (B.Matching.meaning self.old.bank) k (allowance_of budget.old) self.old.slots.table }
        ensures left { allowance_of budget.new ≡ digest_leaves (subtable (B.Matching.meaning self.old.bank) k) (allowance_of budget.old) }
        ensures kept { Kept (B.Matching.meaning self.old.bank) self.old.slots.table → Kept (B.Matching.meaning self.old.bank) self.new.slots.table }
    {
        self.ask_subtable(k)?;
        if !self.bank.can_filter(k) {
            return Err(Refusal::NotFilterable);
        }
        let digest = self.bank.digest_second(k, budget);
        self.slots
            .happen(k, digest.map_or(SlotEvent::Exhausted, SlotEvent::Granted));
        digest.map(|_| ())
    }

    /// Makes slot `k` bare. Refused, with nothing changed: a number that is not below the count.
    pub fn forget(&mut self, k: u32) -> Result<(), Refusal>
        ensures answer { result ≡ forget_answer (B.Matching.meaning self.old.bank) k }
        ensures bank { self.new.bank ≡ self.old.bank }
        ensures slots { self.new.slots.table ≡ forget_slots (B.Matching.meaning self.old.bank) k self.old.slots.table }
        ensures kept { Kept (B.Matching.meaning self.old.bank) self.old.slots.table → Kept (B.Matching.meaning self.old.bank) self.new.slots.table }
    {
        self.ask_subtable(k)?;
        self.slots.happen(k, SlotEvent::Forget);
        Ok(())
    }

    /// The state of slot `k`. Refused: a number that is not below the count.
    pub fn state(&self, k: u32) -> Result<SlotState, Refusal>
        ensures value { result ≡ state_answer (B.Matching.meaning self.now.bank) self.now.slots.table k }
    {
        self.ask_subtable(k)?;
        Ok(self.slots.table[k as usize].state)
    }

    /// Would some subtable apply to `glyphs`; where `zero_context`, only by rules without backtrack and lookahead? A
    /// subtable whose slot does not admit the second glyph is skipped. Refused: an empty list, and one of more than 65,536
    /// glyphs.
    pub fn would_apply(&self, glyphs: &[u32], zero_context: bool) -> Result<bool, Refusal>
        ensures value { result ≡ answered (list_refused (length glyphs.now)) (applies_in (B.Matching.meaning self.now.bank) self.now.slots.table glyphs.now zero_context) }
    {
        ask_list(glyphs)?;
        // A bank is asked by the number of a subtable; and `any` could not pass a refusal up.
        for k in 0..self.bank.count() {
            if self.slots.may_try(k, glyphs, 0) && self.bank.would_apply(k, glyphs, zero_context)? {
                return Ok(true);
            }
        }
        Ok(false)
    }

    /// Lists the hits of a run in `hits`, in order of place, each of the first subtable that matches there; the other
    /// entries stay. A subtable whose slot does not admit the next glyph is skipped, never at the last place; any other
    /// counts as one try, until a hit. Refused: a run of more than 65,536 glyphs, with nothing changed; a list that does
    /// not take every hit, which then holds the first ones.
    pub fn scan(&self, run: &[u32], hits: &mut [Hit]) -> Result<Counts, Refusal>
        ensures answer { result ≡ scan_answer (B.Matching.meaning self.now.bank) self.now.slots.table run.now (length hits.old) }
        ensures list { hits.new ≡ scan_list (B.Matching.meaning self.now.bank) self.now.slots.table run.now hits.old }
    {
        ask_run(run)?;
        // The list is lent and has its count beside it: no call of a book allocates.
        let mut found = 0;
        let mut tries = 0;
        // By place: a bank is asked for a place in the whole run.
        for (place, _glyph) in run.iter().enumerate() {
            let look = self.look(run, place)?;
            tries += look.tries;
            if let Some(hit) = look.hit {
                // By index: once `get_mut` has lent an entry, a proof knows no entry of the list any more.
                if found >= hits.len() {
                    return Err(Refusal::ListFull);
                }
                hits[found] = hit;
                found += 1;
            }
        }
        Ok(Counts { hits: found, tries })
    }

    /// Tries the subtables at one place, until a hit.
    fn look(&self, run: &[u32], place: usize) -> Result<Look, Refusal>
        ensures value { result ≡ answered (place_refused (length run.now) place) (record { hit = hit_at (B.Matching.meaning self.now.bank) self.now.slots.table run.now place; tries = tries_at (B.Matching.meaning self.now.bank) self.now.slots.table run.now place }) }
        ensures few { IfOk result (λ look. look.tries ≤ 32) }
    {
        ask_place(run, place)?;
        let mut tries = 0;
        // A bank is asked by the number of a subtable.
        for k in 0..self.bank.count() {
            if self.slots.may_try(k, run, place) {
                tries += 1;
                if let Some(hit) = self.bank.hit(k, run, place)? {
                    return Ok(Look {
                        hit: Some(hit),
                        tries,
                    });
                }
            }
        }
        Ok(Look { hit: None, tries })
    }

    /// Ends the book, and starts another on its bank: every slot is bare again.
    pub fn anew(&mut self)
        ensures bank { self.new.bank ≡ self.old.bank }
        ensures slots { self.new.slots.table ≡ replicate 32 bare }
        ensures kept { Kept (B.Matching.meaning self.old.bank) self.new.slots.table }
    {
        self.slots = Slots::new();
    }

    /// Ends the book, and gives the bank back.
    pub fn end(self) -> B
        ensures bank { result ≡ self.bank }
    {
        let Book { bank, slots: _ } = self;
        bank
    }
}
