//! A lookup as a bank.
ghost use Rattle.std.specs.Prelude.{◌≡◌, is_ok, Ok, Err, vec_len, nat_le};
ghost use Rattle.opentype.specs.Meaning.{subtable};
ghost use Rattle.lookup.specs.Listed.{meanings, meant};
ghost use Rattle.lookup.specs.Lawful.{counted, listed_lawful};

use crate::list::Lookup;
use answers::{Hit, Refusal, ask_list, ask_place};
use bank::subtable::{ContextSubtable, hit_of};
use bank::traits::{Filtering, MOST_SUBTABLES, Matching};
use context::subtable::Subtable;
use digest::budget::Budget;
use digest::set_digest::SetDigest;

impl<'a> Lookup<'a> {
    /// A lookup of the subtables. More than 32 are given back as they are.
    pub fn new(subtables: Vec<Subtable<'a>>) -> Result<Lookup<'a>, Vec<Subtable<'a>>>
        ensures answer { is_ok result ≡ nat_le (vec_len subtables.entry) 32 }
        ensures same { elim result [ Ok lookup ↦ lookup.subtables ≡ subtables.entry | Err list ↦ list ≡ subtables.entry ] }
    {
        if subtables.len() > MOST_SUBTABLES as usize {
            return Err(subtables);
        }
        Ok(Lookup { subtables })
    }

    /// The subtables again.
    pub fn into_list(self) -> Vec<Subtable<'a>>
        ensures { result ≡ self.entry.subtables }
    {
        let Lookup { subtables } = self;
        subtables
    }

    /// The subtables, in order.
    pub fn subtables(&self) -> &[Subtable<'a>]
        ensures { result.now ≡ self.now.subtables.items }
    {
        self.subtables.as_slice()
    }

    /// Subtable `k`; none past the last.
    fn at(&self, k: u32) -> Option<&Subtable<'a>>
        ensures { meant result ≡ subtable (meanings self.now.subtables.items) k }
    {
        self.subtables.get(k as usize)
    }
}

impl<'a> Matching for Lookup<'a> {
    ghost meaning = { λ lookup. meanings lookup.subtables.items };

    ghost lawful = { λ lookup. listed_lawful lookup.subtables.items (counted lookup.subtables.ok.0 lookup.few) };

    fn count(&self) -> u32 {
        self.subtables.len() as u32
    }

    fn would_apply(&self, k: u32, glyphs: &[u32], zero_context: bool) -> Result<bool, Refusal> {
        ask_list(glyphs)?;
        let subtable = self.at(k);
        Ok(subtable.is_some_and(|subtable| subtable.applies(glyphs, zero_context)))
    }

    fn hit(&self, k: u32, run: &[u32], place: usize) -> Result<Option<Hit>, Refusal> {
        ask_place(run, place)?;
        let found = self.at(k).and_then(|subtable| subtable.find(run, place));
        Ok(hit_of(found, place, k))
    }
}

impl<'a> Filtering for Lookup<'a> {
    fn can_filter(&self, k: u32) -> bool {
        self.at(k).is_none_or(|subtable| subtable.can_filter())
    }

    fn digest_second(&self, k: u32, budget: &mut Budget) -> Result<SetDigest, Refusal> {
        // By `map_or` the proof did not close: what the closure drew was not known behind it.
        match self.at(k) {
            Some(subtable) => subtable.digest(budget),
            None => Ok(SetDigest::full()),
        }
    }
}
