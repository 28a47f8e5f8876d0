//! Two banks as one.
ghost use Rattle.std.specs.Prelude.{◌≡◌, true, ◌++◌, is_ok, MatchOption};
ghost use Rattle.opentype.specs.Meaning.{subtable};
ghost use Rattle.bank.specs.Joined.{join_answer, joined_banks, renumbered};
ghost use Rattle.bank.specs.Lawful.{joined_lawful};

use crate::traits::{Filtering, MOST_SUBTABLES, Matching};
use answers::{Hit, Refusal};
use digest::budget::Budget;
use digest::set_digest::SetDigest;

/// Two banks as one: it has the subtables of the first and then those of the second, 32 at most. It can be let go where
/// both can, and never copied.
#[derive(Drop)]
pub struct Join<A, B> {
    pub first: A,
    pub second: B,
}

impl<A, B> Join<A, B> {
    /// The two banks joined.
    pub fn new(first: A, second: B) -> Self
        ensures value { result ≡ record { first = first; second = second } }
    {
        Join { first, second }
    }

    /// The two banks again.
    pub fn split(self) -> (A, B)
        ensures value { result ≡ (self.first, self.second) }
    {
        let Join { first, second } = self;
        (first, second)
    }
}

/// Have the two banks at most 32 subtables together? Joined, they then have all of both; else the last would be left out.
pub fn check_join<A: Matching, B: Matching>(first: &A, second: &B) -> Result<(), Refusal>
    ensures answer { result ≡ join_answer (A.Matching.meaning first.now) (B.Matching.meaning second.now) }
    ensures whole { is_ok result ≡ true → joined_banks (A.Matching.meaning first.now) (B.Matching.meaning second.now) ≡ A.Matching.meaning first.now ++ B.Matching.meaning second.now }
{
    if first.count() + second.count() > MOST_SUBTABLES {
        return Err(Refusal::TooManySubtables);
    }
    Ok(())
}

/// The same answer, with its hit told as that of subtable `k`.
fn renumber(answer: Result<Option<Hit>, Refusal>, k: u32) -> Result<Option<Hit>, Refusal>
    ensures value { result ≡ renumbered k answer }
{
    let hit = answer?;
    Ok(hit.map(|hit| Hit { subtable: k, ..hit }))
}

impl<A: Matching, B: Matching> Join<A, B> {
    /// The number that subtable `k` has in the second bank; none where the first bank answers for it. The first bank has
    /// at most 32 subtables, so that a number past 32 is past its last: it answers for that too. Each call chooses by a
    /// `match`: `map_or_else` would write its arms as two closures, which is no plainer.
    fn in_second(&self, k: u32) -> Option<u32>
        ensures { let all = joined_banks (A.Matching.meaning self.now.first) (B.Matching.meaning self.now.second) in
            MatchOption result (subtable (A.Matching.meaning self.now.first) k ≡ subtable all k)
            (λ j. subtable (B.Matching.meaning self.now.second) j ≡ subtable all k) }
    {
        if k >= MOST_SUBTABLES {
            return None;
        }
        k.checked_sub(self.first.count())
    }
}

impl<A: Matching, B: Matching> Matching for Join<A, B> {
    ghost meaning = { λ join. joined_banks (A.Matching.meaning join.first) (B.Matching.meaning join.second) };

    ghost lawful = { λ join. joined_lawful (A.Matching.lawful join.first) (B.Matching.lawful join.second) };

    fn count(&self) -> u32 {
        (self.first.count() + self.second.count()).min(MOST_SUBTABLES)
    }

    fn would_apply(&self, k: u32, glyphs: &[u32], zero_context: bool) -> Result<bool, Refusal> {
        match self.in_second(k) {
            Some(j) => self.second.would_apply(j, glyphs, zero_context),
            None => self.first.would_apply(k, glyphs, zero_context),
        }
    }

    fn hit(&self, k: u32, run: &[u32], place: usize) -> Result<Option<Hit>, Refusal> {
        match self.in_second(k) {
            Some(j) => renumber(self.second.hit(j, run, place), k),
            None => self.first.hit(k, run, place),
        }
    }
}

impl<A: Filtering, B: Filtering> Filtering for Join<A, B> {
    fn can_filter(&self, k: u32) -> bool {
        match self.in_second(k) {
            Some(j) => self.second.can_filter(j),
            None => self.first.can_filter(k),
        }
    }

    fn digest_second(&self, k: u32, budget: &mut Budget) -> Result<SetDigest, Refusal> {
        match self.in_second(k) {
            Some(j) => self.second.digest_second(j, budget),
            None => self.first.digest_second(k, budget),
        }
    }
}
