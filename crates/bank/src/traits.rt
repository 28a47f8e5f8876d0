//! What a bank is: the matching interface, and the filtering interface on top of it.
ghost use Rattle.std.specs.Prelude.{◌≡◌, List, length, IfOk};
ghost use Rattle.opentype.specs.Meaning.{Admits, Bank, Subtable, subtable};
ghost use Rattle.digest.specs.Allowances.{allowance_of};
ghost use Rattle.bank.specs.Answers.{digest_leaves, digested, hit_at, masks_in, would_apply};

use answers::{Hit, Refusal};
use digest::budget::Budget;
use digest::set_digest::SetDigest;

/// The most subtables of a bank.
pub const MOST_SUBTABLES: u32 = 32;

/// A bank: up to 32 subtables in order, each asked by its number. It means a list of subtables.
///
/// A list and its flag, a run and its place go in singly: no fact ties them, and a struct would be made for each call.
pub trait Matching {
    ghost meaning: { Self → List Subtable };

    /// At most 32 subtables, each with a sound filter: what an `impl` has to prove.
    ghost lawful: { (bank : Self) → Bank (meaning bank) };

    /// How many subtables there are.
    fn count(&self) -> u32
        ensures value { result ≡ length (meaning self.now) };

    /// Would subtable `k` apply to `glyphs`; where `zero_context`, only by rules without backtrack and lookahead? Past
    /// the last subtable: no. Refused first: an empty list, and one of more than 65,536 glyphs.
    fn would_apply(&self, k: u32, glyphs: &[u32], zero_context: bool) -> Result<bool, Refusal>
        ensures value { result ≡ would_apply (subtable (meaning self.now) k) glyphs.now zero_context };

    /// The hit of subtable `k` at `place` of `run`; none past the last subtable. Refused first: a run of more than 65,536
    /// glyphs, and a place that is not in it.
    fn hit(&self, k: u32, run: &[u32], place: usize) -> Result<Option<Hit>, Refusal>
        ensures value { result ≡ hit_at (subtable (meaning self.now) k) k run.now place };
}

/// A bank whose subtables can also be filtered: each has masks of the glyphs that may follow the first.
pub trait Filtering: Matching {
    /// Whether subtable `k` can be filtered; past the last: yes.
    fn can_filter(&self, k: u32) -> bool
        ensures value { result ≡ (subtable (Self.Matching.meaning self.now) k).filter.can };

    /// The masks of subtable `k`; past the last: all ones, without a draw. They admit the second glyph of every list that
    /// the subtable would apply to, and the glyph just after the place of each of its hits. Refused: a subtable that
    /// cannot be filtered, with nothing drawn; a draw above what is left, with the draws before it made.
    fn digest_second(&self, k: u32, budget: &mut Budget) -> Result<SetDigest, Refusal>
        ensures answer { masks_in result ≡ digested (subtable (Self.Matching.meaning self.now) k) (allowance_of budget.old) }
        ensures left { allowance_of budget.new ≡ digest_leaves (subtable (Self.Matching.meaning self.now) k) (allowance_of budget.old) }
        ensures admits { IfOk result (λ d. Admits (subtable (Self.Matching.meaning self.now) k).matching d.masks) };
}
