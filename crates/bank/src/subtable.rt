//! What one subtable is, by itself.
ghost use Rattle.std.specs.Prelude.{◌≡◌, IfOk};
ghost use Rattle.std.specs.Option.{option_map};
ghost use Rattle.opentype.specs.Meaning.{Admits, Sound, Subtable};
ghost use Rattle.digest.specs.Allowances.{allowance_of};
ghost use Rattle.rules.specs.Views.{found_of};
ghost use Rattle.bank.specs.Answers.{digest_leaves, digested, masks_in, told};

use answers::{Hit, Refusal};
use digest::budget::Budget;
use digest::set_digest::SetDigest;
use rules::walk::Found;

/// A subtable by itself: a new kind of subtable says what it means, and has these calls.
pub trait ContextSubtable {
    ghost table: { Self → Subtable };

    /// Its filter is sound: what an `impl` has to prove.
    ghost sound: { (view : Self) → Sound (table view) };

    /// Whether the subtable would apply to `glyphs`; where `zero_context`, only by rules without backtrack and lookahead.
    fn applies(&self, glyphs: &[u32], zero_context: bool) -> bool
        ensures value { result ≡ (table self.now).matching.applies glyphs.now zero_context };

    /// What the first rule that matches at `place` of `run` tells.
    fn find(&self, run: &[u32], place: usize) -> Option<Found>
        ensures value { option_map found_of result ≡ (table self.now).matching.finds run.now place };

    /// Whether the subtable can be filtered.
    fn can_filter(&self) -> bool
        ensures value { result ≡ (table self.now).filter.can };

    /// The masks of the glyphs that may follow the first. Refused: a subtable that cannot be filtered, with nothing
    /// drawn; a draw above what is left, with the draws before it made.
    fn digest(&self, budget: &mut Budget) -> Result<SetDigest, Refusal>
        ensures answer { masks_in result ≡ digested (table self.now) (allowance_of budget.old) }
        ensures left { allowance_of budget.new ≡ digest_leaves (table self.now) (allowance_of budget.old) }
        ensures admits { IfOk result (λ d. Admits (table self.now).matching d.masks) };
}

/// What subtable `k` found at `place`, as a hit.
pub fn hit_of(found: Option<Found>, place: usize, k: u32) -> Option<Hit>
    ensures value { result ≡ option_map (told place k) (option_map found_of found) }
{
    found.map(|found| Hit {
        place,
        subtable: k,
        length: found.length,
        records: found.records,
        record_count: found.record_count,
    })
}
