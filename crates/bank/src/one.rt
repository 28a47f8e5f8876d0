//! One subtable as a bank.
ghost use Rattle.std.specs.Prelude.{[], ◌∷◌};
ghost use Rattle.bank.specs.Lawful.{one_lawful};

use crate::subtable::{ContextSubtable, hit_of};
use crate::traits::{Filtering, Matching};
use answers::{Hit, Refusal, ask_list, ask_place};
use digest::budget::Budget;
use digest::set_digest::SetDigest;

/// A bank of the one subtable. It can be let go where the subtable can, and never copied.
#[derive(Drop)]
pub struct One<S>(pub S);

impl<S: ContextSubtable> Matching for One<S> {
    ghost meaning = { λ bank. S.ContextSubtable.table bank.0 ∷ [] };

    ghost lawful = { λ bank. one_lawful (S.ContextSubtable.sound bank.0) };

    fn count(&self) -> u32 {
        1
    }

    fn would_apply(&self, k: u32, glyphs: &[u32], zero_context: bool) -> Result<bool, Refusal> {
        ask_list(glyphs)?;
        Ok(k == 0 && self.0.applies(glyphs, zero_context))
    }

    fn hit(&self, k: u32, run: &[u32], place: usize) -> Result<Option<Hit>, Refusal> {
        ask_place(run, place)?;
        if k > 0 {
            return Ok(None);
        }
        Ok(hit_of(self.0.find(run, place), place, k))
    }
}

impl<S: ContextSubtable> Filtering for One<S> {
    fn can_filter(&self, k: u32) -> bool {
        k > 0 || self.0.can_filter()
    }

    fn digest_second(&self, k: u32, budget: &mut Budget) -> Result<SetDigest, Refusal> {
        if k > 0 {
            return Ok(SetDigest::full());
        }
        self.0.digest(budget)
    }
}
