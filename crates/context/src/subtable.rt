//! A context subtable of any kind.
ghost use Rattle.std.specs.Prelude.{◌≡◌};
ghost use Rattle.opentype.proofs.Sounding.{filters_sound};
ghost use Rattle.bank.specs.Answers.{hit_at, would_apply};
ghost use Rattle.context.specs.Meanings.{meaning_of, table_of};

use crate::classes::ChainContext2;
use crate::coverages::ChainContext3;
use crate::glyphs::ChainContext1;
use answers::{Hit, Refusal, ask_list, ask_place};
use bank::subtable::{ContextSubtable, hit_of};
use digest::budget::Budget;
use digest::set_digest::SetDigest;
use rules::walk::Found;

/// A subtable of whichever kind its opening gave. It cannot be copied. An enum and no `dyn`, which would need the heap:
/// each call is forwarded.
#[derive(Drop)]
pub enum Subtable<'a> {
    Glyphs(ChainContext1<'a>),
    Classes(ChainContext2<'a>),
    Coverages(ChainContext3<'a>),
}

impl<'a> ContextSubtable for Subtable<'a> {
    ghost table = { λ view. meaning_of view };

    ghost sound = { λ view. filters_sound (table_of view) };

    fn applies(&self, glyphs: &[u32], zero_context: bool) -> bool {
        match self {
            Subtable::Glyphs(view) => view.applies(glyphs, zero_context),
            Subtable::Classes(view) => view.applies(glyphs, zero_context),
            Subtable::Coverages(view) => view.applies(glyphs, zero_context),
        }
    }

    fn find(&self, run: &[u32], place: usize) -> Option<Found> {
        match self {
            Subtable::Glyphs(view) => view.find(run, place),
            Subtable::Classes(view) => view.find(run, place),
            Subtable::Coverages(view) => view.find(run, place),
        }
    }

    fn can_filter(&self) -> bool {
        match self {
            Subtable::Glyphs(view) => view.can_filter(),
            Subtable::Classes(view) => view.can_filter(),
            Subtable::Coverages(view) => view.can_filter(),
        }
    }

    fn digest(&self, budget: &mut Budget) -> Result<SetDigest, Refusal> {
        match self {
            Subtable::Glyphs(view) => view.digest(budget),
            Subtable::Classes(view) => view.digest(budget),
            Subtable::Coverages(view) => view.digest(budget),
        }
    }
}

impl<'a> Subtable<'a> {
    /// Would the subtable apply to `glyphs`; where `zero_context`, only by rules without backtrack and lookahead? Refused:
    /// an empty list, and one of more than 65,536 glyphs.
    pub fn would_apply(&self, glyphs: &[u32], zero_context: bool) -> Result<bool, Refusal>
        ensures { result ≡ would_apply (meaning_of self.now) glyphs.now zero_context }
    {
        ask_list(glyphs)?;
        Ok(self.applies(glyphs, zero_context))
    }

    /// The hit at `place` of `run`, told as subtable 0. Refused: a run of more than 65,536 glyphs, and a place that is
    /// not in it.
    pub fn hit(&self, run: &[u32], place: usize) -> Result<Option<Hit>, Refusal>
        ensures { result ≡ hit_at (meaning_of self.now) 0 run.now place }
    {
        ask_place(run, place)?;
        Ok(hit_of(self.find(run, place), place, 0))
    }
}
