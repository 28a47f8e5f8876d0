//! Why a command is not carried out here: it is denied, or there is no memory for it.
ghost use Rattle.std.specs.Prelude.{◌≡◌, alloc_error};
ghost use Rattle.panel.specs.declared.failed.Failed.TheVariants as failed;
ghost use Rattle.replies.specs.declared.reply.Denied.TheVariants as denied;

use answers::Refusal;
use replies::reply::Denied;
use std::alloc::{AllocError, AllocFailed};

/// A command is denied, which is its answer; or there is no memory for it, which ends the program.
#[derive(Drop)]
pub enum Failed {
    Denied(Denied),
    NoMemory(AllocError),
}

impl From<Denied> for Failed {
    ghost from_gives = { λ why it. it ≡ failed.Denied why };

    fn from(denied: Denied) -> Failed {
        Failed::Denied(denied)
    }
}

impl From<Refusal> for Failed {
    ghost from_gives = { λ refusal it. it ≡ failed.Denied (denied.Refused refusal) };

    fn from(refusal: Refusal) -> Failed {
        Failed::Denied(refusal.into())
    }
}

impl From<AllocError> for Failed {
    ghost from_gives = { λ error it. it ≡ failed.NoMemory error };

    fn from(error: AllocError) -> Failed {
        Failed::NoMemory(error)
    }
}

impl<T: Drop> From<AllocFailed<T>> for Failed {
    ghost from_gives = { λ _ it. it ≡ failed.NoMemory alloc_error };

    fn from(failed: AllocFailed<T>) -> Failed {
        Failed::NoMemory(failed.into())
    }
}
