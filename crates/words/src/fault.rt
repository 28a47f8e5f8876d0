//! Why a line cannot be read.
ghost use Rattle.words.specs.declared.fault.Unread.TheVariants as unread;
ghost use Rattle.std.specs.Prelude.{◌≡◌, alloc_error};

use std::alloc::{AllocError, AllocFailed};
use thiserror::Error;

/// Why a line cannot be read.
#[derive(Clone, Copy, Debug, PartialEq, Eq, Drop, Error)]
pub enum Fault {
    #[error("unknown command")]
    UnknownCommand,
    #[error("a word is missing")]
    MissingWord,
    #[error("a word too many")]
    ExtraWord,
    #[error("not a decimal number")]
    NotANumber,
    #[error("a number too large")]
    NumberTooLarge,
    #[error("not a range")]
    NotARange,
    #[error("unknown kind of subtable")]
    UnknownKind,
    #[error("not hexadecimal")]
    NotHex,
    #[error("an odd number of hexadecimal digits")]
    OddHex,
}

/// Why there is nothing that was read: a fault of the line, or no memory for what the line says.
#[derive(Clone, Copy, Debug, PartialEq, Eq, Drop, Error)]
pub enum Unread {
    #[error(transparent)]
    Fault(Fault),
    #[error("no memory")]
    NoMemory(AllocError),
}

impl From<Fault> for Unread {
    ghost from_gives = { λ fault it. it ≡ unread.Fault fault };

    fn from(fault: Fault) -> Unread {
        Unread::Fault(fault)
    }
}

impl From<AllocError> for Unread {
    ghost from_gives = { λ error it. it ≡ unread.NoMemory error };

    fn from(error: AllocError) -> Unread {
        Unread::NoMemory(error)
    }
}

impl<T: Drop> From<AllocFailed<T>> for Unread {
    ghost from_gives = { λ _ it. it ≡ unread.NoMemory alloc_error };

    fn from(failed: AllocFailed<T>) -> Unread {
        Unread::NoMemory(failed.into())
    }
}
