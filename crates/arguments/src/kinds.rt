//! The words that name kinds of subtables.
ghost use Rattle.std.specs.Prelude.{◌≡◌};
ghost use Rattle.arguments.specs.Kinds.{chained_in, kind_in, range_count};

use words::fault::Fault;

/// A kind of wide subtables.
#[derive(Clone, Copy)]
pub(crate) enum WideKind {
    Glyphs { chained: bool },
    PlainClasses,
    ChainedClasses,
    Coverages,
}

impl WideKind {
    /// The wide kind that two words name.
    pub(crate) fn named(kind: &[u8], chained: &[u8]) -> Result<WideKind, Fault>
        ensures { result ≡ kind_in kind.now chained.now }
    {
        // Not a `match` on the bytes: tried, and its proof did not close.
        let chained = is_chained(chained)?;
        if kind == b"glyphs".as_slice() {
            Ok(WideKind::Glyphs { chained })
        } else if kind == b"classes".as_slice() {
            Ok(if chained {
                WideKind::ChainedClasses
            } else {
                WideKind::PlainClasses
            })
        } else if kind == b"coverages".as_slice() && !chained {
            Ok(WideKind::Coverages)
        } else {
            Err(Fault::UnknownKind)
        }
    }

    /// How many byte ranges a subtable of the kind has.
    pub(crate) fn range_count(self) -> usize
        ensures { result ≡ range_count self }
    {
        match self {
            WideKind::Glyphs { .. } => 2,
            WideKind::PlainClasses => 3,
            WideKind::ChainedClasses => 5,
            WideKind::Coverages => 2,
        }
    }
}

/// Whether a word names chained subtables; it is to name those or plain ones.
pub(crate) fn is_chained(word: &[u8]) -> Result<bool, Fault>
    ensures { result ≡ chained_in word.now }
{
    if word == b"plain".as_slice() {
        Ok(false)
    } else if word == b"chained".as_slice() {
        Ok(true)
    } else {
        Err(Fault::UnknownKind)
    }
}
