//! The ends of a walk that gathers glyphs.
ghost use Rattle.std.specs.Prelude.{◌≡◌};
ghost use Rattle.adding.specs.declared.stop.Stop.TheVariants.{Exhausted};

use digest::budget::Exhausted;

/// Why a walk ends before its last part.
#[derive(Clone, Copy, Debug, PartialEq, Eq)]
pub enum Stop {
    /// A draw was refused.
    Exhausted,
    /// Any glyph may follow, whatever the rest of the walk adds.
    AnyGlyph,
}

impl From<Exhausted> for Stop {
    ghost from_gives = { λ _ stop. stop ≡ Exhausted };

    fn from(_fault: Exhausted) -> Stop {
        Stop::Exhausted
    }
}
