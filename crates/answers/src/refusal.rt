//! Why calls are refused.
ghost use Rattle.std.specs.Prelude.{◌≡◌};
ghost use Rattle.answers.specs.Numbers.{number_of};

use std::fmt;

/// Why a call is refused. The number stands for the case where answers are printed or stored.
#[derive(Clone, Copy, PartialEq, Eq, Debug)]
pub enum Refusal {
    /// A list of glyphs is empty.
    NoGlyph = 1,
    /// A list or a run has more than 65,536 glyphs.
    TooLong = 2,
    /// A place is not in its run.
    NotInRun = 3,
    /// A number of a subtable is not below its bank's count.
    NoSuchSubtable = 4,
    /// A draw is above what is left of the allowance.
    Exhausted = 5,
    /// A subtable cannot be filtered: a class array of its input or lookahead runs past glyph 65,535.
    NotFilterable = 6,
    /// A subtable has more than 16,777,216 bytes, an unknown format, or a header part that is not inside.
    Unopenable = 7,
    /// A sum by which a span's mask is computed passes 64 bits.
    SpanSum = 8,
    /// A list does not take every hit of a run.
    ListFull = 9,
    /// A buffer for the words of rule sets is shorter than the sets.
    ShortBuffer = 10,
    /// Two banks together, or the subtables that a bank is made of, are more than 32.
    TooManySubtables = 11,
}

impl From<Refusal> for u8 {
    ghost from_gives = { λ refusal number. number ≡ number_of refusal };

    /// The refusal's number.
    fn from(refusal: Refusal) -> u8 {
        // The number of a case is had by `as` alone.
        refusal as u8
    }
}

impl fmt::Display for Refusal {
    fn fmt<W: fmt::Write>(&self, f: &mut fmt::Formatter<W>) -> fmt::Result {
        let number = u8::from(*self);
        write!(f, "refused {number}")
    }
}
