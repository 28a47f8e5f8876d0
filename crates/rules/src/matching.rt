//! Matching a rule's value to a glyph: one function, for glyphs, classes and coverages.
ghost use Rattle.std.specs.Prelude.{◌≡◌, ℕ, Bool};
ghost use Rattle.opentype.specs.Coverages.{covers};
ghost use Rattle.opentype.specs.Headers.{coverage_at};
ghost use Rattle.opentype.specs.Subtables.{in_class, same};
ghost use Rattle.tables.specs.Tables.{classes_of};

use tables::class::ClassDef;
use tables::coverage::Coverage;

/// How a value of a rule matches a glyph. A trait and no closure: contracts cite its meaning as a function of value and
/// glyph, and of a closure they could only say which answers are possible.
pub trait ValueMatch {
    ghost means: { Self → (value : ℕ) → (glyph : ℕ) → Bool };

    fn matches(&self, value: u32, glyph: u32) -> bool
        ensures { result ≡ means self.now value glyph };
}

/// A value is the glyph itself.
#[derive(Clone, Copy)]
pub struct SameGlyph;

impl ValueMatch for SameGlyph {
    ghost means = { λ _ value glyph. same value glyph };

    fn matches(&self, value: u32, glyph: u32) -> bool {
        glyph == value
    }
}

/// A value is the glyph's class in a table.
#[derive(Clone, Copy)]
pub struct InClass<'a>(pub ClassDef<'a>);

impl ValueMatch for InClass<'_> {
    ghost means = { λ s value glyph. in_class (classes_of s.0) value glyph };

    fn matches(&self, value: u32, glyph: u32) -> bool {
        self.0.get(glyph) == value
    }
}

/// A value is the offset, in these bytes, of a coverage table that covers the glyph.
#[derive(Clone, Copy)]
pub struct CoveredBy<'a>(pub &'a [u8]);

impl ValueMatch for CoveredBy<'_> {
    ghost means = { λ s value glyph. covers (coverage_at s.0.now value) glyph };

    fn matches(&self, value: u32, glyph: u32) -> bool {
        Coverage::at(self.0, value as usize).covers(glyph)
    }
}
