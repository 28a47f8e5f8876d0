//! The widths of the numbers in the rule sets of a subtable.
use readers::width::{Three, Two, Width};

/// How wide the numbers in the rule sets of a kind of subtable are. Contracts name the three widths, since definitions take
/// numbers.
pub trait RuleWidths {
    /// The width of the offsets to the sets.
    type Set: Width;

    /// The width of the offsets to a set's rules.
    type Offset: Width;

    /// The width of the values.
    type Value: Width;
}

/// The original formats: two bytes for everything.
pub struct Narrow;

/// Wide plain rules over glyphs: the offsets to the rules keep two bytes.
pub struct WideGlyphs;

/// Wide chained rules over glyphs.
pub struct WideChainedGlyphs;

/// Wide rules over classes: the classes keep two bytes.
pub struct WideClasses;

impl RuleWidths for Narrow {
    type Set = Two;

    type Offset = Two;

    type Value = Two;
}

impl RuleWidths for WideGlyphs {
    type Set = Three;

    type Offset = Two;

    type Value = Three;
}

impl RuleWidths for WideChainedGlyphs {
    type Set = Three;

    type Offset = Three;

    type Value = Three;
}

impl RuleWidths for WideClasses {
    type Set = Three;

    type Offset = Three;

    type Value = Two;
}
