//! What filters promise of every bank, and a worked example, each carried by a function.
ghost use Rattle.book.specs.Examples.{Examples};
ghost use Rattle.book.specs.Laws.{FewerTries, FiltersHideNothing, HitsAreListed};

/// A book whose slots are kept lists the first hits of all places, which are complete; it tries by the rule, and with
/// more filters held no more often.
pub fn filters_keep() -> u8
    ensures whole { FiltersHideNothing }
    ensures listed { HitsAreListed }
    ensures fewer { FewerTries }
{
    0
}

/// The worked example of a scan.
pub fn examples_hold() -> u8
    ensures scans { Examples }
{
    0
}
