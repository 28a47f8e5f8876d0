//! Coverage tables.
ghost use Rattle.std.specs.Prelude.{◌≡◌, Some, Decides};
ghost use Rattle.opentype.specs.Bytes.{child_at};
ghost use Rattle.opentype.specs.Coverages.{coverage_in, covers as covers_in, index_by, index_in, no_coverage};
ghost use Rattle.opentype.specs.Ranges.{range_of};
ghost use Rattle.tables.specs.Tables.{CoverageAnswers, coverage_of};
ghost use Rattle.tables.specs.Views.{ranges_of};

use crate::ranges::RangeRecords;
use crate::search::{Ranges, find};
use readers::bytes::{child, number};
use readers::uints::Uints;
use readers::width::Two;

/// The format that lists glyphs.
const GLYPH_FORMAT: u32 = 1;

/// The format that lists ranges.
const RANGE_FORMAT: u32 = 2;

/// Where the count stands, behind the format.
const COUNT_PLACE: u32 = 2;

/// The largest coverage index.
const LAST_INDEX: u32 = 65_535;

/// A coverage table: the glyphs that it covers, each with its coverage index. A missing one is a case, as in harfrust, and
/// not an `Option` around it: every call answers on it too.
#[derive(Clone, Copy)]
pub enum Coverage<'a> {
    /// A null or unreadable table, which covers nothing.
    Missing,
    /// Glyphs, each covered at its place.
    Glyphs(Uints<'a>),
    /// Ranges of glyphs, each with the index of its first glyph.
    Ranges(RangeRecords<'a>),
}

impl<'a> Coverage<'a> {
    /// The coverage table that `bytes` begin with.
    pub fn new(bytes: &'a [u8]) -> Coverage<'a>
        ensures value { coverage_of result ≡ coverage_in (Some bytes.now) }
    {
        match number::<Two>(bytes, 0) {
            GLYPH_FORMAT => Uints::counted::<Two>(bytes, COUNT_PLACE, 0).map_or(
                Coverage::Missing,
                |glyphs| Coverage::Glyphs(glyphs),
            ),
            RANGE_FORMAT => RangeRecords::counted(bytes, COUNT_PLACE).map_or(
                Coverage::Missing,
                |ranges| Coverage::Ranges(ranges),
            ),
            _ => Coverage::Missing,
        }
    }

    /// The coverage table at `offset` of `bytes`: missing where the offset is null or passes the end.
    pub fn at(bytes: &'a [u8], offset: usize) -> Coverage<'a>
        ensures value { coverage_of result ≡ coverage_in (child_at bytes.now offset) }
    {
        child(bytes, offset).map_or(Coverage::Missing, |table| Coverage::new(table))
    }

    /// The coverage index of `glyph`, if it is covered. In a table in order it is the one that OpenType says.
    pub fn get(&self, glyph: u32) -> Option<u32>
        ensures value { result ≡ index_in (coverage_of self.now) glyph }
        ensures answers { CoverageAnswers (coverage_of self.now) glyph result }
    {
        match self {
            Coverage::Missing => None,
            Coverage::Glyphs(glyphs) => find(glyphs, glyph),
            Coverage::Ranges(ranges) => index_in_ranges(ranges, glyph),
        }
    }

    /// Whether `glyph` is covered.
    pub fn covers(&self, glyph: u32) -> bool
        ensures { result ≡ covers_in (coverage_of self.now) glyph }
    {
        self.get(glyph).is_some()
    }

    /// Whether the table is missing.
    pub fn is_missing(&self) -> bool
        ensures { Decides result (coverage_of self.now ≡ no_coverage) }
    {
        matches!(self, Coverage::Missing)
    }
}

/// The coverage index of `glyph` by ranges: the first index of its range, and as much more as it is past the start.
fn index_in_ranges(ranges: &RangeRecords, glyph: u32) -> Option<u32>
    ensures { let s = ranges_of ranges.now in result ≡ index_by s glyph (range_of s glyph) }
{
    let range = ranges.get(find(ranges, glyph)?);
    let further = glyph - range.start;
    if further > LAST_INDEX - range.value {
        return None;
    }
    Some(range.value + further)
}
