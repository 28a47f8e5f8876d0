//! Class tables.
ghost use Rattle.std.specs.Prelude.{◌≡◌, ◌<◌, Some, Decides};
ghost use Rattle.opentype.specs.Bytes.{child_at};
ghost use Rattle.opentype.specs.Classes.{classes_in, class_of, no_classes};
ghost use Rattle.tables.specs.Tables.{ClassAnswers, classes_of};

use crate::ranges::RangeRecords;
use crate::search::find;
use readers::bytes::{child, number};
use readers::uints::Uints;
use readers::width::Two;

/// The format that has an array of classes.
const ARRAY_FORMAT: u32 = 1;

/// The format that lists ranges.
const RANGE_FORMAT: u32 = 2;

/// Where the first glyph of an array stands, behind the format.
const START_PLACE: usize = 2;

/// Where the count of an array stands, behind the first glyph.
const CLASS_COUNT_PLACE: u32 = 4;

/// Where the count of ranges stands, behind the format.
const RANGE_COUNT_PLACE: u32 = 2;

/// A class table: the class of each glyph, 0 where it gives none. A missing one is a case, as in harfrust and in `Coverage`.
#[derive(Clone, Copy)]
pub enum ClassDef<'a> {
    /// A null or unreadable table, in which every class is 0.
    Missing,
    /// The classes of the glyphs from `start` on.
    Array { start: u16, classes: Uints<'a> },
    /// Ranges of glyphs, each with its class.
    Ranges(RangeRecords<'a>),
}

impl<'a> ClassDef<'a> {
    // Beside `Coverage::new` and `at`, which read in the same way: a trait over the two would be longer than both.

    /// The class table that `bytes` begin with.
    pub fn new(bytes: &'a [u8]) -> ClassDef<'a>
        ensures value { classes_of result ≡ classes_in (Some bytes.now) }
    {
        match number::<Two>(bytes, 0) {
            ARRAY_FORMAT => Uints::counted::<Two>(bytes, CLASS_COUNT_PLACE, 0).map_or(
                ClassDef::Missing,
                |classes| ClassDef::Array {
                    start: number::<Two>(bytes, START_PLACE) as u16,
                    classes,
                },
            ),
            RANGE_FORMAT => RangeRecords::counted(bytes, RANGE_COUNT_PLACE).map_or(
                ClassDef::Missing,
                |ranges| ClassDef::Ranges(ranges),
            ),
            _ => ClassDef::Missing,
        }
    }

    /// The class table at `offset` of `bytes`: missing where the offset is null or passes the end.
    pub fn at(bytes: &'a [u8], offset: usize) -> ClassDef<'a>
        ensures value { classes_of result ≡ classes_in (child_at bytes.now offset) }
    {
        child(bytes, offset).map_or(ClassDef::Missing, |table| ClassDef::new(table))
    }

    /// The class of `glyph`. In a table in order it is the one that OpenType says.
    pub fn get(&self, glyph: u32) -> u32
        ensures value { result ≡ class_of (classes_of self.now) glyph }
        ensures answers { ClassAnswers (classes_of self.now) glyph result }
        ensures bound { result < 65536 }
    {
        // Matches within: behind a closure the class is not known to be below 65,536, and the proof did not close.
        match self {
            ClassDef::Missing => 0,
            ClassDef::Array { start, classes } => match glyph.checked_sub(u32::from(*start)) {
                Some(index) if index < classes.count => classes.get::<Two>(index),
                _ => 0,
            },
            ClassDef::Ranges(ranges) => match find(ranges, glyph) {
                Some(index) => ranges.value(index),
                None => 0,
            },
        }
    }

    /// Whether the table is missing.
    pub fn is_missing(&self) -> bool
        ensures { Decides result (classes_of self.now ≡ no_classes) }
    {
        matches!(self, ClassDef::Missing)
    }
}
