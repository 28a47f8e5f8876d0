//! What coverage and class tables are searched in: listed glyphs, and records of ranges.
ghost use Rattle.std.specs.Prelude.{◌≡◌, ◌+◌, ◌*◌, ◌^◌, ◌<◌, IfSome};
ghost use Rattle.std.specs.Option.{option_map};
ghost use Rattle.readers.specs.Views.{counted_at, entries, uints_of};
ghost use Rattle.tables.specs.Views.{ranges_of, record_parts_of};
ghost use Rattle.tables.specs.Records.{left_of, record_at, records_of};
ghost use Rattle.tables.specs.declared.ranges.RangeRecord.{RangeRecord};

use crate::search::Ranges;
use readers::bytes::{number, tail};
use readers::each::{Each, Indexed};
use readers::uints::{Uints, counted_entries};
use readers::width::Two;

/// The bytes of a record: a start, an end and a number of two bytes each.
const RECORD_BYTES: u16 = 6;

/// Where the end stands in a record.
const END_PLACE: usize = 2;

/// Where the number stands in a record.
const VALUE_PLACE: usize = 4;

/// A record: its first and its last glyph, and its number.
#[derive(Clone, Copy, Debug, PartialEq, Eq)]
pub struct RangeRecord {
    pub start: u32,
    pub end: u32,
    pub value: u32,
}

/// Records of a start, an end and a number, one after another from the place `start` on. The number is the first index
/// in a coverage table, the class in a class table.
#[derive(Clone, Copy)]
pub struct RangeRecords<'a> {
    pub bytes: &'a [u8],
    pub start: u32,
    pub count: u32,
}

impl<'a> RangeRecords<'a> {
    /// The records behind a count of two bytes at `place`: none unless the count and the records lie inside, and begin
    /// at a place of 32 bits.
    pub fn counted(bytes: &'a [u8], place: u32) -> Option<RangeRecords<'a>>
        ensures value { option_map record_parts_of result ≡ counted_at 6 bytes.now place 0 }
        ensures bound { IfSome result (λ u. u.count < 65536) }
    {
        let (start, count) = counted_entries(bytes, place, 0, RECORD_BYTES)?;
        Some(RangeRecords {
            bytes,
            start,
            count,
        })
    }

    /// Record `index`; past the count, what the bytes have there.
    pub fn get(&self, index: u32) -> RangeRecord
        ensures value { result ≡ record_at (ranges_of self.now) index }
        ensures bound { result.value < 65536 }
    {
        match tail(self.bytes, self.place(index)) {
            // A record that lies inside is read at once.
            Some([a, b, c, d, e, f, ..]) => RangeRecord {
                start: u32::from_be_bytes([0, 0, *a, *b]),
                end: u32::from_be_bytes([0, 0, *c, *d]),
                value: u32::from_be_bytes([0, 0, *e, *f]),
            },
            _ => self.cut_short(index),
        }
    }

    /// Record `index`, read number by number: for one that passes the end, whose case is kept out of the loops that read
    /// records.
    #[cold]
    #[inline(never)]
    fn cut_short(&self, index: u32) -> RangeRecord
        ensures value { result ≡ record_at (ranges_of self.now) index }
        ensures bound { result.value < 65536 }
    {
        let place = self.place(index);
        RangeRecord {
            start: number::<Two>(self.bytes, place),
            end: number::<Two>(self.bytes, place + END_PLACE),
            value: number::<Two>(self.bytes, place + VALUE_PLACE),
        }
    }

    /// The number of record `index`.
    pub fn value(&self, index: u32) -> u32
        ensures value { result ≡ (ranges_of self.now).value index }
        ensures bound { result < 65536 }
    {
        number::<Two>(self.bytes, self.place(index) + VALUE_PLACE)
    }

    /// The records, in order.
    pub fn iter(&self) -> Each<RangeRecords<'a>>
        ensures { left_of result ≡ entries (records_of (ranges_of self.now)) }
    {
        Each::of(*self)
    }

    /// Where record `index` begins.
    fn place(&self, index: u32) -> usize
        ensures value { result ≡ self.now.start + 6 * index }
        ensures bound { result < 2 ^ 35 }
    {
        self.start as usize + usize::from(RECORD_BYTES) * index as usize
    }
}

impl Ranges for RangeRecords<'_> {
    ghost size = { λ s. s.count };

    ghost starts = { λ s. (ranges_of s).start };

    ghost ends = { λ s. (ranges_of s).end };

    fn len(&self) -> u32 {
        self.count
    }

    fn bounds(&self, index: u32) -> (u32, u32) {
        let record = self.get(index);
        (record.start, record.end)
    }
}

impl<'a> Indexed for RangeRecords<'a> {
    type Item = RangeRecord;

    ghost Shown = { RangeRecord };

    ghost shows = { λ r. r };

    ghost array = { λ s. records_of (ranges_of s) };

    fn size(&self) -> u32 {
        self.count
    }

    fn item(&self, index: u32) -> RangeRecord {
        self.get(index)
    }
}

// A listed glyph is its own start and end.
impl Ranges for Uints<'_> {
    ghost size = { λ s. s.count };

    ghost starts = { λ s. (uints_of 2 s).entry };

    ghost ends = { λ s. (uints_of 2 s).entry };

    fn len(&self) -> u32 {
        self.count
    }

    fn bounds(&self, index: u32) -> (u32, u32) {
        let glyph = self.get::<Two>(index);
        (glyph, glyph)
    }
}
