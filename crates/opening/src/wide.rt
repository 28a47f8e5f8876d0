//! The wide kinds, whose parts lie in byte ranges that the caller names.
ghost use Rattle.std.specs.Prelude.{◌≡◌, ◌≤◌, length};
ghost use Rattle.std.specs.Option.{option_map};
ghost use Rattle.opentype.specs.Classes.{classes_in};
ghost use Rattle.opentype.specs.Coverages.{coverage_in};
ghost use Rattle.opentype.specs.Headers.{part_of, wide_coverage_parts, wide_header_in, within};
ghost use Rattle.readers.specs.Views.{parts_of as uints_parts};
ghost use Rattle.tables.specs.Tables.{classes_of, coverage_of};
ghost use Rattle.context.specs.Meanings.{table_of};
ghost use Rattle.opening.specs.Wide.{offset_parts, parts_of, range_of};

use crate::headers::{first_coverage, later_coverages, rule_sets, uints};
use context::classes::{ChainContext2, ClassSets};
use context::coverages::{ChainContext3, CoverageRule};
use context::glyphs::{ChainContext1, GlyphSets};
use context::subtable::Subtable;
use readers::uints::Uints;
use readers::width::Three;
use rules::parsed::{ParsedRule, RECORD_BYTES};
use rules::rule_sets::RuleSets;
use rules::widths::RuleWidths;
use std::marker::PhantomData;
use tables::class::ClassDef;
use tables::coverage::Coverage;

/// The bytes of a wide offset.
const OFFSET_BYTES: u32 = 3;

/// Bytes from `start` up to `end`.
#[derive(Clone, Copy)]
pub struct ByteRange {
    pub start: u32,
    pub end: u32,
}

/// Where the parts of a subtable of a wide kind lie in its bytes: tables, offsets of three bytes, and records.
#[derive(Clone, Copy)]
pub enum WideParts {
    Glyphs {
        chained: bool,
        coverage: ByteRange,
        sets: ByteRange,
    },
    PlainClasses {
        coverage: ByteRange,
        input: ByteRange,
        sets: ByteRange,
    },
    ChainedClasses {
        coverage: ByteRange,
        backtrack: ByteRange,
        input: ByteRange,
        lookahead: ByteRange,
        sets: ByteRange,
    },
    Coverages {
        offsets: ByteRange,
        records: ByteRange,
    },
}

/// Whether a range lies inside.
fn is_within(bytes: &[u8], range: ByteRange) -> bool
    ensures { result ≡ within bytes.now (range_of range) }
{
    range.start <= range.end && range.end as usize <= bytes.len()
}

/// The bytes in a range: none where the range is not inside.
fn part<'a>(bytes: &'a [u8], range: ByteRange) -> Option<&'a [u8]>
    ensures { option_map (λ x. x.now) result ≡ part_of bytes.now (range_of range) }
{
    bytes.get(range.start as usize..range.end as usize)
}

/// The coverage table in a range: missing where the range is not inside.
fn coverage_in<'a>(bytes: &'a [u8], range: ByteRange) -> Coverage<'a>
    ensures { coverage_of result ≡ coverage_in (part_of bytes.now (range_of range)) }
{
    part(bytes, range).map_or(Coverage::Missing, |table| Coverage::new(table))
}

/// The class table in a range, likewise: a trait over the two kinds of table would be longer than both lines.
fn classes_in<'a>(bytes: &'a [u8], range: ByteRange) -> ClassDef<'a>
    ensures { classes_of result ≡ classes_in (part_of bytes.now (range_of range)) }
{
    part(bytes, range).map_or(ClassDef::Missing, |table| ClassDef::new(table))
}

/// The whole offsets of three bytes in a range: none where the range is not inside.
fn offsets_in<'a>(bytes: &'a [u8], range: ByteRange) -> Uints<'a>
    ensures { uints_parts result ≡ offset_parts bytes.now range }
{
    if is_within(bytes, range) {
        uints(bytes, range.start, (range.end - range.start) / OFFSET_BYTES)
    } else {
        uints(bytes, 0, 0)
    }
}

/// Rule sets by the offsets in a range.
fn sets_in<'a, F: RuleWidths>(bytes: &'a [u8], range: ByteRange, chained: bool) -> RuleSets<'a, F>
    ensures bytes { result.bytes.now ≡ bytes.now }
    ensures offsets { uints_parts result.offsets ≡ offset_parts bytes.now range }
    ensures chained { result.chained ≡ chained }
{
    rule_sets(bytes, offsets_in(bytes, range), chained)
}

/// A coverage subtable by its offsets and its records: none where the records are not inside.
fn coverages<'a>(bytes: &'a [u8], offsets: ByteRange, records: ByteRange) -> Option<Subtable<'a>>
    requires { length bytes.now ≤ 16777216 }
    ensures { option_map table_of result ≡ wide_header_in (wide_coverage_parts (range_of offsets) (range_of records)) bytes.now }
{
    if !is_within(bytes, records) {
        return None;
    }
    let coverages = offsets_in(bytes, offsets);
    Some(Subtable::Coverages(ChainContext3 {
        bytes,
        coverage: first_coverage::<Three>(&coverages),
        rule: CoverageRule::Wide(ParsedRule {
            backtrack: uints(bytes, 0, 0),
            input: later_coverages::<Three>(&coverages),
            lookahead: uints(bytes, 0, 0),
            records: records.start as usize,
            record_count: (records.end - records.start) / RECORD_BYTES as u32,
            width: PhantomData,
        }),
    }))
}

/// A subtable of a wide kind by its parts: a table whose range is not inside is missing, and so are offsets; none where
/// the records are not inside.
pub(crate) fn wide_header<'a>(bytes: &'a [u8], parts: WideParts) -> Option<Subtable<'a>>
    requires { length bytes.now ≤ 16777216 }
    ensures { option_map table_of result ≡ wide_header_in (parts_of parts) bytes.now }
{
    match parts {
        WideParts::Glyphs {
            chained,
            coverage,
            sets,
        } => Some(Subtable::Glyphs(ChainContext1 {
            coverage: coverage_in(bytes, coverage),
            sets: if chained {
                GlyphSets::WideChained(sets_in(bytes, sets, true))
            } else {
                GlyphSets::Wide(sets_in(bytes, sets, false))
            },
        })),
        WideParts::PlainClasses {
            coverage,
            input,
            sets,
        } => Some(Subtable::Classes(ChainContext2 {
            coverage: coverage_in(bytes, coverage),
            backtrack: ClassDef::Missing,
            input: classes_in(bytes, input),
            lookahead: ClassDef::Missing,
            sets: ClassSets::Wide(sets_in(bytes, sets, false)),
        })),
        WideParts::ChainedClasses {
            coverage,
            backtrack,
            input,
            lookahead,
            sets,
        } => Some(Subtable::Classes(ChainContext2 {
            coverage: coverage_in(bytes, coverage),
            backtrack: classes_in(bytes, backtrack),
            input: classes_in(bytes, input),
            lookahead: classes_in(bytes, lookahead),
            sets: ClassSets::Wide(sets_in(bytes, sets, true)),
        })),
        WideParts::Coverages { offsets, records } => coverages(bytes, offsets, records),
    }
}
