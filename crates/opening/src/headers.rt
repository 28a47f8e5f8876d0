//! The headers of context subtables, by their formats.
ghost use Rattle.std.specs.Prelude.{◌≡◌, ◌+◌, ◌-◌, ◌<◌, ◌≤◌};
ghost use Rattle.std.specs.Option.{option_map};
ghost use Rattle.opentype.specs.Bytes.{number as number_at};
ghost use Rattle.opentype.specs.Headers.{chained_class_header, chained_coverage_header, glyph_header, header_in, plain_class_header, plain_coverage_header, first_coverage};
ghost use Rattle.readers.specs.Views.{parts_of};
ghost use Rattle.tables.specs.Tables.{coverage_of};
ghost use Rattle.context.specs.Meanings.{table_of};

use context::classes::{ChainContext2, ClassSets};
use context::coverages::{ChainContext3, CoverageRule};
use context::glyphs::{ChainContext1, GlyphSets};
use context::subtable::Subtable;
use readers::bytes::number;
use readers::uints::Uints;
use readers::width::{Two, Width};
use rules::parsed::{ParsedRule, RECORD_BYTES};
use rules::rule_sets::RuleSets;
use rules::widths::RuleWidths;
use std::marker::PhantomData;
use tables::class::ClassDef;
use tables::coverage::Coverage;

/// The format of rules over glyphs.
const GLYPH_FORMAT: u32 = 1;

/// The format of rules over classes.
const CLASS_FORMAT: u32 = 2;

/// The format of one rule over coverages.
const COVERAGE_FORMAT: u32 = 3;

/// The number of two bytes at `place`.
fn word(bytes: &[u8], place: usize) -> u32
    ensures value { result ≡ number_at 2 bytes.now place }
    ensures bound { result < 65536 }
{
    number::<Two>(bytes, place)
}

/// The numbers from `start` on.
pub(crate) fn uints<'a>(bytes: &'a [u8], start: u32, count: u32) -> Uints<'a>
    ensures { parts_of result ≡ (bytes.now, start, count) }
{
    Uints {
        bytes,
        start,
        count,
    }
}

/// Rule sets by their offsets.
pub(crate) fn rule_sets<'a, F: RuleWidths>(
    bytes: &'a [u8],
    offsets: Uints<'a>,
    chained: bool,
) -> RuleSets<'a, F>
    ensures bytes { result.bytes ≡ bytes.entry }
    ensures offsets { result.offsets ≡ offsets.entry }
    ensures chained { result.chained ≡ chained }
{
    RuleSets {
        bytes,
        offsets,
        chained,
        widths: PhantomData,
    }
}

/// The subtable that `bytes` begin with: none where its format is unknown or a part of its header is not inside.
pub(crate) fn header<'a>(bytes: &'a [u8], chained: bool) -> Option<Subtable<'a>>
    ensures { option_map table_of result ≡ header_in chained bytes.now }
{
    match (word(bytes, 0), chained) {
        (GLYPH_FORMAT, _) => glyphs(bytes, chained),
        (CLASS_FORMAT, false) => plain_classes(bytes),
        (CLASS_FORMAT, true) => chained_classes(bytes),
        (COVERAGE_FORMAT, false) => plain_coverages(bytes),
        (COVERAGE_FORMAT, true) => chained_coverages(bytes),
        _ => None,
    }
}

/// Format 1: format, coverage, set count, set offsets.
fn glyphs<'a>(bytes: &'a [u8], chained: bool) -> Option<Subtable<'a>>
    ensures { option_map table_of result ≡ glyph_header chained bytes.now }
{
    let offsets = Uints::counted::<Two>(bytes, 4, 0)?;
    Some(Subtable::Glyphs(ChainContext1 {
        coverage: Coverage::at(bytes, word(bytes, 2) as usize),
        sets: GlyphSets::Narrow(rule_sets(bytes, offsets, chained)),
    }))
}

/// Plain format 2: format, coverage, class, set count, set offsets.
fn plain_classes<'a>(bytes: &'a [u8]) -> Option<Subtable<'a>>
    ensures { option_map table_of result ≡ plain_class_header bytes.now }
{
    let offsets = Uints::counted::<Two>(bytes, 6, 0)?;
    Some(Subtable::Classes(ChainContext2 {
        coverage: Coverage::at(bytes, word(bytes, 2) as usize),
        backtrack: ClassDef::Missing,
        input: ClassDef::at(bytes, word(bytes, 4) as usize),
        lookahead: ClassDef::Missing,
        sets: ClassSets::Narrow(rule_sets(bytes, offsets, false)),
    }))
}

/// Chained format 2: format, coverage, backtrack, input and lookahead class, set count, set offsets. Apart from the plain
/// one: they share but the coverage's place, so one text would be told all the others.
fn chained_classes<'a>(bytes: &'a [u8]) -> Option<Subtable<'a>>
    ensures { option_map table_of result ≡ chained_class_header bytes.now }
{
    let offsets = Uints::counted::<Two>(bytes, 10, 0)?;
    Some(Subtable::Classes(ChainContext2 {
        coverage: Coverage::at(bytes, word(bytes, 2) as usize),
        backtrack: ClassDef::at(bytes, word(bytes, 4) as usize),
        input: ClassDef::at(bytes, word(bytes, 6) as usize),
        lookahead: ClassDef::at(bytes, word(bytes, 8) as usize),
        sets: ClassSets::Narrow(rule_sets(bytes, offsets, true)),
    }))
}

/// The first glyph's coverage, by the first of the offsets, of the width `W`: missing where there is none.
pub(crate) fn first_coverage<'a, W: Width>(offsets: &Uints<'a>) -> Coverage<'a>
    ensures { let o = offsets.now in coverage_of result ≡ first_coverage W.Width.BYTES o.bytes.now o.start o.count }
{
    if offsets.is_empty() {
        return Coverage::Missing;
    }
    Coverage::at(offsets.bytes, offsets.get::<W>(0) as usize)
}

/// The offsets after the first.
pub(crate) fn later_coverages<'a, W: Width>(offsets: &Uints<'a>) -> Uints<'a>
    requires { offsets.now.start ≤ 16777216 }
    ensures { let o = offsets.now in parts_of result ≡ (o.bytes.now, o.start + W.Width.BYTES, o.count - 1) }
{
    uints(
        offsets.bytes,
        offsets.start + W::BYTES as u32,
        offsets.count.saturating_sub(1),
    )
}

/// Plain format 3: format, glyph count, record count, coverage offsets, records.
fn plain_coverages<'a>(bytes: &'a [u8]) -> Option<Subtable<'a>>
    ensures { option_map table_of result ≡ plain_coverage_header bytes.now }
{
    let count = word(bytes, 2);
    let record_count = word(bytes, 4);
    let coverages = uints(bytes, 6, count);
    let records = 6 + 2 * count as usize;
    if records + RECORD_BYTES * record_count as usize > bytes.len() {
        return None;
    }
    Some(Subtable::Coverages(ChainContext3 {
        bytes,
        coverage: first_coverage::<Two>(&coverages),
        rule: CoverageRule::Narrow(ParsedRule {
            backtrack: uints(bytes, 0, 0),
            input: later_coverages::<Two>(&coverages),
            lookahead: uints(bytes, 0, 0),
            records,
            record_count,
            width: PhantomData,
        }),
    }))
}

/// Chained format 3: format, then a count and offsets for backtrack, input and lookahead, then record count and records.
/// Apart from the plain one, whose record count stands before the offsets.
fn chained_coverages<'a>(bytes: &'a [u8]) -> Option<Subtable<'a>>
    ensures { option_map table_of result ≡ chained_coverage_header bytes.now }
{
    // By `Uints::counted` for each of the three the proof did not close without twenty lines of its own.
    let backtracks = word(bytes, 2);
    let input_place = 4 + 2 * backtracks;
    let inputs = word(bytes, input_place as usize);
    let coverages = uints(bytes, input_place + 2, inputs);
    let lookahead_place = input_place + 2 + 2 * inputs;
    let lookaheads = word(bytes, lookahead_place as usize);
    let record_place = (lookahead_place + 2 + 2 * lookaheads) as usize;
    let record_count = word(bytes, record_place);
    if record_place + 2 + RECORD_BYTES * record_count as usize > bytes.len() {
        return None;
    }
    Some(Subtable::Coverages(ChainContext3 {
        bytes,
        coverage: first_coverage::<Two>(&coverages),
        rule: CoverageRule::Narrow(ParsedRule {
            backtrack: uints(bytes, 4, backtracks),
            input: later_coverages::<Two>(&coverages),
            lookahead: uints(bytes, lookahead_place + 2, lookaheads),
            records: record_place + 2,
            record_count,
            width: PhantomData,
        }),
    }))
}
