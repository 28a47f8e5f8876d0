//! The byte ranges in which the parts of a wide subtable lie.
ghost use Rattle.std.specs.Prelude.{◌≡◌};
ghost use Rattle.arguments.specs.Counts.{Answered, Taken};
ghost use Rattle.arguments.specs.Parts.{chained_class_parts, coverage_parts, glyph_parts, next_range, open_wide_of, parts_by, plain_class_parts};
ghost use Rattle.words.specs.Words.{words_in};

use crate::counts::{first_two, next_word, so_many};
use crate::kinds::WideKind;
use opening::wide::{ByteRange, WideParts};
use words::fault::Fault;
use words::line::Words;
use words::numbers::range;

/// Takes the next word as a range.
fn next_range(words: &mut Words<'_>) -> Result<ByteRange, Fault>
    ensures { Taken next_range (λ x. x) (words_in words.old.rest.now) result (words_in words.new.rest.now) }
{
    let (start, end) = range(next_word(words)?)?;
    Ok(ByteRange { start, end })
}

/// The ranges of a glyph subtable.
fn glyph_parts(mut words: Words<'_>, chained: bool) -> Result<WideParts, Fault>
    ensures { result ≡ glyph_parts chained (words_in words.entry.rest.now) }
{
    Ok(WideParts::Glyphs {
        chained,
        coverage: next_range(&mut words)?,
        sets: next_range(&mut words)?,
    })
}

/// The ranges of a plain class subtable.
fn plain_class_parts(mut words: Words<'_>) -> Result<WideParts, Fault>
    ensures { result ≡ plain_class_parts (words_in words.entry.rest.now) }
{
    Ok(WideParts::PlainClasses {
        coverage: next_range(&mut words)?,
        input: next_range(&mut words)?,
        sets: next_range(&mut words)?,
    })
}

/// The ranges of a chained class subtable.
fn chained_class_parts(mut words: Words<'_>) -> Result<WideParts, Fault>
    ensures { result ≡ chained_class_parts (words_in words.entry.rest.now) }
{
    Ok(WideParts::ChainedClasses {
        coverage: next_range(&mut words)?,
        backtrack: next_range(&mut words)?,
        input: next_range(&mut words)?,
        lookahead: next_range(&mut words)?,
        sets: next_range(&mut words)?,
    })
}

/// The ranges of a coverage subtable.
fn coverage_parts(mut words: Words<'_>) -> Result<WideParts, Fault>
    ensures { result ≡ coverage_parts (words_in words.entry.rest.now) }
{
    Ok(WideParts::Coverages {
        offsets: next_range(&mut words)?,
        records: next_range(&mut words)?,
    })
}

/// The ranges of a wide subtable of a kind.
fn parts_by(kind: WideKind, words: Words<'_>) -> Result<WideParts, Fault>
    ensures { result ≡ parts_by kind (words_in words.entry.rest.now) }
{
    match kind {
        WideKind::Glyphs { chained } => glyph_parts(words, chained),
        WideKind::PlainClasses => plain_class_parts(words),
        WideKind::ChainedClasses => chained_class_parts(words),
        WideKind::Coverages => coverage_parts(words),
    }
}

/// The word that writes a wide subtable's bytes, and its ranges.
pub fn table_and_parts<'a>(mut words: Words<'a>) -> Result<(&'a [u8], WideParts), Fault>
    ensures { Answered (open_wide_of (words_in words.entry.rest.now)) (λ p. (p.0.now, p.1)) result }
{
    let (kind, chained) = first_two(&mut words)?;
    let kind = WideKind::named(kind, chained)?;
    so_many(words, kind.range_count() + 1)?;
    let table = next_word(&mut words)?;
    Ok((table, parts_by(kind, words)?))
}
