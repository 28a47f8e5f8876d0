//! Rules, parsed from their bytes.
ghost use Rattle.std.specs.Prelude.{◌≡◌, ◌+◌, ◌-◌, ◌^◌, ◌<◌, Some};
ghost use Rattle.std.specs.Option.{option_map};
ghost use Rattle.opentype.specs.Bytes.{number as number_at};
ghost use Rattle.opentype.specs.Rules.{chained_rule, plain_rule, rule_in};
ghost use Rattle.rules.specs.Views.{rule_of};

use readers::bytes::number;
use readers::uints::Uints;
use readers::width::{Two, Width};
use std::marker::PhantomData;

/// The bytes of a record.
pub const RECORD_BYTES: usize = 4;

/// How the rules of a subtable are laid out, besides the width of their values.
#[derive(Clone, Copy)]
pub struct RuleLayout {
    /// Whether the rules are chained: with backtrack and lookahead.
    pub chained: bool,
    /// The length of the subtable, whose tail each rule is: it tells where in the subtable a rule begins.
    pub whole: usize,
}

/// A rule: its values of the width `W`, and the place in the subtable and the number of its records.
#[derive_where(Clone, Copy)]
pub struct ParsedRule<'a, W> {
    pub backtrack: Uints<'a>,
    pub input: Uints<'a>,
    pub lookahead: Uints<'a>,
    pub records: usize,
    pub record_count: u32,
    pub width: PhantomData<W>,
}

/// Numbers that lie in `bytes`, none of them.
fn no_values<'a>(bytes: &'a [u8]) -> Uints<'a>
    ensures { (result.bytes.now ≡ bytes.now) × (result.start ≡ 0) × (result.count ≡ 0) }
{
    Uints {
        bytes,
        start: 0,
        count: 0,
    }
}

/// The values behind a count of two bytes at `place`, `less` fewer than it says. Whether they lie inside is not asked: the
/// records behind them say it for all of a rule's values at once.
fn values_at<'a>(bytes: &'a [u8], place: u32, less: u32) -> Uints<'a>
    requires near { place < 2 ^ 20 }
    ensures values { (result.bytes.now ≡ bytes.now) × (result.start ≡ place + 2) × (result.count ≡ number_at 2 bytes.now place - less) }
    ensures bound { result.count < 65536 }
{
    Uints {
        bytes,
        start: place + 2,
        count: number::<Two>(bytes, place as usize).saturating_sub(less),
    }
}

impl<'a, W: Width> ParsedRule<'a, W> {
    /// The rule that `bytes` begin with, laid out so: none unless it lies inside whole.
    pub fn parse(bytes: &'a [u8], layout: RuleLayout) -> Option<ParsedRule<'a, W>>
        ensures { option_map (rule_of W.Width.BYTES) result ≡ rule_in layout.chained W.Width.BYTES layout.whole (Some bytes.now) }
    {
        if layout.chained {
            ParsedRule::chained(bytes, layout.whole)
        } else {
            ParsedRule::plain(bytes, layout.whole)
        }
    }

    /// A plain rule: glyph count, record count, one value fewer than glyphs, records.
    fn plain(bytes: &'a [u8], whole: usize) -> Option<ParsedRule<'a, W>>
        ensures { option_map (rule_of W.Width.BYTES) result ≡ plain_rule W.Width.BYTES whole bytes.now }
    {
        let count = number::<Two>(bytes, 0).saturating_sub(1);
        let record_count = number::<Two>(bytes, 2);
        let records = 4 + W::BYTES * count as usize;
        if records + RECORD_BYTES * record_count as usize > bytes.len() {
            return None;
        }
        Some(ParsedRule {
            backtrack: no_values(bytes),
            input: Uints {
                bytes,
                start: 4,
                count,
            },
            lookahead: no_values(bytes),
            records: whole.saturating_sub(bytes.len()) + records,
            record_count,
            width: PhantomData,
        })
    }

    /// A chained rule: backtrack count and values, input count and one value fewer, lookahead count and values, record
    /// count and records. These come last, so where they lie inside all else does.
    fn chained(bytes: &'a [u8], whole: usize) -> Option<ParsedRule<'a, W>>
        ensures { option_map (rule_of W.Width.BYTES) result ≡ chained_rule W.Width.BYTES whole bytes.now }
    {
        let width = W::BYTES as u32;
        let backtrack = values_at(bytes, 0, 0);
        let input = values_at(bytes, backtrack.start + width * backtrack.count, 1);
        let lookahead = values_at(bytes, input.start + width * input.count, 0);
        let record_place = (lookahead.start + width * lookahead.count) as usize;
        let record_count = number::<Two>(bytes, record_place);
        if record_place + 2 + RECORD_BYTES * record_count as usize > bytes.len() {
            return None;
        }
        Some(ParsedRule {
            backtrack,
            input,
            lookahead,
            records: whole.saturating_sub(bytes.len()) + (record_place + 2),
            record_count,
            width: PhantomData,
        })
    }
}
