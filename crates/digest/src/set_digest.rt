//! A set of glyphs by three masks: which glyphs may be in it.
ghost use Rattle.std.specs.Prelude.{◌≡◌, ℕ, ◌<◌, ◌≤◌, true, false, is_ok, if◌then◌else◌, Ok, Err};
ghost use Rattle.answers.specs.declared.refusal.Refusal.TheVariants.{SpanSum};
ghost use Rattle.opentype.specs.Filters.{add_from};
ghost use Rattle.opentype.specs.Laws.{BitsAdded, BitsJoined, BitsSpanned, Covers};
ghost use Rattle.opentype.specs.Masks.{add_glyph, admits, full, has_glyph, joined, none, with_glyph};
ghost use Rattle.opentype.specs.Spans.{add_span, with_span};
ghost use Rattle.opentype.specs.Sums.{mask_sum_fits, all_sums_fit};

use crate::masks::{LAST_BIT, bit_of, has_bit};
use answers::Refusal;

/// By how many bits glyphs are shifted for a mask: a glyph's bit in it is that of the shifted glyph.
#[derive(Clone, Copy)]
struct Shift {
    by: u32,
    ghost within: { by < 32 },
}

/// The shifts of the three masks. They stand beside the masks and not with them, since every definition has the masks as
/// one list; three lines, one for each, are plainer than a loop over both.
const SHIFTS: [Shift; 3] = [Shift { by: 4 }, Shift { by: 0 }, Shift { by: 6 }];

impl Shift {
    /// The mask, with a glyph.
    fn with_glyph(self, mask: u64, glyph: u32) -> u64
        ensures value { result ≡ with_glyph self.by mask glyph }
    {
        mask | bit_of(glyph >> self.by)
    }

    /// Whether the mask has the glyph's bit.
    fn has_glyph(self, mask: u64, glyph: u32) -> bool
        ensures value { result ≡ has_glyph self.by mask glyph }
    {
        has_bit(mask, glyph >> self.by)
    }

    /// The mask, with the glyphs from `start` to `end`. The bits from the first to the last go round after 64, and 63 or
    /// more of them are taken for all.
    fn with_span(self, mask: u64, start: u32, end: u32) -> Result<u64, Refusal>
        ensures value { result ≡ (if mask_sum_fits self.by start end then Ok (with_span self.by mask start end) else Err SpanSum) }
    {
        let first = start >> self.by;
        let last = end >> self.by;
        if last < first || last - first >= LAST_BIT {
            return Ok(u64::MAX);
        }
        let low = bit_of(first);
        let high = bit_of(last);
        let sum = high
            .checked_add(high.wrapping_sub(low))
            .ok_or(Refusal::SpanSum)?;
        Ok(mask | (sum - u64::from(high < low)))
    }
}

/// A set of glyphs by three masks of 64 bits. A glyph has one bit in each; other glyphs may have the same three, so that
/// `may_have` may answer yes for a glyph that was never added, and never answers no for one that was.
#[derive(Clone, Copy, Debug, PartialEq, Eq)]
pub struct SetDigest {
    masks: [u64; 3],
}

impl SetDigest {
    /// The empty set: it has no glyph.
    pub fn new() -> Self
        ensures value { result.masks ≡ none }
        ensures empty { (g : ℕ) → admits result.masks g ≡ false }
    {
        SetDigest { masks: [0; 3] }
    }

    /// The set that may have every glyph.
    pub fn full() -> Self
        ensures value { result.masks ≡ full }
        ensures every { (g : ℕ) → admits result.masks g ≡ true }
    {
        SetDigest {
            masks: [u64::MAX; 3],
        }
    }

    /// Adds a glyph: the set may have it from now on, and whatever it might have before.
    pub fn add(&mut self, glyph: u32)
        ensures value { self.new.masks ≡ add_glyph self.old.masks glyph }
        ensures added { admits self.new.masks glyph ≡ true }
        ensures kept { Covers self.new.masks self.old.masks }
        ensures bits { BitsAdded self.new.masks self.old.masks glyph }
    {
        let [a, b, c] = self.masks;
        self.masks = [
            SHIFTS[0].with_glyph(a, glyph),
            SHIFTS[1].with_glyph(b, glyph),
            SHIFTS[2].with_glyph(c, glyph),
        ];
    }

    /// Adds the glyphs from `start` to `end`, with what adding them one by one sets. A mask is set to all ones where the
    /// ends, shifted, are 63 or more apart or in the wrong order. Refused, with nothing changed, where a sum by which a
    /// mask is computed passes 64 bits.
    pub fn add_range(&mut self, start: u32, end: u32) -> Result<(), Refusal>
        ensures answer { result ≡ (if all_sums_fit start end then Ok tt else Err SpanSum) }
        ensures value { self.new.masks ≡ (if all_sums_fit start end then add_span self.old.masks start end else self.old.masks) }
        ensures added { is_ok result ≡ true → (g : ℕ) → start ≤ g → g ≤ end → admits self.new.masks g ≡ true }
        ensures kept { Covers self.new.masks self.old.masks }
        ensures each { is_ok result ≡ true → start ≤ end → self.new.masks ≡ add_from start end self.old.masks }
        ensures bits { is_ok result ≡ true → BitsSpanned self.new.masks self.old.masks start end }
    {
        let [a, b, c] = self.masks;
        let a = SHIFTS[0].with_span(a, start, end)?;
        let b = SHIFTS[1].with_span(b, start, end)?;
        let c = SHIFTS[2].with_span(c, start, end)?;
        self.masks = [a, b, c];
        Ok(())
    }

    /// Adds another set: this one may have what either might have.
    pub fn union(&mut self, other: &SetDigest)
        ensures value { self.new.masks ≡ joined self.old.masks other.now.masks }
        ensures kept { Covers self.new.masks self.old.masks }
        ensures added { Covers self.new.masks other.now.masks }
        ensures bits { BitsJoined self.new.masks self.old.masks other.now.masks }
    {
        let [a, b, c] = self.masks;
        let [d, e, f] = other.masks;
        self.masks = [a | d, b | e, c | f];
    }

    /// Whether the set may have the glyph: each mask has the glyph's bit.
    pub fn may_have(&self, glyph: u32) -> bool
        ensures value { result ≡ admits self.now.masks glyph }
    {
        let [a, b, c] = self.masks;
        SHIFTS[0].has_glyph(a, glyph)
            && SHIFTS[1].has_glyph(b, glyph)
            && SHIFTS[2].has_glyph(c, glyph)
    }

    /// The three masks.
    pub fn masks(&self) -> [u64; 3]
        ensures value { result ≡ self.now.masks }
    {
        self.masks
    }
}
