//! Arrays of numbers and of offsets to child tables, read in place.
ghost use Rattle.std.specs.Prelude.{◌≡◌, ℕ, ◌+◌, ◌*◌, ◌^◌, ◌<◌, ◌≤◌, length, IfSome, ◌==◌};
ghost use Rattle.std.specs.Option.{option_map};
ghost use Rattle.readers.specs.Views.{children_of, counted_at, entries, parts_of, uints_of};
ghost use Rattle.readers.specs.Left.{left_of};

use crate::bytes::{child, number, read};
use crate::each::{Each, Indexed};
use crate::width::{Two, Width};
use std::marker::PhantomData;

/// The bytes of an array's count.
const COUNT_BYTES: u32 = 2;

/// Numbers of one width, one after another from the place `start` on: the functions that read them name the width, since
/// the type of a view made of these names it already.
#[derive(Clone, Copy)]
pub struct Uints<'a> {
    pub bytes: &'a [u8],
    pub start: u32,
    pub count: u32,
}

impl<'a> Uints<'a> {
    /// The numbers behind a count of two bytes at `place`, `less` fewer than it says: none unless the count and the
    /// numbers lie inside, and begin at a place of 32 bits.
    pub fn counted<W: Width>(bytes: &'a [u8], place: u32, less: u32) -> Option<Uints<'a>>
        ensures value { option_map parts_of result ≡ counted_at W.Width.BYTES bytes.now place less }
        ensures inside { IfSome result (λ u. u.start + W.Width.BYTES * u.count ≤ length bytes.now) }
        ensures bound { IfSome result (λ u. u.count < 65536) }
    {
        let (start, count) = counted_entries(bytes, place, less, W::BYTES as u16)?;
        Some(Uints {
            bytes,
            start,
            count,
        })
    }

    /// Number `index`; past the count, what the bytes have there.
    pub fn get<W: Width>(&self, index: u32) -> u32
        ensures value { result ≡ (uints_of W.Width.BYTES self.now).entry index }
        ensures bound { result < 256 ^ W.Width.BYTES }
    {
        number::<W>(self.bytes, self.start as usize + W::BYTES * index as usize)
    }

    /// The numbers, in order.
    pub fn iter<W: Width>(&self) -> Each<Numbers<'a, W>>
        ensures { left_of W.Width.BYTES result ≡ entries (uints_of W.Width.BYTES self.now) }
    {
        Each::of(Numbers {
            uints: *self,
            width: PhantomData,
        })
    }

    /// How many numbers there are.
    pub fn len(&self) -> u32
        ensures { result ≡ self.now.count }
    {
        self.count
    }

    /// Whether there are none.
    pub fn is_empty(&self) -> bool
        ensures { result ≡ (self.now.count == 0) }
    {
        self.len() == 0
    }
}

/// Numbers of the width `W`.
#[derive_where(Clone, Copy)]
pub struct Numbers<'a, W> {
    uints: Uints<'a>,
    width: PhantomData<W>,
}

impl<'a, W: Width> Indexed for Numbers<'a, W> {
    type Item = u32;

    ghost Shown = { ℕ };

    ghost shows = { λ number. number };

    ghost array = { λ s. uints_of W.Width.BYTES s.uints };

    fn size(&self) -> u32 {
        self.uints.len()
    }

    fn item(&self, index: u32) -> u32 {
        self.uints.get::<W>(index)
    }
}

/// The start and the number of entries of `size` bytes behind a count at `place`, `less` fewer than it says.
pub fn counted_entries(bytes: &[u8], place: u32, less: u32, size: u16) -> Option<(u32, u32)>
    ensures value { option_map (λ e. (bytes.now, e.0, e.1)) result ≡ counted_at size bytes.now place less }
    ensures inside { IfSome result (λ e. e.0 + size * e.1 ≤ length bytes.now) }
    ensures bound { IfSome result (λ e. e.1 < 65536) }
{
    let count = read::<Two>(bytes, place as usize)?.saturating_sub(less);
    let start = place.checked_add(COUNT_BYTES)?;
    if start as usize + usize::from(size) * count as usize > bytes.len() {
        return None;
    }
    Some((start, count))
}

/// Offsets to child tables, with the bytes that they are relative to. An offset of 0 is null.
#[derive(Clone, Copy)]
pub struct Offsets<'a> {
    pub bytes: &'a [u8],
    pub offsets: Uints<'a>,
}

impl<'a> Offsets<'a> {
    /// The child table at offset `index`: none where it is null or passes the end.
    pub fn get<W: Width>(&self, index: u32) -> Option<&'a [u8]>
        ensures value { option_map (λ x. x.now) result ≡ (children_of W.Width.BYTES self.now).entry index }
        ensures within { IfSome result (λ part. length part.now + (uints_of W.Width.BYTES self.now.offsets).entry index ≡ length self.now.bytes.now) }
    {
        child(self.bytes, self.offsets.get::<W>(index) as usize)
    }

    /// How many offsets there are.
    pub fn len(&self) -> u32
        ensures { result ≡ self.now.offsets.count }
    {
        self.offsets.len()
    }
}
