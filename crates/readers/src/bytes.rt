//! Numbers and child tables in a font's bytes.
ghost use Rattle.std.specs.Prelude.{◌≡◌, ◌+◌, ◌^◌, ◌<◌, length, IfSome};
ghost use Rattle.std.specs.Option.{option_map};
ghost use Rattle.opentype.specs.Bytes.{number as number_at, number_in, tail_at, child_at};

use crate::width::Width;

/// The big-endian number at `place`. A byte past the end is read as 0.
pub fn number<W: Width>(bytes: &[u8], place: usize) -> u32
    ensures value { result ≡ number_at W.Width.BYTES bytes.now place }
    ensures bound { result < 256 ^ W.Width.BYTES }
{
    // Not by `tail`: an `Option` between makes each loop that reads numbers longer.
    if place >= bytes.len() {
        return 0;
    }
    W::first(&bytes[place..])
}

/// The big-endian number at `place`, or none where it does not lie inside.
pub fn read<W: Width>(bytes: &[u8], place: usize) -> Option<u32>
    ensures value { result ≡ number_in W.Width.BYTES bytes.now place }
    ensures bound { IfSome result (λ v. v < 256 ^ W.Width.BYTES) }
{
    let rest = tail(bytes, place)?;
    if rest.len() < W::BYTES {
        return None;
    }
    Some(W::first(rest))
}

/// The rest of the bytes from `offset` on: empty at the end, none past it.
pub fn tail<'a>(bytes: &'a [u8], offset: usize) -> Option<&'a [u8]>
    ensures value { option_map (λ x. x.now) result ≡ tail_at bytes.now offset }
    ensures within { IfSome result (λ part. length part.now + offset ≡ length bytes.now) }
{
    bytes.get(offset..)
}

/// The child table at `offset`, where 0 is null.
pub fn child<'a>(bytes: &'a [u8], offset: usize) -> Option<&'a [u8]>
    ensures value { option_map (λ x. x.now) result ≡ child_at bytes.now offset }
    ensures within { IfSome result (λ part. length part.now + offset ≡ length bytes.now) }
{
    if offset == 0 {
        return None;
    }
    tail(bytes, offset)
}
