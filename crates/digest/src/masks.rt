//! One mask of 64 bits.
ghost use Rattle.std.specs.Prelude.{◌≡◌, ◌%◌, ◌^◌};
ghost use Rattle.opentype.specs.Masks.{has_bit};

/// The number of a mask's last bit, and so what takes a number modulo 64.
pub(crate) const LAST_BIT: u32 = 63;

/// The mask with the bit of `number` modulo 64 alone.
pub(crate) fn bit_of(number: u32) -> u64
    ensures value { result ≡ 2 ^ (number % 64) }
{
    1u64 << (number & LAST_BIT)
}

/// Whether the mask has the bit of `number` modulo 64.
pub(crate) fn has_bit(mask: u64, number: u32) -> bool
    ensures value { result ≡ has_bit mask (number % 64) }
{
    mask & bit_of(number) != 0
}
