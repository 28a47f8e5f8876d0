//! Bytes written as hexadecimal digits.
ghost use Rattle.std.specs.Prelude.{◌≡◌, ◌<◌};
ghost use Rattle.std.specs.Char.{is_ascii_hexdigit};
ghost use Rattle.std.specs.List.{list_all};
ghost use Rattle.words.specs.Hex.{Appended, hex_in, nibble};

use crate::fault::{Fault, Unread};
use crate::span::Span;

/// The word that stands for no bytes.
const NO_BYTES: &[u8] = b"-";

/// Whether every byte is a hexadecimal digit. Beside `all_digits`: each is one call of the library, by another test.
fn all_hex(word: &[u8]) -> bool
    ensures { result ≡ list_all is_ascii_hexdigit word.now }
{
    word.iter().all(|b| b.is_ascii_hexdigit())
}

/// The value of a hexadecimal digit. A `to_digit` would be unwrapped and narrowed here, which is no plainer.
fn digit(b: u8) -> u8
    ensures value { result ≡ nibble b }
    ensures bound { result < 16 }
{
    match b {
        b'0'..=b'9' => b - b'0',
        b'A'..=b'F' => b - b'A' + 10,
        b'a'..=b'f' => b - b'a' + 10,
        _ => 0,
    }
}

/// Appends the bytes that a word writes, and says where they stand. A word that is refused appends nothing.
pub fn hex(word: &[u8], bytes: &mut Vec<u8>) -> Result<Span, Unread>
    ensures { Appended (hex_in word.now) bytes.old bytes.new result }
{
    let start = bytes.len();
    if word == NO_BYTES {
        return Ok(Span { start, end: start });
    }
    if !all_hex(word) {
        return Err(Fault::NotHex.into());
    }
    let (pairs, rest) = word.as_chunks::<2>();
    if !rest.is_empty() {
        return Err(Fault::OddHex.into());
    }
    // Room for all of them at once: memory lacks only where the buffer has no room for them.
    bytes.reserve(pairs.len())?;
    for [high, low] in pairs {
        bytes.push_reserved(digit(*high) * 16 + digit(*low));
    }
    Ok(Span {
        start,
        end: bytes.len(),
    })
}

#[cfg(test)]
mod tests {
    use super::*;
    use std::test::Fail;

    #[test]
    fn pairs_of_digits_are_bytes(rt: HostRuntime) -> Result<(), Fail> {
        let mut bytes = Vec::new(rt.alloc());
        let read = hex(b"00fFA0", &mut bytes);
        assert!(rt; read.is_ok_and(|span| span.start == 0 && span.end == 3));
        assert!(rt; bytes.as_slice() == [0, 255, 160].as_slice());
        Ok(())
    }

    #[test]
    fn a_dash_stands_for_no_bytes(rt: HostRuntime) -> Result<(), Fail> {
        let mut bytes = Vec::new(rt.alloc());
        let read = hex(b"-", &mut bytes);
        assert!(rt; read.is_ok_and(|span| span.start == 0 && span.end == 0));
        assert!(rt; bytes.is_empty());
        Ok(())
    }
}
