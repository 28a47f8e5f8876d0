//! What one word writes: a decimal number without a sign, a flag, or a range of numbers.
ghost use Rattle.std.specs.Prelude.{◌≡◌, ◌+◌, ◌-◌, ◌*◌, ◌^◌, List, ℕ, Result};
ghost use Rattle.std.specs.Char.{is_ascii_digit};
ghost use Rattle.std.specs.List.{list_all};
ghost use Rattle.words.specs.Numbers.{below, decimal_in, flag_in, range_in};
ghost use Rattle.words.specs.declared.fault.Fault.{Fault};

use crate::fault::Fault;
use crate::line::index_of;

/// What stands twice between the two numbers of a range.
const DOT: u8 = b'.';

/// A value that one word can write.
pub trait FromWord: Sized + Drop {
    // What a word writes.
    ghost written: { List ℕ → Result Self Fault };

    /// The value that a word writes.
    fn from_word(word: &[u8]) -> Result<Self, Fault>
        ensures { result ≡ written word.now };
}

/// A number below 2^64.
impl FromWord for u64 {
    ghost written = { decimal_in (2 ^ 64) };

    fn from_word(word: &[u8]) -> Result<u64, Fault> {
        if word.is_empty() || !all_digits(word) {
            return Err(Fault::NotANumber);
        }
        let mut value: u64 = 0;
        for digit in word {
            value = with_digit(value, *digit)?;
        }
        Ok(value)
    }
}

/// A number below 2^32.
impl FromWord for u32 {
    ghost written = { decimal_in (2 ^ 32) };

    fn from_word(word: &[u8]) -> Result<u32, Fault> {
        let value = u64::from_word(word)?;
        u32::try_from(value).map_err(|_| Fault::NumberTooLarge)
    }
}

/// A number below 2^64.
impl FromWord for usize {
    ghost written = { decimal_in (2 ^ 64) };

    fn from_word(word: &[u8]) -> Result<usize, Fault> {
        let value = u64::from_word(word)?;
        // Of 64 bits here, and there is no `From`.
        Ok(value as usize)
    }
}

/// 0 or 1.
impl FromWord for bool {
    ghost written = { flag_in };

    fn from_word(word: &[u8]) -> Result<bool, Fault> {
        match u64::from_word(word)? {
            0 => Ok(false),
            1 => Ok(true),
            _ => Err(Fault::NumberTooLarge),
        }
    }
}

/// Whether every byte is a decimal digit.
fn all_digits(word: &[u8]) -> bool
    ensures { result ≡ list_all is_ascii_digit word.now }
{
    word.iter().all(|b| b.is_ascii_digit())
}

/// The number with one more digit, where it is below 2^64.
fn with_digit(value: u64, digit: u8) -> Result<u64, Fault>
    ensures { result ≡ below (2 ^ 64) (value * 10 + (digit - 48)) }
{
    let digit = u64::from(digit.saturating_sub(b'0'));
    value
        .checked_mul(10)
        .and_then(|tens| tens.checked_add(digit))
        .ok_or(Fault::NumberTooLarge)
}

/// The two ends of the range that a word writes: two numbers below 2^32 with two dots between them.
pub fn range(word: &[u8]) -> Result<(u32, u32), Fault>
    ensures { result ≡ range_in word.now }
{
    let (start, dots) = word.split_at(index_of(word, DOT));
    let [_, DOT, end @ ..] = dots else {
        return Err(Fault::NotARange);
    };
    Ok((u32::from_word(start)?, u32::from_word(end)?))
}
