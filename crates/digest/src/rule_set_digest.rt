//! A set of values by one word: which first input values the rules of a set may have.
ghost use Rattle.std.specs.Prelude.{◌≡◌, ℕ, ◌%◌, ◌^◌, true, false, ◌⊎◌, Decides, ◌==◌, bit_or};
ghost use Rattle.opentype.specs.Laws.{Has};
ghost use Rattle.opentype.specs.Masks.{all_ones, has_bit};

use crate::masks::{bit_of, has_bit};

/// A set of values by one word: a value has the bit of its remainder modulo 64. Values with one remainder are not told
/// apart, so that `may_have` may answer yes for a value that was never added, and never answers no for one that was.
#[derive(Clone, Copy, Debug, PartialEq, Eq)]
pub struct RuleSetDigest {
    word: u64,
}

impl RuleSetDigest {
    /// The empty set: it has no value.
    pub fn new() -> Self
        ensures value { result.word ≡ 0 }
        ensures empty { (v : ℕ) → has_bit result.word (v % 64) ≡ false }
    {
        RuleSetDigest { word: 0 }
    }

    /// The set that may have every value.
    pub fn full() -> Self
        ensures value { result.word ≡ all_ones }
        ensures every { (v : ℕ) → has_bit result.word (v % 64) ≡ true }
    {
        RuleSetDigest { word: u64::MAX }
    }

    /// Adds a value: its bit is set, and no other is changed.
    pub fn add(&mut self, value: u32)
        ensures value { self.new.word ≡ bit_or self.old.word (2 ^ (value % 64)) }
        ensures added { has_bit self.new.word (value % 64) ≡ true }
        ensures kept { (j : ℕ) → Has self.old.word j → Has self.new.word j }
        ensures bits { (j : ℕ) → Decides (has_bit self.new.word j) (Has self.old.word j ⊎ (value % 64 ≡ j)) }
    {
        self.word |= bit_of(value);
    }

    /// Whether the set may have the value: the word has the value's bit.
    pub fn may_have(&self, value: u32) -> bool
        ensures value { result ≡ has_bit self.now.word (value % 64) }
    {
        has_bit(self.word, value)
    }

    /// Whether every bit is set.
    pub fn is_full(&self) -> bool
        ensures value { result ≡ (self.now.word == all_ones) }
    {
        self.word == u64::MAX
    }

    /// The word.
    pub fn word(&self) -> u64
        ensures value { result ≡ self.now.word }
    {
        self.word
    }
}
