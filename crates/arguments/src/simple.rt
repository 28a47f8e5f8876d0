//! Arguments in one word, in two, or in the first two of more.
ghost use Rattle.std.specs.Prelude.{◌≡◌};
ghost use Rattle.arguments.specs.Counts.{Answered, Taken};
ghost use Rattle.arguments.specs.Simple.{both_of, first_both_of, first_of, one_of, open_of, table_of};
ghost use Rattle.words.specs.Words.{words_in};

use crate::counts::{first_two, next_word, no_words, two_words};
use crate::kinds::is_chained;
use words::fault::Fault;
use words::line::Words;
use words::numbers::FromWord;

/// What the one word that is left says.
pub fn one_value<T: FromWord>(mut words: Words<'_>) -> Result<T, Fault>
    ensures { result ≡ one_of T.written (words_in words.entry.rest.now) }
{
    let word = next_word(&mut words)?;
    no_words(words)?;
    T::from_word(word)
}

/// What the two words that are left say.
pub fn two_values<A: FromWord, B: FromWord>(words: Words<'_>) -> Result<(A, B), Fault>
    ensures { result ≡ both_of A.written B.written (words_in words.entry.rest.now) }
{
    let (first, second) = two_words(words)?;
    Ok((A::from_word(first)?, B::from_word(second)?))
}

/// Takes what the next word says.
pub fn next_value<T: FromWord>(words: &mut Words<'_>) -> Result<T, Fault>
    ensures { Taken (first_of T.written) (λ x. x) (words_in words.old.rest.now) result (words_in words.new.rest.now) }
{
    T::from_word(next_word(words)?)
}

/// Takes what the next two words say.
pub fn next_two_values<A: FromWord, B: FromWord>(words: &mut Words<'_>) -> Result<(A, B), Fault>
    ensures { Taken (first_both_of A.written B.written) (λ x. x) (words_in words.old.rest.now) result (words_in words.new.rest.now) }
{
    let (first, second) = first_two(words)?;
    Ok((A::from_word(first)?, B::from_word(second)?))
}

/// The word that writes a table's bytes, and a glyph.
pub fn table_and_glyph<'a>(words: Words<'a>) -> Result<(&'a [u8], u32), Fault>
    ensures { Answered (table_of (words_in words.entry.rest.now)) (λ p. (p.0.now, p.1)) result }
{
    let (table, glyph) = two_words(words)?;
    Ok((table, u32::from_word(glyph)?))
}

/// The word that writes a subtable's bytes, and whether the subtable is chained.
pub fn table_and_chained<'a>(words: Words<'a>) -> Result<(&'a [u8], bool), Fault>
    ensures { Answered (open_of (words_in words.entry.rest.now)) (λ p. (p.0.now, p.1)) result }
{
    let (kind, table) = two_words(words)?;
    Ok((table, is_chained(kind)?))
}
