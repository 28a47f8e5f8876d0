//! So many words: none, exactly a number of them, the next, the first two.
ghost use Rattle.std.specs.Prelude.{◌≡◌, length};
ghost use Rattle.arguments.specs.Counts.{Answered, Taken, exactly, first_two, next_word, none_of, two_of};
ghost use Rattle.words.specs.Words.{words_in};

use std::cmp::Ordering;
use words::fault::Fault;
use words::line::Words;

/// Sees that there is no word left.
pub fn no_words(mut words: Words<'_>) -> Result<(), Fault>
    ensures { result ≡ none_of (words_in words.entry.rest.now) }
{
    if words.next().is_some() {
        return Err(Fault::ExtraWord);
    }
    Ok(())
}

/// How many words are left.
fn count(words: Words<'_>) -> usize
    ensures { result ≡ length (words_in words.entry.rest.now) }
{
    words.count()
}

/// Sees that there are so many words left.
pub(crate) fn so_many(words: Words<'_>, wanted: usize) -> Result<(), Fault>
    ensures { result ≡ exactly wanted (words_in words.entry.rest.now) }
{
    match count(words).cmp(&wanted) {
        Ordering::Less => Err(Fault::MissingWord),
        Ordering::Equal => Ok(()),
        Ordering::Greater => Err(Fault::ExtraWord),
    }
}

/// Takes the next word.
pub(crate) fn next_word<'a>(words: &mut Words<'a>) -> Result<&'a [u8], Fault>
    ensures { Taken next_word (λ w. w.now) (words_in words.old.rest.now) result (words_in words.new.rest.now) }
{
    words.next().ok_or(Fault::MissingWord)
}

/// Takes the next two words.
pub(crate) fn first_two<'a>(words: &mut Words<'a>) -> Result<(&'a [u8], &'a [u8]), Fault>
    ensures { Taken first_two (λ p. (p.0.now, p.1.now)) (words_in words.old.rest.now) result (words_in words.new.rest.now) }
{
    Ok((next_word(words)?, next_word(words)?))
}

/// The two words that are left.
pub(crate) fn two_words<'a>(mut words: Words<'a>) -> Result<(&'a [u8], &'a [u8]), Fault>
    ensures { Answered (two_of (words_in words.entry.rest.now)) (λ p. (p.0.now, p.1.now)) result }
{
    let pair = first_two(&mut words)?;
    no_words(words)?;
    Ok(pair)
}
