//! Bytes and glyphs that words write, appended to a script's buffers.
ghost use Rattle.std.specs.Prelude.{◌≡◌};
ghost use Rattle.script.specs.Lines.{glyphs_of};
ghost use Rattle.script.specs.Meant.{Pushed, Read};
ghost use Rattle.words.specs.Hex.{hex_in};
ghost use Rattle.words.specs.Words.{words_in};

use words::fault::Unread;
use words::hex::hex;
use words::line::Words;
use words::numbers::FromWord;
use words::span::Span;

/// The bytes that a word writes, which are appended.
pub(crate) fn table(word: &[u8], bytes: &mut Vec<u8>) -> Result<Span, Unread>
    ensures { Read (hex_in word.now) bytes.old.items bytes.new.items result }
{
    hex(word, bytes)
}

/// All words that are left as glyphs, which are appended.
pub(crate) fn all_glyphs(words: Words<'_>, glyphs: &mut Vec<u32>) -> Result<Span, Unread>
    ensures { Read (glyphs_of (words_in words.entry.rest.now)) glyphs.old.items glyphs.new.items result }
{
    let start = glyphs.len();
    if let Err(why) = push_glyphs(words, glyphs) {
        glyphs.truncate(start);
        return Err(why);
    }
    Ok(Span {
        start,
        end: glyphs.len(),
    })
}

/// Appends all words that are left as glyphs, up to the first that is none.
fn push_glyphs(words: Words<'_>, glyphs: &mut Vec<u32>) -> Result<(), Unread>
    ensures { Pushed (glyphs_of (words_in words.entry.rest.now)) glyphs.old.items glyphs.new.items result }
{
    for word in words {
        glyphs.push(u32::from_word(word)?)?;
    }
    Ok(())
}
