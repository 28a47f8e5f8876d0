//! The words of a line.
ghost use Rattle.std.specs.Prelude.{◌≡◌, ◌≤◌, length};
ghost use Rattle.std.specs.Iterator.{item_count};
ghost use Rattle.words.specs.Bytes.{index_of, leading};
ghost use Rattle.words.specs.Words.{TakesWord, words_left};

/// What separates words.
const SPACE: u8 = b' ';

/// The index of the first byte that equals `b`, or the length where there is none.
pub fn index_of(text: &[u8], b: u8) -> usize
    ensures value { result ≡ index_of b text.now }
    ensures within { result ≤ length text.now }
{
    match text.iter().position(|x| *x == b) {
        Some(at) => at,
        None => text.len(),
    }
}

/// How many spaces the text begins with. Beside `index_of`: each is one call of the library, by another test.
fn leading_spaces(text: &[u8]) -> usize
    ensures value { result ≡ leading 32 text.now }
    ensures within { result ≤ length text.now }
{
    text.iter().position(|x| *x != SPACE).unwrap_or(text.len())
}

/// The words of a line that are still to be read.
#[derive(Clone, Copy)]
pub struct Words<'a> {
    pub rest: &'a [u8],
}

impl<'a> Words<'a> {
    /// All words of a line.
    pub fn new(line: &'a [u8]) -> Words<'a>
        ensures { result.rest.now ≡ line.now }
    {
        Words { rest: line }
    }
}

impl<'a> Iterator for Words<'a> {
    type Item = &'a [u8];

    ghost next_gives = { TakesWord };

    ghost remaining = { item_count words_left };

    /// Takes the next word, if there is one.
    fn next(&mut self) -> Option<&'a [u8]> {
        let (_, text) = self.rest.split_at(leading_spaces(self.rest));
        let (word, rest) = text.split_at(index_of(text, SPACE));
        self.rest = rest;
        // An `if`, each case of which is proved by itself: `then_some` makes one goal of both.
        if word.is_empty() { None } else { Some(word) }
    }
}
