//! The commands of a script.
ghost use Rattle.std.specs.Prelude.{◌≡◌};
ghost use Rattle.script.specs.Verbs.{book_name_of, name_of, verb_in};

use opening::wide::WideParts;
use words::span::Span;

/// The first word of a command.
#[derive(Clone, Copy)]
pub enum Verb {
    Coverage,
    Class,
    DigestOf,
    DigestSpan,
    Allowance,
    Left,
    Open,
    OpenWide,
    Hit,
    Applies,
    Aside,
    Masks,
    Words,
    Book,
    OnBook(BookVerb),
}

/// The first word of a command on a book.
#[derive(Clone, Copy)]
pub enum BookVerb {
    Filter,
    Forget,
    State,
    WouldApply,
    Scan,
    MasksBeside,
    WordsBeside,
    Anew,
    End,
}

/// A command with its arguments. Bytes and glyphs stand in the script's buffers: so a command is copied.
#[derive(Clone, Copy)]
pub enum Command {
    /// Asks the coverage table in these bytes for a glyph.
    Coverage {
        table: Span,
        glyph: u32,
    },
    /// Asks the class table in these bytes for a glyph.
    Class {
        table: Span,
        glyph: u32,
    },
    /// Adds these glyphs to an empty digest.
    DigestOf {
        glyphs: Span,
    },
    /// Adds the glyphs from `first` to `last` to an empty digest.
    DigestSpan {
        first: u32,
        last: u32,
    },
    /// Starts over with a new allowance.
    Allowance {
        work: u64,
        bytes: u64,
    },
    /// Reads the allowance.
    Left,
    /// Opens the subtable in these bytes.
    Open {
        table: Span,
        chained: bool,
    },
    /// Opens the subtable of a wide kind in these bytes.
    OpenWide {
        table: Span,
        parts: WideParts,
    },
    /// Asks a listed subtable for the hit at a place of a run.
    Hit {
        subtable: u32,
        place: usize,
        glyphs: Span,
    },
    /// Asks a listed subtable whether it would apply to a list of glyphs.
    Applies {
        subtable: u32,
        zero_context: bool,
        glyphs: Span,
    },
    /// Puts the last listed subtable aside.
    Aside,
    /// Puts the filter call to a listed subtable.
    Masks {
        subtable: u32,
    },
    /// Fills the rule-set words of a listed subtable into a buffer of so many words.
    Words {
        subtable: u32,
        count: u32,
    },
    /// Starts a book on the listed subtables.
    Book,
    /// A command on the book.
    OnBook(BookCommand),
}

/// A command on a book. Glyphs stand in the script's buffer.
#[derive(Clone, Copy)]
pub enum BookCommand {
    /// Filters a subtable.
    Filter { subtable: u32 },
    /// Forgets the filter of a subtable.
    Forget { subtable: u32 },
    /// Asks for the state of a slot.
    State { subtable: u32 },
    /// Asks whether some subtable would apply to a list of glyphs.
    WouldApply { zero_context: bool, glyphs: Span },
    /// Lists the hits of a run in a list of so many entries.
    Scan { count: u32, glyphs: Span },
    /// Puts the filter call to the bank beside.
    MasksBeside { subtable: u32 },
    /// Fills the rule-set words of a subtable that was put aside into a buffer of so many words.
    WordsBeside { subtable: u32, count: u32 },
    /// Ends the book and starts another on the same bank.
    Anew,
    /// Ends the book.
    End,
}

impl BookVerb {
    /// The word that names the verb.
    fn name(self) -> &'static str
        ensures { result.now ≡ book_name_of self }
    {
        match self {
            BookVerb::Filter => "filter",
            BookVerb::Forget => "forget",
            BookVerb::State => "state",
            BookVerb::WouldApply => "would-apply",
            BookVerb::Scan => "scan",
            BookVerb::MasksBeside => "masks-beside",
            BookVerb::WordsBeside => "words-beside",
            BookVerb::Anew => "anew",
            BookVerb::End => "end",
        }
    }
}

impl Verb {
    /// Every verb. By hand: no derive lists an enum's variants, nor gives their words.
    const ALL: [Verb; 23] = [
        Verb::Coverage,
        Verb::Class,
        Verb::DigestOf,
        Verb::DigestSpan,
        Verb::Allowance,
        Verb::Left,
        Verb::Open,
        Verb::OpenWide,
        Verb::Hit,
        Verb::Applies,
        Verb::Aside,
        Verb::Masks,
        Verb::Words,
        Verb::Book,
        Verb::OnBook(BookVerb::Filter),
        Verb::OnBook(BookVerb::Forget),
        Verb::OnBook(BookVerb::State),
        Verb::OnBook(BookVerb::WouldApply),
        Verb::OnBook(BookVerb::Scan),
        Verb::OnBook(BookVerb::MasksBeside),
        Verb::OnBook(BookVerb::WordsBeside),
        Verb::OnBook(BookVerb::Anew),
        Verb::OnBook(BookVerb::End),
    ];

    /// The word that names the verb.
    fn name(self) -> &'static str
        ensures { result.now ≡ name_of self }
    {
        match self {
            Verb::Coverage => "coverage",
            Verb::Class => "class",
            Verb::DigestOf => "digest-of",
            Verb::DigestSpan => "digest-span",
            Verb::Allowance => "allowance",
            Verb::Left => "left",
            Verb::Open => "open",
            Verb::OpenWide => "open-wide",
            Verb::Hit => "hit",
            Verb::Applies => "applies",
            Verb::Aside => "aside",
            Verb::Masks => "masks",
            Verb::Words => "words",
            Verb::Book => "book",
            Verb::OnBook(verb) => verb.name(),
        }
    }

    /// The verb that a word names, if there is one.
    pub fn named(word: &[u8]) -> Option<Verb>
        ensures { result ≡ verb_in word.now }
    {
        Self::ALL
            .iter()
            .copied()
            .find(|verb| word == verb.name().as_bytes())
    }
}
