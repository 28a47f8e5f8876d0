//! A whole script: its lines as commands, over one buffer of bytes and one of glyphs.
ghost use Rattle.std.specs.Prelude.{◌≡◌, ◌++◌, IfOk, OnOk, ◌==◌, slice_index};
ghost use Rattle.script.specs.Lines.{line_said, said_by, said_on_book, script_in};
ghost use Rattle.script.specs.Meant.{CommandRead, LineOf, Sound, said_of};
ghost use Rattle.script.specs.Verbs.{verb_in};
ghost use Rattle.words.specs.Words.{words_in};

use crate::appended::{all_glyphs, table};
use crate::command::{BookCommand, BookVerb, Command, Verb};
use arguments::{
    next_two_values, next_value, no_words, one_value, table_and_chained, table_and_glyph,
    table_and_parts, two_values,
};
use std::alloc::{AllocError, Global};
use words::fault::{Fault, Unread};
use words::line::Words;

/// What ends a line.
const LINE_END: u8 = b'\n';

/// What a line begins with that is passed over.
const COMMENT: u8 = b'#';

/// A script that was read: what every line says, in order, and the bytes and glyphs that its commands stand on. These
/// are shared buffers and no lists of each command's own: so commands are copied, and a short line costs no allocation.
#[derive(Drop)]
pub struct Script {
    pub bytes: Vec<u8>,
    pub glyphs: Vec<u32>,
    pub lines: Vec<Result<Command, Fault>>,
}

impl Script {
    /// Reads a whole script. Blank lines and comments are passed over.
    pub fn read(heap: Global, text: &[u8]) -> Result<Script, AllocError>
        ensures sound { IfOk result Sound }
        ensures value { IfOk result (λ s. said_of s ≡ script_in text.now) }
    {
        let mut script = Script {
            bytes: Vec::new(heap),
            glyphs: Vec::new(heap),
            lines: Vec::new(heap),
        };
        for line in text.split(|b| *b == LINE_END) {
            script.add(line)?;
        }
        Ok(script)
    }

    /// Adds what a line says, unless the line is passed over.
    fn add(&mut self, line: &[u8]) -> Result<(), AllocError>
        ensures { OnOk result (Sound self.old → Sound self.new × (said_of self.new ≡ said_of self.old ++ line_said line.now)) }
    {
        if is_comment(line) {
            return Ok(());
        }
        let mut words = Words::new(line);
        let Some(word) = words.next() else {
            return Ok(());
        };
        let said = in_memory(self.command(word, words))?;
        self.lines.push(said)?;
        Ok(())
    }

    /// The command of a first word and the words after it; its bytes and glyphs are appended.
    fn command(&mut self, word: &[u8], mut words: Words<'_>) -> Result<Command, Unread>
        ensures { CommandRead (said_by (verb_in word.now) (words_in words.entry.rest.now)) self.old self.new result }
    {
        match Verb::named(word).ok_or(Fault::UnknownCommand)? {
            Verb::Coverage => {
                let (word, glyph) = table_and_glyph(words)?;
                let table = table(word, &mut self.bytes)?;
                Ok(Command::Coverage { table, glyph })
            }
            Verb::Class => {
                let (word, glyph) = table_and_glyph(words)?;
                let table = table(word, &mut self.bytes)?;
                Ok(Command::Class { table, glyph })
            }
            Verb::DigestOf => {
                let glyphs = all_glyphs(words, &mut self.glyphs)?;
                Ok(Command::DigestOf { glyphs })
            }
            Verb::DigestSpan => {
                let (first, last) = two_values(words)?;
                Ok(Command::DigestSpan { first, last })
            }
            Verb::Allowance => {
                let (work, bytes) = two_values(words)?;
                Ok(Command::Allowance { work, bytes })
            }
            Verb::Left => {
                no_words(words)?;
                Ok(Command::Left)
            }
            Verb::Open => {
                let (word, chained) = table_and_chained(words)?;
                let table = table(word, &mut self.bytes)?;
                Ok(Command::Open { table, chained })
            }
            Verb::OpenWide => {
                let (word, parts) = table_and_parts(words)?;
                let table = table(word, &mut self.bytes)?;
                Ok(Command::OpenWide { table, parts })
            }
            Verb::Hit => {
                let (subtable, place) = next_two_values(&mut words)?;
                let glyphs = all_glyphs(words, &mut self.glyphs)?;
                Ok(Command::Hit {
                    subtable,
                    place,
                    glyphs,
                })
            }
            Verb::Applies => {
                let (subtable, zero_context) = next_two_values(&mut words)?;
                let glyphs = all_glyphs(words, &mut self.glyphs)?;
                Ok(Command::Applies {
                    subtable,
                    zero_context,
                    glyphs,
                })
            }
            Verb::Aside => {
                no_words(words)?;
                Ok(Command::Aside)
            }
            Verb::Masks => {
                let subtable = one_value(words)?;
                Ok(Command::Masks { subtable })
            }
            Verb::Words => {
                let (subtable, count) = two_values(words)?;
                Ok(Command::Words { subtable, count })
            }
            Verb::Book => {
                no_words(words)?;
                Ok(Command::Book)
            }
            Verb::OnBook(verb) => self.on_book(verb, words),
        }
    }

    /// The command on a book of a verb and the words after it; its glyphs are appended.
    fn on_book(&mut self, verb: BookVerb, mut words: Words<'_>) -> Result<Command, Unread>
        ensures { CommandRead (said_on_book verb (words_in words.entry.rest.now)) self.old self.new result }
    {
        match verb {
            BookVerb::Filter => {
                let subtable = one_value(words)?;
                Ok(Command::OnBook(BookCommand::Filter { subtable }))
            }
            BookVerb::Forget => {
                let subtable = one_value(words)?;
                Ok(Command::OnBook(BookCommand::Forget { subtable }))
            }
            BookVerb::State => {
                let subtable = one_value(words)?;
                Ok(Command::OnBook(BookCommand::State { subtable }))
            }
            BookVerb::WouldApply => {
                let zero_context = next_value(&mut words)?;
                let glyphs = all_glyphs(words, &mut self.glyphs)?;
                Ok(Command::OnBook(BookCommand::WouldApply {
                    zero_context,
                    glyphs,
                }))
            }
            BookVerb::Scan => {
                let count = next_value(&mut words)?;
                let glyphs = all_glyphs(words, &mut self.glyphs)?;
                Ok(Command::OnBook(BookCommand::Scan { count, glyphs }))
            }
            BookVerb::MasksBeside => {
                let subtable = one_value(words)?;
                Ok(Command::OnBook(BookCommand::MasksBeside { subtable }))
            }
            BookVerb::WordsBeside => {
                let (subtable, count) = two_values(words)?;
                Ok(Command::OnBook(BookCommand::WordsBeside { subtable, count }))
            }
            BookVerb::Anew => {
                no_words(words)?;
                Ok(Command::OnBook(BookCommand::Anew))
            }
            BookVerb::End => {
                no_words(words)?;
                Ok(Command::OnBook(BookCommand::End))
            }
        }
    }
}

/// Whether a line begins as a comment does.
fn is_comment(line: &[u8]) -> bool
    ensures { result ≡ (slice_index line.now 0 == 35) }
{
    line.first().is_some_and(|b| *b == COMMENT)
}

/// What a line says, where there was memory to read it.
fn in_memory(read: Result<Command, Unread>) -> Result<Result<Command, Fault>, AllocError>
    ensures { IfOk result (LineOf read) }
{
    // No method turns one result into two by the kind of its error.
    match read {
        Ok(command) => Ok(Ok(command)),
        Err(Unread::Fault(fault)) => Ok(Err(fault)),
        Err(Unread::NoMemory(error)) => Err(error),
    }
}
