//! The script language: turns the lines of a text into commands, with the bytes and glyphs that they stand on.
#![tactic(auto)]

mod appended;
pub mod command;
pub mod reader;
