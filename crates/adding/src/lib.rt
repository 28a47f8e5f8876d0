//! What adding a coverage or a class to a digest draws and sets.
//!
//! Each call is a part of a walk that gathers glyphs. Where it stops the walk, what the digest then holds does not count.
#![tactic(auto)]

pub mod class;
pub mod coverage;
pub mod gathering;
pub mod stop;
