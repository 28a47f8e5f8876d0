//! Numbers and child tables, read in place from a font's bytes.
//!
//! Reading is total: a byte past the end is 0, a table past the end is none. Numbers in a font are `u32` and places are
//! `usize`; there is no `From` between them, so places are made by `as`.
#![tactic(auto)]

pub mod bytes;
pub mod each;
pub mod uints;
pub mod width;
