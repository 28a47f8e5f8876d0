//! Rule sets and rules of context subtables, read in place, and matching their values to glyphs.
#![tactic(auto)]

pub mod apply;
pub mod iter;
pub mod matching;
pub mod parsed;
pub mod rule_sets;
mod sequence;
pub mod sets;
pub mod walk;
pub mod widths;
