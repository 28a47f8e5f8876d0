//! A lookup: an ordered list of opened subtables, which is a bank.
//!
//! The list has at most 32 subtables by its type's invariant.
#![tactic(auto)]

pub mod list;
pub mod matching;
