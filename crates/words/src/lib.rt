//! The words of a line of text, and what they write: numbers, ranges and bytes.
#![tactic(auto)]

pub mod fault;
pub mod hex;
pub mod line;
pub mod numbers;
pub mod span;
