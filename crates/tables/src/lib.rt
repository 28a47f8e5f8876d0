//! Coverage and class tables, read in place from a font's bytes, and the search in them.
//!
//! Reading is total: a table that is null, past the end or unreadable is missing.
#![tactic(auto)]

pub mod class;
pub mod coverage;
pub mod ranges;
pub mod search;
