//! The filters of context subtables: which glyphs may follow the first one in a match, and which classes may follow it in
//! the rules of each set.
#![tactic(auto)]

pub mod walk;
