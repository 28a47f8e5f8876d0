//! Context subtables of the three kinds, as views over a subtable's bytes: would they apply, and where do they match?
#![tactic(auto)]

pub mod classes;
pub mod coverages;
pub mod glyphs;
pub mod subtable;
