//! Sets of glyphs and of values by masks of 64 bits, and the allowance that is drawn on while they are made.
#![tactic(auto)]

pub mod budget;
mod masks;
pub mod rule_set_digest;
pub mod set_digest;
