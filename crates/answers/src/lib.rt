//! What calls answer: the refusals of all layers in one enum, so that a refusal passes up as it is; the hit; and the
//! questions that are put to glyph lists, runs and places.
#![tactic(auto)]

pub mod hit;
pub mod questions;
pub mod refusal;

pub use hit::Hit;
pub use questions::{ask_list, ask_place, ask_run};
pub use refusal::Refusal;
