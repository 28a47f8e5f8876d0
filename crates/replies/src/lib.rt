//! The answers that the program prints.
#![tactic(auto)]

pub mod reply;
