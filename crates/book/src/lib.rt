//! A book: a bank, and the filters of its subtables that are held.
#![tactic(auto)]

pub mod book;
pub mod slots;
pub mod theorems;

pub use book::{Book, Counts};
pub use slots::SlotState;
