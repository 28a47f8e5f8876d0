//! Lists of calls on a book: what each draws, answers and leaves, the tally that is kept of them, and the promise that
//! holds of every list.
#![tactic(auto)]

pub mod sheet;
pub mod theorems;

pub use sheet::{Answer, Call, Granted, Left, Line};
