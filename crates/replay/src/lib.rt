//! Any sheet of calls on a new book, and the promise that it keeps.
#![tactic(auto)]

pub mod auditing;
pub mod turns;
pub mod working;

pub use auditing::{Audited, audit};
pub use turns::{Turns, in_turn};
pub use working::replay;
