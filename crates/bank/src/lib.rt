//! Banks of context subtables: what matching and filtering by a bank mean, a bank of one subtable, two banks joined, and
//! questions to any bank.
#![tactic(auto)]

pub mod join;
pub mod one;
pub mod search;
pub mod subtable;
pub mod traits;

pub use join::{Join, check_join};
pub use one::One;
pub use search::{any_applies, filters_hide_nothing, first_hit};
pub use subtable::{ContextSubtable, hit_of};
pub use traits::{Filtering, Matching};
