//! Opening context subtables from their bytes, by their headers or by byte ranges, within an allowance.
#![tactic(auto)]

mod draws;
mod headers;
pub mod open;
pub mod wide;
