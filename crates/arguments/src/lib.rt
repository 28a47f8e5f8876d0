//! The arguments of a script's commands: what the words after a command's first say.
#![tactic(auto)]

mod counts;
mod kinds;
mod parts;
mod simple;

pub use counts::no_words;
pub use parts::table_and_parts;
pub use simple::{
    next_two_values, next_value, one_value, table_and_chained, table_and_glyph, two_values,
};
