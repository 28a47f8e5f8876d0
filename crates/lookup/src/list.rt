//! The list of a lookup's subtables.
ghost use Rattle.std.specs.Prelude.{◌≤◌, vec_len};

use context::subtable::Subtable;

/// The subtables of a lookup, in order: at most 32.
#[derive(Drop)]
pub struct Lookup<'a> {
    pub(crate) subtables: Vec<Subtable<'a>>,
    ghost few: { vec_len subtables ≤ 32 },
}
