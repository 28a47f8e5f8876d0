//! The value that goes along a walk.
use digest::budget::Budget;
use digest::set_digest::SetDigest;

/// What a walk gathers glyphs in: a digest, and the allowance that it draws on.
#[derive(Drop)]
pub struct Gathering<'a> {
    pub digest: SetDigest,
    pub budget: &'a mut Budget,
}
