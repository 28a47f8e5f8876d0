//! Places in a script's buffers.

/// The elements of a buffer from `start` up to `end`, `end` not included.
#[derive(Clone, Copy)]
pub struct Span {
    pub start: usize,
    pub end: usize,
}
