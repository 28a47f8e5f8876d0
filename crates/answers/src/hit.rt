//! A hit.

/// Where a subtable matches, and what is to be done there.
#[derive(Clone, Copy, PartialEq, Eq, Debug)]
pub struct Hit {
    /// The place in the run.
    pub place: usize,
    /// The number of the subtable in its bank.
    pub subtable: u32,
    /// How many glyphs the input has, with the first.
    pub length: usize,
    /// The byte place of the records in the subtable.
    pub records: usize,
    /// How many records there are.
    pub record_count: u32,
}
