//! The fields that a cell header has.

/// What is read of a cell header: the two radix-50 words of its name, its origin in units of
/// resolution, and its total, the number of words behind the total itself up to the end of the last
/// member.
#[derive(Clone, Copy, PartialEq, Eq, Debug)]
pub struct Cell<const DIM: usize> {
    pub name: [u16; 2],
    pub origin: [i32; DIM],
    pub total: u16,
}
