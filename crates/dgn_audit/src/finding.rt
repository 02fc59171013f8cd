use range_code::Box3;

/// An element whose stored range isn't the hull of its tree. In 2D the z numbers of both boxes are 0.
#[derive(Clone, Copy, Debug, PartialEq, Eq)]
pub struct Finding {
    /// The element's number in the file, from 0.
    pub number: u32,
    /// The file's dimension, 2 or 3.
    pub axes: u8,
    /// The stored range.
    pub stored: Box3,
    /// The hull.
    pub hull: Box3,
}
