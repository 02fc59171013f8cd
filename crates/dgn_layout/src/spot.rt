/// A coordinate field of an element: four bytes.
#[derive(Clone, Copy, Debug, PartialEq, Eq)]
pub struct Spot {
    /// The byte of the element at which it begins.
    pub at: u32,
    /// The axis: 0 is x, 1 is y, 2 is z.
    pub axis: u8,
    /// Whether it holds a range number; else it holds a long.
    pub offset: bool,
}
