use crate::spot::Spot;

/// Coordinate fields that stand at the same places in each element of a type, in a file of so many axes.
#[derive(Clone, Copy, Drop)]
pub struct Table<const N: usize> {
    /// The fields, in the order of their places.
    pub rows: &'static [Spot; N],
}
