/// Why an edit is refused: the first of its causes that stands, in the order that `plan` says. Elements are
/// numbered in file order, from 0. The part of an element is the element and all below it.
#[derive(Clone, Copy, Debug, PartialEq, Eq)]
pub enum Cause {
    /// There is no element of this number.
    Unknown(u32),
    /// This is the least broken number of the tree that holds the element: a header without the members that
    /// its total asks for, or a root other than element 0 with bit C.
    Broken(u32),
    /// This one, the least such, of the element and the headers above it is marked deleted.
    Deleted(u32),
    /// This one, the least such, of the headers above the element and the live elements of its part is locked.
    Locked(u32),
    /// The edit is given for another number of axes than the file has.
    Dimension,
    /// This live element of the part, the least such, has coordinates in floating numbers, which aren't read.
    Floating(u32),
    /// Of this element, the least such, what the edit would change isn't read.
    Opaque(u32),
    /// A coordinate of this live element of the part, the least such, would leave the design plane.
    OffPlane(u32),
    /// The file would be longer than a design file may be.
    TooLong,
}
