/// Why a fit is refused: the first of its causes that stands, in this order. Elements are numbered in file order, from 0.
#[derive(Clone, Copy, Debug, PartialEq, Eq)]
pub enum FitCause {
    /// There is no element of this number.
    Unknown(u32),
    /// This is the least broken number of the tree that holds the element: a header without the members that
    /// its total asks for, or a root other than element 0 with bit C.
    Broken(u32),
    /// This is the root of that tree, and it is marked deleted.
    Deleted(u32),
    /// This fitted element of that tree, the least such, is locked.
    Locked(u32),
}
