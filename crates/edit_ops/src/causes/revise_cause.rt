use crate::causes::cause::Cause;

/// Why a revision is refused: the first of its causes that stands, in the order that `plan_revision` says. Elements are
/// numbered in file order, from 0.
#[derive(Clone, Copy, Debug, PartialEq, Eq)]
pub enum ReviseCause {
    /// A cause that edits have too: Unknown, Broken, Deleted, Locked, Floating, Opaque, Dimension or TooLong.
    Given(Cause),
    /// Nothing is marked deleted: neither this element, nor a header above it, nor an element below it.
    Live(u32),
    /// This element has no point of the number that is given.
    NoVertex(u32),
    /// This text, which belongs to a header or would be too large for an element, has no room for the characters.
    NoRoom(u32),
}
