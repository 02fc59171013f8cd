//! What is said of an element type, and the iterator over the coordinate fields of an element.

mod points;
mod spots;

pub(crate) use points::Points;
pub use spots::Spots;

/// What the body of an element holds, by its type.
#[derive(Clone, Copy, Debug, PartialEq, Eq)]
pub enum Class {
    /// Points: a line, a line string, a shape or a curve.
    Vertices,
    /// An origin and characters: a text.
    Words,
    /// The number of words behind it up to the end of its last member: a cell header, a text node, a
    /// complex chain or shape, a surface or solid header.
    Counted,
    /// No number of members; those of a B-spline or of a shared cell definition stand behind it.
    Run,
    /// Floating numbers, which aren't read: an ellipse, an arc or a cone.
    Floating,
    /// Nothing that is read; only its display header is.
    Boxed,
    /// Nothing that is read, and no display header that is.
    Silent,
}
