/// What an element is in its tree.
#[derive(Clone, Copy, Debug, PartialEq, Eq)]
pub enum Knot {
    /// An element that has nothing below it.
    Leaf,
    /// A counted header and the members that its total asks for.
    Group,
    /// A header of a run: a B-spline's or a shared cell definition's, and its parts.
    Run,
    /// A counted header behind which no such members stand.
    Loose,
}
