use dgn_drawing::Shift;

/// What is asked of elements before an edit is made.
#[derive(Drop)]
pub enum Test {
    /// Whether it isn't marked deleted.
    NotDeleted,
    /// Whether it isn't locked.
    Unlocked,
    /// Whether its range, that of a header, can be made wider.
    Widens,
    /// Whether all its coordinates are read.
    Moves,
    /// Whether it has a look that can be changed.
    Looks,
    /// Whether it can be marked deleted.
    Marks,
    /// Whether it stays on the design plane.
    StaysOnPlane(Shift),
}
