// A point of the plane.

/// A point of the design plane, in units of resolution.
#[derive(Clone, Copy, PartialEq, Eq, Debug)]
pub struct Pt {
    pub x: i32,
    pub y: i32,
}
