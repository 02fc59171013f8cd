ghost use Rattle.std.specs.Prelude.{◌^◌, ◌<◌};

/// Where a tree of a generated drawing stands: behind how many elements, and at which point of the plane.
#[derive(Clone, Copy)]
pub struct Place {
    /// How many elements stand before it, without the TCB.
    pub before: u32,
    /// Its x.
    pub x: u32,
    /// Its y.
    pub y: u32,
    ghost x_in_reach: { x < 2 ^ 20 },
    ghost y_in_reach: { y < 2 ^ 20 },
}
