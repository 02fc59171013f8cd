// Points of an element, side by side.

ghost use Rattle.std.specs.Prelude.{◌≡◌, ◌+◌, ◌*◌, ◌≤◌, ◌<◌, ◌^◌, ◌⊎◌};

// Points that stand side by side.
#[derive(Debug, Drop)]
pub struct Points {
    // How many they are.
    pub count: u32,
    // Where the first one stands.
    pub start: u32,
    // How many bytes the next one is further on.
    pub stride: u32,
    // How many fields each has.
    pub axes: u8,
    ghost some: { 0 < axes },
    ghost few: { axes ≤ 3 },
    ghost side_by_side: { stride ≡ 4 * axes },
    ghost end: { start + 12 * count ≤ 2 ^ 20 },
}

impl Points {
    // No point.
    pub(crate) fn none() -> Self
        ensures { result.count ≡ 0 }
    {
        Points {
            count: 0,
            start: 0,
            stride: 8,
            axes: 2,
        }
    }

    // As many as the count says, from a place on, with a stride.
    pub(crate) fn new(count: u16, start: u32, stride: u32) -> Self
        requires start { start ≤ 38 }
        requires stride { (stride ≡ 8) ⊎ (stride ≡ 12) }
        ensures count { result.count ≡ count }
        ensures start { result.start ≡ start }
        ensures axes { 4 * result.axes ≡ stride }
    {
        Points {
            count: u32::from(count),
            start,
            stride,
            axes: (stride / 4) as u8,
        }
    }
}
