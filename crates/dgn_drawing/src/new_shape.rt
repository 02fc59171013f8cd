use patch_bytes::ByteList;
use plane_geom::PointList;

/// What an element that is to be appended is. Coordinates are in units of resolution.
#[derive(Debug, PartialEq, Eq, Drop)]
pub enum NewShape {
    /// A line between two points, type 3.
    Line(PointList),
    /// A line string of 2 to 101 points, type 4.
    Chain(PointList),
    /// A shape of 3 to 101 points, type 6. It is closed by a last point like the first, or not at all.
    Shape(PointList),
    /// A text, type 17.
    Text {
        /// The font.
        font: u8,
        /// The justification.
        just: u8,
        /// The length multiplier, at least 0.
        length: i32,
        /// The height multiplier, at least 0.
        height: i32,
        /// The origin.
        origin: [i32; 3],
        /// The characters, 1 to 255 bytes.
        chars: ByteList,
    },
}
