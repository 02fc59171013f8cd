use patch_bytes::ByteList;
use plane_geom::PointList;

/// What a display shows of an element, by its type. In 2D the third number of a point is 0.
#[derive(Debug, PartialEq, Eq, Drop)]
pub enum ItemBody {
    /// The points of a line, a line string, a shape or a curve.
    Path(PointList),
    /// The origin and the characters of a text.
    Text { origin: [i32; 3], chars: ByteList },
    /// An element of which only the range is shown.
    Boxed,
    /// The name's two words and the origin of a cell.
    Cell { name: [u16; 2], origin: [i32; 3] },
    /// The origin of a text node.
    Node([i32; 3]),
    /// The header of another group.
    Group,
}
