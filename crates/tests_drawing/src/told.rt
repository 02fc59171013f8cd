// What is told of the items that a display shows.

use dgn_drawing::types::{Item, ItemBody};

// What is told of the body of an item.
#[derive(Clone, Copy)]
pub(crate) enum Body {
    // A path through these points.
    Path(&'static [[i32; 3]]),
    // A text with this origin and these characters.
    Text([i32; 3], &'static [u8]),
    // A cell of this name with its origin at 0.
    Cell([u16; 2]),
    // A text node at 0.
    Node,
    // The header of a group.
    Group,
    // What is shown by its range.
    Boxed,
}

// Whether a body is what is told of it.
pub(crate) fn is_body(body: &ItemBody, told: &Body) -> bool {
    match (body, told) {
        (ItemBody::Path(points), Body::Path(wanted)) => points.as_slice() == *wanted,
        (ItemBody::Text { origin, chars }, Body::Text(at, wanted)) => {
            origin == at && chars.as_slice() == *wanted
        }
        (ItemBody::Cell { name, origin }, Body::Cell(wanted)) => {
            name == wanted && *origin == [0, 0, 0]
        }
        (ItemBody::Node(origin), Body::Node) => *origin == [0, 0, 0],
        (ItemBody::Group, Body::Group) => true,
        (ItemBody::Boxed, Body::Boxed) => true,
        _ => false,
    }
}

// What is told of an item: its number, its depth, its type, its level, its number of axes, its range and its body. It has no
// colour, weight and style.
#[derive(Clone, Copy)]
pub(crate) struct Told {
    pub(crate) place: (u32, u32),
    pub(crate) kind: u8,
    pub(crate) level: u8,
    pub(crate) axes: u8,
    pub(crate) range: [[i32; 3]; 2],
    pub(crate) body: Body,
}

// Whether an item has no colour, weight and style.
fn is_plain(item: &Item) -> bool {
    let symb = item.symb;
    [symb.color, symb.weight, symb.style] == [0, 0, 0]
}

// Whether an item is what is told of it.
pub(crate) fn is_told(item: &Item, told: &Told) -> bool {
    (item.number, item.depth) == told.place
        && [item.kind, item.level, item.axes] == [told.kind, told.level, told.axes]
        && [item.range.lo, item.range.hi] == told.range
        && is_plain(item)
        && is_body(&item.body, &told.body)
}
