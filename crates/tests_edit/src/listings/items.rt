// What is said of the items of worked drawings, in the plane and in space, and of characters round the
// ends of those that stand for themselves.

use dgn_drawing::types::{Item, ItemBody};
use dgn_listing::write_items;
use elem_head::types::Symb;
use patch_bytes::ByteList;
use plane_geom::PointList;
use range_code::Box3;
use std::alloc::{AllocError, Global};
use std::test::Fail;

// The body of an item.
#[derive(Clone, Copy)]
enum Body {
    // A path through these points.
    Path(&'static [[i32; 3]]),
    // A text with this origin and these characters.
    Text([i32; 3], &'static [u8]),
    // The cell ABC at 0.
    Cell,
    // A text node at 0.
    Node,
    // The header of a group.
    Group,
    // What is shown by its range, from 5,5 to 9,9.
    Boxed,
}

// An item: its number, its depth, its type, its level, its look, its number of axes and its body.
#[derive(Clone, Copy)]
struct Made {
    number: u32,
    depth: u32,
    kind: u8,
    level: u8,
    look: [u8; 3],
    axes: u8,
    body: Body,
}

// An item with a plain look in a file of two dimensions.
const FLAT: Made = Made {
    number: 1,
    depth: 0,
    kind: 3,
    level: 1,
    look: [0, 0, 0],
    axes: 2,
    body: Body::Group,
};

fn path(alloc: Global, points: &[[i32; 3]]) -> Result<ItemBody, AllocError> {
    let mut list = PointList::new(alloc);
    for point in points {
        list.push(*point)?;
    }
    Ok(ItemBody::Path(list))
}

fn text(alloc: Global, origin: [i32; 3], bytes: &[u8]) -> Result<ItemBody, AllocError> {
    let mut chars = ByteList::new(alloc);
    for byte in bytes {
        chars.push(*byte)?;
    }
    Ok(ItemBody::Text { origin, chars })
}

fn body_of(alloc: Global, body: &Body) -> Result<ItemBody, AllocError> {
    match body {
        Body::Path(points) => path(alloc, points),
        Body::Text(origin, bytes) => text(alloc, *origin, bytes),
        Body::Cell => Ok(ItemBody::Cell {
            name: [1683, 0],
            origin: [0, 0, 0],
        }),
        Body::Node => Ok(ItemBody::Node([0, 0, 0])),
        Body::Group => Ok(ItemBody::Group),
        Body::Boxed => Ok(ItemBody::Boxed),
    }
}

fn item_of(alloc: Global, made: &Made) -> Result<Item, AllocError> {
    let [color, weight, style] = made.look;
    let body = body_of(alloc, &made.body)?;
    Ok(Item {
        number: made.number,
        depth: made.depth,
        kind: made.kind,
        level: made.level,
        symb: Symb {
            color,
            weight,
            style,
        },
        axes: made.axes,
        range: Box3 {
            lo: [5, 5, 0],
            hi: [9, 9, 0],
        },
        body,
    })
}

fn items_of(alloc: Global, all: &[Made]) -> Result<Vec<Item>, AllocError> {
    let mut items = Vec::new(alloc);
    for made in all {
        items.push(item_of(alloc, made)?)?;
    }
    Ok(items)
}

// What is said of items behind what stood before.
fn said(alloc: Global, before: &[u8], all: &[Made]) -> Result<Vec<u8>, AllocError> {
    let items = items_of(alloc, all)?;
    let mut out = Vec::from_slice(alloc, before)?;
    match write_items(alloc, &mut out, &items) {
        Ok(()) => Ok(out),
        Err(error) => Err(error),
    }
}

const PLANE: [Made; 8] = [
    Made {
        body: Body::Path(&[[0, 0, 0], [100, 50, 0]]),
        ..FLAT
    },
    Made {
        body: Body::Path(&[[10, -5, 0], [110, 45, 0]]),
        ..FLAT
    },
    Made {
        body: Body::Path(&[[2147483647, 0, 0], [-2147483648, 10, 0]]),
        ..FLAT
    },
    Made {
        kind: 2,
        body: Body::Cell,
        ..FLAT
    },
    Made {
        number: 3,
        depth: 1,
        kind: 16,
        body: Body::Boxed,
        ..FLAT
    },
    Made {
        number: 4,
        kind: 7,
        level: 3,
        body: Body::Node,
        ..FLAT
    },
    Made {
        number: 6,
        depth: 1,
        kind: 17,
        level: 3,
        body: Body::Text([0, -10, 0], b"DEFG"),
        ..FLAT
    },
    Made {
        number: 7,
        kind: 14,
        level: 4,
        body: Body::Group,
        ..FLAT
    },
];

const PLANE_SAID: &[u8] = b"ok\n\
    1 0 3 1 0 0 0 path 0,0 100,50\n\
    1 0 3 1 0 0 0 path 10,-5 110,45\n\
    1 0 3 1 0 0 0 path 2147483647,0 -2147483648,10\n\
    1 0 2 1 0 0 0 cell [ABC       ] 0,0\n\
    3 1 16 1 0 0 0 box 5,5 9,9\n\
    4 0 7 3 0 0 0 node 0,0\n\
    6 1 17 3 0 0 0 text 0,-10 DEFG\n\
    7 0 14 4 0 0 0 group\n\
    shown 8\n";

// Items of each body in the plane.
#[test]
fn shows_items_of_the_plane(rt: HostRuntime) -> Result<(), Fail> {
    assert!(rt; said(rt.alloc(), b"ok\n", &PLANE)?.as_slice() == PLANE_SAID);
    Ok(())
}

const SPACE: [Made; 2] = [
    Made {
        axes: 3,
        body: Body::Path(&[[1, 2, 3], [11, 12, 13]]),
        ..FLAT
    },
    Made {
        number: 5,
        depth: 2,
        kind: 16,
        level: 63,
        look: [255, 31, 7],
        axes: 3,
        body: Body::Boxed,
    },
];

const SPACE_SAID: &[u8] = b"1 0 3 1 0 0 0 path 1,2,3 11,12,13\n\
    5 2 16 63 255 31 7 box 5,5,0 9,9,0\n\
    shown 2\n";

// Items in space.
#[test]
fn shows_items_of_space(rt: HostRuntime) -> Result<(), Fail> {
    assert!(rt; said(rt.alloc(), b"", &SPACE)?.as_slice() == SPACE_SAID);
    Ok(())
}

// Characters of a text, and what is said of it.
const TEXTS: [(&[u8], &[u8]); 4] = [
    (
        &[0x48, 0x69, 0x20],
        b"1 0 17 1 0 0 0 text 5,6 Hi \nshown 1\n",
    ),
    (
        &[0x1F, 0x20, 0x7E],
        b"1 0 17 1 0 0 0 text 5,6 \\1f ~\nshown 1\n",
    ),
    (
        &[0x7F, 0x5C, 0x5D],
        b"1 0 17 1 0 0 0 text 5,6 \\7f\\5c]\nshown 1\n",
    ),
    (
        &[0x00, 0xAB, 0xFF],
        b"1 0 17 1 0 0 0 text 5,6 \\00\\ab\\ff\nshown 1\n",
    ),
];

// Characters that don't stand for themselves are written by their numbers.
#[test]
fn escapes_characters(rt: HostRuntime) -> Result<(), Fail> {
    for (chars, wanted) in &TEXTS {
        let one = Made {
            kind: 17,
            body: Body::Text([5, 6, 0], chars),
            ..FLAT
        };
        assert!(rt; said(rt.alloc(), b"", &[one])?.as_slice() == *wanted);
    }
    Ok(())
}

// Where there is no item, the end of the listing is said alone.
#[test]
fn shows_nothing(rt: HostRuntime) -> Result<(), Fail> {
    assert!(rt; said(rt.alloc(), b"", &[])?.as_slice() == b"shown 0\n".as_slice());
    Ok(())
}
