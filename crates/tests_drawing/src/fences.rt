// Items at known places about a square fence, and in which modes it takes them.

use dgn_drawing::Mode;
use dgn_drawing::types::{Item, ItemBody};
use dgn_fence::types::Fence;
use dgn_fence::*;
use elem_head::types::Symb;
use patch_bytes::ByteList;
use plane_geom::{PointList, Pt};
use range_code::Box3;
use sample_elements::LINE;
use std::alloc::{AllocError, Global};

const SQUARE: [Pt; 4] = [
    Pt { x: 0, y: 0 },
    Pt { x: 100, y: 0 },
    Pt { x: 100, y: 100 },
    Pt { x: 0, y: 100 },
];

// A range far off, which is no range of a path's points.
const ELSEWHERE: Box3 = Box3 {
    lo: [900, 900, 0],
    hi: [901, 901, 0],
};

// An element of that type with that range.
fn item(kind: u8, range: Box3, body: ItemBody) -> Item {
    Item {
        number: 1,
        depth: 0,
        kind,
        level: 1,
        symb: Symb {
            color: 0,
            weight: 0,
            style: 0,
        },
        axes: 3,
        range,
        body,
    }
}

// A path of that type through these points.
fn path(alloc: Global, kind: u8, points: &[[i32; 3]]) -> Result<Item, AllocError> {
    let mut list = PointList::new(alloc);
    for point in points {
        list.push(*point)?;
    }
    Ok(item(kind, ELSEWHERE, ItemBody::Path(list)))
}

// A text with its origin at 50,50 and that range, from the low corner to the high one.
fn text(alloc: Global, low: i32, high: i32) -> Item {
    let range = Box3 {
        lo: [low, low, 0],
        hi: [high, high, 0],
    };
    let body = ItemBody::Text {
        origin: [50, 50, 0],
        chars: ByteList::new(alloc),
    };
    item(17, range, body)
}

// In which modes a fence takes something: by Inside, by Overlap and by Void.
type Modes = (bool, bool, bool);

// In which modes the square takes these items.
fn modes(alloc: Global, items: &[Item]) -> Option<Modes> {
    match fence(alloc, &SQUARE) {
        Ok(f) => Some((
            f.takes(Mode::Inside, items),
            f.takes(Mode::Overlap, items),
            f.takes(Mode::Void, items),
        )),
        Err(_) => None,
    }
}

const INSIDE: Modes = (true, true, false);

const ACROSS: Modes = (false, true, false);

const OUTSIDE: Modes = (false, false, true);

const NO_PART: Modes = (false, false, false);

// Paths by their types and points, and in which modes the square takes them.
const PATHS: [(&str, u8, &[[i32; 3]], Modes); 11] = [
    ("up to an edge", 3, &[[50, 50, 0], [100, 50, 0]], ACROSS),
    ("along an edge", 3, &[[10, 0, 0], [20, 0, 0]], ACROSS),
    ("inside", 3, &[[10, 10, 0], [20, 20, 0]], INSIDE),
    ("outside", 3, &[[200, 200, 0], [300, 300, 0]], OUTSIDE),
    (
        "across without an end inside",
        3,
        &[[-5, 50, 0], [105, 60, 7]],
        ACROSS,
    ),
    ("beside a corner", 3, &[[-10, 5, 0], [5, -10, 0]], OUTSIDE),
    (
        "an open bow",
        4,
        &[[-10, -10, 0], [-10, 110, 0], [50, 150, 0]],
        OUTSIDE,
    ),
    (
        "the shape of it",
        6,
        &[[-10, -10, 0], [-10, 110, 0], [50, 150, 0]],
        ACROSS,
    ),
    ("a point inside", 4, &[[50, 50, -9]], INSIDE),
    ("a point on an edge", 4, &[[100, 50, 0]], ACROSS),
    ("a path without points", 4, &[], NO_PART),
];

// In which modes the square takes a path.
fn modes_of_path(alloc: Global, kind: u8, points: &[[i32; 3]]) -> Option<Modes> {
    match path(alloc, kind, points) {
        Ok(item) => modes(alloc, &[item]),
        Err(_) => None,
    }
}

#[test]
fn paths_about_a_square(rt: HostRuntime) {
    for (name, kind, points, wanted) in &PATHS {
        assert!(rt;
            modes_of_path(rt.alloc(), *kind, points) == Some(*wanted),
            "{name}"
        );
    }
}

// A header, where there is one, and a text for each pair of corners.
fn texts(alloc: Global, head: bool, corners: &[(i32, i32)]) -> Result<Vec<Item>, AllocError> {
    let mut items = Vec::new(alloc);
    if head {
        items.push(item(5, ELSEWHERE, ItemBody::Group))?;
    }
    for (low, high) in corners {
        items.push(text(alloc, *low, *high))?;
    }
    Ok(items)
}

// In which modes the square takes these texts below a header, if there is one.
fn modes_of_texts(alloc: Global, head: bool, corners: &[(i32, i32)]) -> Option<Modes> {
    match texts(alloc, head, corners) {
        Ok(items) => modes(alloc, &items),
        Err(_) => None,
    }
}

// Whether there is a header, the corners of texts, and in which modes the square takes all of it: by the ranges, wherever the
// origins lie.
const TEXTS: [(bool, &[(i32, i32)], Modes); 7] = [
    (false, &[(10, 20)], INSIDE),
    (false, &[(90, 110)], ACROSS),
    (false, &[(110, 120)], OUTSIDE),
    (false, &[], NO_PART),
    (true, &[], NO_PART),
    (true, &[(10, 20)], INSIDE),
    (false, &[(10, 20), (110, 120)], ACROSS),
];

#[test]
fn texts_heads_and_groups(rt: HostRuntime) {
    for (head, corners, wanted) in &TEXTS {
        assert!(rt; modes_of_texts(rt.alloc(), *head, corners) == Some(*wanted));
    }
}

// The corners of a square from one point of the diagonal to another.
fn square(low: i32, high: i32) -> [Pt; 4] {
    [
        Pt { x: low, y: low },
        Pt { x: high, y: low },
        Pt { x: high, y: high },
        Pt { x: low, y: high },
    ]
}

// Whether a fence takes the line.
fn takes_line(alloc: Global, f: &Fence, mode: Mode) -> Option<bool> {
    f.takes_element(alloc, mode, 2, &LINE).ok()
}

// In which modes the fence with these corners takes the line.
fn modes_of_line(alloc: Global, corners: [Pt; 4]) -> Option<Modes> {
    let f = fence(alloc, &corners).ok()?;
    match (
        takes_line(alloc, &f, Mode::Inside),
        takes_line(alloc, &f, Mode::Overlap),
        takes_line(alloc, &f, Mode::Void),
    ) {
        (Some(inside), Some(overlap), Some(void)) => Some((inside, overlap, void)),
        _ => None,
    }
}

// In which modes a square takes the line, where both ways round it takes it in the same.
fn modes_of_line_by(alloc: Global, low: i32, high: i32) -> Option<Modes> {
    let [a, b, c, d] = square(low, high);
    let there = modes_of_line(alloc, [a, b, c, d]);
    let back = modes_of_line(alloc, [a, d, c, b]);
    if there == back { there } else { None }
}

// Squares, and in which modes they take the line.
const SQUARES: [(i32, i32, Modes); 7] = [
    (-10, 200, INSIDE),
    (-1, 101, INSIDE),
    (0, 100, ACROSS),
    (-10, 100, ACROSS),
    (0, 200, ACROSS),
    (40, 60, OUTSIDE),
    (300, 400, OUTSIDE),
];

#[test]
fn one_line_by_its_bytes(rt: HostRuntime) {
    for (low, high, wanted) in &SQUARES {
        assert!(rt;
            modes_of_line_by(rt.alloc(), *low, *high) == Some(*wanted),
            "{low}"
        );
    }
    let [a, b, c, d] = square(-10, 200);
    assert!(rt;
        modes_of_line(rt.alloc(), [a, c, b, d]) == Some(ACROSS),
        "a bow"
    );
}
