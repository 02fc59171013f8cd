// Elements of worked drawings, whole, cut, and with their attribute data in and out of place, their rows
// and what is shown of them.

ghost use Rattle.std.specs.Prelude.{◌≡◌, ◌+◌, ◌≤◌, ◌↔◌, IsTrue, length};
ghost use Rattle.elem_head.specs.Head.{size_of};

use crate::told::{Body, Told, is_body, is_told};
use dgn_drawing::types::Item;
use dgn_drawing::*;
use elem_head::head;
use sample_elements::{
    CELL, CHAIN, DRAWN_ARC, LINE, NODE, REFERENCE, SHAPE_HEADER, SPACE_CHAIN, TEXT, with_word,
};
use std::alloc::{AllocError, Global};

// Whether the bytes are as many as their size word says.
fn is_whole(b: &[u8]) -> bool
    ensures { IsTrue result ↔ ((4 ≤ length b.now) × (length b.now ≡ size_of b.now)) }
{
    b.len() >= 4 && b.len() == 4 + 2 * usize::from(head(b).words)
}

// The fault of the element `b` in the plane, or in space. None where it isn't whole.
fn fault(space: bool, b: &[u8]) -> Option<Result<(), BodyFault>> {
    if !is_whole(b) {
        return None;
    }
    if space {
        Some(check_elem(3, b))
    } else {
        Some(check_elem(2, b))
    }
}

const SHORT: Result<(), BodyFault> = Err(BodyFault::Short);

const ATTR: Result<(), BodyFault> = Err(BodyFault::Attr);

#[test]
fn faults_of_one_element(rt: HostRuntime) {
    let line = with_word(LINE, 32, 0x0800);
    for (b, space, want) in [
        (SPACE_CHAIN.as_slice(), true, Ok(())),
        (REFERENCE.as_slice(), false, Ok(())),
        (TEXT.as_slice(), true, SHORT),
        (with_word(CHAIN, 36, 3).as_slice(), false, SHORT),
        (with_word(line, 30, 9).as_slice(), false, ATTR),
        (with_word(line, 30, 10).as_slice(), false, Ok(())),
        (with_word(line, 30, 11).as_slice(), false, ATTR),
        (line.as_slice(), true, SHORT),
    ] {
        assert!(rt; fault(space, b) == Some(want));
    }
}

// The row of the element `b`, where it is whole and sound in the plane.
fn row(b: &[u8]) -> Option<Row> {
    if !is_whole(b) {
        return None;
    }
    match check_elem(2, b) {
        Ok(()) => Some(row_of(b)),
        Err(_) => None,
    }
}

// The item of the element `b`, where it is whole and sound in the plane, or in space.
fn shown(alloc: Global, space: bool, b: &[u8]) -> Result<Option<Item>, AllocError> {
    if !is_whole(b) {
        return Ok(None);
    }
    if space {
        match check_elem(3, b) {
            Ok(()) => item(alloc, 3, 7, 1, b),
            Err(_) => Ok(None),
        }
    } else {
        match check_elem(2, b) {
            Ok(()) => item(alloc, 2, 7, 1, b),
            Err(_) => Ok(None),
        }
    }
}

// Whether an element is shown in the plane with this body.
fn is_shown(alloc: Global, b: &[u8], body: &Body) -> bool {
    match shown(alloc, false, b) {
        Ok(Some(item)) => is_body(&item.body, body),
        _ => false,
    }
}

// Whether an element is shown in space so.
fn is_shown_in_space(alloc: Global, b: &[u8], told: &Told) -> bool {
    match shown(alloc, true, b) {
        Ok(Some(item)) => is_told(&item, told),
        _ => false,
    }
}

// Whether an element isn't shown in the plane.
fn is_hidden(alloc: Global, b: &[u8]) -> bool {
    matches!(shown(alloc, false, b), Ok(None))
}

// Elements, and the bodies that are shown of them.
const BODIES: [(&[u8], Body); 5] = [
    (&TEXT, Body::Text([5, 6, 0], b"Hi there")),
    (&CELL, Body::Cell([1683, 0])),
    (&NODE, Body::Node),
    (&SHAPE_HEADER, Body::Group),
    (&DRAWN_ARC, Body::Boxed),
];

// The line string in space, as element 7 at depth 1.
const CHAIN_ITEM: Told = Told {
    place: (7, 1),
    kind: 4,
    level: 1,
    axes: 3,
    range: [[1, 2, 3], [4, 5, 6]],
    body: Body::Path(&[[1, 2, 3], [4, 5, 6]]),
};

// The row of a cell, and what is shown of elements by their bytes alone.
#[test]
fn rows_and_items(rt: HostRuntime) {
    let want = Row {
        size: 92,
        kind: 2,
        cbit: false,
        total: 53,
    };
    assert!(rt; row(&CELL) == Some(want));
    for (b, body) in &BODIES {
        assert!(rt; is_shown(rt.alloc(), b, body));
    }
    assert!(rt; is_hidden(rt.alloc(), &REFERENCE));
    assert!(rt; is_shown_in_space(rt.alloc(), &SPACE_CHAIN, &CHAIN_ITEM));
}
