// Worked drawings, and what the display shows of them.

ghost use Rattle.std.specs.Prelude.{IfOk};
ghost use Rattle.elem_index.specs.Design.{IsWhole};

use crate::told::{Body, Told, is_told};
use dgn_drawing::types::Item;
use dgn_drawing::{MOST_DESIGN, Mask};
use elem_index::{Design, OpenFault, read_design};
use level_view::*;
use sample_elements::{CELL, CELL_OF_52, MEMBER, MEMBER_ON_2, SPLINE, drawing};
use std::alloc::Global;
use std::process::Abort;

// A part of a B-spline, whose range is that of its header.
const PART: [u8; 36] = [
    0x81, 0x1A, 0x10, 0x00, 0x00, 0x80, 0x00, 0x00, 0x00, 0x80, 0x00, 0x00, 0x00, 0x80, 0x00, 0x00,
    0x00, 0x80, 0x09, 0x00, 0x00, 0x80, 0x09, 0x00, 0x00, 0x80, 0x00, 0x00, 0x00, 0x00, 0x02, 0x00,
    0x00, 0x00, 0x00, 0x00,
];

// The header of a shared cell definition with the same range.
const SHARED: [u8; 36] = [
    0x01, 0x22, 0x10, 0x00, 0x00, 0x80, 0x00, 0x00, 0x00, 0x80, 0x00, 0x00, 0x00, 0x80, 0x00, 0x00,
    0x00, 0x80, 0x09, 0x00, 0x00, 0x80, 0x09, 0x00, 0x00, 0x80, 0x00, 0x00, 0x00, 0x00, 0x02, 0x00,
    0x00, 0x00, 0x00, 0x00,
];

// The design of the pieces behind a TCB.
fn design(alloc: Global, pieces: &[&[u8]]) -> Result<Design, OpenFault>
    ensures { IfOk result IsWhole }
{
    match drawing(alloc, 0x08, 0, pieces) {
        Ok(bytes) if bytes.len() <= MOST_DESIGN => read_design(alloc, bytes),
        _ => Err(OpenFault::Memory),
    }
}

// Whether items are what is told of them, and no others.
fn are_told(items: &[Item], told: &[Told]) -> bool {
    for (item, one) in items.iter().zip(told) {
        if !is_told(item, one) {
            return false;
        }
    }
    items.len() == told.len()
}

// Whether so much is shown of all.
fn shows_all(alloc: Global, d: &Design, mask: u64, told: &[Told]) -> bool
    requires { IsWhole d.now }
{
    let Ok(t) = nest_design(alloc, d) else {
        return false;
    };
    match show(alloc, &Drawing::new(d, &t), Mask(mask)) {
        Ok(items) => are_told(&items, told),
        Err(_) => false,
    }
}

// Whether so many items are counted of all.
fn counts(alloc: Global, d: &Design, mask: u64, count: usize) -> bool
    requires { IsWhole d.now }
{
    let Ok(t) = nest_design(alloc, d) else {
        return false;
    };
    count_shown(alloc, &Drawing::new(d, &t), Mask(mask)) == Ok(count)
}

// Whether so much is shown of the tree of a root.
fn shows_tree(alloc: Global, d: &Design, n: u32, mask: u64, told: &[Told]) -> bool
    requires { IsWhole d.now }
{
    let Ok(t) = nest_design(alloc, d) else {
        return false;
    };
    let drawing = Drawing::new(d, &t);
    if drawing.parent(n) != Some(None) {
        return false;
    }
    match tree_items(alloc, &drawing, n, Mask(mask)) {
        Ok(items) => are_told(&items, told),
        Err(_) => false,
    }
}

// Which tree is looked at: all, or that of a root.
#[derive(Clone, Copy)]
enum Asked {
    Show,
    Tree(u32),
}

// What stands behind a TCB, what is looked at, the levels that are shown, and the items.
type Row = (&'static [&'static [u8]], Asked, u64, &'static [Told]);

// Whether so much is shown.
fn is_shown(alloc: Global, row: &Row) -> bool {
    let (pieces, asked, mask, told) = row;
    let Ok(d) = design(alloc, pieces) else {
        return false;
    };
    match asked {
        Asked::Show => { shows_all(alloc, &d, *mask, told) && counts(alloc, &d, *mask, told.len()) }
        Asked::Tree(n) => shows_tree(alloc, &d, *n, *mask, told),
    }
}

// Each row's items are shown.
fn all_shown<R: Abort + Alloc<A = Global>>(rt: &R, rows: &[Row]) {
    for row in rows {
        assert!(rt; is_shown(rt.alloc(), row));
    }
}

const ALL: u64 = u64::MAX;

// Levels 3 to 5 and 63.
const REST: u64 = 0x8000_0000_0000_0038;

// The range of the cell and its member.
const RANGE: [[i32; 3]; 2] = [[0, 0, 0], [100, 50, 0]];

// The line from 0,0 to 100,50.
const LINE: Body = Body::Path(&[[0, 0, 0], [100, 50, 0]]);

// The cell ABC with its member, which is on level 2.
const BOTH: [Told; 2] = [
    Told {
        place: (1, 0),
        kind: 2,
        level: 1,
        axes: 2,
        range: RANGE,
        body: Body::Cell([1683, 0]),
    },
    Told {
        place: (2, 1),
        kind: 3,
        level: 2,
        axes: 2,
        range: RANGE,
        body: LINE,
    },
];

// A cell is shown by the level of its member.
#[test]
fn a_cell_by_the_level_of_its_member(rt: HostRuntime) {
    const ROWS: [Row; 4] = [
        (&[&CELL, &MEMBER_ON_2], Asked::Show, 1 << 2, &BOTH),
        (&[&CELL, &MEMBER_ON_2], Asked::Tree(1), 1 << 2, &BOTH),
        (&[&CELL, &MEMBER_ON_2], Asked::Show, REST, &[]),
        (&[&CELL, &MEMBER_ON_2], Asked::Tree(1), REST, &[]),
    ];
    all_shown(&rt, &ROWS);
}

// The member of a cell whose total no members have.
const ORPHAN: [Told; 1] = [Told {
    place: (2, 0),
    kind: 3,
    level: 1,
    axes: 2,
    range: RANGE,
    body: LINE,
}];

// Nothing is shown of a cell without members, and its orphan by itself.
#[test]
fn a_loose_cell_and_an_orphan(rt: HostRuntime) {
    const ROWS: [Row; 3] = [
        (&[&CELL_OF_52, &MEMBER], Asked::Show, ALL, &ORPHAN),
        (&[&CELL_OF_52, &MEMBER], Asked::Tree(1), ALL, &[]),
        (&[&CELL_OF_52, &MEMBER], Asked::Tree(2), ALL, &ORPHAN),
    ];
    all_shown(&rt, &ROWS);
}

// The header of a B-spline.
const HEADER: [Told; 1] = [Told {
    place: (1, 0),
    kind: 27,
    level: 1,
    axes: 2,
    range: [[0, 0, 0], [9, 9, 0]],
    body: Body::Boxed,
}];

// A B-spline is shown by its header, and a shared cell definition isn't shown.
#[test]
fn runs(rt: HostRuntime) {
    const ROWS: [Row; 3] = [
        (
            &[&SPLINE, &PART, &SHARED, &MEMBER],
            Asked::Show,
            ALL,
            &HEADER,
        ),
        (
            &[&SPLINE, &PART, &SHARED, &MEMBER],
            Asked::Tree(1),
            ALL,
            &HEADER,
        ),
        (
            &[&SPLINE, &PART, &SHARED, &MEMBER],
            Asked::Tree(3),
            ALL,
            &[],
        ),
    ];
    all_shown(&rt, &ROWS);
}
