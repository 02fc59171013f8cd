// Worked drawings: the rows of their elements, and the place of each one.

ghost use Rattle.std.specs.Prelude.{◌≡◌, ◌+◌, ◌<◌, ◌≤◌, length};
ghost use Rattle.std.specs.List.{AllByRecursion};
ghost use Rattle.dgn_drawing.specs.Nesting.{BeginsFree, itself};
ghost use Rattle.nest_tree.specs.Shapes.{IsRow};

use dgn_drawing::Row;
use nest_tree::types::Nest;
use nest_tree::*;
use std::alloc::{AllocError, Global};
use std::test::Fail;

// A row by its size, type, bit C and total.
fn row(size: u32, kind: u8, cbit: bool, total: u16) -> Row
    requires large { 4 ≤ size }
    requires typed { kind < 128 }
    ensures row { IsRow result }
    ensures bit { result.cbit ≡ cbit }
{
    Row {
        size,
        kind,
        cbit,
        total,
    }
}

// What is said of one element: what it is, its depth, its parent, its end and the first broken number
// of its span.
type Place = (Knot, u32, Option<u32>, u32, Option<u32>);

// Whether an element has this place.
fn has_place(nested: &Nest, n: u32, place: &Place) -> bool {
    let (knot, depth, parent, end, broken) = place;
    nested.knot(n) == Some(*knot)
        && nested.depth(n) == Some(*depth)
        && nested.parent(n) == Some(*parent)
        && nested.span(n) == Some((n, *end))
        && nested.first_broken(n) == Some(*broken)
}

// Whether each element has its place, and behind the last one there is none.
fn are_places(nested: &Nest, places: &[Place]) -> bool {
    let mut n = 0u32;
    for place in places {
        if !has_place(nested, n, place) {
            return false;
        }
        n = n.saturating_add(1);
    }
    nested.span(n) == None && nested.first_broken(n) == None
}

// Whether the elements of the rows have these places.
fn has_places(alloc: Global, rows: &[Row], places: &[Place]) -> bool
    requires nonempty { 0 < length rows.now }
    requires bounded { length rows.now < 4294967295 }
    requires each { AllByRecursion IsRow rows.now }
{
    match nest(alloc, rows) {
        Ok(nested) => are_places(&nested, places),
        Err(_) => false,
    }
}

// The first element.
fn tcb() -> Row
    ensures { IsRow result }
{
    row(1536, 9, false, 0)
}

const A_CELL_AND_ITS_MEMBER: [Place; 3] = [
    (Knot::Leaf, 0, None, 1, None),
    (Knot::Group, 0, None, 3, None),
    (Knot::Leaf, 1, Some(1), 3, None),
];

// A cell holds its member.
#[test]
fn a_cell_and_its_member(rt: HostRuntime) {
    let rows = [tcb(), row(92, 2, false, 53), row(52, 3, true, 0)];
    assert!(rt; has_places(rt.alloc(), &rows, &A_CELL_AND_ITS_MEMBER));
}

const BROKEN_NESTING: [Place; 3] = [
    (Knot::Leaf, 0, None, 1, None),
    (Knot::Loose, 0, None, 2, Some(1)),
    (Knot::Leaf, 0, None, 3, Some(2)),
];

// Where a total is too small, the header is loose and its member an orphan.
#[test]
fn broken_nesting(rt: HostRuntime) {
    let rows = [tcb(), row(92, 2, false, 52), row(52, 3, true, 0)];
    assert!(rt; has_places(rt.alloc(), &rows, &BROKEN_NESTING));
}

const NESTED_GROUPS: [Place; 4] = [
    (Knot::Leaf, 0, None, 1, None),
    (Knot::Group, 0, None, 4, None),
    (Knot::Group, 1, Some(1), 4, None),
    (Knot::Leaf, 2, Some(2), 4, None),
];

// A group in a group.
#[test]
fn nested_groups(rt: HostRuntime) {
    let rows = [
        tcb(),
        row(92, 2, false, 112),
        row(92, 2, true, 66),
        row(78, 6, true, 0),
    ];
    assert!(rt; has_places(rt.alloc(), &rows, &NESTED_GROUPS));
}

const RUNS: [Place; 5] = [
    (Knot::Leaf, 0, None, 1, None),
    (Knot::Run, 0, None, 3, None),
    (Knot::Leaf, 1, Some(1), 3, None),
    (Knot::Run, 0, None, 5, None),
    (Knot::Leaf, 1, Some(3), 5, None),
];

// A run holds those behind it with bit C.
#[test]
fn runs(rt: HostRuntime) {
    let rows = [
        tcb(),
        row(36, 27, false, 0),
        row(36, 26, true, 0),
        row(36, 34, false, 0),
        row(52, 3, true, 0),
    ];
    assert!(rt; has_places(rt.alloc(), &rows, &RUNS));
}

// The ends after room is made for more elements, and after the elements of the second rows are put into it.
fn ends_of_both(
    alloc: Global,
    rows: &[Row],
    more: &[Row],
) -> Result<(Vec<u32>, Vec<u32>), AllocError>
    requires nonempty { 0 < length rows.now }
    requires bounded { length rows.now + length more.now < 4294967295 }
    requires each { AllByRecursion IsRow rows.now }
    requires each_more { AllByRecursion IsRow more.now }
    requires free { BeginsFree itself more.now }
{
    let mut nested = nest(alloc, rows)?;
    nested.reserve(more.len() as u32)?;
    let before = Vec::from_slice(alloc, nested.ends())?;
    nested.grow(more);
    Ok((before, Vec::from_slice(alloc, nested.ends())?))
}

// Room changes no place, and is enough for a cell and its member.
#[test]
fn room_for_elements(rt: HostRuntime) -> Result<(), Fail> {
    let rows = [tcb(), row(52, 3, false, 0)];
    let more = [row(92, 2, false, 53), row(52, 3, true, 0)];
    let (before, after) = ends_of_both(rt.alloc(), &rows, &more)?;
    assert!(rt; before.as_slice() == [1, 2].as_slice());
    assert!(rt; after.as_slice() == [1, 2, 4, 4].as_slice());
    Ok(())
}
