// Plans of edits on worked drawings.

ghost use Rattle.std.specs.Prelude.{◌≡◌, ◌≤◌, [], ◌∷◌, length, IfOk, IfSome};
ghost use Rattle.elem_index.specs.Design.{IsWhole};

use crate::joined::are_joined;
use crate::shifts::along;
use dgn_drawing::{Edit, MOST_DESIGN, New, NewShape, Shift, SymbChange};
use edit_ops::types::Plan;
use edit_ops::*;
use elem_head::types::Symb;
use elem_index::{Design, read_design};
use level_view::{Drawing, nest_design};
use patch_bytes::{ByteList, Patch};
use plane_geom::PointList;
use sample_elements::{
    CELL, CELL_OF_52, FREED_COPY, LINE, LOCKED_MEMBER, MEMBER, NEW_CHAIN, NEW_LINE, SHARED_CELL,
    TEXT, drawing,
};
use std::alloc::{AllocError, Global};
use std::test::Fail;

// A drawing of few bytes: a TCB of two or three axes, these elements, and no tail.
fn opened(alloc: Global, axes: u8, elements: &[&[u8]]) -> Option<Design>
    ensures whole { IfSome result IsWhole }
    ensures bounded { IfSome result (λ d. length d.body.items ≤ 1700) }
    ensures alone { IfSome result (λ d. length d.tail.items ≡ 0) }
{
    let mark = if axes == 3 { 0x40 } else { 0 };
    let bytes = drawing(alloc, 0x08, mark, elements).ok()?;
    if bytes.len() > MOST_DESIGN {
        return None;
    }
    match read_design(alloc, bytes) {
        Ok(design) if design.body.len() <= 1700 && design.tail.is_empty() => Some(design),
        _ => None,
    }
}

// What an edit of a drawing of these elements comes to, where at most 67107164 bytes are pending.
fn planned(
    alloc: Global,
    axes: u8,
    elements: &[&[u8]],
    edit: &Edit,
    pending: usize,
) -> Result<Plan, EditFault>
    requires { pending ≤ 67107164 }
{
    let Some(design) = opened(alloc, axes, elements) else {
        return Err(EditFault::Memory);
    };
    let nesting = nest_design(alloc, &design)?;
    plan(alloc, &Drawing::new(&design, &nesting), edit, pending)
}

// Whether patches put so many bytes at each of these places.
fn are_patches(patches: &[Patch], len: u8, wanted: &[(u32, [u8; 4])]) -> bool {
    for (patch, (at, bytes)) in patches.iter().zip(wanted) {
        if patch.at != *at || patch.len != len || patch.bytes != *bytes {
            return false;
        }
    }
    patches.len() == wanted.len()
}

// Whether an edit of the cell and its member is planned as these patches, with nothing to append.
fn is_planned(alloc: Global, edit: Edit, len: u8, wanted: &[(u32, [u8; 4])]) -> bool {
    match planned(alloc, 2, &[&CELL, &MEMBER], &edit, 0) {
        Ok(plan) => plan.append.is_empty() && are_patches(plan.patches.as_slice(), len, wanted),
        Err(_) => false,
    }
}

// The fourteen fields of the cell and its member, moved by 5,7.
const MOVED_CELL: [(u32, [u8; 4]); 14] = [
    (1540, [0x00, 0x80, 0x05, 0x00]),
    (1544, [0x00, 0x80, 0x07, 0x00]),
    (1552, [0x00, 0x80, 0x69, 0x00]),
    (1556, [0x00, 0x80, 0x39, 0x00]),
    (1620, [0x00, 0x00, 0x05, 0x00]),
    (1624, [0x00, 0x00, 0x07, 0x00]),
    (1632, [0x00, 0x80, 0x05, 0x00]),
    (1636, [0x00, 0x80, 0x07, 0x00]),
    (1644, [0x00, 0x80, 0x69, 0x00]),
    (1648, [0x00, 0x80, 0x39, 0x00]),
    (1664, [0x00, 0x00, 0x05, 0x00]),
    (1668, [0x00, 0x00, 0x07, 0x00]),
    (1672, [0x00, 0x00, 0x69, 0x00]),
    (1676, [0x00, 0x00, 0x39, 0x00]),
];

// The range of the cell that holds its member moved by 1,1, and the fields of the member.
const MOVED_MEMBER: [(u32, [u8; 4]); 12] = [
    (1540, [0x00, 0x80, 0x00, 0x00]),
    (1544, [0x00, 0x80, 0x00, 0x00]),
    (1552, [0x00, 0x80, 0x65, 0x00]),
    (1556, [0x00, 0x80, 0x33, 0x00]),
    (1632, [0x00, 0x80, 0x01, 0x00]),
    (1636, [0x00, 0x80, 0x01, 0x00]),
    (1644, [0x00, 0x80, 0x65, 0x00]),
    (1648, [0x00, 0x80, 0x33, 0x00]),
    (1664, [0x00, 0x00, 0x01, 0x00]),
    (1668, [0x00, 0x00, 0x01, 0x00]),
    (1672, [0x00, 0x00, 0x65, 0x00]),
    (1676, [0x00, 0x00, 0x33, 0x00]),
];

// Colour 9, weight 3 and style 4.
const LOOKS: [(u32, [u8; 4]); 2] = [(1570, [0x1C, 0x09, 0, 0]), (1662, [0x1C, 0x09, 0, 0])];

// The deleted bit of both.
const MARKS: [(u32, [u8; 4]); 2] = [(1537, [0x82, 0, 0, 0]), (1629, [0x83, 0, 0, 0])];

// A cell with its member is moved, or its member alone; it is given a look, and it is marked deleted.
#[test]
fn plans_of_a_cell(rt: HostRuntime) {
    let alloc = rt.alloc();
    let by = along(5, 7);
    assert!(rt; is_planned(alloc, Edit::Move { n: 1, by }, 4, &MOVED_CELL));
    let by = along(1, 1);
    assert!(rt; is_planned(alloc, Edit::Move { n: 2, by }, 4, &MOVED_MEMBER));
    let change = SymbChange {
        color: Some(9),
        weight: Some(3),
        style: Some(4),
    };
    assert!(rt; is_planned(alloc, Edit::Sym { n: 1, change }, 2, &LOOKS));
    assert!(rt; is_planned(alloc, Edit::Delete { n: 1 }, 1, &MARKS));
}

// Why an edit of two elements is refused, if it is, where at most 67107164 bytes are pending.
fn refusal(
    alloc: Global,
    top: &[u8],
    member: &[u8],
    edit: Edit,
    pending: usize,
) -> Option<EditFault>
    requires { pending ≤ 67107164 }
{
    planned(alloc, 2, &[top, member], &edit, pending).err()
}

// Whether an edit of two elements is refused with this cause.
fn is_refused(alloc: Global, top: &[u8], member: &[u8], edit: Edit, cause: Cause) -> bool {
    refusal(alloc, top, member, edit, 0) == Some(EditFault::Refused(cause))
}

// Deletions that are refused: the top, the member, the element, and the cause.
const REFUSED: [(&[u8], &[u8], u32, Cause); 5] = [
    (&CELL, &MEMBER, 9, Cause::Unknown(9)),
    (&CELL, &MEMBER, 0, Cause::Opaque(0)),
    (&CELL_OF_52, &MEMBER, 1, Cause::Broken(1)),
    (&CELL_OF_52, &MEMBER, 2, Cause::Broken(2)),
    (&CELL, &LOCKED_MEMBER, 1, Cause::Locked(2)),
];

// No such element, the TCB, a header whose total no members have, and a locked member; a copy by three axes of a drawing
// of two; and a member of a shared cell definition that is moved.
#[test]
fn refused_edits(rt: HostRuntime) {
    let alloc = rt.alloc();
    for (top, member, n, cause) in &REFUSED {
        assert!(rt; is_refused(alloc, top, member, Edit::Delete { n: *n }, *cause));
    }
    let by = Shift {
        axes: 3,
        by: [1, 1, 1],
    };
    let copy = Edit::Copy { n: 1, by };
    assert!(rt; is_refused(alloc, &CELL, &MEMBER, copy, Cause::Dimension));
    let by = along(1, 1);
    let shared = Edit::Move { n: 2, by };
    assert!(rt; is_refused(alloc, &SHARED_CELL, &MEMBER, shared, Cause::Opaque(1)));
}

// Whether an edit of a drawing of these elements appends these parts, and writes nothing into it.
fn appends(alloc: Global, axes: u8, elements: &[&[u8]], edit: Edit, parts: &[&[u8]]) -> bool {
    match planned(alloc, axes, elements, &edit, 0) {
        Ok(plan) => plan.patches.is_empty() && are_joined(plan.append.as_slice(), parts),
        Err(_) => false,
    }
}

// A copied member has no bit C, and stands where it was moved to; a copied cell is locked where it was.
#[test]
fn copies(rt: HostRuntime) {
    let by = along(10, 10);
    let member = Edit::Copy { n: 2, by };
    assert!(rt; appends(rt.alloc(), 2, &[&CELL, &MEMBER], member, &[&FREED_COPY]));
    let by = along(0, 0);
    let cell = Edit::Copy { n: 1, by };
    let pieces: [&[u8]; 2] = [&CELL, &LOCKED_MEMBER];
    assert!(rt; appends(rt.alloc(), 2, &pieces, cell, &pieces));
}

// Copies the line of a drawing, displaced, behind what is there.
fn copies_line(alloc: Global, by: &Shift, copy: &mut ByteList) -> Result<(), EditFault> {
    let Some(design) = opened(alloc, 2, &[&LINE]) else {
        return Err(EditFault::Memory);
    };
    let nesting = nest_design(alloc, &design)?;
    if design.count() <= 1 {
        return Err(EditFault::Memory);
    }
    copy_tree(alloc, &Drawing::new(&design, &nesting), 1, by, copy)
}

// A tree is copied behind what is there, and one that would leave the plane isn't.
#[test]
fn copied_trees(rt: HostRuntime) -> Result<(), Fail> {
    let alloc = rt.alloc();
    let mut copy = ByteList::new(alloc);
    copy.push(9)?;
    let off = Err(EditFault::Refused(Cause::OffPlane(1)));
    assert!(rt; copies_line(alloc, &along(i32::MAX, 0), &mut copy) == off);
    assert!(rt; copy.len() == 1);
    assert!(rt; copies_line(alloc, &along(0, 0), &mut copy) == Ok(()));
    assert!(rt; copy.as_slice().get(1..) == Some(LINE.as_slice()));
    Ok(())
}

// Why a copy of 52 bytes is refused, if it is, where at most 67107164 bytes are pending.
fn refusal_of_copy(alloc: Global, pending: usize) -> Option<EditFault>
    requires { pending ≤ 67107164 }
{
    let by = along(0, 0);
    refusal(alloc, &CELL, &MEMBER, Edit::Copy { n: 2, by }, pending)
}

// A copy of 52 bytes just fits behind so many pending ones, and not behind one more.
#[test]
fn length_limits(rt: HostRuntime) {
    let free = 67108864 - 1680;
    assert!(rt; refusal_of_copy(rt.alloc(), free - 52) == None);
    let long = EditFault::Refused(Cause::TooLong);
    assert!(rt; refusal_of_copy(rt.alloc(), free - 51) == Some(long));
}

// A list of two points.
fn points(alloc: Global, first: [i32; 3], last: [i32; 3]) -> Result<PointList, AllocError>
    ensures { IfOk result (λ list. list ≡ first ∷ last ∷ []) }
{
    let mut list = PointList::new(alloc);
    list.push(first)?;
    list.push(last)?;
    Ok(list)
}

// The line of level 2, colour 3 and weight 1 from 0,0 to 10,10.
fn new_line(alloc: Global) -> Result<New, AllocError> {
    let shape = NewShape::Line(points(alloc, [0, 0, 0], [10, 10, 0])?);
    let symb = Symb {
        color: 3,
        weight: 1,
        style: 0,
    };
    Ok(New {
        level: 2,
        symb,
        axes: 2,
        shape,
    })
}

// The line string of level 1, colour 2, weight 3 and style 4 from 0,0,0 to 5,5,5.
fn new_chain(alloc: Global) -> Result<New, AllocError> {
    let shape = NewShape::Chain(points(alloc, [0, 0, 0], [5, 5, 5])?);
    let symb = Symb {
        color: 2,
        weight: 3,
        style: 4,
    };
    Ok(New {
        level: 1,
        symb,
        axes: 3,
        shape,
    })
}

// The text `Hi there` of level 1 and font 3 at 5,6.
fn new_text(alloc: Global) -> Result<New, AllocError> {
    let chars = ByteList::from_vec(Vec::from_slice(alloc, b"Hi there")?);
    let shape = NewShape::Text {
        font: 3,
        just: 0,
        length: 1000,
        height: 1000,
        origin: [5, 6, 0],
        chars,
    };
    let symb = Symb {
        color: 0,
        weight: 0,
        style: 0,
    };
    Ok(New {
        level: 1,
        symb,
        axes: 2,
        shape,
    })
}

// Whether this element, appended to a drawing without others, has these bytes.
fn is_appended(alloc: Global, axes: u8, new: Result<New, AllocError>, wanted: &[u8]) -> bool {
    match new {
        Ok(new) => appends(alloc, axes, &[], Edit::Append(new), &[wanted]),
        Err(_) => false,
    }
}

// Why this element isn't appended to a drawing of three axes.
fn refusal_of_new(alloc: Global, new: Result<New, AllocError>) -> Option<EditFault> {
    match new {
        Ok(new) => planned(alloc, 3, &[], &Edit::Append(new), 0).err(),
        Err(_) => None,
    }
}

// A line, a text and a line string in space are appended; a line of two axes isn't appended in space.
#[test]
fn appended_elements(rt: HostRuntime) {
    let alloc = rt.alloc();
    assert!(rt; is_appended(alloc, 2, new_line(alloc), &NEW_LINE));
    assert!(rt; is_appended(alloc, 2, new_text(alloc), &TEXT));
    assert!(rt; is_appended(alloc, 3, new_chain(alloc), &NEW_CHAIN));
    let dimension = EditFault::Refused(Cause::Dimension);
    assert!(rt; refusal_of_new(alloc, new_line(alloc)) == Some(dimension));
}
