// A session on a cell and its member: edits, their entries, and their undoing.

ghost use Rattle.std.specs.Prelude.{IfSome};
ghost use Rattle.elem_index.specs.Design.{IsWhole};

use crate::shifts::along;
use dgn_drawing::types::Item;
use dgn_drawing::{Edit, MOST_DESIGN, Mask, New, NewShape};
use dgn_import::{gather, read_second};
use dgn_session::*;
use edit_ops::{Cause, EditFault};
use elem_head::types::Symb;
use elem_index::{Design, read_design};
use level_view::nest_design;
use patch_bytes::Patch;
use plane_geom::PointList;
use sample_elements::{CELL, LINE, MEMBER, SPLINE, drawing, with_byte};
use std::alloc::{AllocError, Global};

// A session on a drawing of two axes: a TCB, the cell with this total, its member, and a tail.
fn begun(alloc: Global, total: u8) -> Option<Session> {
    let cell = with_byte(CELL, 36, total);
    match drawing(alloc, 0x08, 0, &[&cell, &MEMBER, &[0xFF, 0xFF, 0x07]]) {
        Ok(bytes) if bytes.len() <= MOST_DESIGN => match read_design(alloc, bytes) {
            Ok(design) => Session::start(alloc, design).ok(),
            Err(_) => None,
        },
        _ => None,
    }
}

// Whether an edit comes to this. No test rests on more of it, as on what an undo gives back.
fn edits(session: &mut Session, edit: Edit, wanted: Result<(), EditFault>) -> bool {
    session.edit(&edit) == wanted
}

// Whether a session takes an edit back, or has none, as it has to.
fn undoes(session: &mut Session, wanted: Result<(), Nothing>) -> bool {
    session.undo() == wanted
}

// A line of level 1 from 0,0 to 1,1.
fn new_line(alloc: Global) -> Result<New, AllocError> {
    let mut points = PointList::new(alloc);
    points.push([0, 0, 0])?;
    points.push([1, 1, 0])?;
    let symb = Symb {
        color: 0,
        weight: 0,
        style: 0,
    };
    Ok(New {
        level: 1,
        symb,
        axes: 2,
        shape: NewShape::Line(points),
    })
}

// Whether that line is appended.
fn appends_line(alloc: Global, session: &mut Session) -> bool {
    match new_line(alloc) {
        Ok(line) => edits(session, Edit::Append(line), Ok(())),
        Err(_) => false,
    }
}

// A drawing of this element.
fn file_of(alloc: Global, element: &[u8]) -> Result<Vec<u8>, AllocError> {
    drawing(alloc, 0x08, 0, &[element])
}

// Whether the trees of a drawing of this element are appended.
fn imports(alloc: Global, session: &mut Session, element: &[u8]) -> bool {
    let Ok(bytes) = file_of(alloc, element) else {
        return false;
    };
    if bytes.len() > MOST_DESIGN {
        return false;
    }
    let Ok(second) = read_second(alloc, bytes) else {
        return false;
    };
    let dim = session.design().dim;
    match gather(alloc, dim, &second, None) {
        Ok(found) => session.append_trees(found.bytes.as_slice()) == Ok(()),
        Err(_) => false,
    }
}

// Whether the elements have so many bytes.
fn has_len(session: &Session, len: usize) -> bool {
    session.body().len() == len
}

// Whether these bytes stand behind the cell and its member.
fn has_behind(session: &Session, bytes: &[u8]) -> bool {
    session.body().get(1680..) == Some(bytes)
}

// Whether the elements are the TCB, the cell and its member, and the tail stands behind them.
fn is_as_begun(alloc: Global, session: &Session) -> bool {
    match drawing(alloc, 0x08, 0, &[&CELL, &MEMBER]) {
        Ok(bytes) => {
            session.body() == bytes.as_slice() && session.tail() == [0xFF, 0xFF, 0x07].as_slice()
        }
        Err(_) => false,
    }
}

// Whether the log has no entry.
fn is_unlogged(session: &Session) -> bool {
    session.log().entries().is_empty()
}

// Whether the log has an entry of a move of the cell and its member, and one of a copy, which puts bytes behind alone.
fn are_logged(session: &Session) -> bool {
    let first = Patch {
        at: 1540,
        len: 4,
        bytes: [0x00, 0x80, 0x00, 0x00],
    };
    match session.log().entries() {
        [moved, copied] => {
            moved.patches.len() == 14
                && moved.patches.get(0) == Some(first)
                && copied.patches.is_empty()
                && moved.len == 1680
                && copied.len == 1680
        }
        _ => false,
    }
}

// Whether the trees of the elements end there.
fn has_ends(session: &Session, ends: &[u32]) -> bool {
    session.nesting().ends() == ends
}

// Whether the elements begin there.
fn has_offsets(session: &Session, offsets: &[u32]) -> bool {
    session.design().offsets() == offsets
}

// The drawing of the same elements and tail, opened anew.
fn opened_anew(alloc: Global, session: &Session) -> Option<Design>
    ensures { IfSome result IsWhole }
{
    let mut bytes = Vec::from_slice(alloc, session.body()).ok()?;
    bytes.extend_from_slice(session.tail()).ok()?;
    if bytes.len() > MOST_DESIGN {
        return None;
    }
    read_design(alloc, bytes).ok()
}

// Whether elements begin, have their types and bits C, and nest as those of the same bytes do, opened anew.
fn is_as_anew(alloc: Global, session: &Session) -> bool {
    let Some(design) = opened_anew(alloc, session) else {
        return false;
    };
    match nest_design(alloc, &design) {
        Ok(nesting) => {
            session.design().offsets() == design.offsets()
                && session.design().kind_bytes() == design.kind_bytes()
                && session.nesting().ends() == nesting.ends()
        }
        Err(_) => false,
    }
}

// How many items there are.
fn count_of(items: Result<Vec<Item>, AllocError>) -> Option<usize> {
    match items {
        Ok(items) => Some(items.len()),
        Err(_) => None,
    }
}

// Whether so many items are counted, and shown.
fn shows(session: &Session, count: usize) -> bool {
    session.count_shown() == Ok(count) && count_of(session.show()) == Some(count)
}

fn set_mask(session: &mut Session, mask: u64) -> bool {
    session.set_mask(Mask(mask));
    true
}

// A step of a session, and what is to come of it.
#[derive(Clone, Copy)]
enum Step {
    // An element is moved so far, or why that is refused.
    Move(u32, i32, i32, Result<(), EditFault>),
    // An element is copied in its place.
    Copy(u32),
    // An element is marked deleted.
    Delete(u32),
    // A line is appended.
    Line,
    // The trees of a drawing of this element are appended.
    Import(&'static [u8]),
    // An edit is taken back, or there is none.
    Undo(Result<(), Nothing>),
    // The levels that are shown are set.
    Levels(u64),
    // The elements have so many bytes.
    Len(usize),
    // These bytes stand behind the cell and its member.
    Behind(&'static [u8]),
    // The elements and the tail are as they were.
    AsBegun,
    // The log has no entry.
    Unlogged,
    // The log has an entry of a move of the cell and its member, and one of a copy.
    Logged,
    // The trees of the elements end there.
    Ends(&'static [u32]),
    // The elements begin there.
    Offsets(&'static [u32]),
    // So many items are shown.
    Shows(usize),
    // Elements begin and nest as those of the same bytes, opened anew.
    AsAnew,
}

// Whether a step that changes the drawing comes to what it has to; `None` where it changes none.
fn changes(alloc: Global, session: &mut Session, step: &Step) -> Option<bool> {
    let still = along(0, 0);
    match step {
        Step::Move(n, x, y, wanted) => {
            let by = along(*x, *y);
            Some(edits(session, Edit::Move { n: *n, by }, *wanted))
        }
        Step::Copy(n) => Some(edits(session, Edit::Copy { n: *n, by: still }, Ok(()))),
        Step::Delete(n) => Some(edits(session, Edit::Delete { n: *n }, Ok(()))),
        Step::Line => Some(appends_line(alloc, session)),
        Step::Import(element) => Some(imports(alloc, session, element)),
        Step::Undo(wanted) => Some(undoes(session, *wanted)),
        Step::Levels(mask) => Some(set_mask(session, *mask)),
        _ => None,
    }
}

// Whether the session is as another step says.
fn is_so(alloc: Global, session: &Session, step: &Step) -> bool {
    match step {
        Step::Len(len) => has_len(session, *len),
        Step::Behind(bytes) => has_behind(session, bytes),
        Step::AsBegun => is_as_begun(alloc, session),
        Step::Unlogged => is_unlogged(session),
        Step::Logged => are_logged(session),
        Step::Ends(ends) => has_ends(session, ends),
        Step::Offsets(offsets) => has_offsets(session, offsets),
        Step::Shows(count) => shows(session, *count),
        Step::AsAnew => is_as_anew(alloc, session),
        _ => false,
    }
}

// How many steps come to what they have to, up to the first that doesn't.
fn steps_done(alloc: Global, session: &mut Session, steps: &[Step]) -> usize {
    let mut done = 0usize;
    for step in steps {
        let comes = match changes(alloc, session, step) {
            Some(comes) => comes,
            None => is_so(alloc, session, step),
        };
        if !comes {
            return done;
        }
        done = done.saturating_add(1);
    }
    done
}

// The same of a session on the cell with this total.
fn done(alloc: Global, total: u8, steps: &[Step]) -> usize {
    match begun(alloc, total) {
        Some(mut session) => steps_done(alloc, &mut session, steps),
        None => 0,
    }
}

// A line is imported, and then no tree; both are undone.
const IMPORTS: [Step; 7] = [
    Step::Import(&LINE),
    Step::Import(&[0xFF, 0xFF]),
    Step::Behind(&LINE),
    Step::Undo(Ok(())),
    Step::Len(1732),
    Step::Undo(Ok(())),
    Step::Len(1680),
];

#[test]
fn imports_are_undone(rt: HostRuntime) {
    assert!(rt; done(rt.alloc(), 53, &IMPORTS) == 7);
}

// `move 1 5 7` and `copy 1 0 0` of the cell, what the log holds, and two undos and one more.
const EDITS: [Step; 8] = [
    Step::Move(1, 5, 7, Ok(())),
    Step::Copy(1),
    Step::Len(1824),
    Step::Logged,
    Step::Undo(Ok(())),
    Step::Undo(Ok(())),
    Step::Undo(Err(Nothing)),
    Step::AsBegun,
];

#[test]
fn a_move_and_a_copy(rt: HostRuntime) {
    assert!(rt; done(rt.alloc(), 53, &EDITS) == 8);
}

// A cell whose total no members have, and a line behind it, which an undo takes away.
const BROKEN: [Step; 7] = [
    Step::Move(2, 1, 1, Err(EditFault::Refused(Cause::Broken(2)))),
    Step::Unlogged,
    Step::Line,
    Step::Ends(&[1, 2, 3, 4]),
    Step::Undo(Ok(())),
    Step::Ends(&[1, 2, 3]),
    Step::Offsets(&[0, 1536, 1628]),
];

#[test]
fn a_broken_nesting(rt: HostRuntime) {
    assert!(rt; done(rt.alloc(), 52, &BROKEN) == 7);
}

// The levels that are shown are set, and an undo leaves them.
const LEVELS: [Step; 7] = [
    Step::Delete(2),
    Step::Shows(0),
    Step::Levels(2),
    Step::Undo(Ok(())),
    Step::Shows(2),
    Step::Levels(1),
    Step::Shows(0),
];

#[test]
fn levels_stay(rt: HostRuntime) {
    assert!(rt; done(rt.alloc(), 53, &LEVELS) == 7);
}

// Edits in place, appended elements and trees, and undos of all of these: what is kept of the elements follows each of
// them. A session that forgets to keep the new ones, or keeps those that an undo took away, differs at the next step.
const FOLLOWED: [Step; 19] = [
    Step::Move(1, 5, 7, Ok(())),
    Step::AsAnew,
    Step::Copy(1),
    Step::AsAnew,
    Step::Delete(1),
    Step::AsAnew,
    Step::Line,
    Step::AsAnew,
    Step::Import(&SPLINE),
    Step::AsAnew,
    Step::Undo(Ok(())),
    Step::AsAnew,
    Step::Undo(Ok(())),
    Step::Undo(Ok(())),
    Step::AsAnew,
    Step::Undo(Ok(())),
    Step::AsAnew,
    Step::Import(&LINE),
    Step::AsAnew,
];

// The same where the cell's total is none that members have, so that its nesting is broken.
const FOLLOWED_BROKEN: [Step; 6] = [
    Step::AsAnew,
    Step::Line,
    Step::Import(&SPLINE),
    Step::AsAnew,
    Step::Undo(Ok(())),
    Step::AsAnew,
];

#[test]
fn kept_places_follow(rt: HostRuntime) {
    assert!(rt; done(rt.alloc(), 53, &FOLLOWED) == 19);
    assert!(rt; done(rt.alloc(), 52, &FOLLOWED_BROKEN) == 6);
}
