// Plans of an edit of all trees that a fence chooses.

use crate::joined::are_joined;
use crate::shifts::along;
use dgn_drawing::{FenceEdit, MOST_DESIGN, Mode};
use dgn_fence::fence;
use dgn_session::Session;
use edit_ops::types::Plan;
use edit_ops::{EditFault, plan_all};
use elem_index::read_design;
use plane_geom::Pt;
use sample_elements::{CELL, LINE, MEMBER, drawing};
use std::alloc::Global;

// The corners of a fence about all that stands in the drawing.
const AROUND: [Pt; 4] = [
    Pt { x: -10, y: -10 },
    Pt { x: 200, y: -10 },
    Pt { x: 200, y: 200 },
    Pt { x: -10, y: 200 },
];

// A session on a cell, its member and a line, with that fence.
fn begun(alloc: Global) -> Option<Session> {
    let bytes = drawing(alloc, 0x08, 0, &[&CELL, &MEMBER, &LINE]).ok()?;
    if bytes.len() > MOST_DESIGN {
        return None;
    }
    let design = read_design(alloc, bytes).ok()?;
    let mut session = Session::start(alloc, design).ok()?;
    session.set_fence(fence(alloc, &AROUND).ok()?);
    Some(session)
}

// What an edit of all trees that the fence of a session chooses comes to on its drawing.
fn planned_of(alloc: Global, session: &Session, edit: &FenceEdit) -> Result<Plan, EditFault> {
    let Ok(roots) = session.select(Mode::Inside) else {
        return Err(EditFault::Memory);
    };
    plan_all(alloc, &session.drawing(), &roots, edit)
}

// The same of that session.
fn planned(alloc: Global, edit: &FenceEdit) -> Result<Plan, EditFault> {
    match begun(alloc) {
        Some(session) => planned_of(alloc, &session, edit),
        None => Err(EditFault::Memory),
    }
}

// Whether a plan writes a byte at each of these places, and no other.
fn marks(plan: &Plan, wanted: &[(u32, u8)]) -> bool {
    let patches = plan.patches.as_slice();
    for (patch, (at, byte)) in patches.iter().zip(wanted) {
        if patch.at != *at || patch.len != 1 || patch.bytes[0] != *byte {
            return false;
        }
    }
    patches.len() == wanted.len()
}

// Both trees are marked deleted, and both are copied, one behind the other: a plan that ends with the first tree, or edits
// each on what those before it left, has others.
#[test]
fn edits_of_all(rt: HostRuntime) -> Result<(), EditFault> {
    let marked = planned(rt.alloc(), &FenceEdit::Delete)?;
    assert!(rt; marked.append.is_empty());
    assert!(rt; marks(&marked, &[(1537, 0x82), (1629, 0x83), (1681, 0x83)]));
    let copied = planned(rt.alloc(), &FenceEdit::Copy(along(0, 0)))?;
    assert!(rt; copied.patches.is_empty());
    assert!(rt; are_joined(copied.append.as_slice(), &[&CELL, &MEMBER, &LINE]));
    Ok(())
}
