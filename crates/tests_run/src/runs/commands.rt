// Single commands in a session.

use super::imports::begun;
use super::*;
use dgn_drawing::{Edit, FenceEdit, Mode, Shift};
use dgn_fence::fence;
use edit_script::Command;
use plane_geom::Pt;

// The call for one command, which the runs don't make: an edit of all that a fence chooses with no fence set and with one,
// an undo, and an edit that is refused.
#[test]
fn commands_in_a_session(rt: HostRuntime) -> Result<(), Fail> {
    let alloc = rt.alloc();
    let Some(mut session) = begun(alloc) else {
        return Err(AllocError.into());
    };
    let corners = [
        Pt { x: -1, y: -1 },
        Pt { x: 200, y: -1 },
        Pt { x: 200, y: 200 },
        Pt { x: -1, y: 200 },
    ];
    let Ok(around) = fence(alloc, &corners) else {
        return Err(AllocError.into());
    };
    let by = Shift {
        axes: 2,
        by: [5, 5, 0],
    };
    let moved = Command::Fenced(Mode::Inside, FenceEdit::Move(by));
    let mut said = Vec::new(alloc);
    let unset = answer(alloc, &mut session, &moved, &mut said)?;
    session.set_fence(around);
    let set = answer(alloc, &mut session, &moved, &mut said)?;
    let undone = answer(alloc, &mut session, &Command::Undo, &mut said)?;
    let gone = Command::Edit(Edit::Delete { n: 9 });
    let unknown = answer(alloc, &mut session, &gone, &mut said)?;
    assert!(rt; unset && !set && !undone && unknown);
    assert!(rt; said.as_slice() == b"refused no-fence\nok 1\nok\nrefused unknown 9\n".as_slice());
    let whole = design(alloc, 0, &[&LINE])?;
    assert!(rt; session.body() == whole.as_slice());
    Ok(())
}
