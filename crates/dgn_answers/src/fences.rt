// What a session answers to the commands on its fence.

ghost use Rattle.std.specs.Prelude.{◌≡◌, ◌+◌, ◌≤◌, ◌++◌, codes, false, vec_len, vec_capacity};
ghost use Rattle.dgn_session.specs.State.{state_of};
ghost use Rattle.dgn_listing.specs.NumberedLines.{numbered};
ghost use Rattle.dgn_answers.specs.Commands.{answer_of};
ghost use Rattle.dgn_answers.specs.Logs.{Answers};
ghost use Rattle.dgn_drawing.specs.declared.command.Command.{Command};

use crate::answered::Answered;
use crate::answers::{ROOM, put_known};
use dgn_drawing::{FenceEdit, Mode};
use dgn_fence::{FenceFault, fence};
use dgn_listing::{write_cause, write_selected};
use dgn_session::{FenceEditFault, SelectFault, Session};
use itoa::Buffer;
use plane_geom::Pt;
use std::alloc::{AllocError, Global};

// Makes an edit of all that the fence chooses, appends what is said of it, and answers what it came to.
pub(crate) fn answer_fenced(
    alloc: Global,
    s: &mut Session,
    mode: Mode,
    edit: &FenceEdit,
    out: &mut Vec<u8>,
) -> Result<Answered, AllocError>
    ensures { Answers result (answer_of (state_of s.old) (Command.Fenced mode edit.now)) s.old s.new out.old.items out.new.items }
{
    out.reserve(ROOM)?;
    match s.edit_fence(mode, edit) {
        Ok(count) => {
            put_count(out, count);
            Ok(Answered {
                refused: false,
                trees: count,
            })
        }
        Err(FenceEditFault::NoFence) => {
            put_known(out, b"refused no-fence\n");
            Ok(Answered::REFUSED)
        }
        Err(FenceEditFault::Refused(cause)) => {
            write_cause(alloc, out, &cause)?;
            Ok(Answered::REFUSED)
        }
        Err(FenceEditFault::Memory) => Err(AllocError),
    }
}

// Appends that so many trees were edited, or appended. There is room for it.
pub(crate) fn put_count(out: &mut Vec<u8>, count: u32)
    requires { vec_len out.old + 64 ≤ vec_capacity out.old }
    ensures { out.new.items ≡ out.old.items ++ numbered (codes "ok ") count }
{
    let mut buffer = Buffer::new();
    put_known(out, b"ok ");
    put_known(out, buffer.format(count).as_bytes());
    put_known(out, b"\n");
}

// Sets the fence to these corners, appends what is said of it, and answers what it came to.
pub(crate) fn answer_fence(
    alloc: Global,
    s: &mut Session,
    corners: &[Pt],
    out: &mut Vec<u8>,
) -> Result<Answered, AllocError>
    ensures { Answers result (answer_of (state_of s.old) (Command.Fence corners.now)) s.old s.new out.old.items out.new.items }
{
    out.reserve(ROOM)?;
    match fence(alloc, corners) {
        Ok(made) => {
            s.set_fence(made);
            put_known(out, b"ok\n");
            Ok(Answered::DONE)
        }
        Err(FenceFault::Few) => {
            put_known(out, b"refused few\n");
            Ok(Answered::REFUSED)
        }
        Err(FenceFault::Many) => {
            put_known(out, b"refused many\n");
            Ok(Answered::REFUSED)
        }
        Err(FenceFault::Memory) => Err(AllocError),
    }
}

// Clears the fence, says so, and answers that this is done.
pub(crate) fn answer_no_fence(s: &mut Session, out: &mut Vec<u8>) -> Result<Answered, AllocError>
    ensures { Answers result (answer_of (state_of s.old) Command.NoFence) s.old s.new out.old.items out.new.items }
{
    out.reserve(ROOM)?;
    s.clear_fence();
    put_known(out, b"ok\n");
    Ok(Answered::DONE)
}

// Appends the numbers of the roots that the fence chooses, and answers what it came to.
pub(crate) fn answer_select(
    alloc: Global,
    s: &Session,
    mode: Mode,
    out: &mut Vec<u8>,
) -> Result<Answered, AllocError>
    ensures { Answers result (answer_of (state_of s.now) (Command.Select mode)) s.now s.now out.old.items out.new.items }
{
    match s.select(mode) {
        Ok(found) => {
            write_selected(alloc, out, &found)?;
            Ok(Answered::DONE)
        }
        Err(SelectFault::NoFence) => {
            out.extend_from_slice(b"refused no-fence\n")?;
            Ok(Answered::REFUSED)
        }
        Err(SelectFault::Memory) => Err(AllocError),
    }
}
