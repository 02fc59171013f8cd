// What a session answers to the commands on its stored ranges.

ghost use Rattle.dgn_session.specs.State.{state_of};
ghost use Rattle.dgn_answers.specs.Commands.{answer_of};
ghost use Rattle.dgn_answers.specs.Logs.{Answers};
ghost use Rattle.dgn_drawing.specs.declared.command.Command.{Command};

use crate::answered::Answered;
use crate::answers::{ROOM, put_known};
use dgn_listing::{write_cause, write_findings};
use dgn_session::Session;
use edit_ops::EditFault;
use std::alloc::{AllocError, Global};

// Appends the elements whose stored range isn't the hull of their parts, and answers that this is done.
pub(crate) fn answer_audit(
    alloc: Global,
    s: &Session,
    out: &mut Vec<u8>,
) -> Result<Answered, AllocError>
    ensures { Answers result (answer_of (state_of s.now) Command.Audit) s.now s.now out.old.items out.new.items }
{
    let found = s.audit()?;
    write_findings(alloc, out, &found)?;
    Ok(Answered::DONE)
}

// Fits the tree that holds element n, appends what is said of it, and answers what it came to.
pub(crate) fn answer_fit(
    alloc: Global,
    s: &mut Session,
    n: u32,
    out: &mut Vec<u8>,
) -> Result<Answered, AllocError>
    ensures { Answers result (answer_of (state_of s.old) (Command.Fit n)) s.old s.new out.old.items out.new.items }
{
    out.reserve(ROOM)?;
    match s.fit(n) {
        Ok(()) => {
            put_known(out, b"ok\n");
            Ok(Answered::DONE)
        }
        Err(EditFault::Refused(cause)) => {
            write_cause(alloc, out, &cause)?;
            Ok(Answered::REFUSED)
        }
        Err(EditFault::Memory) => Err(AllocError),
    }
}
