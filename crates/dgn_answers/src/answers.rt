ghost use Rattle.std.specs.Prelude.{◌≡◌, ◌+◌, ◌≤◌, ◌++◌, false, length, vec_len, vec_capacity, IfOk, OnOk, OnErr};
ghost use Rattle.dgn_listing.specs.Lines.{AppendsFrontOf};
ghost use Rattle.dgn_session.specs.State.{state_of};
ghost use Rattle.dgn_answers.specs.Commands.{answer_of, is_import};
ghost use Rattle.dgn_answers.specs.Logs.{LogsAs, Answers};
ghost use Rattle.dgn_drawing.specs.declared.command.Command.{Command};

use crate::answered::Answered;
use crate::fences::{answer_fence, answer_fenced, answer_no_fence, answer_select};
use crate::listings::{answer_elements, answer_links, answer_refs, answer_show, answer_tree};
use crate::ranges::{answer_audit, answer_fit};
use dgn_drawing::{Command, Edit, Mask};
use dgn_listing::write_cause;
use dgn_session::Session;
use edit_ops::EditFault;
use std::alloc::{AllocError, Global};

// The room that a command makes for its text before it changes the session. No line that it says then is longer.
pub(crate) const ROOM: usize = 64;

/// Runs one command in a session that is no import (`answer_import`), appends what it says, and answers whether it was
/// refused.
///
/// Where there is no memory, the session is as before, and `out` has grown by some first part of what the command says:
/// a command that changes the session makes room for its text first.
pub fn answer(
    alloc: Global,
    s: &mut Session,
    c: &Command,
    out: &mut Vec<u8>,
) -> Result<bool, AllocError>
    requires { is_import c.now ≡ false }
    ensures text { OnOk result (out.new.items ≡ out.old.items ++ (answer_of (state_of s.old) c.now).text) }
    ensures refused { IfOk result (λ refused. refused ≡ (answer_of (state_of s.old) c.now).refused) }
    ensures state { OnOk result (state_of s.new ≡ (answer_of (state_of s.old) c.now).state) }
    ensures logged { OnOk result (LogsAs (answer_of (state_of s.old) c.now).left s.old s.new) }
    ensures tail { s.new.tail ≡ s.old.tail }
    ensures kept { OnErr result (s.new ≡ s.old) }
    ensures front { OnErr result (AppendsFrontOf (answer_of (state_of s.old) c.now).text out.old.items out.new.items) }
{
    let answered = respond(alloc, s, c, out)?;
    Ok(answered.refused)
}

// The same, with how many trees an edit of all that the fence chooses has changed or copied. A step of a run is this.
pub(crate) fn respond(
    alloc: Global,
    s: &mut Session,
    c: &Command,
    out: &mut Vec<u8>,
) -> Result<Answered, AllocError>
    requires { is_import c.now ≡ false }
    ensures { Answers result (answer_of (state_of s.old) c.now) s.old s.new out.old.items out.new.items }
{
    match c {
        Command::Edit(edit) => answer_edit(alloc, s, edit, out),
        Command::Undo => answer_undo(s, out),
        Command::Levels(levels) => answer_levels(s, *levels, out),
        Command::Fence(corners) => answer_fence(alloc, s, corners.as_slice(), out),
        Command::NoFence => answer_no_fence(s, out),
        Command::Show => answer_show(alloc, s, out),
        Command::Tree(n) => answer_tree(alloc, s, *n, out),
        Command::Elements => answer_elements(alloc, s, out),
        Command::Refs => answer_refs(alloc, s, out),
        Command::Links(n) => answer_links(alloc, s, *n, out),
        Command::Select(mode) => answer_select(alloc, s, *mode, out),
        Command::Fenced(mode, edit) => answer_fenced(alloc, s, *mode, edit, out),
        Command::Audit => answer_audit(alloc, s, out),
        Command::Fit(n) => answer_fit(alloc, s, *n, out),
        Command::Import(_, _) => unreachable!(),
    }
}

// Shows these levels from now on, says so, and answers that this is done.
fn answer_levels(s: &mut Session, levels: Mask, out: &mut Vec<u8>) -> Result<Answered, AllocError>
    ensures { Answers result (answer_of (state_of s.old) (Command.Levels levels)) s.old s.new out.old.items out.new.items }
{
    out.reserve(ROOM)?;
    s.set_mask(levels);
    put_known(out, b"ok\n");
    Ok(Answered::DONE)
}

// Makes an edit, appends what is said of it, and answers what it came to.
fn answer_edit(
    alloc: Global,
    s: &mut Session,
    edit: &Edit,
    out: &mut Vec<u8>,
) -> Result<Answered, AllocError>
    ensures { Answers result (answer_of (state_of s.old) (Command.Edit edit.now)) s.old s.new out.old.items out.new.items }
{
    out.reserve(ROOM)?;
    match s.edit(edit) {
        Ok(()) => {
            put_known(out, b"ok\n");
            Ok(Answered::DONE)
        }
        Err(EditFault::Refused(cause)) => {
            write_cause(alloc, out, &cause)?;
            Ok(Answered::REFUSED)
        }
        Err(EditFault::Memory) => Err(AllocError),
    }
}

// Takes the last edit back, appends what is said of it, and answers what it came to.
fn answer_undo(s: &mut Session, out: &mut Vec<u8>) -> Result<Answered, AllocError>
    ensures { Answers result (answer_of (state_of s.old) Command.Undo) s.old s.new out.old.items out.new.items }
{
    out.reserve(ROOM)?;
    match s.undo() {
        Ok(()) => {
            put_known(out, b"ok\n");
            Ok(Answered::DONE)
        }
        Err(_) => {
            put_known(out, b"refused nothing\n");
            Ok(Answered::REFUSED)
        }
    }
}

// Appends bytes for which there is room.
pub(crate) fn put_known(out: &mut Vec<u8>, bytes: &[u8])
    requires { vec_len out.old + length bytes.now ≤ vec_capacity out.old }
    ensures bytes { out.new.items ≡ out.old.items ++ bytes.now }
    ensures keeps_room { vec_capacity out.old ≤ vec_capacity out.new }
{
    match out.extend_from_slice(bytes) {
        Ok(()) => {}
        Err(_) => unreachable!(),
    }
}
