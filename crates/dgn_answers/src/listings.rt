// What a session answers to the listings. They change nothing.

ghost use Rattle.dgn_session.specs.State.{state_of};
ghost use Rattle.dgn_answers.specs.Commands.{answer_of};
ghost use Rattle.dgn_answers.specs.Logs.{Answers};
ghost use Rattle.dgn_drawing.specs.declared.command.Command.{Command};

use crate::answered::Answered;
use dgn_listing::{write_cause, write_elements, write_items, write_links, write_refs, write_tree};
use dgn_session::Session;
use edit_ops::Cause;
use std::alloc::{AllocError, Global};

// Appends the items that are shown, and answers that this is done.
pub(crate) fn answer_show(
    alloc: Global,
    s: &Session,
    out: &mut Vec<u8>,
) -> Result<Answered, AllocError>
    ensures { Answers result (answer_of (state_of s.now) Command.Show) s.now s.now out.old.items out.new.items }
{
    let items = s.show()?;
    write_items(alloc, out, &items)?;
    Ok(Answered::DONE)
}

// Appends what `tree` says of element n, and answers what it came to.
pub(crate) fn answer_tree(
    alloc: Global,
    s: &Session,
    n: u32,
    out: &mut Vec<u8>,
) -> Result<Answered, AllocError>
    ensures { Answers result (answer_of (state_of s.now) (Command.Tree n)) s.now s.now out.old.items out.new.items }
{
    let drawing = s.drawing();
    if n < drawing.count() {
        write_tree(alloc, out, &drawing, n)?;
        Ok(Answered::DONE)
    } else {
        write_cause(alloc, out, &Cause::Unknown(n))?;
        Ok(Answered::REFUSED)
    }
}

// Appends the lines of all elements, and answers that this is done.
pub(crate) fn answer_elements(
    alloc: Global,
    s: &Session,
    out: &mut Vec<u8>,
) -> Result<Answered, AllocError>
    ensures { Answers result (answer_of (state_of s.now) Command.Elements) s.now s.now out.old.items out.new.items }
{
    write_elements(alloc, out, &s.drawing())?;
    Ok(Answered::DONE)
}

// Appends the lines of the reference attachments, and answers that this is done.
pub(crate) fn answer_refs(
    alloc: Global,
    s: &Session,
    out: &mut Vec<u8>,
) -> Result<Answered, AllocError>
    ensures { Answers result (answer_of (state_of s.now) Command.Refs) s.now s.now out.old.items out.new.items }
{
    write_refs(alloc, out, &s.drawing())?;
    Ok(Answered::DONE)
}

// Appends the lines of the linkages of element n, and answers what it came to.
pub(crate) fn answer_links(
    alloc: Global,
    s: &Session,
    n: u32,
    out: &mut Vec<u8>,
) -> Result<Answered, AllocError>
    ensures { Answers result (answer_of (state_of s.now) (Command.Links n)) s.now s.now out.old.items out.new.items }
{
    match s.drawing().element(n) {
        Some(bytes) => {
            write_links(alloc, out, bytes)?;
            Ok(Answered::DONE)
        }
        None => {
            write_cause(alloc, out, &Cause::Unknown(n))?;
            Ok(Answered::REFUSED)
        }
    }
}
