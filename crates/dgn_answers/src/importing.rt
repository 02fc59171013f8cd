// What a session answers to an import.

ghost use Rattle.std.specs.Prelude.{◌≡◌, ◌+◌, ◌≤◌, ◌++◌, length, option_map, vec_len, vec_capacity, IfOk, OnOk, OnErr};
ghost use Rattle.dgn_drawing.specs.Spelling.{spelling};
ghost use Rattle.dgn_import.specs.Answers.{TellsGathering};
ghost use Rattle.dgn_import.specs.Gathering.{Gathering, AreTrees, Trees};
ghost use Rattle.dgn_import.specs.Seconds.{value_of, IsOpened};
ghost use Rattle.dgn_listing.specs.Lines.{Appends, AppendsFrontOf};
ghost use Rattle.dgn_session.specs.State.{state_of};
ghost use Rattle.dgn_listing.specs.NumberedLines.{numbered};
ghost use Rattle.dgn_answers.specs.Imports.{second_fault_line, tree_cause_line, importing, importing_of};
ghost use Rattle.dgn_answers.specs.Imports.{import_text, import_refused, import_left};
ghost use Rattle.dgn_answers.specs.Remaining.{with_import};
ghost use Rattle.dgn_answers.specs.Answer.{imports};
ghost use Rattle.dgn_answers.specs.Logs.{LogsAs, Answers};

use crate::answered::Answered;
use crate::answers::{ROOM, put_known};
use crate::fences::put_count;
use dgn_drawing::Shift;
use dgn_import::{Gathered, ImportFault, Second, SecondFault, gather};
use dgn_listing::write_cause;
use dgn_session::Session;
use edit_ops::{Cause, EditFault};
use itoa::Buffer;
use std::alloc::{AllocError, Global};

/// Appends the trees of a second drawing in a session, displaced where `by` is given (`dgn_import::gather`), appends to
/// `out` what an import says, and answers whether it was refused. It is one edit for an undo, also where there is no
/// tree.
///
/// It is refused exactly where the second file doesn't open, where it has another dimension than the drawing or `by` is
/// given for other axes, where the displacement of a tree is refused, or, last of all, where the file would have more
/// than `MOST_DESIGN` bytes. Where there is no memory, the session is as before, and `out` has grown by some first part of what
/// the import says.
pub fn answer_import(
    alloc: Global,
    s: &mut Session,
    second: &Second,
    by: Option<&Shift>,
    out: &mut Vec<u8>,
) -> Result<bool, AllocError>
    requires sound { IsOpened second.now }
    ensures text { OnOk result (out.new.items ≡ out.old.items
        ++ import_text (importing_of (state_of s.old) (value_of second.now) (option_map (λ b. b.now) by.entry))) }
    ensures refused { IfOk result (λ refused. refused
        ≡ import_refused (importing_of (state_of s.old) (value_of second.now) (option_map (λ b. b.now) by.entry))) }
    ensures state { OnOk result (state_of s.new
        ≡ import_left (importing_of (state_of s.old) (value_of second.now) (option_map (λ b. b.now) by.entry)) (state_of s.old)) }
    ensures logged { OnOk result
        (LogsAs (with_import (importing_of (state_of s.old) (value_of second.now) (option_map (λ b. b.now) by.entry)) (state_of s.old)) s.old s.new) }
    ensures tail { s.new.tail ≡ s.old.tail }
    ensures kept { OnErr result (s.new ≡ s.old) }
    ensures front { OnErr result (AppendsFrontOf
        (import_text (importing_of (state_of s.old) (value_of second.now) (option_map (λ b. b.now) by.entry)))
        out.old.items out.new.items) }
{
    let found = gather(alloc, s.design().dim, second, by);
    let answered = answer_gathered(alloc, s, found, out)?;
    Ok(answered.refused)
}

// Appends the trees that were gathered from a second drawing, or says why there are none, and answers what the import came
// to.
pub(crate) fn answer_gathered(
    alloc: Global,
    s: &mut Session,
    gathered: Result<Gathered, ImportFault>,
    out: &mut Vec<u8>,
) -> Result<Answered, AllocError>
    requires trees { IfOk gathered (λ g. AreTrees s.old.dim g.bytes) }
    ensures { (found : Gathering) → TellsGathering found gathered
        → Answers result (imports (state_of s.old) (importing (state_of s.old) found)) s.old s.new out.old.items out.new.items }
{
    out.reserve(ROOM)?;
    // What a session holds is such as its type keeps, which is known where a value of it is read.
    let _dim = s.design().dim;
    match gathered {
        Ok(found) => append_gathered(alloc, s, &found, out),
        Err(ImportFault::Bad(fault)) => {
            put_fault(out, fault);
            Ok(Answered::REFUSED)
        }
        Err(ImportFault::Dimension) => {
            put_known(out, b"refused import dimension\n");
            Ok(Answered::REFUSED)
        }
        Err(ImportFault::Refused(cause)) => {
            write_tree_cause(alloc, out, cause)?;
            Ok(Answered::REFUSED)
        }
        Err(ImportFault::Memory) => Err(AllocError),
    }
}

// Appends trees that were gathered, says so, and answers what it came to.
fn append_gathered(
    alloc: Global,
    s: &mut Session,
    found: &Gathered,
    out: &mut Vec<u8>,
) -> Result<Answered, AllocError>
    requires trees { AreTrees s.old.dim found.now.bytes }
    requires body { s.old.body ≡ spelling (state_of s.old).top }
    requires has_room { vec_len out.old + 64 ≤ vec_capacity out.old }
    ensures { Answers result (imports (state_of s.old) (importing (state_of s.old) (Trees found.now.bytes found.now.trees)))
        s.old s.new out.old.items out.new.items }
{
    match s.append_trees(found.bytes.as_slice()) {
        Ok(()) => {
            put_count(out, found.trees);
            Ok(Answered::DONE)
        }
        Err(EditFault::Refused(cause)) => {
            write_cause(alloc, out, &cause)?;
            Ok(Answered::REFUSED)
        }
        Err(EditFault::Memory) => Err(AllocError),
    }
}

// Appends why a second file doesn't open. There is room for it.
fn put_fault(out: &mut Vec<u8>, fault: SecondFault)
    requires { vec_len out.old + 64 ≤ vec_capacity out.old }
    ensures { out.new.items ≡ out.old.items ++ second_fault_line fault }
{
    match fault {
        SecondFault::NotDesign => put_known(out, b"refused import not-design at 0\n"),
        SecondFault::Cut { at } => put_line(out, b"refused import cut at ", at),
        SecondFault::Short { at } => put_line(out, b"refused import short at ", at),
        SecondFault::Attr { at } => put_line(out, b"refused import attributes at ", at),
    }
}

// Appends the cause that refuses the displacement of a tree: one of the first three, for which there is room, or any other.
fn write_tree_cause(alloc: Global, out: &mut Vec<u8>, cause: Cause) -> Result<(), AllocError>
    requires { vec_len out.old + 64 ≤ vec_capacity out.old }
    ensures { Appends result (tree_cause_line cause) out.old.items out.new.items }
{
    match cause {
        Cause::Floating(m) => put_line(out, b"refused import floating ", m),
        Cause::Opaque(m) => put_line(out, b"refused import opaque ", m),
        Cause::OffPlane(m) => put_line(out, b"refused import off-plane ", m),
        other => return write_cause(alloc, out, &other),
    }
    Ok(())
}

// Appends a line of a few words and a number. There is room for it.
pub(crate) fn put_line(out: &mut Vec<u8>, words: &[u8], number: u32)
    requires has_room { vec_len out.old + 64 ≤ vec_capacity out.old }
    requires bounded { length words.now ≤ 32 }
    ensures { out.new.items ≡ out.old.items ++ numbered words.now number }
{
    let mut buffer = Buffer::new();
    put_known(out, words);
    put_known(out, buffer.format(number).as_bytes());
    put_known(out, b"\n");
}
