// Reading and opening the files that a run is given.

ghost use Rattle.std.specs.Prelude.{◌+◌, ◌<◌, ◌≤◌, ◌^◌, length, vec_len, IfOk, Result, Err};
ghost use Rattle.dgn_desk.specs.Seen.{seen};
ghost use Rattle.elem_index.specs.Answers.{TellsFault, opened_of};
ghost use Rattle.elem_index.specs.Design.{IsWhole};
ghost use Rattle.elem_index.specs.Opened.{Opened};
ghost use Rattle.dgn_drawing.specs.Opening.{Fault};
ghost use Rattle.dgn_drawing.specs.WellFormed.{IsBytes};
ghost use Rattle.patch_file.specs.PatchView.{all_packed};
ghost use Rattle.dgn_tool.specs.Ends.{ComesTo, DeskReads, end_of};
ghost use Rattle.dgn_tool.specs.Inputs.{FaultSays, design_in, drawing_opened, drawing_in, commands_in, entries_in};
ghost use Rattle.dgn_tool.specs.Readings.{at_once, file_in};

use crate::end::End;
use crate::ending::Ending;
use crate::texts::{end_numbered, end_with};
use dgn_desk::{Desk, ReadEnd, Stop, read_all};
use dgn_drawing::MOST_DESIGN;
use dgn_listing::numbered_line;
use edit_script::{Command, MOST_SCRIPT, ScriptFault, read_script};
use elem_index::{Design, OpenFault, read_design};
use patch_file::{MOST_PATCH, PatchEntry, PatchFault, read_patch};
use std::alloc::{AllocError, Global};

/// Reads the named file whole, of at most so many bytes, or ends the run, with this line where it has more.
pub(crate) fn read_file<D: Desk>(
    alloc: Global,
    desk: &mut D,
    name: &str,
    limit: usize,
    line: &[u8],
) -> Result<Vec<u8>, End>
    requires { limit + 1 < 2 ^ 64 }
    ensures within { IfOk result (λ bytes. vec_len bytes ≤ limit) }
    ensures read { DeskReads D.Desk (λ files. file_in files name.now limit line.now) (λ bytes. bytes.items)
        desk.old desk.new result }
{
    match read_all(alloc, desk, name, limit) {
        Ok(bytes) => {
            are_bytes(&bytes);
            Ok(bytes)
        }
        Err(ReadEnd::TooLong) => Err(End::of(end_with(desk, line, Ending::TooLong))),
        Err(ReadEnd::Fault) => Err(End::ReadFault),
        Err(ReadEnd::Memory) => Err(End::Stopped(Stop::Memory)),
    }
}

// Items of a slice of bytes are below 256. It does nothing.
fn are_bytes(bytes: &[u8])
    ensures { IsBytes bytes.now }
{}

/// Reads IN whole, or ends the run.
pub(crate) fn read_input<D: Desk>(alloc: Global, desk: &mut D, input: &str) -> Result<Vec<u8>, End>
    ensures within { IfOk result (λ bytes. vec_len bytes ≤ MOST_DESIGN) }
    ensures read { DeskReads D.Desk (λ files. design_in files input.now) (λ bytes. bytes.items) desk.old desk.new result }
{
    read_file(alloc, desk, input, MOST_DESIGN, b"too long design\n")
}

/// Reads and opens IN, or ends the run.
pub fn open_design<D: Desk>(alloc: Global, desk: &mut D, input: &str) -> Result<Design, End>
    ensures whole { IfOk result IsWhole }
    ensures read { DeskReads D.Desk (λ files. drawing_in files input.now) opened_of desk.old desk.new result }
{
    let bytes = read_input(alloc, desk, input)?;
    match read_design(alloc, bytes) {
        Ok(design) => Ok(design),
        Err(fault) => Err(End::of(end_bad_design(alloc, desk, fault))),
    }
}

/// Ends the run with what is wrong with IN. Want of memory has no line, and so no ending.
pub(crate) fn end_bad_design<D: Desk>(
    alloc: Global,
    desk: &mut D,
    fault: OpenFault,
) -> Result<Ending, Stop>
    ensures { (found : Result Opened Fault) → TellsFault found fault
        → ComesTo (λ _. at_once (drawing_opened found)) (Err (end_of result)) (seen D.Desk desk.old) (seen D.Desk desk.new) }
{
    let line = bad_line(alloc, fault)?;
    end_with(desk, &line, Ending::BadDesign)
}

// The line that says what is wrong with IN. Want of memory has none.
fn bad_line(alloc: Global, fault: OpenFault) -> Result<Vec<u8>, AllocError>
    ensures { IfOk result (λ line. FaultSays fault line.items) }
{
    match fault {
        OpenFault::NotDesign => {
            let mut line = Vec::new(alloc);
            line.extend_from_slice(b"bad design not-design at 0\n")?;
            Ok(line)
        }
        OpenFault::Cut { at } => numbered_line(alloc, b"bad design cut at ", u64::from(at)),
        OpenFault::Short { at } => numbered_line(alloc, b"bad design short at ", u64::from(at)),
        OpenFault::Attr { at } => numbered_line(alloc, b"bad design attributes at ", u64::from(at)),
        OpenFault::Memory => Err(AllocError),
    }
}

/// Reads SCRIPT, and its commands, or ends the run.
pub fn read_commands<D: Desk>(
    alloc: Global,
    desk: &mut D,
    script: &str,
) -> Result<Vec<Command>, End>
    ensures { DeskReads D.Desk (λ files. commands_in files script.now) (λ commands. commands.items) desk.old desk.new result }
{
    let text = read_file(alloc, desk, script, MOST_SCRIPT, b"too long script\n")?;
    match read_script(alloc, &text) {
        Ok(commands) => Ok(commands),
        Err(ScriptFault::Line { number }) => Err(End::of(end_numbered(
            alloc,
            desk,
            b"bad script line ",
            number,
            Ending::BadScript,
        ))),
        Err(ScriptFault::Memory) => Err(End::Stopped(Stop::Memory)),
    }
}

/// Reads PATCH, and its entries, or ends the run.
pub(crate) fn read_entries<D: Desk>(
    alloc: Global,
    desk: &mut D,
    patch: &str,
) -> Result<Vec<PatchEntry>, End>
    ensures bounded { IfOk result (λ entries. length entries.items < 2 ^ 32) }
    ensures read { DeskReads D.Desk (λ files. entries_in files patch.now) (λ entries. all_packed entries.items)
        desk.old desk.new result }
{
    let bytes = read_file(alloc, desk, patch, MOST_PATCH, b"too long patch\n")?;
    match read_patch(alloc, &bytes) {
        Ok(entries) => Ok(entries),
        Err(PatchFault::At { offset }) => Err(End::of(end_numbered(
            alloc,
            desk,
            b"bad patch at ",
            offset,
            Ending::BadPatch,
        ))),
        Err(PatchFault::Memory) => Err(End::Stopped(Stop::Memory)),
    }
}
