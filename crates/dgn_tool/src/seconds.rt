// Reading the second files of a script's imports.

ghost use Rattle.std.specs.Prelude.{◌≡◌, map, IfOk, OnOk};
ghost use Rattle.std.specs.List.{AllByRecursion, list_all};
ghost use Rattle.dgn_import.specs.Seconds.{value_of, IsOpened};
ghost use Rattle.edit_script.specs.Imports.{is_name_byte};
ghost use Rattle.dgn_tool.specs.Ends.{DeskReads};
ghost use Rattle.dgn_tool.specs.Inputs.{second_in, seconds_behind, seconds_in};
ghost use Rattle.dgn_tool.specs.SecondFiles.{text_named, names_of};
ghost use Rattle.dgn_import.specs.Seconds.{seconds_left};

use crate::end::End;
use crate::files::read_file;
use dgn_desk::{Desk, Stop};
use dgn_drawing::MOST_DESIGN;
use dgn_import::{Second, read_second};
use edit_script::Command;
use patch_bytes::ByteList;
use std::alloc::Global;

/// Reads the second files of the imports in their order, and opens each, or ends the run. The next one stands last.
pub fn read_seconds<D: Desk>(
    alloc: Global,
    desk: &mut D,
    commands: &[Command],
) -> Result<Vec<Second>, End>
    ensures sound { IfOk result (λ seconds. AllByRecursion IsOpened seconds.items) }
    ensures read { DeskReads D.Desk (λ files. seconds_in files commands.now) (λ seconds. seconds_left seconds.items)
        desk.old desk.new result }
{
    let mut seconds = Vec::new(alloc);
    'commands: for command in commands {
        read_for(alloc, desk, command, &mut seconds)?;
    }
    seconds.reverse();
    Ok(seconds)
}

// Reads the second file of a command, where it is an import, opens it, and adds it to the others; or ends the run.
fn read_for<D: Desk>(
    alloc: Global,
    desk: &mut D,
    command: &Command,
    seconds: &mut Vec<Second>,
) -> Result<(), End>
    requires { AllByRecursion IsOpened seconds.old.items }
    ensures sound { OnOk result (AllByRecursion IsOpened seconds.new.items) }
    ensures read { DeskReads D.Desk (λ files. seconds_behind files (map value_of seconds.old.items) (names_of command.now))
        (λ _. map value_of seconds.new.items) desk.old desk.new result }
{
    let Command::Import(name, _) = command else {
        return Ok(());
    };
    let second = read_named(alloc, desk, second_name(name))?;
    let Ok(()) = seconds.push(second) else {
        return Err(End::Stopped(Stop::Memory));
    };
    Ok(())
}

// Reads the named second file whole, and opens it, or ends the run.
fn read_named<D: Desk>(alloc: Global, desk: &mut D, name: &str) -> Result<Second, End>
    ensures sound { IfOk result IsOpened }
    ensures read { DeskReads D.Desk (λ files. second_in files name.now) value_of desk.old desk.new result }
{
    let bytes = read_file(alloc, desk, name, MOST_DESIGN, b"too long import\n")?;
    let second = read_second(alloc, bytes)?;
    Ok(second)
}

/// The name of a second file, as a desk is asked for it: the text that the bytes are. Each name in a script is one; empty
/// for other bytes.
pub fn second_name(name: &ByteList) -> &str
    ensures { result.now ≡ text_named name.now }
{
    let bytes = name.as_slice();
    if !is_name(bytes) {
        return "";
    }
    let Ok(text) = str::from_utf8(bytes) else {
        return "";
    };
    text
}

// Whether bytes are those of a name: each from 33 to 126.
fn is_name(bytes: &[u8]) -> bool
    ensures { result ≡ list_all is_name_byte bytes.now }
{
    bytes.iter().all(|b| 0x21 <= *b && *b <= 0x7E)
}
