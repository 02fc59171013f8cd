// Packing what the commands of a script do to a drawing.

ghost use Rattle.std.specs.Prelude.{◌≡◌, ◌≤◌, ◌<◌, [], length, reverse, IfOk, Some};
ghost use Rattle.std.specs.List.{AllByRecursion};
ghost use Rattle.dgn_import.specs.Seconds.{IsOpened as IsSoundSecond};
ghost use Rattle.elem_index.specs.Design.{IsWhole};
ghost use Rattle.elem_index.specs.Answers.{opened_of};
ghost use Rattle.dgn_session.specs.Laws.{IsSessionValue};
ghost use Rattle.dgn_session.specs.State.{state_of};
ghost use Rattle.patch_file.specs.Spelling.{patch_spelling};
ghost use Rattle.patch_file.specs.Standing.{all_taken};
ghost use Rattle.patch_file.specs.PatchView.{packed_of, all_packed};
ghost use Rattle.dgn_answers.specs.Commands.{first_state};
ghost use Rattle.dgn_tool.specs.Ends.{DeskComes, DeskEnds};
ghost use Rattle.dgn_answers.specs.Steps.{steps_of, refused_count};
ghost use Rattle.dgn_tool.specs.Packing.{packed, packed_after, filed_patch, TakesLast};
ghost use Rattle.dgn_tool.specs.Outcome.{reading_of};
ghost use Rattle.dgn_tool.specs.Request.{Pack};
ghost use Rattle.dgn_import.specs.Seconds.{seconds_left};

use crate::end::End;
use crate::ending::Ending;
use crate::inputs::{Inputs, read_inputs};
use crate::output::file_and_say;
use crate::texts::end_with;
use dgn_answers::run_unsaid;
use dgn_desk::{Desk, Stop};
use dgn_import::Second;
use dgn_listing::numbered_line;
use dgn_session::Session;
use edit_script::Command;
use elem_index::Design;
use patch_file::{MOST_PATCH, PatchEntry, patch_len, take_entry, write_patch};
use std::alloc::{AllocError, Global};

// What the commands of a script did.
#[derive(Drop)]
struct Packed {
    // How many were refused.
    refused: u64,
    // The entries of the edits that are left, in order.
    entries: Vec<PatchEntry>,
}

// Reads IN, SCRIPT and the second files of its imports, runs the commands, and writes what they did as PATCH.
pub(crate) fn pack<D: Desk>(
    alloc: Global,
    desk: &mut D,
    input: &str,
    script: &str,
    patch: &str,
) -> End
    ensures { DeskEnds D.Desk (reading_of (Some (Pack input.now script.now patch.now))) desk.old desk.new result }
{
    match read_inputs(alloc, desk, input, script) {
        Ok(
            Inputs {
                design,
                commands,
                mut seconds,
            },
        ) => End::of(pack_commands(alloc, desk, design, &commands, &mut seconds, patch)),
        Err(end) => end,
    }
}

// Runs the commands on the design, and files what they did.
fn pack_commands<D: Desk>(
    alloc: Global,
    desk: &mut D,
    design: Design,
    commands: &[Command],
    seconds: &mut Vec<Second>,
    patch: &str,
) -> Result<Ending, Stop>
    requires whole { IsWhole design }
    requires sound { AllByRecursion IsSoundSecond seconds.old.items }
    ensures { DeskComes D.Desk
        (packed (opened_of design) (steps_of commands.now (seconds_left seconds.old.items)) patch.now)
        desk.old desk.new result }
{
    let did = pack_edits(alloc, design, commands, seconds)?;
    if patch_len(&did.entries) > MOST_PATCH as u64 {
        return end_with(desk, b"too long patch\n", Ending::TooLong);
    }
    file_entries(alloc, desk, &did.entries, did.refused, patch)
}

// Runs the commands on the design, and takes off it what those edits did that are left.
fn pack_edits(
    alloc: Global,
    design: Design,
    commands: &[Command],
    seconds: &mut Vec<Second>,
) -> Result<Packed, AllocError>
    requires whole { IsWhole design }
    requires sound { AllByRecursion IsSoundSecond seconds.old.items }
    ensures refused { IfOk result (λ p. p.refused
        ≡ refused_count (steps_of commands.now (seconds_left seconds.old.items)) (first_state (opened_of design))) }
    ensures entries { IfOk result (λ p. all_packed p.entries.items
        ≡ packed_after (steps_of commands.now (seconds_left seconds.old.items)) (first_state (opened_of design))) }
{
    let mut session = Session::start(alloc, design)?;
    pack_session(alloc, &mut session, commands, seconds)
}

// Runs the commands in a session that has begun, and takes off its log what those edits did that are left.
fn pack_session(
    alloc: Global,
    session: &mut Session,
    commands: &[Command],
    seconds: &mut Vec<Second>,
) -> Result<Packed, AllocError>
    requires begun { session.old.entries ≡ [] }
    requires sound { AllByRecursion IsSoundSecond seconds.old.items }
    ensures refused { IfOk result (λ p. p.refused
        ≡ refused_count (steps_of commands.now (seconds_left seconds.old.items)) (state_of session.old)) }
    ensures entries { IfOk result (λ p. all_packed p.entries.items
        ≡ packed_after (steps_of commands.now (seconds_left seconds.old.items)) (state_of session.old)) }
{
    let tally = run_unsaid(alloc, session, commands, seconds)?;
    let entries = take_all(alloc, session)?;
    Ok(Packed {
        refused: tally.refused,
        entries,
    })
}

// Takes all entries off the log of a session, and gives in order what they take back. Each is taken before it is
// written back, so that no copy of the drawing is made.
fn take_all(alloc: Global, session: &mut Session) -> Result<Vec<PatchEntry>, AllocError>
    ensures taken { IfOk result (λ taken. all_packed taken.items ≡ all_taken session.old.body (reverse session.old.entries)) }
    ensures sound { IsSessionValue session.old }
{
    let count = session.log().entries().len();
    let mut taken = Vec::with_capacity(alloc, count)?;
    'entries: while taken.len() < count {
        taken.push(take_last(alloc, session)?)?;
    }
    taken.reverse();
    Ok(taken)
}

// Takes the last entry off the log of a session, and gives what it takes back.
fn take_last(alloc: Global, session: &mut Session) -> Result<PatchEntry, AllocError>
    requires { 0 < length session.old.entries }
    ensures { IfOk result (λ p. TakesLast session.old session.new (packed_of p)) }
{
    match session.log().entries() {
        [.., last] => {
            let entry = take_entry(alloc, session.body(), last)?;
            match session.undo() {
                Ok(()) => Ok(entry),
                Err(_) => unreachable!(),
            }
        }
        [] => unreachable!(),
    }
}

// Writes the patch file of these entries, and says how many there are.
fn file_entries<D: Desk>(
    alloc: Global,
    desk: &mut D,
    entries: &[PatchEntry],
    refused: u64,
    patch: &str,
) -> Result<Ending, Stop>
    requires { length (patch_spelling (all_packed entries.now)) ≤ MOST_PATCH }
    ensures { DeskComes D.Desk (filed_patch (all_packed entries.now) refused patch.now) desk.old desk.new result }
{
    let file = spell_entries(alloc, entries)?;
    let text = numbered_line(alloc, b"entries ", entries.len() as u64)?;
    file_and_say(
        desk,
        patch,
        &file,
        b"",
        b"",
        &text,
        Ending::of_refused(refused),
    )
}

// The patch file of these entries.
fn spell_entries(alloc: Global, entries: &[PatchEntry]) -> Result<Vec<u8>, AllocError>
    requires { length (patch_spelling (all_packed entries.now)) ≤ MOST_PATCH }
    ensures { IfOk result (λ file. file.items ≡ patch_spelling (all_packed entries.now)) }
{
    let mut file = Vec::new(alloc);
    write_patch(alloc, &mut file, entries)?;
    Ok(file)
}
