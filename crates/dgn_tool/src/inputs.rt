// Reading what a script is run with.

ghost use Rattle.std.specs.Prelude.{IfOk};
ghost use Rattle.std.specs.List.{AllByRecursion};
ghost use Rattle.elem_index.specs.Design.{IsWhole};
ghost use Rattle.elem_index.specs.Answers.{opened_of};
ghost use Rattle.dgn_import.specs.Seconds.{IsOpened};
ghost use Rattle.dgn_tool.specs.Ends.{DeskReads};
ghost use Rattle.dgn_answers.specs.Steps.{steps_of};
ghost use Rattle.dgn_tool.specs.Inputs.{Inputs as InputsValue, inputs_in};
ghost use Rattle.dgn_import.specs.Seconds.{seconds_left};

use crate::end::End;
use crate::files::{open_design, read_commands};
use crate::seconds::read_seconds;
use dgn_desk::Desk;
use dgn_import::Second;
use edit_script::Command;
use elem_index::Design;
use std::alloc::Global;

// What a script is run with.
#[derive(Drop)]
pub(crate) struct Inputs {
    // The drawing of IN.
    pub(crate) design: Design,
    // The commands of SCRIPT.
    pub(crate) commands: Vec<Command>,
    // The second files of its imports, opened. The next one stands last.
    pub(crate) seconds: Vec<Second>,
}

// Reads and opens IN, reads SCRIPT, and then reads and opens the second files of its imports in their order; or ends the
// run.
pub(crate) fn read_inputs<D: Desk>(
    alloc: Global,
    desk: &mut D,
    input: &str,
    script: &str,
) -> Result<Inputs, End>
    ensures whole { IfOk result (λ i. IsWhole i.design) }
    ensures sound { IfOk result (λ i. AllByRecursion IsOpened i.seconds.items) }
    ensures read { DeskReads D.Desk (λ files. inputs_in files input.now script.now)
        (λ i. record { drawing = opened_of i.design; steps = steps_of i.commands.items (seconds_left i.seconds.items) })
        desk.old desk.new result }
{
    let design = open_design(alloc, desk, input)?;
    let commands = read_commands(alloc, desk, script)?;
    let seconds = read_seconds(alloc, desk, &commands)?;
    Ok(Inputs {
        design,
        commands,
        seconds,
    })
}
