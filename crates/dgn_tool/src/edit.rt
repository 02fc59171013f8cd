// Editing a design file by a script.

ghost use Rattle.std.specs.Prelude.{Some};
ghost use Rattle.std.specs.List.{AllByRecursion};
ghost use Rattle.dgn_import.specs.Seconds.{IsOpened};
ghost use Rattle.elem_index.specs.Design.{IsWhole};
ghost use Rattle.elem_index.specs.Answers.{opened_of};
ghost use Rattle.dgn_session.specs.State.{state_of};
ghost use Rattle.dgn_tool.specs.Ends.{DeskComes, DeskEnds};
ghost use Rattle.dgn_answers.specs.Steps.{steps_of};
ghost use Rattle.dgn_tool.specs.Outcome.{edited, edited_from, reading_of};
ghost use Rattle.dgn_tool.specs.Request.{Edit};
ghost use Rattle.dgn_import.specs.Seconds.{seconds_left};

use crate::commands::run_all;
use crate::end::End;
use crate::ending::Ending;
use crate::inputs::{Inputs, read_inputs};
use crate::output::write_drawing;
use dgn_desk::{Desk, Stop};
use dgn_import::Second;
use dgn_session::Session;
use edit_script::Command;
use elem_index::Design;
use std::alloc::Global;

// Reads IN, SCRIPT and the second files of its imports, runs the commands, says what each of them says, and writes OUT.
pub(crate) fn edit<D: Desk>(
    alloc: Global,
    desk: &mut D,
    input: &str,
    script: &str,
    output: &str,
) -> End
    ensures { DeskEnds D.Desk (reading_of (Some (Edit input.now script.now output.now))) desk.old desk.new result }
{
    match read_inputs(alloc, desk, input, script) {
        Ok(
            Inputs {
                design,
                commands,
                mut seconds,
            },
        ) => End::of(run_script(alloc, desk, design, &commands, &mut seconds, output)),
        Err(end) => end,
    }
}

// Begins a session, and goes on with the commands.
fn run_script<D: Desk>(
    alloc: Global,
    desk: &mut D,
    design: Design,
    commands: &[Command],
    seconds: &mut Vec<Second>,
    output: &str,
) -> Result<Ending, Stop>
    requires whole { IsWhole design }
    requires sound { AllByRecursion IsOpened seconds.old.items }
    ensures { DeskComes D.Desk
        (edited (opened_of design) (steps_of commands.now (seconds_left seconds.old.items)) output.now)
        desk.old desk.new result }
{
    let mut session = Session::start(alloc, design)?;
    finish(alloc, desk, &mut session, commands, seconds, output)
}

// Runs the commands and writes OUT.
fn finish<D: Desk>(
    alloc: Global,
    desk: &mut D,
    session: &mut Session,
    commands: &[Command],
    seconds: &mut Vec<Second>,
    output: &str,
) -> Result<Ending, Stop>
    requires { AllByRecursion IsOpened seconds.old.items }
    ensures { DeskComes D.Desk
        (edited_from (state_of session.old) session.old.tail
        (steps_of commands.now (seconds_left seconds.old.items)) output.now)
        desk.old desk.new result }
{
    let before = session.design().body.len();
    let refused = run_all(alloc, desk, session, commands, seconds)?;
    write_drawing(desk, output, before, session)?;
    Ok(Ending::of_refused(refused))
}
