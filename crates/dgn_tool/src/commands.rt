ghost use Rattle.std.specs.Prelude.{◌≡◌, IfOk, OnOk};
ghost use Rattle.std.specs.List.{AllByRecursion};
ghost use Rattle.dgn_desk.specs.Seen.{DeskWrites};
ghost use Rattle.dgn_session.specs.State.{state_of};
ghost use Rattle.dgn_import.specs.Seconds.{IsOpened};
ghost use Rattle.dgn_answers.specs.Steps.{steps_of, after_all, texts_of, refused_count};
ghost use Rattle.dgn_tool.specs.Leaving.{SaysAs};
ghost use Rattle.dgn_import.specs.Seconds.{seconds_left};

use dgn_answers::take_step;
use dgn_desk::{Desk, Stop, say_all};
use dgn_import::Second;
use dgn_session::Session;
use edit_script::Command;
use std::alloc::Global;

/// Runs the commands in order in a session, each import with the next of the second files, says what each of them says
/// before the next one runs, and answers how many were refused. Where the desk stops, or there is no memory, some first
/// part of what they say was said.
pub fn run_all<D: Desk>(
    alloc: Global,
    desk: &mut D,
    session: &mut Session,
    commands: &[Command],
    seconds: &mut Vec<Second>,
) -> Result<u64, Stop>
    requires { AllByRecursion IsOpened seconds.old.items }
    ensures said { DeskWrites D.Desk result
        (SaysAs result (texts_of (steps_of commands.now (seconds_left seconds.old.items)) (state_of session.old)))
        desk.old desk.new }
    ensures refused { IfOk result
        (λ refused. refused ≡ refused_count (steps_of commands.now (seconds_left seconds.old.items)) (state_of session.old)) }
    ensures state { OnOk result
        (state_of session.new ≡ after_all (steps_of commands.now (seconds_left seconds.old.items)) (state_of session.old)) }
    ensures tail { session.new.tail ≡ session.old.tail }
{
    let mut out = Vec::new(alloc);
    let mut refused = 0;
    'commands: for command in commands {
        out.clear();
        let Ok(answered) = take_step(alloc, session, command, seconds, &mut out) else {
            return Err(Stop::Memory);
        };
        say_all(desk, &out)?;
        refused += u64::from(answered.refused);
    }
    Ok(refused)
}
