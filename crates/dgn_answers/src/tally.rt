// Running commands of which nothing is said.

ghost use Rattle.std.specs.Prelude.{◌≡◌, IfOk, OnOk};
ghost use Rattle.std.specs.List.{AllByRecursion};
ghost use Rattle.dgn_import.specs.Seconds.{IsOpened};
ghost use Rattle.dgn_session.specs.State.{state_of};
ghost use Rattle.dgn_answers.specs.Steps.{steps_of, after_all, refused_count, trees_of_all};
ghost use Rattle.dgn_answers.specs.Logs.{AllLogAs};
ghost use Rattle.dgn_import.specs.Seconds.{seconds_left};

use crate::steps::take_step;
use dgn_drawing::Command;
use dgn_import::Second;
use dgn_session::Session;
use std::alloc::{AllocError, Global};

/// What commands came to.
#[derive(Drop)]
pub struct Tally {
    /// How many were refused.
    pub refused: u64,
    /// How many trees each of them changed or copied, as an edit of all that the fence chooses.
    pub trees: Vec<u32>,
}

/// Runs the commands in order in a session, each import with the next of the second files, and says nothing of them.
/// An error says that there was no memory.
pub fn run_unsaid(
    alloc: Global,
    session: &mut Session,
    commands: &[Command],
    seconds: &mut Vec<Second>,
) -> Result<Tally, AllocError>
    requires { AllByRecursion IsOpened seconds.old.items }
    ensures refused { IfOk result (λ t. t.refused ≡ refused_count (steps_of commands.now (seconds_left seconds.old.items)) (state_of session.old)) }
    ensures trees { IfOk result (λ t. t.trees.items ≡ trees_of_all (steps_of commands.now (seconds_left seconds.old.items)) (state_of session.old)) }
    ensures state { OnOk result (state_of session.new ≡ after_all (steps_of commands.now (seconds_left seconds.old.items)) (state_of session.old)) }
    ensures logged { OnOk result (AllLogAs (steps_of commands.now (seconds_left seconds.old.items)) session.old session.new) }
    ensures tail { session.new.tail ≡ session.old.tail }
{
    let mut out = Vec::new(alloc);
    let mut trees = Vec::new(alloc);
    let mut refused = 0;
    'commands: for command in commands {
        out.clear();
        let answered = take_step(alloc, session, command, seconds, &mut out)?;
        refused += u64::from(answered.refused);
        trees.push(answered.trees)?;
    }
    Ok(Tally { refused, trees })
}
