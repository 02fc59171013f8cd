// The steps of a run: its commands, each import with its second file.

ghost use Rattle.std.specs.Prelude.{◌≡◌, drop};
ghost use Rattle.std.specs.List.{AllByRecursion};
ghost use Rattle.dgn_import.specs.Seconds.{value_of, IsOpened};
ghost use Rattle.dgn_session.specs.State.{state_of};
ghost use Rattle.dgn_answers.specs.Steps.{first_second, step_of, seconds_behind, step_answer};
ghost use Rattle.dgn_answers.specs.Logs.{Answers};
ghost use Rattle.dgn_import.specs.Seconds.{seconds_left};

use crate::answered::Answered;
use crate::answers::respond;
use crate::importing::answer_gathered;
use dgn_drawing::Command;
use dgn_import::{Second, SecondFault, gather};
use dgn_session::Session;
use std::alloc::{AllocError, Global};

/// Runs one command in a session, an import with the next second file, which is dropped before its trees are appended, and
/// appends what it says. Where there is no memory, the session is as before, and `out` has grown by some first part of it.
pub fn take_step(
    alloc: Global,
    s: &mut Session,
    c: &Command,
    seconds: &mut Vec<Second>,
    out: &mut Vec<u8>,
) -> Result<Answered, AllocError>
    requires { AllByRecursion IsOpened seconds.old.items }
    ensures answered { Answers result (step_answer (state_of s.old) (step_of c.now (seconds_left seconds.old.items)))
        s.old s.new out.old.items out.new.items }
    ensures left { seconds_left seconds.new.items ≡ seconds_behind c.now (seconds_left seconds.old.items) }
    ensures sound { AllByRecursion IsOpened seconds.new.items }
{
    match c {
        Command::Import(_, by) => {
            let second = next_second(seconds);
            let gathered = gather(alloc, s.design().dim, &second, by.as_ref());
            drop(second);
            answer_gathered(alloc, s, gathered, out)
        }
        _ => respond(alloc, s, c, out),
    }
}

// Takes the next second file; where none is left, one that is no design file.
fn next_second(seconds: &mut Vec<Second>) -> Second
    requires { AllByRecursion IsOpened seconds.old.items }
    ensures first { value_of result ≡ first_second (seconds_left seconds.old.items) }
    ensures sound { IsOpened result }
    ensures left { seconds_left seconds.new.items ≡ drop 1 (seconds_left seconds.old.items) }
    ensures others { AllByRecursion IsOpened seconds.new.items }
{
    match seconds.pop() {
        Some(second) => second,
        None => Second::Bad(SecondFault::NotDesign),
    }
}
