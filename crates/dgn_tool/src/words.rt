// A run with the words as the runtime gives them.

ghost use Rattle.std.specs.Prelude.{◌≡◌, [], map, string_bytes, Result, IfOk, IfErr};
ghost use Rattle.std.specs.Process.{exit_status};
ghost use Rattle.std.specs.IoError.{error_kind};
ghost use Rattle.std.specs.declared.io.ErrorKind.TheVariants.{OutOfMemory};
ghost use Rattle.dgn_tool.specs.Request.{request_of};
ghost use Rattle.dgn_desk.specs.declared.stop.Stop.{Stop};
ghost use Rattle.dgn_desk.specs.Seen.{DeskWrites};
ghost use Rattle.dgn_tool.specs.Runs.{DeskRuns, DeskExits, DeskStops, IsSettled, flushed_status};
ghost use Rattle.dgn_tool.specs.Status.{number_of};

use crate::Status;
use crate::end::End;
use crate::runs::run;
use dgn_desk::{BufferedDesk, Desk};
use std::alloc::Global;
use std::io;
use std::process::ExitCode;

/// Runs the program over this desk (`run`) with the words of the command line behind its name, as the runtime gives them,
/// and gives the number of how the run ended, and the desk. Words that aren't text are of no form; where there is no memory
/// for them, nothing is run.
///
/// What is said is held back, so that many short texts are said by one call of the desk: until OUT is begun, and then to the
/// end, where the rest is handed on. Where that stops, the run ends as if it had stopped there: text that wasn't handed on
/// wasn't said. So what `run` promises holds of this desk itself: what a stop leaves, if nothing was said over it since its
/// last file was begun, and all else of any desk. That after Memory both counts stand isn't promised, since a run that a
/// fault ended may find no memory for the rest.
pub fn run_flushed<D: Desk + Drop>(
    alloc: Global,
    given: io::Result<Vec<String>>,
    desk: D,
) -> (ExitCode, D)
    ensures words { IfOk given (λ words.
        DeskExits D.Desk (request_of (map string_bytes words.items)) desk result.1 (exit_status result.0)) }
    ensures none { IfErr given (λ error. ¬ (error_kind error ≡ OutOfMemory)
        → DeskExits D.Desk (request_of []) desk result.1 (exit_status result.0)) }
    ensures memory { IfErr given (λ error. error_kind error ≡ OutOfMemory
        → (exit_status result.0 ≡ number_of Status.Memory) × (result.1 ≡ desk)) }
    ensures prefix { IfOk given (λ words. IsSettled (D.content desk)
        → DeskStops D.Desk (request_of (map string_bytes words.items)) desk result.1 (exit_status result.0)) }
    ensures prefix_of_none { IfErr given (λ error. ¬ (error_kind error ≡ OutOfMemory) → IsSettled (D.content desk)
        → DeskStops D.Desk (request_of []) desk result.1 (exit_status result.0)) }
{
    let mut buffered = BufferedDesk::new(desk);
    let ended = end_given(alloc, given, &mut buffered);
    let status = flushed(&mut buffered, ended);
    (exit_code(status), buffered.into_inner())
}

// How a run ends that ended so, once the desk is flushed.
fn flushed<D: Desk + Drop>(desk: &mut BufferedDesk<D>, ended: Status) -> Status
    ensures writes { (flush : Result (Unit {0}) Stop) × DeskWrites ⟦<BufferedDesk<D> as Desk>⟧ flush (λ told now. now ≡ told) desk.old desk.new
        × IfOk flush (λ _. desk.new.held.items ≡ []) × (result ≡ flushed_status flush ended) }
    ensures idle { desk.old.held.items ≡ [] → (result ≡ ended) × (desk.new.desk ≡ desk.old.desk) }
{
    match desk.flush() {
        Ok(()) => ended,
        Err(stop) => End::Stopped(stop).status(),
    }
}

// Runs the program over this desk with the words that the runtime gives, where it gives them.
fn end_given<D: Desk>(alloc: Global, given: io::Result<Vec<String>>, desk: &mut D) -> Status
    ensures words { IfOk given
        (λ words. DeskRuns D.Desk (request_of (map string_bytes words.items)) desk.old desk.new result) }
    ensures none { IfErr given (λ error. ¬ (error_kind error ≡ OutOfMemory)
        → DeskRuns D.Desk (request_of []) desk.old desk.new result) }
    ensures memory { IfErr given (λ error. error_kind error ≡ OutOfMemory
        → (result ≡ Status.Memory) × (desk.new ≡ desk.old)) }
{
    match given {
        Ok(words) => run(alloc, &words, desk),
        Err(error) if error.kind() == io::ErrorKind::OutOfMemory => Status::Memory,
        Err(_) => run(alloc, &[], desk),
    }
}

// What the program ends with: the number of the status.
fn exit_code(status: Status) -> ExitCode
    ensures { exit_status result ≡ number_of status }
{
    ExitCode::from(status.number())
}
