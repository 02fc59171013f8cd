//! `dgnedit`: changes what a script asks for in a design file, and leaves every other byte.
#![tactic(auto)]

ghost use Rattle.std.specs.Prelude.{◌≡◌, [], map, string_bytes, IfOk, IfErr};
ghost use Rattle.std.specs.Process.{exit_status};
ghost use Rattle.std.specs.IoError.{error_kind};
ghost use Rattle.std.specs.declared.io.ErrorKind.TheVariants.{OutOfMemory};
ghost use Rattle.dgn_tool.specs.Request.{request_of};
ghost use Rattle.dgn_tool.specs.Runs.{DeskExits};
ghost use Rattle.dgn_tool.specs.Status.{number_of};
ghost use Rattle.dgn_tool.specs.declared.status.Status.TheVariants as statuses;

use dgn_desk::{Desk, HostDesk, words};
use dgn_tool::run_flushed;
use std::alloc::Global;
use std::io;
use std::process::ExitCode;

fn main(rt: HostRuntime) -> ExitCode {
    let given = words(&rt);
    let alloc = rt.alloc();
    ended(alloc, given, HostDesk::new(rt))
}

// What the program ends with over this desk, with these words of the command line behind its name: the number of how the run
// ended with all of them in their order. Where there is no memory for the words, that of Memory.
fn ended<D: Desk + Drop>(alloc: Global, given: io::Result<Vec<String>>, desk: D) -> ExitCode
    ensures words { IfOk given (λ words. (after : D)
        × DeskExits D.Desk (request_of (map string_bytes words.items)) desk after (exit_status result)) }
    ensures none { IfErr given (λ error. ¬ (error_kind error ≡ OutOfMemory)
        → (after : D) × DeskExits D.Desk (request_of []) desk after (exit_status result)) }
    ensures memory { IfErr given (λ error. error_kind error ≡ OutOfMemory
        → exit_status result ≡ number_of statuses.Memory) }
{
    let (ended, _) = run_flushed(alloc, given, desk);
    ended
}
