ghost use Rattle.std.specs.Prelude.{◌≡◌, ◌≤◌, map, string_bytes, IsNone, IfSome, IsTrue, None, Some};
ghost use Rattle.dgn_desk.specs.Content.{OnlyLeftDiffers};
ghost use Rattle.dgn_desk.specs.Desk.{Rose, StaysWilling};
ghost use Rattle.dgn_tool.specs.Ends.{DeskEnds};
ghost use Rattle.dgn_tool.specs.EditedRuns.{EditsAsAsked};
ghost use Rattle.dgn_tool.specs.Request.{request_of};
ghost use Rattle.dgn_tool.specs.RequestView.{seen, IsCounted};
ghost use Rattle.dgn_tool.specs.Outcome.{outcome, IsEnding, EndsAs, StoppedAs, IsFaultless, HasFiles, FilesInBytes, Reads, reading_of};
ghost use Rattle.dgn_tool.specs.Runs.{DeskRuns};

use crate::apply::apply;
use crate::check::check;
use crate::edit::edit;
use crate::end::End;
use crate::generation::generate_file;
use crate::pack::pack;
use crate::request::read_words;
use crate::{Request, Status};
use dgn_desk::{Desk, say_all};
use std::alloc::Global;

/// Runs the program with these words, those of the command line behind the program's name, over this
/// desk, and answers how it ended.
///
/// `edit IN SCRIPT OUT` reads the design file IN and the script SCRIPT whole, and then the second files of the script's
/// imports in their order, runs the commands of the script and writes OUT. `check IN` reads IN and says how many elements
/// it has. `gen SEED COUNT OUT` generates a drawing, runs a fixed script on it, writes OUT and says a summary; it reads
/// nothing.
/// `pack IN SCRIPT PATCH` reads and runs as `edit`, and writes what the edits that are left did as a patch file.
/// `apply IN PATCH OUT` reads IN and the patch file PATCH whole, puts the entries of the patch file on the elements one
/// after the other, writes OUT and says how many entries there are; it writes nothing where an entry doesn't stand. The
/// files, the texts and the status are those of `outcome`; `Status` says when each status comes. Where the desk fails, or
/// there is no memory, the run ends at once and says nothing more: after WriteFault or Memory some first
/// part of the outcome's text was said, the file that the outcome writes is as before or holds some first
/// part of its bytes, and no other file changed. No fault is passed over: an ending comes only where neither
/// count of faults changed, and so does Memory. Where the desk doesn't fail, the run comes to its ending unless there is no
/// memory; and a willing desk doesn't fail, where it has the files that the run comes to read. Where a run over a desk that
/// tells what it holds comes to an ending, each file that it read is bytes, numbers below 256, if it is within its limit,
/// and a strict desk has all of them.
pub fn run<D: Desk>(alloc: Global, words: &[String], desk: &mut D) -> Status
    ensures outcome { EndsAs result
        (outcome (map string_bytes words.now)) (D.content desk.old) (D.content desk.new) }
    ensures prefix { StoppedAs result
        (outcome (map string_bytes words.now)) (D.content desk.old) (D.content desk.new) }
    ensures counted { IsEnding result → (D.read_faults desk.new ≡ D.read_faults desk.old)
        × (D.write_faults desk.new ≡ D.write_faults desk.old) }
    ensures memory { result ≡ Status.Memory → (D.read_faults desk.new ≡ D.read_faults desk.old)
        × (D.write_faults desk.new ≡ D.write_faults desk.old) }
    ensures usage { result ≡ Status.Usage → IsNone (request_of (map string_bytes words.now)) }
    ensures improper { IsNone (request_of (map string_bytes words.now)) → IsEnding result
        → result ≡ Status.Usage }
    ensures read_fault { result ≡ Status.ReadFault → Reads (request_of (map string_bytes words.now))
        × Rose (D.read_faults desk.old) (D.read_faults desk.new)
        × OnlyLeftDiffers (D.content desk.old) (D.content desk.new) }
    ensures write_fault { result ≡ Status.WriteFault
        → Rose (D.write_faults desk.old) (D.write_faults desk.new) }
    ensures complete { ¬ Rose (D.read_faults desk.old) (D.read_faults desk.new)
        → ¬ Rose (D.write_faults desk.old) (D.write_faults desk.new) → IsFaultless result }
    ensures complete_willing { IsTrue (D.willing desk.old)
        → IfSome (D.content desk.old) (λ c. HasFiles (request_of (map string_bytes words.now)) c.files)
        → IsFaultless result }
    ensures bytes { IsEnding result → IfSome (D.content desk.old)
        (λ c. FilesInBytes (request_of (map string_bytes words.now)) c.files) }
    ensures found { IsEnding result → IsTrue D.strict → IfSome (D.content desk.old)
        (λ c. HasFiles (request_of (map string_bytes words.now)) c.files) }
    ensures never_fewer { D.write_faults desk.old ≤ D.write_faults desk.new }
    ensures stays_willing { StaysWilling (D.willing desk.old) (D.willing desk.new) }
    ensures as_asked { EditsAsAsked (request_of (map string_bytes words.now)) result (D.content desk.old) (D.content desk.new) }
{
    run_words(alloc, words, desk)
}

// The same, said as one.
pub(crate) fn run_words<D: Desk>(alloc: Global, words: &[String], desk: &mut D) -> Status
    ensures { DeskRuns D.Desk (request_of (map string_bytes words.now)) desk.old desk.new result }
{
    match read_words(words) {
        Some(request) => run_request(alloc, desk, request).status(),
        None => say_usage(desk),
    }
}

// Runs the form that is asked for.
fn run_request<D: Desk>(alloc: Global, desk: &mut D, request: Request) -> End
    requires { IsCounted request }
    ensures ends { DeskEnds D.Desk (reading_of (Some (seen request.entry))) desk.old desk.new result }
    ensures reads { result ≡ End.ReadFault → Reads (Some (seen request.entry)) }
{
    match request {
        Request::Edit {
            input,
            script,
            output,
        } => edit(alloc, desk, input, script, output),
        Request::Check { input } => check(alloc, desk, input),
        Request::Gen {
            seed,
            count,
            output,
        } => End::of(generate_file(alloc, desk, seed, count, output)),
        Request::Pack {
            input,
            script,
            patch,
        } => pack(alloc, desk, input, script, patch),
        Request::Apply {
            input,
            patch,
            output,
        } => apply(alloc, desk, input, patch, output),
    }
}

// Says which forms there are.
fn say_usage<D: Desk>(desk: &mut D) -> Status
    ensures { DeskRuns D.Desk None desk.old desk.new result }
{
    match say_all(
        desk,
        b"usage: dgnedit edit IN SCRIPT OUT, check IN, gen SEED COUNT OUT, pack IN SCRIPT PATCH, apply IN PATCH OUT\n",
    ) {
        Ok(()) => Status::Usage,
        Err(stop) => End::Stopped(stop).status(),
    }
}
