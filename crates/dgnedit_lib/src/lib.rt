//! The editor as a static library for C, and so as WebAssembly: a run over files that are handed in as bytes.
#![tactic(auto)]

mod ended;
mod given;
mod missing;
mod running;
mod word;

ghost use Rattle.std.specs.Prelude.{◌≡◌, ◌⊎◌, [], None};
ghost use Rattle.dgn_desk.specs.LentDesk.{lent_files};
ghost use Rattle.dgn_tool.specs.Ended.{ended};
ghost use Rattle.dgn_tool.specs.Request.{request_of};
ghost use Rattle.dgn_tool.specs.declared.status.Status.TheVariants as statuses;
ghost use Rattle.dgn_tool.specs.Outcome.{outcome, HasFiles};
ghost use Rattle.dgnedit_lib.specs.Handing.{HandsOut};
ghost use Rattle.dgnedit_lib.specs.Missing.{missing_name};
ghost use Rattle.dgnedit_lib.specs.Words.{bytes_of_words, words_given};

pub use dgn_desk::LentFile;
use dgn_tool::Status;
pub use ended::Ended;
use given::given_words;
use running::run_over;
use std::alloc::Global;
pub use word::Word;

/// Runs the program once with these words, those of its command line, over files that are handed in by name. It reads no
/// other file, and writes none: the text that it says and the file that it writes stand in the two buffers, each where that
/// has room for it; a buffer that is too small stays as it was, and the ending says how many bytes there are.
///
/// The status is the exit number of the program, as are text and file. Where a file isn't handed in that the run comes to
/// read, and only there, it is 5, and the text is the name of the first of these; unless it is 7, where there is no memory
/// and nothing is handed out.
#[unsafe(no_mangle)]
pub extern "C" fn dgnedit_run(
    alloc: Global,
    words: &[Word<'_>],
    files: &[LentFile<'_>],
    text: &mut [u8],
    file: &mut [u8],
) -> Ended
    ensures outcome { ¬ (result.status ≡ 5) → ¬ (result.status ≡ 7)
        → HandsOut (outcome (words_given (bytes_of_words words.now)) (lent_files files.now)) result
        (record { text_before = text.old; text_after = text.new; file_before = file.old; file_after = file.new }) }
    ensures missing { result.status ≡ 5 → HandsOut (ended statuses.ReadFault
        (missing_name (request_of (words_given (bytes_of_words words.now))) (lent_files files.now))) result
        (record { text_before = text.old; text_after = text.new; file_before = file.old; file_after = file.new })
        × ¬ HasFiles (request_of (words_given (bytes_of_words words.now))) (lent_files files.now) }
    ensures absent { ¬ HasFiles (request_of (words_given (bytes_of_words words.now))) (lent_files files.now)
        → (result.status ≡ 5) ⊎ (result.status ≡ 7) }
    ensures memory { result.status ≡ 7 → HandsOut (ended statuses.Memory []) result
        (record { text_before = text.old; text_after = text.new; file_before = file.old; file_after = file.new }) }
{
    match given_words(alloc, words) {
        Ok(words) => run_over(alloc, &words, files, text, file),
        Err(_) => Ended::with_text(Status::Memory, 0),
    }
}

#[cfg(test)]
mod tests;
