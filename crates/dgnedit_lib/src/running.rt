ghost use Rattle.std.specs.Prelude.{◌≡◌, ◌≤◌, ◌⊎◌, [], map, string_bytes, length, Some, None};
ghost use Rattle.std.specs.Option.{option_copied};
ghost use Rattle.dgn_desk.specs.LentDesk.{lent_files};
ghost use Rattle.dgn_tool.specs.Ended.{ended};
ghost use Rattle.dgn_tool.specs.Request.{request_of};
ghost use Rattle.dgn_tool.specs.declared.status.Status.TheVariants as statuses;
ghost use Rattle.dgn_tool.specs.Outcome.{outcome, HasFiles};
ghost use Rattle.dgnedit_lib.specs.Handing.{HandsOut, put_in, text_ended};
ghost use Rattle.dgnedit_lib.specs.Missing.{missing_name};
ghost use Rattle.dgnedit_lib.specs.Writing.{bytes_at, name_written, has_written, last_of_four};

use crate::ended::Ended;
use crate::missing::missing_name;
use dgn_desk::{LentDesk, LentFile};
use dgn_tool::{Status, run};
use std::alloc::Global;

// Runs the program with these words over these files.
pub(crate) fn run_over(
    alloc: Global,
    words: &[String],
    files: &[LentFile<'_>],
    text: &mut [u8],
    file: &mut [u8],
) -> Ended
    ensures outcome { ¬ (result.status ≡ 5) → ¬ (result.status ≡ 7)
        → HandsOut (outcome (map string_bytes words.now) (lent_files files.now)) result
        (record { text_before = text.old; text_after = text.new; file_before = file.old; file_after = file.new }) }
    ensures missing { result.status ≡ 5 → HandsOut (ended statuses.ReadFault
        (missing_name (request_of (map string_bytes words.now)) (lent_files files.now))) result
        (record { text_before = text.old; text_after = text.new; file_before = file.old; file_after = file.new })
        × ¬ HasFiles (request_of (map string_bytes words.now)) (lent_files files.now) }
    ensures absent { ¬ HasFiles (request_of (map string_bytes words.now)) (lent_files files.now)
        → (result.status ≡ 5) ⊎ (result.status ≡ 7) }
    ensures memory { result.status ≡ 7 → HandsOut (ended statuses.Memory []) result
        (record { text_before = text.old; text_after = text.new; file_before = file.old; file_after = file.new }) }
{
    let mut desk = LentDesk::new(alloc, files);
    let status = run(alloc, words, &mut desk);
    match status {
        Status::ReadFault => return tell_missing(alloc, words, &desk, text),
        Status::Memory => return Ended::with_text(status, 0),
        _ => {}
    }
    let ended = Ended::with_text(status, put_in(text, desk.said()));
    match written(words, status, &desk) {
        Some(bytes) => Ended {
            file_length: put_in(file, bytes),
            file_written: true,
            ..ended
        },
        None => ended,
    }
}

// Puts the name of the first file that isn't there of those which a run with these words comes to read into a buffer.
fn tell_missing(alloc: Global, words: &[String], desk: &LentDesk<'_>, text: &mut [u8]) -> Ended
    requires { ¬ HasFiles (request_of (map string_bytes words.now)) desk.now.content.files }
    ensures told { result.status ≡ 5
        → (result ≡ text_ended Status.ReadFault (length (missing_name (request_of (map string_bytes words.now)) desk.now.content.files)))
        × (text.new ≡ put_in (missing_name (request_of (map string_bytes words.now)) desk.now.content.files) text.old) }
    ensures memory { result.status ≡ 7 → (result ≡ text_ended Status.Memory 0) × (text.new ≡ text.old) }
    ensures either { (result.status ≡ 5) ⊎ (result.status ≡ 7) }
{
    match missing_name(alloc, words, desk) {
        Ok(name) => Ended::with_text(Status::ReadFault, put_in(text, &name)),
        Err(_) => Ended::with_text(Status::Memory, 0),
    }
}

// The file that a run with these words wrote which ended so: the one that the last of four words names.
fn written<'a>(words: &[String], status: Status, desk: &'a LentDesk<'_>) -> Option<&'a [u8]>
    ensures { option_copied result
        ≡ bytes_at (name_written (has_written status) (last_of_four (map string_bytes words.now))) desk.now.content.files }
{
    match (words, status) {
        ([_, _, _, output], Status::Done | Status::SomeRefused) => desk.file(output.as_str()),
        _ => None,
    }
}

// Puts bytes into the front of a buffer, where it has room for them; how many bytes there are.
fn put_in(buffer: &mut [u8], bytes: &[u8]) -> usize
    ensures count { result ≡ length bytes.now }
    ensures put { buffer.new ≡ put_in bytes.now buffer.old }
{
    let length = bytes.len();
    if length <= buffer.len() {
        buffer[..length].copy_from_slice(bytes);
    }
    length
}
