// Writing: the file of a drawing with what fills its last block, and a file with a text behind it.

ghost use Rattle.std.specs.Prelude.{◌≡◌, ◌+◌, ◌<◌, ◌≤◌, ◌++◌, length, if◌then◌else◌};
ghost use Rattle.dgn_desk.specs.Desk.{FilesAll};
ghost use Rattle.dgn_desk.specs.Seen.{DeskWrites};
ghost use Rattle.dgn_drawing.specs.Spelling.{spelling};
ghost use Rattle.dgn_session.specs.State.{state_of};
ghost use Rattle.dgn_tool.specs.Ended.{filed_then_said};
ghost use Rattle.dgn_tool.specs.Ends.{DeskComes, status_said};
ghost use Rattle.dgn_tool.specs.Filling.{is_blocks, left_in_block, file_made};

use crate::ending::Ending;
use crate::status::Status;
use crate::texts::end_with;
use dgn_desk::{Desk, Stop, write_file};
use dgn_drawing::MOST_DESIGN;
use dgn_session::Session;

// How many bytes a block has.
const BLOCK: usize = 512;

/// How many zero bytes stand behind the tail, where the elements of the file that was read had `before` bytes and have
/// `now`: where that file is of whole blocks and has a tail, the fewest that make the one that is written so.
pub fn filling_len(before: usize, tail: &[u8], now: usize) -> usize
    requires before { before ≤ MOST_DESIGN }
    requires tail { length tail.now ≤ MOST_DESIGN }
    requires now { now ≤ MOST_DESIGN }
    ensures exact { result ≡ (if is_blocks before tail.now then left_in_block (now + length tail.now) else 0) }
    ensures bounded { result < 512 }
{
    if (before + tail.len()) % BLOCK == 0 && !tail.is_empty() {
        (BLOCK - (now + tail.len()) % BLOCK) % BLOCK
    } else {
        0
    }
}

/// Writes the file of these elements and this tail, and what fills its last block, where the elements of the file that was
/// read had `before` bytes.
pub fn write_filled<D: Desk>(
    desk: &mut D,
    output: &str,
    before: usize,
    body: &[u8],
    tail: &[u8],
) -> Result<(), Stop>
    requires before { before ≤ MOST_DESIGN }
    requires tail { length tail.now ≤ MOST_DESIGN }
    requires now { length body.now ≤ MOST_DESIGN }
    ensures { DeskWrites D.Desk result (FilesAll result output.now (file_made before tail.now body.now)) desk.old desk.new }
{
    let zeros = [0; BLOCK];
    let count = filling_len(before, tail, body.len());
    write_file(desk, output, body, tail, &zeros[..count])
}

/// Writes a file of these bytes, the body, the tail and what fills it, and then ends the run with a text.
pub fn file_and_say<D: Desk>(
    desk: &mut D,
    name: &str,
    body: &[u8],
    tail: &[u8],
    filling: &[u8],
    text: &[u8],
    ending: Ending,
) -> Result<Ending, Stop>
    ensures { DeskComes D.Desk
        (filed_then_said (status_said ending) text.now name.now (body.now ++ (tail.now ++ filling.now)))
        desk.old desk.new result }
{
    write_file(desk, name, body, tail, filling)?;
    end_with(desk, text, ending)
}

/// Writes the file of these elements and this tail, as `write_filled` does, and then says that all is done by this text.
pub fn file_filled<D: Desk>(
    desk: &mut D,
    output: &str,
    before: usize,
    body: &[u8],
    tail: &[u8],
    text: &[u8],
) -> Result<Ending, Stop>
    requires before { before ≤ MOST_DESIGN }
    requires tail { length tail.now ≤ MOST_DESIGN }
    requires now { length body.now ≤ MOST_DESIGN }
    ensures { DeskComes D.Desk
        (filed_then_said Status.Done text.now output.now (file_made before tail.now body.now)) desk.old desk.new result }
{
    let zeros = [0; BLOCK];
    let zero_count = filling_len(before, tail, body.len());
    file_and_say(
        desk,
        output,
        body,
        tail,
        &zeros[..zero_count],
        text,
        Ending::Done,
    )
}

// Writes the drawing of a session, whose elements had `before` bytes when it was opened, and what fills its last block.
pub(crate) fn write_drawing<D: Desk>(
    desk: &mut D,
    output: &str,
    before: usize,
    session: &Session,
) -> Result<(), Stop>
    requires { before ≤ MOST_DESIGN }
    ensures { DeskWrites D.Desk result
        (FilesAll result output.now (file_made before session.now.tail (spelling (state_of session.now).top)))
        desk.old desk.new }
{
    let design = session.design();
    write_filled(desk, output, before, &design.body, &design.tail)
}
