// Ending a run with a line.

ghost use Rattle.dgn_listing.specs.NumberedLines.{numbered};
ghost use Rattle.dgn_tool.specs.Ended.{ended};
ghost use Rattle.dgn_tool.specs.Ends.{DeskComes, status_said};

use crate::ending::Ending;
use dgn_desk::{Desk, Stop, say_all};
use dgn_listing::numbered_line;
use std::alloc::Global;

/// Ends the run with a line.
pub fn end_with<D: Desk>(desk: &mut D, line: &[u8], ending: Ending) -> Result<Ending, Stop>
    ensures { DeskComes D.Desk (ended (status_said ending) line.now) desk.old desk.new result }
{
    say_all(desk, line)?;
    Ok(ending)
}

/// Ends the run with a line of these words and a number.
pub fn end_numbered<D: Desk>(
    alloc: Global,
    desk: &mut D,
    words: &[u8],
    number: u32,
    ending: Ending,
) -> Result<Ending, Stop>
    ensures { DeskComes D.Desk (ended (status_said ending) (numbered words.now number)) desk.old desk.new result }
{
    let line = numbered_line(alloc, words, u64::from(number))?;
    end_with(desk, &line, ending)
}
