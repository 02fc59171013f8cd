// Applying a patch file to a design file.

ghost use Rattle.std.specs.Prelude.{◌≤◌, ◌<◌, ◌+◌, ◌^◌, length, Some};
ghost use Rattle.patch_file.specs.PatchView.{all_packed};
ghost use Rattle.dgn_tool.specs.Applied.{entries_outcome};
ghost use Rattle.dgn_tool.specs.Ends.{DeskComes, DeskEnds};
ghost use Rattle.dgn_tool.specs.Outcome.{reading_of};
ghost use Rattle.dgn_tool.specs.Request.{Apply};

use crate::end::End;
use crate::ending::Ending;
use crate::entries::put_entries;
use crate::files::{open_design, read_entries};
use crate::output::file_filled;
use crate::put_end::PutEnd;
use crate::texts::{end_numbered, end_with};
use dgn_desk::{Desk, Stop};
use dgn_drawing::MOST_DESIGN;
use dgn_listing::numbered_line;
use patch_file::PatchEntry;
use std::alloc::Global;

/// Reads and opens IN, reads PATCH, and applies it.
pub fn apply<D: Desk>(alloc: Global, desk: &mut D, input: &str, patch: &str, output: &str) -> End
    ensures { DeskEnds D.Desk (reading_of (Some (Apply input.now patch.now output.now))) desk.old desk.new result }
{
    let design = match open_design(alloc, desk, input) {
        Ok(design) => design,
        Err(end) => return end,
    };
    match read_entries(alloc, desk, patch) {
        Ok(entries) => End::of(apply_entries(
            alloc,
            desk,
            design.body,
            &design.tail,
            &entries,
            output,
        )),
        Err(end) => end,
    }
}

// Puts the entries on the elements, writes OUT, and says how many entries there are.
fn apply_entries<D: Desk>(
    alloc: Global,
    desk: &mut D,
    mut body: Vec<u8>,
    tail: &[u8],
    entries: &[PatchEntry],
    output: &str,
) -> Result<Ending, Stop>
    requires bounded { length body.items + length tail.now ≤ MOST_DESIGN }
    requires counted { length entries.now < 2 ^ 32 }
    ensures { DeskComes D.Desk (entries_outcome body.items tail.now (all_packed entries.now) output.now)
        desk.old desk.new result }
{
    let before = body.len();
    match put_entries(&mut body, tail.len(), entries) {
        Ok(()) => {
            let text = numbered_line(alloc, b"applied ", entries.len() as u64)?;
            file_filled(desk, output, before, &body, tail, &text)
        }
        Err(PutEnd::Refused { number }) => end_numbered(
            alloc,
            desk,
            b"refused entry ",
            number,
            Ending::PatchRefused,
        ),
        Err(PutEnd::TooLong) => end_with(desk, b"too long design\n", Ending::TooLong),
        Err(PutEnd::Memory) => Err(Stop::Memory),
    }
}
