// Checking that a file is a design file.

ghost use Rattle.std.specs.Prelude.{Some};
ghost use Rattle.dgn_tool.specs.Ends.{DeskEnds};
ghost use Rattle.dgn_tool.specs.Outcome.{reading_of};
ghost use Rattle.dgn_tool.specs.Request.{Check};

use crate::end::End;
use crate::ending::Ending;
use crate::files::{end_bad_design, read_input};
use crate::texts::end_numbered;
use dgn_desk::Desk;
use elem_index::count_elements;
use std::alloc::Global;

/// Reads IN, and says how many elements it has, or what keeps it from being a design file.
pub fn check<D: Desk>(alloc: Global, desk: &mut D, input: &str) -> End
    ensures { DeskEnds D.Desk (reading_of (Some (Check input.now))) desk.old desk.new result }
{
    let bytes = match read_input(alloc, desk, input) {
        Ok(bytes) => bytes,
        Err(end) => return end,
    };
    match count_elements(&bytes) {
        Ok(count) => End::of(end_numbered(alloc, desk, b"elements ", count, Ending::Done)),
        Err(fault) => End::of(end_bad_design(alloc, desk, fault)),
    }
}
