// What `select` says: the number of each tree that the fence chooses, and how many there are.

ghost use Rattle.dgn_listing.specs.Lines.{Appends};
ghost use Rattle.dgn_listing.specs.SelectedTexts.{number_line, number_lines, selected_text};

use crate::pieces::{put, put_ending, put_number};
use std::alloc::{AllocError, Global};

/// Appends what `select` says of the trees that are chosen, by the numbers of their first elements: each
/// number on a line, in their order, and `selected K` with how many there are.
///
/// Where there is no memory, `out` has grown by a front of that text.
pub fn write_selected(alloc: Global, out: &mut Vec<u8>, numbers: &[u32]) -> Result<(), AllocError>
    ensures { Appends result (selected_text numbers.now) out.old.items out.new.items }
{
    put_number_lines(out, numbers)?;
    put_ending(out, b"selected", numbers.len())
}

// Appends numbers, each on a line.
fn put_number_lines(out: &mut Vec<u8>, numbers: &[u32]) -> Result<(), AllocError>
    ensures { Appends result (number_lines numbers.now) out.old.items out.new.items }
{
    for n in numbers {
        put_number_line(out, *n)?;
    }
    Ok(())
}

// Appends a line with a number.
fn put_number_line(out: &mut Vec<u8>, n: u32) -> Result<(), AllocError>
    ensures { Appends result (number_line n) out.old.items out.new.items }
{
    put_number(out, u64::from(n))?;
    put(out, b"\n")
}
