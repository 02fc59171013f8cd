// How much the display shows.

ghost use Rattle.std.specs.Prelude.{◌≡◌, length, reverse, IfOk};
ghost use Rattle.dgn_drawing.specs.Shown.{shown};
ghost use Rattle.elem_index.specs.Design.{elements};
ghost use Rattle.level_view.specs.Numbers.{numbers_of};

use crate::Drawing;
use crate::numbering::add_number;
use crate::place::place_of;
use dgn_drawing::Mask;
use std::alloc::{AllocError, Global};

/// How many items the display shows of the drawing `d` under `mask`: as many as `show` gives. No item is made for it.
/// An error says that there was no memory.
pub fn count_shown(alloc: Global, d: &Drawing<'_>, mask: Mask) -> Result<usize, AllocError>
    ensures { IfOk result (λ count. count ≡ length (shown d.now.dim mask (elements d.now))) }
{
    let numbers = numbers_shown(alloc, d, mask)?;
    Ok(numbers.len())
}

// The numbers of the elements whose items are shown, the last one first.
fn numbers_shown(alloc: Global, d: &Drawing<'_>, mask: Mask) -> Result<Vec<u32>, AllocError>
    ensures { IfOk result (λ found. reverse found.items ≡ numbers_of (shown d.now.dim mask (elements d.now))) }
{
    let mut numbers = Vec::new(alloc);
    let end = d.count();
    for n in (0..end).rev() {
        add_number(d.dim(), mask, place_of(d, n), &mut numbers)?;
    }
    Ok(numbers)
}
