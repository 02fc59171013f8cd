ghost use Rattle.std.specs.Prelude.{◌≡◌, ◌<◌, length, Some, OnOk};
ghost use Rattle.dgn_drawing.specs.Rows.{row_of};
ghost use Rattle.dgn_drawing.specs.Numbering.{parent_of};
ghost use Rattle.elem_index.specs.Design.{elements};
ghost use Rattle.edit_ops.specs.Trees.{above_tree};
ghost use Rattle.edit_ops.specs.Written.{lives_of};

use level_view::Drawing;
use std::alloc::AllocError;

// The number of the header that element n, which there is, stands below, where it stands below one.
fn header_of(d: &Drawing<'_>, n: u32) -> Option<u32>
    requires { n < length (elements d.now) }
    ensures { Some result ≡ parent_of row_of (elements d.now) n }
{
    let Some(parent) = d.parent(n) else {
        unreachable!()
    };
    parent
}

// Puts the numbers of the headers above element n, which there is, the root first, in the place of what the list holds.
pub fn put_numbers_above(d: &Drawing<'_>, n: u32, above: &mut Vec<u32>) -> Result<(), AllocError>
    requires known { n < length (elements d.now) }
    ensures found { OnOk result (lives_of (elements d.now) above.new.items ≡ above_tree (elements d.now) n) }
{
    above.clear();
    let mut i = n;
    'up: while let Some(header) = header_of(d, i) {
        above.push(header)?;
        i = header;
    }
    above.reverse();
    Ok(())
}
