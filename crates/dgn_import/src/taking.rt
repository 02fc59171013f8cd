// Which trees of a second drawing are taken.

ghost use Rattle.std.specs.Prelude.{◌≡◌, slice_get, Some};
ghost use Rattle.dgn_drawing.specs.Rows.{row_of};
ghost use Rattle.dgn_drawing.specs.Numbering.{first_broken_of};
ghost use Rattle.elem_index.specs.Design.{elements};
ghost use Rattle.dgn_import.specs.Gathering.{is_drawn, is_unbroken, is_taken};

use dgn_layout::is_silent;
use edit_ops::find;
use level_view::Drawing;

// Whether the tree of root n is taken.
pub(crate) fn is_taken(d: &Drawing<'_>, n: u32) -> bool
    ensures { result ≡ is_taken (elements d.now) n }
{
    if n == 0 {
        return false;
    }
    is_drawn(d, n) && is_unbroken(d, n)
}

// Whether element n is there, isn't silent, and isn't marked deleted.
fn is_drawn(d: &Drawing<'_>, n: u32) -> bool
    ensures { result ≡ is_drawn (slice_get (elements d.now) n) }
{
    match find(d, n) {
        Some(found) => !is_silent(found.kind) && !found.deleted,
        None => false,
    }
}

// Whether element n and what is below it hold no broken number.
fn is_unbroken(d: &Drawing<'_>, n: u32) -> bool
    ensures { result ≡ is_unbroken (first_broken_of row_of (elements d.now) n) }
{
    matches!(d.first_broken(n), Some(None))
}
