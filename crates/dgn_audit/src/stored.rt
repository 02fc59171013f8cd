// The stored range of an element, and whether two boxes are the same.

ghost use Rattle.std.specs.Prelude.{◌≡◌, ◌≤◌, length};
ghost use Rattle.range_code.specs.Ranges.{range_of};
ghost use Rattle.dgn_audit.specs.Hulls.{on_axes};
ghost use Rattle.dgn_audit.specs.Findings.{same_corner, same_box};

use level_view::Drawing;
use range_code::{Box3, range};

// The range of the element with the bytes `b`, on the file's axes.
pub(crate) fn stored_range(d: &Drawing<'_>, b: &[u8]) -> Box3
    requires long_enough { 36 ≤ length b.now }
    ensures { result ≡ on_axes d.now.dim (range_of b.now) }
{
    let mut stored = range(b);
    if d.dim() == 2 {
        stored.lo[2] = 0;
        stored.hi[2] = 0;
    }
    stored
}

// Whether two boxes are the same.
pub(crate) fn same_box(a: Box3, b: Box3) -> bool
    ensures { result ≡ same_box a b }
{
    same_corner(a.lo, b.lo) && same_corner(a.hi, b.hi)
}

// Whether two corners are the same.
fn same_corner(a: [i32; 3], b: [i32; 3]) -> bool
    ensures { result ≡ same_corner a b }
{
    a[0] == b[0] && (a[1] == b[1] && a[2] == b[2])
}
