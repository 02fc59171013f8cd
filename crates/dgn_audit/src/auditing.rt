ghost use Rattle.std.specs.Prelude.{◌≡◌, IfOk};
ghost use Rattle.elem_index.specs.Design.{elements};
ghost use Rattle.dgn_audit.specs.Findings.{findings};

use crate::finding::Finding;
use crate::reading::read_part;
use crate::reported::Reported;
use level_view::Drawing;
use std::alloc::{AllocError, Global};

/// The elements of the drawing `d` whose stored range, on the file's axes, isn't the hull of their tree, in file order. An
/// error says that there was no memory.
///
/// The hull of a row of points is the least box that holds them, and it has none without points. That of any other leaf of
/// which more than its head is read, and of a B-spline, is its stored range. That of a group is the least box that holds
/// the hulls of its members' trees. A shared cell definition and a loose header have none, nor has a tree whose head is
/// marked deleted. An element without a hull is no finding, nor is one below a header that is marked deleted.
///
/// It takes the time of the drawing, and memory for the findings and for 3278 boxes, whatever the drawing.
pub fn audit(alloc: Global, d: &Drawing<'_>) -> Result<Vec<Finding>, AllocError>
    ensures { IfOk result (λ found. found.items ≡ findings d.now.dim (elements d.now)) }
{
    let mut found = read_part(alloc, d, None, Reported::Differing)?;
    found.reverse();
    Ok(found)
}
