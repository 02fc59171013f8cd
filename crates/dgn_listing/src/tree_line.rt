// What a line of a tree says of an element.

ghost use Rattle.std.specs.Prelude.{◌≡◌, ◌==◌, ◌&&◌, not, is_some, slice_get};
ghost use Rattle.dgn_drawing.specs.Numbering.{mark_of};
ghost use Rattle.dgn_drawing.specs.Rows.{row_of};
ghost use Rattle.elem_index.specs.Design.{elements};
ghost use Rattle.dgn_listing.specs.TreeTexts.{line_at};

use elem_head::head;
use level_view::Drawing;
use nest_tree::Knot;

// What is said of an element: its number, how many headers lie above it, its type and level, what it is
// in its tree, whether it is marked deleted itself, and whether it is an orphan.
#[derive(Clone, Copy)]
pub(crate) struct TreeLine {
    pub(crate) number: u32,
    pub(crate) depth: u32,
    pub(crate) kind: u8,
    pub(crate) level: u8,
    pub(crate) knot: Knot,
    pub(crate) deleted: bool,
    pub(crate) orphan: bool,
}

// What is said of element `n`, where there is one. An orphan is a root other than element 0 that has
// bit C.
pub(crate) fn tree_line(d: &Drawing<'_>, n: u32) -> Option<TreeLine>
    ensures { result ≡ line_at n (slice_get (elements d.now) n) (mark_of row_of (elements d.now) n) }
{
    d.is_whole();
    let bytes = d.element(n)?;
    let depth = d.depth(n)?;
    let knot = d.knot(n)?;
    let parent = d.parent(n)?;
    let head = head(bytes);
    Some(TreeLine {
        number: n,
        depth,
        kind: head.kind,
        level: head.level,
        knot,
        deleted: head.deleted,
        orphan: is_orphan(n, parent, head.cbit),
    })
}

// Whether element `n` is an orphan, by its parent and its bit C.
fn is_orphan(n: u32, parent: Option<u32>, cbit: bool) -> bool
    ensures { result ≡ (not (n == 0) && not (is_some parent) && cbit) }
{
    n != 0 && parent.is_none() && cbit
}
