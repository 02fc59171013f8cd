// The roots that a fence chooses.

ghost use Rattle.std.specs.Prelude.{ℕ, ◌≡◌, ◌<◌, Some, IfOk, IsFalse};
ghost use Rattle.dgn_drawing.specs.Rows.{row_of};
ghost use Rattle.dgn_drawing.specs.declared.mask.Mask.{Mask};
ghost use Rattle.dgn_drawing.specs.Faults.{HasNoFaultIn};
ghost use Rattle.dgn_drawing.specs.Reading.{element_at};
ghost use Rattle.dgn_drawing.specs.Shown.{tree_shown, shown_alone, IsRoot};
ghost use Rattle.dgn_fence.specs.Selected.{selected};
ghost use Rattle.dgn_fence.specs.Taken.{takes};
ghost use Rattle.elem_index.specs.Design.{elements};
ghost use Rattle.dgn_session.specs.Selecting.{HasNone};

use dgn_drawing::types::Item;
use dgn_drawing::{Mask, Mode};
use dgn_fence::types::Fence;
use edit_ops::part_end;
use elem_head::head;
use level_view::{Drawing, lone_element, tree_items_into};
use std::alloc::{AllocError, Global};

/// The numbers of the roots, in file order, whose items under the mask the fence takes in this mode (`dgn_fence`). The items
/// of one header at a time are made, in one list for all. An error says that there was no memory.
pub fn select(
    alloc: Global,
    d: &Drawing<'_>,
    mask: Mask,
    fence: &Fence,
    mode: Mode,
) -> Result<Vec<u32>, AllocError>
    ensures { IfOk result (λ found. found.items ≡ selected d.now.dim mask fence.now mode (elements d.now)) }
{
    let mut found = Vec::new(alloc);
    let mut items = Vec::new(alloc);
    let count = d.count();
    let mut root = 0;
    'roots: while root < count {
        let taken = takes_root(alloc, d, root, mask, fence, mode, &mut items)?;
        if taken {
            found.push(root)?;
        }
        root = part_end(d, root);
    }
    Ok(found)
}

// Whether the fence takes what the tree of a root shows. The items of a header are put into `items`, in the place of
// what stands there, but for where an overlap is needed and no element of the tree has one. A leaf is asked by its bytes.
fn takes_root(
    alloc: Global,
    d: &Drawing<'_>,
    root: u32,
    mask: Mask,
    fence: &Fence,
    mode: Mode,
    items: &mut Vec<Item>,
) -> Result<bool, AllocError>
    requires root { IsRoot row_of (elements d.now) root }
    ensures { IfOk result
        (λ taken. taken ≡ takes mode fence.now (tree_shown d.now.dim mask (elements d.now) root)) }
{
    if let Some(b) = lone_element(d, root) {
        return takes_lone(alloc, d, b, mask, fence, mode);
    }
    let needs_overlap = matches!(mode, Mode::Inside | Mode::Overlap);
    if needs_overlap && !some_overlaps(alloc, d, root, fence)? {
        return Ok(false);
    }
    tree_items_into(alloc, d, root, mask, items)?;
    Ok(fence.takes(mode, items))
}

// Whether some element of the tree of a root, shown or not, overlaps the fence by itself. Where none does, no part of what
// the tree shows is inside or overlaps.
fn some_overlaps(
    alloc: Global,
    d: &Drawing<'_>,
    root: u32,
    fence: &Fence,
) -> Result<bool, AllocError>
    requires root { IsRoot row_of (elements d.now) root }
    ensures none { IfOk result (λ some. IsFalse some → (mask : Mask) → HasNone fence.now (tree_shown d.now.dim mask (elements d.now) root)) }
{
    d.is_whole();
    let end = part_end(d, root);
    'elements: for n in root..end {
        let Some(b) = d.element(n) else {
            unreachable!()
        };
        if fence.takes_element(alloc, Mode::Overlap, d.dim(), b)? {
            return Ok(true);
        }
    }
    Ok(false)
}

// Whether the fence takes what the element `b` shows by itself.
fn takes_lone(
    alloc: Global,
    d: &Drawing<'_>,
    b: &[u8],
    mask: Mask,
    fence: &Fence,
    mode: Mode,
) -> Result<bool, AllocError>
    requires element { HasNoFaultIn d.now.dim b.now }
    ensures { IfOk result
        (λ taken. (number depth : ℕ) → taken ≡ takes mode fence.now (shown_alone d.now.dim mask number depth (element_at d.now.dim b.now))) }
{
    let head = head(b);
    if head.deleted || !mask.shows(head.level) {
        return Ok(false);
    }
    fence.takes_element(alloc, mode, d.dim(), b)
}
