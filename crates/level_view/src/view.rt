// The items of all trees, and of one.

ghost use Rattle.std.specs.Prelude.{◌≡◌, ◌-◌, ◌≤◌, length, IfOk, OnOk};
ghost use Rattle.dgn_drawing.specs.Rows.{row_of};
ghost use Rattle.dgn_drawing.specs.Shown.{shown, tree_shown, IsRoot};
ghost use Rattle.elem_index.specs.Design.{elements};
ghost use Rattle.level_view.specs.Back.{read_back};

use crate::Drawing;
use crate::back::add;
use crate::place::place_of;
use dgn_drawing::Mask;
use dgn_drawing::types::Item;
use std::alloc::{AllocError, Global};

/// The items that the display shows of the drawing `d` under `mask`: those of all roots, in file order.
///
/// A leaf that isn't marked deleted and whose level is in the mask gives its item, where it has one.
/// So does the header of a B-spline, a run of type 24 or 27, and its parts give none. A group that
/// isn't marked deleted, and whose members give at least one item, gives its header's item, whatever
/// the header's level is, and then those of its members. The header of a shared cell definition, a run
/// of type 34, a loose header and a group that is marked deleted give nothing, and neither does what
/// stands below them. An error says that there was no memory.
pub fn show(alloc: Global, d: &Drawing<'_>, mask: Mask) -> Result<Vec<Item>, AllocError>
    ensures { IfOk result (λ found. found.items ≡ shown d.now.dim mask (elements d.now)) }
{
    let mut items = Vec::new(alloc);
    put_between(alloc, d, 0, d.count(), mask, &mut items)?;
    Ok(items)
}

/// The items that the display shows of the tree of the root `n` under `mask`, by the rules of `show`.
/// An error says that there was no memory.
pub fn tree_items(
    alloc: Global,
    d: &Drawing<'_>,
    n: u32,
    mask: Mask,
) -> Result<Vec<Item>, AllocError>
    requires root { IsRoot row_of (elements d.now) n }
    ensures { IfOk result (λ found. found.items ≡ tree_shown d.now.dim mask (elements d.now) n) }
{
    let mut items = Vec::new(alloc);
    tree_items_into(alloc, d, n, mask, &mut items)?;
    Ok(items)
}

/// Puts the items of `tree_items` into `items`, in the place of what stands there, so that one list serves the trees of many
/// roots. Where there is no memory, some items or none stand there.
pub fn tree_items_into(
    alloc: Global,
    d: &Drawing<'_>,
    n: u32,
    mask: Mask,
    items: &mut Vec<Item>,
) -> Result<(), AllocError>
    requires root { IsRoot row_of (elements d.now) n }
    ensures { OnOk result (items.new.items ≡ tree_shown d.now.dim mask (elements d.now) n) }
{
    let Some((first, end)) = d.span(n) else {
        unreachable!()
    };
    put_between(alloc, d, first, end, mask, items)
}

// Puts what the elements from number `first` on and before number `end` show into `items`, in the place of what stands
// there.
//
// They are read from the last one back to the first, since whether a group's header is shown hangs on
// what stands behind it.
fn put_between(
    alloc: Global,
    d: &Drawing<'_>,
    first: u32,
    end: u32,
    mask: Mask,
    items: &mut Vec<Item>,
) -> Result<(), AllocError>
    requires ordered { first ≤ end }
    requires within { end ≤ length (elements d.now) }
    ensures { OnOk result (items.new.items ≡ read_back d.now.dim mask (elements d.now) first (end - first)) }
{
    items.clear();
    for n in (first..end).rev() {
        add(alloc, d, mask, place_of(d, n), items)?;
    }
    items.reverse();
    Ok(())
}
