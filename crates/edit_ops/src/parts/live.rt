ghost use Rattle.std.specs.Prelude.{◌≡◌, ◌<◌, length, map, slice_get, option_map, Some, IfOk, OnOk};
ghost use Rattle.dgn_drawing.specs.Rows.{row_of};
ghost use Rattle.dgn_drawing.specs.Numbering.{mark_of};
ghost use Rattle.elem_index.specs.Design.{elements};
ghost use Rattle.edit_ops.specs.Trees.{live_tree};
ghost use Rattle.edit_ops.specs.Written.{lives_of};

use crate::find;
use level_view::Drawing;
use std::alloc::{AllocError, Global};

/// The number behind the last element of the part of element `n`, which there is: of the element and all below it.
pub fn part_end(d: &Drawing<'_>, n: u32) -> u32
    requires { n < length (elements d.now) }
    ensures { Some result ≡ option_map (λ m. m.end) (mark_of row_of (elements d.now) n) }
{
    let Some((_, end)) = d.span(n) else {
        unreachable!()
    };
    end
}

// Whether element n, which there is, is marked deleted.
fn is_deleted(d: &Drawing<'_>, n: u32) -> bool
    requires known { n < length (elements d.now) }
    ensures { Some result ≡ option_map (λ e. e.deleted) (slice_get (elements d.now) n) }
{
    let Some(found) = find(d, n) else {
        unreachable!()
    };
    found.deleted
}

// The numbers of the live elements of the part of element n.
pub fn live_numbers(alloc: Global, d: &Drawing<'_>, n: u32) -> Result<Vec<u32>, AllocError>
    requires known { n < length (elements d.now) }
    ensures numbers { IfOk result (λ live. live.items ≡ map (λ v. v.number) (live_tree (elements d.now) n)) }
    ensures found { IfOk result (λ live. lives_of (elements d.now) live.items ≡ live_tree (elements d.now) n) }
{
    let mut live = Vec::new(alloc);
    put_live_numbers(d, n, &mut live)?;
    Ok(live)
}

/// Puts the numbers of the live elements of the part of element `n`, in rising order, in the place of what the list holds:
/// of those that neither are marked deleted nor stand below one that is. An error says that there was no memory.
pub fn put_live_numbers(d: &Drawing<'_>, n: u32, live: &mut Vec<u32>) -> Result<(), AllocError>
    requires known { n < length (elements d.now) }
    ensures numbers { OnOk result (live.new.items ≡ map (λ v. v.number) (live_tree (elements d.now) n)) }
    ensures found { OnOk result (lives_of (elements d.now) live.new.items ≡ live_tree (elements d.now) n) }
{
    live.clear();
    let end = part_end(d, n);
    let mut i = n;
    'elements: while i < end {
        if is_deleted(d, i) {
            i = part_end(d, i);
        } else {
            live.push(i)?;
            i += 1;
        }
    }
    Ok(())
}
