// A copy of a part that is one live element by itself. Its bytes are copied once, and the sums are found once and laid
// there: where one is off the plane, the copy is refused.

ghost use Rattle.std.specs.Prelude.{ℕ, ◌≡◌, ◌+◌, ◌<◌, ◌≤◌, List, ◌++◌, length, map, None, IsTrue, IfErr, OnOk, OnErr};
ghost use Rattle.std.specs.List.{list_all};
ghost use Rattle.std.specs.Option.{option_to_list};
ghost use Rattle.range_code.specs.Plane.{is_on_plane};
ghost use Rattle.dgn_layout.specs.Classes.{class_of};
ghost use Rattle.dgn_layout.specs.Spots.{HoldsPoints, spots_of};
ghost use Rattle.dgn_drawing.specs.Nesting.{flat, forest};
ghost use Rattle.dgn_drawing.specs.Rows.{row_of};
ghost use Rattle.dgn_drawing.specs.Spelling.{spelling};
ghost use Rattle.dgn_drawing.specs.SpotNumbers.{sum_at, number_bytes};
ghost use Rattle.dgn_drawing.specs.Values.{IsShift};
ghost use Rattle.elem_index.specs.Design.{elements};
ghost use Rattle.patch_bytes.specs.Puts.{lay, write};
ghost use Rattle.edit_ops.specs.Causes.{unmovable};
ghost use Rattle.edit_ops.specs.Copying.{tree_copy, copy_cause, IsStopped};
ghost use Rattle.edit_ops.specs.ElementViews.{IsElementView};
ghost use Rattle.edit_ops.specs.Trees.{found_at, live_tree, tree_at};
ghost use Rattle.edit_ops.specs.Rules.{sum_put};

use crate::causes::first::unmovable;
use crate::copies::tree::free_first;
use crate::values::is_shift;
use crate::{Cause, EditFault, ElementView};
use dgn_drawing::{Shift, put_number, sum};
use dgn_layout::{Spot, class};
use level_view::Drawing;

// Appends the bytes of a copy of the part of element n, which is found and is all of its part and live, or says what
// stands against it. Then, and where there is no memory, `out` is as before.
pub fn push_lone_copy(
    d: &Drawing<'_>,
    n: u32,
    found: ElementView,
    by: &Shift,
    out: &mut Vec<u8>,
) -> Result<(), EditFault>
    requires found { IsElementView d.now n found }
    requires part { spelling (flat (tree_at n (forest row_of (elements d.now)))) ≡ found.bytes.now }
    requires live { live_tree (elements d.now) n ≡ option_to_list (found_at (elements d.now) n) }
    ensures copied { OnOk result
        (out.new.items ≡ out.old.items ++ spelling (flat (tree_copy d.now.dim (elements d.now) by.now n))) }
    ensures accepted { OnOk result (copy_cause d.now.dim (elements d.now) by.now n ≡ None) }
    ensures refused { IfErr result (IsStopped (copy_cause d.now.dim (elements d.now) by.now n)) }
    ensures kept { OnErr result (out.new.items ≡ out.old.items) }
{
    d.is_whole();
    if let Some(cause) = unmovable(n, class(found.kind)) {
        return Err(EditFault::Refused(cause));
    }
    is_shift(by);
    let start = out.len();
    out.extend_from_slice(found.bytes)?;
    if !lay_copy(&mut out[start..], d, n, found, by) {
        out.truncate(start);
        return Err(EditFault::Refused(Cause::OffPlane(n)));
    }
    Ok(())
}

// Makes the bytes of such an element those of its copy, and answers whether each sum is on the design plane. Where one
// isn't, some of them are laid.
fn lay_copy(copy: &mut [u8], d: &Drawing<'_>, n: u32, found: ElementView, by: &Shift) -> bool
    requires found { IsElementView d.now n found }
    requires part { spelling (flat (tree_at n (forest row_of (elements d.now)))) ≡ found.bytes.now }
    requires live { live_tree (elements d.now) n ≡ option_to_list (found_at (elements d.now) n) }
    requires movable { unmovable n (class_of found.kind) ≡ None }
    requires same { copy.old ≡ found.bytes.now }
    requires fits { IsShift by.now }
    ensures on_plane { result ≡ list_all (λ s. is_on_plane (sum_at by.now found.entry.bytes.now s))
        (spots_of d.now.dim found.entry.kind found.entry.bytes.now) }
    ensures copied { IsTrue result
        → copy.new ≡ spelling (flat (tree_copy d.now.dim (elements d.now) by.now n)) }
{
    d.is_whole();
    let stays = lay_sums(copy, d, found, by);
    free_first(copy);
    stays
}

// Lays the sums at all spots of an element into as many bytes as it has, and answers whether each is on the design plane.
fn lay_sums(copy: &mut [u8], d: &Drawing<'_>, found: ElementView, by: &Shift) -> bool
    requires holds { HoldsPoints d.now.dim found.kind found.bytes.now (length found.bytes.now) }
    requires same_length { length copy.old ≡ length found.bytes.now }
    ensures on_plane { result ≡ list_all (λ s. is_on_plane (sum_at by.now found.entry.bytes.now s))
        (spots_of d.now.dim found.entry.kind found.entry.bytes.now) }
    ensures laid { IsTrue result → (a : List ℕ) → length a ≡ found.entry.place → write (a ++ copy.old)
        (map (sum_put by.now found.entry.place found.entry.bytes.now) (spots_of d.now.dim found.entry.kind found.entry.bytes.now))
        ≡ a ++ copy.new }
{
    'spots: for spot in found.coordinates(d) {
        if !put_sum(copy, found, spot, by) {
            return false;
        }
    }
    true
}

// Writes the sum at a spot there, and answers whether it is on the design plane. Where it isn't, nothing is written.
fn put_sum(copy: &mut [u8], found: ElementView, spot: Spot, by: &Shift) -> bool
    requires within { spot.at + 4 ≤ length found.bytes.now }
    requires same_length { length copy.old ≡ length found.bytes.now }
    ensures on_plane { result ≡ is_on_plane (sum_at by.now found.entry.bytes.now spot) }
    ensures laid { IsTrue result → copy.new ≡ lay copy.old (record {
      at = spot.at;
      bytes = number_bytes spot (sum_at by.now found.entry.bytes.now spot);
    }) }
{
    match sum(found.bytes, spot, by) {
        Some(number) => {
            put_number(copy, spot, number);
            true
        }
        None => false,
    }
}
