ghost use Rattle.std.specs.Prelude.{◌≡◌, ◌+◌, ◌<◌, ◌≤◌, ◌∷◌, [], ◌++◌, length, map, min, IfOk, OnSome, IfSome, IfNone, IsTrue, IsFalse};
ghost use Rattle.std.specs.List.{AllByRecursion, list_all};
ghost use Rattle.std.specs.Option.{option_to_list};
ghost use Rattle.elem_head.specs.Head.{symbology_of};
ghost use Rattle.dgn_layout.specs.Classes.{class_of};
ghost use Rattle.dgn_layout.specs.Spots.{HoldsPoints, has_spots, spots_of};
ghost use Rattle.elem_index.specs.Design.{elements};
ghost use Rattle.patch_bytes.specs.PatchView.{put_of};
ghost use Rattle.range_code.specs.Plane.{is_on_plane};
ghost use Rattle.dgn_drawing.specs.SpotNumbers.{sum_at, number_bytes};
ghost use Rattle.edit_ops.specs.Causes.{off_plane};
ghost use Rattle.edit_ops.specs.Trees.{found_at};
ghost use Rattle.edit_ops.specs.Rules.{rule_of, sum_put};
ghost use Rattle.edit_ops.specs.Written.{lives_of, live_puts, new_look};
ghost use Rattle.edit_ops.specs.Copying.{AddsUnless};
ghost use Rattle.edit_ops.specs.Putting.{MayBePut, leaving, all_spots};

use crate::{Cause, EditFault, ElementView, find};
use dgn_drawing::{Edit, Shift, SymbChange, bytes_at, sum};
use dgn_layout::Spot;
use elem_head::symb;
use level_view::Drawing;
use patch_bytes::{Patch, PatchList};
use std::alloc::AllocError;

// The bit of an element's second byte that marks it deleted.
const DELETED: u8 = 0x80;

/// Appends what an edit puts into live elements, or into the copies of them, of which `live` has the numbers. The sums of a
/// move and of a copy are made here alone, so it is here that one is found to leave the design plane.
///
/// Refused comes exactly where one does, with OffPlane for the first such element. Then, and where there is no memory,
/// `patches` may have some of it.
pub fn push_live(
    patches: &mut PatchList,
    d: &Drawing<'_>,
    live: &[u32],
    edit: &Edit,
) -> Result<(), EditFault>
    requires readable { AllByRecursion (λ v. MayBePut edit.now v.element) (lives_of (elements d.now) live.now) }
    ensures { AddsUnless (leaving d.now.dim edit.now (lives_of (elements d.now) live.now))
        (live_puts (rule_of d.now.dim edit.now) (lives_of (elements d.now) live.now)) result patches.old patches.new }
{
    make_room(patches, d, live, edit)?;
    'live: for m in live {
        push_patches(patches, d, *m, edit)?;
    }
    Ok(())
}

// Makes room at once for the sums of several live elements that are moved, so that the list doesn't grow by steps. It stays
// as it was.
fn make_room(
    patches: &mut PatchList,
    d: &Drawing<'_>,
    live: &[u32],
    edit: &Edit,
) -> Result<(), AllocError>
    requires readable { AllByRecursion (λ v. MayBePut edit.now v.element) (lives_of (elements d.now) live.now) }
    ensures { patches.new ≡ patches.old }
{
    match edit {
        Edit::Move { .. } if live.len() > 1 => patches.reserve(numbers_in(d, live)),
        _ => Ok(()),
    }
}

// How many coordinate fields the elements of these numbers have, as far as the number goes.
fn numbers_in(d: &Drawing<'_>, live: &[u32]) -> usize
    requires spotted { AllByRecursion (λ v. IsTrue (has_spots (class_of v.element.kind))) (lives_of (elements d.now) live.now) }
    ensures { result ≡ min (length (all_spots d.now.dim (lives_of (elements d.now) live.now))) 18446744073709551615 }
{
    let mut count = 0_usize;
    'live: for m in live {
        count = count.saturating_add(numbers_at(d, *m));
    }
    count
}

// How many coordinate fields element m has, where there is one.
fn numbers_at(d: &Drawing<'_>, m: u32) -> usize
    requires spotted { AllByRecursion (λ v. IsTrue (has_spots (class_of v.element.kind)))
        (option_to_list (found_at (elements d.now) m)) }
    ensures { result ≡ length (all_spots d.now.dim (option_to_list (found_at (elements d.now) m))) }
{
    d.is_whole();
    let Some(found) = find(d, m) else {
        return 0;
    };
    found.coordinates(d).len()
}

// Appends what an edit puts into element m, where there is one, or says that it would leave the plane.
fn push_patches(
    patches: &mut PatchList,
    d: &Drawing<'_>,
    m: u32,
    edit: &Edit,
) -> Result<(), EditFault>
    requires readable { AllByRecursion (λ v. MayBePut edit.now v.element) (option_to_list (found_at (elements d.now) m)) }
    ensures { AddsUnless (leaving d.now.dim edit.now (option_to_list (found_at (elements d.now) m)))
        (live_puts (rule_of d.now.dim edit.now) (option_to_list (found_at (elements d.now) m))) result patches.old patches.new }
{
    d.is_whole();
    let Some(found) = find(d, m) else {
        return Ok(());
    };
    match edit {
        Edit::Move { by, .. } => push_moved(patches, d, m, found, by),
        Edit::Copy { by, .. } => push_moved(patches, d, m, found, by),
        Edit::Sym { change, .. } => {
            patches.push(look_patch(found, change))?;
            Ok(())
        }
        Edit::Delete { .. } => {
            patches.push(mark_patch(found))?;
            Ok(())
        }
        Edit::Append(_) => Ok(()),
    }
}

// Appends the sums at all spots of element m, or says that one leaves the plane.
fn push_moved(
    patches: &mut PatchList,
    d: &Drawing<'_>,
    m: u32,
    found: ElementView,
    by: &Shift,
) -> Result<(), EditFault>
    requires holds { HoldsPoints d.now.dim found.kind found.bytes.now (length found.bytes.now) }
    ensures { AddsUnless
        (off_plane m (list_all (λ s. is_on_plane (sum_at by.now found.entry.bytes.now s)) (spots_of d.now.dim found.entry.kind found.entry.bytes.now)))
        (map (sum_put by.now found.entry.place found.entry.bytes.now) (spots_of d.now.dim found.entry.kind found.entry.bytes.now))
        result patches.old patches.new }
{
    if push_sums(patches, d, found, by)? {
        Ok(())
    } else {
        Err(EditFault::Refused(Cause::OffPlane(m)))
    }
}

// Appends the sums at all spots of an element, and answers whether each is on the design plane. Where one isn't, those
// before it are appended.
fn push_sums(
    patches: &mut PatchList,
    d: &Drawing<'_>,
    found: ElementView,
    by: &Shift,
) -> Result<bool, AllocError>
    requires holds { HoldsPoints d.now.dim found.kind found.bytes.now (length found.bytes.now) }
    ensures on_plane { IfOk result (λ stays. stays ≡ list_all (λ s. is_on_plane (sum_at by.now found.entry.bytes.now s))
        (spots_of d.now.dim found.entry.kind found.entry.bytes.now)) }
    ensures put { IfOk result (λ stays. IsTrue stays → patches.new ≡ patches.old
        ++ map (sum_put by.now found.entry.place found.entry.bytes.now) (spots_of d.now.dim found.entry.kind found.entry.bytes.now)) }
{
    let spots = found.coordinates(d);
    patches.reserve(spots.len())?;
    'spots: for spot in spots {
        let Some(patch) = sum_patch(found, spot, by) else {
            return Ok(false);
        };
        patches.push(patch)?;
    }
    Ok(true)
}

// The sum at a spot, or None exactly where it is off the design plane.
fn sum_patch(found: ElementView, spot: Spot, by: &Shift) -> Option<Patch>
    requires within { spot.at + 4 ≤ length found.bytes.now }
    ensures on { OnSome result (IsTrue (is_on_plane (sum_at by.now found.entry.bytes.now spot))) }
    ensures off { IfNone result (IsFalse (is_on_plane (sum_at by.now found.entry.bytes.now spot))) }
    ensures put { IfSome result
        (λ patch. put_of patch ≡ sum_put by.now found.entry.place found.entry.bytes.now spot) }
{
    let number = sum(found.bytes, spot, by)?;
    Some(number_patch(found, spot, number))
}

/// A number at a spot of an element.
pub fn number_patch(found: ElementView, spot: Spot, number: i32) -> Patch
    requires within { spot.at + 4 ≤ length found.bytes.now }
    ensures { put_of result ≡ record {
      at = found.entry.place + spot.at;
      bytes = number_bytes spot number;
    } }
{
    Patch {
        at: found.place as u32 + spot.at,
        len: 4,
        bytes: bytes_at(spot, number),
    }
}

// The two bytes of an element's look with what is given of another.
fn look_patch(found: ElementView, change: &SymbChange) -> Patch
    requires long_enough { 36 ≤ length found.bytes.now }
    ensures { put_of result ≡ record {
      at = found.entry.place + 34;
      bytes = new_look change.now (symbology_of found.entry.bytes.now);
    } }
{
    let look = symb(found.bytes);
    let style = change.style.unwrap_or(look.style);
    let weight = change.weight.unwrap_or(look.weight);
    let color = change.color.unwrap_or(look.color);
    Patch {
        at: found.place as u32 + 34,
        len: 2,
        bytes: [style + 8 * weight, color, 0, 0],
    }
}

// The type and the deleted bit of an element, with the bit set.
fn mark_patch(found: ElementView) -> Patch
    requires long_enough { 4 ≤ length found.bytes.now }
    ensures { put_of result ≡ record { at = found.entry.place + 1; bytes = (found.entry.kind + 128) ∷ [] } }
{
    Patch {
        at: found.place as u32 + 1,
        len: 1,
        bytes: [found.kind + DELETED, 0, 0, 0],
    }
}
