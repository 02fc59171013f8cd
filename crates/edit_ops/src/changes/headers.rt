ghost use Rattle.std.specs.Prelude.{◌≡◌, ◌+◌, ◌<◌, ◌≤◌, ◌++◌, length, take, slice_get, None, IfSome, IfErr, OnOk, IsTrue};
ghost use Rattle.std.specs.List.{AllByRecursion, list_all, flat_map};
ghost use Rattle.std.specs.Option.{option_to_list};
ghost use Rattle.range_code.specs.Ranges.{corner_at};
ghost use Rattle.dgn_layout.specs.Classes.{class_of};
ghost use Rattle.dgn_layout.specs.Spots.{HoldsPoints, has_spots};
ghost use Rattle.dgn_drawing.specs.Spelling.{spell};
ghost use Rattle.dgn_drawing.specs.Changes.{displaced};
ghost use Rattle.elem_index.specs.Design.{elements};
ghost use Rattle.patch_bytes.specs.PatchView.{put_of};
ghost use Rattle.range_code.specs.Plane.{is_on_plane};
ghost use Rattle.dgn_drawing.specs.SpotNumbers.{wider};
ghost use Rattle.edit_ops.specs.Causes.{part_cause};
ghost use Rattle.edit_ops.specs.Trees.{found_at, above_tree, live_tree};
ghost use Rattle.edit_ops.specs.Rules.{rule_of, wider_put, wider_puts};
ghost use Rattle.edit_ops.specs.Written.{lives_of, above_puts, part_puts, MayWiden};
ghost use Rattle.edit_ops.specs.Copying.{IsStopped, AddsUnless};
ghost use Rattle.edit_ops.specs.Putting.{MayBePut, leaving};

use crate::{Cause, EditFault, ElementView, find, number_patch, push_live};
use dgn_drawing::{Edit, Shift, moved_number, value, wider};
use dgn_layout::Spot;
use dgn_words::range_long;
use level_view::Drawing;
use patch_bytes::{Patch, PatchList};
use range_code::Box3;
use std::alloc::AllocError;

// Appends what an edit of the part of element n puts into the headers above it and into its live elements, of which
// `above` and `live` have the numbers, or says which of these would leave the design plane.
pub fn push_part(
    patches: &mut PatchList,
    d: &Drawing<'_>,
    n: u32,
    above: &[u32],
    live: &[u32],
    edit: &Edit,
) -> Result<(), EditFault>
    requires known { n < length (elements d.now) }
    requires unkept { part_cause d.now.dim (elements d.now) n ≡ None }
    requires above { lives_of (elements d.now) above.now ≡ above_tree (elements d.now) n }
    requires live { lives_of (elements d.now) live.now ≡ live_tree (elements d.now) n }
    requires widens { MayWiden edit.now (above_tree (elements d.now) n) }
    requires readable { AllByRecursion (λ v. MayBePut edit.now v.element) (live_tree (elements d.now) n) }
    ensures { AddsUnless (leaving d.now.dim edit.now (live_tree (elements d.now) n)) (part_puts (rule_of d.now.dim edit.now) (elements d.now) n)
        result patches.old patches.new }
{
    push_above(patches, d, n, above, edit)?;
    push_live(patches, d, live, edit)
}

// Appends what an edit of the part of element n puts into the headers above it, of which `above` has the numbers. A moved
// element that leaves the plane has no range for them to hold.
fn push_above(
    patches: &mut PatchList,
    d: &Drawing<'_>,
    n: u32,
    above: &[u32],
    edit: &Edit,
) -> Result<(), EditFault>
    requires head { IfSome (slice_get (elements d.now) n) (MayBePut edit.now) }
    requires widens { MayWiden edit.now (lives_of (elements d.now) above.now) }
    ensures put { OnOk result (patches.new ≡ patches.old
        ++ above_puts (rule_of d.now.dim edit.now) (slice_get (elements d.now) n) (lives_of (elements d.now) above.now)) }
    ensures refused { IfErr result
        (IsStopped (leaving d.now.dim edit.now (option_to_list (found_at (elements d.now) n)))) }
{
    d.is_whole();
    if above.is_empty() {
        return Ok(());
    }
    let Edit::Move { by, .. } = edit else {
        return Ok(());
    };
    let Some(head) = find(d, n) else {
        return Ok(());
    };
    if !head.stays_on_plane(d, by) {
        return Err(EditFault::Refused(Cause::OffPlane(n)));
    }
    push_all_wider(patches, d, above, moved_range(d, head.bytes, by))?;
    Ok(())
}

// Appends the range numbers of each of the headers of these numbers made to hold a range too.
fn push_all_wider(
    patches: &mut PatchList,
    d: &Drawing<'_>,
    above: &[u32],
    r: Box3,
) -> Result<(), AllocError>
    requires spotted { AllByRecursion (λ v. IsTrue (has_spots (class_of v.element.kind))) (lives_of (elements d.now) above.now) }
    ensures { OnOk result (patches.new ≡ patches.old
        ++ flat_map (λ v. wider_puts d.now.dim r v.place (spell v.element)) (lives_of (elements d.now) above.now)) }
{
    'above: for m in above {
        push_wider(patches, d, *m, r)?;
    }
    Ok(())
}

// The range of an element with the bytes b, moved by a displacement along the file's axes.
fn moved_range(d: &Drawing<'_>, b: &[u8], by: &Shift) -> Box3
    requires long_enough { 36 ≤ length b.now }
    requires low { IsTrue (list_all is_on_plane (take d.now.dim (displaced (take d.now.dim by.now.by) (corner_at b.now 4)))) }
    requires high { IsTrue (list_all is_on_plane (take d.now.dim (displaced (take d.now.dim by.now.by) (corner_at b.now 16)))) }
    ensures { result ≡ record {
      lo = displaced (take d.now.dim by.now.by) (corner_at b.now 4);
      hi = displaced (take d.now.dim by.now.by) (corner_at b.now 16);
    } }
{
    Box3 {
        lo: moved_corner(d, b, 4, by),
        hi: moved_corner(d, b, 16, by),
    }
}

// The corner at byte `at`, moved along the file's axes, along which it stays on the design plane.
fn moved_corner(d: &Drawing<'_>, b: &[u8], at: u32, by: &Shift) -> [i32; 3]
    requires low { at ≤ 16 }
    requires long_enough { at + 12 ≤ length b.now }
    requires plane { IsTrue (list_all is_on_plane (take d.now.dim (displaced (take d.now.dim by.now.by) (corner_at b.now at)))) }
    ensures { result ≡ displaced (take d.now.dim by.now.by) (corner_at b.now at) }
{
    let dim = d.dim();
    let x = moved_number(b, at, 0, by);
    let y = moved_number(b, at + 4, 1, by);
    if dim == 3 {
        [x, y, moved_number(b, at + 8, 2, by)]
    } else {
        [x, y, range_long(b, at as usize + 8)]
    }
}

// Appends the range numbers of header m, where there is one, made to hold a range too.
fn push_wider(patches: &mut PatchList, d: &Drawing<'_>, m: u32, r: Box3) -> Result<(), AllocError>
    requires spotted { AllByRecursion (λ v. IsTrue (has_spots (class_of v.element.kind)))
        (option_to_list (found_at (elements d.now) m)) }
    ensures { OnOk result (patches.new ≡ patches.old
        ++ flat_map (λ v. wider_puts d.now.dim r v.place (spell v.element)) (option_to_list (found_at (elements d.now) m))) }
{
    d.is_whole();
    let Some(found) = find(d, m) else {
        return Ok(());
    };
    push_range(patches, d, found, r)
}

// Appends the numbers at the range spots of an element, made to hold a range too.
fn push_range(
    patches: &mut PatchList,
    d: &Drawing<'_>,
    found: ElementView,
    r: Box3,
) -> Result<(), AllocError>
    requires spotted { IsTrue (has_spots (class_of found.kind)) }
    requires holds { HoldsPoints d.now.dim found.kind found.bytes.now (length found.bytes.now) }
    ensures { OnOk result (patches.new ≡ patches.old ++ wider_puts d.now.dim r found.entry.place found.entry.bytes.now) }
{
    'spots: for spot in found.coordinates(d) {
        if spot.offset {
            patches.push(wider_patch(found, spot, r))?;
        }
    }
    Ok(())
}

// The number at a range spot, made to hold a range too.
fn wider_patch(found: ElementView, spot: Spot, r: Box3) -> Patch
    requires within { spot.at + 4 ≤ length found.bytes.now }
    ensures { put_of result ≡ wider_put r found.entry.place found.entry.bytes.now spot }
{
    number_patch(found, spot, wider(spot, value(found.bytes, spot), r))
}
