ghost use Rattle.std.specs.Prelude.{◌≡◌, ◌+◌, ◌<◌, ◌≤◌, ◌++◌, length, reverse, slice_get, option_map, IfOk, IfErr, IfSome, OnOk, IsErrOf, IsTrue};
ghost use Rattle.std.specs.List.{AllByRecursion};
ghost use Rattle.patch_bytes.specs.PatchView.{put_of};
ghost use Rattle.dgn_layout.specs.Classes.{class_of};
ghost use Rattle.dgn_layout.specs.Spots.{has_spots, HoldsPoints};
ghost use Rattle.range_code.specs.Ranges.{on_axis};
ghost use Rattle.elem_head.specs.Head.{properties_of};
ghost use Rattle.edit_ops.specs.Causes.{says_locked, broken, deleted};
ghost use Rattle.dgn_drawing.specs.Rows.{row_of};
ghost use Rattle.dgn_drawing.specs.Numbering.{first_broken_of};
ghost use Rattle.elem_index.specs.Offsets.{offset_of};
ghost use Rattle.elem_index.specs.Design.{elements};
ghost use Rattle.dgn_audit.specs.Findings.{fitted_in};
ghost use Rattle.dgn_audit.specs.FitCauses.{edit_cause};
ghost use Rattle.dgn_drawing.specs.SpotNumbers.{number_in, range_put, range_puts};
ghost use Rattle.dgn_audit.specs.Fitting.{against, lock_cause, first_locked, tree_cause, apply_fit};
ghost use Rattle.dgn_audit.specs.Planned.{IsFitPlan, IsFitRefused, IsPlanOfRoot, ArePatchesOf, IsCause, IsSpotted};
ghost use Rattle.dgn_audit.specs.Planned.{IsOpenToFit, IsRootOpenToFit};

use crate::finding::Finding;
use crate::fit_cause::FitCause;
use crate::fit_fault::FitFault;
use crate::reading::read_part;
use crate::reported::Reported;
use dgn_drawing::MOST_DESIGN;
use dgn_layout::Spot;
use dgn_words::put_range_long;
use edit_ops::{ElementView, find};
use elem_head::properties;
use level_view::Drawing;
use patch_bytes::{Patch, PatchList};
use range_code::Box3;
use std::alloc::{AllocError, Global};

// The bit of an element's properties that locks it.
const LOCKED: u32 = 8;

// The byte where the high corner of a range begins.
const HIGH: u32 = 16;

/// What a fit of the tree that holds element `n` of the drawing `d` writes.
///
/// The range of each fitted element of that tree, on the file's axes, becomes its hull (`audit`). Fitted are the live
/// elements with a hull that are groups or have their points in a row. The patches are the fields of these ranges, four
/// bytes each and in rising order, with their new bytes, also where these are the old ones.
///
/// Refused comes exactly with the first cause that stands: Unknown; Broken, with the least broken number of the tree;
/// Deleted, where its root is marked deleted; Locked, with the least fitted element that is locked. Memory says that
/// there was none for it; before memory is taken, all but Locked is asked.
///
/// It takes the time of that tree, not of the drawing.
pub fn plan_fit(alloc: Global, d: &Drawing<'_>, n: u32) -> Result<PatchList, FitFault>
    ensures planned { IfOk result (IsFitPlan d.now.dim (elements d.now) n) }
    ensures refused { IfErr result (IsFitRefused (apply_fit d.now.dim (elements d.now) n)) }
    ensures memory { IsErrOf result FitFault.Memory → IsOpenToFit (elements d.now) n }
{
    d.is_whole();
    let Some(root) = d.root(n) else {
        return Err(FitFault::Refused(FitCause::Unknown(n)));
    };
    plan_root(alloc, d, root)
}

// What a fit of the tree of a root writes, or the first cause against it.
fn plan_root(alloc: Global, d: &Drawing<'_>, root: u32) -> Result<PatchList, FitFault>
    requires known { root < length (elements d.now) }
    ensures planned { IfOk result (IsPlanOfRoot d.now.dim (elements d.now) root) }
    ensures refused { IfErr result (IsCause (tree_cause d.now.dim (elements d.now) root)) }
    ensures memory { IsErrOf result FitFault.Memory → IsRootOpenToFit (elements d.now) root }
{
    if let Some(cause) = broken(d, root) {
        return Err(FitFault::Refused(cause));
    }
    if let Some(cause) = deleted(d, root) {
        return Err(FitFault::Refused(cause));
    }
    let fitted = fitted_in(alloc, d, root)?;
    patches_of(alloc, d, fitted)
}

// The tree of a root holds a broken number.
fn broken(d: &Drawing<'_>, root: u32) -> Option<FitCause>
    ensures { option_map edit_cause result ≡ broken (first_broken_of row_of (elements d.now) root) }
{
    match d.first_broken(root) {
        Some(Some(least)) => Some(FitCause::Broken(least)),
        _ => None,
    }
}

// A root is marked deleted.
fn deleted(d: &Drawing<'_>, root: u32) -> Option<FitCause>
    ensures { option_map edit_cause result ≡ against deleted root (slice_get (elements d.now) root) }
{
    let found = find(d, root)?;
    if found.deleted {
        Some(FitCause::Deleted(root))
    } else {
        None
    }
}

// The fitted elements of the part of element `n`, the last one first.
fn fitted_in(alloc: Global, d: &Drawing<'_>, n: u32) -> Result<Vec<Finding>, AllocError>
    requires known { n < length (elements d.now) }
    ensures fitted { IfOk result (λ noted. reverse noted.items ≡ fitted_in d.now.dim (elements d.now) n) }
    ensures spotted { IfOk result (λ noted. AllByRecursion (IsSpotted (elements d.now)) (reverse noted.items)) }
{
    read_part(alloc, d, Some(n), Reported::Fitted)
}

// What is put into fitted elements, of which the last one stands first, or the least of them that is locked.
fn patches_of(
    alloc: Global,
    d: &Drawing<'_>,
    mut fitted: Vec<Finding>,
) -> Result<PatchList, FitFault>
    requires spotted { AllByRecursion (IsSpotted (elements d.now)) (reverse fitted.items) }
    ensures planned { IfOk result (ArePatchesOf d.now.dim (elements d.now) (reverse fitted.items)) }
    ensures refused { IfErr result (IsCause (first_locked (elements d.now) (reverse fitted.items))) }
{
    let mut patches = PatchList::new(alloc);
    'fitted: while let Some(one) = fitted.pop() {
        if let Some(cause) = locked(d, one.number) {
            return Err(FitFault::Refused(cause));
        }
        push_range(&mut patches, d, one.number, one.hull)?;
    }
    Ok(patches)
}

// Element `m`, of which more is read than nothing, is locked.
fn locked(d: &Drawing<'_>, m: u32) -> Option<FitCause>
    requires read { IfSome (slice_get (elements d.now) m) (λ e. IsTrue (has_spots (class_of e.kind))) }
    ensures { option_map edit_cause result ≡ against lock_cause m (slice_get (elements d.now) m) }
{
    d.is_whole();
    let found = find(d, m)?;
    if says_locked(found.bytes) {
        Some(FitCause::Locked(m))
    } else {
        None
    }
}

// Whether an element's properties say that it is locked.
fn says_locked(b: &[u8]) -> bool
    requires { 36 ≤ length b.now }
    ensures { result ≡ says_locked (properties_of b.now) }
{
    (properties(b) >> LOCKED) & 1 == 1
}

// Appends the range of element `m`, which is a box from now on.
fn push_range(
    patches: &mut PatchList,
    d: &Drawing<'_>,
    m: u32,
    hull: Box3,
) -> Result<(), AllocError>
    requires spotted { IfSome (slice_get (elements d.now) m) (λ e. IsTrue (has_spots (class_of e.kind))) }
    requires known { m < length (elements d.now) }
    ensures { OnOk result (patches.new ≡ patches.old ++ range_puts d.now.dim hull (offset_of (elements d.now) m)) }
{
    d.is_whole();
    let Some(found) = find(d, m) else {
        unreachable!()
    };
    push_spots(patches, d, found, hull)
}

// Appends the numbers of a box at the range spots of an element.
fn push_spots(
    patches: &mut PatchList,
    d: &Drawing<'_>,
    found: ElementView,
    hull: Box3,
) -> Result<(), AllocError>
    requires spotted { IsTrue (has_spots (class_of found.kind)) }
    requires holds { HoldsPoints d.now.dim found.kind found.bytes.now (length found.bytes.now) }
    ensures { OnOk result (patches.new ≡ patches.old ++ range_puts d.now.dim hull found.entry.place) }
{
    'spots: for spot in found.coordinates(d) {
        if spot.offset {
            patches.push(range_patch(found.place, spot, hull))?;
        }
    }
    Ok(())
}

// The number of a box at a range spot.
fn range_patch(place: usize, spot: Spot, hull: Box3) -> Patch
    requires offset { IsTrue spot.offset }
    requires bounded { place + spot.at ≤ MOST_DESIGN }
    ensures { put_of result ≡ range_put hull place spot }
{
    let mut bytes = [0; 4];
    put_range_long(&mut bytes, 0, number_at(spot, hull));
    Patch {
        at: place as u32 + spot.at,
        len: 4,
        bytes,
    }
}

// The number of a box at a range spot: of its low corner, which stands before byte 16, or of its high one.
fn number_at(spot: Spot, hull: Box3) -> i32
    ensures { result ≡ number_in hull spot }
{
    if spot.at < HIGH {
        along(hull.lo, spot.axis)
    } else {
        along(hull.hi, spot.axis)
    }
}

// The number of a corner along an axis.
fn along(corner: [i32; 3], axis: u8) -> i32
    ensures { result ≡ on_axis corner axis }
{
    corner.get(usize::from(axis)).copied().unwrap_or(0)
}
