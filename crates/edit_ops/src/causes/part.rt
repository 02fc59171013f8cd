ghost use Rattle.std.specs.Prelude.{◌≡◌, ◌<◌, slice_get, Some, None, if◌then◌else◌};
ghost use Rattle.dgn_layout.specs.Classes.{class_of, is_silent};
ghost use Rattle.dgn_drawing.specs.Rows.{row_of};
ghost use Rattle.dgn_drawing.specs.Numbering.{root_of};
ghost use Rattle.elem_index.specs.Design.{elements};
ghost use Rattle.edit_ops.specs.Trees.{above_tree};
ghost use Rattle.edit_ops.specs.Causes.{unknown, broken, broken_in, silent, other_axes, too_long, part_cause};
ghost use Rattle.edit_ops.specs.Written.{lives_of};

use crate::causes::first::{cause_against, first_cause};
use crate::{Cause, ElementView, Test, find};
use dgn_drawing::MOST_DESIGN;
use dgn_layout::is_silent;
use level_view::Drawing;

/// Unknown, where the drawing `d` has no element `n`; else None.
pub fn unknown(d: &Drawing<'_>, n: u32) -> Option<Cause>
    ensures { result ≡ unknown n (elements d.now) }
{
    if n < d.count() {
        None
    } else {
        Some(Cause::Unknown(n))
    }
}

/// What keeps the part of element `n`, which there is, from any edit: Broken, with the least broken number of its tree; or
/// Deleted, with the least of it and the headers above it that is marked deleted.
/// `above` has the numbers of these headers.
pub fn part_cause(d: &Drawing<'_>, n: u32, above: &[u32]) -> Option<Cause>
    requires above { lives_of (elements d.now) above.now ≡ above_tree (elements d.now) n }
    ensures { result ≡ part_cause d.now.dim (elements d.now) n }
{
    broken(d, n)
        .or(first_cause(d, above, &Test::NotDeleted))
        .or(cause_against(d, &Test::NotDeleted, n))
}

// The tree that holds element n has a broken number.
fn broken(d: &Drawing<'_>, n: u32) -> Option<Cause>
    ensures { result ≡ broken (broken_in (elements d.now) (root_of row_of (elements d.now) n)) }
{
    let root = d.root(n)?;
    match d.first_broken(root) {
        Some(Some(least)) => Some(Cause::Broken(least)),
        _ => None,
    }
}

/// Dimension, where an edit that is given for `axes` axes isn't for a file of `dim`; else None.
pub fn other_axes(dim: u8, axes: u8) -> Option<Cause>
    ensures { result ≡ other_axes dim axes }
{
    if axes == dim {
        None
    } else {
        Some(Cause::Dimension)
    }
}

/// Opaque, where the class of element `n` is silent; None, where it isn't or there is no such element.
pub fn silent(d: &Drawing<'_>, n: u32) -> Option<Cause>
    ensures { result ≡ silent n (slice_get (elements d.now) n) }
{
    let found = find(d, n)?;
    silent_at(n, found)
}

// Nothing is read of element n, which is found, by its type.
fn silent_at(n: u32, found: ElementView) -> Option<Cause>
    ensures { result ≡ (if is_silent (class_of found.entry.kind) then Some (Cause.Opaque n) else None) }
{
    if is_silent(found.kind) {
        Some(Cause::Opaque(n))
    } else {
        None
    }
}

/// TooLong, where a file of so many bytes is longer than a design file may be; else None.
pub fn too_long(bytes: usize) -> Option<Cause>
    ensures { result ≡ too_long bytes }
{
    if bytes <= MOST_DESIGN {
        None
    } else {
        Some(Cause::TooLong)
    }
}
