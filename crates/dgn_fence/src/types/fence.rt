ghost use Rattle.std.specs.Prelude.{◌≡◌, ◌≤◌, List, length, ℕ, IfOk};
ghost use Rattle.std.specs.List.{list_any, list_all};
ghost use Rattle.std.specs.Cmp.{partial_equiv_from_equiv};
ghost use Rattle.std.specs.Cmp.Lexicographic.{pointwise, lists_equiv};
ghost use Rattle.dgn_drawing.specs.WellFormed.{IsDimension};
ghost use Rattle.dgn_drawing.specs.Faults.{HasNoFaultIn};
ghost use Rattle.dgn_drawing.specs.Reading.{element_at};
ghost use Rattle.dgn_drawing.specs.Shown.{its_item};
ghost use Rattle.plane_geom.specs.declared.pt.Pt.{Pt};
ghost use Rattle.plane_geom.specs.Points.{same_point, same_point_equiv};
ghost use Rattle.plane_geom.specs.Boxes.{IsInBox};
ghost use Rattle.dgn_fence.specs.Segments.{segments_of};
ghost use Rattle.dgn_fence.specs.Taken.{begins_within, is_inside, overlaps, parts, takes};
ghost use Rattle.dgn_fence.specs.Limits.{IsFence, bounds_of, extent_of, near_bounds};
ghost use Rattle.dgn_fence.specs.Outlines.{begins_by_bounds, begins_by_edges, untouched_taken};

use crate::bounds::{Bounds, bounds_of};
use crate::edges::{misses_all, touches_fence};
use crate::extent::{extent, first_point, has_part, is_part};
use crate::outline::{Outline, read_outline};
use crate::upright::is_upright;
use dgn_drawing::types::Item;
use dgn_drawing::{Mode, item};
use plane_geom::{Pt, within};
use std::alloc::{AllocError, Global};
use std::marker::Model;

/// A polygon of 3 to 256 corners that takes trees by their items. A contract sees it as the list of its
/// corners, in order.
#[derive(Debug, Drop)]
pub struct Fence {
    corners: Vec<Pt>,
    // The bounds of the corners, outside of which nothing is within and no edge runs.
    bounds: Bounds,
    // Whether they are those of an upright rectangle, which takes at once what lies strictly inside its bounds.
    upright: bool,
}

impl Model for Fence {
    ghost Value = { List Pt };

    ghost view = { λ f. f.corners.items };

    ghost invariant = { λ f. IsFence f.corners.items f.bounds f.upright };
}

impl Fence {
    // The fence with these corners.
    pub(crate) fn of(corners: Vec<Pt>) -> Self
        requires least { 3 ≤ length corners.items }
        requires most { length corners.items ≤ 256 }
        ensures { result ≡ corners.items }
    {
        let Some(bounds) = bounds_of(corners.as_slice()) else {
            unreachable!()
        };
        let upright = is_upright(corners.as_slice());
        Fence {
            corners,
            bounds,
            upright,
        }
    }

    /// Whether the fence takes the items of a tree in `mode`. An item with segments is a part: a path,
    /// and by the edges of its range a text or whatever else is shown by its range alone. Headers are no
    /// parts, and without a part nothing is taken. A part is inside where its first point is within the
    /// fence and it touches no edge; it overlaps where its first point is within the fence or it touches
    /// an edge. Inside takes the items where all parts are inside, Overlap where some part overlaps, Void
    /// where none does.
    pub fn takes(&self, mode: Mode, items: &[Item]) -> bool
        ensures { result ≡ takes mode self.now items.now }
    {
        match mode {
            Mode::Inside => has_part(items) && self.all_inside(items),
            Mode::Overlap => self.some_overlaps(items),
            Mode::Void => has_part(items) && !self.some_overlaps(items),
        }
    }

    /// Whether the fence takes the item of the one element `b`, whose bytes are sound in 2 or 3 dimensions, as `takes`
    /// says. No item is made where the bounds of its segments tell that it touches no edge. Where one is made, there may be
    /// no memory for it.
    pub fn takes_element(
        &self,
        alloc: Global,
        mode: Mode,
        dim: u8,
        b: &[u8],
    ) -> Result<bool, AllocError>
        requires dimension { IsDimension dim }
        requires element { HasNoFaultIn dim b.now }
        ensures { IfOk result
            (λ taken. (number depth : ℕ) → taken ≡ takes mode self.now (its_item dim number depth (element_at dim b.now))) }
    {
        let Some(outline) = read_outline(dim, b) else {
            return Ok(false);
        };
        if let Some(begins) = self.begins_by_bounds(outline) {
            return Ok(untouched_taken(mode, begins));
        }
        self.takes_made(alloc, mode, dim, b)
    }

    // Whether the fence takes the item of such an element, which is made for it. It stands apart, so that the elements
    // of which bounds tell don't pay for it.
    #[inline(never)]
    fn takes_made(&self, alloc: Global, mode: Mode, dim: u8, b: &[u8]) -> Result<bool, AllocError>
        requires dimension { IsDimension dim }
        requires element { HasNoFaultIn dim b.now }
        ensures { IfOk result
            (λ taken. (number depth : ℕ) → taken ≡ takes mode self.now (its_item dim number depth (element_at dim b.now))) }
    {
        match item(alloc, dim, 0, 0, b)? {
            Some(item) => Ok(self.takes(mode, &[item])),
            None => Ok(false),
        }
    }

    // Whether what has that outline begins within the fence, where bounds tell that it touches no edge. Of an
    // upright rectangle they tell it by themselves where they lie strictly inside.
    fn begins_by_bounds(&self, outline: Outline) -> Option<bool>
        requires begins { IsInBox outline.around.low outline.around.high outline.first }
        ensures { result ≡ begins_by_bounds (bounds_of self.now) self.now outline }
    {
        if outline.around.is_apart(self.bounds) {
            return Some(false);
        }
        if self.upright && outline.around.is_enclosed(self.bounds) {
            return Some(true);
        }
        self.begins_by_edges(outline)
    }

    // Whether what has that outline begins within the fence, where its bounds miss all edges.
    #[inline(never)]
    fn begins_by_edges(&self, outline: Outline) -> Option<bool>
        ensures { result ≡ begins_by_edges self.now outline }
    {
        if misses_all(self.corners.as_slice(), outline.around) {
            return Some(within(outline.first, self.corners.as_slice()));
        }
        None
    }

    // Whether all parts of the items are inside.
    fn all_inside(&self, items: &[Item]) -> bool
        ensures { result ≡ list_all (is_inside self.now) (parts items.now) }
    {
        for item in items {
            if is_part(item) && !self.is_inside(item) {
                return false;
            }
        }
        true
    }

    // Whether some part of them overlaps.
    fn some_overlaps(&self, items: &[Item]) -> bool
        ensures { result ≡ list_any (overlaps self.now) (parts items.now) }
    {
        for item in items {
            if self.overlaps(item) {
                return true;
            }
        }
        false
    }

    // Whether the segments of an item are inside.
    #[tactic(auto, using(crate::proofs::FenceMisses::is_far, crate::proofs::FenceMisses::is_near), unfolding(crate::specs::Taken::is_inside))]
    fn is_inside(&self, item: &Item) -> bool
        ensures { result ≡ is_inside self.now (segments_of item.now) }
    {
        let Some(around) = self.near(item) else {
            return false;
        };
        self.begins_within(item) && !touches_fence(self.corners.as_slice(), item, around)
    }

    // Whether they overlap.
    #[tactic(auto, using(crate::proofs::FenceMisses::is_far, crate::proofs::FenceMisses::is_near), unfolding(crate::specs::Taken::overlaps))]
    fn overlaps(&self, item: &Item) -> bool
        ensures { result ≡ overlaps self.now (segments_of item.now) }
    {
        let Some(around) = self.near(item) else {
            return false;
        };
        self.begins_within(item) || touches_fence(self.corners.as_slice(), item, around)
    }

    // The bounds of the segments of an item. None where it has none, or where they lie apart from those of
    // the fence.
    fn near(&self, item: &Item) -> Option<Bounds>
        ensures { result ≡ near_bounds (bounds_of self.now) (extent_of item.now) }
    {
        let around = extent(item)?;
        if around.is_apart(self.bounds) {
            return None;
        }
        Some(around)
    }

    // Whether the first point of an item is within the fence.
    #[tactic(auto, unfolding(crate::specs::Taken::begins_within))]
    fn begins_within(&self, item: &Item) -> bool
        ensures { result ≡ begins_within self.now (segments_of item.now) }
    {
        let Some(start) = first_point(item) else {
            return false;
        };
        self.bounds.holds(start) && within(start, self.corners.as_slice())
    }
}

// Whether a part that touches no edge is taken, by whether it begins within the fence.
fn untouched_taken(mode: Mode, begins: bool) -> bool
    ensures { result ≡ untouched_taken mode begins }
{
    match mode {
        Mode::Inside | Mode::Overlap => begins,
        Mode::Void => !begins,
    }
}

impl PartialEq for Fence {
    ghost eq = { pointwise same_point };

    ghost laws = { partial_equiv_from_equiv (lists_equiv same_point_equiv) };

    fn eq(&self, other: &Self) -> bool {
        self.corners.as_slice() == other.corners.as_slice()
    }
}

impl Eq for Fence {
    ghost laws = { lists_equiv same_point_equiv };
}
