// Whether the segments of an item touch the edges of a fence.

ghost use Rattle.std.specs.Prelude.{◌≡◌, Some, map};
ghost use Rattle.plane_geom.specs.Polygons.{edges};
ghost use Rattle.dgn_fence.specs.Segments.{plane_point, segments_of, path_segments, corners_of};
ghost use Rattle.dgn_fence.specs.Taken.{any_touches, touches_fence};
ghost use Rattle.dgn_fence.specs.Limits.{extent_of};
ghost use Rattle.dgn_fence.specs.Outlines.{misses_all};

use crate::bounds::Bounds;
use crate::end::End;
use crate::extent::flat;
use dgn_drawing::types::{Item, ItemBody};
use plane_geom::{Pt, touch};
use range_code::Box3;

// Whether some segment of an item, all of which lie within `around`, touches an edge of the fence with
// these corners.
#[tactic(auto, unfolding(crate::specs::Taken::touches_fence))]
pub(crate) fn touches_fence(corners: &[Pt], item: &Item, around: Bounds) -> bool
    requires { extent_of item.now ≡ Some around }
    ensures { result ≡ touches_fence corners.now (segments_of item.now) }
{
    let Some((first, rest)) = corners.split_first() else {
        return false;
    };
    let mut from = *first;
    for to in rest {
        if touches_edge(item, around, from, *to) {
            return true;
        }
        from = *to;
    }
    touches_edge(item, around, from, *first)
}

// Whether all segments within `around` miss all edges of the fence with these corners, by bounds or by lines.
pub(crate) fn misses_all(corners: &[Pt], around: Bounds) -> bool
    ensures { result ≡ misses_all around corners.now }
{
    let Some((first, rest)) = corners.split_first() else {
        return true;
    };
    let mut from = *first;
    for to in rest {
        if !around.misses(from, *to) {
            return false;
        }
        from = *to;
    }
    around.misses(from, *first)
}

// Whether some of them touches the edge from `r` to `s`. Where they all miss it, none is tried.
#[inline(always)]
fn touches_edge(item: &Item, around: Bounds, r: Pt, s: Pt) -> bool
    requires { extent_of item.now ≡ Some around }
    ensures { result ≡ any_touches (segments_of item.now) (r, s) }
{
    if around.misses(r, s) {
        return false;
    }
    some_touches(item, r, s)
}

// Whether some segment of an item touches the edge.
#[tactic(auto, unfolding(crate::specs::Taken::any_touches))]
fn some_touches(item: &Item, r: Pt, s: Pt) -> bool
    ensures { result ≡ any_touches (segments_of item.now) (r, s) }
{
    match &item.body {
        ItemBody::Path(points) => path_touches(points.as_slice(), item.kind == 6, r, s),
        ItemBody::Text { .. } | ItemBody::Boxed => range_touches(item.range, r, s),
        ItemBody::Cell { .. } | ItemBody::Node(_) | ItemBody::Group => false,
    }
}

// Whether some segment of a path, closed or open, touches the edge.
#[tactic(auto, unfolding(crate::specs::Taken::any_touches))]
fn path_touches(points: &[[i32; 3]], closed: bool, r: Pt, s: Pt) -> bool
    ensures { result ≡ any_touches (path_segments closed (map plane_point points.now)) (r, s) }
{
    let Some((first, rest)) = points.split_first() else {
        return false;
    };
    let closes = closed || rest.is_empty();
    let start = End::of(r, s, flat(*first));
    let mut from = start;
    for point in rest {
        let to = End::of(r, s, flat(*point));
        if from.leg_touches(to, r, s) {
            return true;
        }
        from = to;
    }
    closes && from.leg_touches(start, r, s)
}

// Whether some edge of a range touches the edge.
#[tactic(auto, unfolding(crate::specs::Taken::any_touches))]
fn range_touches(range: Box3, r: Pt, s: Pt) -> bool
    ensures { result ≡ any_touches (edges (corners_of range)) (r, s) }
{
    let [left, bottom, _] = range.lo;
    let [right, top, _] = range.hi;
    let low = Pt { x: left, y: bottom };
    let low_right = Pt {
        x: right,
        y: bottom,
    };
    let high = Pt { x: right, y: top };
    let high_left = Pt { x: left, y: top };
    if touch(low, low_right, r, s) || touch(low_right, high, r, s) {
        return true;
    }
    touch(high, high_left, r, s) || touch(high_left, low, r, s)
}
