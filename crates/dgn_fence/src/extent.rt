// Where the segments of an item lie and begin.

ghost use Rattle.std.specs.Prelude.{◌≡◌, map, option_map, slice_get};
ghost use Rattle.dgn_fence.specs.Segments.{plane_point, segments_of};
ghost use Rattle.dgn_fence.specs.Taken.{first_point_of, has_some, parts};
ghost use Rattle.dgn_fence.specs.Limits.{bounds_of, extent_of};

use crate::bounds::Bounds;
use dgn_drawing::types::{Item, ItemBody};
use plane_geom::{PointList, Pt};

// The bounds of the segments of an item, if it has any. Those of a path are computed from its points.
pub(crate) fn extent(item: &Item) -> Option<Bounds>
    ensures { result ≡ extent_of item.now }
{
    match &item.body {
        ItemBody::Path(points) => path_bounds(points.as_slice()),
        ItemBody::Text { .. } | ItemBody::Boxed => {
            Some(Bounds::at(flat(item.range.lo)).grown(flat(item.range.hi)))
        }
        ItemBody::Cell { .. } | ItemBody::Node(_) | ItemBody::Group => None,
    }
}

// The first point of an item: where its first segment begins.
pub(crate) fn first_point(item: &Item) -> Option<Pt>
    ensures { result ≡ first_point_of (segments_of item.now) }
{
    match &item.body {
        ItemBody::Path(points) => path_start(points),
        ItemBody::Text { .. } | ItemBody::Boxed => Some(flat(item.range.lo)),
        ItemBody::Cell { .. } | ItemBody::Node(_) | ItemBody::Group => None,
    }
}

// The first point of a path, if it has one.
fn path_start(points: &PointList) -> Option<Pt>
    ensures { result ≡ option_map plane_point (slice_get points.now 0) }
{
    let first = points.get(0)?;
    Some(flat(first))
}

// Whether an item has segments.
pub(crate) fn is_part(item: &Item) -> bool
    ensures { result ≡ has_some (segments_of item.now) }
{
    first_point(item).is_some()
}

// Whether some of the items has.
pub(crate) fn has_part(items: &[Item]) -> bool
    ensures { result ≡ has_some (parts items.now) }
{
    for item in items {
        if is_part(item) {
            return true;
        }
    }
    false
}

// The first two numbers of a point.
#[inline]
pub(crate) fn flat(v: [i32; 3]) -> Pt
    ensures { result ≡ plane_point v }
{
    let [x, y, _] = v;
    Pt { x, y }
}

// The bounds of points, if there are any.
fn path_bounds(points: &[[i32; 3]]) -> Option<Bounds>
    ensures { result ≡ bounds_of (map plane_point points.now) }
{
    let (first, rest) = points.split_first()?;
    let mut bounds = Bounds::at(flat(*first));
    for point in rest {
        bounds = bounds.grown(flat(*point));
    }
    Some(bounds)
}
