// The hull of a tree, by what its head is.

ghost use Rattle.std.specs.Prelude.{◌≡◌, ◌<◌, ◌≤◌, length, IsTrue, IsFalse, Some};
ghost use Rattle.body_vertex.specs.Points.{points_of};
ghost use Rattle.dgn_layout.specs.Classes.{class_of, is_silent};
ghost use Rattle.dgn_layout.specs.Spots.{HoldsPoints};
ghost use Rattle.dgn_audit.specs.Hulls.{hull_join, is_vertices, points_hull};
ghost use Rattle.dgn_audit.specs.Reading.{with_number, range_read, leaf_read, hull_read, is_fitted_knot};

use crate::stored::stored_range;
use dgn_layout::types::Class;
use dgn_layout::{SHARED_CELL, class, is_silent};
use dgn_words::long;
use edit_ops::ElementView;
use level_view::Drawing;
use nest_tree::Knot;
use range_code::{Box3, join};

// A point of which some numbers have been read; the others are 0.
#[derive(Clone, Copy)]
struct Begun {
    at: [i32; 3],
}

// A point with another number along an axis.
fn with_number(point: Begun, axis: u8, number: i32) -> Begun
    ensures { result.at ≡ with_number point.at axis number }
{
    let [x, y, z] = point.at;
    let at = match axis {
        0 => [number, y, z],
        1 => [x, number, z],
        _ => [x, y, number],
    };
    Begun { at }
}

// The least box that holds a box, if there is one, and a point.
fn with_point(hull: Option<Box3>, point: [i32; 3]) -> Option<Box3>
    ensures { result ≡ hull_join hull (Some (record { lo = point; hi = point })) }
{
    let alone = Box3 {
        lo: point,
        hi: point,
    };
    match hull {
        Some(held) => Some(join(held, alone)),
        None => Some(alone),
    }
}

// The least box that holds the points of an element that has them in a row. In 2D their z numbers are 0.
fn points_hull(d: &Drawing<'_>, view: ElementView) -> Option<Box3>
    requires row { IsTrue (is_vertices (class_of view.kind)) }
    requires holds { HoldsPoints d.now.dim view.kind view.bytes.now (length view.bytes.now) }
    ensures { result ≡ points_hull d.now.dim (points_of d.now.dim view.entry.kind view.entry.bytes.now) }
{
    let dim = d.dim();
    let mut hull = None;
    let mut point = Begun { at: [0; 3] };
    'spots: for spot in view.coordinates(d) {
        if spot.offset {
            continue;
        }
        point = with_number(point, spot.axis, long(view.bytes, spot.at as usize));
        if spot.axis == dim - 1 {
            hull = with_point(hull, point.at);
            point = Begun { at: [0; 3] };
        }
    }
    hull
}

// The stored range on the file's axes, but of a shared cell definition none.
fn range_hull(d: &Drawing<'_>, view: ElementView) -> Option<Box3>
    requires long_enough { 36 ≤ length view.bytes.now }
    ensures { result ≡ range_read d.now.dim view.entry.kind view.entry.bytes.now }
{
    if view.kind == SHARED_CELL {
        None
    } else {
        Some(stored_range(d, view.bytes))
    }
}

// Whether an element has its points in a row.
fn is_vertices(view: ElementView) -> bool
    ensures { result ≡ is_vertices (class_of view.entry.kind) }
{
    matches!(class(view.kind), Class::Vertices)
}

// The hull of a leaf of which more is read than nothing.
fn leaf_hull(d: &Drawing<'_>, view: ElementView) -> Option<Box3>
    requires long_enough { 36 ≤ length view.bytes.now }
    requires holds { IsTrue (is_vertices (class_of view.kind)) → HoldsPoints d.now.dim view.kind view.bytes.now (length view.bytes.now) }
    ensures { result ≡ leaf_read d.now.dim view.entry.kind view.entry.bytes.now }
{
    if is_vertices(view) {
        points_hull(d, view)
    } else {
        range_hull(d, view)
    }
}

// The hull of a tree whose head isn't marked deleted, by what the head is and the box of its members.
pub(crate) fn hull_of(
    d: &Drawing<'_>,
    knot: Knot,
    view: ElementView,
    members: Option<Box3>,
) -> Option<Box3>
    requires long_enough { IsFalse (is_silent (class_of view.kind)) → 36 ≤ length view.bytes.now }
    requires holds { IsTrue (is_vertices (class_of view.kind)) → HoldsPoints d.now.dim view.kind view.bytes.now (length view.bytes.now) }
    ensures { result ≡ hull_read d.now.dim knot view.entry.kind view.entry.bytes.now members }
{
    if is_silent(view.kind) {
        return None;
    }
    match knot {
        Knot::Leaf => leaf_hull(d, view),
        Knot::Group => members,
        Knot::Run => range_hull(d, view),
        Knot::Loose => None,
    }
}

// Whether a range can be fitted: that of a leaf with its points in a row, and that of a group.
pub(crate) fn is_fitted(knot: Knot, view: ElementView) -> bool
    ensures { result ≡ is_fitted_knot knot view.entry.kind }
{
    match knot {
        Knot::Leaf => is_vertices(view),
        Knot::Group => true,
        Knot::Run | Knot::Loose => false,
    }
}
