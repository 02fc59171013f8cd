// Whether a point lies within a polygon.

ghost use Rattle.std.specs.Prelude.{◌≡◌};
ghost use Rattle.plane_geom.specs.Polygons.{is_within, passes, rises, leans};

use crate::orientation::side;
use crate::pt::Pt;

/// Whether `p` is within the polygon `poly`: whether the number of its edges that pass to the right
/// of `p` is odd. The edges join each point to the next and the last to the first, so a polygon of one
/// point has one edge and one without points none. An edge passes where its lower end is not above
/// `p`, its upper end is above `p` and `p` lies strictly to the left of it. So a level edge never
/// passes, and a corner counts for the edge of which it is the lower end.
pub fn within(p: Pt, poly: &[Pt]) -> bool
    ensures { result ≡ is_within p poly.now }
{
    let Some((first, rest)) = poly.split_first() else {
        return false;
    };
    let mut count: usize = 0;
    let mut from = *first;
    for to in rest {
        if edge_passes(p, from, *to) {
            count += 1;
        }
        from = *to;
    }
    if edge_passes(p, from, *first) {
        count += 1;
    }
    count % 2 == 1
}

// Whether the edge between `a` and `b` passes to the right of `p`.
fn edge_passes(p: Pt, a: Pt, b: Pt) -> bool
    ensures { result ≡ passes p (a, b) }
{
    edge_rises(p, a, b) || edge_rises(p, b, a)
}

// Whether the edge with the lower end `low` and the upper end `high` passes to the right of `p`.
fn edge_rises(p: Pt, low: Pt, high: Pt) -> bool
    ensures { result ≡ rises p low high }
{
    low.y <= p.y && p.y < high.y && is_left(low, high, p)
}

// Whether `p` lies strictly to the left of the line from `a` to `b`.
fn is_left(a: Pt, b: Pt, p: Pt) -> bool
    ensures { result ≡ leans p a b }
{
    side(a, b, p) > 0
}
