// Whether two segments have a point in common.

ghost use Rattle.std.specs.Prelude.{◌≡◌, ◌↔◌, IsTrue};
ghost use Rattle.plane_geom.specs.Turns.{turn};
ghost use Rattle.plane_geom.specs.Segments.{Touch};
ghost use Rattle.plane_geom.specs.Touches.{touches};
ghost use Rattle.plane_geom.specs.Tests.{Split, Overlap, BoxesMeet};

use crate::orientation::side;
use crate::pt::Pt;

/// Whether the closed segments from `p` to `q` and from `r` to `s` have a common point, which need
/// not be one of whole coordinates. A segment may be one point.
#[inline]
pub fn touch(p: Pt, q: Pt, r: Pt, s: Pt) -> bool
    ensures common { IsTrue result ↔ Touch p q r s }
    ensures computed { result ≡ touches p q r s }
{
    if !boxes_meet(p, q, r, s) {
        return false;
    }
    if !splits(p, q, r, s) {
        return false;
    }
    splits(r, s, p, q)
}

// Whether the line through `a` and `b` has not both `p` and `q` strictly on one side.
#[inline]
fn splits(a: Pt, b: Pt, p: Pt, q: Pt) -> bool
    ensures { IsTrue result ↔ Split (turn a b p) (turn a b q) }
{
    let first = side(a, b, p);
    first == 0 || first != side(a, b, q)
}

// Whether the boxes of two segments meet.
#[inline]
fn boxes_meet(p: Pt, q: Pt, r: Pt, s: Pt) -> bool
    ensures { IsTrue result ↔ BoxesMeet p q r s }
{
    if !overlap(p.x, q.x, r.x, s.x) {
        return false;
    }
    overlap(p.y, q.y, r.y, s.y)
}

// Whether two intervals of one axis, each given by its ends in any order, meet.
#[inline]
fn overlap(p: i32, q: i32, r: i32, s: i32) -> bool
    ensures { IsTrue result ↔ Overlap p q r s }
{
    let low = p.min(q).max(r.min(s));
    let high = p.max(q).min(r.max(s));
    low <= high
}
