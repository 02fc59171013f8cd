// The bounds of points on both axes.

ghost use Rattle.std.specs.Prelude.{◌≡◌, ◌&&◌, ◌||◌, int_lt, int_le};
ghost use Rattle.plane_geom.specs.Turns.{turn};
ghost use Rattle.plane_geom.specs.Touches.{on_one_side};
ghost use Rattle.plane_geom.specs.Boxes.{low_right, high_left, lies_beside};
ghost use Rattle.dgn_fence.specs.Limits.{at, least, greatest, grown, bounds_of, is_held, is_apart, is_enclosed, misses};

use plane_geom::{Pt, side};

// The low and the high corner of a box.
#[derive(Clone, Copy, Debug, PartialEq, Eq)]
pub(crate) struct Bounds {
    pub(crate) low: Pt,
    pub(crate) high: Pt,
}

impl Bounds {
    // The bounds of one point.
    pub(crate) fn at(p: Pt) -> Self
        ensures { result ≡ at p }
    {
        Bounds { low: p, high: p }
    }

    // The bounds of `p` and of all that these hold.
    #[inline]
    pub(crate) fn grown(self, p: Pt) -> Self
        ensures { result ≡ grown self p }
    {
        Bounds {
            low: lesser(self.low, p),
            high: greater(self.high, p),
        }
    }

    // Whether they hold `p`.
    #[inline]
    pub(crate) fn holds(self, p: Pt) -> bool
        ensures { result ≡ is_held self p }
    {
        self.is_in_column(p) && self.is_in_row(p)
    }

    // Whether `p` lies between the left and the right side.
    #[inline]
    fn is_in_column(self, p: Pt) -> bool
        ensures { result ≡ int_le self.low.x p.x && int_le p.x self.high.x }
    {
        self.low.x <= p.x && p.x <= self.high.x
    }

    // Whether `p` lies between the lower and the upper side.
    #[inline]
    fn is_in_row(self, p: Pt) -> bool
        ensures { result ≡ int_le self.low.y p.y && int_le p.y self.high.y }
    {
        self.low.y <= p.y && p.y <= self.high.y
    }

    // Whether they lie apart from `other`: left of it, right of it, below it or above it.
    #[inline]
    #[tactic(auto, unfolding(plane_geom::specs::Boxes::lies_apart))]
    pub(crate) fn is_apart(self, other: Bounds) -> bool
        ensures { result ≡ is_apart self other }
    {
        self.is_left_or_right(other) || self.is_below_or_above(other)
    }

    // Whether they lie left or right of `other`.
    #[inline]
    fn is_left_or_right(self, other: Bounds) -> bool
        ensures { result ≡ int_lt self.high.x other.low.x || int_lt other.high.x self.low.x }
    {
        self.high.x < other.low.x || other.high.x < self.low.x
    }

    // Whether they lie below or above `other`.
    #[inline]
    fn is_below_or_above(self, other: Bounds) -> bool
        ensures { result ≡ int_lt self.high.y other.low.y || int_lt other.high.y self.low.y }
    {
        self.high.y < other.low.y || other.high.y < self.low.y
    }

    // Whether they lie strictly inside `other`.
    #[inline(always)]
    pub(crate) fn is_enclosed(self, other: Bounds) -> bool
        ensures { result ≡ is_enclosed self other }
    {
        self.is_between_sides(other) && self.is_between_levels(other)
    }

    // Whether they lie strictly between the left and the right side of `other`.
    #[inline(always)]
    fn is_between_sides(self, other: Bounds) -> bool
        ensures { result ≡ int_lt other.low.x self.low.x && int_lt self.high.x other.high.x }
    {
        other.low.x < self.low.x && self.high.x < other.high.x
    }

    // Whether they lie strictly between its lower and its upper side.
    #[inline(always)]
    fn is_between_levels(self, other: Bounds) -> bool
        ensures { result ≡ int_lt other.low.y self.low.y && int_lt self.high.y other.high.y }
    {
        other.low.y < self.low.y && self.high.y < other.high.y
    }

    // Whether all segments within them miss the one from `r` to `s`, by its bounds or by its line.
    #[inline(always)]
    pub(crate) fn misses(self, r: Pt, s: Pt) -> bool
        ensures { result ≡ misses self r s }
    {
        self.is_apart(Bounds::at(r).grown(s)) || self.lies_beside(r, s)
    }

    // Whether their corners lie strictly on one side of the line through `r` and `s`.
    #[tactic(auto, unfolding(plane_geom::specs::Boxes::lies_beside))]
    fn lies_beside(self, r: Pt, s: Pt) -> bool
        ensures { result ≡ lies_beside self.low self.high r s }
    {
        on_one_side(r, s, self.low, self.high)
            && on_one_side(r, s, self.low, self.low_right())
            && on_one_side(r, s, self.low, self.high_left())
    }

    // The corner that is low in y alone.
    #[inline]
    fn low_right(self) -> Pt
        ensures { result ≡ low_right self.low self.high }
    {
        Pt {
            x: self.high.x,
            y: self.low.y,
        }
    }

    // The corner that is low in x alone.
    #[inline]
    fn high_left(self) -> Pt
        ensures { result ≡ high_left self.low self.high }
    {
        Pt {
            x: self.low.x,
            y: self.high.y,
        }
    }
}

// Whether `p` and `q` lie strictly on one side of the line through `a` and `b`.
#[inline]
fn on_one_side(a: Pt, b: Pt, p: Pt, q: Pt) -> bool
    ensures { result ≡ on_one_side (turn a b p) (turn a b q) }
{
    let first = side(a, b, p);
    first != 0 && first == side(a, b, q)
}

// The bounds of points, if there are any.
pub(crate) fn bounds_of(points: &[Pt]) -> Option<Bounds>
    ensures { result ≡ bounds_of points.now }
{
    let (first, rest) = points.split_first()?;
    let mut bounds = Bounds::at(*first);
    for point in rest {
        bounds = bounds.grown(*point);
    }
    Some(bounds)
}

// On each axis the lesser number.
#[inline]
fn lesser(p: Pt, q: Pt) -> Pt
    ensures { result ≡ least p q }
{
    Pt {
        x: p.x.min(q.x),
        y: p.y.min(q.y),
    }
}

// On each axis the greater number.
#[inline]
fn greater(p: Pt, q: Pt) -> Pt
    ensures { result ≡ greatest p q }
{
    Pt {
        x: p.x.max(q.x),
        y: p.y.max(q.y),
    }
}
