// The ends of an item's segments, each with its side of an edge, which two segments share.

ghost use Rattle.std.specs.Prelude.{◌≡◌};
ghost use Rattle.plane_geom.specs.Touches.{touches};
ghost use Rattle.dgn_fence.specs.Ends.{edge_end, IsEnd};

use plane_geom::{Pt, side, touch};

// A point, and on which side of an edge it lies.
#[derive(Clone, Copy)]
pub(crate) struct End {
    point: Pt,
    side: i8,
}

impl End {
    // The point `p` by the edge from `r` to `s`.
    #[inline]
    pub(crate) fn of(r: Pt, s: Pt, p: Pt) -> Self
        ensures { result ≡ edge_end r s p }
    {
        End {
            point: p,
            side: side(r, s, p),
        }
    }

    // Whether the segment from here to `to` touches the edge. Where both lie strictly on one side of its
    // line, nothing more is asked.
    #[inline]
    pub(crate) fn leg_touches(self, to: End, r: Pt, s: Pt) -> bool
        requires from { IsEnd r s self }
        requires to { IsEnd r s to }
        ensures { result ≡ touches self.point to.point r s }
    {
        if self.side != 0 && self.side == to.side {
            return false;
        }
        touch(self.point, to.point, r, s)
    }
}
