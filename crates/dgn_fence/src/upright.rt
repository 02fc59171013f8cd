// Whether a fence is a rectangle with sides along the axes.

ghost use Rattle.std.specs.Prelude.{◌≡◌};
ghost use Rattle.dgn_fence.specs.Limits.{stands, is_upright};

use plane_geom::Pt;

// Whether these corners are, in order, those of a rectangle with sides along the axes, which may be flat.
pub(crate) fn is_upright(corners: &[Pt]) -> bool
    ensures { result ≡ is_upright corners.now }
{
    match corners {
        [a, b, c, d] => stands(*a, *b, *c, *d) || stands(*b, *c, *d, *a),
        _ => false,
    }
}

// Whether the sides stand upright and lie level in turn, from the one from `a` to `b` on, which stands.
fn stands(a: Pt, b: Pt, c: Pt, d: Pt) -> bool
    ensures { result ≡ stands a b c d }
{
    a.x == b.x && (b.y == c.y && (c.x == d.x && d.y == a.y))
}
