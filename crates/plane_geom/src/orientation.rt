// On which side of a directed line a point lies.

ghost use Rattle.std.specs.Prelude.{◌≡◌, ◌<◌, ◌^◌, ◌-ℤ◌, ◌*ℤ◌, unsigned_abs};
ghost use Rattle.std.specs.Int.{int_signum};
ghost use Rattle.plane_geom.specs.Turns.{turn};

use crate::pt::Pt;

/// On which side of the line from `a` to `b` the point `p` lies: 1 to the left of it, -1 to the
/// right, 0 on the line, or where `a` is `b`. Left and right are as with x to the right and y up.
/// It is the sign of `(b.x-a.x)*(p.y-a.y) - (b.y-a.y)*(p.x-a.x)`, exact for all coordinates.
#[inline]
pub fn side(a: Pt, b: Pt, p: Pt) -> i8
    ensures { result ≡ int_signum (turn a b p) }
{
    order(
        product(step(a.x, b.x), step(a.y, p.y)),
        product(step(a.y, b.y), step(a.x, p.x)),
    )
}

// How far it is from one coordinate to another.
#[inline]
fn step(from: i32, to: i32) -> i64
    ensures difference { result ≡ to -ℤ from }
    ensures small { unsigned_abs result < 2 ^ 32 }
{
    i64::from(to) - i64::from(from)
}

// The product of two such ways.
#[inline]
fn product(a: i64, b: i64) -> i128
    requires first { unsigned_abs a < 2 ^ 32 }
    requires second { unsigned_abs b < 2 ^ 32 }
    ensures { result ≡ a *ℤ b }
{
    i128::from(a) * i128::from(b)
}

// The sign of the difference of two numbers.
#[inline]
fn order(a: i128, b: i128) -> i8
    ensures { result ≡ int_signum (a -ℤ b) }
{
    if a > b {
        1
    } else if a < b {
        -1
    } else {
        0
    }
}
