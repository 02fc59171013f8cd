//! The range that an element's display header holds, and sums of coordinates on the design plane.
//!
//! Coordinates are whole units of resolution from -2147483648 to 2147483647, the design plane.
#![tactic(auto)]

ghost use Rattle.std.specs.Int.{int_min, int_max};
ghost use Rattle.std.specs.Prelude.{◌≡◌, ◌<◌, ◌≤◌, length, ◌+ℤ◌, IsTrue, IsFalse, OnSome, IfNone, IfSome};
ghost use Rattle.range_code.specs.Plane.{is_on_plane, IsDisplacement};
ghost use Rattle.range_code.specs.Ranges.{range_of, join_of, least_corner, greatest_corner, on_axis};

use dgn_words::range_long;

/// A low and a high corner, each with its numbers for x, y and z.
#[derive(Clone, Copy, Debug, PartialEq, Eq)]
pub struct Box3 {
    /// The low numbers.
    pub lo: [i32; 3],
    /// The high numbers.
    pub hi: [i32; 3],
}

/// The range of the element with the bytes `b`: its low numbers from byte 4, its high numbers from
/// byte 16. Nothing says that a low number is at most the high one.
pub fn range(b: &[u8]) -> Box3
    requires { 36 ≤ length b.now }
    ensures { result ≡ range_of b.now }
{
    Box3 {
        lo: [range_long(b, 4), range_long(b, 8), range_long(b, 12)],
        hi: [range_long(b, 16), range_long(b, 20), range_long(b, 24)],
    }
}

/// The coordinate `v` moved by `d`, or None exactly where that is off the design plane.
pub fn shifted(v: i32, d: i64) -> Option<i32>
    requires { IsDisplacement d }
    ensures on { OnSome result (IsTrue (is_on_plane (v +ℤ d))) }
    ensures off { IfNone result (IsFalse (is_on_plane (v +ℤ d))) }
    ensures sum { IfSome result (λ moved. moved ≡ v +ℤ d) }
{
    i32::try_from(i64::from(v) + d).ok()
}

/// The least box that holds `a` and `b`: on each axis the lesser low number and the greater high one.
pub fn join(a: Box3, b: Box3) -> Box3
    ensures { result ≡ join_of a b }
{
    Box3 {
        lo: least(a.lo, b.lo),
        hi: greatest(a.hi, b.hi),
    }
}

// The least number on each axis.
fn least(a: [i32; 3], b: [i32; 3]) -> [i32; 3]
    ensures { result ≡ least_corner a b }
{
    [lesser(a, b, 0), lesser(a, b, 1), lesser(a, b, 2)]
}

// The greatest number on each axis.
fn greatest(a: [i32; 3], b: [i32; 3]) -> [i32; 3]
    ensures { result ≡ greatest_corner a b }
{
    [greater(a, b, 0), greater(a, b, 1), greater(a, b, 2)]
}

// The lesser number on one axis.
fn lesser(a: [i32; 3], b: [i32; 3], axis: usize) -> i32
    requires { axis < 3 }
    ensures { result ≡ int_min (on_axis a axis) (on_axis b axis) }
{
    a[axis].min(b[axis])
}

// The greater number on one axis.
fn greater(a: [i32; 3], b: [i32; 3], axis: usize) -> i32
    requires { axis < 3 }
    ensures { result ≡ int_max (on_axis a axis) (on_axis b axis) }
{
    a[axis].max(b[axis])
}
