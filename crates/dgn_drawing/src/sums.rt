ghost use Rattle.std.specs.Prelude.{◌≡◌, ◌+◌, ◌<◌, ◌≤◌, ◌+ℤ◌, length, IsTrue, IfSome, IfNone, IsFalse, OnSome};
ghost use Rattle.std.specs.List.{list_all};
ghost use Rattle.dgn_words.specs.Numbers.{range_long_at};
ghost use Rattle.range_code.specs.Plane.{is_on_plane, IsDisplacement};
ghost use Rattle.range_code.specs.Ranges.{on_axis};
ghost use Rattle.dgn_layout.specs.Spots.{HoldsPoints, spots_of};
ghost use Rattle.dgn_layout.specs.SpotsLeft.{spots_left};
ghost use Rattle.dgn_drawing.specs.WellFormed.{IsDimension};
ghost use Rattle.dgn_drawing.specs.SpotNumbers.{value_at, sum_at, number_bytes};
ghost use Rattle.patch_bytes.specs.Puts.{lay};

use crate::Shift;
use dgn_layout::types::Spots;
use dgn_layout::{Spot, spots};
use dgn_words::{long, put_long, put_range_long, range_long};
use range_code::shifted;

/// The coordinate fields of the element with the bytes `b`, of type `kind`, in a file of dimension `dim`, in the order of
/// its bytes (`dgn_layout::spots`). Nothing is allocated.
pub fn spots_in(dim: u8, kind: u8, b: &[u8]) -> Spots<'_>
    requires dimension { IsDimension dim }
    requires kind { kind < 128 }
    requires holds { HoldsPoints dim kind b.now (length b.now) }
    ensures { spots_left result ≡ spots_of dim kind b.now }
{
    if dim == 2 {
        spots::<2>(kind, b)
    } else {
        spots::<3>(kind, b)
    }
}

/// Whether each coordinate of the element with the bytes `b` stays on the design plane where this displacement
/// is added to it.
pub fn stays_on_plane(dim: u8, kind: u8, b: &[u8], by: &Shift) -> bool
    requires dimension { IsDimension dim }
    requires kind { kind < 128 }
    requires holds { HoldsPoints dim kind b.now (length b.now) }
    ensures { result ≡ list_all (λ s. is_on_plane (sum_at by.now b.now s)) (spots_of dim kind b.now) }
{
    'spots: for spot in spots_in(dim, kind, b) {
        if sum(b, spot, by).is_none() {
            return false;
        }
    }
    true
}

/// The number at a spot with the displacement along its axis added. None exactly where that is off the design
/// plane.
pub fn sum(b: &[u8], spot: Spot, by: &Shift) -> Option<i32>
    requires { spot.at + 4 ≤ length b.now }
    ensures on { OnSome result (IsTrue (is_on_plane (sum_at by.now b.now spot))) }
    ensures off { IfNone result (IsFalse (is_on_plane (sum_at by.now b.now spot))) }
    ensures sum { IfSome result (λ v. v ≡ sum_at by.now b.now spot) }
{
    shifted(value(b, spot), step(by, spot.axis))
}

// How far a displacement goes along an axis.
fn step(by: &Shift, axis: u8) -> i64
    ensures along { result ≡ on_axis by.now.by axis }
    ensures small { IsDisplacement result }
{
    by.by.get(usize::from(axis)).copied().unwrap_or(0)
}

/// The number at a spot of the element with the bytes `b`, in units of resolution.
pub fn value(b: &[u8], spot: Spot) -> i32
    requires { spot.at + 4 ≤ length b.now }
    ensures { result ≡ value_at b.now spot }
{
    let at = spot.at as usize;
    if spot.offset {
        range_long(b, at)
    } else {
        long(b, at)
    }
}

/// The bytes of a number at a spot: those of a range number, or of a coordinate.
pub fn bytes_at(spot: Spot, number: i32) -> [u8; 4]
    ensures { result ≡ number_bytes spot number }
{
    let mut bytes = [0; 4];
    if spot.offset {
        put_range_long(&mut bytes, 0, number);
    } else {
        put_long(&mut bytes, 0, number);
    }
    bytes
}

/// Writes a number at a spot, and leaves every other byte. The four bytes are one move.
pub fn put_number(b: &mut [u8], spot: Spot, number: i32)
    requires { spot.at + 4 ≤ length b.old }
    ensures { b.new ≡ lay b.old (record { at = spot.at; bytes = number_bytes spot number }) }
{
    let at = spot.at as usize;
    if spot.offset {
        put_range_long(b, at, number);
    } else {
        put_long(b, at, number);
    }
}

/// The range number at byte `at`, moved along an axis, along which it stays on the design plane.
pub fn moved_number(b: &[u8], at: u32, axis: u8, by: &Shift) -> i32
    requires long_enough { at + 4 ≤ length b.now }
    requires plane { IsTrue (is_on_plane (range_long_at b.now at +ℤ on_axis by.now.by axis)) }
    ensures { result ≡ range_long_at b.now at +ℤ on_axis by.now.by axis }
{
    let spot = Spot {
        at,
        axis,
        offset: true,
    };
    match sum(b, spot, by) {
        Some(number) => number,
        None => unreachable!(),
    }
}
