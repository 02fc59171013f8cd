// Numbers of a range that is made to hold another.

ghost use Rattle.std.specs.Prelude.{◌≡◌};
ghost use Rattle.range_code.specs.Ranges.{on_axis};
ghost use Rattle.dgn_drawing.specs.SpotNumbers.{wider};

use dgn_layout::Spot;
use range_code::Box3;

// The byte where the high corner of a range begins.
const HIGH: u32 = 16;

/// A number of a range made to hold a range too: the lesser of the two in the low corner, which stands before byte 16,
/// and else the greater.
pub fn wider(spot: Spot, number: i32, r: Box3) -> i32
    ensures { result ≡ wider r spot number }
{
    if spot.at < HIGH {
        number.min(along(r.lo, spot.axis))
    } else {
        number.max(along(r.hi, spot.axis))
    }
}

// The number of a corner along an axis.
fn along(corner: [i32; 3], axis: u8) -> i32
    ensures { result ≡ on_axis corner axis }
{
    corner.get(usize::from(axis)).copied().unwrap_or(0)
}
