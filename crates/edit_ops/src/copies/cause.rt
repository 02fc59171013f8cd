ghost use Rattle.std.specs.Prelude.{◌≡◌};
ghost use Rattle.std.specs.Option.{option_or};
ghost use Rattle.elem_index.specs.Design.{elements};
ghost use Rattle.edit_ops.specs.Causes.{first_cause};
ghost use Rattle.edit_ops.specs.Written.{lives_of};

use crate::values::same_shift;
use crate::{Cause, Test, first_cause};
use dgn_drawing::Shift;
use level_view::Drawing;

/// What is against moving or copying the live elements of these numbers: Floating or Opaque, where not all coordinates of
/// one are read; or else OffPlane, where one would leave the design plane. Each has the first such number.
pub fn move_cause(d: &Drawing<'_>, live: &[u32], by: &Shift) -> Option<Cause>
    ensures { result ≡ option_or (first_cause d.now.dim Test.Moves (lives_of (elements d.now) live.now))
        (first_cause d.now.dim (Test.StaysOnPlane by.now) (lives_of (elements d.now) live.now)) }
{
    let cause = first_cause(d, live, &Test::Moves);
    if cause.is_some() {
        cause
    } else {
        first_cause(d, live, &leaves(by))
    }
}

// The test of whether elements stay on the plane with this displacement.
fn leaves(by: &Shift) -> Test
    ensures { result ≡ Test.StaysOnPlane by.now }
{
    Test::StaysOnPlane(same_shift(by))
}
