// Displacements.

use dgn_drawing::Shift;

// A displacement in two axes.
pub(crate) fn along(x: i32, y: i32) -> Shift {
    Shift {
        axes: 2,
        by: [i64::from(x), i64::from(y), 0],
    }
}
