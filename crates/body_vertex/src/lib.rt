//! The points of lines, line strings, shapes and curves, read where they stand in the element.
#![tactic(auto)]

ghost use Rattle.std.specs.Prelude.{◌≡◌, ◌⊎◌};
ghost use Rattle.std.specs.Option.{SomeIff};
ghost use Rattle.body_vertex.specs.Points.{points_of, IsPathKind, PointsFit};

use dgn_words::word;
use types::Path;

pub mod types;

// The type of a line.
const LINE: u8 = 3;

// The byte where the points of a line begin.
const LINE_POINTS: usize = 36;

// The byte where the count word of any other type stands.
const COUNT: usize = 36;

// The byte where the points of any other type begin.
const POINTS: usize = 38;

/// The points of an element of type 3, 4, 6 or 11, whose bytes are `b`, in `DIM` axes.
///
/// A line has two points. A line string, a shape and a curve have as many as their count word says,
/// which may be none. None exactly where `b` ends before the last point does.
pub fn path<const DIM: usize>(kind: u8, b: &[u8]) -> Option<Path<'_, DIM>>
    requires dimension { (DIM ≡ 2) ⊎ (DIM ≡ 3) }
    requires kind { IsPathKind kind }
    ensures { SomeIff result (PointsFit DIM kind b.now) (points_of DIM kind b.now) }
{
    let (start, count) = if kind == LINE {
        (LINE_POINTS, 2)
    } else if b.len() < POINTS {
        return None;
    } else {
        (POINTS, usize::from(word(b, COUNT)))
    };
    if b.len() < start + 4 * DIM * count {
        return None;
    }
    Some(Path::new(b, start, count))
}
