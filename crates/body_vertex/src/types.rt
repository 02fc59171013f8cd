//! The view of an element's points.

ghost use Rattle.std.specs.Prelude.{◌≡◌, ◌+◌, ◌*◌, ◌<◌, ◌≤◌, length, slice_get};
ghost use Rattle.body_vertex.specs.Points.{points_at};

use dgn_words::longs;
use std::marker::Model;

/// The points of an element, borrowed from its bytes. A contract sees the list of its points, each
/// a list of `DIM` coordinates.
#[derive(Debug, Drop)]
pub struct Path<'a, const DIM: usize> {
    bytes: &'a [u8],
    start: usize,
    count: usize,
}

impl<'a, const DIM: usize> Model for Path<'a, DIM> {
    ghost use Rattle.std.specs.Prelude.{◌+◌, ◌*◌, ◌≤◌, List, ℤ, length};
    ghost use Rattle.body_vertex.specs.Points.{points_at};

    ghost Value = { List (List ℤ) };

    ghost view = { λ p. points_at p.count DIM p.bytes.now p.start };

    ghost invariant = { λ p. p.start + 4 * DIM * p.count ≤ length p.bytes.now };
}

impl<'a, const DIM: usize> Path<'a, DIM> {
    // The `count` points that stand side by side in `bytes` from `start` on.
    pub(crate) fn new(bytes: &'a [u8], start: usize, count: usize) -> Self
        requires { start + 4 * DIM * count ≤ length bytes.now }
        ensures { result ≡ points_at count DIM bytes.now start }
    {
        Path {
            bytes,
            start,
            count,
        }
    }

    /// The number of points: 2 for a line, and the count word for any other type.
    pub fn count(&self) -> usize
        ensures { result ≡ length self.now }
    {
        self.count
    }

    /// Point `i`, one coordinate for each axis.
    pub fn point(&self, i: usize) -> [i32; DIM]
        requires { i < length self.now }
        ensures { slice_get self.now i ≡ Some result }
    {
        longs(self.bytes, self.start + 4 * DIM * i)
    }
}
