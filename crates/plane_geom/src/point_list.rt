// A list of points over one vector.

ghost use Rattle.std.specs.Prelude.{◌≡◌, ◌↔◌, ℤ, List, [], ◌∷◌, ◌++◌, length, slice_get, IsTrue, OnOk, OnErr};
ghost use Rattle.std.specs.Ordering.{int_eq};
ghost use Rattle.std.specs.Cmp.{int_eq_equiv, partial_equiv_from_equiv};
ghost use Rattle.std.specs.Cmp.Lexicographic.{pointwise, lists_equiv};

use std::alloc::{AllocError, Global};
use std::marker::Model;

/// A list of points, each with the numbers x, y and z in units of resolution. A contract sees it as
/// the list of those lists of three numbers.
#[derive(Debug, Drop)]
pub struct PointList {
    kept: Vec<[i32; 3]>,
}

impl Model for PointList {
    ghost Value = { List (List ℤ) };

    ghost view = { λ p. p.kept.items };
}

impl PointList {
    /// A list without points. It takes no memory.
    pub fn new(alloc: Global) -> Self
        ensures { result ≡ [] }
    {
        PointList {
            kept: Vec::new(alloc),
        }
    }

    /// Adds `v` at the end. Where there is no memory for it, the list stays as it was.
    pub fn push(&mut self, v: [i32; 3]) -> Result<(), AllocError>
        ensures ok { OnOk result (self.new ≡ self.old ++ v ∷ []) }
        ensures err { OnErr result (self.new ≡ self.old) }
    {
        self.kept.push(v)?;
        Ok(())
    }

    /// The number of points.
    pub fn len(&self) -> usize
        ensures { result ≡ length self.now }
    {
        self.kept.len()
    }

    /// Whether there is no point.
    pub fn is_empty(&self) -> bool
        ensures { IsTrue result ↔ (self.now ≡ []) }
    {
        self.kept.is_empty()
    }

    /// The point at `i`, counted from 0. At and past the length, and only there, it is None.
    pub fn get(&self, i: usize) -> Option<[i32; 3]>
        ensures { result ≡ slice_get self.now i }
    {
        self.kept.get(i).copied()
    }

    /// All points, borrowed.
    pub fn as_slice(&self) -> &[[i32; 3]]
        ensures { result.now ≡ self.now }
    {
        self.kept.as_slice()
    }
}

impl PartialEq for PointList {
    ghost eq = { pointwise (pointwise int_eq) };

    ghost laws = { partial_equiv_from_equiv (lists_equiv (lists_equiv int_eq_equiv)) };

    fn eq(&self, other: &Self) -> bool {
        self.as_slice() == other.as_slice()
    }
}

impl Eq for PointList {
    ghost laws = { lists_equiv (lists_equiv int_eq_equiv) };
}
