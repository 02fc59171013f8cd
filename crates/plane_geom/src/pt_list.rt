// A list of points of the plane over one vector.

ghost use Rattle.std.specs.Prelude.{◌≡◌, ◌↔◌, List, [], ◌∷◌, ◌++◌, length, slice_get, IsTrue, OnOk, OnErr};
ghost use Rattle.std.specs.Cmp.{partial_equiv_from_equiv};
ghost use Rattle.std.specs.Cmp.Lexicographic.{pointwise, lists_equiv};
ghost use Rattle.plane_geom.specs.declared.pt.Pt.{Pt};
ghost use Rattle.plane_geom.specs.Points.{same_point, same_point_equiv};

use crate::pt::Pt;
use std::alloc::{AllocError, Global};
use std::marker::Model;

/// A list of points of the plane, as the corners of a polygon. A contract sees it as the list of those
/// points.
#[derive(Debug, Drop)]
pub struct PtList {
    kept: Vec<Pt>,
}

impl Model for PtList {
    ghost Value = { List Pt };

    ghost view = { λ p. p.kept.items };
}

impl PtList {
    /// A list without points. It takes no memory.
    pub fn new(alloc: Global) -> Self
        ensures { result ≡ [] }
    {
        PtList {
            kept: Vec::new(alloc),
        }
    }

    /// Adds `v` at the end. Where there is no memory for it, the list stays as it was.
    pub fn push(&mut self, v: Pt) -> Result<(), AllocError>
        ensures ok { OnOk result (self.new ≡ self.old ++ v ∷ []) }
        ensures err { OnErr result (self.new ≡ self.old) }
    {
        self.kept.push(v)?;
        Ok(())
    }

    /// The number of points.
    pub fn len(&self) -> usize
        ensures { result ≡ length self.now }
    {
        self.kept.len()
    }

    /// Whether there is no point.
    pub fn is_empty(&self) -> bool
        ensures { IsTrue result ↔ (self.now ≡ []) }
    {
        self.kept.is_empty()
    }

    /// The point at `i`, counted from 0. At and past the length, and only there, it is None.
    pub fn get(&self, i: usize) -> Option<Pt>
        ensures { result ≡ slice_get self.now i }
    {
        self.kept.get(i).copied()
    }

    /// All points, borrowed.
    pub fn as_slice(&self) -> &[Pt]
        ensures { result.now ≡ self.now }
    {
        self.kept.as_slice()
    }
}

impl PartialEq for PtList {
    ghost eq = { pointwise same_point };

    ghost laws = { partial_equiv_from_equiv (lists_equiv same_point_equiv) };

    fn eq(&self, other: &Self) -> bool {
        self.as_slice() == other.as_slice()
    }
}

impl Eq for PtList {
    ghost laws = { lists_equiv same_point_equiv };
}
