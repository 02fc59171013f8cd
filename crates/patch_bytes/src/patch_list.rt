// A list of patches over one vector.

ghost use Rattle.std.specs.Prelude.{◌≡◌, ◌↔◌, ◌<◌, List, [], ◌∷◌, ◌++◌, length, map, option_map, slice_get, slice_set, IsTrue, OnOk, OnErr};
ghost use Rattle.patch_bytes.specs.Puts.{Put};
ghost use Rattle.patch_bytes.specs.PatchView.{put_of};

use crate::Patch;
use std::alloc::{AllocError, Global};
use std::marker::Model;

/// A list of patches. A contract sees it as the list of what they put: a place, and the bytes there.
#[derive(Debug, Drop)]
pub struct PatchList {
    kept: Vec<Patch>,
}

impl Model for PatchList {
    ghost Value = { List Put };

    ghost view = { λ p. map put_of p.kept.items };
}

impl PatchList {
    /// A list without patches. It takes no memory.
    pub fn new(alloc: Global) -> Self
        ensures { result ≡ [] }
    {
        PatchList {
            kept: Vec::new(alloc),
        }
    }

    /// Makes room for so many patches more. The list stays as it was, also where there is no memory for them.
    pub fn reserve(&mut self, more: usize) -> Result<(), AllocError>
        ensures { self.new ≡ self.old }
    {
        self.kept.reserve(more)
    }

    /// Adds `v` at the end. Where there is no memory for it, the list stays as it was.
    pub fn push(&mut self, v: Patch) -> Result<(), AllocError>
        ensures ok { OnOk result (self.new ≡ self.old ++ put_of v ∷ []) }
        ensures err { OnErr result (self.new ≡ self.old) }
    {
        self.kept.push(v)?;
        Ok(())
    }

    /// Puts `p` at `i`, in place of the patch that stood there. It takes no memory.
    pub fn set(&mut self, i: usize, p: Patch)
        requires { i < length self.old }
        ensures { self.new ≡ slice_set self.old i (put_of p) }
    {
        self.kept[i] = p;
    }

    /// The number of patches.
    pub fn len(&self) -> usize
        ensures { result ≡ length self.now }
    {
        self.kept.len()
    }

    /// Whether there is no patch.
    pub fn is_empty(&self) -> bool
        ensures { IsTrue result ↔ (self.now ≡ []) }
    {
        self.kept.is_empty()
    }

    /// The patch at `i`, counted from 0. At and past the length, and only there, it is None.
    pub fn get(&self, i: usize) -> Option<Patch>
        ensures { option_map put_of result ≡ slice_get self.now i }
    {
        self.kept.get(i).copied()
    }

    /// All patches, borrowed.
    pub fn as_slice(&self) -> &[Patch]
        ensures { map put_of result.now ≡ self.now }
    {
        self.kept.as_slice()
    }
}
