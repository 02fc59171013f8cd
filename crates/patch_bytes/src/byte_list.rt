// A list of bytes over one vector.

ghost use Rattle.std.specs.Prelude.{◌≡◌, ◌↔◌, ℕ, List, [], ◌∷◌, ◌++◌, length, take, slice_get, nat_eq, IsTrue, OnOk, OnErr};
ghost use Rattle.std.specs.Cmp.{partial_equiv_from_equiv};
ghost use Rattle.std.specs.Cmp.Lexicographic.{pointwise, nat_list_eq_equiv};

use std::alloc::{AllocError, Global};
use std::marker::Model;

/// A list of bytes. A contract sees it as the list of their numbers.
#[derive(Debug, Drop)]
pub struct ByteList {
    kept: Vec<u8>,
}

impl Model for ByteList {
    ghost Value = { List ℕ };

    ghost view = { λ b. b.kept.items };
}

impl ByteList {
    /// A list without bytes. It takes no memory.
    pub fn new(alloc: Global) -> Self
        ensures { result ≡ [] }
    {
        ByteList {
            kept: Vec::new(alloc),
        }
    }

    /// The list of these bytes. It takes no memory, and copies nothing.
    pub fn from_vec(bytes: Vec<u8>) -> Self
        ensures { result ≡ bytes.items }
    {
        ByteList { kept: bytes }
    }

    /// The vector of the bytes. It takes no memory, and copies nothing.
    pub fn into_vec(self) -> Vec<u8>
        ensures { result.items ≡ self }
    {
        self.kept
    }

    /// Adds `v` at the end. Where there is no memory for it, the list stays as it was.
    pub fn push(&mut self, v: u8) -> Result<(), AllocError>
        ensures ok { OnOk result (self.new ≡ self.old ++ v ∷ []) }
        ensures err { OnErr result (self.new ≡ self.old) }
    {
        self.kept.push(v)?;
        Ok(())
    }

    /// Adds the bytes of `other` at the end. Where there is no memory for them, the list stays as it was.
    pub fn push_all(&mut self, other: &ByteList) -> Result<(), AllocError>
        ensures ok { OnOk result (self.new ≡ self.old ++ other.now) }
        ensures err { OnErr result (self.new ≡ self.old) }
    {
        self.kept.extend_from_slice(&other.kept)
    }

    /// The number of bytes.
    pub fn len(&self) -> usize
        ensures { result ≡ length self.now }
    {
        self.kept.len()
    }

    /// Whether there is no byte.
    pub fn is_empty(&self) -> bool
        ensures { IsTrue result ↔ (self.now ≡ []) }
    {
        self.kept.is_empty()
    }

    /// The byte at `i`, counted from 0. At and past the length, and only there, it is None.
    pub fn get(&self, i: usize) -> Option<u8>
        ensures { result ≡ slice_get self.now i }
    {
        self.kept.get(i).copied()
    }

    /// All bytes, borrowed.
    pub fn as_slice(&self) -> &[u8]
        ensures { result.now ≡ self.now }
    {
        self.kept.as_slice()
    }

    /// Drops what stands behind the first `n` bytes. A list of at most `n` bytes stays as it was.
    pub fn truncate(&mut self, n: usize)
        ensures { self.new ≡ take n self.old }
    {
        self.kept.truncate(n);
    }
}

impl PartialEq for ByteList {
    ghost eq = { pointwise nat_eq };

    ghost laws = { partial_equiv_from_equiv nat_list_eq_equiv };

    fn eq(&self, other: &Self) -> bool {
        self.as_slice() == other.as_slice()
    }
}

impl Eq for ByteList {
    ghost laws = { nat_list_eq_equiv };
}
