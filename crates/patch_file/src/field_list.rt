// A list of fields over one vector.

ghost use Rattle.std.specs.Prelude.{◌≡◌, ◌↔◌, List, [], ◌∷◌, ◌++◌, length, map, option_map, slice_get, IsTrue, IfOk, OnOk, OnErr};
ghost use Rattle.patch_file.specs.Exchanges.{Exchange};
ghost use Rattle.patch_file.specs.FieldView.{exchange_of};

use crate::Field;
use std::alloc::{AllocError, Global};
use std::marker::Model;

/// A list of fields. A contract sees it as the list of what they exchange: a place, the bytes that
/// were there, and those that are put there.
#[derive(Debug, Drop)]
pub struct FieldList {
    kept: Vec<Field>,
}

impl Model for FieldList {
    ghost Value = { List Exchange };

    ghost view = { λ f. map exchange_of f.kept.items };
}

impl FieldList {
    /// A list without fields. It takes no memory.
    pub fn new(alloc: Global) -> Self
        ensures { result ≡ [] }
    {
        FieldList {
            kept: Vec::new(alloc),
        }
    }

    // A list without fields that has room for `n` of them.
    pub(crate) fn with_capacity(alloc: Global, n: usize) -> Result<Self, AllocError>
        ensures { IfOk result (λ f. f ≡ []) }
    {
        Ok(FieldList {
            kept: Vec::with_capacity(alloc, n)?,
        })
    }

    /// Adds `v` at the end. Where there is no memory for it, the list stays as it was.
    pub fn push(&mut self, v: Field) -> Result<(), AllocError>
        ensures ok { OnOk result (self.new ≡ self.old ++ exchange_of v ∷ []) }
        ensures err { OnErr result (self.new ≡ self.old) }
    {
        self.kept.push(v)?;
        Ok(())
    }

    /// The number of fields.
    pub fn len(&self) -> usize
        ensures { result ≡ length self.now }
    {
        self.kept.len()
    }

    /// Whether there is no field.
    pub fn is_empty(&self) -> bool
        ensures { IsTrue result ↔ (self.now ≡ []) }
    {
        self.kept.is_empty()
    }

    /// The field at `i`, counted from 0. At and past the length, and only there, it is None.
    pub fn get(&self, i: usize) -> Option<Field>
        ensures { option_map exchange_of result ≡ slice_get self.now i }
    {
        self.kept.get(i).copied()
    }

    /// All fields, borrowed.
    pub fn as_slice(&self) -> &[Field]
        ensures { map exchange_of result.now ≡ self.now }
    {
        self.kept.as_slice()
    }
}
