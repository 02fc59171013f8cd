ghost use Rattle.std.specs.Prelude.{◌≡◌, ◌≤◌, ◌<◌, ◌+◌, ◌++◌, ◌↔◌, length, vec_len, IfOk, IfErr, IsErrOf, IsNone, IfSome, slice_get, option_map};
ghost use Rattle.dgn_drawing.specs.Spelling.{spell};
ghost use Rattle.elem_index.specs.Offsets.{offset_of, offsets_of};
ghost use Rattle.elem_index.specs.Opened.{opening};
ghost use Rattle.elem_index.specs.Design.{elements, kind_bytes, totals_of, IsWhole};
ghost use Rattle.elem_index.specs.Answers.{HasCount, HasToldFault, TellsOpening, TellsFault};

use crate::beginning::{begins_with_tcb, dimension};
use crate::kind_list::KindList;
use crate::open_fault::OpenFault;
use crate::walk::{count_in, elements_in};
use dgn_drawing::MOST_DESIGN;
use std::alloc::Global;

mod growth;
mod rows;

/// A design file that is open: its dimension, the bytes of its elements, and the bytes behind them.
///
/// Elements are numbered in file order, from 0. Where each one begins is kept beside the bytes, with its type and bit
/// C, and its total where it counts its members.
/// Whoever writes to the body or the tail and changes one of these calls `grow` or `shrink` before any other call.
#[derive(Drop)]
pub struct Design {
    /// The dimension, 2 or 3.
    pub dim: u8,
    /// The elements, one behind the other.
    pub body: Vec<u8>,
    /// What stands behind them: nothing, or bytes that begin with FF FF.
    pub tail: Vec<u8>,
    // The byte at which each element begins.
    kept: Vec<u32>,
    // Type and bit C of each element, and the total of each that counts its members.
    kinds: KindList,
}

/// Opens the bytes of a file.
///
/// NotDesign comes exactly where they don't begin with 08 09 FE 02 or C8 09 FE 02. Cut, Short and Attr
/// come exactly by the first faulty element: one that the file doesn't hold whole, one that ends
/// before its body does, and one with attribute data in a wrong place, in this order.
pub fn read_design(alloc: Global, mut bytes: Vec<u8>) -> Result<Design, OpenFault>
    requires { vec_len bytes ≤ MOST_DESIGN }
    ensures whole { IfOk result IsWhole }
    ensures text { IfOk result (λ d. d.body.items ++ d.tail.items ≡ bytes.items) }
    ensures fault { IfErr result (HasToldFault bytes.items) }
    ensures opening { TellsOpening (opening bytes.items) result }
{
    if !begins_with_tcb(&bytes) {
        return Err(OpenFault::NotDesign);
    }
    let dim = dimension(&bytes);
    let (kept, kinds, end) = elements_in(alloc, &bytes)?;
    match bytes.split_off(end) {
        Ok(tail) => Ok(Design {
            dim,
            body: bytes,
            tail,
            kept,
            kinds,
        }),
        Err(_) => Err(OpenFault::Memory),
    }
}

/// How many elements the bytes of a file have. The faults come exactly where `read_design` gives them.
/// Nothing is kept and no memory is taken, so Memory never comes.
pub fn count_elements(bytes: &[u8]) -> Result<u32, OpenFault>
    requires { length bytes.now ≤ MOST_DESIGN }
    ensures count { IfOk result (HasCount bytes.now) }
    ensures fault { IfErr result (HasToldFault bytes.now) }
    ensures first_fault { IfErr result (TellsFault (opening bytes.now)) }
    ensures memory { IsErrOf result OpenFault.Memory → ⊥ }
{
    if !begins_with_tcb(bytes) {
        return Err(OpenFault::NotDesign);
    }
    count_in(bytes)
}

impl Design {
    /// The number of elements.
    pub fn count(&self) -> u32
        requires { IsWhole self.now }
        ensures { result ≡ length (elements self.now) }
    {
        self.kept.len() as u32
    }

    /// The bytes of element `n`. None exactly where there are no more than `n` elements.
    pub fn element(&self, n: u32) -> Option<&[u8]>
        requires { IsWhole self.now }
        ensures none { IsNone result ↔ (length (elements self.now) ≤ n) }
        ensures bytes { option_map (λ b. b.now) result ≡ option_map spell (slice_get (elements self.now) n) }
    {
        let start = self.offset(n)?;
        let end = self.end_of(n);
        Some(&self.body[start..end])
    }

    /// The byte of the body at which element `n` begins. None exactly where there are no more than `n`
    /// elements.
    pub fn offset(&self, n: u32) -> Option<usize>
        requires { IsWhole self.now }
        ensures none { IsNone result ↔ (length (elements self.now) ≤ n) }
        ensures place { IfSome result (λ at. at ≡ offset_of (elements self.now) n) }
    {
        if n < self.count() {
            Some(self.kept[n as usize] as usize)
        } else {
            None
        }
    }

    // The byte of the body behind element `n`, where there is one.
    fn end_of(&self, n: u32) -> usize
        requires whole { IsWhole self.now }
        requires known { n < length (elements self.now) }
        ensures { result ≡ offset_of (elements self.now) (n + 1) }
    {
        match self.offset(n + 1) {
            Some(next) => next,
            None => self.body.len(),
        }
    }

    /// The byte of the body at which each element begins, in file order.
    pub fn offsets(&self) -> &[u32]
        requires { IsWhole self.now }
        ensures { result.now ≡ offsets_of (elements self.now) }
    {
        self.kept.as_slice()
    }

    /// Type and bit C of each element in one byte, in file order: the type, and 128 more where it has bit C.
    pub fn kind_bytes(&self) -> &[u8]
        requires { IsWhole self.now }
        ensures { result.now ≡ kind_bytes (elements self.now) }
    {
        self.kinds.bytes()
    }

    /// The total of each element that counts its members, in file order.
    pub fn totals(&self) -> &[u16]
        requires { IsWhole self.now }
        ensures { result.now ≡ totals_of (elements self.now) }
    {
        self.kinds.totals()
    }
}
