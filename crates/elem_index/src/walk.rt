// From element to element through a file.

ghost use Rattle.std.specs.Prelude.{◌≡◌, ◌≤◌, length, true, IfOk, IfErr, IsErrOf};
ghost use Rattle.dgn_drawing.specs.Opening.{is_tcb, dimension};
ghost use Rattle.elem_index.specs.Answers.{Steps, StandsFaulty, HasCount, IsRun, HasToldFault, TellsFault};
ghost use Rattle.elem_index.specs.Opened.{opening};

use crate::beginning::{dimension, next_size};
use crate::kind_byte::{kind_byte, total_said};
use crate::kind_list::KindList;
use crate::open_fault::OpenFault;
use dgn_drawing::MOST_DESIGN;
use std::alloc::Global;

// Where a walk through a file is: at an element's beginning, or where the elements end.
#[derive(Clone, Copy, Drop)]
struct Walk {
    // The dimension of the file.
    dim: u8,
    // The place, counted from the file's first byte.
    at: usize,
}

impl Walk {
    // A walk at the first element of the file.
    fn begin(f: &[u8]) -> Walk
        ensures axes { result.dim ≡ dimension f.now }
        ensures first { result.at ≡ 0 }
    {
        Walk {
            dim: dimension(f),
            at: 0,
        }
    }

    // Gives the place of the sound element that begins here, and steps behind it. None where the elements end: at the
    // mark, or at the end of the file.
    #[inline(always)]
    fn next_place(&mut self, f: &[u8]) -> Result<Option<u32>, OpenFault>
        requires bounded { length f.now ≤ MOST_DESIGN }
        requires axes { self.old.dim ≡ dimension f.now }
        ensures step { IfOk result (Steps f.now self.old.at self.new.at) }
        ensures fault { IfErr result (StandsFaulty f.now self.old.at) }
        ensures axes { self.new.dim ≡ self.old.dim }
    {
        let at = self.at;
        if f.len() <= at {
            return Ok(None);
        }
        let (_, rest) = f.split_at(at);
        let Some(size) = next_size(self.dim, at as u32, rest)? else {
            return Ok(None);
        };
        self.at = at + size;
        Ok(Some(at as u32))
    }
}

// The offsets of all elements of the file, what is kept of each beside, and the byte behind the last one. A head is at
// hand when the walk is at it, so that is the time to keep what the rows want of it.
pub(crate) fn elements_in(alloc: Global, f: &[u8]) -> Result<(Vec<u32>, KindList, usize), OpenFault>
    requires bounded { length f.now ≤ MOST_DESIGN }
    requires tcb { is_tcb f.now ≡ true }
    ensures opens { IfOk result (λ run. IsRun f.now run.0.items run.1.items run.2) }
    ensures fault { IfErr result (HasToldFault f.now) }
    ensures first_fault { IfErr result (TellsFault (opening f.now)) }
{
    let mut walk = Walk::begin(f);
    let mut kept = Vec::new(alloc);
    let mut kinds = KindList::new(alloc);
    'elements: while let Some(at) = walk.next_place(f)? {
        let (_, rest) = f.split_at(at as usize);
        if kept.push(at).is_err() || kinds.push(kind_byte(rest), total_said(rest)).is_err() {
            return Err(OpenFault::Memory);
        }
    }
    Ok((kept, kinds, walk.at))
}

// How many elements the file has.
pub(crate) fn count_in(f: &[u8]) -> Result<u32, OpenFault>
    requires bounded { length f.now ≤ MOST_DESIGN }
    requires tcb { is_tcb f.now ≡ true }
    ensures count { IfOk result (HasCount f.now) }
    ensures fault { IfErr result (HasToldFault f.now) }
    ensures first_fault { IfErr result (TellsFault (opening f.now)) }
    ensures memory { IsErrOf result OpenFault.Memory → ⊥ }
{
    let mut walk = Walk::begin(f);
    let mut count = 0;
    'elements: while walk.next_place(f)?.is_some() {
        count += 1;
    }
    Ok(count)
}
