// What bytes begin with: a TCB, the mark that ends the elements, or an element.

ghost use Rattle.std.specs.Prelude.{◌≡◌, ◌≤◌, length, IfOk, IfErr, IsErr, IsTrue, IsFalse};
ghost use Rattle.elem_head.specs.Head.{size_of};
ghost use Rattle.dgn_drawing.specs.Opening.{is_tcb, dimension};
ghost use Rattle.dgn_drawing.specs.WellFormed.{IsDimension, begins_with_mark};
ghost use Rattle.elem_index.specs.Answers.{BeginsSound, BeginsFaulty, BeginsBare, BeginsNext};

use crate::open_fault::OpenFault;
use dgn_drawing::{BodyFault, check_elem};
use dgn_layout::is_silent;
use elem_head::head;

// The byte of the TCB whose bit 6 says that the file has three dimensions.
const DIMENSION_BYTE: usize = 1214;

// How many bytes say the size of an element.
const HEAD_END: usize = 4;

// Whether the bytes begin as a TCB does.
pub(crate) fn begins_with_tcb(f: &[u8]) -> bool
    ensures { result ≡ is_tcb f.now }
{
    matches!(f, [0x08 | 0xC8, 0x09, 0xFE, 0x02, ..])
}

// Whether the bytes begin with the mark that ends the elements.
fn begins_with_mark(rest: &[u8]) -> bool
    ensures { result ≡ begins_with_mark rest.now }
{
    matches!(rest, [0xFF, 0xFF, ..])
}

// The dimension of the file.
pub(crate) fn dimension(f: &[u8]) -> u8
    ensures { result ≡ dimension f.now }
{
    match f.get(DIMENSION_BYTE) {
        Some(byte) if byte / 64 % 2 == 1 => 3,
        _ => 2,
    }
}

// The size of the sound element that the bytes begin with, which stand at place `at` of a file, or none
// where they begin with the mark that ends the elements.
#[inline(always)]
pub(crate) fn next_size(dim: u8, at: u32, rest: &[u8]) -> Result<Option<usize>, OpenFault>
    requires { IsDimension dim }
    ensures next { IfOk result (BeginsNext dim rest.now) }
    ensures fault { IfErr result (BeginsFaulty dim at rest.now) }
    ensures unmarked { IsErr result → IsFalse (begins_with_mark rest.now) }
{
    if is_bare(rest) {
        Ok(Some(HEAD_END))
    } else if begins_with_mark(rest) {
        Ok(None)
    } else {
        let size = checked_size(dim, at, rest)?;
        Ok(Some(size))
    }
}

// The size of the sound element that the bytes begin with, by all that an element can have wrong.
#[inline(always)]
fn checked_size(dim: u8, at: u32, rest: &[u8]) -> Result<usize, OpenFault>
    requires { IsDimension dim }
    ensures sound { IfOk result (BeginsSound dim rest.now) }
    ensures fault { IfErr result (BeginsFaulty dim at rest.now) }
{
    if rest.len() < HEAD_END {
        return Err(OpenFault::Cut { at });
    }
    let size = size_said(rest);
    if rest.len() < size {
        return Err(OpenFault::Cut { at });
    }
    let (first, _) = rest.split_at(size);
    match check_elem(dim, first) {
        Ok(()) => Ok(size),
        Err(BodyFault::Short) => Err(OpenFault::Short { at }),
        Err(BodyFault::Attr) => Err(OpenFault::Attr { at }),
    }
}

// The size that the head which the bytes begin with says.
#[inline(always)]
pub(crate) fn size_said(rest: &[u8]) -> usize
    requires { 4 ≤ length rest.now }
    ensures { result ≡ size_of rest.now }
{
    HEAD_END + 2 * usize::from(head(rest).words)
}

// Whether the bytes begin with a head that says that nothing follows, of a type of which nothing is read,
// and not with the mark: that is a sound element of four bytes. It is asked first, so that a walk over many
// of them waits for no size to be read.
#[inline(always)]
fn is_bare(rest: &[u8]) -> bool
    ensures bare { IsTrue result → BeginsBare rest.now }
    ensures unmarked { IsTrue result → IsFalse (begins_with_mark rest.now) }
{
    match rest {
        [first, kind, 0, 0, ..] => is_silent(kind % 128) && (*first != 0xFF || *kind != 0xFF),
        _ => false,
    }
}
