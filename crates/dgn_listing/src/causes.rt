// What an edit says that is refused: one line with the cause.

ghost use Rattle.dgn_listing.specs.Lines.{Appends};
ghost use Rattle.dgn_listing.specs.CauseTexts.{refused_text, cause_text};

use crate::pieces::{put, put_number};
use edit_ops::Cause;
use std::alloc::{AllocError, Global};

/// Appends what an edit says that is refused with the cause `c`: `refused`, the cause in one word, and
/// the number of the element where the cause has one.
///
/// Where there is no memory, `out` has grown by a front of that text.
pub fn write_cause(alloc: Global, out: &mut Vec<u8>, c: &Cause) -> Result<(), AllocError>
    ensures { Appends result (cause_text c.now) out.old.items out.new.items }
{
    match c {
        Cause::Unknown(n) => put_refused(out, b"refused unknown ", *n),
        Cause::Broken(n) => put_refused(out, b"refused broken ", *n),
        Cause::Deleted(n) => put_refused(out, b"refused deleted ", *n),
        Cause::Locked(n) => put_refused(out, b"refused locked ", *n),
        Cause::Dimension => put(out, b"refused dimension\n"),
        Cause::Floating(n) => put_refused(out, b"refused floating ", *n),
        Cause::Opaque(n) => put_refused(out, b"refused opaque ", *n),
        Cause::OffPlane(n) => put_refused(out, b"refused off-plane ", *n),
        Cause::TooLong => put(out, b"refused too-long\n"),
    }
}

// Appends these words, the number of an element and the end of the line.
fn put_refused(out: &mut Vec<u8>, words: &[u8], n: u32) -> Result<(), AllocError>
    ensures { Appends result (refused_text words.now n) out.old.items out.new.items }
{
    put(out, words)?;
    put_number(out, u64::from(n))?;
    put(out, b"\n")
}
