// Taking an entry off a body.

ghost use Rattle.std.specs.Prelude.{◌≡◌, length, map, IfOk};
ghost use Rattle.patch_bytes.specs.Puts.{IsWithin, AreWithin};
ghost use Rattle.patch_bytes.specs.PatchView.{put_of};
ghost use Rattle.std.specs.List.{AllByRecursion};
ghost use Rattle.patch_file.specs.Exchanges.{IsSized};
ghost use Rattle.patch_file.specs.FieldView.{exchange_of};
ghost use Rattle.patch_file.specs.PatchView.{packed_of};
ghost use Rattle.patch_file.specs.Standing.{exchanged, taken_of, MayTake};

use crate::pieces::padded;
use crate::{Field, FieldList, PatchEntry};
use patch_bytes::{ByteList, Patch};
use std::alloc::{AllocError, Global};
use undo_log::Entry;

// What the patch exchanges: its bytes were, and what stands there now is put.
fn exchanged(body: &[u8], patch: &Patch) -> Field
    requires { IsWithin (length body.now) (put_of patch.now) }
    ensures exchange { exchange_of result ≡ exchanged body.now (put_of patch.now) }
    ensures sized { IsSized (exchange_of result) }
{
    let from = patch.at as usize;
    let now = &body[from..from + usize::from(patch.len)];
    Field {
        at: patch.at,
        len: patch.len,
        was: patch.bytes,
        put: padded(now),
    }
}

// What all of them exchange, in order.
fn all_exchanged(alloc: Global, body: &[u8], patches: &[Patch]) -> Result<FieldList, AllocError>
    requires { AreWithin (length body.now) (map put_of patches.now) }
    ensures exchanges { IfOk result (λ f. f ≡ map (exchanged body.now) (map put_of patches.now)) }
    ensures sized { IfOk result (λ f. AllByRecursion IsSized f) }
{
    let mut fields = FieldList::with_capacity(alloc, patches.len())?;
    for patch in patches {
        fields.push(exchanged(body, patch))?;
    }
    Ok(fields)
}

/// The patch entry of the edit that the log's entry `e` takes back from `body`: the old length, at
/// each place the bytes that `e` holds and those that `body` has there, and what is behind the old
/// length. The body has at least `e.len` bytes; the patches of `e` rise, lie below `e.len` and share no
/// byte. An error says that there was no memory.
pub fn take_entry(alloc: Global, body: &[u8], e: &Entry) -> Result<PatchEntry, AllocError>
    requires { MayTake body.now e.now }
    ensures { IfOk result (λ p. packed_of p ≡ taken_of body.now e.now) }
{
    let fields = all_exchanged(alloc, body, e.patches.as_slice())?;
    let (_, behind) = body.split_at(e.len as usize);
    let append = ByteList::from_vec(Vec::from_slice(alloc, behind)?);
    Ok(PatchEntry {
        len: e.len,
        fields,
        append,
    })
}
