// Whether an entry stands on a body, and putting it there.

ghost use Rattle.std.specs.Prelude.{◌≡◌, ◌↔◌, length, map, IsTrue, OnOk, OnErr};
ghost use Rattle.std.specs.List.{AllByRecursion};
ghost use Rattle.patch_bytes.specs.Puts.{write, AreWithin};
ghost use Rattle.patch_file.specs.FieldView.{exchange_of};
ghost use Rattle.patch_file.specs.PatchView.{packed_of};
ghost use Rattle.patch_file.specs.Standing.{HoldsOld, Stands, new_of, put_on};

use crate::{Field, PatchEntry};
use patch_bytes::{Patch, swap_in};
use std::alloc::AllocError;

// Whether the field's old bytes stand at its place.
fn holds_old(body: &[u8], field: &Field) -> bool
    ensures { IsTrue result ↔ HoldsOld body.now (exchange_of field.now) }
{
    let from = field.at as usize;
    let len = usize::from(field.len);
    body.len() >= from + len && body[from..from + len] == field.was[..len]
}

// Whether each of them does.
fn all_hold_old(body: &[u8], fields: &[Field]) -> bool
    ensures { IsTrue result ↔ AllByRecursion (HoldsOld body.now) (map exchange_of fields.now) }
{
    for field in fields {
        if !holds_old(body, field) {
            return false;
        }
    }
    true
}

/// Whether `e` stands on `body`: exactly where the body has the entry's old length and, at the place
/// of each field, its old bytes. It takes no memory.
pub fn stands(body: &[u8], e: &PatchEntry) -> bool
    ensures { IsTrue result ↔ Stands body.now (packed_of e.now) }
{
    body.len() == e.len as usize && all_hold_old(body, e.fields.as_slice())
}

// Writes the new bytes of each field at its place.
fn put_fields(body: &mut [u8], fields: &[Field])
    requires { AreWithin (length body.old) (map new_of (map exchange_of fields.now)) }
    ensures { body.new ≡ write body.old (map new_of (map exchange_of fields.now)) }
{
    for field in fields {
        swap_in(
            body,
            Patch {
                at: field.at,
                len: field.len,
                bytes: field.put,
            },
        );
    }
}

/// Puts `e` on `body`, on which it stands: writes the new bytes of each field, and puts the appended
/// bytes behind. Where there is no memory for these, the body is as before.
pub fn apply_entry(body: &mut Vec<u8>, e: &PatchEntry) -> Result<(), AllocError>
    requires { Stands body.old.items (packed_of e.now) }
    ensures ok { OnOk result (body.new.items ≡ put_on body.old.items (packed_of e.now)) }
    ensures err { OnErr result (body.new.items ≡ body.old.items) }
{
    body.extend_from_slice(e.append.as_slice())?;
    put_fields(body, e.fields.as_slice());
    Ok(())
}
