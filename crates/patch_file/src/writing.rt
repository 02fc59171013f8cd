// Writing a patch file. Each writer appends to `out` exactly its text; where there is no memory, `out` has grown by a
// front of that.

ghost use Rattle.std.specs.Prelude.{◌<◌, ◌≤◌, ◌^◌, length, map};
ghost use Rattle.std.specs.List.{All, flat_map};
ghost use Rattle.patch_file.specs.FieldView.{exchange_of};
ghost use Rattle.patch_file.specs.Spelling.{number, field_spelling, head_spelling, entry_spelling, patch_spelling};
ghost use Rattle.patch_file.specs.PatchView.{packed_of, all_packed};
ghost use Rattle.patch_bytes.specs.Fronts.{Appends};

use crate::pieces::MARK;
use crate::{Field, MOST_PATCH, PatchEntry, patch_len};
use std::alloc::{AllocError, Global};

fn put_bytes(out: &mut Vec<u8>, bytes: &[u8]) -> Result<(), AllocError>
    ensures { Appends result bytes.now out.old.items out.new.items }
{
    out.extend_from_slice(bytes)
}

#[tactic(auto, unfolding(crate::specs::Spelling::number))]
fn put_number(out: &mut Vec<u8>, n: u32) -> Result<(), AllocError>
    ensures { Appends result (number n) out.old.items out.new.items }
{
    put_bytes(out, &n.to_le_bytes())
}

fn put_field(out: &mut Vec<u8>, field: &Field) -> Result<(), AllocError>
    ensures { Appends result (field_spelling (exchange_of field.now)) out.old.items out.new.items }
{
    let len = usize::from(field.len);
    put_number(out, field.at)?;
    put_bytes(out, &[field.len])?;
    put_bytes(out, &field.was[..len])?;
    put_bytes(out, &field.put[..len])
}

fn put_fields(out: &mut Vec<u8>, fields: &[Field]) -> Result<(), AllocError>
    ensures { Appends result (flat_map field_spelling (map exchange_of fields.now)) out.old.items out.new.items }
{
    for field in fields {
        put_field(out, field)?;
    }
    Ok(())
}

fn put_head(out: &mut Vec<u8>, len: u32, fields: u32, append: u32) -> Result<(), AllocError>
    ensures { Appends result (head_spelling len fields append) out.old.items out.new.items }
{
    put_number(out, len)?;
    put_number(out, fields)?;
    put_number(out, append)
}

fn put_entry(out: &mut Vec<u8>, e: &PatchEntry) -> Result<(), AllocError>
    requires { length e.now.append < 2 ^ 32 }
    ensures { Appends result (entry_spelling (packed_of e.now)) out.old.items out.new.items }
{
    let len = e.len;
    put_head(out, len, e.fields.len() as u32, e.append.len() as u32)?;
    put_fields(out, e.fields.as_slice())?;
    put_bytes(out, e.append.as_slice())
}

fn put_entries(out: &mut Vec<u8>, entries: &[PatchEntry]) -> Result<(), AllocError>
    requires { All (λ e. length e.append < 2 ^ 32) entries.now }
    ensures { Appends result (flat_map entry_spelling (all_packed entries.now)) out.old.items out.new.items }
{
    for entry in entries {
        put_entry(out, entry)?;
    }
    Ok(())
}

/// Appends to `out` the patch file of `entries`, of at most `MOST_PATCH` bytes: the mark, the number of
/// entries, and each entry. Room for all of it is taken first; where there is no memory, `out` is its
/// old bytes and a front of the file.
pub fn write_patch(
    alloc: Global,
    out: &mut Vec<u8>,
    entries: &[PatchEntry],
) -> Result<(), AllocError>
    requires { length (patch_spelling (all_packed entries.now)) ≤ MOST_PATCH }
    ensures { Appends result (patch_spelling (all_packed entries.now)) out.old.items out.new.items }
{
    let _ = alloc;
    out.reserve_exact(patch_len(entries) as usize)?;
    put_bytes(out, &MARK)?;
    put_number(out, entries.len() as u32)?;
    put_entries(out, entries)
}
