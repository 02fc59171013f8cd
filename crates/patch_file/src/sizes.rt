// How long the spelling of entries is.

ghost use Rattle.std.specs.Prelude.{◌≡◌, min, length};
ghost use Rattle.patch_file.specs.FieldView.{exchange_of};
ghost use Rattle.patch_file.specs.Spelling.{field_spelling, entry_spelling, patch_spelling};
ghost use Rattle.patch_file.specs.PatchView.{packed_of, all_packed};

use crate::{Field, PatchEntry};

// The length of a field's spelling.
fn field_len(field: Field) -> u64
    ensures { result ≡ length (field_spelling (exchange_of field)) }
{
    5 + 2 * u64::from(field.len)
}

// The length of an entry's spelling, as far as the number goes.
fn entry_len(e: &PatchEntry) -> u64
    ensures { result ≡ min (length (entry_spelling (packed_of e.now))) 18446744073709551615 }
{
    let mut len: u64 = 12;
    for field in e.fields.as_slice() {
        len = len.saturating_add(field_len(*field));
    }
    len.saturating_add(e.append.len() as u64)
}

/// The length in bytes of the patch file of `entries`, or 18446744073709551615 where it is greater
/// than that. It takes no memory.
pub fn patch_len(entries: &[PatchEntry]) -> u64
    ensures { result ≡ min (length (patch_spelling (all_packed entries.now))) 18446744073709551615 }
{
    let mut len: u64 = 12;
    for entry in entries {
        len = len.saturating_add(entry_len(entry));
    }
    len
}
