// Reading a patch file, from left to right.

ghost use Rattle.std.specs.Prelude.{ℕ, ◌≡◌, ◌+◌, ◌≤◌, List, length, IfOk};
ghost use Rattle.patch_file.specs.Spelling.{Packed};
ghost use Rattle.patch_file.specs.FieldView.{exchange_of};
ghost use Rattle.patch_file.specs.PatchView.{packed_of, all_packed};
ghost use Rattle.patch_file.specs.Reading.{fields_at, entry_at, entries_at, patch_of};
ghost use Rattle.patch_file.specs.Answers.{Gives, Spells, IsList, IsNamed, NamesBad};
ghost use Rattle.patch_file.specs.BadPieces.{IsBadAt};

use crate::pieces::{bytes_at, field_at, head_at, mark_at, number_at};
use crate::stop::Stop;
use crate::{Field, FieldList, MOST_PATCH, PatchEntry, PatchFault};
use patch_bytes::ByteList;
use std::alloc::Global;

// Where a field ends.
fn end_of(field: Field) -> u32
    requires { (exchange_of field).at + length (exchange_of field).was ≤ 4294967295 }
    ensures { result ≡ (exchange_of field).at + length (exchange_of field).was }
{
    field.at + u32::from(field.len)
}

// How many bytes a field has at least.
const FIELD_BYTES: usize = 7;

// The `count` fields that begin here, of an entry of the old length `len`, and the bytes behind them. Room is taken for
// no more than the bytes can hold.
fn fields_of(alloc: Global, len: u32, count: u32, bytes: &[u8]) -> Result<(FieldList, &[u8]), Stop>
    ensures { Gives (λ x. (x.0, x.1.now)) result (fields_at 0 len count bytes.now) }
{
    let room = (count as usize).min(bytes.len() / FIELD_BYTES);
    let mut fields = FieldList::with_capacity(alloc, room)?;
    let mut from = 0;
    let mut rest = bytes;
    for _ in 0..count {
        let (field, after) = field_at(from, len, rest)?;
        from = end_of(field);
        fields.push(field)?;
        rest = after;
    }
    Ok((fields, rest))
}

// The entry that begins here, and the bytes behind it.
#[tactic(auto, unfolding(crate::specs::Reading::entry_at))]
fn entry_of(alloc: Global, bytes: &[u8]) -> Result<(PatchEntry, &[u8]), Stop>
    ensures { Gives (λ x. (packed_of x.0, x.1.now)) result (entry_at bytes.now) }
{
    let ((len, fields, append), rest) = head_at(bytes)?;
    let (fields, rest) = fields_of(alloc, len, fields, rest)?;
    let (append, rest) = bytes_at(rest.len(), append as usize, rest)?;
    let append = ByteList::from_vec(Vec::from_slice(alloc, append)?);
    let entry = PatchEntry {
        len,
        fields,
        append,
    };
    Ok((entry, rest))
}

// The `count` entries that begin here, and the bytes behind them. Room is taken as they come, and not by the count,
// which may be any number.
fn entries_of(alloc: Global, count: u32, bytes: &[u8]) -> Result<(Vec<PatchEntry>, &[u8]), Stop>
    ensures { Gives (λ x. (all_packed x.0.items, x.1.now)) result (entries_at count bytes.now) }
{
    let mut entries = Vec::new(alloc);
    let mut rest = bytes;
    for _ in 0..count {
        let (entry, after) = entry_of(alloc, rest)?;
        entries.push(entry)?;
        rest = after;
    }
    Ok((entries, rest))
}

// The entries of a whole file.
#[tactic(auto, unfolding(crate::specs::Reading::patch_of))]
fn patch_of(alloc: Global, bytes: &[u8]) -> Result<Vec<PatchEntry>, Stop>
    ensures { Gives (λ v. all_packed v.items) result (patch_of bytes.now) }
{
    let rest = mark_at(bytes)?;
    let (count, rest) = number_at(rest.len(), rest)?;
    let (entries, rest) = entries_of(alloc, count, rest)?;
    if !rest.is_empty() {
        return Err(Stop::Bad(rest.len()));
    }
    Ok(entries)
}

/// The entries of a patch file of at most `MOST_PATCH` bytes, in order.
///
/// The file is the mark `DGNPAT01`, the number of entries, and the entries, each with its head, its
/// fields and its appended bytes. At is the answer exactly where a piece is cut off or breaks its
/// rule, or bytes stand behind the last entry, and its offset is that of the first such piece.
/// Memory may be the answer where there is none for the entries.
pub fn read_patch(alloc: Global, bytes: &[u8]) -> Result<Vec<PatchEntry>, PatchFault>
    requires { length bytes.now ≤ MOST_PATCH }
    // The file is the spelling of what is read.
    ensures found { IfOk result (λ v. Spells (all_packed v.items) bytes.now) }

    // The entries of which it is the spelling are read.
    ensures only { (es : List Packed) → Spells es bytes.now → IsList es result }

    // Else the answer is where the bad piece begins.
    ensures bad { (offset : ℕ) → IsBadAt bytes.now offset → IsNamed offset result }
    ensures named { NamesBad bytes.now result }
{
    match patch_of(alloc, bytes) {
        Ok(entries) => Ok(entries),
        Err(Stop::Bad(left)) => Err(PatchFault::At {
            offset: (bytes.len() - left) as u32,
        }),
        Err(Stop::Memory) => Err(PatchFault::Memory),
    }
}
