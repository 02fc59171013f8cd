// How many elements there are of each level and of each type.

ghost use Rattle.std.specs.Prelude.{◌≡◌, ◌+◌, ◌-◌, ◌<◌, ◌^◌, nat_eq, map, IfOk, OnOk};
ghost use Rattle.std.specs.Option.{unwrap_or};
ghost use Rattle.std.specs.Map.{lookup};
ghost use Rattle.indexmap.specs.IndexMap.{insert_entry};
ghost use Rattle.elem_index.specs.Design.{elements};
ghost use Rattle.dgn_listing.specs.Lines.{Appends};
ghost use Rattle.dgn_listing.specs.Counts.{counts, count_line, count_lines};

use crate::listed::listed_at;
use crate::pieces::{put, put_field, put_number};
use indexmap::IndexMap;
use level_view::Drawing;
use std::alloc::{AllocError, Global};

// How many elements there are of each level and of each type, in the order in which these are first seen.
#[derive(Drop)]
pub(crate) struct Totals {
    pub(crate) levels: IndexMap<u8, u32>,
    pub(crate) types: IndexMap<u8, u32>,
}

// Counts the elements of a design by level and by type.
pub(crate) fn totals_of(alloc: Global, d: &Drawing<'_>) -> Result<Totals, AllocError>
    ensures levels { IfOk result
        (λ c. c.levels.entries ≡ counts (map (λ e. e.level) (elements d.now))) }
    ensures types { IfOk result
        (λ c. c.types.entries ≡ counts (map (λ e. e.kind) (elements d.now))) }
{
    let mut levels = IndexMap::new(alloc);
    let mut types = IndexMap::new(alloc);
    for n in 0..d.count() {
        let Some(listed) = listed_at(d, n) else {
            unreachable!()
        };
        count_both(&mut levels, listed.level, &mut types, listed.kind)?;
    }
    Ok(Totals { levels, types })
}

// Counts a level once more, and a type.
fn count_both(
    levels: &mut IndexMap<u8, u32>,
    level: u8,
    types: &mut IndexMap<u8, u32>,
    kind: u8,
) -> Result<(), AllocError>
    requires level { unwrap_or (lookup (nat_eq level) levels.old.entries) 0 < 2 ^ 32 - 1 }
    requires kind { unwrap_or (lookup (nat_eq kind) types.old.entries) 0 < 2 ^ 32 - 1 }
    ensures levels { OnOk result (levels.new.entries
        ≡ insert_entry nat_eq levels.old.entries level
        (unwrap_or (lookup (nat_eq level) levels.old.entries) 0 + 1)) }
    ensures types { OnOk result (types.new.entries
        ≡ insert_entry nat_eq types.old.entries kind
        (unwrap_or (lookup (nat_eq kind) types.old.entries) 0 + 1)) }
{
    count(levels, level)?;
    count(types, kind)
}

// Counts a number once more.
fn count(counts: &mut IndexMap<u8, u32>, number: u8) -> Result<(), AllocError>
    requires { unwrap_or (lookup (nat_eq number) counts.old.entries) 0 < 2 ^ 32 - 1 }
    ensures { OnOk result (counts.new.entries
        ≡ insert_entry nat_eq counts.old.entries number
        (unwrap_or (lookup (nat_eq number) counts.old.entries) 0 + 1)) }
{
    let before = counts.get(&number).copied().unwrap_or(0);
    counts.insert(number, before + 1)?;
    Ok(())
}

// Appends a line for each count: a word, the number and how often it was counted.
pub(crate) fn put_counts(
    out: &mut Vec<u8>,
    word: &[u8],
    counts: &IndexMap<u8, u32>,
) -> Result<(), AllocError>
    ensures { Appends result (count_lines word.now counts.now.entries) out.old.items out.new.items }
{
    for i in 0..counts.len() {
        let Some((number, times)) = counts.get_index(i) else {
            unreachable!()
        };
        put_count(out, word, *number, *times)?;
    }
    Ok(())
}

// Appends the line of a count.
fn put_count(out: &mut Vec<u8>, word: &[u8], number: u8, times: u32) -> Result<(), AllocError>
    ensures { Appends result (count_line word.now (number, times)) out.old.items out.new.items }
{
    put(out, word)?;
    put_field(out, u64::from(number))?;
    put_number(out, u64::from(times))?;
    put(out, b"\n")
}
