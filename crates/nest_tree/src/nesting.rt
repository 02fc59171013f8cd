// The nesting of all elements of a drawing.

ghost use Rattle.std.specs.Prelude.{◌≡◌, ◌<◌, drop, length, IfOk};
ghost use Rattle.std.specs.List.{AllByRecursion};
ghost use Rattle.nest_tree.specs.Depths.{IsWordTotal};
ghost use Rattle.nest_tree.specs.Kept.{kept_rows, AreKept};
ghost use Rattle.nest_tree.specs.Shapes.{IsRow};
ghost use Rattle.nest_tree.specs.Sources.{rows_of, IsSource};

use crate::entry_list::EntryList;
use crate::knot::Knot;
use crate::nest_entry::NestEntry;
use crate::nested::Nest;
use crate::placed::Placed;
use crate::reading::read_on;
use crate::seen::{SeenRows, Step};
use crate::source::Source;
use crate::sums::{has_word_total, set_sums};
use dgn_drawing::{Row, is_counted};
use std::alloc::{AllocError, Global};

/// Nests the elements with these rows. Element 0 is a leaf, and every other one is read by its type.
/// An error says that there was no memory.
pub fn nest(alloc: Global, rows: &[Row]) -> Result<Nest, AllocError>
    requires nonempty { 0 < length rows.now }
    requires bounded { length rows.now < 4294967295 }
    requires each { AllByRecursion IsRow rows.now }
    ensures { IfOk result (λ t. t.rows ≡ rows.now) }
{
    let seen = SeenRows::new().then(&Step::Behind(rows));
    let (first, rest) = rows.split_at(1);
    has_word_total(first[0]);
    let mut sums = Vec::with_capacity(alloc, rows.len())?;
    set_sums(rest, &mut sums);
    nest_source(alloc, seen, &Source::Listed(rest, &sums))
}

/// Nests the elements of which that is kept, for which no row has to be made: the place where each begins, counted in
/// bytes, and type and bit C of each in a byte, the type and 128 more where it has bit C; the total of each that counts
/// its members; and the place where the last one ends. Element 0 is a leaf, and every other one is read by its type.
/// An error says that there was no memory.
pub fn nest_kept(
    alloc: Global,
    places: &[u32],
    kinds: &[u8],
    totals: &[u16],
    end: u32,
) -> Result<Nest, AllocError>
    requires nonempty { 0 < length places.now }
    requires kept { AreKept places.now kinds.now totals.now end }
    ensures { IfOk result (λ t. t.rows ≡ kept_rows places.now kinds.now totals.now end) }
{
    have_word_totals(places, kinds, totals, end);
    let seen = SeenRows::new().then(&Step::Kept(places, kinds, totals, end));
    let (_, places) = places.split_at(1);
    let (first, kinds) = kinds.split_at(1);
    let (_, totals) = totals.split_at(usize::from(is_counted(first[0] % 128)));
    nest_source(alloc, seen, &Source::Kept(places, kinds, totals, end))
}

// Totals of two bytes are words. It does nothing.
fn have_word_totals(_places: &[u32], _kinds: &[u8], totals: &[u16], _end: u32)
    ensures { AllByRecursion IsWordTotal (kept_rows _places.now _kinds.now totals.now _end) }
{
    let _ = totals;
}

// The nesting of the rows that are seen, of which the source gives those behind the first one.
fn nest_source(alloc: Global, seen: SeenRows, source: &Source<'_>) -> Result<Nest, AllocError>
    requires nonempty { 0 < length seen.list }
    requires bounded { length seen.list < 4294967295 }
    requires source { IsSource source.now }
    requires rows { rows_of source.now ≡ drop 1 seen.list }
    requires words { AllByRecursion IsWordTotal seen.list }
    ensures { IfOk result (λ t. t.rows ≡ seen.list) }
{
    let count = 1 + source.len();
    let mut ends = Vec::with_capacity(alloc, count)?;
    let mut entries = EntryList::with_capacity(alloc, count)?;
    let broken = Vec::with_capacity(alloc, count)?;
    ends.push_reserved(1);
    entries.push(NestEntry::new(None, 0, Knot::Leaf));
    let mut placed = Placed {
        ends,
        entries,
        broken,
    };
    read_on(&seen, source, &mut placed);
    Ok(Nest {
        seen,
        sums: Vec::new(alloc),
        placed,
    })
}
