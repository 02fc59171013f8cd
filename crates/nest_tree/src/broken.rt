// Which elements are broken: loose headers and orphans.

ghost use Rattle.std.specs.Prelude.{◌≡◌, ◌+◌, ◌<◌, ◌≤◌, nat_lt, Some, option_map, slice_get, vec_len, vec_capacity};
ghost use Rattle.dgn_drawing.specs.Nesting.{itself};
ghost use Rattle.dgn_drawing.specs.Numbering.{is_broken};
ghost use Rattle.nest_tree.specs.Places.{marks_in, entry_of, broken_by_entry};
ghost use Rattle.nest_tree.specs.Passing.{passing, below};
ghost use Rattle.std.specs.List.Sorted.{IsPartitionedBy};

use crate::knot::Knot;
use crate::nest_entry::NestEntry;
use crate::seen::SeenRows;

// Whether element `n` is broken, by what is kept of it, and by whether it has bit C.
fn is_broken_as(n: u32, entry: NestEntry, cbit: bool) -> bool
    ensures { result ≡ broken_by_entry n entry cbit }
{
    let orphan = n != 0 && entry.parent().is_none() && cbit;
    matches!(entry.knot(), Knot::Loose) || orphan
}

// Adds number `n` to the broken ones before it, if element `n` is broken, of which that is kept. There is room for it.
pub(crate) fn add_if_broken(
    _seen: &SeenRows,
    n: u32,
    entry: NestEntry,
    cbit: bool,
    list: &mut Vec<u32>,
)
    requires entry { Some entry ≡ option_map entry_of (slice_get (marks_in _seen.now.list) n) }
    requires row { Some cbit ≡ option_map (λ r. r.cbit) (slice_get _seen.now.list n) }
    requires begun { list.old.items ≡ passing (is_broken itself _seen.now.list) 0 n }
    requires has_room { vec_len list.old < vec_capacity list.old }
    ensures list { list.new.items ≡ passing (is_broken itself _seen.now.list) 0 (n + 1) }
    ensures most { vec_len list.new ≤ vec_len list.old + 1 }
    ensures keeps_room { vec_capacity list.old ≤ vec_capacity list.new }
{
    if is_broken_as(n, entry, cbit) {
        list.push_reserved(n);
    }
}

// Takes the numbers from `count` on away.
pub(crate) fn cut_broken(list: &mut Vec<u32>, count: u32)
    requires { IsPartitionedBy (λ m. nat_lt m count) list.old.items }
    ensures { list.new.items ≡ below count list.old.items }
{
    let kept = list.partition_point(
        |m: &u32| -> bool
            ensures { result ≡ nat_lt m.now count }
        { *m < count },
    );
    list.truncate(kept);
}
