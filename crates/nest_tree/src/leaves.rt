// Leaves that stand one behind the other.

ghost use Rattle.std.specs.Prelude.{◌≡◌, ◌+◌, ◌<◌, ◌≤◌, ◌++◌, length, vec_len, vec_capacity};
ghost use Rattle.std.specs.List.{range_with_len};
ghost use Rattle.nest_tree.specs.Read.{orphans_from};
ghost use Rattle.nest_tree.specs.Sources.{rows_of, IsSource, AreLeaves};

use crate::source::Source;
use dgn_drawing::is_header;

// How many rows from row `first` on, before row `end`, are one behind the other of types that head nothing, and if they are
// roots, all with bit C or all without it, as `orphans` says.
pub(crate) fn leaf_run(
    source: &Source<'_>,
    first: usize,
    end: usize,
    roots: bool,
    orphans: bool,
) -> usize
    requires source { IsSource source.now }
    requires ordered { first ≤ end }
    requires known { end ≤ length (rows_of source.now) }
    ensures within { first + result ≤ end }
    ensures leaves { AreLeaves roots orphans (rows_of source.now) first (first + result) }
{
    let mut i = first;
    'leaves: while i < end && !is_header(source.kind(i)) && !(roots && source.cbit(i) != orphans) {
        i += 1;
    }
    i - first
}

// Puts so many numbers, from `first` on, behind the others. There is room for them.
pub(crate) fn push_numbers(first: u32, count: u32, list: &mut Vec<u32>)
    requires bounded { first + count < 4294967296 }
    requires has_room { vec_len list.old + count ≤ vec_capacity list.old }
    ensures items { list.new.items ≡ list.old.items ++ range_with_len first count }
    ensures keeps_room { vec_capacity list.old ≤ vec_capacity list.new }
{
    for number in first..first + count {
        list.push_reserved(number);
    }
}

// Puts the numbers of so many elements behind the others, if they are broken. There is room for them.
pub(crate) fn push_orphans(orphans: bool, first: u32, count: u32, list: &mut Vec<u32>)
    requires bounded { first + count < 4294967296 }
    requires has_room { vec_len list.old + count ≤ vec_capacity list.old }
    ensures items { list.new.items ≡ list.old.items ++ orphans_from orphans first count }
    ensures keeps_room { vec_capacity list.old ≤ vec_capacity list.new }
{
    if orphans {
        push_numbers(first, count, list);
    }
}
