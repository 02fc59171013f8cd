// The members of a header, which its total counts in bytes.

ghost use Rattle.std.specs.Prelude.{◌≡◌, ◌+◌, ◌<◌, ◌≤◌, true, length, get_or};
ghost use Rattle.dgn_layout.specs.Classes.{class_of};
ghost use Rattle.dgn_drawing.specs.Nesting.{is_counted};
ghost use Rattle.nest_tree.specs.Shapes.{rows_between, members_in, IsBetween};
ghost use Rattle.nest_tree.specs.Sources.{no_row, rows_of, IsSource, IsScan};

use crate::scan::Scan;
use crate::source::Source;

// How many of the rows behind row `at`, which counts its members, and before row `end` are its members, if it has any
// number of them. These have bit C, and the place where the last of them ends is as far behind the header's own as the
// total says; so it is the number of a place that is looked for.
pub(crate) fn members(source: &Source<'_>, at: usize, end: usize, scan: &mut Scan) -> Option<usize>
    requires source { IsSource source.now }
    requires between { IsBetween (rows_of source.now) at end }
    requires counts { is_counted (class_of (get_or (rows_of source.now) at no_row).kind) ≡ true }
    requires scan { IsScan (rows_of source.now) at scan.old }
    ensures members { result ≡ members_in (rows_between (rows_of source.now) at end) }
    ensures scan { IsScan (rows_of source.now) (at + 1) scan.new }
{
    let total = scan.next_total(source, at);
    let wanted = source.place(at) + 38 + 2 * u64::from(total);
    let first = at + 1;
    let last = scan.marked_end(source, first).min(end);
    let count = source.below(first, last, scan.near, wanted);
    scan.near = count;
    if source.place(first + count) == wanted {
        Some(count)
    } else {
        None
    }
}
