// Reading of rows, one behind the other, which finds the place of each element, and which ones are broken.

ghost use Rattle.std.specs.Prelude.{◌≡◌, ◌<◌, ◌-◌, length, drop, None, vec_len, vec_capacity};
ghost use Rattle.std.specs.List.{AllByRecursion};
ghost use Rattle.dgn_drawing.specs.Nesting.{Whole, itself, nest};
ghost use Rattle.dgn_drawing.specs.Numbering.{marks};
ghost use Rattle.nest_tree.specs.Depths.{IsWordTotal};
ghost use Rattle.nest_tree.specs.Sources.{rows_of, IsSource};
ghost use Rattle.nest_tree.specs.Places.{marks_in};
ghost use Rattle.nest_tree.specs.Read.{AreRead, HaveRoom};

use crate::open_list::all_elements;
use crate::pass::Pass;
use crate::placed::Placed;
use crate::scan::Scan;
use crate::seen::SeenRows;
use crate::source::Source;

// Reads on behind the elements that have their places: `source` gives the rows from there on. There is room for the places
// of all, and for the numbers of the broken ones.
pub(crate) fn read_on(seen: &SeenRows, source: &Source<'_>, kept: &mut Placed)
    requires bounded { length seen.now.list < 4294967295 }
    requires nonempty { 0 < length kept.old.ends.items }
    requires source { IsSource source.now }
    requires rows { rows_of source.now ≡ drop (length kept.old.ends.items) seen.now.list }
    requires words { AllByRecursion IsWordTotal (rows_of source.now) }
    requires read { AreRead seen.now.list (length kept.old.ends.items) kept.old.ends.items kept.old.entries.items kept.old.broken.items }
    requires apart { drop (length kept.old.ends.items) (marks_in seen.now.list)
        ≡ marks (nest itself Whole (drop (length kept.old.ends.items) seen.now.list)) (length kept.old.ends.items) 0 None }
    requires has_room { HaveRoom (length (rows_of source.now)) (vec_capacity kept.old.ends - vec_len kept.old.ends) kept.old.entries.spare
        (vec_capacity kept.old.broken - vec_len kept.old.broken) }
    ensures { AreRead seen.now.list (length seen.now.list) kept.new.ends.items kept.new.entries.items kept.new.broken.items }
{
    let first = kept.ends.len();
    let count = first + source.len();
    let mut pass = Pass {
        seen,
        source: *source,
        first,
        at: first,
        list: all_elements(seen, count),
        scan: Scan::new(),
    };
    'elements: while pass.at < count {
        pass.step(kept);
    }
}
