// What the first element of a list is, and what stands below it.

ghost use Rattle.std.specs.Prelude.{◌≡◌, ◌<◌, ◌==◌, ◌&&◌, ◌+◌, ◌≤◌, Option, [], ◌∷◌, length, get_or};
ghost use Rattle.dgn_drawing.specs.Nesting.{front_count, is_all, is_parts, group_or_loose, run_over};
ghost use Rattle.dgn_layout.specs.Classes.{is_among};
ghost use Rattle.dgn_drawing.specs.declared.row.Row.{Row};
ghost use Rattle.nest_tree.specs.Shapes.{defined_scope, code_shape, is_part_in, shape_in, rows_between, IsBetween};
ghost use Rattle.nest_tree.specs.Sources.{no_row, rows_of, IsSource, IsScan};

use crate::knot::Knot;
use crate::members::members;
use crate::scan::Scan;
use crate::source::Source;
use dgn_drawing::is_counted;
use dgn_layout::SHARED_CELL;

// The list that is read.
#[derive(Clone, Copy, Drop)]
pub(crate) enum Scope {
    // All elements.
    All,
    // Members of a header.
    Members,
    // The parts of a B-spline.
    Parts,
}

// What an element is, and how many elements stand below it, read as which list.
#[derive(Clone, Copy, Drop)]
pub(crate) struct Shape {
    pub(crate) knot: Knot,
    pub(crate) inside: Scope,
    pub(crate) count: usize,
}

const LEAF: Shape = Shape {
    knot: Knot::Leaf,
    inside: Scope::Members,
    count: 0,
};

// Whether an element of that type, with bit C or not, is a part of a run, where it follows one whose parts are that list: of
// a B-spline, or else of a shared cell definition.
fn is_part(inside: Scope, kind: u8, cbit: bool) -> bool
    ensures { (r : Row) → r.kind ≡ kind → r.cbit ≡ cbit → result ≡ is_part_in inside r }
{
    match inside {
        Scope::Parts => cbit && matches!(kind, 21 | 25 | 26 | 28),
        Scope::All | Scope::Members => cbit,
    }
}

// How many rows from row `first` on, before row `end`, are parts of such a run.
fn parts(source: &Source<'_>, inside: Scope, first: usize, end: usize) -> usize
    requires source { IsSource source.now }
    requires ordered { first ≤ end }
    requires known { end ≤ length (rows_of source.now) }
    ensures { result ≡ front_count (is_part_in inside) (rows_between (rows_of source.now) first end) }
{
    let mut i = first;
    'parts: while i < end && is_part(inside, source.kind(i), source.cbit(i)) {
        i += 1;
    }
    i - first
}

// Whether that is the type of a shared cell definition, in the list of all elements.
fn is_shared(kind: u8, scope: Scope) -> bool
    ensures { result ≡ (kind == SHARED_CELL && is_all (defined_scope scope)) }
{
    kind == SHARED_CELL && matches!(scope, Scope::All)
}

// Whether the list is the parts of a B-spline.
fn is_parts(scope: Scope) -> bool
    ensures { result ≡ is_parts (defined_scope scope) }
{
    matches!(scope, Scope::Parts)
}

// Whether that is the type of a B-spline.
fn is_spline(kind: u8) -> bool
    ensures { result ≡ is_among kind (24 ∷ 27 ∷ []) }
{
    matches!(kind, 24 | 27)
}

// The shape of row `at` in a list of that scope, which ends before row `end`.
pub(crate) fn shape_at(
    source: &Source<'_>,
    scope: Scope,
    at: usize,
    end: usize,
    scan: &mut Scan,
) -> Shape
    requires source { IsSource source.now }
    requires between { IsBetween (rows_of source.now) at end }
    requires scan { IsScan (rows_of source.now) at scan.old }
    ensures shape { result ≡ code_shape (shape_in scope (rows_between (rows_of source.now) at end)) }
    ensures scan { IsScan (rows_of source.now) (at + 1) scan.new }
{
    let kind = source.kind(at);
    if is_counted(kind) {
        let members = members(source, at, end, scan);
        if is_parts(scope) {
            LEAF
        } else {
            header(members)
        }
    } else if is_parts(scope) {
        LEAF
    } else if is_spline(kind) {
        run(Scope::Parts, parts(source, Scope::Parts, at + 1, end))
    } else if is_shared(kind, scope) {
        run(Scope::Members, parts(source, Scope::Members, at + 1, end))
    } else {
        LEAF
    }
}

// A counted header over its members, if it has any number of them.
fn header(members: Option<usize>) -> Shape
    ensures { result ≡ code_shape (group_or_loose members) }
{
    let (knot, count) = match members {
        Some(count) => (Knot::Group, count),
        None => (Knot::Loose, 0),
    };
    Shape {
        knot,
        inside: Scope::Members,
        count,
    }
}

// The header of a run over so many parts.
fn run(inside: Scope, count: usize) -> Shape
    ensures { result ≡ code_shape (run_over (defined_scope inside) count) }
{
    Shape {
        knot: Knot::Run,
        inside,
        count,
    }
}
