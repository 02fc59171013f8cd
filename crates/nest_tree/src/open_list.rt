// The list that is being read, and those around it.

ghost use Rattle.std.specs.Prelude.{◌≡◌, ◌<◌, length, None};
ghost use Rattle.nest_tree.specs.Places.{scope_below, list_in};

use crate::knot::Knot;
use crate::seen::SeenRows;
use crate::shape::Scope;

// A list whose elements are being read.
#[derive(Clone, Copy, Drop)]
pub(crate) struct OpenList {
    // What it is a list of.
    pub(crate) scope: Scope,
    // The number behind its last element.
    pub(crate) end: u32,
    // How many headers lie above its elements.
    pub(crate) depth: u32,
    // The number of the nearest of them.
    pub(crate) parent: Option<u32>,
}

// The list of all elements, which ends before number `end`.
pub(crate) fn all_elements(_seen: &SeenRows, end: usize) -> OpenList
    requires all { end ≡ length _seen.now.list }
    requires bounded { length _seen.now.list < 4294967295 }
    ensures { result ≡ list_in _seen.now.list None 0 }
{
    OpenList {
        scope: Scope::All,
        end: end as u32,
        depth: 0,
        parent: None,
    }
}

// What the elements below a header are read as.
pub(crate) fn scope_below(knot: Knot, kind: u8) -> Scope
    ensures { result ≡ scope_below knot kind }
{
    match (knot, kind) {
        (Knot::Run, 24 | 27) => Scope::Parts,
        _ => Scope::Members,
    }
}
