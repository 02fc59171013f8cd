ghost use Rattle.std.specs.Prelude.{◌≡◌, []};

use std::alloc::Global;

// The numbers of the elements that an edit of one part is about. The lists keep their memory, so one pair serves the
// parts of many roots.
#[derive(Drop)]
pub(crate) struct Numbers {
    // Those of the headers above the part, the root first.
    pub(crate) above: Vec<u32>,
    // Those of its live elements.
    pub(crate) live: Vec<u32>,
}

// Lists without numbers. They take no memory.
pub(crate) fn no_numbers(alloc: Global) -> Numbers
    ensures above { result.above.items ≡ [] }
    ensures live { result.live.items ≡ [] }
{
    Numbers {
        above: Vec::new(alloc),
        live: Vec::new(alloc),
    }
}
