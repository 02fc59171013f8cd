// The rows of all elements, which contracts alone see.

ghost use Rattle.std.specs.Prelude.{◌≡◌, List, []};
ghost use Rattle.dgn_drawing.specs.declared.row.Row.{Row};
ghost use base.Fml.{ftrue};

use dgn_drawing::Row;
use std::marker::Model;

// The rows of all elements. It takes no memory.
#[derive(Drop)]
pub(crate) struct SeenRows {
    pub(crate) ghost list: { List Row },
}

impl Model for SeenRows {
    ghost also_owns = { λ _. ftrue };
}

// What becomes of the rows.
#[derive(Clone, Copy, Drop)]
pub(crate) enum Step<'a> {
    // These are put behind them.
    Behind(&'a [Row]),
    // Those of elements by what is kept of each, as `Source` has it.
    Kept(&'a [u32], &'a [u8], &'a [u16], u32),
    // So many of the first ones are left.
    First(u32),
}

impl SeenRows {
    ghost use Rattle.nest_tree.specs.Stepped.{stepped};

    // None.
    pub(crate) fn new() -> SeenRows
        ensures { result.list ≡ [] }
    {
        SeenRows {}
    }

    // What becomes of them.
    pub(crate) fn then(&self, _step: &Step<'_>) -> SeenRows
        ensures { result.list ≡ stepped self.now.list _step.now }
    {
        SeenRows {}
    }
}
