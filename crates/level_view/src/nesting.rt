// The nesting of a design.

ghost use Rattle.std.specs.Prelude.{◌≡◌, map, IfOk};
ghost use Rattle.dgn_drawing.specs.Rows.{row_of};
ghost use Rattle.elem_index.specs.Design.{elements, IsWhole};

use elem_index::Design;
use nest_tree::nest_kept;
use nest_tree::types::Nest;
use std::alloc::{AllocError, Global};

/// The nesting of the elements of the design, by what it keeps of each. No row is made. An error says that there was no
/// memory.
pub fn nest_design(alloc: Global, d: &Design) -> Result<Nest, AllocError>
    requires { IsWhole d.now }
    ensures { IfOk result (λ t. t.rows ≡ map row_of (elements d.now)) }
{
    nest_kept(
        alloc,
        d.offsets(),
        d.kind_bytes(),
        d.totals(),
        d.body.len() as u32,
    )
}
