//! The headers of groups: the total of each, and the name and origin of a cell.
//!
//! A header is the bytes of its element, borrowed. `DIM` is the dimension of the file, 2 or 3.
#![tactic(auto)]

ghost use Rattle.std.specs.Prelude.{◌≡◌, ◌↔◌, ◌+◌, ◌*◌, ◌<◌, ◌==◌, ◌⊎◌, if◌then◌else◌, length, IsNone, IfSome};
ghost use Rattle.group_head.specs.Headers.{total_at, name_at, origin_at, cell_end};

mod names;
pub mod types;

use dgn_words::{longs, word};
pub use names::name_text;
use types::Cell;

// Where the total stands.
const TOTAL: usize = 36;

// Where the first word of a cell's name stands; the second one follows it.
const NAME: usize = 38;

/// The name, origin and total of the cell header `b`. Bytes that end before a cell header does, at
/// 92 in 2D and 124 in 3D, give None, and only they do.
pub fn cell<const DIM: usize>(b: &[u8]) -> Option<Cell<DIM>>
    requires { (DIM ≡ 2) ⊎ (DIM ≡ 3) }
    ensures none { IsNone result ↔ (length b.now < cell_end DIM) }
    ensures name { IfSome result (λ c. c.name ≡ name_at b.now) }
    ensures origin { IfSome result (λ c. c.origin ≡ origin_at DIM b.now) }
    ensures total { IfSome result (λ c. c.total ≡ total_at b.now) }
{
    let at = origin_place(DIM);
    if b.len() < at + 4 * DIM {
        return None;
    }
    Some(Cell {
        name: [word(b, NAME), word(b, NAME + 2)],
        origin: longs(b, at),
        total: word(b, TOTAL),
    })
}

/// The total of the header `b`, which counts the words behind itself up to the end of the last
/// member. Below 40 bytes, and only there, it is None.
pub fn total(b: &[u8]) -> Option<u16>
    ensures none { IsNone result ↔ (length b.now < 40) }
    ensures total { IfSome result (λ t. t ≡ total_at b.now) }
{
    if b.len() < 40 {
        None
    } else {
        Some(word(b, TOTAL))
    }
}

// Where the origin of a cell begins. The header's read part ends with it.
fn origin_place(dim: usize) -> usize
    ensures { result ≡ (if dim == 2 then 84 else 112) }
{
    if dim == 2 { 84 } else { 112 }
}
