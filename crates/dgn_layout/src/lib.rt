//! What the body of an element holds, by its type, and where its coordinate fields stand.
#![tactic(auto)]

ghost use Rattle.std.specs.Prelude.{◌≡◌, ◌⊎◌, ◌<◌, ◌≤◌, length, IsFalse, SomeIff};
ghost use Rattle.dgn_layout.specs.Classes.{class_of, is_silent};
ghost use Rattle.dgn_layout.specs.Ends.{body_end, count_end};
ghost use Rattle.dgn_layout.specs.Spots.{spots_of, HoldsPoints};
ghost use Rattle.dgn_layout.specs.SpotsLeft.{spots_left};

use dgn_words::word;
use ends::COUNT;
use types::Class::{Boxed, Counted, Floating, Run, Silent, Vertices, Words};
use types::{Points, Spots};

mod ends;
pub mod laws;
mod spot;
mod table;
mod tables;
pub mod types;

pub use spot::Spot;
pub use table::Table;

/// The type of a shared cell definition. Nothing shows one, and its parts are the elements with bit C behind it.
pub const SHARED_CELL: u8 = 34;

/// The type that the mark FF FF, which ends a file's elements, would have as an element: one of this type that is marked
/// deleted could begin with that mark.
pub const END_MARK: u8 = 127;

/// The class of the element type `kind`. A type that no class names is silent.
pub fn class(kind: u8) -> types::Class
    requires { kind < 128 }
    ensures { result ≡ class_of kind }
{
    match kind {
        3 | 4 | 6 | 11 => Vertices,
        17 => Words,
        2 | 7 | 12 | 14 | 18 | 19 => Counted,
        24 | 27 | 34 => Run,
        15 | 16 | 23 => Floating,
        22 | 33 | 35 => Boxed,
        _ => Silent,
    }
}

/// Whether the element type `kind` is silent. It is asked of every element of a file, and one test of the
/// type answers it.
pub fn is_silent(kind: u8) -> bool
    requires { kind < 128 }
    ensures { result ≡ is_silent (class_of kind) }
{
    match kind {
        2
        | 3
        | 4
        | 6
        | 7
        | 11
        | 12
        | 14
        | 15
        | 16
        | 17
        | 18
        | 19
        | 22
        | 23
        | 24
        | 27
        | 33
        | 34
        | 35 => false,
        _ => true,
    }
}

// The arms of `spots` and of `body_end`, in DIM axes: by the type, the table of an element's fixed fields and where its
// body ends. Characters begin at a place, and the byte two before it says how many they are; points begin at a place,
// each is a stride behind the one before it, and the word at byte 36 says how many they are.
macro_rules! arms {
    ($call:ident, $kind:ident, $b:ident) => {
        match $kind {
            2 if DIM == 2 => arms!($call fixed cell_2d, 92),
            2 => arms!($call fixed cell_3d, 124),
            3 if DIM == 2 => arms!($call fixed line_2d, 52),
            3 => arms!($call fixed line_3d, 60),
            7 if DIM == 2 => arms!($call fixed node_2d, 70),
            7 => arms!($call fixed node_3d, 86),
            17 if DIM == 2 => arms!($call characters text_2d, 60, $b),
            17 => arms!($call characters text_3d, 76, $b),
            4 | 6 | 11 if DIM == 2 => arms!($call points range_2d, 38, 8, $b),
            4 | 6 | 11 => arms!($call points range_3d, 38, 12, $b),
            12 | 14 | 18 | 19 if DIM == 2 => arms!($call fixed range_2d, 40),
            12 | 14 | 18 | 19 => arms!($call fixed range_3d, 40),
            15 | 16 | 22 | 23 | 24 | 27 | 33 | 34 | 35 => arms!($call unread 36),
            _ => arms!($call silent),
        }
    };
    (spots fixed $table:ident, $end:literal) => {
        Spots::new(tables::$table(), Points::none())
    };
    (spots characters $table:ident, $start:literal, $b:ident) => {
        Spots::new(tables::$table(), Points::none())
    };
    (spots points $table:ident, $start:literal, $stride:literal, $b:ident) => {
        Spots::new(tables::$table(), Points::new(word($b, COUNT), $start, $stride))
    };
    (spots unread $end:literal) => {
        Spots::new(&[], Points::none())
    };
    (spots silent) => {
        Spots::new(&[], Points::none())
    };
    (body_end fixed $table:ident, $end:literal) => {
        Some($end)
    };
    (body_end characters $table:ident, $start:literal, $b:ident) => {
        ends::characters_end($b, $start)
    };
    (body_end points $table:ident, $start:literal, $stride:literal, $b:ident) => {
        ends::points_end($b, $start, $stride)
    };
    (body_end unread $end:literal) => {
        Some($end)
    };
    (body_end silent) => {
        unreachable!()
    };
}

/// The coordinate fields of an element of type `kind` in a file of `DIM` axes, whose bytes are `b`, in the
/// order of its bytes. Nothing is copied and nothing allocated.
///
/// First come those of the range: the low corner from byte 4 on, the high one from byte 16 on. Behind them
/// come those of its points:
///
/// - of a line (type 3), two points from byte 36 on;
/// - of a line string, a shape or a curve (4, 6, 11), as many points as the word at byte 36 says, from byte
///   38 on;
/// - of a text (17), its origin at byte 50, or 62 in 3D;
/// - of a cell header (2), its origin at byte 84, or 112 in 3D;
/// - of a text node (7), its origin at byte 62, or 74 in 3D;
/// - of the other headers that count their words, none.
///
/// A corner or a point is one field of four bytes for each axis. Places are counted in bytes from the
/// element's first one on. Of the classes run, floating, boxed and silent no field is given, not even
/// those of the range.
pub fn spots<const DIM: usize>(kind: u8, b: &[u8]) -> types::Spots<'_>
    requires dimension { (DIM ≡ 2) ⊎ (DIM ≡ 3) }
    requires kind { kind < 128 }
    requires holds { HoldsPoints DIM kind b.now (length b.now) }
    ensures { spots_left result ≡ spots_of DIM kind b.now }
{
    arms!(spots, kind, b)
}

/// Where the body of an element of type `kind` ends in a file of `DIM` axes, as the byte behind it; `b` is the bytes
/// of the element. The element may end before that.
///
/// - A line (type 3) ends behind its two points, at byte 52, or 60 in 3D; a cell header (2) and a text node (7) behind
///   their origins, at 92 or 124 and at 70 or 86.
/// - A line string, a shape or a curve (4, 6, 11) ends behind its points, of 8 or 12 bytes each, from byte 38 on.
/// - A text (17) ends behind its characters, from byte 60 on, or 76 in 3D; the byte two before says how many.
/// - The other headers that count their words end at byte 40, and those of which nothing is read but the display
///   header at byte 36.
///
/// None comes exactly where the count can't be read: of the types 4, 6 and 11 where the element has fewer than 38
/// bytes, of a text where it has fewer than 60, or 76 in 3D. Nothing is allocated.
pub fn body_end<const DIM: usize>(kind: u8, b: &[u8]) -> Option<usize>
    requires dimension { (DIM ≡ 2) ⊎ (DIM ≡ 3) }
    requires kind { kind < 128 }
    requires read { IsFalse (is_silent (class_of kind)) }
    ensures { SomeIff result (count_end DIM kind ≤ length b.now) (body_end DIM kind b.now) }
{
    arms!(body_end, kind, b)
}
