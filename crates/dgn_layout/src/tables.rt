// The coordinate fields at fixed places: a table for each type that has points at such places, and one of the range
// alone for the others; each in 2D and in 3D. And of each table, that its places rise by at least 4, from 4 on, and
// that the last field ends in the fixed part of the body.

ghost use Rattle.std.specs.Prelude.{◌≡◌, ◌++◌};
ghost use Rattle.dgn_layout.specs.Spots.{range_spots, points_spots, text_origin, cell_origin, node_origin};
ghost use Rattle.dgn_layout.specs.Tables.{IsTable};

use crate::spot::Spot;
use crate::table::Table;

const X: u8 = 0;

const Y: u8 = 1;

const Z: u8 = 2;

// A range number at a byte, along an axis.
macro_rules! range {
    ($at:literal, $axis:ident) => {
        Spot {
            at: $at,
            axis: $axis,
            offset: true,
        }
    };
}

// A long at a byte, along an axis.
macro_rules! long {
    ($at:literal, $axis:ident) => {
        Spot {
            at: $at,
            axis: $axis,
            offset: false,
        }
    };
}

const RANGE_2D: Table<4> = Table {
    rows: &[range!(4, X), range!(8, Y), range!(16, X), range!(20, Y)],
};

const RANGE_3D: Table<6> = Table {
    rows: &[
        range!(4, X),
        range!(8, Y),
        range!(12, Z),
        range!(16, X),
        range!(20, Y),
        range!(24, Z),
    ],
};

const CELL_2D: Table<6> = Table {
    rows: &[
        range!(4, X),
        range!(8, Y),
        range!(16, X),
        range!(20, Y),
        long!(84, X),
        long!(88, Y),
    ],
};

const CELL_3D: Table<9> = Table {
    rows: &[
        range!(4, X),
        range!(8, Y),
        range!(12, Z),
        range!(16, X),
        range!(20, Y),
        range!(24, Z),
        long!(112, X),
        long!(116, Y),
        long!(120, Z),
    ],
};

const LINE_2D: Table<8> = Table {
    rows: &[
        range!(4, X),
        range!(8, Y),
        range!(16, X),
        range!(20, Y),
        long!(36, X),
        long!(40, Y),
        long!(44, X),
        long!(48, Y),
    ],
};

const LINE_3D: Table<12> = Table {
    rows: &[
        range!(4, X),
        range!(8, Y),
        range!(12, Z),
        range!(16, X),
        range!(20, Y),
        range!(24, Z),
        long!(36, X),
        long!(40, Y),
        long!(44, Z),
        long!(48, X),
        long!(52, Y),
        long!(56, Z),
    ],
};

const NODE_2D: Table<6> = Table {
    rows: &[
        range!(4, X),
        range!(8, Y),
        range!(16, X),
        range!(20, Y),
        long!(62, X),
        long!(66, Y),
    ],
};

const NODE_3D: Table<9> = Table {
    rows: &[
        range!(4, X),
        range!(8, Y),
        range!(12, Z),
        range!(16, X),
        range!(20, Y),
        range!(24, Z),
        long!(74, X),
        long!(78, Y),
        long!(82, Z),
    ],
};

const TEXT_2D: Table<6> = Table {
    rows: &[
        range!(4, X),
        range!(8, Y),
        range!(16, X),
        range!(20, Y),
        long!(50, X),
        long!(54, Y),
    ],
};

const TEXT_3D: Table<9> = Table {
    rows: &[
        range!(4, X),
        range!(8, Y),
        range!(12, Z),
        range!(16, X),
        range!(20, Y),
        range!(24, Z),
        long!(62, X),
        long!(66, Y),
        long!(70, Z),
    ],
};

// The range of an element in 2D, which lies in the display part, of 36 bytes.
pub fn range_2d() -> &'static [Spot]
    ensures table { IsTable result.now 36 }
    ensures rows { result.now ≡ range_spots 2 }
{
    let rows = RANGE_2D.rows;
    rows
}

// The range of an element in 3D.
pub fn range_3d() -> &'static [Spot]
    ensures table { IsTable result.now 36 }
    ensures rows { result.now ≡ range_spots 3 }
{
    let rows = RANGE_3D.rows;
    rows
}

// The range and the origin of a cell header in 2D, which ends at byte 92.
pub fn cell_2d() -> &'static [Spot]
    ensures table { IsTable result.now 92 }
    ensures rows { result.now ≡ range_spots 2 ++ points_spots 1 2 (cell_origin 2) }
{
    let rows = CELL_2D.rows;
    rows
}

// The range and the origin of a cell header in 3D, which ends at byte 124.
pub fn cell_3d() -> &'static [Spot]
    ensures table { IsTable result.now 124 }
    ensures rows { result.now ≡ range_spots 3 ++ points_spots 1 3 (cell_origin 3) }
{
    let rows = CELL_3D.rows;
    rows
}

// The range and the two points of a line in 2D, which ends at byte 52.
pub fn line_2d() -> &'static [Spot]
    ensures table { IsTable result.now 52 }
    ensures rows { result.now ≡ range_spots 2 ++ points_spots 2 2 36 }
{
    let rows = LINE_2D.rows;
    rows
}

// The range and the two points of a line in 3D, which ends at byte 60.
pub fn line_3d() -> &'static [Spot]
    ensures table { IsTable result.now 60 }
    ensures rows { result.now ≡ range_spots 3 ++ points_spots 2 3 36 }
{
    let rows = LINE_3D.rows;
    rows
}

// The range and the origin of a text node in 2D, which ends at byte 70.
pub fn node_2d() -> &'static [Spot]
    ensures table { IsTable result.now 70 }
    ensures rows { result.now ≡ range_spots 2 ++ points_spots 1 2 (node_origin 2) }
{
    let rows = NODE_2D.rows;
    rows
}

// The range and the origin of a text node in 3D, which ends at byte 86.
pub fn node_3d() -> &'static [Spot]
    ensures table { IsTable result.now 86 }
    ensures rows { result.now ≡ range_spots 3 ++ points_spots 1 3 (node_origin 3) }
{
    let rows = NODE_3D.rows;
    rows
}

// The range and the origin of a text in 2D, whose characters begin at byte 60.
pub fn text_2d() -> &'static [Spot]
    ensures table { IsTable result.now 60 }
    ensures rows { result.now ≡ range_spots 2 ++ points_spots 1 2 (text_origin 2) }
{
    let rows = TEXT_2D.rows;
    rows
}

// The range and the origin of a text in 3D, whose characters begin at byte 76.
pub fn text_3d() -> &'static [Spot]
    ensures table { IsTable result.now 76 }
    ensures rows { result.now ≡ range_spots 3 ++ points_spots 1 3 (text_origin 3) }
{
    let rows = TEXT_3D.rows;
    rows
}
