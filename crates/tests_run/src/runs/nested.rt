// A cell in a cell, and a shape with attribute data in that.

use super::*;
use sample_elements::{CELL, LINKED_SHAPE};

// The range number 20, as the cells have it for their high corners.
const TWENTY: [u8; 4] = [0x00, 0x80, 20, 0];

// What makes two cells, the second with bit C, into those of this drawing: their high corners and their totals.
const NESTING: [(usize, &[u8]); 7] = [
    (1552, &TWENTY),
    (1556, &TWENTY),
    (1572, &[112, 0]),
    (1628, &[0x81]),
    (1644, &TWENTY),
    (1648, &TWENTY),
    (1664, &[66, 0]),
];

fn nested(alloc: Global) -> Result<Vec<u8>, AllocError> {
    let pieces: [&[u8]; 4] = [&CELL, &CELL, &LINKED_SHAPE, &END];
    Ok(with_bytes(design(alloc, 0, &pieces)?, &NESTING))
}

// The same, moved by -3,4: of each of the three the range from -3,4 to 17,24, the cells' origins, and the shape's four
// points.
const MOVED: [(usize, &[u8]); 8] = [
    (1540, &[0xFF, 0x7F, 0xFD, 0xFF, 0x00, 0x80, 4, 0]),
    (1552, &[0x00, 0x80, 17, 0, 0x00, 0x80, 24, 0]),
    (1620, &[0xFF, 0xFF, 0xFD, 0xFF, 0, 0, 4, 0]),
    (1632, &[0xFF, 0x7F, 0xFD, 0xFF, 0x00, 0x80, 4, 0]),
    (1644, &[0x00, 0x80, 17, 0, 0x00, 0x80, 24, 0]),
    (1712, &[0xFF, 0xFF, 0xFD, 0xFF, 0, 0, 4, 0]),
    (1724, &[0xFF, 0x7F, 0xFD, 0xFF, 0x00, 0x80, 4, 0]),
    (1736, &[0x00, 0x80, 17, 0, 0x00, 0x80, 24, 0]),
];

const MOVED_POINTS: [(usize, &[u8]); 4] = [
    (1758, &[0xFF, 0xFF, 0xFD, 0xFF, 0, 0, 4, 0]),
    (1766, &[0, 0, 17, 0, 0, 0, 4, 0]),
    (1774, &[0, 0, 17, 0, 0, 0, 24, 0]),
    (1782, &[0xFF, 0xFF, 0xFD, 0xFF, 0, 0, 4, 0]),
];

// A refused undo writes nothing; one that takes a move back of the outermost elements alone leaves the shape where it was
// moved to.
#[test]
fn nested_groups_and_undo(rt: HostRuntime) -> Result<(), Fail> {
    let alloc = rt.alloc();
    let script = b"links 3\nmove 1 -3 4\nundo\nundo\n".as_slice();
    let said = b"70 8 user\nlinks 1\nok\nok\nrefused nothing\n".as_slice();
    let out = nested(alloc)?;
    let wanted = (Status::SomeRefused, said, Some(out.as_slice()));
    shows(&rt, &EDIT, (nested(alloc)?, script), wanted)?;
    Ok(())
}

// A move that stops at the members of a part, or below the first header, leaves the inner cell or the shape.
#[test]
fn nested_groups_moved(rt: HostRuntime) -> Result<(), Fail> {
    let alloc = rt.alloc();
    let out = with_bytes(with_bytes(nested(alloc)?, &MOVED), &MOVED_POINTS);
    let wanted = (Status::Done, b"ok\n".as_slice(), Some(out.as_slice()));
    shows(
        &rt,
        &EDIT,
        (nested(alloc)?, b"move 1 -3 4\n".as_slice()),
        wanted,
    )?;
    Ok(())
}
