// Stored ranges: what is found, what a fit writes, and that its packed entry gives it again.

use super::hostile::usual;
use super::packing::PACK;
use super::*;
use sample_elements::{ARC, CELL};

// An arc in a cell, whose stored range holds more than its cell's: up to 200,9.
fn wide_arc(alloc: Global) -> Result<Vec<u8>, AllocError> {
    let pieces = [CELL_OF_81.as_slice(), &MEMBER, &ARC, &END];
    let design = design(alloc, 0, &pieces)?;
    Ok(with_bytes(design, &[(ARC_HIGH, &[0x00, 0x80, 200, 0])]))
}

// Where the high x of the arc's range stands, and that of the cell's.
const ARC_HIGH: usize = 1536 + 92 + 52 + 16;

const CELL_HIGH: usize = 1536 + 16;

#[test]
fn audited_and_fitted(rt: HostRuntime) -> Result<(), Fail> {
    let alloc = rt.alloc();
    let moved = b"move 2 1 1\naudit\nfit 2\naudit\nundo\nundo\n".as_slice();
    let said = b"ok\n1 0,0 101,51 1,1 101,51\naudit 1\nok\naudit 0\nok\nok\n".as_slice();
    let cell = design(alloc, 0, &[&CELL, &MEMBER, &END])?;
    let files = (design(alloc, 0, &[&CELL, &MEMBER, &END])?, moved);
    let wanted = (Status::Done, said, Some(cell.as_slice()));
    shows(&rt, &EDIT, files, wanted)?;

    let parts = b"audit\nfit 99\nfit 0\n".as_slice();
    let said =
        b"4 0,0 0,0 0,-10 0,0\n7 0,0 0,0 0,0 10,10\naudit 2\nrefused unknown 99\nok\n".as_slice();
    let out = usual(alloc)?;
    let wanted = (Status::SomeRefused, said, Some(out.as_slice()));
    shows(&rt, &EDIT, (usual(alloc)?, parts), wanted)?;

    let arc = b"audit\nfit 3\naudit\n".as_slice();
    let said = b"1 0,0 100,50 0,0 200,50\naudit 1\nok\naudit 0\n".as_slice();
    let out = with_bytes(wide_arc(alloc)?, &[(CELL_HIGH, &[0x00, 0x80, 200, 0])]);
    let wanted = (Status::Done, said, Some(out.as_slice()));
    shows(&rt, &EDIT, (wide_arc(alloc)?, arc), wanted)?;
    Ok(())
}

// The patch file of the fit of the arc's cell: of a body of 1736 bytes, the four numbers of the range of the cell, of which
// one becomes another, and those of its line, which stay.
const FIT: [u8; 128] = [
    0x44, 0x47, 0x4E, 0x50, 0x41, 0x54, 0x30, 0x31, 0x01, 0x00, 0x00, 0x00, 0xC8, 0x06, 0x00, 0x00,
    0x08, 0x00, 0x00, 0x00, 0x00, 0x00, 0x00, 0x00, 0x04, 0x06, 0x00, 0x00, 0x04, 0x00, 0x80, 0x00,
    0x00, 0x00, 0x80, 0x00, 0x00, 0x08, 0x06, 0x00, 0x00, 0x04, 0x00, 0x80, 0x00, 0x00, 0x00, 0x80,
    0x00, 0x00, 0x10, 0x06, 0x00, 0x00, 0x04, 0x00, 0x80, 0x64, 0x00, 0x00, 0x80, 0xC8, 0x00, 0x14,
    0x06, 0x00, 0x00, 0x04, 0x00, 0x80, 0x32, 0x00, 0x00, 0x80, 0x32, 0x00, 0x60, 0x06, 0x00, 0x00,
    0x04, 0x00, 0x80, 0x00, 0x00, 0x00, 0x80, 0x00, 0x00, 0x64, 0x06, 0x00, 0x00, 0x04, 0x00, 0x80,
    0x00, 0x00, 0x00, 0x80, 0x00, 0x00, 0x6C, 0x06, 0x00, 0x00, 0x04, 0x00, 0x80, 0x64, 0x00, 0x00,
    0x80, 0x64, 0x00, 0x70, 0x06, 0x00, 0x00, 0x04, 0x00, 0x80, 0x32, 0x00, 0x00, 0x80, 0x32, 0x00,
];

#[test]
fn packed_and_applied_fit(rt: HostRuntime) -> Result<(), Fail> {
    let alloc = rt.alloc();
    let script = b"audit\nfit 3\nfit 9\nmove 2 1 1\nundo\n".as_slice();
    let files = (wide_arc(alloc)?, script);
    let wanted = (
        Status::SomeRefused,
        b"entries 1\n".as_slice(),
        Some(FIT.as_slice()),
    );
    shows(&rt, &PACK, files, wanted)?;
    let out = with_bytes(wide_arc(alloc)?, &[(CELL_HIGH, &[0x00, 0x80, 200, 0])]);
    let wanted = (
        Status::Done,
        b"applied 1\n".as_slice(),
        Some(out.as_slice()),
    );
    shows(&rt, &APPLY, (wide_arc(alloc)?, FIT.as_slice()), wanted)?;
    Ok(())
}
