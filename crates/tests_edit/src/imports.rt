// What is gathered from worked drawings.

use crate::joined::are_joined;
use dgn_drawing::{MOST_DESIGN, Shift};
use dgn_import::*;
use edit_ops::Cause;
use sample_elements::{ARC, CELL, CELL_OF_81, DELETED_LINE, LINE, MEMBER, REFERENCE, drawing};
use std::alloc::{AllocError, Global};

// What is gathered from a file for a drawing of that dimension.
fn gathered(
    alloc: Global,
    dim: u8,
    bytes: Vec<u8>,
    by: Option<&Shift>,
) -> Result<Gathered, ImportFault> {
    if bytes.len() > MOST_DESIGN {
        return Err(ImportFault::Memory);
    }
    let second = read_second(alloc, bytes)?;
    gather(alloc, dim, &second, by)
}

// The same of a file of these pieces.
fn gathered_of(
    alloc: Global,
    dim: u8,
    pieces: &[&[u8]],
    by: Option<&Shift>,
) -> Result<Gathered, ImportFault> {
    gathered(alloc, dim, drawing(alloc, 0x08, 0, pieces)?, by)
}

// Whether so many trees of these parts are gathered from a file of these pieces for a drawing of the plane.
fn takes(alloc: Global, pieces: &[&[u8]], by: Option<&Shift>, trees: u32, parts: &[&[u8]]) -> bool {
    match gathered_of(alloc, 2, pieces, by) {
        Ok(found) => found.trees == trees && are_joined(found.bytes.as_slice(), parts),
        Err(_) => false,
    }
}

// A drawing with a line, a line marked deleted, a silent element, an orphan, and a cell with its member.
#[test]
fn sound_trees_are_taken(rt: HostRuntime) {
    let pieces: [&[u8]; 6] = [&LINE, &DELETED_LINE, &REFERENCE, &MEMBER, &CELL, &MEMBER];
    let parts: [&[u8]; 3] = [&LINE, &CELL, &MEMBER];
    let still = Shift {
        axes: 2,
        by: [0, 0, 0],
    };
    assert!(rt; takes(rt.alloc(), &pieces, None, 2, &parts));
    assert!(rt; takes(rt.alloc(), &pieces, Some(&still), 2, &parts));
}

// The cell with a line and an arc.
const ARC_IN_CELL: [&[u8]; 3] = [&CELL_OF_81, &MEMBER, &ARC];

// Why the cell with a line and an arc isn't taken into a drawing of that dimension, displaced.
fn fault(alloc: Global, dim: u8, by: &Shift) -> Option<ImportFault> {
    gathered_of(alloc, dim, &ARC_IN_CELL, Some(by)).err()
}

// The cell is taken as it is. Displaced, its arc refuses it, by the number that it has there.
#[test]
fn causes_count_in_the_second_file(rt: HostRuntime) {
    let alloc = rt.alloc();
    assert!(rt; takes(alloc, &ARC_IN_CELL, None, 1, &ARC_IN_CELL));
    let flat = Shift {
        axes: 2,
        by: [1, 1, 0],
    };
    let space = Shift {
        axes: 3,
        by: [1, 1, 0],
    };
    let floating = ImportFault::Refused(Cause::Floating(3));
    assert!(rt; fault(alloc, 2, &flat) == Some(floating));
    for (dim, by) in [(2, &space), (3, &space), (3, &flat)] {
        assert!(rt; fault(alloc, dim, by) == Some(ImportFault::Dimension));
    }
}

// Why nothing is gathered from these bytes.
fn fault_of(alloc: Global, bytes: Result<Vec<u8>, AllocError>) -> Option<ImportFault> {
    match bytes {
        Ok(bytes) => gathered(alloc, 2, bytes, None).err(),
        Err(_) => None,
    }
}

// Files that don't open, and one with nothing to take.
#[test]
fn second_files(rt: HostRuntime) {
    let alloc = rt.alloc();
    let other = fault_of(alloc, Vec::from_slice(alloc, &[0x08, 0x09, 0xFE]));
    assert!(rt; other == Some(ImportFault::Bad(SecondFault::NotDesign)));
    let cut = fault_of(alloc, drawing(alloc, 0x08, 0, &[&[0x01, 0x03]]));
    assert!(rt; cut == Some(ImportFault::Bad(SecondFault::Cut { at: 1536 })));
    assert!(rt; takes(alloc, &[&[0xFF, 0xFF]], None, 0, &[]));
}
