// The rows of files that open and of damaged ones, and the texts of the faults.

ghost use Rattle.elem_index.specs.Design.{IsWhole};

use dgn_drawing::{MOST_DESIGN, Row};
use elem_index::*;
use sample_elements::{
    CHAIN_HEADER, CHAIN_OF_THREE, LINE, LINE_WITH_ATTRIBUTES, REFERENCE, SPACE_CHAIN,
    SPACE_CHAIN_OF_THREE, drawing,
};
use std::alloc::{AllocError, Global};

// A file that is damaged: the first byte and byte 1214 of its TCB, the pieces behind it, the length that it is cut to, the
// fault and its text.
#[derive(Clone, Copy)]
struct Damaged {
    first: u8,
    mark: u8,
    pieces: &'static [&'static [u8]],
    len: usize,
    fault: OpenFault,
    text: &'static str,
}

const DAMAGED: [Damaged; 13] = [
    Damaged {
        first: 0x08,
        mark: 0,
        pieces: &[],
        len: 0,
        fault: OpenFault::NotDesign,
        text: "not-design at 0",
    },
    Damaged {
        first: 0x08,
        mark: 0,
        pieces: &[],
        len: 3,
        fault: OpenFault::NotDesign,
        text: "not-design at 0",
    },
    Damaged {
        first: 0x09,
        mark: 0,
        pieces: &[&LINE],
        len: 4000,
        fault: OpenFault::NotDesign,
        text: "not-design at 0",
    },
    Damaged {
        first: 0x08,
        mark: 0,
        pieces: &[],
        len: 1000,
        fault: OpenFault::Cut { at: 0 },
        text: "cut at 0",
    },
    Damaged {
        first: 0xC8,
        mark: 0,
        pieces: &[],
        len: 4,
        fault: OpenFault::Cut { at: 0 },
        text: "cut at 0",
    },
    Damaged {
        first: 0x08,
        mark: 0,
        pieces: &[&LINE],
        len: 1587,
        fault: OpenFault::Cut { at: 1536 },
        text: "cut at 1536",
    },
    Damaged {
        first: 0x08,
        mark: 0,
        pieces: &[&LINE, &[0xFF]],
        len: 4000,
        fault: OpenFault::Cut { at: 1588 },
        text: "cut at 1588",
    },
    Damaged {
        first: 0x08,
        mark: 0,
        pieces: &[&LINE, &[0x01, 0x03, 0x00]],
        len: 4000,
        fault: OpenFault::Cut { at: 1588 },
        text: "cut at 1588",
    },
    Damaged {
        first: 0x08,
        mark: 0,
        pieces: &[&CHAIN_OF_THREE],
        len: 4000,
        fault: OpenFault::Short { at: 1536 },
        text: "short at 1536",
    },
    Damaged {
        first: 0x08,
        mark: 0,
        pieces: &[&LINE, &CHAIN_OF_THREE],
        len: 4000,
        fault: OpenFault::Short { at: 1588 },
        text: "short at 1588",
    },
    Damaged {
        first: 0x08,
        mark: 0x40,
        pieces: &[&SPACE_CHAIN_OF_THREE],
        len: 4000,
        fault: OpenFault::Short { at: 1536 },
        text: "short at 1536",
    },
    Damaged {
        first: 0x08,
        mark: 0,
        pieces: &[&LINE_WITH_ATTRIBUTES],
        len: 4000,
        fault: OpenFault::Attr { at: 1536 },
        text: "attributes at 1536",
    },
    Damaged {
        first: 0x08,
        mark: 0,
        pieces: &[&REFERENCE, &LINE_WITH_ATTRIBUTES],
        len: 4000,
        fault: OpenFault::Attr { at: 1546 },
        text: "attributes at 1546",
    },
];

// What keeps these bytes from being opened.
fn fault_in(alloc: Global, bytes: Vec<u8>) -> Option<OpenFault> {
    if bytes.len() > MOST_DESIGN {
        return None;
    }
    read_design(alloc, bytes).err()
}

// What keeps a damaged file from being opened.
fn fault_of(alloc: Global, file: &Damaged) -> Result<Option<OpenFault>, AllocError> {
    let mut bytes = drawing(alloc, file.first, file.mark, file.pieces)?;
    bytes.truncate(file.len);
    Ok(fault_in(alloc, bytes))
}

// What is said of a fault.
fn said(alloc: Global, fault: &OpenFault) -> Result<String, AllocError> {
    format!(in alloc; "{fault}")
}

#[test]
fn damaged_files(rt: HostRuntime) -> Result<(), AllocError> {
    let alloc = rt.alloc();
    for file in &DAMAGED {
        assert!(rt; fault_of(alloc, file)? == Some(file.fault), "{}", file.len);
        assert!(rt; said(alloc, &file.fault)?.as_str() == file.text);
    }
    let library = Vec::from_slice(alloc, &[0x08, 0x05, 0x17, 0x00])?;
    assert!(rt; fault_in(alloc, library) == Some(OpenFault::NotDesign));
    assert!(rt; said(alloc, &OpenFault::Memory)?.as_str() == "no memory");
    Ok(())
}

// A file that opens: the first byte and byte 1214 of its TCB, the elements behind it, the tail, the dimension, how many
// elements there are with the TCB, and where the last one begins.
#[derive(Clone, Copy)]
struct Sound {
    first: u8,
    mark: u8,
    elements: &'static [&'static [u8]],
    tail: &'static [u8],
    dim: u8,
    count: u32,
    last: usize,
}

const SOUND: [Sound; 6] = [
    Sound {
        first: 0x08,
        mark: 0,
        elements: &[],
        tail: &[],
        dim: 2,
        count: 1,
        last: 0,
    },
    Sound {
        first: 0x08,
        mark: 0,
        elements: &[&LINE],
        tail: &[],
        dim: 2,
        count: 2,
        last: 1536,
    },
    Sound {
        first: 0xC8,
        mark: 0,
        elements: &[&LINE],
        tail: &[0xFF, 0xFF],
        dim: 2,
        count: 2,
        last: 1536,
    },
    Sound {
        first: 0x08,
        mark: 0,
        elements: &[&REFERENCE, &LINE],
        tail: &[0xFF, 0xFF, 0x00, 0x00, 0x00],
        dim: 2,
        count: 3,
        last: 1546,
    },
    Sound {
        first: 0x08,
        mark: 0x40,
        elements: &[&SPACE_CHAIN],
        tail: &[0xFF, 0xFF, 0x08, 0x09],
        dim: 3,
        count: 2,
        last: 1536,
    },
    Sound {
        first: 0x08,
        mark: 0xBF,
        elements: &[&CHAIN_HEADER, &LINE],
        tail: &[],
        dim: 2,
        count: 3,
        last: 1576,
    },
];

// A TCB whose first byte and byte 1214 are given, elements and a tail behind it.
fn file(
    alloc: Global,
    first: u8,
    mark: u8,
    elements: &[&[u8]],
    tail: &[u8],
) -> Result<Vec<u8>, AllocError> {
    let mut bytes = drawing(alloc, first, mark, elements)?;
    bytes.extend_from_slice(tail)?;
    Ok(bytes)
}

// Whether these are the elements behind the TCB, with none behind them.
fn has_elements(design: &Design, elements: &[&[u8]]) -> bool
    requires { IsWhole design.now }
{
    let mut n = 1u32;
    for element in elements {
        if design.element(n) != Some(*element) {
            return false;
        }
        n = n.saturating_add(1);
    }
    design.element(n) == None && design.element(u32::MAX) == None
}

// Whether the first element begins at 0 and the last one there, and none behind it.
fn has_ends(design: &Design, last: usize) -> bool
    requires { IsWhole design.now }
{
    let count = design.count();
    design.offset(0) == Some(0)
        && design.offset(count.saturating_sub(1)) == Some(last)
        && design.offset(count) == None
}

// Whether a file that opens is read as its row says.
fn is_read(alloc: Global, row: &Sound) -> Result<bool, AllocError> {
    let bytes = file(alloc, row.first, row.mark, row.elements, row.tail)?;
    if bytes.len() > MOST_DESIGN {
        return Ok(false);
    }
    match read_design(alloc, bytes) {
        Ok(design) => Ok(
            design.dim == row.dim
                && design.tail.as_slice() == row.tail
                && design.count() == row.count
                && has_ends(&design, row.last)
                && has_elements(&design, row.elements),
        ),
        Err(_) => Ok(false),
    }
}

#[test]
fn files_that_open(rt: HostRuntime) -> Result<(), AllocError> {
    for row in &SOUND {
        assert!(rt; is_read(rt.alloc(), row)?, "{}", row.last);
    }
    Ok(())
}

// The rows of a TCB with bit C, the header of a chain and a line.
const ROWS: [Row; 3] = [
    Row {
        size: 1536,
        kind: 9,
        cbit: true,
        total: 0,
    },
    Row {
        size: 40,
        kind: 12,
        cbit: false,
        total: 27,
    },
    Row {
        size: 52,
        kind: 3,
        cbit: false,
        total: 0,
    },
];

// Whether a design has these rows.
fn has_rows(design: &Design, wanted: &[Row]) -> Result<bool, AllocError>
    requires { IsWhole design.now }
{
    let rows = design.rows()?;
    Ok(rows.as_slice() == wanted)
}

#[test]
fn rows_of_a_file(rt: HostRuntime) -> Result<(), AllocError> {
    let alloc = rt.alloc();
    let bytes = file(alloc, 0xC8, 0, &[&CHAIN_HEADER, &LINE], &[0xFF, 0xFF, 0x00])?;
    assert!(rt; bytes.len() <= MOST_DESIGN);
    match read_design(alloc, bytes) {
        Ok(design) => assert!(rt; has_rows(&design, &ROWS)?),
        Err(fault) => panic!(rt; "{fault}"),
    }
    Ok(())
}

// Room for what is kept of more elements changes no byte of a design.
fn is_as_read_with_room(mut design: Design, body: &[u8], tail: &[u8]) -> Result<bool, AllocError> {
    design.reserve_index(4097)?;
    Ok(design.body.as_slice() == body && design.tail.as_slice() == tail)
}

#[test]
fn room_for_elements(rt: HostRuntime) -> Result<(), AllocError> {
    let alloc = rt.alloc();
    let tail = [0xFF, 0xFF, 0x00];
    let body = drawing(alloc, 0x08, 0, &[&LINE])?;
    let bytes = file(alloc, 0x08, 0, &[&LINE], &tail)?;
    assert!(rt; bytes.len() <= MOST_DESIGN);
    match read_design(alloc, bytes) {
        Ok(design) => assert!(rt; is_as_read_with_room(design, &body, &tail)?),
        Err(fault) => panic!(rt; "{fault}"),
    }
    Ok(())
}
