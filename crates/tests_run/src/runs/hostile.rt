// Files that are cut, totals that lie, and headers nested in each other.

use super::*;
use sample_elements::{
    CELL, CHAIN_HEADER, FIRST_STRING, NODE, SECOND_STRING, SHAPE_HEADER, SHAPE_PART, with_word,
};

// Where the elements of a usual file end.
const ENDS: [usize; 9] = [1536, 1568, 1600, 1632, 1702, 1766, 1830, 1878, 1940];

// The parts of a usual file: a TCB, two setup elements and group data, a text node, a complex shape, the mark of the end and
// what fills four blocks.
pub(super) fn usual(alloc: Global) -> Result<Vec<u8>, AllocError> {
    let mut setup = [0; 32];
    setup[..4].copy_from_slice(&[0x08, 0x08, 0x0E, 0x00]);
    let mut second = setup;
    second[1] = 0x0A;
    let mut group_data = setup;
    group_data[..2].copy_from_slice(&[0x09, 0x05]);
    let node = [NODE.as_slice(), &FIRST_STRING, &SECOND_STRING];
    let shape = [SHAPE_HEADER.as_slice(), &SHAPE_PART, &END];
    let mut bytes = design(alloc, 0, &[&setup, &second, &group_data])?;
    for part in node.iter().chain(&shape) {
        bytes.extend_from_slice(part)?;
    }
    bytes.resize(2048, 0)?;
    Ok(bytes)
}

// What `check` says of that file, cut to so many bytes.
fn cut_text(alloc: Global, size: usize) -> Result<(Status, String), AllocError> {
    let count = ENDS.iter().filter(|end| **end <= size).count();
    let last = ENDS.iter().filter(|end| **end <= size).last();
    let (status, text) = match last {
        _ if size < 4 => (
            Status::BadDesign,
            String::from_str(alloc, "bad design not-design at 0\n")?,
        ),
        None => (
            Status::BadDesign,
            String::from_str(alloc, "bad design cut at 0\n")?,
        ),
        Some(end) if *end == size || size >= 1942 => (
            Status::Done,
            format!(in alloc; "elements {count}\n")?,
        ),
        Some(end) => (
            Status::BadDesign,
            format!(in alloc; "bad design cut at {end}\n")?,
        ),
    };
    Ok((status, text))
}

#[test]
fn a_usual_file(rt: HostRuntime) -> Result<(), Fail> {
    let alloc = rt.alloc();
    let script = b"show\nlevels 4\nshow\nlinks 7\nsym 7 2 - -\n".as_slice();
    let said = b"4 0 7 3 0 0 0 node 0,0
5 1 17 3 0 0 0 text 0,0 ABC
6 1 17 3 0 0 0 text 0,-10 DEFG
7 0 14 4 0 0 0 group
8 1 4 4 0 0 0 path 0,0 10,0 10,10
shown 5
ok
7 0 14 4 0 0 0 group
8 1 4 4 0 0 0 path 0,0 10,0 10,10
shown 2
40 8 dmrs
links 1
ok
"
        .as_slice();
    let out = with_bytes(usual(alloc)?, &[(1865, &[2]), (1913, &[2])]);
    let wanted = (Status::Done, said, Some(out.as_slice()));
    shows(&rt, &EDIT, (usual(alloc)?, script), wanted)?;
    for size in 0..2049 {
        let mut bytes = usual(alloc)?;
        bytes.truncate(size);
        let (status, text) = cut_text(alloc, size)?;
        shows(&rt, &CHECK, (bytes, b""), (status, text.as_bytes(), None))?;
    }
    Ok(())
}

// What is said where a script is run on a design, and the file that is written.
fn said_and_written(
    alloc: Global,
    design: Vec<u8>,
    script: &[u8],
) -> Result<(Vec<u8>, Vec<u8>), AllocError> {
    let mut desk = SureDesk::new(alloc, 65536);
    add_bytes(&mut desk, "in", design)?;
    add_bytes(&mut desk, "s", Vec::from_slice(alloc, script)?)?;
    ends(alloc, &EDIT, &mut desk)?;
    let said = Vec::from_slice(alloc, desk.said())?;
    let written = Vec::from_slice(alloc, desk.file("out").unwrap_or(&[]))?;
    Ok((said, written))
}

#[test]
fn lying_totals(rt: HostRuntime) -> Result<(), Fail> {
    let alloc = rt.alloc();
    for total in 0..61 {
        let cell = sample_elements::with_byte(CELL, 36, total);
        let design = design(alloc, 0, &[&cell, &MEMBER, &END])?;
        let (said, _) = said_and_written(alloc, design, b"move 1 1 1\nshow\n")?;
        let (first, last): (&[u8], &[u8]) = match total {
            53 => (b"ok\n", b"\nshown 2\n"),
            27 => (b"ok\n", b"\nshown 1\n"),
            _ => (b"refused broken 1\n", b"\nshown 1\n"),
        };
        assert!(rt; said.starts_with(first));
        assert!(rt; said.ends_with(last));
    }
    let nested = nested_headers(alloc)?;
    let script = b"tree 1\nshow\ndelete 1\nundo\n";
    let (said, written) = said_and_written(alloc, nested_headers(alloc)?, script)?;
    let end = b"\n3277 3276 12 1 group live\ntree 3277\nshown 0\nok\nok\n".as_slice();
    assert!(rt; said.ends_with(end));
    assert!(rt; said.iter().filter(|byte| **byte == b'\n').count() == 3281);
    assert!(rt; written == nested);
    Ok(())
}

// Headers of complex chains, each of which holds all that stand behind it.
fn nested_headers(alloc: Global) -> Result<Vec<u8>, AllocError> {
    let mut bytes = design(alloc, 0, &[])?;
    for before in 0..3277 {
        let header = with_word(with_word(CHAIN_HEADER, 36, 65521 - 20 * before), 38, 0);
        let header = sample_elements::with_byte(header, 0, if before == 0 { 0x01 } else { 0x81 });
        bytes.extend_from_slice(&header)?;
    }
    bytes.extend_from_slice(&END)?;
    Ok(bytes)
}
