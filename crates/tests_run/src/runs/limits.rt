// Drawings as long as one may be, and a byte longer.

use super::*;
use sample_elements::SHORT_LINE;

// How many bytes a drawing may have.
const MOST: usize = 67108864;

// A drawing of a short line and the mark of the end, with zero bytes behind up to so many in all.
fn filled(alloc: Global, len: usize) -> Result<Vec<u8>, AllocError> {
    let mut bytes = design(alloc, 0, &[&SHORT_LINE, &END])?;
    bytes.resize(len, 0)?;
    Ok(bytes)
}

// A desk with that drawing, this script, and a second file of a line.
fn desk_of_most(alloc: Global, len: usize, script: &[u8]) -> Result<SureDesk, AllocError> {
    let mut desk = SureDesk::new(alloc, 1048576);
    add_bytes(&mut desk, "in", filled(alloc, len)?)?;
    add_bytes(&mut desk, "s", Vec::from_slice(alloc, script)?)?;
    add_bytes(&mut desk, "lib", design(alloc, 0, &[&LINE, &END])?)?;
    Ok(desk)
}

// Whether a file has so many bytes, of which these are the first, or isn't there. The zero bytes behind are not compared.
fn is_left(file: Option<&[u8]>, wanted: Option<(usize, &[u8])>) -> bool {
    match (file, wanted) {
        (Some(bytes), Some((len, front))) => bytes.len() == len && bytes.starts_with(front),
        (None, None) => true,
        _ => false,
    }
}

// Shows how a script on a drawing of so many bytes ends, what is said, and what the file `out` is.
fn comes_to<R: Abort + Alloc<A = Global>>(
    rt: &R,
    given: (usize, &[u8]),
    wanted: (Status, &[u8]),
    left: Option<(usize, &[u8])>,
) -> Result<(), AllocError> {
    let alloc = rt.alloc();
    let mut desk = desk_of_most(alloc, given.0, given.1)?;
    assert!(rt; ends(alloc, &EDIT, &mut desk)? == wanted.0);
    assert!(rt; desk.said() == wanted.1);
    assert!(rt; is_left(desk.file("out"), left));
    Ok(())
}

// The longest drawing is read, moved and written; no copy fits behind its elements, since the tail counts.
#[test]
fn the_longest_drawing(rt: HostRuntime) -> Result<(), Fail> {
    let script = b"copy 1 0 0\nmove 1 0 0\n".as_slice();
    let wanted = (Status::SomeRefused, b"refused too-long\nok\n".as_slice());
    let front = design(rt.alloc(), 0, &[&SHORT_LINE, &END])?;
    let left = Some((MOST, front.as_slice()));
    comes_to(&rt, (MOST, script), wanted, left)?;
    Ok(())
}

// A limit that is one too high would read this drawing.
#[test]
fn a_drawing_of_a_byte_more(rt: HostRuntime) -> Result<(), Fail> {
    let wanted = (Status::TooLong, b"too long design\n".as_slice());
    comes_to(&rt, (MOST + 1, b"move 1 0 0\n"), wanted, None)?;
    Ok(())
}

const IMPORT: &[u8] = b"import lib\n";

// The line of 52 bytes just fits: its bytes count, and not those of the second file.
#[test]
fn an_import_that_just_fits(rt: HostRuntime) -> Result<(), Fail> {
    let front = design(rt.alloc(), 0, &[&SHORT_LINE, &LINE, &END])?;
    let left = Some((MOST, front.as_slice()));
    let wanted = (Status::Done, b"ok 1\n".as_slice());
    comes_to(&rt, (MOST - 52, IMPORT), wanted, left)?;
    Ok(())
}

// With a byte more it doesn't.
#[test]
fn an_import_of_a_byte_more(rt: HostRuntime) -> Result<(), Fail> {
    let front = design(rt.alloc(), 0, &[&SHORT_LINE, &END])?;
    let left = Some((MOST - 51, front.as_slice()));
    let wanted = (Status::SomeRefused, b"refused too-long\n".as_slice());
    comes_to(&rt, (MOST - 51, IMPORT), wanted, left)?;
    Ok(())
}
