// Imports of second drawings.

use super::*;
use dgn_drawing::{MOST_DESIGN, Shift};
use dgn_import::read_second;
use dgn_session::Session;
use elem_index::read_design;
use sample_elements::{ARC, SPACE_LINE};

// A desk with a design file of a line, this script, and a second file `lib`.
fn desk_with(alloc: Global, script: &[u8], lib: Vec<u8>) -> Result<SureDesk, AllocError> {
    let mut desk = SureDesk::new(alloc, 65536);
    add_bytes(&mut desk, "in", design(alloc, 0, &[&LINE, &END])?)?;
    add_bytes(&mut desk, "s", Vec::from_slice(alloc, script)?)?;
    add_bytes(&mut desk, "lib", lib)?;
    Ok(desk)
}

// A cell of a line and an arc.
fn library(alloc: Global) -> Result<Vec<u8>, AllocError> {
    design(alloc, 0, &[&CELL_OF_81, &MEMBER, &ARC, &END])
}

const SCRIPT: &[u8] = b"import lib\nimport lib 1 1\nshow\nundo\nshow\n";

// What that says: the arc, element 3 of the second file, keeps the cell from being displaced.
const SAID: &[u8] = b"ok 1\nrefused import floating 3\n1 0 3 1 0 0 0 path 0,0 100,50\n\
2 0 2 1 0 0 0 cell [ABC       ] 0,0\n3 1 3 1 0 0 0 path 0,0 100,50\n4 1 16 1 0 0 0 box 5,5 9,9\nshown 4\nok\n\
1 0 3 1 0 0 0 path 0,0 100,50\nshown 1\n";

// Runs these lists of words one after the other over a desk with this script and that cell as the second file. Gives
// how the last one ends, all that is said, and the file `out`. No test rests on more of it.
fn runs(
    alloc: Global,
    script: &[u8],
    lists: &[&[&str]],
) -> Result<(Status, Vec<u8>, Vec<u8>), AllocError> {
    let mut desk = desk_with(alloc, script, library(alloc)?)?;
    let mut status = Status::Memory;
    for list in lists {
        status = ends(alloc, list, &mut desk)?;
    }
    let said = Vec::from_slice(alloc, desk.said())?;
    let out = Vec::from_slice(alloc, desk.file("out").unwrap_or(b""))?;
    Ok((status, said, out))
}

#[test]
fn an_import(rt: HostRuntime) -> Result<(), Fail> {
    let alloc = rt.alloc();
    let (status, said, out) = runs(alloc, SCRIPT, &[&EDIT])?;
    assert!(rt; status == Status::SomeRefused);
    assert!(rt; said.as_slice() == SAID);
    assert!(rt; out == design(alloc, 0, &[&LINE, &END])?);
    Ok(())
}

// The patch file of an import that is left, applied, gives the file that `edit` writes.
#[test]
fn a_packed_import(rt: HostRuntime) -> Result<(), Fail> {
    let alloc = rt.alloc();
    let whole = design(alloc, 0, &[&LINE, &CELL_OF_81, &MEMBER, &ARC, &END])?;
    let (status, _, out) = runs(alloc, b"import lib\n", &[&EDIT])?;
    assert!(rt; status == Status::Done);
    assert!(rt; out == whole);
    let pack: [&str; 4] = ["pack", "in", "s", "p"];
    let apply: [&str; 4] = ["apply", "in", "p", "out"];
    let (status, said, out) = runs(alloc, b"import lib\n", &[&pack, &apply])?;
    assert!(rt; status == Status::Done);
    assert!(rt; said.as_slice() == b"entries 1\napplied 1\n".as_slice());
    assert!(rt; out == whole);
    Ok(())
}

// Shows how an import of this second file ends, and what it says.
fn comes_to<R: Abort + Alloc<A = Global>>(
    rt: &R,
    lib: Vec<u8>,
    status: Status,
    said: &[u8],
) -> Result<(), AllocError> {
    let alloc = rt.alloc();
    let mut desk = desk_with(alloc, b"import lib\n", lib)?;
    assert!(rt; ends(alloc, &EDIT, &mut desk)? == status);
    assert!(rt; desk.said() == said);
    Ok(())
}

#[test]
fn imports_that_are_refused(rt: HostRuntime) -> Result<(), Fail> {
    let alloc = rt.alloc();
    let refused = Status::SomeRefused;
    let space = design(alloc, 0x40, &[&SPACE_LINE, &END])?;
    comes_to(&rt, space, refused, b"refused import dimension\n")?;
    let three = Vec::from_slice(alloc, &[0x08, 0x09, 0xFE])?;
    comes_to(&rt, three, refused, b"refused import not-design at 0\n")?;
    let cut = design(alloc, 0, &[&LINE[..50]])?;
    comes_to(&rt, cut, refused, b"refused import cut at 1536\n")?;
    let short = design(alloc, 0, &[&CHAIN_OF_THREE, &END])?;
    comes_to(&rt, short, refused, b"refused import short at 1536\n")?;
    let data = design(alloc, 0, &[&LINE_WITH_ATTRIBUTES, &END])?;
    comes_to(&rt, data, refused, b"refused import attributes at 1536\n")?;
    Ok(())
}

// A second file without trees, and one of too many bytes.
#[test]
fn imports_at_the_limits(rt: HostRuntime) -> Result<(), Fail> {
    let alloc = rt.alloc();
    let none = design(alloc, 0, &[&END])?;
    comes_to(&rt, none, Status::Done, b"ok 0\n")?;
    let long = zeros(alloc, 67108865)?;
    comes_to(&rt, long, Status::TooLong, b"too long import\n")?;
    Ok(())
}

// A session on the design file of a line.
pub(super) fn begun(alloc: Global) -> Option<Session> {
    match design(alloc, 0, &[&LINE, &END]) {
        Ok(bytes) if bytes.len() <= MOST_DESIGN => match read_design(alloc, bytes) {
            Ok(drawing) => Session::start(alloc, drawing).ok(),
            Err(_) => None,
        },
        _ => None,
    }
}

// What an import of that cell in a session says, and whether it is refused.
fn answered(
    alloc: Global,
    session: &mut Session,
    by: Option<&Shift>,
) -> Result<(Vec<u8>, bool), AllocError> {
    let mut said = Vec::new(alloc);
    let bytes = library(alloc)?;
    if bytes.len() > MOST_DESIGN {
        return Ok((said, true));
    }
    let second = read_second(alloc, bytes)?;
    let refused = answer_import(alloc, session, &second, by, &mut said)?;
    Ok((said, refused))
}

// The call for a second file that is kept, which the runs don't make.
#[test]
fn an_import_in_a_session(rt: HostRuntime) -> Result<(), Fail> {
    let alloc = rt.alloc();
    let Some(mut session) = begun(alloc) else {
        return Err(AllocError.into());
    };
    let (said, refused) = answered(alloc, &mut session, None)?;
    assert!(rt; said.as_slice() == b"ok 1\n".as_slice());
    assert!(rt; !refused);
    let by = Shift {
        axes: 2,
        by: [1, 1, 0],
    };
    let (said, refused) = answered(alloc, &mut session, Some(&by))?;
    assert!(rt; said.as_slice() == b"refused import floating 3\n".as_slice());
    assert!(rt; refused);
    let whole = design(alloc, 0, &[&LINE, &CELL_OF_81, &MEMBER, &ARC])?;
    assert!(rt; session.body() == whole.as_slice());
    Ok(())
}
