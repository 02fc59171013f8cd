// Runs over a desk in pieces of 512 bytes, of whose calls each fails in turn.

use super::packing::PACK;
use super::patches::PATCH;
use super::*;
use dgn_desk::{Act, MemDesk};

// Adds a file of these bytes. No test rests on more of it.
fn add(desk: &mut MemDesk, alloc: Global, name: &str, bytes: &[u8]) -> Result<(), AllocError> {
    desk.add(name, Vec::from_slice(alloc, bytes)?)
}

// A desk with a design file of a line, a script, a patch file, a script of two imports, and their second file.
pub(super) fn desk_of_all(alloc: Global) -> Result<MemDesk, AllocError> {
    let mut desk = MemDesk::new(alloc, 512);
    let line = design(alloc, 0, &[&LINE, &END])?;
    add(&mut desk, alloc, "in", &line)?;
    add(&mut desk, alloc, "s", b"show\nmove 1 10 -5\nshow\n")?;
    add(&mut desk, alloc, "p", &PATCH)?;
    add(&mut desk, alloc, "imports", b"import lib\nimport lib 1 1\n")?;
    add(&mut desk, alloc, "lib", &line)?;
    Ok(desk)
}

// The same desk, of whose calls this one fails.
pub(super) fn failing(alloc: Global, call: u64) -> Result<MemDesk, AllocError> {
    let mut desk = desk_of_all(alloc)?;
    desk.fail_at(call)?;
    Ok(desk)
}

// Calls of a desk, a letter for each: R and W begin to read and to write, r and w read and write, and s says.
pub(super) fn letters(alloc: Global, acts: &[Act]) -> Result<Vec<u8>, AllocError> {
    let mut letters = Vec::new(alloc);
    for act in acts {
        letters.push(match act {
            Act::BeginRead => b'R',
            Act::Read => b'r',
            Act::Say => b's',
            Act::BeginWrite => b'W',
            Act::Write => b'w',
        })?;
    }
    Ok(letters)
}

// Whether a file isn't there, or has some first part of the bytes of a file that is.
fn is_part(file: Option<&[u8]>, whole: Option<&[u8]>) -> bool {
    match (file, whole) {
        (None, _) => true,
        (Some(bytes), Some(all)) => all.starts_with(bytes),
        (Some(_), None) => false,
    }
}

// Runs these words over a desk. Gives how the run ends, and the desk.
fn goes(alloc: Global, list: &[&str], mut desk: MemDesk) -> Result<(Status, MemDesk), AllocError> {
    let status = ends(alloc, list, &mut desk)?;
    Ok((status, desk))
}

// Runs these words once for each call that they made over the desk on which none failed, with that call
// failing.
fn fails_in_turn<R: Abort + Alloc<A = Global>>(
    rt: &R,
    list: &[&str],
    whole: &MemDesk,
) -> Result<(), AllocError> {
    let alloc = rt.alloc();
    let mut call = 0;
    for act in whole.acts() {
        let (status, desk) = goes(alloc, list, failing(alloc, call)?)?;
        if matches!(act, Act::BeginRead | Act::Read) {
            assert!(rt; status == Status::ReadFault);
            assert!(rt; desk.said().is_empty() && desk.file("out").is_none());
        } else {
            assert!(rt; status == Status::WriteFault);
        }
        assert!(rt; whole.said().starts_with(desk.said()));
        assert!(rt; is_part(desk.file("out"), whole.file("out")));
        call = call.saturating_add(1);
    }
    Ok(())
}

// Runs these words over that desk: no call fails, these calls are made, and this is said. Then runs them once for each
// call, with that call failing.
fn each_call_fails<R: Abort + Alloc<A = Global>>(
    rt: &R,
    list: &[&str],
    calls: &[u8],
    said: &[u8],
) -> Result<(), AllocError> {
    let alloc = rt.alloc();
    let (status, whole) = goes(alloc, list, desk_of_all(alloc)?)?;
    assert!(rt; status == Status::Done);
    assert!(rt; whole.said() == said);
    assert!(rt; letters(alloc, whole.acts())?.as_slice() == calls);
    fails_in_turn(rt, list, &whole)
}

// IN and the second file have 1590 bytes, OUT a body of 1588, with an import one of 1692, and that of `gen` one of 1928,
// each with a tail of two; PATCH has 128.
#[test]
fn each_call_of_an_edit_fails_in_turn(rt: HostRuntime) -> Result<(), Fail> {
    let said =
        b"1 0 3 1 0 0 0 path 0,0 100,50\nshown 1\nok\n1 0 3 1 0 0 0 path 10,-5 110,45\nshown 1\n";
    each_call_fails(&rt, &EDIT, b"RrrrrrRrrsssWwwwww", said)?;
    let imports = ["edit", "in", "imports", "out"];
    let calls = b"RrrrrrRrrRrrrrrRrrrrrssWwwwww";
    each_call_fails(&rt, &imports, calls, b"ok 1\nok 1\n")?;
    Ok(())
}

#[test]
fn each_call_of_other_runs_fails_in_turn(rt: HostRuntime) -> Result<(), Fail> {
    each_call_fails(&rt, &CHECK, b"Rrrrrrs", b"elements 2\n")?;
    each_call_fails(&rt, &PACK, b"RrrrrrRrrWws", b"entries 1\n")?;
    let apply = ["apply", "in", "p", "out"];
    each_call_fails(&rt, &apply, b"RrrrrrRrrWwwwwws", b"applied 1\n")?;
    let generated = ["gen", "7", "3", "out"];
    let made = b"elements 7\nbytes 1930\nshown 6\nmoved 2\nmarked 2\naccepted 8\nrefused 1\n";
    each_call_fails(&rt, &generated, b"Wwwwwws", made)?;
    Ok(())
}
