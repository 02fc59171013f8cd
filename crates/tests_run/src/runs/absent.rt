// Runs over a desk of memory that lacks a file which they read.

use super::*;
use dgn_desk::MemDesk;

// The files that the runs read: a drawing, a script of an import, and its second file.
const FILES: [(&str, &[&[u8]], &[u8]); 3] = [
    ("in", &[&LINE, &END], b""),
    ("s", &[], b"show\nmove 1 10 -5\nimport lib\n"),
    ("lib", &[&LINE, &END], b""),
];

// A file of a drawing of these pieces, or of these bytes where there are no pieces.
fn file_of(alloc: Global, pieces: &[&[u8]], bytes: &[u8]) -> Result<Vec<u8>, AllocError> {
    if pieces.is_empty() {
        Vec::from_slice(alloc, bytes)
    } else {
        design(alloc, 0, pieces)
    }
}

// A desk with all of these but the one of that name.
fn desk_without(alloc: Global, name: &str) -> Result<MemDesk, AllocError> {
    let mut desk = MemDesk::new(alloc, 512);
    for (other, pieces, bytes) in FILES {
        if other != name {
            desk.add(other, file_of(alloc, pieces, bytes)?)?;
        }
    }
    Ok(desk)
}

// What a run over that desk comes to: how it ends, how much it says, and whether there is a file `out`.
fn without(alloc: Global, name: &str) -> Result<(Status, usize, bool), AllocError> {
    let mut desk = desk_without(alloc, name)?;
    let status = ends(alloc, &EDIT, &mut desk)?;
    Ok((status, desk.said().len(), desk.file("out").is_some()))
}

// A run that takes a file which isn't there for an empty one would go on: without the script it would write IN again,
// and without the second file it would say what `show` says and refuse the import.
#[test]
fn files_that_are_not_there(rt: HostRuntime) -> Result<(), Fail> {
    let alloc = rt.alloc();
    for name in ["in", "s", "lib"] {
        assert!(rt;
            without(alloc, name)? == (Status::ReadFault, 0, false),
            "{name}"
        );
    }
    let shown = b"1 0 3 1 0 0 0 path 0,0 100,50\nshown 1\nok\nok 1\n".len();
    assert!(rt; without(alloc, "none")? == (Status::Done, shown, true));
    Ok(())
}
