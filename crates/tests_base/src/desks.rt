// The desk of the machine on a real file, and the calls over desks of memory in small pieces.

mod full_output;

use dgn_desk::*;
use full_output::{FULL, FullOutput};
use std::alloc::{AllocError, Global};
use std::fs;
use std::process::Abort;
use std::test::Fail;

const NAME: &str = "desk_test.tmp";

const MANY_NAME: &str = "desk_test_many.tmp";

// A name in a folder that isn't there.
const IN_NO_FOLDER: &str = "no_folder/desk_test.tmp";

// What the calls over a desk answer. No test rests on more of them, so none has to carry what they say of the desk.
fn read<D: Desk>(alloc: Global, desk: &mut D, name: &str, limit: u8) -> Result<Vec<u8>, ReadEnd> {
    read_all(alloc, desk, name, usize::from(limit))
}

fn write<D: Desk>(
    desk: &mut D,
    name: &str,
    body: &[u8],
    tail: &[u8],
    filling: &[u8],
) -> Result<(), Stop> {
    write_file(desk, name, body, tail, filling)
}

fn say<D: Desk>(desk: &mut D, bytes: &[u8]) -> Result<(), Stop> {
    say_all(desk, bytes)
}

// Whether reading a whole file gives these bytes, or ends so.
fn reads<D: Desk>(
    alloc: Global,
    desk: &mut D,
    name: &str,
    limit: u8,
    wanted: Result<&[u8], ReadEnd>,
) -> bool {
    match read(alloc, desk, name, limit) {
        Ok(bytes) => wanted == Ok(bytes.as_slice()),
        Err(end) => wanted == Err(end),
    }
}

// Shows that nothing is read or written where no file was begun.
fn moves_nothing<R: Abort, D: Desk>(rt: &R, desk: &mut D) {
    let mut buf = [0; 4];
    assert!(rt; desk.read(&mut buf) == Ok(0));
    assert!(rt; desk.write(b"lost") == Err(Stop::Failed));
}

// Shows that a file that is written is read again, and so is an empty one in its place.
fn keeps_files<R: Abort + Alloc<A = Global>, D: Desk>(rt: &R, desk: &mut D) {
    let alloc = rt.alloc();
    assert!(rt; write(desk, NAME, b"body ", b"ta", b"il") == Ok(()));
    assert!(rt; reads(alloc, desk, NAME, 8, Err(ReadEnd::TooLong)));
    assert!(rt; reads(alloc, desk, NAME, 9, Ok(b"body tail")));
    assert!(rt; write(desk, NAME, b"", b"", b"") == Ok(()));
    assert!(rt; reads(alloc, desk, NAME, 9, Ok(b"")));
}

#[test]
fn host_desk_writes_reads_and_says(rt: HostRuntime) -> Result<(), Fail> {
    let alloc = rt.alloc();
    let mut desk = HostDesk::new(rt.clone()?);
    moves_nothing(&rt, &mut desk);
    keeps_files(&rt, &mut desk);
    fs::remove_file(&rt, NAME)?;
    assert!(rt; reads(alloc, &mut desk, NAME, 9, Err(ReadEnd::Fault)));
    assert!(rt; say(&mut desk, b"said\n") == Ok(()));
    Ok(())
}

// How many bytes the file of many pieces has: a piece is 65,536 bytes at most, and a write of the system may take fewer.
const MANY: usize = 200_000;

// The bytes of the file of many pieces: no piece has those of another.
fn many_bytes(alloc: Global) -> Result<Vec<u8>, AllocError> {
    let mut bytes = Vec::with_capacity(alloc, MANY)?;
    for at in 0..MANY {
        bytes.push((at % 251) as u8)?;
    }
    Ok(bytes)
}

// A desk that ends a file after its first piece, or writes others, differs here.
#[test]
fn host_desk_on_many_pieces(rt: HostRuntime) -> Result<(), Fail> {
    let bytes = many_bytes(rt.alloc())?;
    let mut desk = HostDesk::new(rt.clone()?);
    assert!(rt; write(&mut desk, MANY_NAME, bytes.as_slice(), b"", b"") == Ok(()));
    let read = read_all(rt.alloc(), &mut desk, MANY_NAME, MANY);
    fs::remove_file(&rt, MANY_NAME)?;
    assert!(rt; read == Ok(bytes));
    Ok(())
}

// Shows that a folder isn't read as a file that ends at once, and that a file isn't begun in a folder that isn't there.
fn has_no_folders<R: Abort + Alloc<A = Global>, D: Desk>(rt: &R, desk: &mut D) {
    assert!(rt; reads(rt.alloc(), desk, ".", 9, Err(ReadEnd::Fault)));
    assert!(rt; write(desk, IN_NO_FOLDER, b"", b"", b"") == Err(Stop::Failed));
}

// A desk that takes a failed read for the end of a file would read a folder as an empty one. Of a file that can't be made
// not even nothing is written.
#[test]
fn host_desk_on_folders(rt: HostRuntime) -> Result<(), Fail> {
    let mut desk = HostDesk::new(rt.clone()?);
    has_no_folders(&rt, &mut desk);
    Ok(())
}

// Shows that a full disk's error is a fault of writing.
fn takes_no_byte<R: Abort, D: Desk>(rt: &R, desk: &mut D) {
    assert!(rt; write(desk, FULL, b"a", b"", b"") == Err(Stop::Failed));
    assert!(rt; say(desk, b"lost") == Err(Stop::Failed));
}

// A device that takes no byte, as a file and as the output.
#[test]
fn host_desk_on_a_full_disk(rt: HostRuntime) -> Result<(), Fail> {
    let mut desk = HostDesk::new(FullOutput::new(rt.clone()?));
    takes_no_byte(&rt, &mut desk);
    Ok(())
}

// A desk of memory with one file, "in", of five bytes, that moves so many bytes at once.
fn with_bytes(alloc: Global, piece: usize) -> Result<MemDesk, AllocError> {
    let mut desk = MemDesk::new(alloc, piece.max(1));
    desk.add("in", Vec::from_slice(alloc, b"bytes")?)?;
    Ok(desk)
}

// That desk, moving a byte at a time, of whose calls this one fails.
fn failing(alloc: Global, at: u64) -> Result<MemDesk, AllocError> {
    let mut desk = with_bytes(alloc, 1)?;
    desk.fail_at(at)?;
    Ok(desk)
}

// The first five calls over that desk: of a file that isn't there, a write to none, and the first byte of the one that is.
fn reads_a_byte<R: Abort, D: Desk>(rt: &R, desk: &mut D) {
    let mut buf = [0; 4];
    assert!(rt; desk.begin_read("none") == Err(Stop::Failed));
    assert!(rt; desk.write(b"lost") == Err(Stop::Failed));
    assert!(rt; desk.begin_read("in") == Ok(()));
    assert!(rt; desk.read(&mut buf) == Err(Stop::Failed));
    assert!(rt; desk.read(&mut buf) == Ok(1));
    assert!(rt; buf == *b"b\0\0\0");
}

// The three calls after those.
fn writes_and_says_a_byte<R: Abort, D: Desk>(rt: &R, desk: &mut D) {
    assert!(rt; desk.begin_write("out") == Ok(()));
    assert!(rt; desk.write(b"abc") == Ok(1));
    assert!(rt; desk.say(b"def") == Ok(1));
}

const ACTS: [Act; 8] = [
    Act::BeginRead,
    Act::Write,
    Act::BeginRead,
    Act::Read,
    Act::Read,
    Act::BeginWrite,
    Act::Write,
    Act::Say,
];

// Calls are numbered whether they fail or not.
#[test]
fn mem_desk_call_by_call(rt: HostRuntime) -> Result<(), Fail> {
    let mut desk = failing(rt.alloc(), 3)?;
    reads_a_byte(&rt, &mut desk);
    writes_and_says_a_byte(&rt, &mut desk);
    assert!(rt; desk.file("out") == Some(b"a".as_slice()));
    assert!(rt; desk.said() == b"d".as_slice());
    assert!(rt; desk.acts() == ACTS.as_slice());
    Ok(())
}

// How many calls there were after a file was read, a text said, and a body, a tail and what fills it written, by a desk of
// memory that moves so many bytes at once.
fn calls(alloc: Global, piece: usize) -> Result<[usize; 3], AllocError> {
    let mut desk = with_bytes(alloc, piece)?;
    let _ = read(alloc, &mut desk, "in", 9);
    let read = desk.acts().len();
    let _ = say(&mut desk, b"one");
    let said = desk.acts().len();
    let _ = write(&mut desk, "out", b"abc", b"d", b"e");
    Ok([read, said, desk.acts().len()])
}

// Whole calls hand on all that is left: a text, a body, a tail and what fills it, in one call each where
// the desk takes it whole.
#[test]
fn calls_in_pieces(rt: HostRuntime) -> Result<(), Fail> {
    assert!(rt; calls(rt.alloc(), 100)? == [3, 4, 8]);
    assert!(rt; calls(rt.alloc(), 2)? == [5, 7, 12]);
    Ok(())
}

// What is lent to a desk: two files of one name, and an empty one.
const LENT: [LentFile<'static>; 3] = [
    LentFile {
        name: b"in",
        bytes: b"bytes",
    },
    LentFile {
        name: b"in",
        bytes: b"others",
    },
    LentFile {
        name: b"",
        bytes: b"",
    },
];

// Shows that a desk reads what is lent to it, fails where a file isn't there, and reads what was written before what is lent.
fn reads_what_is_lent<R: Abort + Alloc<A = Global>, D: Desk>(rt: &R, desk: &mut D) {
    let alloc = rt.alloc();
    assert!(rt; reads(alloc, desk, "none", 9, Err(ReadEnd::Fault)));
    assert!(rt; reads(alloc, desk, "in", 9, Ok(b"bytes")));
    assert!(rt; reads(alloc, desk, "", 9, Ok(b"")));
    assert!(rt; write(desk, "in", b"wri", b"tt", b"en") == Ok(()));
    assert!(rt; reads(alloc, desk, "in", 9, Ok(b"written")));
    assert!(rt; say(desk, b"said") == Ok(()));
}

#[test]
fn lent_desk_over_three_files(rt: HostRuntime) -> Result<(), Fail> {
    let mut desk = LentDesk::new(rt.alloc(), &LENT);
    assert!(rt; desk.write(b"lost") == Ok(4));
    reads_what_is_lent(&rt, &mut desk);
    assert!(rt; desk.file("in") == Some(b"written".as_slice()));
    assert!(rt; desk.file("none").is_none());
    assert!(rt; desk.said() == b"said".as_slice());
    Ok(())
}
