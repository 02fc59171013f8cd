// Runs over a desk of memory, on worked drawings.

mod absent;
mod commands;
mod faults;
mod fences;
mod flushed;
mod generating;
mod hostile;
mod imports;
mod limits;
mod nested;
mod packing;
mod patches;
mod ranges;
mod rows;

use dgn_desk::{Desk, SureDesk};
use dgn_tool::*;
use sample_elements::{
    CELL_OF_81, CHAIN_OF_THREE, END, LINE, LINE_WITH_ATTRIBUTES, MEMBER, SPACE_CHAIN_OF_THREE,
    drawing,
};
use std::alloc::{AllocError, Global};
use std::process::Abort;
use std::test::Fail;

// So many bytes, all 0.
fn zeros(alloc: Global, count: usize) -> Result<Vec<u8>, AllocError> {
    vec![in alloc; 0; count]
}

// A TCB whose byte 1214 is given, of a file in space where that isn't 0, and pieces behind it.
fn design(alloc: Global, mark: u8, behind: &[&[u8]]) -> Result<Vec<u8>, AllocError> {
    let first = if mark == 0 { 0x08 } else { 0xC8 };
    drawing(alloc, first, mark, behind)
}

// The design with these bytes at their places.
fn with_bytes(mut design: Vec<u8>, changes: &[(usize, &[u8])]) -> Vec<u8> {
    for (place, bytes) in changes {
        let from = *place;
        if from < design.len() && bytes.len() <= design.len() - from {
            design[from..from + bytes.len()].copy_from_slice(bytes);
        }
    }
    design
}

// Adds a file to a desk. No test rests on more of it, so none has to carry what `add` says.
fn add_bytes(desk: &mut SureDesk, name: &str, bytes: Vec<u8>) -> Result<(), AllocError> {
    desk.add(name, bytes)
}

// These words, as strings.
fn strings(alloc: Global, list: &[&str]) -> Result<Vec<String>, AllocError> {
    let mut words = Vec::new(alloc);
    for word in list {
        words.push(String::from_str(alloc, word)?)?;
    }
    Ok(words)
}

// How a run of these words over a desk ends. No test rests on more of it, so none has to carry what `run` says.
fn ends<D: Desk>(alloc: Global, list: &[&str], desk: &mut D) -> Result<Status, AllocError> {
    let words = strings(alloc, list)?;
    Ok(run(alloc, &words, desk))
}

// A desk with files `in` and `s`, that moves 512 bytes at once.
fn desk_of(alloc: Global, files: (Vec<u8>, &[u8])) -> Result<SureDesk, AllocError> {
    let mut desk = SureDesk::new(alloc, 512);
    add_bytes(&mut desk, "in", files.0)?;
    add_bytes(&mut desk, "s", Vec::from_slice(alloc, files.1)?)?;
    Ok(desk)
}

// Runs these words on files `in` and `s`, in pieces of 512 bytes, and shows the status, what is said and the file `out`,
// or that there is none.
fn shows<R: Abort + Alloc<A = Global>>(
    rt: &R,
    list: &[&str],
    files: (Vec<u8>, &[u8]),
    wanted: (Status, &[u8], Option<&[u8]>),
) -> Result<(), AllocError> {
    let alloc = rt.alloc();
    let mut desk = desk_of(alloc, files)?;
    assert!(rt; ends(alloc, list, &mut desk)? == wanted.0);
    assert!(rt; desk.said() == wanted.1);
    assert!(rt; desk.file("out") == wanted.2);
    Ok(())
}

const EDIT: [&str; 4] = ["edit", "in", "s", "out"];

const CHECK: [&str; 2] = ["check", "in"];

const APPLY: [&str; 4] = ["apply", "in", "s", "out"];

// Damaged designs: byte 1214, what stands behind the TCB, the length that the file is cut to, what is said.
const DAMAGED: [(u8, &[&[u8]], usize, &[u8]); 7] = [
    (0, &[], 0, b"bad design not-design at 0\n"),
    (0, &[], 3, b"bad design not-design at 0\n"),
    (0, &[], 1000, b"bad design cut at 0\n"),
    (0, &[&LINE], 1587, b"bad design cut at 1536\n"),
    (
        0,
        &[&CHAIN_OF_THREE, &END],
        4000,
        b"bad design short at 1536\n",
    ),
    (
        0,
        &[&LINE_WITH_ATTRIBUTES, &END],
        4000,
        b"bad design attributes at 1536\n",
    ),
    (
        0x40,
        &[&SPACE_CHAIN_OF_THREE, &END],
        4000,
        b"bad design short at 1536\n",
    ),
];

// Shows that a run of these words calls a design with this script bad, and says that.
fn is_bad<R: Abort + Alloc<A = Global>>(
    rt: &R,
    list: &[&str],
    files: (Vec<u8>, &[u8]),
    said: &[u8],
) -> Result<(), AllocError> {
    shows(rt, list, files, (Status::BadDesign, said, None))
}

// A design, cut to so many bytes.
fn cut(alloc: Global, mark: u8, behind: &[&[u8]], len: usize) -> Result<Vec<u8>, AllocError> {
    let mut bytes = design(alloc, mark, behind)?;
    bytes.truncate(len);
    Ok(bytes)
}

#[test]
fn damaged_designs(rt: HostRuntime) -> Result<(), Fail> {
    let alloc = rt.alloc();
    let script = b"color 1 1".as_slice();
    for (mark, behind, len, said) in DAMAGED {
        is_bad(&rt, &EDIT, (cut(alloc, mark, behind, len)?, script), said)?;
        is_bad(&rt, &CHECK, (cut(alloc, mark, behind, len)?, script), said)?;
    }
    Ok(())
}

#[test]
fn a_file_of_another_kind(rt: HostRuntime) -> Result<(), Fail> {
    let other = Vec::from_slice(rt.alloc(), &[0x08, 0x05, 0x17, 0x00])?;
    is_bad(&rt, &EDIT, (other, b""), b"bad design not-design at 0\n")?;
    Ok(())
}

#[test]
fn length_limits(rt: HostRuntime) -> Result<(), Fail> {
    let alloc = rt.alloc();
    let long = b"too long design\n".as_slice();
    let files = (zeros(alloc, 67108865)?, b"".as_slice());
    shows(&rt, &CHECK, files, (Status::TooLong, long, None))?;
    let most = zeros(alloc, 1048577)?;
    let files = (design(alloc, 0, &[&LINE])?, most.as_slice());
    let long = b"too long script\n".as_slice();
    shows(&rt, &EDIT, files, (Status::TooLong, long, None))?;
    let fewer = zeros(alloc, 1048576)?;
    let files = (design(alloc, 0, &[&LINE])?, fewer.as_slice());
    let bad = b"bad script line 1\n".as_slice();
    shows(&rt, &EDIT, files, (Status::BadScript, bad, None))?;
    Ok(())
}

#[test]
fn words_of_the_command_line(rt: HostRuntime) -> Result<(), Fail> {
    let alloc = rt.alloc();
    let rows: [&[&str]; 14] = [
        &[],
        &["check"],
        &["check", "in", "out"],
        &["Check", "in"],
        &["gen", "07", "5", "out"],
        &["gen", "7", "0", "out"],
        &["gen", "7", "200001", "out"],
        &["edit", "in", "s", "in"],
        &["edit", "in", "s"],
        &["Edit", "in", "s", "out"],
        &["pack", "in", "s", "in"],
        &["pack", "in", "s"],
        &["apply", "in", "s", "in"],
        &["apply", "in", "s"],
    ];
    let usage =
        b"usage: dgnedit edit IN SCRIPT OUT, check IN, gen SEED COUNT OUT, pack IN SCRIPT PATCH, apply IN PATCH OUT\n";
    for row in rows {
        let files = (design(alloc, 0, &[])?, b"".as_slice());
        shows(&rt, row, files, (Status::Usage, usage.as_slice(), None))?;
    }
    Ok(())
}
