// Runs as the program makes them: what is said is held back, over a desk of whose calls each fails in turn.

use super::faults::{desk_of_all, failing, letters};
use super::packing::PACK;
use super::*;
use dgn_desk::{Act, MemDesk};
use std::io;
use std::process::ExitCode;

// Runs these words so. Gives what the program ends with, and the desk.
fn flushed(alloc: Global, list: &[&str], desk: MemDesk) -> Result<(ExitCode, MemDesk), AllocError> {
    let words = strings(alloc, list)?;
    Ok(run_flushed(alloc, Ok(words), desk))
}

// Whether OUT holds nothing that it would not hold, and isn't there where its text comes first and wasn't all said.
fn is_begun_in_turn(desk: &MemDesk, whole: &MemDesk, says_first: bool) -> bool {
    match (desk.file("out"), whole.file("out")) {
        (None, _) => true,
        (Some(bytes), Some(all)) => {
            all.starts_with(bytes) && (!says_first || desk.said() == whole.said())
        }
        (Some(_), None) => false,
    }
}

// Runs these words once for each call that they made over the desk on which none failed, with that call failing: the
// number is that of the fault, a front of the text was said, and OUT isn't begun before the text where that comes first.
fn fails_in_turn<R: Abort + Alloc<A = Global>>(
    rt: &R,
    list: &[&str],
    whole: &MemDesk,
    says_first: bool,
) -> Result<(), AllocError> {
    let alloc = rt.alloc();
    let mut call = 0;
    for act in whole.acts() {
        let (ended, desk) = flushed(alloc, list, failing(alloc, call)?)?;
        let number = if matches!(act, Act::BeginRead | Act::Read) {
            5
        } else {
            6
        };
        assert!(rt; ended == ExitCode::from(number));
        assert!(rt; whole.said().starts_with(desk.said()));
        assert!(rt; is_begun_in_turn(&desk, whole, says_first));
        call = call.saturating_add(1);
    }
    Ok(())
}

// The texts of an edit are said by one call, before OUT is begun; those of other forms by one at the end.
#[test]
fn each_call_fails_in_turn(rt: HostRuntime) -> Result<(), Fail> {
    let alloc = rt.alloc();
    let generated = ["gen", "7", "3", "out"];
    let rows: [(&[&str], &[u8], bool); 4] = [
        (&EDIT, b"RrrrrrRrrsWwwwww", true),
        (&CHECK, b"Rrrrrrs", true),
        (&PACK, b"RrrrrrRrrWws", false),
        (&generated, b"Wwwwwws", false),
    ];
    for (list, calls, says_first) in rows {
        let (ended, whole) = flushed(alloc, list, desk_of_all(alloc)?)?;
        assert!(rt; ended == ExitCode::SUCCESS);
        assert!(rt; letters(alloc, whole.acts())?.as_slice() == calls);
        fails_in_turn(&rt, list, &whole, says_first)?;
    }
    Ok(())
}

// Words that aren't text are of no form, and where there was no memory for them nothing is run.
#[test]
fn words_that_were_not_given(rt: HostRuntime) -> Result<(), Fail> {
    let alloc = rt.alloc();
    let rows = [
        (io::ErrorKind::InvalidData, 2, 106),
        (io::ErrorKind::OutOfMemory, 7, 0),
    ];
    for (kind, number, said) in rows {
        let (ended, desk) = run_flushed(alloc, Err(io::Error::from(kind)), desk_of_all(alloc)?);
        assert!(rt; ended == ExitCode::from(number));
        assert!(rt; desk.said().len() == said);
    }
    Ok(())
}
