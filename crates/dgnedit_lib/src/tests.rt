// Runs that don't end for want of memory, where there is some.

use super::*;
use std::test::Fail;

// A drawing of two axes with a TCB alone, and the mark behind it.
fn first_element_alone(alloc: Global) -> Result<Vec<u8>, Fail> {
    let mut bytes = Vec::new(alloc);
    bytes.extend_from_slice(&[0x08, 0x09, 0xFE, 0x02])?;
    bytes.resize(1536, 0)?;
    bytes.extend_from_slice(&[0xFF, 0xFF])?;
    Ok(bytes)
}

// Runs `check` with a file of this name, over a drawing that is handed in as `in`.
fn check(alloc: Global, name: &[u8], text: &mut [u8]) -> Result<Ended, Fail> {
    let design = first_element_alone(alloc)?;
    let files = [LentFile {
        name: b"in",
        bytes: design.as_slice(),
    }];
    let words = [Word { bytes: b"check" }, Word { bytes: name }];
    Ok(dgnedit_run(alloc, &words, &files, text, &mut []))
}

// A file has so many elements; one that isn't handed in ends the run with 5 and its name, and no words with 2.
#[test]
fn runs_with_memory_end(rt: HostRuntime) -> Result<(), Fail> {
    let alloc = rt.alloc();
    let mut text = [0; 11];
    let ended = check(alloc, b"in", &mut text)?;
    assert!(rt; ended.status == 0 && ended.text_length == 11 && !ended.file_written);
    assert!(rt; text.as_slice() == b"elements 1\n".as_slice());
    let missing = check(alloc, b"inn", &mut text)?;
    assert!(rt; missing.status == 5 && missing.text_length == 3);
    assert!(rt; text.as_slice() == b"innments 1\n".as_slice());
    let usage = dgnedit_run(alloc, &[], &[], &mut [], &mut []);
    assert!(rt; usage.status == 2 && usage.text_length == 106);
    Ok(())
}
