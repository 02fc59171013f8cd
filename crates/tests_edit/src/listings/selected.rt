// What is said of the trees that a fence chooses, behind what stood before.

use dgn_listing::write_selected;
use std::alloc::{AllocError, Global};
use std::test::Fail;

const CHOSEN: [(&[u32], &[u8]); 3] = [
    (&[1, 2, 3], b"ok\n1\n2\n3\nselected 3\n"),
    (&[4], b"ok\n4\nselected 1\n"),
    (&[], b"ok\nselected 0\n"),
];

// What is said of numbers behind a line.
fn said(alloc: Global, numbers: &[u32]) -> Result<Vec<u8>, AllocError> {
    let mut out = Vec::from_slice(alloc, b"ok\n")?;
    write_selected(alloc, &mut out, numbers)?;
    Ok(out)
}

// Each number is said, and how many there are.
#[test]
fn says_each_number(rt: HostRuntime) -> Result<(), Fail> {
    for (numbers, wanted) in &CHOSEN {
        assert!(rt; said(rt.alloc(), numbers)?.as_slice() == *wanted);
    }
    Ok(())
}
