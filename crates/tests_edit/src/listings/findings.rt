// What is said of findings, behind what stood before.

use dgn_audit::Finding;
use dgn_listing::write_findings;
use range_code::Box3;
use std::alloc::{AllocError, Global};
use std::test::Fail;

// A cell in the plane, and a line in space at the ends of it.
const FINDINGS: [Finding; 2] = [
    Finding {
        number: 1,
        axes: 2,
        stored: Box3 {
            lo: [0, 0, 0],
            hi: [101, 51, 0],
        },
        hull: Box3 {
            lo: [1, 1, 0],
            hi: [101, 51, 0],
        },
    },
    Finding {
        number: 4294967295,
        axes: 3,
        stored: Box3 {
            lo: [-2147483648, 0, -1],
            hi: [2147483647, 0, 9],
        },
        hull: Box3 {
            lo: [-5, 0, 0],
            hi: [5, 0, 9],
        },
    },
];

// What is said of findings behind a line.
fn said(alloc: Global, findings: &[Finding]) -> Result<Vec<u8>, AllocError> {
    let mut out = Vec::from_slice(alloc, b"ok\n")?;
    write_findings(alloc, &mut out, findings)?;
    Ok(out)
}

// Each finding is said, the stored range before the hull, and how many there are.
#[test]
fn says_each_finding(rt: HostRuntime) -> Result<(), Fail> {
    let alloc = rt.alloc();
    let both = b"ok\n1 0,0 101,51 1,1 101,51\n\
4294967295 -2147483648,0,-1 2147483647,0,9 -5,0,0 5,0,9\naudit 2\n";
    assert!(rt; said(alloc, &FINDINGS)?.as_slice() == both.as_slice());
    assert!(rt; said(alloc, &[])?.as_slice() == b"ok\naudit 0\n".as_slice());
    Ok(())
}
