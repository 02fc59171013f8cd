// What is said of each cause, behind what stood before.

use dgn_listing::write_cause;
use edit_ops::Cause;
use std::alloc::{AllocError, Global};
use std::test::Fail;

const CAUSES: [(Cause, &[u8]); 9] = [
    (Cause::Unknown(9), b"ok\nrefused unknown 9\n"),
    (Cause::Broken(1), b"ok\nrefused broken 1\n"),
    (
        Cause::Deleted(4294967295),
        b"ok\nrefused deleted 4294967295\n",
    ),
    (Cause::Locked(2), b"ok\nrefused locked 2\n"),
    (Cause::Dimension, b"ok\nrefused dimension\n"),
    (Cause::Floating(3), b"ok\nrefused floating 3\n"),
    (Cause::Opaque(0), b"ok\nrefused opaque 0\n"),
    (Cause::OffPlane(10), b"ok\nrefused off-plane 10\n"),
    (Cause::TooLong, b"ok\nrefused too-long\n"),
];

// What is said of a cause behind a line.
fn said(alloc: Global, cause: &Cause) -> Result<Vec<u8>, AllocError> {
    let mut out = Vec::from_slice(alloc, b"ok\n")?;
    write_cause(alloc, &mut out, cause)?;
    Ok(out)
}

// Each cause is said.
#[test]
fn says_each_cause(rt: HostRuntime) -> Result<(), Fail> {
    for (cause, wanted) in &CAUSES {
        assert!(rt; said(rt.alloc(), cause)?.as_slice() == *wanted);
    }
    Ok(())
}
