// A run that generates a drawing of many elements.

use super::*;

const GEN: [&str; 4] = ["gen", "7", "1000", "out"];

// What it says. The drawing has 1001 elements, and a copy of its first cell adds three. By the generator's description 416
// of the trees lie within the fence from 0,0 to 700000,700000 and none across its edge, so as many are moved as marked.
const SAID: &[u8] =
    b"elements 1004\nbytes 64490\nshown 1003\nmoved 416\nmarked 416\naccepted 8\nrefused 1\n";

// How that run ends, what it says, and the file that it writes. No test rests on more of it.
fn generated(alloc: Global) -> Result<(Status, Vec<u8>, Vec<u8>), AllocError> {
    let mut desk = SureDesk::new(alloc, 512);
    let status = ends(alloc, &GEN, &mut desk)?;
    let said = Vec::from_slice(alloc, desk.said())?;
    let out = Vec::from_slice(alloc, desk.file("out").unwrap_or(b""))?;
    Ok((status, said, out))
}

// A generator that gives up on many elements says nothing of this, and one that keeps its state from run to run writes
// another file the second time.
#[test]
fn a_thousand_elements(rt: HostRuntime) -> Result<(), Fail> {
    let alloc = rt.alloc();
    let (status, said, first) = generated(alloc)?;
    assert!(rt; status == Status::Done);
    assert!(rt; said.as_slice() == SAID);
    assert!(rt; first.len() == 64490);
    let (status, said, second) = generated(alloc)?;
    assert!(rt; status == Status::Done);
    assert!(rt; said.as_slice() == SAID);
    assert!(rt; second == first);
    let files = (second, b"".as_slice());
    let counted = b"elements 1004\n".as_slice();
    shows(&rt, &CHECK, files, (Status::Done, counted, None))?;
    Ok(())
}
