// What a session is made of.

use super::*;
use dgn_drawing::{Edit, MOST_DESIGN, Mask};
use dgn_fence::types::Fence;
use elem_index::{Design, read_design};
use nest_tree::types::Nest;
use std::alloc::{AllocError, Global};
use std::test::Fail;
use undo_log::Log;

// All that a session is made of: an allocator, one design, one nesting, one log, a mask and a fence. There is no place
// for an earlier drawing.
fn parts(session: Session) -> (Global, Design, Nest, Log, Mask, Option<Fence>) {
    let Session {
        alloc,
        design,
        nest,
        log,
        mask,
        fence,
    } = session;
    (alloc, design, nest, log, mask, fence)
}

// The bytes of a drawing of two axes: a TCB, and behind it one line of level 1 without attribute data.
fn one_line(alloc: Global) -> Result<Vec<u8>, AllocError> {
    let mut bytes = Vec::new(alloc);
    bytes.extend_from_slice(&[0x08, 0x09, 0xFE, 0x02])?;
    bytes.resize(1536, 0)?;
    bytes.extend_from_slice(&[0x01, 0x03, 0x18, 0x00])?;
    bytes.resize(1566, 0)?;
    bytes.push(0x0A)?;
    bytes.resize(1588, 0)?;
    Ok(bytes)
}

#[test]
fn a_session_holds_one_drawing(rt: HostRuntime) -> Result<(), Fail> {
    let alloc = rt.alloc();
    let bytes = one_line(alloc)?;
    assert!(rt; bytes.len() <= MOST_DESIGN);
    let mut session = Session::start(alloc, read_design(alloc, bytes)?)?;
    assert!(rt; session.edit(&Edit::Delete { n: 1 }) == Ok(()));
    let (_, design, nesting, log, mask, fence) = parts(session);
    assert!(rt; design.body.len() == 1588);
    assert!(rt; nesting.ends() == [1, 2].as_slice());
    assert!(rt; log.entries().len() == 1);
    assert!(rt; mask == Mask(u64::MAX) && fence.is_none());
    Ok(())
}
