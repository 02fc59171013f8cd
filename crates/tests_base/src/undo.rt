// Room that a log makes for an edit.

use patch_bytes::PatchList;
use std::test::Fail;
use undo_log::Log;

// Room for an entry and three bytes, which leaves entries and bytes as they were; an edit that uses it, and its undo.
#[test]
fn room_for_an_edit(rt: HostRuntime) -> Result<(), Fail> {
    let alloc = rt.alloc();
    let mut log = Log::new(alloc);
    let mut body = Vec::from_slice(alloc, b"body")?;
    log.reserve(&mut body, 3)?;
    assert!(rt; body.as_slice() == b"body".as_slice() && log.entries().is_empty());
    log.commit(&mut body, PatchList::new(alloc), b"end");
    assert!(rt; body.as_slice() == b"bodyend".as_slice() && log.entries().len() == 1);
    assert!(rt; log.undo(&mut body));
    assert!(rt; body.as_slice() == b"body".as_slice() && log.entries().is_empty());
    Ok(())
}
