// What the desk below a buffered one is handed, which no clause says.

use dgn_desk::*;
use std::alloc::{AllocError, Global};
use std::process::Abort;
use std::test::Fail;

// A buffered desk over one of memory that moves so many bytes at once, and of whose calls this one fails.
fn over_memory(alloc: Global, piece: usize, at: u64) -> Result<BufferedDesk<MemDesk>, AllocError> {
    let mut desk = MemDesk::new(alloc, piece.max(1));
    desk.fail_at(at)?;
    Ok(BufferedDesk::new(desk))
}

// Says a text so many times, and answers whether it was taken whole each time.
fn say_texts(desk: &mut BufferedDesk<MemDesk>, text: &[u8], count: u32) -> bool {
    let mut whole = true;
    for _ in 0..count {
        whole = desk.say(text) == Ok(text.len()) && whole;
    }
    whole
}

// Texts are held back until a file is begun, and are then said by one call.
#[test]
fn texts_are_said_together(rt: HostRuntime) -> Result<(), Fail> {
    let mut desk = over_memory(rt.alloc(), 100, 9)?;
    assert!(rt; say_texts(&mut desk, b"ok\n", 3));
    assert!(rt; desk.get_ref().acts().is_empty());
    assert!(rt; desk.begin_write("out") == Ok(()));
    assert!(rt; desk.get_ref().acts() == [Act::Say, Act::BeginWrite].as_slice());
    assert!(rt; desk.get_ref().said() == b"ok\nok\nok\n".as_slice());
    Ok(())
}

// The buffer is filled to its last byte, and one more hands it on. More than it has room for goes on at once.
#[test]
fn a_full_buffer_is_handed_on(rt: HostRuntime) -> Result<(), Fail> {
    let mut desk = over_memory(rt.alloc(), 10000, 9)?;
    assert!(rt; say_texts(&mut desk, &[b'a'; 1024], 8));
    assert!(rt; desk.get_ref().acts().is_empty());
    assert!(rt; desk.say(b"b") == Ok(1));
    assert!(rt; desk.get_ref().said().len() == 8192);
    assert!(rt; desk.say(&[b'c'; 8193]) == Ok(8193));
    assert!(rt; desk.get_ref().acts() == [Act::Say, Act::Say, Act::Say].as_slice());
    Ok(())
}

// Where the desk below fails, the file isn't begun, and what it wasn't handed is said once it takes it.
#[test]
fn a_failed_flush_loses_nothing(rt: HostRuntime) -> Result<(), Fail> {
    let mut desk = over_memory(rt.alloc(), 4, 1)?;
    assert!(rt; say_texts(&mut desk, b"ok\n", 2));
    assert!(rt; desk.begin_write("out") == Err(Stop::Failed));
    assert!(rt; desk.get_ref().file("out").is_none());
    assert!(rt; desk.get_ref().said() == b"ok\no".as_slice());
    assert!(rt; desk.flush() == Ok(()));
    assert!(rt; desk.get_ref().said() == b"ok\nok\n".as_slice());
    Ok(())
}
