// Patches that are written and written back.

use patch_bytes::*;

const FOUR: Patch = Patch {
    at: 0,
    len: 4,
    bytes: [0x00, 0x80, 0x12, 0x34],
};

const TWO: Patch = Patch {
    at: 3,
    len: 2,
    bytes: [0xAA, 0xBB, 0, 0],
};

// The two patches share the byte at 3.
#[test]
fn swapped_and_written_back(rt: HostRuntime) {
    let before = [1, 2, 3, 4, 5, 6];
    let mut buf = before;
    let first = swap_in(&mut buf, FOUR);
    assert!(rt; buf == [0x00, 0x80, 0x12, 0x34, 5, 6]);
    let second = swap_in(&mut buf, TWO);
    assert!(rt; buf == [0x00, 0x80, 0x12, 0xAA, 0xBB, 6]);
    let old = [
        Patch {
            at: 0,
            len: 4,
            bytes: [1, 2, 3, 4],
        },
        Patch {
            at: 3,
            len: 2,
            bytes: [0x34, 5, 0, 0],
        },
    ];
    assert!(rt; [first, second] == old);
    write_back(&mut buf, old.as_slice());
    assert!(rt; buf == before);
}
