// Ranges whose bytes are known, sums at the ends of the design plane, and joins.

use range_code::*;
use std::test::Fail;

// A line on level 1 from 0,0 to 100,50, up to its first point.
const LINE: [u8; 36] = [
    0x01, 0x03, 0x18, 0x00, 0x00, 0x80, 0x00, 0x00, 0x00, 0x80, 0x00, 0x00, 0x00, 0x80, 0x00, 0x00,
    0x00, 0x80, 0x64, 0x00, 0x00, 0x80, 0x32, 0x00, 0x00, 0x80, 0x00, 0x00, 0x00, 0x00, 0x0A, 0x00,
    0x00, 0x00, 0x00, 0x00,
];

// The same, moved by 10,-5 and made higher by 65536.
const MOVED: [u8; 36] = [
    0x01, 0x03, 0x18, 0x00, 0x00, 0x80, 0x0A, 0x00, 0xFF, 0x7F, 0xFB, 0xFF, 0x00, 0x80, 0x00, 0x00,
    0x00, 0x80, 0x6E, 0x00, 0x00, 0x80, 0x2D, 0x00, 0x01, 0x80, 0x00, 0x00, 0x00, 0x00, 0x0A, 0x00,
    0x00, 0x00, 0x00, 0x00,
];

// The whole design plane on x; on y and z the lows and highs are exchanged.
const PLANE: [u8; 36] = [
    0x01, 0x03, 0x18, 0x00, 0x00, 0x00, 0x00, 0x00, 0xFF, 0xFF, 0xFF, 0xFF, 0x00, 0x80, 0x0D, 0x00,
    0xFF, 0xFF, 0xFF, 0xFF, 0x00, 0x00, 0x00, 0x00, 0x00, 0x80, 0x03, 0x00, 0x00, 0x00, 0x0A, 0x00,
    0x00, 0x00, 0x00, 0x00,
];

fn box_of(lo: [i32; 3], hi: [i32; 3]) -> Box3 {
    Box3 { lo, hi }
}

#[test]
fn ranges_and_joins(rt: HostRuntime) -> Result<(), Fail> {
    let line = box_of([0, 0, 0], [100, 50, 0]);
    let moved = box_of([10, -5, 0], [110, 45, 65536]);
    let plane = box_of([-2147483648, 2147483647, 13], [2147483647, -2147483648, 3]);
    for (bytes, wanted) in [(LINE, line), (MOVED, moved), (PLANE, plane)] {
        assert!(rt; range(&bytes) == wanted);
    }
    let joins = [
        (line, moved, box_of([0, -5, 0], [110, 50, 65536])),
        (moved, line, box_of([0, -5, 0], [110, 50, 65536])),
        (
            line,
            plane,
            box_of([-2147483648, 0, 0], [2147483647, 50, 3]),
        ),
        (plane, plane, plane),
    ];
    for (a, b, wanted) in joins {
        assert!(rt; join(a, b) == wanted);
    }
    Ok(())
}

#[test]
fn sums(rt: HostRuntime) -> Result<(), Fail> {
    let rows = [
        (0, 0, Some(0)),
        (100, -5, Some(95)),
        (2147483647, 0, Some(2147483647)),
        (2147483647, 1, None),
        (-2147483648, -1, None),
        (-2147483648, 4294967295, Some(2147483647)),
        (2147483647, -4294967295, Some(-2147483648)),
        (-2147483647, 4294967295, None),
        (2147483646, -4294967295, None),
    ];
    for (v, d, wanted) in rows {
        assert!(rt; shifted(v, d) == wanted, "{v} and {d}");
    }
    Ok(())
}
