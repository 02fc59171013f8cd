// The value table of the format, read and written, with the bytes around each place.

use dgn_words::*;
use std::test::Fail;

const VALUES: [(i32, [u8; 4], [u8; 4]); 6] = [
    (0, [0x00, 0x00, 0x00, 0x00], [0x00, 0x80, 0x00, 0x00]),
    (100, [0x00, 0x00, 0x64, 0x00], [0x00, 0x80, 0x64, 0x00]),
    (-5, [0xFF, 0xFF, 0xFB, 0xFF], [0xFF, 0x7F, 0xFB, 0xFF]),
    (65536, [0x01, 0x00, 0x00, 0x00], [0x01, 0x80, 0x00, 0x00]),
    (
        2147483647,
        [0xFF, 0x7F, 0xFF, 0xFF],
        [0xFF, 0xFF, 0xFF, 0xFF],
    ),
    (
        -2147483648,
        [0x00, 0x80, 0x00, 0x00],
        [0x00, 0x00, 0x00, 0x00],
    ),
];

fn framed(four: [u8; 4]) -> [u8; 6] {
    let [a, b, c, d] = four;
    [0xA1, a, b, c, d, 0xA2]
}

#[test]
fn values_read_and_written(rt: HostRuntime) -> Result<(), Fail> {
    for (value, as_long, as_range) in VALUES {
        let long_row = framed(as_long);
        let range_row = framed(as_range);
        assert!(rt; long(&long_row, 1) == value);
        assert!(rt; range_long(&range_row, 1) == value);
        let mut row = framed([0x55; 4]);
        put_long(&mut row, 1, value);
        assert!(rt; row == long_row);
        put_range_long(&mut row, 1, value);
        assert!(rt; row == range_row);
    }
    Ok(())
}

#[test]
fn words_read_and_written(rt: HostRuntime) -> Result<(), Fail> {
    let mut row = [0xA1, 0x93, 0x06, 0xA2];
    assert!(rt; word(&row, 1) == 1683);
    put_word(&mut row, 1, 11414);
    assert!(rt; row == [0xA1, 0x96, 0x2C, 0xA2]);
    Ok(())
}

#[test]
fn longs_side_by_side(rt: HostRuntime) -> Result<(), Fail> {
    let row = [0xA1, 0x00, 0x00, 0x64, 0x00, 0xFF, 0xFF, 0xFB, 0xFF, 0xA2];
    assert!(rt; longs::<2>(&row, 1) == [100, -5]);
    Ok(())
}
