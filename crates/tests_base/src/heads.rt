// Elements whose bytes are known, and what they say.

use elem_head::*;
use std::test::Fail;

fn head_row(level: u8, cbit: bool, kind: u8, deleted: bool, words: u16) -> types::Head {
    types::Head {
        level,
        cbit,
        kind,
        deleted,
        words,
    }
}

// A line on level 2 from 0,0 to 10,10, with colour 3, weight 1 and style 0, up to its first point.
const LINE: [u8; 36] = [
    0x02, 0x03, 0x18, 0x00, 0x00, 0x80, 0x00, 0x00, 0x00, 0x80, 0x00, 0x00, 0x00, 0x80, 0x00, 0x00,
    0x00, 0x80, 0x0A, 0x00, 0x00, 0x80, 0x0A, 0x00, 0x00, 0x80, 0x00, 0x00, 0x00, 0x00, 0x0A, 0x00,
    0x00, 0x00, 0x08, 0x03,
];

#[test]
fn heads(rt: HostRuntime) -> Result<(), Fail> {
    let rows = [
        ([0x08, 0x09, 0xFE, 0x02], head_row(8, false, 9, false, 766)),
        ([0xC8, 0x09, 0xFE, 0x02], head_row(8, true, 9, false, 766)),
        ([0x01, 0x11, 0x20, 0x00], head_row(1, false, 17, false, 32)),
        ([0x81, 0x06, 0x25, 0x00], head_row(1, true, 6, false, 37)),
        ([0x01, 0x83, 0x18, 0x00], head_row(1, false, 3, true, 24)),
        (
            [0x7F, 0xFF, 0xFF, 0xFF],
            head_row(63, false, 127, true, 65535),
        ),
    ];
    for (bytes, wanted) in rows {
        assert!(rt; head(&bytes) == wanted);
    }
    assert!(rt; head(&LINE) == head_row(2, false, 3, false, 24));
    Ok(())
}

// The line with this index word, this properties word, and this byte of style and weight.
fn with_display(index: [u8; 2], properties: [u8; 2], look: u8) -> [u8; 36] {
    let mut b = LINE;
    [b[30], b[31]] = index;
    [b[32], b[33]] = properties;
    b[34] = look;
    b
}

#[test]
fn display_headers(rt: HostRuntime) -> Result<(), Fail> {
    // index word, properties word, style and weight byte, and what follows from them
    let rows = [
        ([0x0A, 0x00], [0x00, 0x00], 0x08, None, 1, 0),
        ([0x04, 0x00], [0x00, 0x08], 0x00, Some(40), 0, 0),
        ([0x13, 0x00], [0x00, 0x08], 0xFF, Some(70), 31, 7),
        ([0x12, 0x00], [0xFF, 0xF7], 0x2B, None, 5, 3),
        ([0xFF, 0xFF], [0xFF, 0xFF], 0xF8, Some(131102), 31, 0),
    ];
    for (index, word, look, start, weight, style) in rows {
        let b = with_display(index, word, look);
        assert!(rt; properties(&b) == u16::from_le_bytes(word));
        assert!(rt; attr_start(&b) == start);
        let wanted = types::Symb {
            color: 3,
            weight,
            style,
        };
        assert!(rt; symb(&b) == wanted);
    }
    Ok(())
}
