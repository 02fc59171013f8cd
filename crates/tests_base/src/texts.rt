// The text of a worked drawing, and elements built by hand from the table of bodies.

use body_text::*;
use sample_elements::TEXT;
use std::test::Fail;

// TEXT(1; 7,-5,65536; DGN) in space. The byte where a text in the plane counts is 1.
const TEXT_3D: [u8; 80] = [
    0x01, 0x11, 0x26, 0x00, // level 1, type 17, 38 more words
    0x00, 0x80, 0x07, 0x00, 0xFF, 0x7F, 0xFB, 0xFF, 0x01, 0x80, 0x00, 0x00, // low
    0x00, 0x80, 0x07, 0x00, 0xFF, 0x7F, 0xFB, 0xFF, 0x01, 0x80, 0x00, 0x00, // high
    0x00, 0x00, 0x18, 0x00, 0x00, 0x00, 0x00, 0x00, // display fields
    0x01, 0x00, 0x00, 0x00, 0xE8, 0x03, 0x00, 0x00, 0xE8, 0x03, // font to height
    0xFF, 0x7F, 0xFF, 0xFF, 0x00, 0x00, 0x00, 0x00, // rotation: 2147483647, 0,
    0x00, 0x00, 0x00, 0x00, 0x01, 0x00, 0x00, 0x00, // 0, 65536
    0x00, 0x00, 0x07, 0x00, 0xFF, 0xFF, 0xFB, 0xFF, 0x01, 0x00, 0x00, 0x00, // 7,-5,65536
    0x03, 0x00, // three characters
    0x44, 0x47, 0x4E, 0x00, // DGN, and the byte that rounds up
];

// The end of a text node, its origin, behind bytes that are 0.
const ORIGIN_2D: [u8; 8] = [0x00, 0x00, 0x05, 0x00, 0xFF, 0xFF, 0xFB, 0xFF];

const ORIGIN_3D: [u8; 12] = [
    0x00, 0x00, 0x05, 0x00, 0xFF, 0xFF, 0xFB, 0xFF, 0x01, 0x00, 0x00, 0x00,
];

#[test]
fn texts(rt: HostRuntime) -> Result<(), Fail> {
    let words = Words {
        origin: [5, 6],
        chars: b"Hi there",
    };
    assert!(rt; text::<2>(&TEXT) == Some(words));
    assert!(rt; text::<2>(&TEXT[..67]) == None);
    assert!(rt; text::<2>(&TEXT[..59]) == None);
    let empty = Words {
        origin: [0, 0],
        chars: b"",
    };
    assert!(rt; text::<2>(&[0; 60]) == Some(empty));

    let words = Words {
        origin: [7, -5, 65536],
        chars: b"DGN",
    };
    assert!(rt; text::<3>(&TEXT_3D) == Some(words));
    assert!(rt; text::<3>(&TEXT_3D[..79]) == Some(words));
    assert!(rt; text::<3>(&TEXT_3D[..78]) == None);
    assert!(rt; text::<3>(&TEXT_3D[..75]) == None);
    Ok(())
}

#[test]
fn nodes(rt: HostRuntime) -> Result<(), Fail> {
    let mut flat = [0; 70];
    flat[62..].copy_from_slice(&ORIGIN_2D);
    assert!(rt; node::<2>(&flat) == Some([5, -5]));
    assert!(rt; node::<2>(&flat[..69]) == None);
    let mut solid = [0; 86];
    solid[74..].copy_from_slice(&ORIGIN_3D);
    assert!(rt; node::<3>(&solid) == Some([5, -5, 65536]));
    assert!(rt; node::<3>(&solid[..85]) == None);
    Ok(())
}
