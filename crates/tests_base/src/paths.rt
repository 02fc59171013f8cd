// The line and the shape of worked drawings, and elements built by hand from the table of bodies.

use body_vertex::types::Path;
use body_vertex::*;
use sample_elements::{LINE, SPACE_CHAIN};
use std::test::Fail;

// SHAPE(1; 0,0 20,0 20,20 0,0) in the plane.
const SHAPE_2D: [u8; 70] = [
    0x01, 0x06, 0x21, 0x00, // level 1, type 6, 33 more words
    0x00, 0x80, 0x00, 0x00, 0x00, 0x80, 0x00, 0x00, 0x00, 0x80, 0x00, 0x00, // low
    0x00, 0x80, 0x14, 0x00, 0x00, 0x80, 0x14, 0x00, 0x00, 0x80, 0x00, 0x00, // high
    0x00, 0x00, 0x13, 0x00, 0x00, 0x00, 0x00, 0x00, // display fields
    0x04, 0x00, // four points
    0x00, 0x00, 0x00, 0x00, 0x00, 0x00, 0x00, 0x00, // 0,0
    0x00, 0x00, 0x14, 0x00, 0x00, 0x00, 0x00, 0x00, // 20,0
    0x00, 0x00, 0x14, 0x00, 0x00, 0x00, 0x14, 0x00, // 20,20
    0x00, 0x00, 0x00, 0x00, 0x00, 0x00, 0x00, 0x00, // 0,0
];

// LINE(1; -5,0,65536 2147483647,-2147483648,7) in space.
const LINE_3D: [u8; 60] = [
    0x01, 0x03, 0x1C, 0x00, // level 1, type 3, 28 more words
    0xFF, 0x7F, 0xFB, 0xFF, 0x00, 0x00, 0x00, 0x00, 0x00, 0x80, 0x07, 0x00, // low
    0xFF, 0xFF, 0xFF, 0xFF, 0x00, 0x80, 0x00, 0x00, 0x01, 0x80, 0x00, 0x00, // high
    0x00, 0x00, 0x0E, 0x00, 0x00, 0x00, 0x00, 0x00, // display fields
    0xFF, 0xFF, 0xFB, 0xFF, 0x00, 0x00, 0x00, 0x00, 0x01, 0x00, 0x00, 0x00, // -5,0,65536
    0xFF, 0x7F, 0xFF, 0xFF, 0x00, 0x80, 0x00, 0x00, 0x00, 0x00, 0x07, 0x00, // the second point
];

// Whether a path has these points and no others.
fn has_points<const DIM: usize>(path: Option<Path<'_, DIM>>, want: &[[i32; DIM]]) -> bool {
    let Some(path) = path else {
        return false;
    };
    let mut same = path.count() == want.len();
    for (i, point) in want.iter().enumerate() {
        same = same && i < path.count() && path.point(i) == *point;
    }
    same
}

#[test]
fn points_in_the_plane(rt: HostRuntime) -> Result<(), Fail> {
    assert!(rt; has_points::<2>(path(3, &LINE), &[[0, 0], [100, 50]]));
    assert!(rt; path::<2>(3, &LINE[..51]).is_none());
    assert!(rt; has_points::<2>(path(6, &SHAPE_2D), &[[0, 0], [20, 0], [20, 20], [0, 0]]));
    assert!(rt; path::<2>(6, &SHAPE_2D[..69]).is_none());
    // A curve without points, and one whose count can't be read.
    assert!(rt; has_points::<2>(path(11, &[0; 38]), &[]));
    assert!(rt; path::<2>(11, &[0; 37]).is_none());
    Ok(())
}

#[test]
fn points_in_space(rt: HostRuntime) -> Result<(), Fail> {
    assert!(rt; has_points::<3>(path(4, &SPACE_CHAIN), &[[1, 2, 3], [4, 5, 6]]));
    assert!(rt; path::<3>(4, &SPACE_CHAIN[..61]).is_none());
    let ends = [[-5, 0, 65536], [2147483647, -2147483648, 7]];
    assert!(rt; has_points::<3>(path(3, &LINE_3D), &ends));
    assert!(rt; path::<3>(3, &LINE_3D[..59]).is_none());
    Ok(())
}
