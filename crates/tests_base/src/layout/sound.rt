// Sound elements: types, sizes, counts and bodies that end where the element does.

ghost use Rattle.std.specs.Prelude.{◌≡◌, ◌⊎◌, ◌≤◌};

use super::places_of;
use dgn_layout::laws::bodies_hold_points;
use dgn_layout::*;
use sample_elements::{
    ARC, CELL, CHAIN, CHAIN_HEADER, LINE, LINKED_SHAPE, NODE, SHAPE_HEADER, SHARED_CELL, SILENT,
    SPACE_CHAIN, SPACE_LINE, SPLINE, TEXT, blank, with_byte,
};
use std::alloc::{AllocError, Global};
use std::process::Abort;
use std::test::Fail;

// The places of the fields of an element that holds its body; `None` where it doesn't.
fn places<const DIM: usize>(alloc: Global, b: &[u8]) -> Result<Option<Vec<u32>>, AllocError>
    requires { (DIM ≡ 2) ⊎ (DIM ≡ 3) }
{
    bodies_hold_points();
    let kind = match b {
        [_, second, _, _, ..] => second % 128,
        _ => return Ok(None),
    };
    let end = if is_silent(kind) {
        Some(4)
    } else {
        body_end::<DIM>(kind, b)
    };
    match end {
        Some(end) if end <= b.len() => Ok(Some(places_of(alloc, spots::<DIM>(kind, b))?)),
        _ => Ok(None),
    }
}

// Shows that each of these elements has its fields at its places.
fn all_have<const DIM: usize, R: Abort + Alloc<A = Global>>(
    rt: &R,
    elements: &[(&[u8], &[u32])],
) -> Result<(), AllocError>
    requires { (DIM ≡ 2) ⊎ (DIM ≡ 3) }
{
    for (bytes, wanted) in elements {
        let found = places::<DIM>(rt.alloc(), bytes)?;
        assert!(rt; found.as_ref().map(|places| places.as_slice()) == Some(*wanted));
    }
    Ok(())
}

// An element of that type whose other bytes, but for its number of words, are 0.
fn bare<const N: usize>(kind: u8, words: u8) -> [u8; N]
    requires { 4 ≤ N }
{
    with_byte(with_byte([0; N], 1, kind), 2, words)
}

// An element of each class, and a curve: a layout that takes the type or the count from elsewhere than the element's own
// bytes would have other places, and so would one that goes on to the element's end.
#[test]
fn sound_elements_in_the_plane(rt: HostRuntime) -> Result<(), Fail> {
    let curve = with_byte(CHAIN, 1, 11);
    let boxed = blank(1, 22);
    let elements: [(&[u8], &[u32]); 13] = [
        (&LINE, &[4, 8, 16, 20, 36, 40, 44, 48]),
        (&CHAIN, &[4, 8, 16, 20, 38, 42, 46, 50]),
        (&curve, &[4, 8, 16, 20, 38, 42, 46, 50]),
        (
            &LINKED_SHAPE,
            &[4, 8, 16, 20, 38, 42, 46, 50, 54, 58, 62, 66],
        ),
        (&TEXT, &[4, 8, 16, 20, 50, 54]),
        (&NODE, &[4, 8, 16, 20, 62, 66]),
        (&CELL, &[4, 8, 16, 20, 84, 88]),
        (&CHAIN_HEADER, &[4, 8, 16, 20]),
        (&SHAPE_HEADER, &[4, 8, 16, 20]),
        (&SPLINE, &[]),
        (&ARC, &[]),
        (&boxed, &[]),
        (&SILENT, &[]),
    ];
    all_have::<2, HostRuntime>(&rt, &elements)?;
    Ok(())
}

// The same in space, and a chain in the plane, which there ends before its points do.
#[test]
fn sound_elements_in_space(rt: HostRuntime) -> Result<(), Fail> {
    let text: [u8; 76] = bare(17, 36);
    let node: [u8; 86] = bare(7, 41);
    let cell: [u8; 124] = bare(2, 60);
    let boxed = blank(1, 33);
    let elements: [(&[u8], &[u32]); 10] = [
        (&SPACE_LINE, &[4, 8, 12, 16, 20, 24, 36, 40, 44, 48, 52, 56]),
        (
            &SPACE_CHAIN,
            &[4, 8, 12, 16, 20, 24, 38, 42, 46, 50, 54, 58],
        ),
        (&text, &[4, 8, 12, 16, 20, 24, 62, 66, 70]),
        (&node, &[4, 8, 12, 16, 20, 24, 74, 78, 82]),
        (&cell, &[4, 8, 12, 16, 20, 24, 112, 116, 120]),
        (&CHAIN_HEADER, &[4, 8, 12, 16, 20, 24]),
        (&SHARED_CELL, &[]),
        (&ARC, &[]),
        (&boxed, &[]),
        (&SILENT, &[]),
    ];
    all_have::<3, HostRuntime>(&rt, &elements)?;
    assert!(rt; places::<3>(rt.alloc(), &CHAIN)? == None);
    Ok(())
}
