// Every type in the plane and in space, and the end of a text that is cut short.

ghost use Rattle.std.specs.Prelude.{◌≡◌, ◌⊎◌, ◌<◌};

mod sound;

use dgn_layout::types::Class::{Boxed, Counted, Floating, Run, Silent, Vertices, Words};
use dgn_layout::*;
use std::alloc::{AllocError, Global};
use std::test::Fail;

// The places of fields.
fn places_of(alloc: Global, fields: types::Spots<'_>) -> Result<Vec<u32>, AllocError> {
    fields.map(|spot| spot.at).collect(alloc)
}

// Whether fields have these places.
fn are_at(alloc: Global, fields: types::Spots<'_>, wanted: &[u32]) -> Result<bool, AllocError> {
    Ok(places_of(alloc, fields)?.as_slice() == wanted)
}

// Whether, in an element of 124 bytes whose word at byte 36 is 2, where all other bytes are 0, a type's fields have these
// places and its body has this end, or none.
fn is_laid_out<const DIM: usize>(
    alloc: Global,
    kind: u8,
    wanted: (&[u32], Option<usize>),
) -> Result<bool, AllocError>
    requires dimension { (DIM ≡ 2) ⊎ (DIM ≡ 3) }
    requires kind { kind < 128 }
{
    let mut b = [0; 124];
    b[36] = 2;
    let end = if is_silent(kind) {
        None
    } else {
        body_end::<DIM>(kind, &b)
    };
    Ok(are_at(alloc, spots::<DIM>(kind, &b), wanted.0)? && end == wanted.1)
}

// How many of the types with these numbers are of that class, and have their fields at these places and their bodies' end
// there, in the plane and in space.
fn agreeing(
    alloc: Global,
    kinds: &[u8],
    known: types::Class,
    in_plane: (&[u32], Option<usize>),
    in_space: (&[u32], Option<usize>),
) -> Result<u8, AllocError> {
    let mut count = 0u8;
    for kind in 0..128 {
        let flat = is_laid_out::<2>(alloc, kind, in_plane)?;
        let deep = is_laid_out::<3>(alloc, kind, in_space)?;
        if kinds.contains(&kind) && class(kind) == known && flat && deep {
            count = count.saturating_add(1);
        }
    }
    Ok(count)
}

#[test]
fn types_with_points_and_texts(rt: HostRuntime) -> Result<(), Fail> {
    let alloc = rt.alloc();
    let plane: &[u32] = &[4, 8, 16, 20, 36, 40, 44, 48];
    let space: &[u32] = &[4, 8, 12, 16, 20, 24, 36, 40, 44, 48, 52, 56];
    assert!(rt; agreeing(alloc, &[3], Vertices, (plane, Some(52)), (space, Some(60)))? == 1);
    let plane: &[u32] = &[4, 8, 16, 20, 38, 42, 46, 50];
    let space: &[u32] = &[4, 8, 12, 16, 20, 24, 38, 42, 46, 50, 54, 58];
    assert!(rt;
        agreeing(
            alloc,
            &[4, 6, 11],
            Vertices,
            (plane, Some(54)),
            (space, Some(62))
        )? == 3
    );
    let plane: &[u32] = &[4, 8, 16, 20, 50, 54];
    let space: &[u32] = &[4, 8, 12, 16, 20, 24, 62, 66, 70];
    assert!(rt; agreeing(alloc, &[17], Words, (plane, Some(60)), (space, Some(76)))? == 1);
    Ok(())
}

#[test]
fn types_of_headers(rt: HostRuntime) -> Result<(), Fail> {
    let alloc = rt.alloc();
    let plane: &[u32] = &[4, 8, 16, 20, 62, 66];
    let space: &[u32] = &[4, 8, 12, 16, 20, 24, 74, 78, 82];
    assert!(rt; agreeing(alloc, &[7], Counted, (plane, Some(70)), (space, Some(86)))? == 1);
    let plane: &[u32] = &[4, 8, 16, 20, 84, 88];
    let space: &[u32] = &[4, 8, 12, 16, 20, 24, 112, 116, 120];
    assert!(rt; agreeing(alloc, &[2], Counted, (plane, Some(92)), (space, Some(124)))? == 1);
    let plane: &[u32] = &[4, 8, 16, 20];
    let space: &[u32] = &[4, 8, 12, 16, 20, 24];
    let others: &[u8] = &[12, 14, 18, 19];
    assert!(rt; agreeing(alloc, others, Counted, (plane, Some(40)), (space, Some(40)))? == 4);
    Ok(())
}

// Of all other types no field is given.
#[test]
fn types_without_places(rt: HostRuntime) -> Result<(), Fail> {
    let alloc = rt.alloc();
    let unread: (&[u32], Option<usize>) = (&[], Some(36));
    assert!(rt; agreeing(alloc, &[24, 27, 34], Run, unread, unread)? == 3);
    assert!(rt; agreeing(alloc, &[15, 16, 23], Floating, unread, unread)? == 3);
    assert!(rt; agreeing(alloc, &[22, 33, 35], Boxed, unread, unread)? == 3);
    Ok(())
}

// Of those that no class names the body has no end either.
#[test]
fn silent_types(rt: HostRuntime) -> Result<(), Fail> {
    let alloc = rt.alloc();
    let silent: (&[u32], Option<usize>) = (&[], None);
    let mut all = Vec::new(alloc);
    for kind in 0..128 {
        all.push(kind)?;
    }
    assert!(rt; agreeing(alloc, &all, Silent, silent, silent)? == 108);
    Ok(())
}

// The end of a text that is too short for its count to be read.
#[test]
fn end_of_a_short_text(rt: HostRuntime) {
    let mut short = [0; 58];
    short[1] = 17;
    short[2] = 27;
    assert!(rt; body_end::<2>(17, &short) == None);
}
