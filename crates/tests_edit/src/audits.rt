// Worked drawings: a member that was moved, a usual file, and an arc in a cell; and what refuses a fit.

ghost use Rattle.std.specs.Prelude.{IfSome};
ghost use Rattle.elem_index.specs.Design.{IsWhole};

use dgn_audit::*;
use dgn_drawing::MOST_DESIGN;
use elem_index::{Design, read_design};
use level_view::{Drawing, nest_design};
use range_code::Box3;
use sample_elements::{
    ARC, CELL, CELL_OF_52, CELL_OF_81, FIRST_STRING, LOCKED_MEMBER, MEMBER, NODE, SECOND_STRING,
    SHAPE_HEADER, SHAPE_PART, SILENT, drawing,
};
use std::alloc::{AllocError, Global};

// Pieces behind a TCB, and bytes that stand in them, at places counted from the TCB's end.
type Pieces = (&'static [&'static [u8]], &'static [(usize, u8)]);

// The bytes of a drawing.
fn bytes_of(alloc: Global, pieces: &Pieces) -> Result<Vec<u8>, AllocError> {
    let (pieces, other) = pieces;
    let mut bytes = drawing(alloc, 0x08, 0, pieces)?;
    for (at, byte) in *other {
        let place = at.saturating_add(1536);
        if place < bytes.len() {
            bytes[place] = *byte;
        }
    }
    Ok(bytes)
}

// The design of a drawing.
fn design(alloc: Global, pieces: &Pieces) -> Option<Design>
    ensures { IfSome result IsWhole }
{
    match bytes_of(alloc, pieces) {
        Ok(bytes) if bytes.len() <= MOST_DESIGN => read_design(alloc, bytes).ok(),
        _ => None,
    }
}

// What is told of a finding in the plane: its number, and the low and the high corner of the stored range and of the hull.
type Told = (u32, [i32; 4], [i32; 4]);

// A range in the plane.
fn flat(corners: &[i32; 4]) -> Box3 {
    Box3 {
        lo: [corners[0], corners[1], 0],
        hi: [corners[2], corners[3], 0],
    }
}

// Whether a finding is what is told of it.
fn is_told(found: &Finding, told: &Told) -> bool {
    let (number, stored, hull) = told;
    found.number == *number
        && found.axes == 2
        && found.stored == flat(stored)
        && found.hull == flat(hull)
}

// Whether findings are what is told of them, and no others.
fn are_told(found: &[Finding], told: &[Told]) -> bool {
    for (one, other) in found.iter().zip(told) {
        if !is_told(one, other) {
            return false;
        }
    }
    found.len() == told.len()
}

// Whether these are the findings of a drawing.
fn finds(alloc: Global, d: &Design, told: &[Told]) -> bool
    requires { IsWhole d.now }
{
    let Ok(t) = nest_design(alloc, d) else {
        return false;
    };
    match audit(alloc, &Drawing::new(d, &t)) {
        Ok(found) => are_told(&found, told),
        Err(_) => false,
    }
}

// How many fields a fit of the tree that holds an element has.
fn fit(alloc: Global, d: &Design, n: u32) -> Result<usize, FitFault>
    requires { IsWhole d.now }
{
    let t = nest_design(alloc, d)?;
    match plan_fit(alloc, &Drawing::new(d, &t), n) {
        Ok(patches) => Ok(patches.len()),
        Err(fault) => Err(fault),
    }
}

// The member and its cell's range where the member was moved by 1,1 alone: the cell holds both places.
const MOVED: [(usize, u8); 10] = [
    (18, 0x65),
    (22, 0x33),
    (98, 0x01),
    (102, 0x01),
    (110, 0x65),
    (114, 0x33),
    (130, 0x01),
    (134, 0x01),
    (138, 0x65),
    (142, 0x33),
];

// A drawing, its findings, and how many fields a fit of the tree that holds an element has.
const AUDITED: [(Pieces, &[Told], u32, usize); 3] = [
    (
        (&[&CELL, &MEMBER], &MOVED),
        &[(1, [0, 0, 101, 51], [1, 1, 101, 51])],
        2,
        8,
    ),
    (
        (
            &[
                &SILENT,
                &SILENT,
                &SILENT,
                &NODE,
                &FIRST_STRING,
                &SECOND_STRING,
                &SHAPE_HEADER,
                &SHAPE_PART,
            ],
            &[],
        ),
        &[
            (4, [0, 0, 0, 0], [0, -10, 0, 0]),
            (7, [0, 0, 0, 0], [0, 0, 10, 10]),
        ],
        0,
        0,
    ),
    (
        (&[&CELL_OF_81, &MEMBER, &ARC], &[(162, 0xC8)]),
        &[(1, [0, 0, 100, 50], [0, 0, 200, 50])],
        3,
        8,
    ),
];

// Whether a drawing has these findings, and a fit of the tree that holds an element so many fields.
fn is_audited(alloc: Global, pieces: &Pieces, told: &[Told], n: u32, fields: usize) -> bool {
    match design(alloc, pieces) {
        Some(d) => finds(alloc, &d, told) && fit(alloc, &d, n) == Ok(fields),
        None => false,
    }
}

// What is found in drawings, and what a fit writes.
#[test]
fn audited_and_fitted(rt: HostRuntime) {
    for (pieces, told, n, fields) in &AUDITED {
        assert!(rt; is_audited(rt.alloc(), pieces, told, *n, *fields), "of {n}");
    }
}

// A drawing, and why a fit of the tree that holds an element is refused.
const REFUSED: [(Pieces, u32, FitCause); 4] = [
    ((&[&CELL, &MEMBER], &[]), 99, FitCause::Unknown(99)),
    ((&[&CELL_OF_52, &MEMBER], &[]), 1, FitCause::Broken(1)),
    ((&[&CELL, &MEMBER], &[(1, 0x82)]), 2, FitCause::Deleted(1)),
    ((&[&CELL, &LOCKED_MEMBER], &[]), 1, FitCause::Locked(2)),
];

// Whether a fit of the tree that holds an element is refused with this cause.
fn is_refused(alloc: Global, pieces: &Pieces, n: u32, cause: FitCause) -> bool {
    match design(alloc, pieces) {
        Some(d) => fit(alloc, &d, n) == Err(FitFault::Refused(cause)),
        None => false,
    }
}

// Each cause refuses a fit.
#[test]
fn fits_that_are_refused(rt: HostRuntime) {
    for (pieces, n, cause) in &REFUSED {
        assert!(rt; is_refused(rt.alloc(), pieces, *n, *cause), "of {n}");
    }
}
