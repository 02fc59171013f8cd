// What is said of the trees of worked drawings: a cell, broken nesting, runs, and marked elements.

ghost use Rattle.elem_index.specs.Design.{IsWhole};

use super::listings::design;
use dgn_listing::write_tree;
use elem_index::Design;
use level_view::{Drawing, nest_design};
use sample_elements::{CELL, MEMBER, SPLINE, blank, with_byte};
use std::alloc::{AllocError, Global};
use std::process::Abort;

// The cell with another second byte and another total.
fn cell(second: u8, total: u8) -> [u8; 92] {
    with_byte(with_byte(CELL, 1, second), 36, total)
}

// The member with another second byte.
fn member(second: u8) -> [u8; 52] {
    with_byte(MEMBER, 1, second)
}

// What is said of the tree of element `n`, or nothing where there is none.
fn told(alloc: Global, d: &Design, n: u32) -> Result<Vec<u8>, AllocError>
    requires { IsWhole d.now }
{
    let mut out = Vec::new(alloc);
    if n < d.count() {
        let nesting = nest_design(alloc, d)?;
        write_tree(alloc, &mut out, &Drawing::new(d, &nesting), n)?;
    }
    Ok(out)
}

// Whether so much is said of the tree of an element of a file of these elements.
fn tells(alloc: Global, elements: &[&[u8]], n: u32, wanted: &[u8]) -> bool {
    let Some(d) = design(alloc, elements) else {
        return false;
    };
    match told(alloc, &d, n) {
        Ok(said) => said.as_slice() == wanted,
        Err(_) => false,
    }
}

// The file of these elements says so of the tree of each number.
fn says<R: Abort + Alloc<A = Global>>(rt: &R, elements: &[&[u8]], all: &[(u32, &[u8])]) {
    for (n, wanted) in all {
        assert!(rt; tells(rt.alloc(), elements, *n, wanted), "tree {n}");
    }
}

// A cell and its member, from each of them.
#[test]
fn a_cell(rt: HostRuntime) {
    says(
        &rt,
        &[&CELL, &MEMBER],
        &[
            (0, b"0 0 9 8 leaf live\ntree 1\n"),
            (1, b"1 0 2 1 group live\n2 1 3 1 leaf live\ntree 2\n"),
            (2, b"2 1 3 1 leaf live\ntree 1\n"),
        ],
    );
}

// A header without the members that its total asks for, and an orphan.
#[test]
fn broken_nesting(rt: HostRuntime) {
    says(
        &rt,
        &[&cell(2, 52), &MEMBER],
        &[
            (1, b"1 0 2 1 loose live\ntree 1\n"),
            (2, b"2 0 3 1 leaf live orphan\ntree 1\n"),
        ],
    );
}

// Runs, each with a member.
#[test]
fn runs(rt: HostRuntime) {
    says(
        &rt,
        &[&SPLINE, &blank(0x81, 26), &blank(0x01, 34), &MEMBER],
        &[
            (1, b"1 0 27 1 run live\n2 1 26 1 leaf live\ntree 2\n"),
            (3, b"3 0 34 1 run live\n4 1 3 1 leaf live\ntree 2\n"),
        ],
    );
}

// A header that is marked deleted, and a member.
#[test]
fn marked_elements(rt: HostRuntime) {
    says(
        &rt,
        &[&cell(0x82, 53), &MEMBER, &CELL, &member(0x83)],
        &[
            (1, b"1 0 2 1 group deleted\n2 1 3 1 leaf live\ntree 2\n"),
            (3, b"3 0 2 1 group live\n4 1 3 1 leaf deleted\ntree 2\n"),
        ],
    );
}
