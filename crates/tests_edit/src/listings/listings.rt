// What is said of all elements, of those that may attach a reference file, and of the linkages of one.

ghost use Rattle.std.specs.Prelude.{IfSome};
ghost use Rattle.elem_index.specs.Design.{IsWhole};

use super::file;
use dgn_drawing::MOST_DESIGN;
use dgn_listing::{write_elements, write_links, write_refs};
use elem_index::{Design, read_design};
use level_view::{Drawing, nest_design};
use sample_elements::{
    DELETED_REFERENCE, LINKED_LINE, LINKED_SHAPE, NO_REFERENCES, REFERENCE, SHORT_LINE, SILENT,
};
use std::alloc::{AllocError, Global};

// The design of a file of these elements.
pub(super) fn design(alloc: Global, elements: &[&[u8]]) -> Option<Design>
    ensures { IfSome result IsWhole }
{
    match file(alloc, elements) {
        Ok(bytes) if bytes.len() <= MOST_DESIGN => read_design(alloc, bytes).ok(),
        _ => None,
    }
}

// What is said of all elements and of those that may attach a reference file.
fn listed(alloc: Global, d: &Design) -> Result<Vec<u8>, AllocError>
    requires { IsWhole d.now }
{
    let mut out = Vec::from_slice(alloc, b"ok\n")?;
    let nesting = nest_design(alloc, d)?;
    let drawing = Drawing::new(d, &nesting);
    write_elements(alloc, &mut out, &drawing)?;
    write_refs(alloc, &mut out, &drawing)?;
    Ok(out)
}

// Whether so much is said of a file of these elements.
fn lists(alloc: Global, elements: &[&[u8]], wanted: &[u8]) -> bool {
    let Some(d) = design(alloc, elements) else {
        return false;
    };
    match listed(alloc, &d) {
        Ok(said) => said.as_slice() == wanted,
        Err(_) => false,
    }
}

// Elements, and what is said of them.
const LISTED: [(&[&[u8]], &[u8]); 2] = [
    (
        &[&REFERENCE, &SHORT_LINE],
        b"ok\n0 0 1536 9 8 --\n1 1536 10 5 9 --\n2 1546 52 3 1 --\n\
         level 8 1\nlevel 9 1\nlevel 1 1\ntype 9 1\ntype 5 1\ntype 3 1\nelements 3\n\
         1 1536 10 live\nrefs 1\n",
    ),
    (
        &[
            &LINKED_SHAPE,
            &DELETED_REFERENCE,
            &NO_REFERENCES,
            &REFERENCE,
        ],
        b"ok\n0 0 1536 9 8 --\n1 1536 78 6 1 c-\n2 1614 10 5 9 -d\n3 1624 4 5 8 --\n\
         4 1628 4 10 9 --\n5 1632 10 5 9 --\n\
         level 8 2\nlevel 1 1\nlevel 9 3\n\
         type 9 1\ntype 6 1\ntype 5 3\ntype 10 1\nelements 6\n\
         2 1614 10 deleted\n5 1632 10 live\nrefs 2\n",
    ),
];

// All elements are said, how many there are of each level and type, and those that may attach a reference file.
#[test]
fn elements_and_refs(rt: HostRuntime) {
    for (elements, wanted) in &LISTED {
        assert!(rt; lists(rt.alloc(), elements, wanted));
    }
}

// What is said of the linkages of element `n`, or nothing where there is none.
fn linked(alloc: Global, d: &Design, n: u32) -> Result<Vec<u8>, AllocError>
    requires { IsWhole d.now }
{
    let mut out = Vec::new(alloc);
    if let Some(bytes) = d.element(n) {
        write_links(alloc, &mut out, bytes)?;
    }
    Ok(out)
}

// Whether so much is said of the linkages of an element of a file of these elements.
fn links(alloc: Global, elements: &[&[u8]], n: u32, wanted: &[u8]) -> bool {
    let Some(d) = design(alloc, elements) else {
        return false;
    };
    match linked(alloc, &d, n) {
        Ok(said) => said.as_slice() == wanted,
        Err(_) => false,
    }
}

const ELEMENTS: [&[u8]; 5] = [
    &SHORT_LINE,
    &LINKED_LINE,
    &LINKED_SHAPE,
    &SILENT,
    &REFERENCE,
];

// Elements by their numbers, and what is said of their linkages.
const LINKED: [(u32, &[u8]); 6] = [
    (0, b"links 0\n"),
    (1, b"links 0\n"),
    (2, b"52 8 dmrs\n60 6 user\n66 4 rest\nlinks 3\n"),
    (3, b"70 8 user\nlinks 1\n"),
    (4, b"links 0\n"),
    (5, b"links 0\n"),
];

// The linkages of each element are said.
#[test]
fn linkages(rt: HostRuntime) {
    for (n, wanted) in &LINKED {
        assert!(rt; links(rt.alloc(), &ELEMENTS, *n, wanted), "links {n}");
    }
}
