// What `refs` says: a line for each element that may attach a reference file, and how many there are.

ghost use Rattle.std.specs.Prelude.{◌≡◌, length};
ghost use Rattle.elem_index.specs.Design.{elements};
ghost use Rattle.dgn_listing.specs.Lines.{texts_from, Appends};
ghost use Rattle.dgn_listing.specs.RefTexts.{is_ref, place_text, ref_text, ref_line, ref_count, refs_text};

use crate::listed::{Listed, listed_at};
use crate::pieces::{put, put_ending, put_fields, put_number};
use crate::tree::put_state;
use level_view::Drawing;
use std::alloc::{AllocError, Global};

/// Appends what `refs` says of the drawing `d`: a line for each element of type 5 on level 9, in file order, and
/// `refs K` with how many there are.
///
/// A line is the element's number, the byte at which it begins, how many bytes it has, and `live` or `deleted` by
/// the element's own bit. Where there is no memory, `out` has grown by a front of that text.
pub fn write_refs(alloc: Global, out: &mut Vec<u8>, d: &Drawing<'_>) -> Result<(), AllocError>
    ensures { Appends result (refs_text (elements d.now)) out.old.items out.new.items }
{
    put_refs(out, d)?;
    put_ending(out, b"refs", ref_count(d))
}

// Whether a type and a level are those of an element that may attach a reference file.
fn is_ref(kind: u8, level: u8) -> bool
    ensures { result ≡ is_ref kind level }
{
    kind == 5 && level == 9
}

// How many such elements there are.
fn ref_count(d: &Drawing<'_>) -> usize
    ensures { result ≡ ref_count (elements d.now) }
{
    let mut found = 0;
    for n in 0..d.count() {
        let Some(listed) = listed_at(d, n) else {
            unreachable!()
        };
        if is_ref(listed.kind, listed.level) {
            found += 1;
        }
    }
    found
}

// Appends the lines of all such elements.
fn put_refs(out: &mut Vec<u8>, d: &Drawing<'_>) -> Result<(), AllocError>
    ensures { Appends result (texts_from (ref_line (elements d.now)) 0 (length (elements d.now))) out.old.items out.new.items }
{
    for n in 0..d.count() {
        put_ref_line(out, d, n)?;
    }
    Ok(())
}

// Appends the line of element `n`, where it is such a one.
fn put_ref_line(out: &mut Vec<u8>, d: &Drawing<'_>, n: u32) -> Result<(), AllocError>
    ensures { Appends result (ref_line (elements d.now) n) out.old.items out.new.items }
{
    match listed_at(d, n) {
        Some(listed) if is_ref(listed.kind, listed.level) => put_ref(out, &listed),
        _ => Ok(()),
    }
}

// Appends what is said of such an element.
fn put_ref(out: &mut Vec<u8>, listed: &Listed) -> Result<(), AllocError>
    ensures { Appends result (ref_text listed.now) out.old.items out.new.items }
{
    put_place(out, listed)?;
    put_number(out, listed.size as u64)?;
    put_state(out, listed.deleted)?;
    put(out, b"\n")
}

// Appends the number of an element, and the byte at which it begins.
fn put_place(out: &mut Vec<u8>, listed: &Listed) -> Result<(), AllocError>
    ensures { Appends result (place_text listed.now) out.old.items out.new.items }
{
    put_fields(out, &[u64::from(listed.number), listed.offset as u64])
}
