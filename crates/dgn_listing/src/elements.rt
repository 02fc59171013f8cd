// What `elements` says: a line for each element, one for each level and each type, and how many elements there
// are.

ghost use Rattle.std.specs.Prelude.{length};
ghost use Rattle.elem_index.specs.Design.{elements};
ghost use Rattle.dgn_listing.specs.Lines.{texts_from, Appends};
ghost use Rattle.dgn_listing.specs.ElementTexts.{sign_text, signs_text, places_text, listed_text, element_line, totals_text, elements_text};

use crate::counts::{put_counts, totals_of};
use crate::listed::{Listed, listed_at};
use crate::pieces::{put, put_ending, put_fields};
use level_view::Drawing;
use std::alloc::{AllocError, Global};

/// Appends what `elements` says of the drawing `d`: a line for each element in file order, a line `level L K`
/// for each level and `type T K` for each type, in the order in which they are first seen, with the number of
/// elements, and `elements K`.
///
/// The line of an element is its number, the byte at which it begins, how many bytes it has, its type, its
/// level, and two signs side by side: `c` where it has bit C, `d` where it is marked deleted itself, and a
/// dash where not. Where there is no memory, `out` has grown by a front of that text.
pub fn write_elements(alloc: Global, out: &mut Vec<u8>, d: &Drawing<'_>) -> Result<(), AllocError>
    ensures { Appends result (elements_text (elements d.now)) out.old.items out.new.items }
{
    put_elements(out, d)?;
    put_totals(alloc, out, d)?;
    put_ending(out, b"elements", d.count() as usize)
}

// Appends the lines of all elements.
fn put_elements(out: &mut Vec<u8>, d: &Drawing<'_>) -> Result<(), AllocError>
    ensures { Appends result (texts_from (element_line (elements d.now)) 0 (length (elements d.now))) out.old.items out.new.items }
{
    for n in 0..d.count() {
        put_element(out, d, n)?;
    }
    Ok(())
}

// Appends the line of element `n`, where there is one.
fn put_element(out: &mut Vec<u8>, d: &Drawing<'_>, n: u32) -> Result<(), AllocError>
    ensures { Appends result (element_line (elements d.now) n) out.old.items out.new.items }
{
    match listed_at(d, n) {
        Some(listed) => put_listed(out, &listed),
        None => Ok(()),
    }
}

// Appends what is said of an element.
fn put_listed(out: &mut Vec<u8>, listed: &Listed) -> Result<(), AllocError>
    ensures { Appends result (listed_text listed.now) out.old.items out.new.items }
{
    put_places(out, listed)?;
    put_signs(out, listed)?;
    put(out, b"\n")
}

// Appends the numbers of an element.
fn put_places(out: &mut Vec<u8>, listed: &Listed) -> Result<(), AllocError>
    ensures { Appends result (places_text listed.now) out.old.items out.new.items }
{
    put_fields(
        out,
        &[
            u64::from(listed.number),
            listed.offset as u64,
            listed.size as u64,
            u64::from(listed.kind),
            u64::from(listed.level),
        ],
    )
}

// Appends the signs of an element.
fn put_signs(out: &mut Vec<u8>, listed: &Listed) -> Result<(), AllocError>
    ensures { Appends result (signs_text listed.now) out.old.items out.new.items }
{
    put_sign(out, b"c", listed.cbit)?;
    put_sign(out, b"d", listed.deleted)
}

// Appends a sign, or a dash.
fn put_sign(out: &mut Vec<u8>, sign: &[u8], set: bool) -> Result<(), AllocError>
    ensures { Appends result (sign_text sign.now set) out.old.items out.new.items }
{
    if set { put(out, sign) } else { put(out, b"-") }
}

// Appends the lines of the levels and of the types.
fn put_totals(alloc: Global, out: &mut Vec<u8>, d: &Drawing<'_>) -> Result<(), AllocError>
    ensures { Appends result (totals_text (elements d.now)) out.old.items out.new.items }
{
    let totals = totals_of(alloc, d)?;
    put_counts(out, b"level ", &totals.levels)?;
    put_counts(out, b"type ", &totals.types)
}
