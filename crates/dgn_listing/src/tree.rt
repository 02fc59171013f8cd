// What `tree N` says: a line for each element from N to the last one below it, and how many there are.

ghost use Rattle.std.specs.Prelude.{◌-◌, ◌<◌, ◌≤◌, length};
ghost use Rattle.elem_index.specs.Design.{elements};
ghost use Rattle.dgn_listing.specs.Lines.{texts_from, Appends};
ghost use Rattle.dgn_listing.specs.TreeTexts.{knot_text, state_text, orphan_text, numbers_text, line_text, element_text, tree_text};

use crate::pieces::{put, put_ending, put_fields};
use crate::tree_line::{TreeLine, tree_line};
use level_view::Drawing;
use nest_tree::Knot;
use std::alloc::{AllocError, Global};

/// Appends what `tree N` says of element `n` of the drawing `d`: a line for
/// each element of its span, and `tree K` with their number.
///
/// A line is the element's number, depth, type, level and knot, `live` or `deleted` by the element's own
/// bit, and for an orphan the word `orphan`. Where there is no memory, `out` has grown by a front of
/// that text.
pub fn write_tree(
    alloc: Global,
    out: &mut Vec<u8>,
    d: &Drawing<'_>,
    n: u32,
) -> Result<(), AllocError>
    requires known { n < length (elements d.now) }
    ensures { Appends result (tree_text (elements d.now) n) out.old.items out.new.items }
{
    let Some((first, end)) = d.span(n) else {
        unreachable!()
    };
    put_elements(out, d, first, end)?;
    put_ending(out, b"tree", (end - first) as usize)
}

// Appends the lines of the elements from `first` on and before `end`.
fn put_elements(out: &mut Vec<u8>, d: &Drawing<'_>, first: u32, end: u32) -> Result<(), AllocError>
    requires ordered { first ≤ end }
    ensures { Appends result (texts_from (element_text (elements d.now)) first (end - first)) out.old.items out.new.items }
{
    for n in first..end {
        put_element(out, d, n)?;
    }
    Ok(())
}

// Appends the line of element `n`, where there is one.
fn put_element(out: &mut Vec<u8>, d: &Drawing<'_>, n: u32) -> Result<(), AllocError>
    ensures { Appends result (element_text (elements d.now) n) out.old.items out.new.items }
{
    match tree_line(d, n) {
        Some(line) => put_line(out, &line),
        None => Ok(()),
    }
}

// Appends a line.
fn put_line(out: &mut Vec<u8>, line: &TreeLine) -> Result<(), AllocError>
    ensures { Appends result (line_text line.now) out.old.items out.new.items }
{
    put_numbers(out, line)?;
    put_knot(out, line.knot)?;
    put_state(out, line.deleted)?;
    put_orphan(out, line.orphan)?;
    put(out, b"\n")
}

// Appends the numbers of a line.
fn put_numbers(out: &mut Vec<u8>, line: &TreeLine) -> Result<(), AllocError>
    ensures { Appends result (numbers_text line.now) out.old.items out.new.items }
{
    put_fields(
        out,
        &[
            u64::from(line.number),
            u64::from(line.depth),
            u64::from(line.kind),
            u64::from(line.level),
        ],
    )
}

// Appends the word for what an element is in its tree.
fn put_knot(out: &mut Vec<u8>, knot: Knot) -> Result<(), AllocError>
    ensures { Appends result (knot_text knot) out.old.items out.new.items }
{
    match knot {
        Knot::Leaf => put(out, b"leaf"),
        Knot::Group => put(out, b"group"),
        Knot::Run => put(out, b"run"),
        Knot::Loose => put(out, b"loose"),
    }
}

// Appends a blank, and whether the element itself is marked deleted.
pub(crate) fn put_state(out: &mut Vec<u8>, deleted: bool) -> Result<(), AllocError>
    ensures { Appends result (state_text deleted) out.old.items out.new.items }
{
    if deleted {
        put(out, b" deleted")
    } else {
        put(out, b" live")
    }
}

// Appends a blank and the word for an orphan, where the element is one.
fn put_orphan(out: &mut Vec<u8>, orphan: bool) -> Result<(), AllocError>
    ensures { Appends result (orphan_text orphan) out.old.items out.new.items }
{
    if orphan { put(out, b" orphan") } else { Ok(()) }
}
