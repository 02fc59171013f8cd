// Where an element stands.

ghost use Rattle.std.specs.Prelude.{◌<◌, length};
ghost use Rattle.elem_index.specs.Design.{elements};
ghost use Rattle.level_view.specs.Back.{IsPlace};

use crate::Drawing;
use nest_tree::Knot;

// An element at its place in the drawing.
#[derive(Clone, Copy, Drop)]
pub(crate) struct Place<'a> {
    // Its number.
    pub(crate) number: u32,
    // How many headers lie above it.
    pub(crate) depth: u32,
    // The number behind the last element below it.
    pub(crate) end: u32,
    // What it is.
    pub(crate) knot: Knot,
    // Its bytes.
    pub(crate) bytes: &'a [u8],
}

// Element `n` at its place.
pub(crate) fn place_of<'a>(d: &Drawing<'a>, n: u32) -> Place<'a>
    requires known { n < length (elements d.now) }
    ensures { IsPlace d.now.dim (elements d.now) n result }
{
    d.is_whole();
    let Some(bytes) = d.element(n) else {
        unreachable!()
    };
    let Some(knot) = d.knot(n) else {
        unreachable!()
    };
    let Some(depth) = d.depth(n) else {
        unreachable!()
    };
    let Some((number, end)) = d.span(n) else {
        unreachable!()
    };
    Place {
        number,
        depth,
        end,
        knot,
        bytes,
    }
}
