ghost use Rattle.std.specs.Prelude.{◌<◌, length};
ghost use Rattle.elem_index.specs.Design.{elements};
ghost use Rattle.dgn_audit.specs.NestedElements.{IsNestedElement};

use edit_ops::{ElementView, find};
use level_view::Drawing;
use nest_tree::Knot;

// An element among the trees of a drawing.
#[derive(Clone, Copy)]
pub(crate) struct NestedElement<'a> {
    // What it is.
    pub(crate) knot: Knot,
    // The number of the header that it stands below.
    pub(crate) parent: Option<u32>,
    // The number behind the last element below it.
    pub(crate) end: u32,
    // What is read of it.
    pub(crate) view: ElementView<'a>,
}

// Element `n`, which there is.
pub(crate) fn nested_at<'a>(d: &Drawing<'a>, n: u32) -> NestedElement<'a>
    requires known { n < length (elements d.now) }
    ensures { IsNestedElement d.now n result }
{
    let Some(view) = find(d, n) else {
        unreachable!()
    };
    let Some(knot) = d.knot(n) else {
        unreachable!()
    };
    let Some(parent) = d.parent(n) else {
        unreachable!()
    };
    let Some((_, end)) = d.span(n) else {
        unreachable!()
    };
    NestedElement {
        knot,
        parent,
        end,
        view,
    }
}
