// Where the segments of an element begin and lie, read from its bytes. No item is made.

ghost use Rattle.std.specs.Prelude.{◌≡◌, ◌⊎◌, map};
ghost use Rattle.body_vertex.specs.Points.{points_of, IsPathKind, PointsFit};
ghost use Rattle.dgn_drawing.specs.WellFormed.{IsDimension};
ghost use Rattle.dgn_drawing.specs.Faults.{HasNoFaultIn};
ghost use Rattle.dgn_drawing.specs.Reading.{element_at};
ghost use Rattle.dgn_drawing.specs.Items.{item_of};
ghost use Rattle.dgn_fence.specs.Segments.{plane_point};
ghost use Rattle.dgn_fence.specs.Outlines.{path_outline, range_outline, outline_of};

use crate::bounds::Bounds;
use crate::extent::flat;
use body_vertex::path;
use dgn_layout::types::Class;
use dgn_layout::{SHARED_CELL, class};
use elem_head::head;
use plane_geom::Pt;
use range_code::{Box3, range};

// The first point of an item, and the bounds of its segments.
#[derive(Clone, Copy)]
pub(crate) struct Outline {
    pub(crate) first: Pt,
    pub(crate) around: Bounds,
}

// The outline of the item of an element, if it has segments.
pub(crate) fn read_outline(dim: u8, b: &[u8]) -> Option<Outline>
    requires dimension { IsDimension dim }
    requires element { HasNoFaultIn dim b.now }
    ensures { result ≡ outline_of (item_of dim 0 0 (element_at dim b.now)) }
{
    let kind = head(b).kind;
    if kind == SHARED_CELL {
        return None;
    }
    match class(kind) {
        Class::Vertices => points_outline(dim, kind, b),
        Class::Words | Class::Run | Class::Floating | Class::Boxed => Some(range_outline(range(b))),
        Class::Counted | Class::Silent => None,
    }
}

// That of a row of points, in 2 or 3 dimensions, if there are any.
fn points_outline(dim: u8, kind: u8, b: &[u8]) -> Option<Outline>
    requires dimension { IsDimension dim }
    requires kind { IsPathKind kind }
    requires fits { PointsFit dim kind b.now }
    ensures { result ≡ path_outline (map plane_point (points_of dim kind b.now)) }
{
    if dim == 2 {
        path_outline::<2>(kind, b)
    } else {
        path_outline::<3>(kind, b)
    }
}

// The outline of the points of an element, in DIM dimensions.
fn path_outline<const DIM: usize>(kind: u8, b: &[u8]) -> Option<Outline>
    requires dimension { (DIM ≡ 2) ⊎ (DIM ≡ 3) }
    requires kind { IsPathKind kind }
    requires fits { PointsFit DIM kind b.now }
    ensures { result ≡ path_outline (map plane_point (points_of DIM kind b.now)) }
{
    let Some(path) = path::<DIM>(kind, b) else {
        unreachable!()
    };
    let count = path.count();
    if count == 0 {
        return None;
    }
    let first = on_plane(path.point(0));
    let mut around = Bounds::at(first);
    for i in 1..count {
        around = around.grown(on_plane(path.point(i)));
    }
    Some(Outline { first, around })
}

// The first two numbers of a point.
fn on_plane<const DIM: usize>(point: [i32; DIM]) -> Pt
    requires { (DIM ≡ 2) ⊎ (DIM ≡ 3) }
    ensures { result ≡ plane_point point.entry }
{
    Pt {
        x: point[0],
        y: point[1],
    }
}

// That of a range.
fn range_outline(range: Box3) -> Outline
    ensures { result ≡ range_outline range }
{
    let first = flat(range.lo);
    Outline {
        first,
        around: Bounds::at(first).grown(flat(range.hi)),
    }
}
