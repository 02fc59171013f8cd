// What a display shows of one element.

ghost use Rattle.std.specs.Prelude.{◌≡◌, ◌<◌, ◌≤◌, ◌⊎◌, length, map, IfOk};
ghost use Rattle.elem_head.specs.Head.{kind_of};
ghost use Rattle.body_vertex.specs.Points.{points_of, IsPathKind, PointsFit};
ghost use Rattle.body_text.specs.Texts.{origin_of, chars_of, TextFits, node_origin_of, node_end};
ghost use Rattle.group_head.specs.Headers.{name_at, origin_at, cell_end};
ghost use Rattle.dgn_drawing.specs.declared.types.item_body.ItemBody.{ItemBody};
ghost use Rattle.dgn_drawing.specs.declared.form.Form.{Form};
ghost use Rattle.dgn_drawing.specs.Reading.{form_at, end_at, parts_at, element_at};
ghost use Rattle.dgn_drawing.specs.Faults.{HasNoFaultIn};
ghost use Rattle.dgn_drawing.specs.Items.{in_space, item_body_of, item_of};
ghost use Rattle.dgn_drawing.specs.WellFormed.{IsDimension};

use crate::form::{Form, form_of};
use crate::types::{Item, ItemBody};
use body_text::{node, text};
use body_vertex::path;
use dgn_layout::SHARED_CELL;
use elem_head::{head, symb};
use group_head::cell;
use patch_bytes::ByteList;
use plane_geom::PointList;
use range_code::range;
use std::alloc::{AllocError, Global};

/// What a display shows of the sound element `b` with the number `number` at the depth `depth`, in 2
/// or 3 dimensions.
///
/// None exactly for the class silent and for a shared cell definition, type 34. The call looks at neither the deleted
/// bit nor the level. An error says that there was no memory.
pub fn item(
    alloc: Global,
    dim: u8,
    number: u32,
    depth: u32,
    b: &[u8],
) -> Result<Option<Item>, AllocError>
    requires dimension { IsDimension dim }
    requires element { HasNoFaultIn dim b.now }
    ensures { IfOk result (λ found. found ≡ item_of dim number depth (element_at dim b.now)) }
{
    let head = head(b);
    let form = form_of(head.kind);
    if form == Form::Silent {
        return Ok(None);
    }
    if head.kind == SHARED_CELL {
        return Ok(None);
    }
    let body = shown_body(alloc, dim, form, head.kind, b)?;
    Ok(Some(Item {
        number,
        depth,
        kind: head.kind,
        level: head.level,
        symb: symb(b),
        axes: dim,
        range: range(b),
        body,
    }))
}

// What is shown of the body of an element that has a display part, in 2 or 3 dimensions.
fn shown_body(
    alloc: Global,
    dim: u8,
    form: Form,
    kind: u8,
    b: &[u8],
) -> Result<ItemBody, AllocError>
    requires dimension { IsDimension dim }
    requires form { form ≡ form_at b.now }
    requires kind { kind ≡ kind_of b.now }
    requires fits { end_at dim b.now ≤ length b.now }
    ensures { IfOk result (λ body. body ≡ item_body_of (parts_at form dim b.now)) }
{
    if dim == 2 {
        item_body::<2>(alloc, form, kind, b)
    } else {
        item_body::<3>(alloc, form, kind, b)
    }
}

// What is shown of the body of an element that has a display part, in DIM dimensions.
fn item_body<const DIM: usize>(
    alloc: Global,
    form: Form,
    kind: u8,
    b: &[u8],
) -> Result<ItemBody, AllocError>
    requires dimension { (DIM ≡ 2) ⊎ (DIM ≡ 3) }
    requires form { form ≡ form_at b.now }
    requires kind { kind ≡ kind_of b.now }
    requires fits { end_at DIM b.now ≤ length b.now }
    ensures { IfOk result (λ body. body ≡ item_body_of (parts_at form DIM b.now)) }
{
    match form {
        Form::Line | Form::Points => Ok(ItemBody::Path(points::<DIM>(alloc, kind, b)?)),
        Form::Text => text_body::<DIM>(alloc, b),
        Form::Node => Ok(node_body::<DIM>(b)),
        Form::Cell => Ok(cell_body::<DIM>(b)),
        Form::Header => Ok(ItemBody::Group),
        Form::Plain | Form::Silent => Ok(ItemBody::Boxed),
    }
}

// The points of a row of points.
fn points<const DIM: usize>(alloc: Global, kind: u8, b: &[u8]) -> Result<PointList, AllocError>
    requires dimension { (DIM ≡ 2) ⊎ (DIM ≡ 3) }
    requires kind { IsPathKind kind }
    requires fits { PointsFit DIM kind b.now }
    ensures { IfOk result (λ list. list ≡ map in_space (points_of DIM kind b.now)) }
{
    let mut list = PointList::new(alloc);
    let Some(path) = path::<DIM>(kind, b) else {
        unreachable!()
    };
    for i in 0..path.count() {
        list.push(in_space(path.point(i)))?;
    }
    Ok(list)
}

// A text's origin and characters.
fn text_body<const DIM: usize>(alloc: Global, b: &[u8]) -> Result<ItemBody, AllocError>
    requires dimension { (DIM ≡ 2) ⊎ (DIM ≡ 3) }
    requires fits { TextFits DIM b.now }
    ensures { IfOk result (λ body. body ≡ ItemBody.Text (in_space (origin_of DIM b.now)) (chars_of DIM b.now)) }
{
    let Some(words) = text::<DIM>(b) else {
        unreachable!()
    };
    Ok(ItemBody::Text {
        origin: in_space(words.origin),
        chars: copied(alloc, words.chars)?,
    })
}

// A text node's origin.
fn node_body<const DIM: usize>(b: &[u8]) -> ItemBody
    requires dimension { (DIM ≡ 2) ⊎ (DIM ≡ 3) }
    requires fits { node_end DIM ≤ length b.now }
    ensures { result ≡ ItemBody.Node (in_space (node_origin_of DIM b.now)) }
{
    let Some(origin) = node::<DIM>(b) else {
        unreachable!()
    };
    ItemBody::Node(in_space(origin))
}

// A cell's name and origin.
fn cell_body<const DIM: usize>(b: &[u8]) -> ItemBody
    requires dimension { (DIM ≡ 2) ⊎ (DIM ≡ 3) }
    requires fits { cell_end DIM ≤ length b.now }
    ensures { result ≡ ItemBody.Cell (name_at b.now) (in_space (origin_at DIM b.now)) }
{
    let Some(cell) = cell::<DIM>(b) else {
        unreachable!()
    };
    let name = cell.name;
    let origin = in_space(cell.origin);
    ItemBody::Cell { name, origin }
}

// A point with three numbers. The third is 0 where there is none.
fn in_space<const DIM: usize>(point: [i32; DIM]) -> [i32; 3]
    requires { (DIM ≡ 2) ⊎ (DIM ≡ 3) }
    ensures { result ≡ in_space point.entry }
{
    let z = if DIM == 3 { point[2] } else { 0 };
    [point[0], point[1], z]
}

// The bytes as a list.
fn copied(alloc: Global, bytes: &[u8]) -> Result<ByteList, AllocError>
    ensures { IfOk result (λ list. list ≡ bytes.now) }
{
    let mut list = ByteList::new(alloc);
    for byte in bytes {
        list.push(*byte)?;
    }
    Ok(list)
}
