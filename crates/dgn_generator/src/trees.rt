ghost use Rattle.std.specs.Prelude.{◌≡◌, ◌+◌, ◌≤◌, ◌++◌, [], ◌∷◌, length, codes, pos, IfOk, OnOk};
ghost use Rattle.dgn_drawing.specs.declared.new_shape.NewShape.TheVariants as shapes;
ghost use Rattle.dgn_drawing.specs.Spelling.{spell, spelling};
ghost use Rattle.dgn_drawing.specs.NewElements.{element_made};
ghost use Rattle.dgn_generator.specs.Generator.{point, new_at, shape_at, cell_header, cell, tree};

use crate::fields::front;
use crate::place::Place;
use crate::rests::{chain_rest, header_rest, line_rest, shape_rest, text_rest};
use std::alloc::AllocError;

/// Appends the tree at this place, and answers how many elements it has. So many are left to make.
pub fn push_tree(bytes: &mut Vec<u8>, left: u32, at: Place) -> Result<u32, AllocError>
    requires { 1 ≤ left }
    ensures bytes { OnOk result (bytes.new.items ≡ bytes.old.items ++ spelling (tree left at.before at.x at.y)) }
    ensures size { IfOk result (λ size. size ≡ length (tree left at.before at.x at.y)) }
    ensures positive { IfOk result (λ size. 1 ≤ size) }
    ensures bounded { IfOk result (λ size. size ≤ left) }
{
    if at.before % 16 == 0 && left >= 3 {
        push_cell(bytes, at)?;
        Ok(3)
    } else {
        push_one(bytes, at)?;
        Ok(1)
    }
}

// Appends a cell of three elements.
fn push_cell(bytes: &mut Vec<u8>, at: Place) -> Result<(), AllocError>
    ensures { OnOk result (bytes.new.items ≡ bytes.old.items ++ spelling (cell at.before at.x at.y)) }
{
    push_cell_header(bytes, at)?;
    push_line(bytes, at, true, 30, 0)?;
    push_line(bytes, at, true, 0, 30)
}

// Appends the header of a cell.
fn push_cell_header(bytes: &mut Vec<u8>, at: Place) -> Result<(), AllocError>
    ensures { OnOk result (bytes.new.items ≡ bytes.old.items ++ spell (cell_header at.before at.x at.y)) }
{
    bytes.extend_from_slice(&front(at, false, 2, 92, 30, 30))?;
    bytes.extend_from_slice(&header_rest(at))?;
    Ok(())
}

// Appends a tree of one element.
fn push_one(bytes: &mut Vec<u8>, at: Place) -> Result<(), AllocError>
    ensures { OnOk result (bytes.new.items ≡ bytes.old.items
        ++ spell (element_made (new_at at.before (shape_at at.before at.x at.y)))) }
{
    match at.before % 4 {
        0 => push_line(bytes, at, false, 100, 50),
        1 => push_chain(bytes, at),
        2 => push_shape(bytes, at),
        _ => push_text(bytes, at),
    }
}

// Appends a line to the point that is so far right and up, with bit C or without.
fn push_line(
    bytes: &mut Vec<u8>,
    at: Place,
    bit_c: bool,
    width: u32,
    height: u32,
) -> Result<(), AllocError>
    requires width { width ≤ 100 }
    requires height { height ≤ 100 }
    ensures { OnOk result (bytes.new.items ≡ bytes.old.items ++ spell (record (element_made (new_at at.before
        (shapes.Line (point at.x at.y ∷ point (at.x + width) (at.y + height) ∷ [])))) { cbit = bit_c })) }
{
    bytes.extend_from_slice(&front(at, bit_c, 3, 52, width, height))?;
    bytes.extend_from_slice(&line_rest(at, width, height))?;
    Ok(())
}

// Appends a chain of three points.
fn push_chain(bytes: &mut Vec<u8>, at: Place) -> Result<(), AllocError>
    ensures { OnOk result (bytes.new.items ≡ bytes.old.items ++ spell (element_made (new_at at.before
        (shapes.Chain (point at.x at.y ∷ point (at.x + 10) at.y ∷ point (at.x + 10) (at.y + 10) ∷ []))))) }
{
    bytes.extend_from_slice(&front(at, false, 4, 62, 10, 10))?;
    bytes.extend_from_slice(&chain_rest(at))?;
    Ok(())
}

// Appends a shape of three sides.
fn push_shape(bytes: &mut Vec<u8>, at: Place) -> Result<(), AllocError>
    ensures { OnOk result (bytes.new.items ≡ bytes.old.items ++ spell (element_made (new_at at.before
        (shapes.Shape (point at.x at.y ∷ point (at.x + 20) at.y ∷ point (at.x + 20) (at.y + 20) ∷ point at.x at.y ∷ []))))) }
{
    bytes.extend_from_slice(&front(at, false, 6, 70, 20, 20))?;
    bytes.extend_from_slice(&shape_rest(at))?;
    Ok(())
}

// Appends a text of three characters.
fn push_text(bytes: &mut Vec<u8>, at: Place) -> Result<(), AllocError>
    ensures { OnOk result (bytes.new.items ≡ bytes.old.items ++ spell (element_made (new_at at.before
        (shapes.Text 1 0 (pos 1000) (pos 1000) (point at.x at.y) (codes "DGN"))))) }
{
    bytes.extend_from_slice(&front(at, false, 17, 64, 0, 0))?;
    bytes.extend_from_slice(&text_rest(at))?;
    Ok(())
}
