// What `show` says: a line for each item that is shown, and how many there are.

ghost use Rattle.std.specs.Prelude.{◌≡◌, ◌+◌, ◌<◌};
ghost use Rattle.std.specs.Fmt.{signed_decimal};
ghost use Rattle.group_head.specs.Names.{text_of_name};
ghost use Rattle.range_code.specs.Ranges.{on_axis};
ghost use Rattle.std.specs.Char.{digit_char};
ghost use Rattle.dgn_listing.specs.Lines.{Appends};
ghost use Rattle.dgn_listing.specs.ItemTexts.{pair_text, third_text, height_text, point_text, next_point_text, points_text, is_plain, char_text};
ghost use Rattle.dgn_listing.specs.ItemTexts.{chars_text, path_text, said_text, box_text, cell_text, node_text, body_text, numbers_text, item_text};
ghost use Rattle.dgn_listing.specs.ItemTexts.{lines_text, items_text};

use crate::pieces::{put, put_ending, put_fields};
use dgn_drawing::types::{Item, ItemBody};
use group_head::name_text;
use itoa::Buffer;
use range_code::Box3;
use std::alloc::{AllocError, Global};

/// Appends what `show` says of the items: a line for each, in their order, and `shown K` with their
/// number.
///
/// A line is the item's number, depth, type, level, colour, weight, style and body. Where there is no
/// memory, `out` has grown by a front of that text.
pub fn write_items(alloc: Global, out: &mut Vec<u8>, items: &[Item]) -> Result<(), AllocError>
    ensures { Appends result (items_text items.now) out.old.items out.new.items }
{
    put_lines(out, items)?;
    put_ending(out, b"shown", items.len())
}

// Appends the lines of the items.
fn put_lines(out: &mut Vec<u8>, items: &[Item]) -> Result<(), AllocError>
    ensures { Appends result (lines_text items.now) out.old.items out.new.items }
{
    for item in items {
        put_item(out, item)?;
    }
    Ok(())
}

// Appends the line of an item.
fn put_item(out: &mut Vec<u8>, item: &Item) -> Result<(), AllocError>
    ensures { Appends result (item_text item.now) out.old.items out.new.items }
{
    put_numbers(out, item)?;
    put_body(out, item)?;
    put(out, b"\n")
}

// Appends the numbers of an item: its own, its depth, type and level, and its look.
fn put_numbers(out: &mut Vec<u8>, item: &Item) -> Result<(), AllocError>
    ensures { Appends result (numbers_text item.now) out.old.items out.new.items }
{
    put_fields(
        out,
        &[
            u64::from(item.number),
            u64::from(item.depth),
            u64::from(item.kind),
            u64::from(item.level),
            u64::from(item.symb.color),
            u64::from(item.symb.weight),
            u64::from(item.symb.style),
        ],
    )
}

// Appends what an item is.
fn put_body(out: &mut Vec<u8>, item: &Item) -> Result<(), AllocError>
    ensures { Appends result (body_text item.now.axes item.now.range item.now.body) out.old.items out.new.items }
{
    match &item.body {
        ItemBody::Path(points) => put_path(out, item.axes, points.as_slice()),
        ItemBody::Text { origin, chars } => put_text(out, item.axes, origin, chars.as_slice()),
        ItemBody::Boxed => put_box(out, item.axes, &item.range),
        ItemBody::Cell { name, origin } => put_cell(out, item.axes, *name, origin),
        ItemBody::Node(origin) => put_node(out, item.axes, origin),
        ItemBody::Group => put(out, b"group"),
    }
}

// Appends a row of points.
fn put_path(out: &mut Vec<u8>, axes: u8, points: &[[i32; 3]]) -> Result<(), AllocError>
    ensures { Appends result (path_text axes points.now) out.old.items out.new.items }
{
    put(out, b"path")?;
    put_points(out, axes, points)
}

// Appends a text: its origin and its characters.
fn put_text(out: &mut Vec<u8>, axes: u8, origin: &[i32; 3], chars: &[u8]) -> Result<(), AllocError>
    ensures { Appends result (said_text axes origin.now chars.now) out.old.items out.new.items }
{
    put(out, b"text ")?;
    put_point(out, axes, origin)?;
    put(out, b" ")?;
    put_chars(out, chars)
}

// Appends a box: its low and its high corner.
fn put_box(out: &mut Vec<u8>, axes: u8, range: &Box3) -> Result<(), AllocError>
    ensures { Appends result (box_text axes range.now) out.old.items out.new.items }
{
    put(out, b"box ")?;
    put_point(out, axes, &range.lo)?;
    put(out, b" ")?;
    put_point(out, axes, &range.hi)
}

// Appends a cell: its name and its origin.
fn put_cell(
    out: &mut Vec<u8>,
    axes: u8,
    name: [u16; 2],
    origin: &[i32; 3],
) -> Result<(), AllocError>
    ensures { Appends result (cell_text axes name origin.now) out.old.items out.new.items }
{
    put(out, b"cell [")?;
    put_name(out, name)?;
    put(out, b"] ")?;
    put_point(out, axes, origin)
}

// Appends the ten places of a cell's name.
fn put_name(out: &mut Vec<u8>, name: [u16; 2]) -> Result<(), AllocError>
    ensures { Appends result (text_of_name name) out.old.items out.new.items }
{
    put(out, &name_text(name))
}

// Appends a text node: its origin.
fn put_node(out: &mut Vec<u8>, axes: u8, origin: &[i32; 3]) -> Result<(), AllocError>
    ensures { Appends result (node_text axes origin.now) out.old.items out.new.items }
{
    put(out, b"node ")?;
    put_point(out, axes, origin)
}

// Appends points, with a blank before each.
fn put_points(out: &mut Vec<u8>, axes: u8, points: &[[i32; 3]]) -> Result<(), AllocError>
    ensures { Appends result (points_text axes points.now) out.old.items out.new.items }
{
    for point in points {
        put_next_point(out, axes, point)?;
    }
    Ok(())
}

// Appends a blank and a point.
fn put_next_point(out: &mut Vec<u8>, axes: u8, point: &[i32; 3]) -> Result<(), AllocError>
    ensures { Appends result (next_point_text axes point.now) out.old.items out.new.items }
{
    put(out, b" ")?;
    put_point(out, axes, point)
}

/// Appends a point: `x,y`, and in three dimensions `x,y,z`. Where there is no memory for it, `out` has grown by a front of it.
pub fn put_point(out: &mut Vec<u8>, axes: u8, point: &[i32; 3]) -> Result<(), AllocError>
    ensures { Appends result (point_text axes point.now) out.old.items out.new.items }
{
    put_pair(out, point)?;
    put_height(out, axes, point)
}

// Appends x,y of a point.
fn put_pair(out: &mut Vec<u8>, point: &[i32; 3]) -> Result<(), AllocError>
    ensures { Appends result (pair_text point.now) out.old.items out.new.items }
{
    put_axis(out, point, 0)?;
    put(out, b",")?;
    put_axis(out, point, 1)
}

// Appends ,z of a point, where there are three dimensions.
fn put_height(out: &mut Vec<u8>, axes: u8, point: &[i32; 3]) -> Result<(), AllocError>
    ensures { Appends result (height_text axes point.now) out.old.items out.new.items }
{
    if axes == 3 {
        put_third(out, point)
    } else {
        Ok(())
    }
}

// Appends ,z of a point.
fn put_third(out: &mut Vec<u8>, point: &[i32; 3]) -> Result<(), AllocError>
    ensures { Appends result (third_text point.now) out.old.items out.new.items }
{
    put(out, b",")?;
    put_axis(out, point, 2)
}

// Appends the number of a point on one axis.
fn put_axis(out: &mut Vec<u8>, point: &[i32; 3], axis: usize) -> Result<(), AllocError>
    requires { axis < 3 }
    ensures { Appends result (signed_decimal (on_axis point.now axis)) out.old.items out.new.items }
{
    let mut buffer = Buffer::new();
    put(out, buffer.format(point[axis]).as_bytes())
}

// Appends characters, each as itself or escaped.
fn put_chars(out: &mut Vec<u8>, chars: &[u8]) -> Result<(), AllocError>
    ensures { Appends result (chars_text chars.now) out.old.items out.new.items }
{
    for char in chars {
        put_char(out, *char)?;
    }
    Ok(())
}

// Appends a character, as itself or as a backslash and two hexadecimal digits.
fn put_char(out: &mut Vec<u8>, char: u8) -> Result<(), AllocError>
    ensures { Appends result (char_text char) out.old.items out.new.items }
{
    if is_plain(char) {
        put(out, &[char])
    } else {
        put(out, &[b'\\', digit(char / 16), digit(char % 16)])
    }
}

// Whether a character stands for itself.
fn is_plain(char: u8) -> bool
    ensures { result ≡ is_plain char }
{
    (b' '..=b'~').contains(&char) && char != b'\\'
}

// A hexadecimal digit.
fn digit(value: u8) -> u8
    requires { value < 16 }
    ensures { result ≡ digit_char value }
{
    if value < 10 {
        b'0' + value
    } else {
        b'a' + (value - 10)
    }
}
