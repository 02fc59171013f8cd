ghost use Rattle.std.specs.Prelude.{◌≡◌, ◌+◌, ◌-◌, ◌*◌, ◌/◌, ◌%◌, ◌==◌, ◌≤◌, ◌++◌, [], ◌∷◌, if◌then◌else◌, length, map, take, IfOk, OnOk};
ghost use Rattle.std.specs.List.{flat_map};
ghost use Rattle.dgn_words.specs.Numbers.{word_bytes, long_bytes, range_long_bytes};
ghost use Rattle.dgn_drawing.specs.WellFormed.{IsDimension};
ghost use Rattle.dgn_drawing.specs.Spelling.{first_byte, second_byte, point_bytes, display_bytes, parts_bytes, spell, size_of};
ghost use Rattle.dgn_layout.specs.Ends.{chars_start};
ghost use Rattle.dgn_drawing.specs.NewElements.{IsShapeFor, kind_made, points_given, lowest, highest, even_up, size_made as size_in, run_made, parts_made};
ghost use Rattle.dgn_drawing.specs.NewElements.{rest_made, display_made, element_made};

use crate::{New, NewShape};
use dgn_words::{put_long, put_range_long, put_word};
use patch_bytes::ByteList;
use range_code::{Box3, join};
use std::alloc::{AllocError, Global};

/// How many bytes an element that is to be appended has: at most 2000.
pub fn size_made(new: &New) -> usize
    ensures size { result ≡ size_of (element_made new.now) }
    ensures bounded { result ≤ 2000 }
{
    shape_size(usize::from(new.axes), &new.shape)
}

/// The bytes of an element that is to be appended, as the definition `made` spells them. An error says that there was no memory.
pub fn spelled(alloc: Global, new: &New) -> Result<ByteList, AllocError>
    ensures { IfOk result (λ bytes. bytes ≡ spell (element_made new.now)) }
{
    let mut bytes = Vec::new(alloc);
    push_head(&mut bytes, new)?;
    push_display(&mut bytes, new)?;
    push_shape(&mut bytes, usize::from(new.axes), &new.shape)?;
    Ok(ByteList::from_vec(bytes))
}

// How many bytes an element of that shape has.
fn shape_size(axes: usize, shape: &NewShape) -> usize
    requires axes { IsDimension axes }
    requires shape { IsShapeFor axes shape.now }
    ensures size { result ≡ size_in axes shape.now }
    ensures at_least { 36 ≤ result }
    ensures bounded { result ≤ 2000 }
{
    match shape {
        NewShape::Line(_) => 36 + 8 * axes,
        NewShape::Chain(points) | NewShape::Shape(points) => row_size(axes, points.len()),
        NewShape::Text { chars, .. } => text_size(axes, chars.len()),
    }
}

// How many bytes a row of n points has.
fn row_size(axes: usize, n: usize) -> usize
    requires axes { IsDimension axes }
    requires bounded { n ≤ 101 }
    ensures size { result ≡ 38 + 4 * axes * n }
    ensures at_least { 36 ≤ result }
    ensures bounded { result ≤ 2000 }
{
    if axes == 2 { 38 + 8 * n } else { 38 + 12 * n }
}

// How many bytes a text of n characters has.
fn text_size(axes: usize, n: usize) -> usize
    requires bounded { n ≤ 255 }
    ensures size { result ≡ even_up (chars_start axes + n) }
    ensures at_least { 36 ≤ result }
    ensures bounded { result ≤ 2000 }
{
    let start = if axes == 2 { 60 } else { 76 };
    let size = start + n;
    size + size % 2
}

// The type of an element of that shape.
fn kind_of(shape: &NewShape) -> u8
    ensures { result ≡ kind_made shape.now }
{
    match shape {
        NewShape::Line(_) => 3,
        NewShape::Chain(_) => 4,
        NewShape::Shape(_) => 6,
        NewShape::Text { .. } => 17,
    }
}

// Appends the first four bytes.
fn push_head(bytes: &mut Vec<u8>, new: &New) -> Result<(), AllocError>
    ensures { OnOk result (bytes.new.items ≡ bytes.old.items
        ++ (first_byte (element_made new.now) ∷ second_byte (element_made new.now)
        ∷ word_bytes ((size_in new.now.axes new.now.shape - 4) / 2))) }
{
    let words = (shape_size(usize::from(new.axes), &new.shape) - 4) / 2;
    bytes.extend_from_slice(&[new.level, kind_of(&new.shape)])?;
    push_word(bytes, words as u16)
}

// Appends the display part.
fn push_display(bytes: &mut Vec<u8>, new: &New) -> Result<(), AllocError>
    ensures { OnOk result (bytes.new.items ≡ bytes.old.items ++ display_bytes (display_made new.now)) }
{
    let range = range_given(&new.shape);
    let index = (shape_size(usize::from(new.axes), &new.shape) - 32) / 2;
    push_range_longs(bytes, &range.lo)?;
    push_range_longs(bytes, &range.hi)?;
    push_word(bytes, 0)?;
    push_word(bytes, index as u16)?;
    push_word(bytes, 0)?;
    bytes.extend_from_slice(&[new.symb.style + 8 * new.symb.weight, new.symb.color])
}

// The least range that holds the points of a shape.
fn range_given(shape: &NewShape) -> Box3
    requires { 1 ≤ length (points_given shape.now) }
    ensures low { result.lo ≡ lowest (points_given shape.now) }
    ensures high { result.hi ≡ highest (points_given shape.now) }
{
    match shape {
        NewShape::Line(points) | NewShape::Chain(points) | NewShape::Shape(points) => {
            range_of_points(points.as_slice())
        }
        NewShape::Text { origin, .. } => range_of_point(*origin),
    }
}

// The range of one point.
fn range_of_point(point: [i32; 3]) -> Box3
    ensures low { result.lo ≡ point }
    ensures high { result.hi ≡ point }
{
    Box3 {
        lo: point,
        hi: point,
    }
}

// The least range that holds some points.
fn range_of_points(points: &[[i32; 3]]) -> Box3
    requires { 1 ≤ length points.now }
    ensures low { result.lo ≡ lowest points.now }
    ensures high { result.hi ≡ highest points.now }
{
    let mut i = points.len() - 1;
    let mut range = range_of_point(points[i]);
    'points: while i > 0 {
        i -= 1;
        range = join(range_of_point(points[i]), range);
    }
    range
}

// Appends what stands behind the display part.
fn push_shape(bytes: &mut Vec<u8>, axes: usize, shape: &NewShape) -> Result<(), AllocError>
    requires axes { IsDimension axes }
    requires shape { IsShapeFor axes shape.now }
    ensures { OnOk result (bytes.new.items ≡ bytes.old.items
        ++ (parts_bytes (parts_made axes shape.now) ++ rest_made shape.now)) }
{
    match shape {
        NewShape::Line(points) => push_points(bytes, axes, points.as_slice()),
        NewShape::Chain(points) | NewShape::Shape(points) => {
            push_word(bytes, points.len() as u16)?;
            push_points(bytes, axes, points.as_slice())
        }
        NewShape::Text {
            font,
            just,
            length,
            height,
            origin,
            chars,
        } => {
            push_run(bytes, axes, *font, *just, *length, *height)?;
            push_point(bytes, axes, origin)?;
            push_chars(bytes, chars.as_slice())
        }
    }
}

// Appends what stands between a text's display part and its origin.
fn push_run(
    bytes: &mut Vec<u8>,
    axes: usize,
    font: u8,
    just: u8,
    length: i32,
    height: i32,
) -> Result<(), AllocError>
    ensures { OnOk result (bytes.new.items ≡ bytes.old.items ++ run_made axes font just length height) }
{
    bytes.extend_from_slice(&[font, just])?;
    push_long(bytes, length)?;
    push_long(bytes, height)?;
    if axes == 2 {
        push_long(bytes, 0)
    } else {
        push_longs(bytes, &[2147483647, 0, 0, 0])
    }
}

// Appends a text's characters, with their number before them and what makes them even behind.
fn push_chars(bytes: &mut Vec<u8>, chars: &[u8]) -> Result<(), AllocError>
    requires { length chars.now ≤ 255 }
    ensures { OnOk result (bytes.new.items ≡ bytes.old.items
        ++ (length chars.now ∷ 0 ∷ (chars.now ++ (if length chars.now % 2 == 0 then [] else 0 ∷ [])))) }
{
    bytes.extend_from_slice(&[chars.len() as u8, 0])?;
    bytes.extend_from_slice(chars)?;
    if chars.len() % 2 != 0 {
        bytes.push(0)?;
    }
    Ok(())
}

// Appends points, each with its numbers on the file's axes.
fn push_points(bytes: &mut Vec<u8>, axes: usize, points: &[[i32; 3]]) -> Result<(), AllocError>
    requires { axes ≤ 3 }
    ensures { OnOk result (bytes.new.items ≡ bytes.old.items ++ flat_map point_bytes (map (take axes) points.now)) }
{
    for point in points {
        push_point(bytes, axes, point)?;
    }
    Ok(())
}

// Appends a point's numbers on the file's axes.
fn push_point(bytes: &mut Vec<u8>, axes: usize, point: &[i32; 3]) -> Result<(), AllocError>
    requires { axes ≤ 3 }
    ensures { OnOk result (bytes.new.items ≡ bytes.old.items ++ point_bytes (take axes point.now)) }
{
    push_longs(bytes, &point[..axes])
}

// Appends longs, side by side.
fn push_longs(bytes: &mut Vec<u8>, numbers: &[i32]) -> Result<(), AllocError>
    ensures { OnOk result (bytes.new.items ≡ bytes.old.items ++ flat_map long_bytes numbers.now) }
{
    for number in numbers {
        push_long(bytes, *number)?;
    }
    Ok(())
}

// Appends range numbers, side by side.
fn push_range_longs(bytes: &mut Vec<u8>, numbers: &[i32]) -> Result<(), AllocError>
    ensures { OnOk result (bytes.new.items ≡ bytes.old.items ++ flat_map range_long_bytes numbers.now) }
{
    for number in numbers {
        push_range_long(bytes, *number)?;
    }
    Ok(())
}

// Appends a word.
fn push_word(bytes: &mut Vec<u8>, v: u16) -> Result<(), AllocError>
    ensures { OnOk result (bytes.new.items ≡ bytes.old.items ++ word_bytes v) }
{
    let mut two = [0; 2];
    put_word(&mut two, 0, v);
    bytes.extend_from_slice(&two)
}

// Appends a long.
fn push_long(bytes: &mut Vec<u8>, v: i32) -> Result<(), AllocError>
    ensures { OnOk result (bytes.new.items ≡ bytes.old.items ++ long_bytes v) }
{
    let mut four = [0; 4];
    put_long(&mut four, 0, v);
    bytes.extend_from_slice(&four)
}

// Appends a range number.
fn push_range_long(bytes: &mut Vec<u8>, v: i32) -> Result<(), AllocError>
    ensures { OnOk result (bytes.new.items ≡ bytes.old.items ++ range_long_bytes v) }
{
    let mut four = [0; 4];
    put_range_long(&mut four, 0, v);
    bytes.extend_from_slice(&four)
}
