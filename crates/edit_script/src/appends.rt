ghost use Rattle.std.specs.Prelude.{◌≡◌, ◌<◌, IfOk, IfSome, option_map, drop};
ghost use Rattle.dgn_drawing.specs.WellFormed.{IsDimension};
ghost use Rattle.dgn_drawing.specs.NewElements.{IsShapeFor};
ghost use Rattle.edit_script.specs.Words.{words_of};
ghost use Rattle.edit_script.specs.Numbers.{number_within};
ghost use Rattle.edit_script.specs.Points.{point_named};
ghost use Rattle.edit_script.specs.Appends.{pen_of, pen_named, appending, line_command, string_command, shape_command, multiplier_named, lettering_of};
ghost use Rattle.edit_script.specs.Appends.{lettering_named, chars_given, behind_words, text_command, IsPen, IsMultiplier, IsLettering, IsChars};

use crate::numbers::number;
use crate::points::{PointGiven, point, read_path};
use crate::words::next_word;
use dgn_drawing::{Command, Edit, New, NewShape};
use elem_head::types::Symb;
use patch_bytes::ByteList;
use std::alloc::{AllocError, Global};

// The level and the look of an element.
#[derive(Drop)]
pub struct Pen {
    level: u8,
    symb: Symb,
}

// How the characters of a text stand, and where.
#[derive(Drop)]
pub struct Lettering {
    font: u8,
    just: u8,
    length: i32,
    height: i32,
    origin: PointGiven,
}

// The command of `line` with these bytes behind it: a level, a look, and two points.
pub fn read_line(alloc: Global, rest: &[u8]) -> Result<Option<Command>, AllocError>
    ensures { IfOk result (λ command. command ≡ line_command (words_of rest.now)) }
{
    let Some((pen, behind)) = read_pen(rest) else {
        return Ok(None);
    };
    let Some(path) = read_path(alloc, behind, 2, 2)? else {
        return Ok(None);
    };
    let shape = NewShape::Line(path.points);
    Ok(Some(append(pen, path.axes, shape)))
}

// The command of `string` with these bytes behind it: a level, a look, and 2 to 101 points.
pub fn read_string(alloc: Global, rest: &[u8]) -> Result<Option<Command>, AllocError>
    ensures { IfOk result (λ command. command ≡ string_command (words_of rest.now)) }
{
    let Some((pen, behind)) = read_pen(rest) else {
        return Ok(None);
    };
    let Some(path) = read_path(alloc, behind, 2, 101)? else {
        return Ok(None);
    };
    let shape = NewShape::Chain(path.points);
    Ok(Some(append(pen, path.axes, shape)))
}

// The command of `shape` with these bytes behind it: a level, a look, and 3 to 101 points.
pub fn read_shape(alloc: Global, rest: &[u8]) -> Result<Option<Command>, AllocError>
    ensures { IfOk result (λ command. command ≡ shape_command (words_of rest.now)) }
{
    let Some((pen, behind)) = read_pen(rest) else {
        return Ok(None);
    };
    let Some(path) = read_path(alloc, behind, 3, 101)? else {
        return Ok(None);
    };
    let shape = NewShape::Shape(path.points);
    Ok(Some(append(pen, path.axes, shape)))
}

// The command of `text` with these bytes behind it: a level, a look, a lettering, and characters.
pub fn read_text(alloc: Global, rest: &[u8]) -> Result<Option<Command>, AllocError>
    ensures { IfOk result (λ command. command ≡ text_command rest.now) }
{
    let Some((pen, behind)) = read_pen(rest) else {
        return Ok(None);
    };
    let Some((lettering, behind)) = read_lettering(behind) else {
        return Ok(None);
    };
    let Some(chars) = characters(alloc, behind)? else {
        return Ok(None);
    };
    let axes = lettering.origin.axes;
    let origin = lettering.origin.at;
    let shape = NewShape::Text {
        font: lettering.font,
        just: lettering.just,
        length: lettering.length,
        height: lettering.height,
        origin,
        chars,
    };
    Ok(Some(append(pen, axes, shape)))
}

// The command that appends an element of this shape.
fn append(pen: Pen, axes: u8, shape: NewShape) -> Command
    requires pen { IsPen pen }
    requires axes { IsDimension axes }
    requires shape { IsShapeFor axes shape }
    ensures { result ≡ appending pen axes shape }
{
    Command::Edit(Edit::Append(New {
        level: pen.level,
        symb: pen.symb,
        axes,
        shape,
    }))
}

// The level and the look that the first four words give, and what stands behind these.
fn read_pen(rest: &[u8]) -> Option<(Pen, &[u8])>
    ensures pen { option_map (λ r. r.0) result ≡ pen_named (words_of rest.now) }
    ensures words { IfSome result (λ r. words_of r.1.now ≡ drop 4 (words_of rest.now)) }
    ensures behind { IfSome result (λ r. r.1.now ≡ behind_words 4 rest.now) }
    ensures fits { IfSome result (λ r. IsPen r.0) }
{
    let (level, behind) = next_word(rest)?;
    let (color, behind) = next_word(behind)?;
    let (weight, behind) = next_word(behind)?;
    let (style, behind) = next_word(behind)?;
    let pen = pen_with(level, color, weight, style)?;
    Some((pen, behind))
}

// The level and the look that four words give.
fn pen_with(level: &[u8], color: &[u8], weight: &[u8], style: &[u8]) -> Option<Pen>
    ensures value { result ≡ pen_of (number_within 63 level.now) (number_within 255 color.now)
        (number_within 31 weight.now) (number_within 7 style.now) }
    ensures fits { IfSome result IsPen }
{
    let level = number(level, 63)? as u8;
    let color = byte(color)?;
    let weight = number(weight, 31)? as u8;
    let style = number(style, 7)? as u8;
    let symb = Symb {
        color,
        weight,
        style,
    };
    Some(Pen { level, symb })
}

// The lettering that the first five words give, and what stands behind these and one blank.
fn read_lettering(rest: &[u8]) -> Option<(Lettering, &[u8])>
    ensures lettering { option_map (λ r. r.0) result ≡ lettering_named (words_of rest.now) }
    ensures behind { IfSome result (λ r. r.1.now ≡ behind_words 5 rest.now) }
    ensures fits { IfSome result (λ r. IsLettering r.0) }
{
    let (font, behind) = next_word(rest)?;
    let (just, behind) = next_word(behind)?;
    let (length, behind) = next_word(behind)?;
    let (height, behind) = next_word(behind)?;
    let (origin, behind) = next_word(behind)?;
    let lettering = lettering_with(font, just, length, height, origin)?;
    Some((lettering, behind))
}

// The lettering that five words give.
fn lettering_with(
    font: &[u8],
    just: &[u8],
    length: &[u8],
    height: &[u8],
    origin: &[u8],
) -> Option<Lettering>
    ensures value { result ≡ lettering_of (number_within 255 font.now) (number_within 255 just.now)
        (multiplier_named length.now) (multiplier_named height.now) (point_named origin.now) }
    ensures fits { IfSome result IsLettering }
{
    let font = byte(font)?;
    let just = byte(just)?;
    let length = multiplier(length)?;
    let height = multiplier(height)?;
    let origin = point(origin)?;
    Some(Lettering {
        font,
        just,
        length,
        height,
        origin,
    })
}

// The number of a byte that a word spells.
fn byte(word: &[u8]) -> Option<u8>
    ensures value { result ≡ number_within 255 word.now }
    ensures fits { IfSome result (λ n. n < 256) }
{
    let value = number(word, 255)?;
    Some(value as u8)
}

// The multiplier that a word spells.
fn multiplier(word: &[u8]) -> Option<i32>
    ensures value { result ≡ multiplier_named word.now }
    ensures fits { IfSome result IsMultiplier }
{
    let value = number(word, 2147483647)?;
    Some(value as i32)
}

// The characters of a text, of which there are 1 to 255.
fn characters(alloc: Global, bytes: &[u8]) -> Result<Option<ByteList>, AllocError>
    ensures value { IfOk result (λ chars. chars ≡ chars_given bytes.now) }
    ensures fits { IfOk result (λ chars. IfSome chars IsChars) }
{
    if bytes.is_empty() || bytes.len() > 255 {
        return Ok(None);
    }
    let chars = bytes.to_vec(alloc)?;
    Ok(Some(ByteList::from_vec(chars)))
}
