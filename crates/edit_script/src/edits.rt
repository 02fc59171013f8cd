ghost use Rattle.std.specs.Prelude.{◌≡◌, ◌≤◌, pos, Some, IfSome};
ghost use Rattle.range_code.specs.Plane.{IsDisplacement};
ghost use Rattle.edit_script.specs.Words.{words_of};
ghost use Rattle.edit_script.specs.Edits.{color_command, given_within, look_named, sym_command, distance_named, shift_of, shift_named, move_command};
ghost use Rattle.edit_script.specs.Edits.{copy_command, delete_command, one_element};

use crate::numbers::{number, signed_number};
use crate::words::next_word;
use dgn_drawing::{Command, Edit, Shift, SymbChange};

// The command of `color` with these bytes behind it: the number of an element, and a colour.
pub fn read_color(rest: &[u8]) -> Option<Command>
    ensures { result ≡ color_command (words_of rest.now) }
{
    let (element, rest) = next_word(rest)?;
    let (color, rest) = next_word(rest)?;
    if next_word(rest).is_some() {
        return None;
    }
    let n = number(element, u32::MAX)?;
    let color = number(color, 255)? as u8;
    let change = SymbChange {
        color: Some(color),
        weight: None,
        style: None,
    };
    Some(Command::Edit(Edit::Sym { n, change }))
}

// The command of `sym` with these bytes behind it: the number of an element, and a look.
pub fn read_sym(rest: &[u8]) -> Option<Command>
    ensures { result ≡ sym_command (words_of rest.now) }
{
    let (element, rest) = next_word(rest)?;
    let n = number(element, u32::MAX)?;
    let change = read_look(rest)?;
    Some(Command::Edit(Edit::Sym { n, change }))
}

// The look that these bytes give: colour, weight and style.
pub fn read_look(rest: &[u8]) -> Option<SymbChange>
    ensures { result ≡ look_named (words_of rest.now) }
{
    let (color, rest) = next_word(rest)?;
    let (weight, rest) = next_word(rest)?;
    let (style, rest) = next_word(rest)?;
    if next_word(rest).is_some() {
        return None;
    }
    let color = given(color, 255)?;
    let weight = given(weight, 31)?;
    let style = given(style, 7)?;
    Some(SymbChange {
        color,
        weight,
        style,
    })
}

// What a word of `sym` gives: with `-` nothing, and otherwise a number.
fn given(word: &[u8], most: u8) -> Option<Option<u8>>
    ensures value { result ≡ given_within most word.now }
    ensures fits { IfSome result (λ given. IfSome given (λ n. n ≤ most)) }
{
    if word == b"-".as_slice() {
        return Some(None);
    }
    let value = number(word, u32::from(most))? as u8;
    Some(Some(value))
}

// The command of `move` with these bytes behind it: the number of an element, and a displacement.
pub fn read_move(rest: &[u8]) -> Option<Command>
    ensures { result ≡ move_command (words_of rest.now) }
{
    let (element, rest) = next_word(rest)?;
    let n = number(element, u32::MAX)?;
    let by = read_shift(rest)?;
    Some(Command::Edit(Edit::Move { n, by }))
}

// The command of `copy` with these bytes behind it: the number of an element, and a displacement.
pub fn read_copy(rest: &[u8]) -> Option<Command>
    ensures { result ≡ copy_command (words_of rest.now) }
{
    let (element, rest) = next_word(rest)?;
    let n = number(element, u32::MAX)?;
    let by = read_shift(rest)?;
    Some(Command::Edit(Edit::Copy { n, by }))
}

// The displacement that these bytes give: two numbers or three.
pub fn read_shift(rest: &[u8]) -> Option<Shift>
    ensures { result ≡ shift_named (words_of rest.now) }
{
    let (x, rest) = next_word(rest)?;
    let (y, rest) = next_word(rest)?;
    let Some((z, rest)) = next_word(rest) else {
        return flat_shift(x, y);
    };
    if next_word(rest).is_some() {
        return None;
    }
    shift(x, y, z)
}

// The displacement of two words, along x and y.
fn flat_shift(x: &[u8], y: &[u8]) -> Option<Shift>
    ensures { result ≡ shift_of 2 (distance_named x.now) (distance_named y.now) (Some (pos 0)) }
{
    let x = distance(x)?;
    let y = distance(y)?;
    Some(Shift {
        axes: 2,
        by: [x, y, 0],
    })
}

// The displacement of three words, along x, y and z.
fn shift(x: &[u8], y: &[u8], z: &[u8]) -> Option<Shift>
    ensures { result ≡ shift_of 3 (distance_named x.now) (distance_named y.now) (distance_named z.now) }
{
    let x = distance(x)?;
    let y = distance(y)?;
    let z = distance(z)?;
    Some(Shift {
        axes: 3,
        by: [x, y, z],
    })
}

// How far a word says to go along an axis.
fn distance(word: &[u8]) -> Option<i64>
    ensures value { result ≡ distance_named word.now }
    ensures fits { IfSome result IsDisplacement }
{
    signed_number(word, u32::MAX)
}

// The command of `delete` with these bytes behind it: the number of an element.
pub fn read_delete(rest: &[u8]) -> Option<Command>
    ensures { result ≡ delete_command (words_of rest.now) }
{
    let n = one_element(rest)?;
    Some(Command::Edit(Edit::Delete { n }))
}

// The number of an element that these bytes give, in one word.
pub fn one_element(rest: &[u8]) -> Option<u32>
    ensures { result ≡ one_element (words_of rest.now) }
{
    let (element, behind) = next_word(rest)?;
    if next_word(behind).is_some() {
        return None;
    }
    number(element, u32::MAX)
}
