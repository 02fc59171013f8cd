// The text of a cell's name.

ghost use Rattle.std.specs.Prelude.{◌≡◌, ◌<◌};
ghost use Rattle.std.specs.Char.{digit_char};
ghost use Rattle.group_head.specs.Names.{word_text, text_of_name};

use dgn_radix50::unpack;

/// The text of the name `n`, five places a word. A word below 64000 gives its three radix-50 signs
/// and two blanks. A greater one has no signs and gives a backslash and its number, in four
/// hexadecimal digits with a to f in lower case.
pub fn name_text(n: [u16; 2]) -> [u8; 10]
    ensures { result ≡ text_of_name n }
{
    let [first, second] = n;
    let [a, b, c, d, e] = places(first);
    let [f, g, h, i, j] = places(second);
    [a, b, c, d, e, f, g, h, i, j]
}

// The five places of one word.
fn places(w: u16) -> [u8; 5]
    ensures { result ≡ word_text w }
{
    match unpack(w) {
        Some(signs) => [signs[0], signs[1], signs[2], b' ', b' '],
        None => [
            b'\\',
            digit(w / 4096),
            digit(w / 256 % 16),
            digit(w / 16 % 16),
            digit(w % 16),
        ],
    }
}

// A hexadecimal digit.
fn digit(value: u16) -> u8
    requires { value < 16 }
    ensures { result ≡ digit_char value }
{
    if value < 10 {
        b'0' + value as u8
    } else {
        b'a' + (value - 10) as u8
    }
}
