ghost use Rattle.std.specs.Prelude.{◌≡◌, ◌+◌, ◌%◌, ◌^◌, ◌<◌, ◌≤◌, length, false, pos};
ghost use Rattle.dgn_words.specs.Numbers.{put, long_bytes, range_long_bytes};
ghost use Rattle.dgn_drawing.specs.Spelling.{bit};
ghost use Rattle.dgn_generator.specs.Fronts.{front_at};

use crate::place::Place;
use dgn_words::{put_long, put_range_long, put_word};

/// The first 36 bytes of an element of this type and size, whose range is so wide and high.
pub fn front(at: Place, bit_c: bool, kind: u8, size: u16, width: u32, height: u32) -> [u8; 36]
    requires size { 36 ≤ size }
    requires width { width ≤ 100 }
    requires height { height ≤ 100 }
    ensures { result ≡ front_at at.before at.x at.y bit_c kind size width height }
{
    let mut b = [0; 36];
    b[0] = first_byte(at.before, bit_c);
    b[1] = kind;
    put_word(&mut b, 2, (size - 4) / 2);
    put_number(&mut b, 4, at.x);
    put_number(&mut b, 8, at.y);
    put_number(&mut b, 12, 0);
    put_number(&mut b, 16, at.x + width);
    put_number(&mut b, 20, at.y + height);
    put_number(&mut b, 24, 0);
    put_word(&mut b, 30, (size - 32) / 2);
    b[35] = (at.before % 16) as u8;
    b
}

// The first byte of an element: its level, and bit C.
fn first_byte(before: u32, bit_c: bool) -> u8
    ensures { result ≡ 1 + before % 8 + bit 64 false + bit 128 bit_c }
{
    let level = 1 + (before % 8) as u8;
    if bit_c { level + 128 } else { level }
}

// Writes a range number at byte `at`.
fn put_number(b: &mut [u8], at: usize, v: u32)
    requires within { at + 4 ≤ length b.old }
    requires small { v < 2 ^ 31 }
    ensures { b.new ≡ put b.old at (range_long_bytes (pos v)) }
{
    put_range_long(b, at, v as i32);
}

/// Writes a long at byte `at`, and leaves every other byte.
pub fn put_coordinate(b: &mut [u8], at: usize, v: u32)
    requires within { at + 4 ≤ length b.old }
    requires small { v < 2 ^ 31 }
    ensures { b.new ≡ put b.old at (long_bytes (pos v)) }
{
    put_long(b, at, v as i32);
}
