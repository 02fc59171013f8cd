//! The numbers of a design file: words of 16 bits, longs and range numbers of 32 bits.
//!
//! Each call reads or writes one number at a byte place in a slice. A word has its low byte first.
//! A long and a range number have their high word first, and in each word the low byte first.
#![tactic(auto)]

ghost use Rattle.std.specs.Prelude.{◌≡◌, ◌+◌, ◌*◌, ◌≤◌, length};
ghost use Rattle.dgn_words.specs.Numbers.{word_at, long_at, long_word_at, longs_at, range_long_at, word_bytes, long_bytes, range_long_bytes};
ghost use Rattle.dgn_words.specs.Numbers.{long_word_bytes, put};

use byteorder::{ByteOrder, LittleEndian};
use std::array;

pub mod laws;

/// The word at byte `at`: two bytes, the low byte first, without sign.
pub fn word(b: &[u8], at: usize) -> u16
    requires { at + 2 ≤ length b.now }
    ensures { result ≡ word_at b.now at }
{
    LittleEndian::read_u16(&b[at..])
}

/// Writes the word `v` at byte `at` and leaves every other byte.
pub fn put_word(b: &mut [u8], at: usize, v: u16)
    requires { at + 2 ≤ length b.old }
    ensures { b.new ≡ put b.old at (word_bytes v) }
{
    LittleEndian::write_u16(&mut b[at..], v);
}

/// The long at byte `at`: four bytes, the high word first, as two's complement.
pub fn long(b: &[u8], at: usize) -> i32
    requires { at + 4 ≤ length b.now }
    ensures { result ≡ long_at b.now at }
{
    long_word(b, at).cast_signed()
}

/// The `N` longs that stand side by side from byte `at` on, as the numbers of a point do.
pub fn longs<const N: usize>(b: &[u8], at: usize) -> [i32; N]
    requires { at + 4 * N ≤ length b.now }
    ensures { result ≡ longs_at N b.now at }
{
    array::from_fn(|k| long(b, at + 4 * k))
}

/// Writes the long `v` at byte `at` and leaves every other byte.
pub fn put_long(b: &mut [u8], at: usize, v: i32)
    requires { at + 4 ≤ length b.old }
    ensures { b.new ≡ put b.old at (long_bytes v) }
{
    put_words(b, at, v.cast_unsigned());
}

/// The range number at byte `at`: four bytes, the high word first, read without sign, less
/// 2147483648.
pub fn range_long(b: &[u8], at: usize) -> i32
    requires { at + 4 ≤ length b.now }
    ensures { result ≡ range_long_at b.now at }
{
    (i64::from(long_word(b, at)) - 2147483648) as i32
}

// The two words at byte `at`, the high one first, as one number without sign. They are read at once, with their words
// the wrong way round, and turned.
fn long_word(b: &[u8], at: usize) -> u32
    requires { at + 4 ≤ length b.now }
    ensures { result ≡ long_word_at b.now at }
{
    let turned = LittleEndian::read_u32(&b[at..]);
    turned % 65536 * 65536 + turned / 65536
}

/// Writes the range number `v` at byte `at` and leaves every other byte.
pub fn put_range_long(b: &mut [u8], at: usize, v: i32)
    requires { at + 4 ≤ length b.old }
    ensures { b.new ≡ put b.old at (range_long_bytes v) }
{
    put_words(b, at, (i64::from(v) + 2147483648) as u32);
}

// Writes the two words of `u`, the high one first.
fn put_words(b: &mut [u8], at: usize, u: u32)
    requires { at + 4 ≤ length b.old }
    ensures { b.new ≡ put b.old at (long_word_bytes u) }
{
    LittleEndian::write_u32(&mut b[at..], u % 65536 * 65536 + u / 65536);
}
