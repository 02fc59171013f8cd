ghost use Rattle.std.specs.Prelude.{◌≡◌, ◌+◌, ◌<◌, ◌≤◌, slice_set};
ghost use Rattle.sample_elements.specs.Samples.{put_word};

use crate::headers::SPLINE;

/// The bytes with another one at `at`.
pub fn with_byte<const N: usize>(bytes: [u8; N], at: usize, byte: u8) -> [u8; N]
    requires { at < N }
    ensures { result ≡ slice_set bytes.entry at byte }
{
    let mut bytes = bytes;
    bytes[at] = byte;
    bytes
}

/// The bytes with a word of two bytes at `at`, its low byte first.
pub fn with_word<const N: usize>(bytes: [u8; N], at: usize, word: u16) -> [u8; N]
    requires { at + 2 ≤ N }
    ensures { result ≡ put_word at word bytes.entry }
{
    with_byte(
        with_byte(bytes, at, (word % 256) as u8),
        at + 1,
        (word / 256) as u8,
    )
}

/// An element of 36 bytes with another first and second byte than the B-spline's header, and its range 0,0 to 9,9.
pub fn blank(first: u8, second: u8) -> [u8; 36]
    ensures { result ≡ slice_set (slice_set SPLINE 0 first) 1 second }
{
    with_byte(with_byte(SPLINE, 0, first), 1, second)
}
