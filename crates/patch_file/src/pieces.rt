// The pieces of a patch file that need no memory, each read from the front of bytes. The parts of a piece are given
// `left`, how many bytes there are from where the piece begins.

ghost use Rattle.std.specs.Prelude.{◌≡◌, ◌-◌, ◌≤◌, ◌++◌, length, replicate};
ghost use Rattle.patch_file.specs.FieldView.{exchange_of};
ghost use Rattle.patch_file.specs.Answers.{Gives};
ghost use Rattle.patch_file.specs.Reading.{bytes_at, number_at, byte_at, mark_at, head_at, keeps_rules, exchange_at, field_at};

use crate::Field;
use crate::stop::Stop;

// The first eight bytes of a patch file.
pub const MARK: [u8; 8] = *b"DGNPAT01";

// The next `n` bytes, and those behind them.
pub fn bytes_at(left: usize, n: usize, bytes: &[u8]) -> Result<(&[u8], &[u8]), Stop>
    ensures { Gives (λ x. (x.0.now, x.1.now)) result (bytes_at left n bytes.now) }
{
    if bytes.len() < n {
        return Err(Stop::Bad(left));
    }
    Ok(bytes.split_at(n))
}

// The number that begins here, and the bytes behind it.
pub fn number_at(left: usize, bytes: &[u8]) -> Result<(u32, &[u8]), Stop>
    ensures { Gives (λ x. (x.0, x.1.now)) result (number_at left bytes.now) }
{
    let (front, rest) = bytes_at(left, 4, bytes)?;
    let number = u32::from_le_bytes([front[0], front[1], front[2], front[3]]);
    Ok((number, rest))
}

// The next byte, and those behind it.
fn byte_at(left: usize, bytes: &[u8]) -> Result<(u8, &[u8]), Stop>
    ensures { Gives (λ x. (x.0, x.1.now)) result (byte_at left bytes.now) }
{
    match bytes {
        [] => Err(Stop::Bad(left)),
        [byte, rest @ ..] => Ok((*byte, rest)),
    }
}

// What stands behind the mark.
pub fn mark_at(bytes: &[u8]) -> Result<&[u8], Stop>
    ensures { Gives (λ x. x.now) result (mark_at bytes.now) }
{
    if !bytes.starts_with(&MARK) {
        return Err(Stop::Bad(bytes.len()));
    }
    let (_, rest) = bytes.split_at(MARK.len());
    Ok(rest)
}

// The old length of an entry, its number of fields and that of its appended bytes, and what stands behind its head.
#[tactic(auto, unfolding(crate::specs::Reading::head_at))]
pub fn head_at(bytes: &[u8]) -> Result<((u32, u32, u32), &[u8]), Stop>
    ensures { Gives (λ x. (x.0, x.1.now)) result (head_at bytes.now) }
{
    let left = bytes.len();
    let (len, rest) = number_at(left, bytes)?;
    let (fields, rest) = number_at(left, rest)?;
    let (append, rest) = number_at(left, rest)?;
    Ok(((len, fields, append), rest))
}

// Whether `count` bytes at a place are one to four, behind a field that ends at `from`, and within the old length.
fn keeps_rules(from: u32, len: u32, at: u32, count: u8) -> bool
    ensures { result ≡ keeps_rules from len at count }
{
    1 <= count && count <= 4 && from <= at && u64::from(at) + u64::from(count) <= u64::from(len)
}

// `bytes`, at most four, with zeros behind them.
pub fn padded(bytes: &[u8]) -> [u8; 4]
    requires { length bytes.now ≤ 4 }
    ensures { result ≡ bytes.now ++ replicate (4 - length bytes.now) 0 }
{
    let mut four = [0; 4];
    four[..bytes.len()].copy_from_slice(bytes);
    four
}

// A field at a place that keeps the rules, from its old bytes on.
#[tactic(auto, unfolding(crate::specs::Reading::exchange_at))]
fn exchange_at(left: usize, at: u32, count: u8, bytes: &[u8]) -> Result<(Field, &[u8]), Stop>
    requires least { 1 ≤ count }
    requires most { count ≤ 4 }
    ensures { Gives (λ x. (exchange_of x.0, x.1.now)) result (exchange_at left at count bytes.now) }
{
    let (was, rest) = bytes_at(left, usize::from(count), bytes)?;
    let (put, rest) = bytes_at(left, usize::from(count), rest)?;
    let field = Field {
        at,
        len: count,
        was: padded(was),
        put: padded(put),
    };
    Ok((field, rest))
}

// The field that begins here, in an entry of the old length `len`, behind a field that ends at `from`.
#[tactic(auto, unfolding(crate::specs::Reading::field_at))]
pub fn field_at(from: u32, len: u32, bytes: &[u8]) -> Result<(Field, &[u8]), Stop>
    ensures { Gives (λ x. (exchange_of x.0, x.1.now)) result (field_at from len bytes.now) }
{
    let left = bytes.len();
    let (at, rest) = number_at(left, bytes)?;
    let (count, rest) = byte_at(left, rest)?;
    if !keeps_rules(from, len, at, count) {
        return Err(Stop::Bad(left));
    }
    exchange_at(left, at, count, rest)
}
