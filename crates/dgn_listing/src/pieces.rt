//! The pieces of a line: numbers in plain decimals, with and without a blank behind them, and the last line of a listing.
//! Where there is no memory for a piece, `out` has grown by a front of it.

ghost use Rattle.std.specs.Prelude.{decimal};
ghost use Rattle.dgn_listing.specs.Lines.{field_text, fields_text, ending_text, Appends};

use itoa::Buffer;
use std::alloc::AllocError;

/// Appends a number in plain decimals.
pub fn put_number(out: &mut Vec<u8>, n: u64) -> Result<(), AllocError>
    ensures { Appends result (decimal n) out.old.items out.new.items }
{
    let mut buffer = Buffer::new();
    out.extend_from_slice(buffer.format(n).as_bytes())
}

/// Appends a piece as it stands.
pub fn put(out: &mut Vec<u8>, piece: &[u8]) -> Result<(), AllocError>
    ensures { Appends result piece.now out.old.items out.new.items }
{
    out.extend_from_slice(piece)
}

/// Appends a number and a blank.
pub fn put_field(out: &mut Vec<u8>, n: u64) -> Result<(), AllocError>
    ensures { Appends result (field_text n) out.old.items out.new.items }
{
    put_number(out, n)?;
    put(out, b" ")
}

// Appends numbers, each with a blank behind it.
pub(crate) fn put_fields(out: &mut Vec<u8>, numbers: &[u64]) -> Result<(), AllocError>
    ensures { Appends result (fields_text numbers.now) out.old.items out.new.items }
{
    for n in numbers {
        put_field(out, *n)?;
    }
    Ok(())
}

/// Appends the last line of a listing: a word, and the number of lines before it.
pub fn put_ending(out: &mut Vec<u8>, word: &[u8], count: usize) -> Result<(), AllocError>
    ensures { Appends result (ending_text word.now count) out.old.items out.new.items }
{
    put(out, word)?;
    put(out, b" ")?;
    put_number(out, count as u64)?;
    put(out, b"\n")
}
