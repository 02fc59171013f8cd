ghost use Rattle.std.specs.Prelude.{◌≡◌, ◌++◌, IfOk, OnOk};
ghost use Rattle.dgn_listing.specs.NumberedLines.{numbered};

use std::alloc::{AllocError, Global};

/// Appends these words, the number and the end of the line.
pub fn push_numbered(
    alloc: Global,
    out: &mut Vec<u8>,
    words: &[u8],
    number: u64,
) -> Result<(), AllocError>
    ensures { OnOk result (out.new.items ≡ out.old.items ++ numbered words.now number) }
{
    let line_end = format!(in alloc; "{number}\n")?;
    out.extend_from_slice(words)?;
    out.extend_from_slice(line_end.as_bytes())
}

/// The line of these words and the number.
pub fn numbered_line(alloc: Global, words: &[u8], number: u64) -> Result<Vec<u8>, AllocError>
    ensures { IfOk result (λ line. line.items ≡ numbered words.now number) }
{
    let mut line = Vec::new(alloc);
    push_numbered(alloc, &mut line, words, number)?;
    Ok(line)
}
