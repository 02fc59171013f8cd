ghost use Rattle.std.specs.Prelude.{◌≡◌, ◌++◌, map, IfOk, OnOk};
ghost use Rattle.sample_elements.specs.Samples.{tcb, concatenated};

use std::alloc::{AllocError, Global};

// How many bytes a TCB has.
const TCB_SIZE: usize = 1536;

// Where the byte stands whose bit 0x40 says that a drawing has three axes.
const MARK: usize = 1214;

/// The bytes of a drawing: a TCB with this first byte, 0x08 or 0xC8, and this byte 1214, in which bit 0x40 is set for three
/// axes, and the pieces behind it. An error says that there was no memory.
pub fn drawing(alloc: Global, first: u8, mark: u8, pieces: &[&[u8]]) -> Result<Vec<u8>, AllocError>
    ensures { IfOk result (λ bytes. bytes.items ≡ tcb first mark ++ concatenated (map (λ piece. piece.now) pieces.now)) }
{
    let mut bytes = Vec::new(alloc);
    push_tcb(&mut bytes, first, mark)?;
    for piece in pieces {
        bytes.extend_from_slice(piece)?;
    }
    Ok(bytes)
}

// Appends a TCB.
fn push_tcb(bytes: &mut Vec<u8>, first: u8, mark: u8) -> Result<(), AllocError>
    ensures { OnOk result (bytes.new.items ≡ bytes.old.items ++ tcb first mark) }
{
    bytes.extend_from_slice(&[first, 0x09, 0xFE, 0x02])?;
    bytes.extend_from_slice(&[0; MARK - 4])?;
    bytes.push(mark)?;
    bytes.extend_from_slice(&[0; TCB_SIZE - MARK - 1])?;
    Ok(())
}
