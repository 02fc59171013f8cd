// Rows of patch files that are applied.

use super::*;

// The patch file of one edit, of the colour of a line behind the TCB: of a body of 1588 bytes, the two bytes 0, 0 at 1570
// become 0, 7, and nothing is appended.
pub(super) const PATCH: [u8; 33] = [
    0x44, 0x47, 0x4E, 0x50, 0x41, 0x54, 0x30, 0x31, 0x01, 0x00, 0x00, 0x00, 0x34, 0x06, 0x00, 0x00,
    0x01, 0x00, 0x00, 0x00, 0x00, 0x00, 0x00, 0x00, 0x22, 0x06, 0x00, 0x00, 0x02, 0x00, 0x00, 0x00,
    0x07,
];

// The same with a byte behind the entry.
fn longer(alloc: Global) -> Result<Vec<u8>, AllocError> {
    let mut bytes = Vec::from_slice(alloc, &PATCH)?;
    bytes.push(0)?;
    Ok(bytes)
}

// The same with the entry twice.
fn twice(alloc: Global) -> Result<Vec<u8>, AllocError> {
    let mut bytes = Vec::from_slice(alloc, &PATCH)?;
    bytes.extend_from_slice(&PATCH[12..])?;
    bytes[8] = 2;
    Ok(bytes)
}

// A design of a line of this colour.
fn line_of(alloc: Global, color: u8) -> Result<Vec<u8>, AllocError> {
    let line = design(alloc, 0, &[&LINE, &END])?;
    Ok(with_bytes(line, &[(1571, &[color])]))
}

#[test]
fn applied_patches(rt: HostRuntime) -> Result<(), Fail> {
    let alloc = rt.alloc();
    let out = line_of(alloc, 7)?;
    let files = (line_of(alloc, 0)?, PATCH.as_slice());
    let said = b"applied 1\n".as_slice();
    shows(
        &rt,
        &APPLY,
        files,
        (Status::Done, said, Some(out.as_slice())),
    )?;
    Ok(())
}

// Shows how it ends where this patch file is applied to a line of that colour, and what is said. No file is written.
fn isnt_applied<R: Abort + Alloc<A = Global>>(
    rt: &R,
    color: u8,
    patch: &[u8],
    status: Status,
    said: &[u8],
) -> Result<(), AllocError> {
    let files = (line_of(rt.alloc(), color)?, patch);
    shows(rt, &APPLY, files, (status, said, None))
}

#[test]
fn refused_patches(rt: HostRuntime) -> Result<(), Fail> {
    let refused = Status::PatchRefused;
    isnt_applied(&rt, 7, &PATCH, refused, b"refused entry 1\n")?;
    let twice = twice(rt.alloc())?;
    isnt_applied(&rt, 0, &twice, refused, b"refused entry 2\n")?;
    Ok(())
}

#[test]
fn bad_patches(rt: HostRuntime) -> Result<(), Fail> {
    let bad = Status::BadPatch;
    isnt_applied(&rt, 0, &PATCH[..32], bad, b"bad patch at 24\n")?;
    let longer = longer(rt.alloc())?;
    isnt_applied(&rt, 0, &longer, bad, b"bad patch at 33\n")?;
    isnt_applied(&rt, 0, &[], bad, b"bad patch at 0\n")?;
    Ok(())
}
