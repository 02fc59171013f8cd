ghost use Rattle.std.specs.Prelude.{◌≡◌, ◌-◌, ◌≤◌, drop, replicate};

/// One to four bytes that stand, or are to be written, at a place. Fields of a design file that an
/// edit changes are two or four bytes long, so a patch holds any of them and needs no memory of its
/// own.
#[derive(Clone, Copy, Debug, PartialEq, Eq)]
pub struct Patch {
    /// The place of the first byte, counted from the start of the file.
    pub at: u32,
    /// How many bytes there are, 1 to 4.
    pub len: u8,
    /// The bytes, in the order of the file; those past `len` are 0.
    pub bytes: [u8; 4],
    ghost least: { 1 ≤ len },
    ghost most: { len ≤ 4 },
    ghost rest: { drop len bytes ≡ replicate (4 - len) 0 },
}
