ghost use Rattle.std.specs.Prelude.{◌≡◌, ◌-◌, ◌≤◌, drop, replicate};

/// One to four bytes of a body that an edit exchanged: those that stood at a place, and those that
/// it put there. It needs no memory of its own.
#[derive(Clone, Copy, Debug, PartialEq, Eq)]
pub struct Field {
    /// The place of the first byte, counted from the start of the body.
    pub at: u32,
    /// How many bytes are exchanged, 1 to 4.
    pub len: u8,
    /// The bytes before the edit, in the order of the body; those past `len` are 0.
    pub was: [u8; 4],
    /// The bytes after it, in the order of the body; those past `len` are 0.
    pub put: [u8; 4],
    ghost least: { 1 ≤ len },
    ghost most: { len ≤ 4 },
    ghost rest_was: { drop len was ≡ replicate (4 - len) 0 },
    ghost rest_put: { drop len put ≡ replicate (4 - len) 0 },
}
