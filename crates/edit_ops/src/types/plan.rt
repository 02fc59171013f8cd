use patch_bytes::{ByteList, PatchList};

/// What an accepted edit writes.
#[derive(Debug, Drop)]
pub struct Plan {
    /// The edited fields with their new bytes, in rising order of place. Places are counted from the first
    /// byte of the body.
    pub patches: PatchList,
    /// The bytes that stand behind the body.
    pub append: ByteList,
}
