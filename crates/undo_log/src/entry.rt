use patch_bytes::PatchList;

/// What one edit needs to be undone.
#[derive(Debug, Drop)]
pub struct Entry {
    /// The bytes that stood where the edit wrote, in the order in which it wrote them.
    pub patches: PatchList,
    /// The length of the body before the edit, in bytes.
    pub len: u32,
}
