use patch_bytes::ByteList;

/// The trees that an import takes.
#[derive(Debug, Drop)]
pub struct Gathered {
    /// The bytes of all their elements, one behind the other.
    pub bytes: ByteList,
    /// How many trees they are.
    pub trees: u32,
}
