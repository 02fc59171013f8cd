/// Why a patch file wasn't read.
#[derive(Debug, PartialEq, Eq, Drop)]
pub enum PatchFault {
    /// A piece is cut off or breaks its rule, or bytes stand behind the last entry.
    At {
        /// Where in the file that piece begins, counted from its first byte.
        offset: u32,
    },
    /// There was no memory for the entries.
    Memory,
}
