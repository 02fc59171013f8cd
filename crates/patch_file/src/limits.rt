// The limits of a patch file.

/// The most bytes that a patch file has: 128 MB.
pub const MOST_PATCH: usize = 134217728;
