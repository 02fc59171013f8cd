// The limits of a script.

/// The most bytes that a script has: 1 MB.
pub const MOST_SCRIPT: usize = 1048576;
