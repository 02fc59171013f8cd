// The limits of a design file.

/// The most bytes that a design file has: body, tail and what stands behind it, 64 MB together.
pub const MOST_DESIGN: usize = 67108864;
