// The forms of linkages.

/// What a linkage is, as far as its first two bytes say.
#[derive(Clone, Copy, Debug, PartialEq, Eq)]
pub enum Form {
    /// A linkage of the system's own database, always of 8 bytes.
    Dmrs,
    /// A linkage of a user's program, which says its length itself.
    User,
    /// All bytes up to the end of the data, of which nothing is known.
    Rest,
}
