/// A header that mending changes.
#[derive(Clone, Copy, Debug, PartialEq, Eq)]
pub struct Change {
    /// The number of the header.
    pub number: u32,
    /// Its total before.
    pub old: u16,
    /// Its total after.
    pub new: u16,
    /// Whether it loses bit C.
    pub freed: bool,
}
