/// What the nesting of elements looks at in one of them.
#[derive(Clone, Copy, Debug, PartialEq, Eq)]
pub struct Row {
    /// The size in bytes.
    pub size: u32,
    /// The type, 0 to 127.
    pub kind: u8,
    /// Whether the element belongs to a header before it.
    pub cbit: bool,
    /// How many words follow the total up to the end of the last member; 0 where the class isn't
    /// counted.
    pub total: u16,
}
