//! What is read from the head of an element.

/// The first four bytes of an element.
#[derive(Clone, Copy, Debug, PartialEq, Eq)]
pub struct Head {
    /// 0 to 63.
    pub level: u8,
    /// Whether the element belongs to a header before it.
    pub cbit: bool,
    /// The type, 0 to 127.
    pub kind: u8,
    /// Whether the element is marked deleted.
    pub deleted: bool,
    /// How many words of two bytes follow these four bytes.
    pub words: u16,
}

/// How an element is drawn.
#[derive(Clone, Copy, Debug, PartialEq, Eq)]
pub struct Symb {
    /// An index into a table of 256 colours.
    pub color: u8,
    /// 0 to 31.
    pub weight: u8,
    /// 0 to 7.
    pub style: u8,
}
