use crate::types::ItemBody;
use elem_head::types::Symb;
use range_code::Box3;

/// One thing that a display shows.
#[derive(Debug, PartialEq, Eq, Drop)]
pub struct Item {
    /// The element's number in the file, from 0.
    pub number: u32,
    /// How many headers the element stands below.
    pub depth: u32,
    /// The element's type, 0 to 127.
    pub kind: u8,
    /// The element's level, 0 to 63.
    pub level: u8,
    /// How the element is drawn.
    pub symb: Symb,
    /// The file's dimension, 2 or 3.
    pub axes: u8,
    /// The element's range.
    pub range: Box3,
    /// What the element is.
    pub body: ItemBody,
}
