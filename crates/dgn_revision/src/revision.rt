use patch_bytes::ByteList;

/// A further change of one element, beside those of an `Edit`.
///
/// The level is at most 63; a name is any two words; a text has 1 to 255 characters; a vertex is counted from 1, its
/// axes are 2 or 3, and where they are 2 the z of its point is 0.
#[derive(Debug, PartialEq, Eq, Drop)]
pub enum Revision {
    /// Puts the element and what is below it on this level.
    Relevel {
        /// The level.
        level: u8,
    },
    /// Locks the element and what is below it.
    Lock,
    /// Unlocks them.
    Unlock,
    /// Clears the deleted marks of the element, of what is below it and of the headers above it.
    Undelete,
    /// Gives a cell this name, in two words of radix-50.
    Rename {
        /// The words of the name.
        name: [u16; 2],
    },
    /// Gives a text these characters, in its place where it has room for them, and else in a new element.
    Retext {
        /// The characters.
        characters: ByteList,
    },
    /// Puts a point for a vertex of a line, a line string, a shape or a curve.
    Vertex {
        /// The number of the vertex, from 1.
        index: u32,
        /// The point.
        point: [i32; 3],
        /// For how many axes it is given.
        axes: u8,
    },
}
