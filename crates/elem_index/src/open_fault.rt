use thiserror::Error;

/// Why bytes can't be opened as a design file.
///
/// A faulty element is the first one in file order, and `at` is the byte of the file that it begins
/// at.
#[derive(Clone, Copy, Debug, PartialEq, Eq, Error)]
pub enum OpenFault {
    /// The file doesn't begin with one of the two beginnings of a TCB.
    #[error("not-design at 0")]
    NotDesign,
    /// An element reaches past the file's end, or fewer than four bytes are left that don't begin
    /// with FF FF.
    #[error("cut at {at}")]
    Cut { at: u32 },
    /// An element ends before its body does.
    #[error("short at {at}")]
    Short { at: u32 },
    /// An element's attribute data begin before its body's end or behind its own end.
    #[error("attributes at {at}")]
    Attr { at: u32 },
    /// There was no memory left. It says nothing of the file.
    #[error("no memory")]
    Memory,
}
