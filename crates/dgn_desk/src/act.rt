/// Which of the five functions of a desk was called.
#[derive(Clone, Copy, Debug, PartialEq, Eq, Drop)]
pub enum Act {
    /// `begin_read`.
    BeginRead,
    /// `read`.
    Read,
    /// `begin_write`.
    BeginWrite,
    /// `write`.
    Write,
    /// `say`.
    Say,
}
