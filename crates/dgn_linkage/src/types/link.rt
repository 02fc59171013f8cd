// One linkage.

use crate::types::form::Form;

/// One linkage of some attribute data: which of its bytes, and what it is.
#[derive(Clone, Copy, Debug, PartialEq, Eq)]
pub struct Link {
    /// Where its first byte stands, counted from the start of the data.
    pub at: usize,
    /// How many bytes it has, at least 1.
    pub len: usize,
    /// What it is.
    pub form: Form,
}
