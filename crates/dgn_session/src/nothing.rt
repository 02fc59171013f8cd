/// Nothing is left to undo: the log has no entry.
#[derive(Clone, Copy, Debug, PartialEq, Eq)]
pub struct Nothing;
