use thiserror::Error;

/// Why a script isn't read. Lines are numbered from 1, and every line counts.
#[derive(Clone, Copy, Debug, PartialEq, Eq, Error)]
pub enum ScriptFault {
    /// The line with this number is the first that is bad: it is no command of the language, or the fifth that asks for
    /// an import.
    #[error("line {number}")]
    Line { number: u32 },
    /// Want of memory for the list of commands, or for the points or the characters of one of them.
    #[error("no memory")]
    Memory,
}
