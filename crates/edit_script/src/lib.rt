//! The script language of `dgnedit`, of which each line is one command.
//!
//! The bytes are cut at each LF, and one CR at the end of a line is dropped. The words of a line stand
//! between blanks. Empty lines, lines of blanks, and lines whose first byte that isn't a blank is `#`
//! are no commands.
#![tactic(auto)]

mod appends;
mod command_name;
mod edits;
mod fault;
mod fences;
mod grammar;
mod imports;
pub mod laws;
mod levels;
mod limits;
mod lines;
mod numbers;
mod points;
mod reading;
mod script;
mod words;

pub use dgn_drawing::Command;
pub use fault::ScriptFault;
pub use limits::MOST_SCRIPT;
pub use numbers::number;
pub use script::read_script;
