//! The editor's top calls: `run` does what the words of the command line ask for, with `edit`, `pack`, `apply`, `check` and
//! `gen`, and `run_flushed` takes the words as the runtime gives them. And the parts of a run: the words, reading and opening
//! files, writing them, and how a run ends.
#![tactic(auto)]

mod apply;
mod check;
mod commands;
mod edit;
mod end;
mod ending;
mod entries;
mod files;
mod generation;
mod inputs;
pub mod laws;
mod output;
mod pack;
mod put_end;
mod request;
mod runs;
mod seconds;
mod status;
mod texts;
mod words;

pub use dgn_answers::{answer, answer_import};
pub use dgn_generator::generate;
pub use request::Request;
pub use runs::run;
pub use seconds::second_name;
pub use status::Status;
pub use words::run_flushed;
