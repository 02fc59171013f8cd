//! What a session answers to each command: its text, and whether it is refused. `answer` runs one command, `answer_import`
//! one that is an import, and `take_step` either, an import with the next of the second files; `run_unsaid` runs all steps
//! of a run of which nothing is said.
#![tactic(auto)]

mod answered;
mod answers;
mod fences;
mod importing;
mod listings;
mod ranges;
mod steps;
mod tally;

pub use answered::Answered;
pub use answers::answer;
pub use importing::answer_import;
pub use steps::take_step;
pub use tally::{Tally, run_unsaid};
