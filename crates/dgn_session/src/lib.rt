//! The session of an editor: one drawing that edits change in place, and undos change back.
//!
//! A `Session` holds a design, its nesting, the log of its edits, the levels that are shown and a fence. An edit writes its
//! fields, puts what it appends behind the body, and adds one entry to the log; an undo writes the last entry back. No
//! earlier drawing is kept. `carry_out` and `take_back` change design, nesting and log together, and `select` finds the
//! roots that a fence chooses.
#![tactic(auto)]

mod appended;
mod carrying;
mod commits;
mod fence_edit_fault;
mod importing;
pub mod laws;
mod nothing;
mod ranges;
mod select_fault;
mod selecting;
mod session;
mod taking;

pub(crate) use commits::carry_out;
pub use fence_edit_fault::FenceEditFault;
pub use nothing::Nothing;
pub use select_fault::SelectFault;
pub(crate) use selecting::select;
pub use session::Session;
pub(crate) use taking::{last_len, take_back};

#[cfg(test)]
mod tests;
