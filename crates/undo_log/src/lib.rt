//! The log of a design that is edited in place: what each edit wrote over, so that the edits can be
//! undone one by one, the last first.
//!
//! An `Entry` holds the bytes that stood where one edit wrote, and the length that the body had.
//! `Log::reserve` takes all memory that an edit needs; `Log::commit` and `Log::undo` take none, so
//! once an edit begins to write it can't be stopped halfway.
#![tactic(auto)]

mod entry;
pub mod laws;
mod log;
mod swaps;

pub use entry::Entry;
pub use log::Log;
