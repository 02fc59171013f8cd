//! What one revision makes of one element: another level, a lock, a name, a text, a vertex, a deletion taken back; and what is
//! asked of an element before that.
#![tactic(auto)]

pub mod laws;
mod revision;

pub use revision::Revision;
