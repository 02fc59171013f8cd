//! Patch files: what edits did to a drawing, as a file that puts the same on another drawing, or on
//! none where the drawing differs at a place that an edit changed.
//!
//! A `PatchEntry` holds what one edit did: the length of the body before it, the bytes that it
//! exchanged at each place, old and new, and the bytes that it appended. `take_entry` takes one off
//! a body that the log's entry leads back from; `write_patch` and `read_patch` are the file, both
//! ways; `stands` says whether an entry finds its old bytes, and `apply_entry` then puts the new.
#![tactic(auto)]

mod applying;
mod field;
mod field_list;
pub mod laws;
mod limits;
mod patch_entry;
mod patch_fault;
mod pieces;
mod reading;
mod sizes;
mod stop;
mod taking;
mod writing;

pub use applying::{apply_entry, stands};
pub use field::Field;
pub use field_list::FieldList;
pub use limits::MOST_PATCH;
pub use patch_entry::PatchEntry;
pub use patch_fault::PatchFault;
pub use reading::read_patch;
pub use sizes::patch_len;
pub use taking::take_entry;
pub use writing::write_patch;
