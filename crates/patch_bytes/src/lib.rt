//! The bytes that an edit writes, kept as small lists.
//!
//! `ByteList` holds bytes in order, as the characters of a text or the elements that a copy adds
//! to the end of a drawing. A `Patch` is one to four bytes at a place, as large as the fields that
//! an edit changes, and `PatchList` holds such patches in order. `swap_in` writes a patch and gives
//! the one that restores what stood there, and `write_back` writes a list of those back.
#![tactic(auto)]

mod byte_list;
pub mod laws;
mod patch;
mod patch_list;
mod writes;

pub use byte_list::ByteList;
pub use patch::Patch;
pub use patch_list::PatchList;
pub use writes::{swap_in, write_back};
