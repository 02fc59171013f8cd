//! The import of a second drawing: which of its trees are taken, as bytes that can stand behind another drawing.
//!
//! `read_second` opens the second file, and `gather` copies its trees together, as they are or displaced. Nothing is
//! written here.
#![tactic(auto)]

mod gathered;
mod gathering;
mod import_fault;
pub mod laws;
mod second;
mod second_fault;
mod taking;

pub use gathered::Gathered;
pub use gathering::gather;
pub use import_fault::ImportFault;
pub use second::{Second, read_second};
pub use second_fault::SecondFault;
