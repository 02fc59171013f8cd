//! Opens design files: which bytes are one, where its elements stand, and what is wrong with one that
//! isn't.
#![tactic(auto)]

mod beginning;
mod design;
mod kind_byte;
mod kind_list;
pub mod laws;
mod open_fault;
mod walk;

pub use design::{Design, count_elements, read_design};
pub use open_fault::OpenFault;
