//! Nests the elements of a drawing as trees, by their rows alone.
#![tactic(auto)]

mod broken;
mod entry_list;
mod knot;
pub mod laws;
mod leaves;
mod members;
mod nest_entry;
mod nested;
mod nesting;
mod open_list;
mod pass;
mod placed;
mod reading;
mod scan;
mod seen;
mod shape;
mod source;
mod sums;
pub mod types;

pub use knot::Knot;
pub use nesting::{nest, nest_kept};
