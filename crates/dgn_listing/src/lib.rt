//! Prints what a drawing holds, the lines of its listings, the findings of an audit, and why an edit is refused.
//!
//! Each call appends its lines to the bytes that it is given. A line's words stand one blank apart, and
//! a line ends with a line feed.
#![tactic(auto)]

mod causes;
mod counts;
mod elements;
mod findings;
mod items;
pub mod laws;
mod links;
mod listed;
mod numbered;
pub mod pieces;
mod refs;
mod selected;
mod tree;
mod tree_line;

pub use causes::write_cause;
pub use elements::write_elements;
pub use findings::write_findings;
pub use items::write_items;
pub use links::write_links;
pub use numbered::{numbered_line, push_numbered};
pub use refs::write_refs;
pub use selected::write_selected;
pub use tree::write_tree;
