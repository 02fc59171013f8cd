//! What an edit of a drawing comes to: the first cause of its refusal, or the fields that it writes and the bytes that it
//! appends; the same of one edit of several roots; and the copy of a part, also for another drawing.
//!
//! An edit changes or copies the part of one element, which is the element and all below it, or appends an
//! element. Of a part it changes the live elements: those that neither are marked deleted nor stand below one that
//! is. A move also widens the ranges of the headers above the part.
#![tactic(auto)]

mod causes;
mod changes;
mod copies;
mod elements;
pub mod laws;
mod parts;
mod plans;
pub mod types;
mod values;

pub use causes::cause::Cause;
pub use causes::edit_fault::EditFault;
pub(crate) use causes::first::first_cause;
pub(crate) use causes::part::{other_axes, part_cause, silent, too_long, unknown};
pub use causes::revise_cause::ReviseCause;
pub use causes::revise_fault::ReviseFault;
pub(crate) use causes::test::Test;
pub(crate) use changes::live::{number_patch, push_live};
pub(crate) use copies::cause::move_cause;
pub use copies::copy::copy_tree;
pub use copies::tree::part_bytes;
pub(crate) use copies::tree::part_len;
pub use dgn_revision::Revision;
pub use elements::element_view::ElementView;
pub use elements::finding::find;
pub use parts::live::part_end;
pub(crate) use parts::live::put_live_numbers;
pub(crate) use parts::lone::is_lone_root;
pub use plans::edit::plan;
pub use plans::fenced::plan_all;
