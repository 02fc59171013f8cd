//! Elements of a design file as records, what opens as a design file, and the words that the crates above share. The check
//! of one element, its row and what is shown of it; the numbers at its coordinate fields; and the bytes of an element that is
//! appended.
#![tactic(auto)]

mod body_fault;
mod check;
mod command;
mod edit;
mod fence_edit;
mod form;
mod items;
pub mod laws;
mod limits;
mod making;
mod mask;
mod mode;
mod new_element;
mod new_shape;
mod row;
mod shift;
mod sums;
mod symb_change;
pub mod types;
mod widening;

pub use body_fault::BodyFault;
pub use check::{check_elem, is_counted, is_header, row_of};
pub use command::Command;
pub use edit::Edit;
pub use fence_edit::FenceEdit;
pub use items::item;
pub use limits::MOST_DESIGN;
pub use making::{size_made, spelled};
pub use mask::Mask;
pub use mode::Mode;
pub use new_element::New;
pub use new_shape::NewShape;
pub use row::Row;
pub use shift::Shift;
pub use sums::{bytes_at, moved_number, put_number, spots_in, stays_on_plane, sum, value};
pub use symb_change::SymbChange;
pub use types::ItemBody;
pub use widening::wider;
