//! A drawing: a design with its nesting. And what a display shows of it: the items of its trees under a mask of levels.
#![tactic(auto)]

mod alone;
mod back;
mod counting;
mod drawing;
pub mod laws;
mod lone;
mod nesting;
mod numbering;
mod place;
mod view;

pub use counting::count_shown;
pub use drawing::Drawing;
pub use lone::lone_element;
pub use nesting::nest_design;
pub use view::{show, tree_items, tree_items_into};
