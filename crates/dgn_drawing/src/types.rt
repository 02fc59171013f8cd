//! What is shown of an element.

mod item;
mod item_body;

pub use item::Item;
pub use item_body::ItemBody;
