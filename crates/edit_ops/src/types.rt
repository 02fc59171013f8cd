//! What an edit comes to where it is accepted.

mod plan;

pub use plan::Plan;
