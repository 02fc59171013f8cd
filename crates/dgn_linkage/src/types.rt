//! A linkage, its form, and the iterator that gives the linkages of some data.

mod form;
mod link;
mod links;

pub use form::Form;
pub use link::Link;
pub use links::Links;
