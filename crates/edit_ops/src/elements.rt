// One element of a drawing: how it is found, and what is read of it.

pub mod element_view;
pub mod finding;
