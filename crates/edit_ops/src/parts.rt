// The part of an element: its live elements, the headers above it, and whether it is one element by itself.

pub mod above;
pub mod live;
pub mod lone;
