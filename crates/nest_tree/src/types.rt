//! The nesting of a drawing.

pub use crate::nested::Nest;
