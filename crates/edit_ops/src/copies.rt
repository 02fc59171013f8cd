// The copy of a part: of a whole tree and of an element alone, and what stands against it.

pub mod cause;
pub mod copy;
pub mod lone;
pub mod tree;
