//! The fence.

mod fence;

pub use fence::Fence;
