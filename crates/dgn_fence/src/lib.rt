//! Fences: polygons of the design plane that take the trees of a drawing by what of them lies inside.
//!
//! All coordinates are whole units of resolution from -2147483648 to 2147483647, and only x and y count.
#![tactic(auto)]

mod bounds;
mod edges;
mod end;
mod extent;
mod fence_fault;
mod making;
mod outline;
pub mod types;
mod upright;

pub use fence_fault::FenceFault;
pub use making::fence;
