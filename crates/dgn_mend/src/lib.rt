//! Headers put right: totals that leave out their own attribute data, and complex elements that stand by themselves with bit C.
#![tactic(auto)]

mod change;
pub mod laws;

pub use change::Change;
