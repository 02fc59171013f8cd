//! Whether the stored ranges of a drawing's elements are the hulls of their parts, and what makes them so.
//!
//! The hull of a tree is the least box that holds its parts. `audit` lists the elements whose stored range differs from
//! the hull of their tree, and `plan_fit` says what a fit of one tree writes.
#![tactic(auto)]

mod auditing;
mod finding;
mod fit_cause;
mod fit_fault;
mod fitting;
mod hulls;
pub mod laws;
mod nested_element;
mod open_box;
mod reading;
mod reported;
mod stored;

pub use auditing::audit;
pub use finding::Finding;
pub use fit_cause::FitCause;
pub use fit_fault::FitFault;
pub use fitting::plan_fit;
