//! Tests of the crates that open, nest and show a drawing, choose by a fence, and read a script, by their public calls.
#![tactic(auto)]

#[cfg(test)]
mod display;
#[cfg(test)]
mod elements;
#[cfg(test)]
mod fences;
#[cfg(test)]
mod nesting;
#[cfg(test)]
mod opening;
#[cfg(test)]
mod scripts;
#[cfg(test)]
mod told;
