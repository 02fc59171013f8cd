//! Tests of the crates that edit a drawing and list it, by their public calls.
#![tactic(auto)]

#[cfg(test)]
mod audits;
#[cfg(test)]
mod edits;
#[cfg(test)]
mod fenced;
#[cfg(test)]
mod imports;
#[cfg(test)]
mod joined;
#[cfg(test)]
mod listings;
#[cfg(test)]
mod sessions;
#[cfg(test)]
mod shifts;
