//! Tests of the crates of fields, bodies, geometry and bytes, and of the desks, by their public calls.
#![tactic(auto)]

#[cfg(test)]
mod buffering;
#[cfg(test)]
mod command_line;
#[cfg(test)]
mod desks;
#[cfg(test)]
mod headers;
#[cfg(test)]
mod heads;
#[cfg(test)]
mod layout;
#[cfg(test)]
mod linkages;
#[cfg(test)]
mod patch_files;
#[cfg(test)]
mod patches;
#[cfg(test)]
mod paths;
#[cfg(test)]
mod plane;
#[cfg(test)]
mod ranges;
#[cfg(test)]
mod signs;
#[cfg(test)]
mod texts;
#[cfg(test)]
mod undo;
#[cfg(test)]
mod words;
