//! Tests of whole runs and of generated drawings, by the public calls of the program.
#![tactic(auto)]

#[cfg(test)]
mod generated;
#[cfg(test)]
mod runs;
