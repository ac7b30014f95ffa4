//! Finds the pointer at which a message is broken: the one at which a command stops reading.
#![tactic(auto)]

pub mod laws;
pub mod refusals;
