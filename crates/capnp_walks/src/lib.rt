//! Walks over a message, and lists its objects in the caller's array.
#![tactic(auto)]

pub mod laws;
pub mod walks;
