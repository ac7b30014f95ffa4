//! Builders: pointers, structs and lists of a message being built; and calls at their places.
#![tactic(auto)]

pub mod builders;
pub mod copy;
pub mod fields;
pub mod laws;
pub(crate) mod section;
