//! Readers: pointers, structs and lists of a message, read in place.
#![tactic(auto)]

pub mod laws;
pub mod readers;

pub use capnp_pointers::{object, source};
