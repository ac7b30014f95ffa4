//! Tests each message of a stream against the table of a schema.
#![tactic(auto)]

pub mod conforming;
