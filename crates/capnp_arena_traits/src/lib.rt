//! The traits of arenas, through which other crates read and build messages.
#![tactic(auto)]

pub mod arena;
