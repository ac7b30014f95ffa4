//! An arena of one segment, in memory that the caller lends.
#![tactic(auto)]

pub mod lent_arena;
