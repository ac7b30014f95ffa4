//! Functions that call the other crates, and are proved only from the contracts of the functions
//! that they call.
#![tactic(auto)]

pub mod agreed;
pub mod arena;
pub mod builders;
pub mod copies;
pub mod edits;
pub mod frames;
pub mod places;
pub mod theorem;
