//! The wire layout of Cap'n Proto: the crates below under one name, and the engine of the program
//! `layout_tool`.
#![tactic(auto)]

pub mod framing;
pub mod laws;
pub mod tool;

pub use capnp_arena::arena;
pub use capnp_builders::{builders, fields};
pub use capnp_edits::edit;
pub use capnp_framing::devices;
pub use capnp_readers::{object, readers, source};
pub use capnp_words::error::Result;
pub use capnp_words::{
    error, lanes, mask, primitive, read_limiter, units, wire_pointer, words, zero,
};
