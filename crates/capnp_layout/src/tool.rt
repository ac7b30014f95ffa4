//! The engine of the program `layout_tool`.

mod args;
mod canon;
mod check;
mod engine;
mod framed;
mod frames;
mod limits;
mod lines;
mod reading;
mod refusal;
mod size;
mod writing;

pub use args::{Args, parse_args};
pub use capnp_messages::text::{
    parse_nesting_limit, parse_traversal_limit, write_number, write_size,
};
pub use engine::{Outcome, run, run_with};
pub use refusal::Refusal;
