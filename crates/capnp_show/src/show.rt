//! Shows what a message holds, without its schema.

mod compare;
mod json;
mod lines;
mod message;
mod objects;
mod path;
mod text;
mod values;

pub use compare::{CompareFault, compare_messages};
pub use message::{ShowFault, Showing, show_message};
pub use text::MOST_BYTES;
