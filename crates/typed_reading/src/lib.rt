//! What generated readers stand on: fields, texts, data, structs and lists of a message that is
//! read, with contracts that speak of the value that the message means.
#![tactic(auto)]

pub mod error;
pub mod laws;
pub mod list;
pub mod value;
