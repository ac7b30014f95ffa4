//! Functions that read messages after one test of the whole message: then no getter can be refused. One module
//! is over generated readers, the other over a schema that is written as data.
#![tactic(auto)]

pub mod books;
pub mod nodes;
