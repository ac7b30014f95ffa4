//! What generated readers of checked messages stand on: structs and lists that conform to a row of
//! a schema's table, which is part of their type.
#![tactic(auto)]

pub mod rows;
pub mod schema;
