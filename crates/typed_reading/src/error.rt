//! The error of typed code that readers don't have.

use thiserror::Error;

/// A number of an enum or of a union that the schema has no name for.
#[derive(Clone, Copy, Debug, PartialEq, Eq, Error)]
#[error("number {0} is not in the schema")]
pub struct NotInSchema(pub u16);
