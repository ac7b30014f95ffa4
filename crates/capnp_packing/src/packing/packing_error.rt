//! Why bytes in memory aren't packed or unpacked.
ghost use Rattle.std.specs.Prelude.{◌≡◌, Some};
ghost use Rattle.capnp_packing.specs.Names.{packing_error_name};

use std::fmt;
use thiserror::Error;

/// The refusal of a call. `{}` writes the variant's name.
#[derive(Clone, Copy, Debug, PartialEq, Eq, Error)]
pub enum PackingError {
    /// The bytes to pack end inside a word.
    CutWord,
    /// The packed bytes end inside a word or before a count.
    Truncated,
    /// There are more unpacked bytes than the caller's `max_bytes`.
    TooLong,
    /// There is no memory for the result.
    AllocationFailed,
}

impl PackingError {
    /// The variant's name.
    pub fn name(&self) -> &'static str
        ensures { result.now ≡ packing_error_name self.now }
    {
        match self {
            PackingError::CutWord => "CutWord",
            PackingError::Truncated => "Truncated",
            PackingError::TooLong => "TooLong",
            PackingError::AllocationFailed => "AllocationFailed",
        }
    }
}

impl fmt::Display for PackingError {
    ghost output = { λ e. Some (packing_error_name e) };

    fn fmt<W: fmt::Write>(&self, f: &mut fmt::Formatter<W>) -> fmt::Result {
        write!(f, "{}", self.name())
    }
}
