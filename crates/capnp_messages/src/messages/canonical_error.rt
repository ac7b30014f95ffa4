//! Why a message can't be written as a canonical frame.
ghost use Rattle.std.specs.Prelude.{◌≡◌};
ghost use Rattle.capnp_words.specs.Names.{name_of};
ghost use Rattle.capnp_words.specs.declared.error.ErrorKind.{ErrorKind};
ghost use Rattle.capnp_framing.specs.Names.{frame_error_name};
ghost use Rattle.capnp_framing.specs.declared.framing.frame_error.FrameError.{FrameError};

use capnp_framing::framing::FrameError;
use capnp_words::error::ErrorKind;

/// A refusal of `write_canonical`.
#[derive(Clone, Copy, Debug, PartialEq, Eq)]
pub enum CanonicalError {
    /// The value can't be copied.
    Layout(ErrorKind),
    /// The frame can't be written.
    Frame(FrameError),
}

impl CanonicalError {
    /// The name of the refusal that `self` carries.
    pub fn name(&self) -> &'static str
        ensures layout { (k : ErrorKind) → self.now ≡ CanonicalError.Layout k
            → result.now ≡ name_of k }
        ensures frame { (e : FrameError) → self.now ≡ CanonicalError.Frame e
            → result.now ≡ frame_error_name e }
    {
        match self {
            CanonicalError::Layout(kind) => kind.name(),
            CanonicalError::Frame(error) => error.name(),
        }
    }
}
