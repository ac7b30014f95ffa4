//! The refusals of calls, with their numbers and names.
ghost use Rattle.std.specs.Prelude.{◌≡◌, ◌<◌};
ghost use Rattle.capnp_canonical.specs.Numbers.{answer_name, answer_number, wanted_room};

use capnp_framing::framing::FrameError;
use capnp_numbers::{NO_MESSAGE, NO_ROOM, frame_number, layout_number};
use capnp_words::error::ErrorKind;

/// Why a call is refused.
#[derive(Clone, Copy, Debug, PartialEq, Eq)]
pub enum Refusal {
    /// The buffer is too small. Carries the number of bytes that are needed.
    NoRoom(usize),
    /// There are no bytes where a frame was expected.
    NoMessage,
    /// The size of a segment isn't a multiple of 8 bytes.
    SegmentIsNotWholeWords,
    /// No frame could be read at the front of the bytes.
    Frame(FrameError),
    /// The message can't be copied, tested or measured.
    Layout(ErrorKind),
}

impl Refusal {
    /// The number of the refusal, never 0.
    pub fn number(self) -> u32
        ensures number { result ≡ answer_number self }
        ensures some { 0 < result }
    {
        match self {
            Refusal::NoRoom(_) => NO_ROOM,
            Refusal::NoMessage => NO_MESSAGE,
            Refusal::SegmentIsNotWholeWords => 3,
            Refusal::Frame(error) => frame_number(error),
            Refusal::Layout(kind) => layout_number(kind),
        }
    }

    /// The name of the refusal, without the value that it carries.
    pub fn name(&self) -> &'static str
        ensures { result.now ≡ answer_name self.now }
    {
        match self {
            Refusal::NoRoom(_) => "NoRoom",
            Refusal::NoMessage => "NoMessage",
            Refusal::SegmentIsNotWholeWords => "SegmentIsNotWholeWords",
            Refusal::Frame(error) => error.name(),
            Refusal::Layout(kind) => kind.name(),
        }
    }

    /// For `NoRoom`, the number of bytes needed; 0 for other refusals.
    pub fn wanted_room(self) -> usize
        ensures { result ≡ wanted_room self }
    {
        match self {
            Refusal::NoRoom(size) => size,
            _ => 0,
        }
    }
}

impl From<ErrorKind> for Refusal {
    ghost use Rattle.capnp_canonical.specs.declared.refusal.Refusal.TheVariants.{Layout};

    ghost from_gives = { λ kind refusal. refusal ≡ Layout kind };

    fn from(kind: ErrorKind) -> Self {
        Refusal::Layout(kind)
    }
}
