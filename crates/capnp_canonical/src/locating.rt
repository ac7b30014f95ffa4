//! The pointer at which a message is broken, in the form for C.
ghost use Rattle.std.specs.Prelude.{◌≡◌, IfOk, IfErr};
ghost use Rattle.capnp_format.specs.Bytes.{message};
ghost use Rattle.capnp_arena_traits.specs.Limits.{IsSmall};
ghost use Rattle.capnp_canonical.specs.Calls.{InFrame, InSegments, InWords, RefusesBytes, RefusesSegment, RefusesSegments, limits_of};
ghost use Rattle.capnp_canonical.specs.Locating.{PointerIs, command_of_reading, c_pointer};

use crate::calls::Limits;
use crate::frames::message_in;
use crate::refusal::Refusal;
use crate::segments::lent_message;
use crate::words::message_of;
use capnp_arena::arena::ReaderSegments;
use capnp_messages::messages::{Command, Form};
use capnp_refusals::refusals::{RefusedPointer, refused_pointer};

/// The pointer at which reading a message stops.
#[repr(C)]
#[derive(Clone, Copy)]
pub struct BrokenPointer {
    /// The number of the refusal; 0 if the whole value is read.
    pub refusal: u32,
    /// The position of the pointer in its segment, in words.
    pub word: u32,
    /// The number of the pointer's segment.
    pub segment: u64,
}

/// No pointer: the whole value is read.
pub const NO_POINTER: BrokenPointer = BrokenPointer {
    refusal: 0,
    word: 0,
    segment: 0,
};

impl BrokenPointer {
    /// Returns the pointer that was found, with its refusal as a number; `NO_POINTER` for `None`.
    fn of(found: Option<RefusedPointer>) -> Self
        ensures { result ≡ c_pointer found }
    {
        match found {
            Some(pointer) => BrokenPointer {
                refusal: Refusal::Layout(pointer.refusal).number(),
                word: pointer.word,
                segment: pointer.segment,
            },
            None => NO_POINTER,
        }
    }
}

/// The command that reads a message like the reading with this number. A number of no reading
/// counts as 0.
fn command_of_reading(reading: u32) -> Command
    ensures { result ≡ command_of_reading reading }
{
    match reading {
        1 => Command::Canon(Form::Flat),
        2 => Command::Size,
        _ => Command::Validate,
    }
}

/// Returns the pointer at which a reading of the message in `segments` stops.
fn locate<S: ReaderSegments + Drop>(segments: S, limits: Limits, reading: u32) -> BrokenPointer
    requires { IsSmall (S.segments segments) }
    ensures { PointerIs reading (limits_of limits.nesting limits.words) result
        (message (S.segments segments)) }
{
    BrokenPointer::of(refused_pointer(command_of_reading(reading), segments, limits.options()))
}

/// Returns the pointer at which a reading of the message whose frame is at the front of `frame`
/// stops.
pub fn locate_in_frame(frame: &[u8], limits: Limits, reading: u32) -> Result<BrokenPointer, Refusal>
    ensures found { IfOk result (λ p. InFrame frame.now limits.words
        (PointerIs reading (limits_of limits.nesting limits.words) p)) }
    ensures refused { IfErr result (RefusesBytes frame.now limits.words) }
{
    let segments = message_in(frame, limits.words)?;
    Ok(locate(segments, limits, reading))
}

/// The same for the message of these segments.
pub fn locate_in_segments(
    segments: &[&[u8]],
    limits: Limits,
    reading: u32,
) -> Result<BrokenPointer, Refusal>
    ensures found { IfOk result (λ p. InSegments segments.now
        (PointerIs reading (limits_of limits.nesting limits.words) p)) }
    ensures refused { IfErr result (RefusesSegments segments.now) }
{
    let lent = lent_message(segments)?;
    Ok(locate(lent, limits, reading))
}

/// The same for the message whose only segment has these words.
pub fn locate_in_words(words: &[u8], limits: Limits, reading: u32) -> Result<BrokenPointer, Refusal>
    ensures found { IfOk result (λ p. InWords words.now
        (PointerIs reading (limits_of limits.nesting limits.words) p)) }
    ensures refused { IfErr result (RefusesSegment words.now) }
{
    let message = message_of(words)?;
    Ok(locate(message, limits, reading))
}
