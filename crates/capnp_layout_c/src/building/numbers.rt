//! The numbers of refusals to build.
ghost use Rattle.std.specs.Prelude.{◌≡◌, ◌<◌};
ghost use Rattle.capnp_layout_c.specs.BuildingNumbers.{building_number};

use capnp_numbers::{NO_ROOM, layout_number};
use capnp_words::error::ErrorKind;

/// The place isn't inside of the message, or the message isn't inside of the buffer: the number of
/// `NoSuchPlace`.
pub(crate) const BAD_PLACE: u32 = 61;

/// There would be more bytes, elements or words than a message can have: the number of
/// `MessageTooLarge`.
pub(crate) const TOO_LARGE: u32 = 59;

/// The number of a refusal. If memory runs out, the buffer has no room.
pub(crate) fn number_of(kind: ErrorKind) -> u32
    ensures number { result ≡ building_number kind }
    ensures some { 0 < result }
{
    match kind {
        ErrorKind::AllocationFailed => NO_ROOM,
        _ => layout_number(kind),
    }
}
