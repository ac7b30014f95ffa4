//! Reads and writes messages as packed frames (encoding specification, "Packing").
ghost use Rattle.std.specs.Prelude.{◌≡◌, ◌⊎◌, [], true, length, IfOk, IfErr, IfSome};
ghost use Rattle.std.specs.Io.KnownBytes.{Appends};
ghost use Rattle.capnp_framing.specs.Flat.{BeginsWithFrame};
ghost use Rattle.capnp_framing.specs.Frames.{CanBeFramed, frame};
ghost use Rattle.capnp_framing.specs.Limits.{most_words};
ghost use Rattle.capnp_framing.specs.Reading.{IsRefusedNumber, NoFrame};
ghost use Rattle.capnp_framing.specs.declared.framing.frame_error.FrameError.TheVariants.{AllocationFailed, ReadFailed, Truncated, WriteFailed};
ghost use Rattle.capnp_packing.specs.Packing.{unpacked_bytes, unpacked_known};
ghost use Rattle.capnp_packing.specs.declared.packing.place.Place.TheVariants.{Tag};
ghost use Rattle.typed_messages.specs.Reading.{HasLimits, words_of_message};

use crate::message::{HeapArena, MessageBuilder, MessageReader, ReaderOptions};
use crate::serialize;
use capnp_arena::arena::{BuilderArena, ReaderArena, ReaderSegments};
use capnp_framing::devices::{DeviceFault, Input, Output};
use capnp_framing::framing::{FrameError, OwnedSegments};
use capnp_packing::packing::{PackingOutput, UnpackingInput};
use std::alloc::Global;

/// Reads the first message of a packed stream. Takes the input, because it also reads some of the
/// packed bytes after the message; for a stream of many messages, use
/// `serialize::Messages` over an `UnpackingInput`.
///
/// Refuses what `serialize::read_message` refuses for the unpacked bytes, with the same errors in the
/// same order. Packed bytes that end within a word count as all bytes that they unpack to.
pub fn read_message<R: Input + Drop>(
    alloc: Global,
    packed: R,
    options: ReaderOptions,
) -> Result<MessageReader<OwnedSegments>, FrameError>
    ensures read { IfOk result (λ m. IfSome (R.remaining packed) (λ bytes.
        BeginsWithFrame (unpacked_bytes Tag bytes)
        (most_words options)
        (words_of_message ⟦<OwnedSegments as ReaderSegments>⟧ m))) }
    ensures limits { IfOk result
        (λ m. HasLimits ⟦<OwnedSegments as ReaderSegments>⟧ m options) }
    ensures refused { IfErr result (λ e. (e ≡ AllocationFailed)
        ⊎ ((e ≡ ReadFailed) × ((device : R) × (R.has_failed device ≡ true)))
        ⊎ IfSome (R.remaining packed) (λ bytes.
        ((e ≡ Truncated) × (unpacked_bytes Tag bytes ≡ []))
        ⊎ NoFrame (unpacked_bytes Tag bytes)
        (most_words options) e)) }
{
    let mut input = UnpackingInput::new(packed);
    serialize::read_message(alloc, &mut input, options)
}

/// Writes a message as a packed frame, and returns the output, which has all of the packed bytes.
///
/// Refusals: `AllocationFailed` if memory runs out; `NoSegments` if there are no segments;
/// `TooManySegments(n)` if there are n segments, and n is above 512; `WriteFailed` if the output
/// failed.
pub fn write_message<W: Output + Drop>(output: W, message: &MessageBuilder) -> Result<W, FrameError>
    ensures written { IfOk result (λ after.
        Appends (unpacked_known (W.contents output)) (unpacked_known (W.contents after))
        (frame (⟦<HeapArena as BuilderArena>⟧.view message.now.arena).words)) }
    ensures framed { IfOk result (λ _.
        CanBeFramed (⟦<HeapArena as BuilderArena>⟧.view message.now.arena).words) }
    ensures refused { IfErr result (λ e. (e ≡ WriteFailed) ⊎ (e ≡ AllocationFailed)
        ⊎ IsRefusedNumber (length (⟦<HeapArena as ReaderArena>⟧.segments message.now.arena)) e) }
{
    let mut packing = PackingOutput::new(output);
    if let Err(error) = serialize::write_message(&mut packing, message) {
        return Err(error);
    }
    match packing.write_pending() {
        Ok(()) => Ok(packing.into_packed()),
        Err(DeviceFault) => Err(FrameError::WriteFailed),
    }
}
