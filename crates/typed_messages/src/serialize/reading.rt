//! Reads messages from frames (encoding specification, "Serialization Over a Stream").
ghost use Rattle.std.specs.Prelude.{◌≡◌, ◌⊎◌, [], false, None, Ok, IfOk, IfErr, IfSome};
ghost use Rattle.std.specs.Io.KnownBytes.{IsAtEnd};
ghost use Rattle.capnp_framing.specs.Flat.{BeginsWithFrame};
ghost use Rattle.capnp_framing.specs.Limits.{most_words};
ghost use Rattle.capnp_framing.specs.Reading.{KeepsInput, NoFrame, NoFrameRead};
ghost use Rattle.capnp_framing.specs.declared.framing.frame_error.FrameError.TheVariants.{Truncated};
ghost use Rattle.typed_messages.specs.Reading.{EndsBefore, HasLimits, IsMessageRead, words_of_message};

use crate::message::{MessageReader, ReaderOptions};
use capnp_arena::arena::ReaderSegments;
use capnp_framing::devices::Input;
use capnp_framing::framing::{
    FrameError, FrameSegments, OwnedSegments, most_words, read, read_from_flat_slice,
};
use std::alloc::Global;

/// Reads a message from the front of `input`, and leaves what follows it unread. Returns `None` if
/// the input is at its end. Precondition: `input` hasn't failed.
///
/// Refusals, in this order: `Truncated` if there are fewer than four bytes; `TooManySegments(n)` if
/// there are n segments, and n is above 512; `Truncated` if the segment table is cut short;
/// `MessageTooLong(n)` if the segments have n words, and n is above the traversal limit; `Truncated`
/// if the words are cut short. Also `ReadFailed` exactly if the input failed; and `AllocationFailed`
/// if memory ran out. What is read of the input then is as for `capnp_framing::framing::read_into`.
pub fn try_read_message<R: Input>(
    alloc: Global,
    input: &mut R,
    options: ReaderOptions,
) -> Result<Option<MessageReader<OwnedSegments>>, FrameError>
    requires { R.has_failed input.old ≡ false }
    ensures end { result ≡ Ok None
        → IsAtEnd (R.remaining input.old) × IsAtEnd (R.remaining input.new) }
    ensures read { IfOk result (λ m. IfSome m (IsMessageRead
        R.Input ⟦<OwnedSegments as ReaderSegments>⟧ input.old input.new options)) }
    ensures input { KeepsInput R.Input result input.old input.new }
    ensures refused { IfErr result (NoFrameRead R.Input input.old input.new
        (most_words options)) }
{
    match read(alloc, input, most_words(options)) {
        Ok(Some(segments)) => Ok(Some(MessageReader::new(segments, options))),
        Ok(None) => Ok(None),
        Err(error) => Err(error),
    }
}

/// Like `try_read_message`, for an input that has a message: refuses with `Truncated` also if the
/// input is at its end. Precondition: `input` hasn't failed.
pub fn read_message<R: Input>(
    alloc: Global,
    input: &mut R,
    options: ReaderOptions,
) -> Result<MessageReader<OwnedSegments>, FrameError>
    requires { R.has_failed input.old ≡ false }
    ensures read { IfOk result (IsMessageRead
        R.Input ⟦<OwnedSegments as ReaderSegments>⟧ input.old input.new options) }
    ensures input { KeepsInput R.Input result input.old input.new }
    ensures refused { IfErr result (λ e. EndsBefore R.Input input.old input.new e
        ⊎ NoFrameRead R.Input input.old input.new
        (most_words options) e) }
{
    match try_read_message(alloc, input, options) {
        Ok(Some(message)) => Ok(message),
        Ok(None) => Err(FrameError::Truncated),
        Err(error) => Err(error),
    }
}

/// Reads a message in place from the front of `bytes`: copies nothing, and takes no memory. Ignores
/// the bytes after the message; they start at `size_in_bytes` of the message's segments
/// (`into_segments`).
///
/// Refuses what `read_message` refuses, with the same errors in the same order, except that
/// `ReadFailed` and `AllocationFailed` can't occur.
pub fn read_message_from_flat_slice(
    bytes: &[u8],
    options: ReaderOptions,
) -> Result<MessageReader<FrameSegments<'_>>, FrameError>
    ensures read { IfOk result (λ m. BeginsWithFrame bytes.now
        (most_words options)
        (words_of_message ⟦<FrameSegments<'static> as ReaderSegments>⟧ m)) }
    ensures limits { IfOk result
        (λ m. HasLimits ⟦<FrameSegments<'static> as ReaderSegments>⟧ m options) }
    ensures refused { IfErr result (λ e. ((e ≡ Truncated) × (bytes.now ≡ []))
        ⊎ NoFrame bytes.now (most_words options) e) }
{
    match read_from_flat_slice(bytes, most_words(options)) {
        Ok(Some(segments)) => Ok(MessageReader::new(segments, options)),
        Ok(None) => Err(FrameError::Truncated),
        Err(error) => Err(error),
    }
}
