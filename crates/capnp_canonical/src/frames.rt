//! Copies, tests and measures the message whose frame is at the front of a buffer (encoding
//! specification, "Serialization Over a Stream").
ghost use Rattle.std.specs.Prelude.{◌≡◌, ◌⊎◌, length, Ok, IfOk, IfErr, IsOk};
ghost use Rattle.capnp_format.specs.Bytes.{message};
ghost use Rattle.capnp_arena_traits.specs.Limits.{IsSmall};
ghost use Rattle.capnp_framing.specs.Flat.{BeginsWithFrame};
ghost use Rattle.capnp_framing.specs.Frames.{frame};
ghost use Rattle.capnp_framing.specs.Prefix.{size_from_prefix};
ghost use Rattle.capnp_messages.specs.Messages.{HasSizeOf};
ghost use Rattle.capnp_messages.specs.declared.messages.command.Command.{Command};
ghost use Rattle.capnp_messages.specs.declared.messages.command.Form.{Form};
ghost use Rattle.capnp_messages.specs.SmallCopies.{NeedsNoHeap};
ghost use Rattle.capnp_canonical.specs.Calls.{Fills, InFrame, IsCopyOf, IsNoRoom, RefusesBytes, RefusesMeaning, RefusesPrefix, RefusesRoom, TestFinds, limits_of};

use crate::calls::{Limits, check, copy, size};
use crate::refusal::Refusal;
use capnp_arena::arena::ReaderSegments;
use capnp_framing::framing::{FrameSegments, read_from_flat_slice, size_from_prefix};
use capnp_messages::messages::Form;
use capnp_pointers::pointers::{CanonicalFault, MessageSize};
use std::alloc::Global;

/// Returns the message whose frame is at the front of `bytes`. Refuses a message of more than
/// `words` words.
pub fn message_in(bytes: &[u8], words: u64) -> Result<FrameSegments<'_>, Refusal>
    ensures begins { IfOk result (λ f. BeginsWithFrame bytes.now words
        (message (⟦<FrameSegments<'static> as ReaderSegments>⟧.segments f))) }
    ensures small { IfOk result (λ f.
        IsSmall (⟦<FrameSegments<'static> as ReaderSegments>⟧.segments f)) }
    ensures refused { IfErr result (RefusesBytes bytes.now words) }
{
    match read_from_flat_slice(bytes, words) {
        Ok(Some(segments)) => Ok(segments),
        Ok(None) => Err(Refusal::NoMessage),
        Err(error) => Err(Refusal::Frame(error)),
    }
}

/// Makes a canonical copy of the message whose frame is at the front of `frame`, and writes the
/// copy to the front of `to`, in a frame or without one, as `form` says. Returns the number of
/// bytes written.
pub fn copy_frame(
    alloc: Global,
    form: Form,
    frame: &[u8],
    limits: Limits,
    to: &mut [u8],
) -> Result<usize, Refusal>
    ensures copied { Fills result to.old to.new (λ bytes. InFrame frame.now limits.words
        (λ S. IsCopyOf form (limits_of limits.nesting limits.words) S bytes)) }
    ensures refused { IfErr result (λ r. RefusesBytes frame.now limits.words r
        ⊎ InFrame frame.now limits.words
        (λ S. RefusesRoom form (limits_of limits.nesting limits.words) (length to.old) S r)) }
    ensures lent { InFrame frame.now limits.words
        (NeedsNoHeap (limits_of limits.nesting limits.words)) → IfErr result IsNoRoom }
{
    let segments = message_in(frame, limits.words)?;
    copy(alloc, form, segments, limits, to)
}

/// Returns why and where the message whose frame is at the front of `frame` isn't canonical; `None`
/// if it is.
pub fn check_frame(frame: &[u8], limits: Limits) -> Result<Option<CanonicalFault>, Refusal>
    ensures found { IfOk result (λ o. InFrame frame.now limits.words
        (TestFinds (limits_of limits.nesting limits.words) o)) }
    ensures refused { IfErr result (λ r. RefusesBytes frame.now limits.words r
        ⊎ InFrame frame.now limits.words
        (λ S. RefusesMeaning Command.Check (limits_of limits.nesting limits.words) S r)) }
{
    let segments = message_in(frame, limits.words)?;
    check(segments, limits)
}

/// Counts the words and capabilities of the message whose frame is at the front of `frame`, without
/// the root pointer and landing pads.
pub fn size_frame(frame: &[u8], limits: Limits) -> Result<MessageSize, Refusal>
    ensures size { IfOk result (λ z. InFrame frame.now limits.words
        (λ S. HasSizeOf S (limits_of limits.nesting limits.words) z.word_count z.cap_count)) }
    ensures refused { IfErr result (λ r. RefusesBytes frame.now limits.words r
        ⊎ InFrame frame.now limits.words
        (λ S. RefusesMeaning Command.Size (limits_of limits.nesting limits.words) S r)) }
{
    let segments = message_in(frame, limits.words)?;
    size(segments, limits)
}

/// Returns the size in bytes of the frame at the front of `bytes`. Refuses a message of more than
/// `words` words.
pub fn frame_size(bytes: &[u8], words: u64) -> Result<usize, Refusal>
    ensures size { IfOk result (λ n. InFrame bytes.now words (λ S. n ≡ length (frame S))) }
    ensures refused { IfErr result (RefusesBytes bytes.now words) }
{
    Ok(message_in(bytes, words)?.size_in_bytes())
}

/// Returns how many bytes of a stream to have, from the start of a frame on, before `frame_size`
/// finds the frame whole. Goes by the bytes in `prefix`. Refuses the frame if they tell that it has
/// too many segments, or more than `words` words.
pub fn frame_size_from_prefix(prefix: &[u8], words: u64) -> Result<usize, Refusal>
    ensures size { IfOk result (λ n. size_from_prefix prefix.now words ≡ Ok n) }
    ensures refused { IfErr result (RefusesPrefix prefix.now words) }
{
    match size_from_prefix(prefix, words) {
        Ok(size) => Ok(size),
        Err(error) => Err(Refusal::Frame(error)),
    }
}
