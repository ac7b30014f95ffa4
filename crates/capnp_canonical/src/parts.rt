//! Copies and measures a part of a message: the value to which a path leads. Takes the message's
//! frame, its segments, or the words of its only segment.
ghost use Rattle.std.specs.Prelude.{◌⊎◌, length, IfOk, IfErr};
ghost use Rattle.capnp_format.specs.Bytes.{message};
ghost use Rattle.capnp_arena_traits.specs.Limits.{IsSmall};
ghost use Rattle.capnp_messages.specs.SmallCopies.{PartNeedsNoHeap};
ghost use Rattle.capnp_canonical.specs.Calls.{Fills, InFrame, InSegments, InWords, IsNoRoom, RefusesBytes, RefusesSegment, RefusesSegments, limits_of};
ghost use Rattle.capnp_canonical.specs.Parts.{HasPartSize, IsCopyOfPart, RefusesPartRoom, RefusesPartSize};

use crate::calls::Limits;
use crate::frames::message_in;
use crate::refusal::Refusal;
use crate::segments::lent_message;
use crate::taking::{Room, lend_part_words};
use crate::words::message_of;
use capnp_arena::arena::{ReaderArenaImpl, ReaderSegments};
use capnp_messages::messages;
use capnp_messages::messages::Form;
use capnp_pointers::pointers::MessageSize;
use std::alloc::Global;

/// Makes the canonical copy of the part of the message in `segments` to which `path` leads, and
/// writes the copy to the front of `to`, without a frame. Returns the number of bytes written.
///
/// Takes heap memory only if the copy has more than 64 words.
fn copy_at<S: ReaderSegments + Drop>(
    alloc: Global,
    segments: S,
    path: &[u32],
    limits: Limits,
    to: &mut [u8],
) -> Result<usize, Refusal>
    requires { IsSmall (S.segments segments) }
    ensures copied { Fills result to.old to.new
        (IsCopyOfPart (limits_of limits.nesting limits.words) path.now
        (message (S.segments segments))) }
    ensures refused { IfErr result
        (RefusesPartRoom (limits_of limits.nesting limits.words) path.now (length to.old)
        (message (S.segments segments))) }
    ensures lent { PartNeedsNoHeap (limits_of limits.nesting limits.words) path.now
        (message (S.segments segments)) → IfErr result IsNoRoom }
{
    let mut room = Room {
        form: Form::Flat,
        to,
    };
    match lend_part_words(alloc, segments, path, limits, &mut room) {
        Ok(written) => written,
        Err(refusal) => Err(refusal),
    }
}

/// Counts the words and capabilities of the part of the message in `segments` to which `path`
/// leads, without landing pads.
fn size_at<S: ReaderSegments + Drop>(
    segments: S,
    path: &[u32],
    limits: Limits,
) -> Result<MessageSize, Refusal>
    requires { IsSmall (S.segments segments) }
    ensures size { IfOk result (λ z.
        HasPartSize (limits_of limits.nesting limits.words) path.now
        (message (S.segments segments)) z.word_count z.cap_count) }
    ensures refused { IfErr result
        (RefusesPartSize (limits_of limits.nesting limits.words) path.now
        (message (S.segments segments))) }
{
    let options = limits.options();
    let source = ReaderArenaImpl::new(segments, options);
    Ok(messages::size_of_part(&source, path, options.traversal_limit_in_words)?)
}

/// Makes the canonical copy of the part of the message at the front of `frame` to which `path`
/// leads, and writes the copy to the front of `to`, without a frame. Returns the number of bytes
/// written.
pub fn copy_frame_part(
    alloc: Global,
    frame: &[u8],
    path: &[u32],
    limits: Limits,
    to: &mut [u8],
) -> Result<usize, Refusal>
    ensures copied { Fills result to.old to.new (λ bytes. InFrame frame.now limits.words
        (λ S. IsCopyOfPart (limits_of limits.nesting limits.words) path.now S bytes)) }
    ensures refused { IfErr result (λ r. RefusesBytes frame.now limits.words r
        ⊎ InFrame frame.now limits.words (λ S. RefusesPartRoom
        (limits_of limits.nesting limits.words) path.now (length to.old) S r)) }
    ensures lent { InFrame frame.now limits.words
        (PartNeedsNoHeap (limits_of limits.nesting limits.words) path.now) → IfErr result IsNoRoom }
{
    let segments = message_in(frame, limits.words)?;
    copy_at(alloc, segments, path, limits, to)
}

/// Counts the words and capabilities of the part of the message at the front of `frame` to which
/// `path` leads, without landing pads.
pub fn size_frame_part(frame: &[u8], path: &[u32], limits: Limits) -> Result<MessageSize, Refusal>
    ensures size { IfOk result (λ z. InFrame frame.now limits.words
        (λ S. HasPartSize (limits_of limits.nesting limits.words) path.now S
        z.word_count z.cap_count)) }
    ensures refused { IfErr result (λ r. RefusesBytes frame.now limits.words r
        ⊎ InFrame frame.now limits.words
        (λ S. RefusesPartSize (limits_of limits.nesting limits.words) path.now S r)) }
{
    let segments = message_in(frame, limits.words)?;
    size_at(segments, path, limits)
}

/// Like `copy_frame_part`, for the message in `segments`.
pub fn copy_segments_part(
    alloc: Global,
    segments: &[&[u8]],
    path: &[u32],
    limits: Limits,
    to: &mut [u8],
) -> Result<usize, Refusal>
    ensures copied { Fills result to.old to.new (λ bytes. InSegments segments.now
        (λ S. IsCopyOfPart (limits_of limits.nesting limits.words) path.now S bytes)) }
    ensures refused { IfErr result (λ r. RefusesSegments segments.now r
        ⊎ InSegments segments.now (λ S. RefusesPartRoom
        (limits_of limits.nesting limits.words) path.now (length to.old) S r)) }
    ensures lent { InSegments segments.now
        (PartNeedsNoHeap (limits_of limits.nesting limits.words) path.now) → IfErr result IsNoRoom }
{
    let lent = lent_message(segments)?;
    copy_at(alloc, lent, path, limits, to)
}

/// Like `size_frame_part`, for the message in `segments`.
pub fn size_segments_part(
    segments: &[&[u8]],
    path: &[u32],
    limits: Limits,
) -> Result<MessageSize, Refusal>
    ensures size { IfOk result (λ z. InSegments segments.now
        (λ S. HasPartSize (limits_of limits.nesting limits.words) path.now S
        z.word_count z.cap_count)) }
    ensures refused { IfErr result (λ r. RefusesSegments segments.now r
        ⊎ InSegments segments.now
        (λ S. RefusesPartSize (limits_of limits.nesting limits.words) path.now S r)) }
{
    let lent = lent_message(segments)?;
    size_at(lent, path, limits)
}

/// Like `copy_frame_part`, for the message whose one segment is `words`.
pub fn copy_words_part(
    alloc: Global,
    words: &[u8],
    path: &[u32],
    limits: Limits,
    to: &mut [u8],
) -> Result<usize, Refusal>
    ensures copied { Fills result to.old to.new (λ bytes. InWords words.now
        (λ S. IsCopyOfPart (limits_of limits.nesting limits.words) path.now S bytes)) }
    ensures refused { IfErr result (λ r. RefusesSegment words.now r
        ⊎ InWords words.now (λ S. RefusesPartRoom
        (limits_of limits.nesting limits.words) path.now (length to.old) S r)) }
    ensures lent { InWords words.now
        (PartNeedsNoHeap (limits_of limits.nesting limits.words) path.now) → IfErr result IsNoRoom }
{
    let message = message_of(words)?;
    copy_at(alloc, message, path, limits, to)
}

/// Like `size_frame_part`, for the message whose one segment is `words`.
pub fn size_words_part(words: &[u8], path: &[u32], limits: Limits) -> Result<MessageSize, Refusal>
    ensures size { IfOk result (λ z. InWords words.now
        (λ S. HasPartSize (limits_of limits.nesting limits.words) path.now S
        z.word_count z.cap_count)) }
    ensures refused { IfErr result (λ r. RefusesSegment words.now r
        ⊎ InWords words.now
        (λ S. RefusesPartSize (limits_of limits.nesting limits.words) path.now S r)) }
{
    let message = message_of(words)?;
    size_at(message, path, limits)
}
