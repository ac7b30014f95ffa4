//! The SHA-256 of a prefix, which may be empty, and then the canonical words of a message, or of a
//! part of one. Takes the message's frame, its segments, or the words of its only segment.
ghost use Rattle.std.specs.Prelude.{◌⊎◌, IfOk, IfErr, IsOk};
ghost use Rattle.capnp_messages.specs.declared.messages.command.Command.{Command};
ghost use Rattle.capnp_messages.specs.declared.messages.command.Form.{Form};
ghost use Rattle.capnp_messages.specs.SmallCopies.{NeedsNoHeap, PartNeedsNoHeap};
ghost use Rattle.capnp_canonical.specs.Calls.{InFrame, InSegments, InWords, RefusesBytes, RefusesMeaning, RefusesSegment, RefusesSegments, limits_of};
ghost use Rattle.capnp_canonical.specs.Parts.{RefusesPartOf};
ghost use Rattle.capnp_canonical.specs.Taking.{IsDigestAfter, IsPartDigestAfter};

use crate::calls::Limits;
use crate::frames::message_in;
use crate::refusal::Refusal;
use crate::segments::lent_message;
use crate::taking::{Prefix, lend_part_words, lend_words};
use crate::words::message_of;
use std::alloc::Global;

/// Returns the SHA-256 of `prefix` and then the canonical words of the message whose frame is at
/// the front of `frame`.
pub fn digest_frame_after(
    alloc: Global,
    prefix: &[u8],
    frame: &[u8],
    limits: Limits,
) -> Result<[u8; 32], Refusal>
    ensures digest { IfOk result (λ d. InFrame frame.now limits.words
        (IsDigestAfter prefix.now (limits_of limits.nesting limits.words) d)) }
    ensures refused { IfErr result (λ r. RefusesBytes frame.now limits.words r
        ⊎ InFrame frame.now limits.words (λ S. RefusesMeaning (Command.Canon Form.Flat)
        (limits_of limits.nesting limits.words) S r)) }
    ensures lent { InFrame frame.now limits.words
        (NeedsNoHeap (limits_of limits.nesting limits.words)) → IsOk result }
{
    let segments = message_in(frame, limits.words)?;
    lend_words(alloc, segments, limits, &mut Prefix { bytes: prefix })
}

/// Like `digest_frame_after`, for the message in `segments`.
pub fn digest_segments_after(
    alloc: Global,
    prefix: &[u8],
    segments: &[&[u8]],
    limits: Limits,
) -> Result<[u8; 32], Refusal>
    ensures digest { IfOk result (λ d. InSegments segments.now
        (IsDigestAfter prefix.now (limits_of limits.nesting limits.words) d)) }
    ensures refused { IfErr result (λ r. RefusesSegments segments.now r
        ⊎ InSegments segments.now (λ S. RefusesMeaning (Command.Canon Form.Flat)
        (limits_of limits.nesting limits.words) S r)) }
    ensures lent { InSegments segments.now
        (NeedsNoHeap (limits_of limits.nesting limits.words)) → IsOk result }
{
    let lent = lent_message(segments)?;
    lend_words(alloc, lent, limits, &mut Prefix { bytes: prefix })
}

/// Like `digest_frame_after`, for the message whose one segment is `words`.
pub fn digest_words_after(
    alloc: Global,
    prefix: &[u8],
    words: &[u8],
    limits: Limits,
) -> Result<[u8; 32], Refusal>
    ensures digest { IfOk result (λ d. InWords words.now
        (IsDigestAfter prefix.now (limits_of limits.nesting limits.words) d)) }
    ensures refused { IfErr result (λ r. RefusesSegment words.now r
        ⊎ InWords words.now (λ S. RefusesMeaning (Command.Canon Form.Flat)
        (limits_of limits.nesting limits.words) S r)) }
    ensures lent { InWords words.now
        (NeedsNoHeap (limits_of limits.nesting limits.words)) → IsOk result }
{
    let message = message_of(words)?;
    lend_words(alloc, message, limits, &mut Prefix { bytes: prefix })
}

/// Returns the SHA-256 of `prefix` and then the canonical words of the part of the message whose
/// frame is at the front of `frame` to which `path` leads.
pub fn digest_frame_part_after(
    alloc: Global,
    prefix: &[u8],
    frame: &[u8],
    path: &[u32],
    limits: Limits,
) -> Result<[u8; 32], Refusal>
    ensures digest { IfOk result (λ d. InFrame frame.now limits.words
        (IsPartDigestAfter prefix.now (limits_of limits.nesting limits.words) path.now d)) }
    ensures refused { IfErr result (λ r. RefusesBytes frame.now limits.words r
        ⊎ InFrame frame.now limits.words
        (λ S. RefusesPartOf (limits_of limits.nesting limits.words) path.now S r)) }
    ensures lent { InFrame frame.now limits.words
        (PartNeedsNoHeap (limits_of limits.nesting limits.words) path.now) → IsOk result }
{
    let segments = message_in(frame, limits.words)?;
    lend_part_words(alloc, segments, path, limits, &mut Prefix { bytes: prefix })
}

/// Like `digest_frame_part_after`, for the message in `segments`.
pub fn digest_segments_part_after(
    alloc: Global,
    prefix: &[u8],
    segments: &[&[u8]],
    path: &[u32],
    limits: Limits,
) -> Result<[u8; 32], Refusal>
    ensures digest { IfOk result (λ d. InSegments segments.now
        (IsPartDigestAfter prefix.now (limits_of limits.nesting limits.words) path.now d)) }
    ensures refused { IfErr result (λ r. RefusesSegments segments.now r
        ⊎ InSegments segments.now
        (λ S. RefusesPartOf (limits_of limits.nesting limits.words) path.now S r)) }
    ensures lent { InSegments segments.now
        (PartNeedsNoHeap (limits_of limits.nesting limits.words) path.now) → IsOk result }
{
    let lent = lent_message(segments)?;
    lend_part_words(alloc, lent, path, limits, &mut Prefix { bytes: prefix })
}

/// Like `digest_frame_part_after`, for the message whose one segment is `words`.
pub fn digest_words_part_after(
    alloc: Global,
    prefix: &[u8],
    words: &[u8],
    path: &[u32],
    limits: Limits,
) -> Result<[u8; 32], Refusal>
    ensures digest { IfOk result (λ d. InWords words.now
        (IsPartDigestAfter prefix.now (limits_of limits.nesting limits.words) path.now d)) }
    ensures refused { IfErr result (λ r. RefusesSegment words.now r
        ⊎ InWords words.now
        (λ S. RefusesPartOf (limits_of limits.nesting limits.words) path.now S r)) }
    ensures lent { InWords words.now
        (PartNeedsNoHeap (limits_of limits.nesting limits.words) path.now) → IsOk result }
{
    let message = message_of(words)?;
    lend_part_words(alloc, message, path, limits, &mut Prefix { bytes: prefix })
}
