//! Copies, tests and measures a message in the caller's segments.
ghost use Rattle.std.specs.Prelude.{◌≡◌, ◌⊎◌, length, IfOk, IfErr, IsOk};
ghost use Rattle.capnp_arena_traits.specs.Limits.{AreSmall};
ghost use Rattle.capnp_messages.specs.Messages.{HasSizeOf};
ghost use Rattle.capnp_messages.specs.declared.messages.command.Command.{Command};
ghost use Rattle.capnp_messages.specs.declared.messages.command.Form.{Form};
ghost use Rattle.capnp_messages.specs.SmallCopies.{NeedsNoHeap};
ghost use Rattle.capnp_canonical.specs.Calls.{AreWholeWords, Fills, InSegments, IsCopyOf, IsNoRoom, RefusesMeaning, RefusesRoom, RefusesSegments, TestFinds, lent_bytes, limits_of};

use crate::calls::{Limits, check, copy, size};
use crate::refusal::Refusal;
use capnp_arena::arena::{ReaderSegments, SegmentArray};
use capnp_messages::messages::Form;
use capnp_pointers::pointers::{CanonicalFault, MessageSize};
use capnp_words::error::ErrorKind;
use std::alloc::Global;

/// Returns the message in `segments`. Refuses with `SegmentIsNotWholeWords` if the bytes of a segment
/// aren't whole words, and with `MessageTooLarge` if there are more segments or words than
/// `SegmentArray::new` allows.
pub fn lent_message<'a>(segments: &'a [&'a [u8]]) -> Result<SegmentArray<'a>, Refusal>
    ensures segments { IfOk result (λ lent.
        ⟦<SegmentArray<'static> as ReaderSegments>⟧.segments lent ≡ lent_bytes segments.now) }
    ensures whole { IfOk result (λ lent. AreWholeWords segments.now × AreSmall segments.now) }
    ensures refused { IfErr result (RefusesSegments segments.now) }
{
    if !segments.iter().all(|s| s.len() % 8 == 0) {
        return Err(Refusal::SegmentIsNotWholeWords);
    }
    match SegmentArray::new(segments) {
        Some(lent) => Ok(lent),
        None => Err(Refusal::Layout(ErrorKind::MessageTooLarge(usize::MAX))),
    }
}

/// Makes a canonical copy of the message in `segments`, and writes the copy to the front of `to`,
/// in a frame or without one, as `form` says. Returns the number of bytes written.
pub fn copy_segments(
    alloc: Global,
    form: Form,
    segments: &[&[u8]],
    limits: Limits,
    to: &mut [u8],
) -> Result<usize, Refusal>
    ensures copied { Fills result to.old to.new (λ bytes. InSegments segments.now
        (λ S. IsCopyOf form (limits_of limits.nesting limits.words) S bytes)) }
    ensures refused { IfErr result (λ r. RefusesSegments segments.now r
        ⊎ InSegments segments.now
        (λ S. RefusesRoom form (limits_of limits.nesting limits.words) (length to.old) S r)) }
    ensures lent { InSegments segments.now
        (NeedsNoHeap (limits_of limits.nesting limits.words)) → IfErr result IsNoRoom }
{
    let lent = lent_message(segments)?;
    copy(alloc, form, lent, limits, to)
}

/// Returns why and where the message in `segments` isn't canonical; `None` if it is.
pub fn check_segments(segments: &[&[u8]], limits: Limits) -> Result<Option<CanonicalFault>, Refusal>
    ensures found { IfOk result (λ o. InSegments segments.now
        (TestFinds (limits_of limits.nesting limits.words) o)) }
    ensures refused { IfErr result (λ r. RefusesSegments segments.now r
        ⊎ InSegments segments.now
        (λ S. RefusesMeaning Command.Check (limits_of limits.nesting limits.words) S r)) }
{
    let lent = lent_message(segments)?;
    check(lent, limits)
}

/// Counts the words and capabilities of the message in `segments`, without the root pointer and
/// landing pads.
pub fn size_segments(segments: &[&[u8]], limits: Limits) -> Result<MessageSize, Refusal>
    ensures size { IfOk result (λ z. InSegments segments.now
        (λ S. HasSizeOf S (limits_of limits.nesting limits.words) z.word_count z.cap_count)) }
    ensures refused { IfErr result (λ r. RefusesSegments segments.now r
        ⊎ InSegments segments.now
        (λ S. RefusesMeaning Command.Size (limits_of limits.nesting limits.words) S r)) }
{
    let lent = lent_message(segments)?;
    size(lent, limits)
}
