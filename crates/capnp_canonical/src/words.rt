//! Copies, tests and measures a message given as the words of its only segment, without a
//! frame.
ghost use Rattle.std.specs.Prelude.{◌≡◌, ◌⊎◌, ◌∷◌, [], length, IfOk, IfErr, IsOk};
ghost use Rattle.capnp_arena_traits.specs.Limits.{IsSmall};
ghost use Rattle.capnp_arena.specs.Output.{output_bytes};
ghost use Rattle.capnp_messages.specs.Messages.{HasSizeOf};
ghost use Rattle.capnp_messages.specs.declared.messages.command.Command.{Command};
ghost use Rattle.capnp_messages.specs.declared.messages.command.Form.{Form};
ghost use Rattle.capnp_messages.specs.SmallCopies.{NeedsNoHeap};
ghost use Rattle.capnp_canonical.specs.Calls.{Fills, InWords, IsCopyOf, IsNoRoom, IsOneSegment, RefusesMeaning, RefusesRoom, RefusesSegment, TestFinds, limits_of};

use crate::calls::{Limits, check, copy, size};
use crate::refusal::Refusal;
use capnp_arena::arena::OutputSegments;
use capnp_messages::messages::Form;
use capnp_pointers::pointers::{CanonicalFault, MessageSize};
use capnp_words::error::ErrorKind;
use std::alloc::Global;

/// Returns `bytes`. If `bytes` is empty, returns an empty slice with another pointer, because C may
/// have passed a null pointer.
fn without_null(bytes: &[u8]) -> &[u8]
    ensures { result.now ≡ bytes.now }
{
    if bytes.is_empty() { &[] } else { bytes }
}

/// Returns the message whose one segment is `words`. Refuses with `SegmentIsNotWholeWords` if
/// `words` isn't whole words, and with `MessageTooLarge` if it is 2^32 words or more.
pub fn message_of(words: &[u8]) -> Result<OutputSegments<'_>, Refusal>
    ensures segments { IfOk result (λ s. output_bytes s ≡ words.now ∷ []) }
    ensures small { IfOk result (λ s. IsSmall (output_bytes s)) }
    ensures whole { IfOk result (λ _. IsOneSegment words.now) }
    ensures refused { IfErr result (RefusesSegment words.now) }
{
    if words.len() % 8 != 0 {
        return Err(Refusal::SegmentIsNotWholeWords);
    }
    if words.len() / 8 >= 0x1_0000_0000 {
        return Err(Refusal::Layout(ErrorKind::MessageTooLarge(usize::MAX)));
    }
    Ok(OutputSegments::SingleSegment(without_null(words)))
}

/// Makes a canonical copy of the message whose one segment is `words`, and writes the copy to the
/// front of `to`, without a frame. Returns the number of bytes written.
pub fn copy_words(
    alloc: Global,
    words: &[u8],
    limits: Limits,
    to: &mut [u8],
) -> Result<usize, Refusal>
    ensures copied { Fills result to.old to.new (λ bytes. InWords words.now
        (λ S. IsCopyOf Form.Flat (limits_of limits.nesting limits.words) S bytes)) }
    ensures refused { IfErr result (λ r. RefusesSegment words.now r
        ⊎ InWords words.now
        (λ S. RefusesRoom Form.Flat (limits_of limits.nesting limits.words) (length to.old) S r)) }
    ensures lent { InWords words.now
        (NeedsNoHeap (limits_of limits.nesting limits.words)) → IfErr result IsNoRoom }
{
    let message = message_of(words)?;
    copy(alloc, Form::Flat, message, limits, to)
}

/// Returns why and where the message whose one segment is `words` isn't canonical; `None` if it is.
pub fn check_words(words: &[u8], limits: Limits) -> Result<Option<CanonicalFault>, Refusal>
    ensures found { IfOk result (λ o. InWords words.now
        (TestFinds (limits_of limits.nesting limits.words) o)) }
    ensures refused { IfErr result (λ r. RefusesSegment words.now r
        ⊎ InWords words.now
        (λ S. RefusesMeaning Command.Check (limits_of limits.nesting limits.words) S r)) }
{
    let message = message_of(words)?;
    check(message, limits)
}

/// Counts the words and capabilities of the message whose one segment is `words`, without the root
/// pointer and landing pads.
pub fn size_words(words: &[u8], limits: Limits) -> Result<MessageSize, Refusal>
    ensures size { IfOk result (λ z. InWords words.now
        (λ S. HasSizeOf S (limits_of limits.nesting limits.words) z.word_count z.cap_count)) }
    ensures refused { IfErr result (λ r. RefusesSegment words.now r
        ⊎ InWords words.now
        (λ S. RefusesMeaning Command.Size (limits_of limits.nesting limits.words) S r)) }
{
    let message = message_of(words)?;
    size(message, limits)
}
