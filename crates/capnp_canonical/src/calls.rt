//! Makes a canonical copy of a message, tests it for canonical form, and measures it, for any type
//! that holds the message's segments.
ghost use Rattle.std.specs.Prelude.{◌≡◌, ◌<◌, ◌+◌, ◌/◌, ◌^◌, ◌∷◌, [], ℕ, List, length, Some, IfOk, IfErr};
ghost use Rattle.std.specs.Int.{to_le_bytes, w32};
ghost use Rattle.capnp_format.specs.Bytes.{message};
ghost use Rattle.capnp_arena_traits.specs.Limits.{IsSmall};
ghost use Rattle.capnp_framing.specs.Frames.{bytes_of_words, frame};
ghost use Rattle.capnp_messages.specs.Messages.{HasSizeOf};
ghost use Rattle.capnp_messages.specs.Commands.{form_bytes};
ghost use Rattle.capnp_messages.specs.declared.messages.command.Command.{Command};
ghost use Rattle.capnp_messages.specs.SmallCopies.{NeedsNoHeap};
ghost use Rattle.capnp_canonical.specs.Calls.{Fills, IsCopyOf, IsNoRoom, RefusesMeaning, RefusesRoom, TestFinds, limits_of, table_bytes};
ghost use Rattle.capnp_canonical.specs.declared.refusal.Refusal.{Refusal};

use crate::refusal::Refusal;
use crate::taking::{Room, lend_words};
use capnp_arena::arena::{ReaderArenaImpl, ReaderOptions, ReaderSegments};
use capnp_messages::messages;
use capnp_messages::messages::Form;
use capnp_pointers::pointers::{CanonicalFault, MessageSize};
use std::alloc::Global;

/// The limits for reading a message.
#[derive(Clone, Copy)]
pub struct Limits {
    /// The nesting limit: how many structs and lists may be inside one another.
    pub nesting: i32,
    /// The traversal limit, in words.
    pub words: u64,
}

impl Limits {
    /// These limits as options of a reader.
    pub fn options(self) -> ReaderOptions
        ensures { result ≡ limits_of self.nesting self.words }
    {
        ReaderOptions {
            nesting_limit: self.nesting,
            traversal_limit_in_words: Some(self.words as usize),
        }
    }
}

/// The segment table of a frame with one segment of `words` words.
fn table(words: u32) -> [u8; 8]
    ensures table { result ≡ 0 ∷ 0 ∷ 0 ∷ 0 ∷ to_le_bytes w32 words }
{
    let [a, b, c, d] = words.to_le_bytes();
    [0, 0, 0, 0, a, b, c, d]
}

/// Writes a frame whose one segment is `segment` to the front of `to`, and returns the frame's size
/// in bytes.
fn put_frame(segment: &[u8], to: &mut [u8]) -> Result<usize, Refusal>
    requires short { length segment.now < 2 ^ 35 }
    ensures put { Fills result to.old to.new (λ bytes. (words : List ℕ)
        → segment.now ≡ bytes_of_words words → bytes ≡ frame (words ∷ [])) }
    ensures refused { IfErr result (λ r. (r ≡ Refusal.NoRoom (8 + length segment.now))
        × (length to.old < 8 + length segment.now)) }
{
    let size = 8 + segment.len();
    if to.len() < size {
        return Err(Refusal::NoRoom(size));
    }
    to[..8].copy_from_slice(&table((segment.len() / 8) as u32));
    to[8..size].copy_from_slice(segment);
    Ok(size)
}

/// Writes `segment` to the front of `to`, and returns the size of `segment` in bytes.
fn put_flat(segment: &[u8], to: &mut [u8]) -> Result<usize, Refusal>
    ensures put { Fills result to.old to.new (λ bytes. bytes ≡ segment.now) }
    ensures refused { IfErr result (λ r. (r ≡ Refusal.NoRoom (length segment.now))
        × (length to.old < length segment.now)) }
{
    let size = segment.len();
    if to.len() < size {
        return Err(Refusal::NoRoom(size));
    }
    to[..size].copy_from_slice(segment);
    Ok(size)
}

/// Writes `segment` to the front of `to`, in a frame or without one, as `form` says. Returns the
/// number of bytes written. Precondition: `segment` has fewer than 2^35 bytes.
pub fn put(form: Form, segment: &[u8], to: &mut [u8]) -> Result<usize, Refusal>
    requires short { length segment.now < 2 ^ 35 }
    ensures put { Fills result to.old to.new (λ bytes. (words : List ℕ)
        → segment.now ≡ bytes_of_words words → bytes ≡ form_bytes form words) }
    ensures refused { IfErr result (λ r.
        (r ≡ Refusal.NoRoom (table_bytes form + length segment.now))
        × (length to.old < table_bytes form + length segment.now)) }
{
    match form {
        Form::Framed => put_frame(segment, to),
        Form::Flat => put_flat(segment, to),
    }
}

/// Makes a canonical copy of the message in `segments`, and writes the copy to the front of `to`,
/// in a frame or without one, as `form` says. Returns the number of bytes written. Precondition:
/// `segments` has fewer than 2^32 segments, each of fewer than 2^32 words. Takes heap memory like
/// `lend_words`.
pub fn copy<S: ReaderSegments + Drop>(
    alloc: Global,
    form: Form,
    segments: S,
    limits: Limits,
    to: &mut [u8],
) -> Result<usize, Refusal>
    requires { IsSmall (S.segments segments) }
    ensures copied { Fills result to.old to.new
        (IsCopyOf form (limits_of limits.nesting limits.words) (message (S.segments segments))) }
    ensures refused { IfErr result (RefusesRoom form (limits_of limits.nesting limits.words)
        (length to.old) (message (S.segments segments))) }
    ensures lent { NeedsNoHeap (limits_of limits.nesting limits.words)
        (message (S.segments segments)) → IfErr result IsNoRoom }
{
    let mut room = Room { form, to };
    match lend_words(alloc, segments, limits, &mut room) {
        Ok(written) => written,
        Err(refusal) => Err(refusal),
    }
}

/// Returns why and where the message in `segments` isn't canonical; `None` if it is. Precondition:
/// `segments` has fewer than 2^32 segments, each of fewer than 2^32 words.
pub fn check<S: ReaderSegments + Drop>(
    segments: S,
    limits: Limits,
) -> Result<Option<CanonicalFault>, Refusal>
    requires { IsSmall (S.segments segments) }
    ensures found { IfOk result (λ o. TestFinds (limits_of limits.nesting limits.words) o
        (message (S.segments segments))) }
    ensures refused { IfErr result
        (RefusesMeaning Command.Check (limits_of limits.nesting limits.words)
        (message (S.segments segments))) }
{
    let options = limits.options();
    let source = ReaderArenaImpl::new(segments, options);
    match messages::check(&source, options.traversal_limit_in_words) {
        Ok(found) => Ok(found),
        Err(kind) => Err(Refusal::Layout(kind)),
    }
}

/// Counts the words and capabilities of the message in `segments`, without the root pointer and
/// landing pads. Precondition: `segments` has fewer than 2^32 segments, each of fewer than 2^32
/// words.
pub fn size<S: ReaderSegments + Drop>(segments: S, limits: Limits) -> Result<MessageSize, Refusal>
    requires { IsSmall (S.segments segments) }
    ensures size { IfOk result (λ z. HasSizeOf (message (S.segments segments))
        (limits_of limits.nesting limits.words) z.word_count z.cap_count) }
    ensures refused { IfErr result
        (RefusesMeaning Command.Size (limits_of limits.nesting limits.words)
        (message (S.segments segments))) }
{
    let options = limits.options();
    let source = ReaderArenaImpl::new(segments, options);
    match messages::size(&source, options.traversal_limit_in_words) {
        Ok(size) => Ok(size),
        Err(kind) => Err(Refusal::Layout(kind)),
    }
}
