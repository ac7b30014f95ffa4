//! Writes a message in canonical form as a frame (encoding specification, "Canonicalization" and
//! "Serialization Over a Stream").
ghost use Rattle.std.specs.Prelude.{◌≡◌, ◌⊎◌, ◌∷◌, ◌<◌, ◌≤◌, ◌*◌, ◌/◌, ◌^◌, [], ℕ, List, false, true, length, Ok, OnOk, IfErr};
ghost use Rattle.capnp_words.specs.declared.error.ErrorKind.{ErrorKind};
ghost use Rattle.capnp_words.specs.declared.error.ErrorKind.TheVariants.{AllocationFailed};
ghost use Rattle.capnp_format.specs.Bytes.{message, words_of};
ghost use Rattle.capnp_format.specs.Canonical.{encoding, trim};
ghost use Rattle.capnp_format.specs.Tree.{Tree};
ghost use Rattle.capnp_arena_traits.specs.Allocations.{max_segment_words};
ghost use Rattle.capnp_framing.specs.Frames.{bytes_of_words, frame};
ghost use Rattle.capnp_framing.specs.Writing.{IsUnwritten, Prints, Writes};
ghost use Rattle.capnp_framing.specs.declared.framing.frame_error.FrameError.{FrameError};
ghost use Rattle.capnp_framing.specs.declared.framing.frame_error.FrameError.TheVariants.{WriteFailed};
ghost use Rattle.capnp_pointers.specs.Values.{value};
ghost use Rattle.capnp_pointers.specs.Wanted.{canonical};
ghost use Rattle.capnp_pointers.specs.Pointers.{reading};
ghost use Rattle.capnp_messages.specs.Commands.{form_bytes};
ghost use Rattle.capnp_messages.specs.Copies.{RefusesCopy};
ghost use Rattle.capnp_messages.specs.Parts.{to_pointer};

use super::canonical_copy::canonicalize_pointer;
use super::canonical_error::CanonicalError;
use super::command::Form;
use super::copy_memory::CopyMemory;
use capnp_arena::arena::{Allocator, BuilderArena, BuilderArenaImpl, OutputSegments, ReaderArena};
use capnp_framing::devices::{DeviceFault, Output, write_all};
use capnp_framing::framing::{FrameError, write};
use capnp_pointers::pointers::Pointer;
use capnp_words::read_limiter::ReadLimiter;
use std::alloc::Global;

/// The bytes of the segment's whole words.
pub(super) fn whole_words(segment: &[u8]) -> &[u8]
    ensures bytes { result.now ≡ bytes_of_words (words_of segment.now) }
    ensures words { words_of result.now ≡ words_of segment.now }
    ensures shorter { length result.now ≤ 8 * (length segment.now / 8) }
{
    &segment[..8 * (segment.len() / 8)]
}

/// The bytes of the words of `made`. Precondition: `made` has exactly one segment.
pub fn canonical_bytes<A: Allocator>(made: &BuilderArenaImpl<A>) -> &[u8]
    requires { length (⟦<BuilderArenaImpl<A> as ReaderArena>⟧.segments made.now) ≡ 1 }
    ensures bytes { (words : List ℕ) →
        (⟦<BuilderArenaImpl<A> as BuilderArena>⟧.view made.now).words ≡ words ∷ []
        → result.now ≡ bytes_of_words words }
    ensures words { message (⟦<BuilderArenaImpl<A> as ReaderArena>⟧.segments made.now)
        ≡ words_of result.now ∷ [] }
    ensures short { length result.now ≤ 8 * max_segment_words }
{
    match made.get_segments_for_output() {
        Ok(OutputSegments::SingleSegment(segment)) => whole_words(segment),
        _ => unreachable!(),
    }
}

/// Writes a frame whose one segment is the whole words of `segment`.
pub(super) fn write_framed<W: Output>(output: &mut W, segment: &[u8]) -> Result<(), DeviceFault>
    requires works { W.has_failed output.old ≡ false }
    requires short { length segment.now < 2 ^ 35 }
    ensures { Writes W.Output result output.old output.new (frame (words_of segment.now ∷ [])) }
{
    match write(output, &OutputSegments::SingleSegment(segment)) {
        Ok(()) => Ok(()),
        Err(_) => Err(DeviceFault),
    }
}

/// Writes `bytes`, in a frame of one segment or without a frame, as `form` says. Preconditions:
/// `output` hasn't failed; `bytes` is whole words, fewer than 2^32.
pub fn write_words<W: Output>(output: &mut W, bytes: &[u8], form: Form) -> Result<(), DeviceFault>
    requires works { W.has_failed output.old ≡ false }
    requires short { length bytes.now < 2 ^ 35 }
    requires whole { bytes.now ≡ bytes_of_words (words_of bytes.now) }
    ensures { Writes W.Output result output.old output.new (form_bytes form (words_of bytes.now)) }
{
    match form {
        Form::Framed => write_framed(output, bytes),
        Form::Flat => write_all(output, bytes),
    }
}

/// Writes the message `made` as a frame. Preconditions: `output` hasn't failed; `made` has exactly
/// one segment. Refuses only with `Frame(WriteFailed)`, if the output fails.
pub fn write_copy<W: Output, A: Allocator>(
    output: &mut W,
    made: &BuilderArenaImpl<A>,
) -> Result<(), CanonicalError>
    requires works { W.has_failed output.old ≡ false }
    requires single { length (⟦<BuilderArenaImpl<A> as ReaderArena>⟧.segments made.now) ≡ 1 }
    ensures written { OnOk result (Prints W.Output output.old output.new
        (frame (⟦<BuilderArenaImpl<A> as BuilderArena>⟧.view made.now).words)) }
    ensures works { OnOk result (W.has_failed output.new ≡ false) }
    ensures refused { IfErr result (λ e. (e ≡ CanonicalError.Frame WriteFailed)
        × (W.has_failed output.new ≡ true)) }
{
    match write_framed(output, canonical_bytes(made)) {
        Ok(()) => Ok(()),
        Err(DeviceFault) => Err(CanonicalError::Frame(FrameError::WriteFailed)),
    }
}

/// Writes the value of `from` as the frame of a canonical message: one segment with the value's
/// canonical words. Precondition: `output` hasn't failed.
///
/// Copies the value first, like `canonicalize_pointer`. `lim` is charged for one copy, and counts
/// each non-null pointer once, even if a segment was too small and the copy was made again.
///
/// Refusals: `Layout` if the value can't be copied, with `MessageTooLarge(536870911)` inside if the
/// copy has more than 536,870,911 words. After `Layout`, nothing is written, and `lim` is
/// unchanged. `Frame(WriteFailed)` if the output fails. After it, `lim` is charged for the copy,
/// and how many bytes of the frame were written is unspecified.
pub fn write_canonical<W: Output, B: ReaderArena>(
    alloc: Global,
    output: &mut W,
    from: Pointer<'_, B>,
    lim: &mut ReadLimiter,
) -> Result<(), CanonicalError>
    requires { W.has_failed output.old ≡ false }
    ensures written { OnOk result ((t : Tree)
        × (value canonical (reading B.ReaderArena from.entry) lim.old ≡ (Ok t, lim.new))
        × Prints W.Output output.old output.new (frame (encoding (trim t) ∷ []))) }
    ensures works { OnOk result (W.has_failed output.new ≡ false) }
    ensures layout { IfErr result (λ e. (k : ErrorKind) → e ≡ CanonicalError.Layout k →
        ((k ≡ AllocationFailed)
        ⊎ RefusesCopy (Ok (to_pointer (reading B.ReaderArena from.entry)), lim.old)
        max_segment_words k)
        × IsUnwritten W.Output output.old output.new) }
    ensures unread { IfErr result (λ e. (k : ErrorKind) → e ≡ CanonicalError.Layout k
        → lim.new ≡ lim.old) }
    ensures frame { IfErr result (λ e. (f : FrameError) → e ≡ CanonicalError.Frame f →
        (f ≡ WriteFailed) × (W.has_failed output.new ≡ true)) }
    ensures charged { IfErr result (λ e. (f : FrameError) → e ≡ CanonicalError.Frame f →
        (t : Tree) × (value canonical (reading B.ReaderArena from.entry) lim.old
        ≡ (Ok t, lim.new))) }
{
    match canonicalize_pointer(alloc, CopyMemory::new(alloc), from, lim) {
        Ok(made) => write_copy(output, &made),
        Err((kind, _)) => Err(CanonicalError::Layout(kind)),
    }
}
