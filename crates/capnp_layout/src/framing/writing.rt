//! Writes the value of a `PointerReader` as a canonical frame: `write_canonical` of `capnp_messages`
//! is a call on a `Pointer`.
ghost use Rattle.std.specs.Prelude.{◌≡◌, ◌⊎◌, ◌∷◌, [], false, true, Ok, OnOk, IfErr};
ghost use Rattle.capnp_words.specs.declared.error.ErrorKind.{ErrorKind};
ghost use Rattle.capnp_words.specs.declared.error.ErrorKind.TheVariants.{AllocationFailed};
ghost use Rattle.capnp_format.specs.Canonical.{encoding, trim};
ghost use Rattle.capnp_format.specs.Tree.{Tree};
ghost use Rattle.capnp_arena_traits.specs.Allocations.{max_segment_words};
ghost use Rattle.capnp_framing.specs.Frames.{frame};
ghost use Rattle.capnp_framing.specs.Writing.{IsUnwritten, Prints};
ghost use Rattle.capnp_framing.specs.declared.framing.frame_error.FrameError.{FrameError};
ghost use Rattle.capnp_framing.specs.declared.framing.frame_error.FrameError.TheVariants.{WriteFailed};
ghost use Rattle.capnp_pointers.specs.Values.{value};
ghost use Rattle.capnp_pointers.specs.Wanted.{canonical};
ghost use Rattle.capnp_readers.specs.Readers.{read_by};
ghost use Rattle.capnp_messages.specs.Copies.{RefusesCopy};
ghost use Rattle.capnp_messages.specs.Parts.{to_pointer};

use capnp_arena::arena::ReaderArena;
use capnp_framing::devices::Output;
use capnp_framing::framing::FrameError;
use capnp_messages::messages;
use capnp_messages::messages::CanonicalError;
use capnp_readers::readers::PointerReader;
use capnp_words::read_limiter::ReadLimiter;
use std::alloc::Global;

/// Writes the value of `from` as the frame of a canonical message: one segment with the value's
/// canonical words. Precondition: `output` hasn't failed.
///
/// Copies the value first, like `canonicalize_pointer`, with memory from the heap. `lim` is charged
/// for one copy, and counts each non-null pointer once, even if a segment was too small and the copy
/// was made again.
///
/// Refusals: `Layout`, with the refusal of the copy, if the value can't be copied; `Frame` if the
/// output fails. After `Layout`, nothing has been written, and `lim` is unchanged. After
/// `Frame`, `lim` has been charged for the copy, and how many bytes were written is unspecified.
pub fn write_canonical<W: Output, B: ReaderArena>(
    alloc: Global,
    output: &mut W,
    from: PointerReader<'_, B>,
    lim: &mut ReadLimiter,
) -> Result<(), CanonicalError>
    requires { W.has_failed output.old ≡ false }
    ensures written { OnOk result ((t : Tree)
        × (value canonical (read_by B.ReaderArena from.entry) lim.old ≡ (Ok t, lim.new))
        × Prints W.Output output.old output.new (frame (encoding (trim t) ∷ []))) }
    ensures works { OnOk result (W.has_failed output.new ≡ false) }
    ensures layout { IfErr result (λ e. (k : ErrorKind) → e ≡ CanonicalError.Layout k →
        ((k ≡ AllocationFailed)
        ⊎ RefusesCopy (Ok (to_pointer (read_by B.ReaderArena from.entry)), lim.old)
        max_segment_words k)
        × IsUnwritten W.Output output.old output.new) }
    ensures unread { IfErr result (λ e. (k : ErrorKind) → e ≡ CanonicalError.Layout k
        → lim.new ≡ lim.old) }
    ensures frame { IfErr result (λ e. (f : FrameError) → e ≡ CanonicalError.Frame f →
        (f ≡ WriteFailed) × (W.has_failed output.new ≡ true)) }
    ensures charged { IfErr result (λ e. (f : FrameError) → e ≡ CanonicalError.Frame f →
        (t : Tree) × (value canonical (read_by B.ReaderArena from.entry) lim.old
        ≡ (Ok t, lim.new))) }
{
    messages::write_canonical(alloc, output, from.pointer(), lim)
}
