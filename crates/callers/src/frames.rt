//! Functions that read and write frames, and are proved only from the contracts of the calls that
//! do this.
ghost use Rattle.std.specs.Prelude.{◌≡◌, ◌⊎◌, [], Some, false, length, IfOk, IfErr, IsOkAnd, OnOk};
ghost use Rattle.capnp_format.specs.Bytes.{message};
ghost use Rattle.capnp_format.specs.Segments.{Segments};
ghost use Rattle.capnp_framing.specs.Frames.{CanBeFramed, IsFrameOf, frame};
ghost use Rattle.capnp_framing.specs.Reading.{IsRefusedNumber};
ghost use Rattle.capnp_framing.specs.declared.framing.frame_error.FrameError.TheVariants.{AllocationFailed, WriteFailed};
ghost use Rattle.callers.specs.Meaning.{MeansTheSame};

use capnp_arena::arena::{Allocator, BuilderArena, BuilderArenaImpl, ReaderArena, ReaderSegments};
use capnp_framing::devices::{MemoryOutput, Output};
use capnp_framing::framing::{FrameError, FrameSegments, read_from_flat_slice, write};

/// Reads the message in the frame at the start of `bytes`. If `bytes` are exactly one frame, always
/// succeeds, however large the message is.
pub fn read_frame(bytes: &[u8]) -> Result<FrameSegments<'_>, FrameError>
    ensures { (S : Segments) → IsFrameOf S bytes.now → IsOkAnd result
        (λ f. message (⟦<FrameSegments<'static> as ReaderSegments>⟧.segments f) ≡ S) }
{
    match read_from_flat_slice(bytes, u64::MAX)? {
        Some(segments) => Ok(segments),
        None => Err(FrameError::Truncated),
    }
}

/// Writes the message `built` as a frame to `to`. Precondition: `to` is empty, and hasn't failed.
fn write_frame<L: Allocator>(
    built: &BuilderArenaImpl<L>,
    to: &mut MemoryOutput,
) -> Result<(), FrameError>
    requires works { ⟦<MemoryOutput as Output>⟧.has_failed to.old ≡ false }
    requires empty { ⟦<MemoryOutput as Output>⟧.contents to.old ≡ Some [] }
    ensures written { OnOk result (⟦<MemoryOutput as Output>⟧.contents to.new
        ≡ Some (frame (⟦<BuilderArenaImpl<L> as BuilderArena>⟧.view built.now).words)) }
    ensures framed { OnOk result
        (CanBeFramed (⟦<BuilderArenaImpl<L> as BuilderArena>⟧.view built.now).words) }
    ensures refused { IfErr result (λ e. (e ≡ AllocationFailed) ⊎ (e ≡ WriteFailed)
        ⊎ IsRefusedNumber (length (⟦<BuilderArenaImpl<L> as ReaderArena>⟧.segments built.now)) e) }
{
    match built.get_segments_for_output() {
        Ok(output) => write(to, &output),
        Err(_) => Err(FrameError::AllocationFailed),
    }
}

/// Writes the message `built` as a frame to `to`, and reads this frame from the bytes written. Each
/// pointer leads to the same value in the message read as in `built`. Refuses only if memory runs
/// out, or if `built` has no segment or more than 512; never refuses to read the frame that it has
/// written. Precondition: `to` is empty, and hasn't failed.
pub fn write_and_read_frame<'a, L: Allocator>(
    built: &BuilderArenaImpl<L>,
    to: &'a mut MemoryOutput,
) -> Result<FrameSegments<'a>, FrameError>
    requires works { ⟦<MemoryOutput as Output>⟧.has_failed to.old ≡ false }
    requires empty { ⟦<MemoryOutput as Output>⟧.contents to.old ≡ Some [] }
    ensures same { IfOk result (λ f.
        MeansTheSame (⟦<BuilderArenaImpl<L> as BuilderArena>⟧.view built.now).words
        (message (⟦<FrameSegments<'static> as ReaderSegments>⟧.segments f))) }
    ensures refused { IfErr result (λ e. (e ≡ AllocationFailed) ⊎ (e ≡ WriteFailed)
        ⊎ IsRefusedNumber (length (⟦<BuilderArenaImpl<L> as ReaderArena>⟧.segments built.now)) e) }
{
    write_frame(built, &mut *to)?;
    read_frame(to.bytes())
}
