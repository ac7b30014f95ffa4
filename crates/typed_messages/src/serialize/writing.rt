//! Writes messages as frames (encoding specification, "Serialization Over a Stream").
ghost use Rattle.std.specs.Prelude.{◌≡◌, ◌⊎◌, false, true, length, Err, IfErr, OnOk};
ghost use Rattle.capnp_framing.specs.Frames.{CanBeFramed, frame};
ghost use Rattle.capnp_framing.specs.Reading.{IsRefusedNumber};
ghost use Rattle.capnp_framing.specs.Writing.{IsUnwritten, Prints};
ghost use Rattle.capnp_framing.specs.declared.framing.frame_error.FrameError.TheVariants.{AllocationFailed, WriteFailed};

use crate::message::{HeapArena, MessageBuilder};
use capnp_arena::arena::{BuilderArena, ReaderArena};
use capnp_framing::devices::Output;
use capnp_framing::framing::{FrameError, write};

/// Writes a message as a frame: the allocated words of each segment, after a table of the segments'
/// sizes. Takes memory only if there isn't exactly one segment. Precondition: `output` hasn't
/// failed.
///
/// Refusals: `AllocationFailed` if memory runs out; `NoSegments` if there are no segments;
/// `TooManySegments(n)` if there are n segments, and n is above 512. After these refusals, nothing is
/// written. `WriteFailed` if the output failed; after it, how much is written is unspecified.
pub fn write_message<W: Output>(output: &mut W, message: &MessageBuilder) -> Result<(), FrameError>
    requires { W.has_failed output.old ≡ false }
    ensures written { OnOk result (Prints W.Output output.old output.new
        (frame (⟦<HeapArena as BuilderArena>⟧.view message.now.arena).words)) }
    ensures framed { OnOk result
        (CanBeFramed (⟦<HeapArena as BuilderArena>⟧.view message.now.arena).words) }
    ensures works { OnOk result (W.has_failed output.new ≡ false) }
    ensures refused { IfErr result (λ e. (e ≡ WriteFailed)
        ⊎ (((e ≡ AllocationFailed)
        ⊎ IsRefusedNumber (length (⟦<HeapArena as ReaderArena>⟧.segments message.now.arena)) e)
        × IsUnwritten W.Output output.old output.new)) }
    ensures failed { result ≡ Err WriteFailed → W.has_failed output.new ≡ true }
{
    match message.arena.get_segments_for_output() {
        Ok(segments) => write(output, &segments),
        Err(_) => Err(FrameError::AllocationFailed),
    }
}
