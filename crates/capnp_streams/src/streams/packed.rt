//! Does a job with each message of a packed stream.
ghost use Rattle.std.specs.Prelude.{◌≡◌, ◌⊎◌, ℕ, List, [], Option, Some, false, true, OnOk, IfOk, IfErr, IfSome, IsSomeAnd};
ghost use Rattle.capnp_packing.specs.Packing.{IsWhole, unpacked_bytes};
ghost use Rattle.capnp_packing.specs.declared.packing.place.Place.TheVariants.{Tag};
ghost use Rattle.capnp_framing.specs.declared.framing.frame_error.FrameError.TheVariants.{ReadFailed};
ghost use Rattle.capnp_streams.specs.Packed.{IsCutAfter, unpacked_stage};
ghost use Rattle.capnp_streams.specs.Streams.{AreDone, AreWorking, CanBeAnswered, EndsAfter, IsOfDevices, IsWriteFault, Stage, WereAnswered, job_refusals_behind, stage_of};

use super::runs::{Stop, Summary, run, stop_after};
use super::stream_error::StreamError;
use super::task::Job;
use capnp_arena::arena::Allocator;
use capnp_framing::devices::{DeviceFault, Input};
use capnp_framing::framing::FrameError;
use capnp_packing::buffered::BufferedOutput;
use capnp_packing::packing::UnpackingInput;
use std::alloc::Global;

/// Unpacks the input `packed` (encoding specification, "Packing"), and does with the unpacked bytes
/// what `run` does with its input. Precondition: neither `packed` nor `output` has failed.
///
/// If the packed bytes end inside a packed word, or where the count after a tag is missing, the run
/// stops with `Truncated`. It has then answered all messages whose frames are complete, and has
/// written nothing for the message that is cut short. The fault `ReadFailed` means that reading
/// from `packed` failed.
pub fn run_packed<A: Allocator, R: Input + Drop, W: BufferedOutput>(
    alloc: Global,
    allocator: A,
    job: Job,
    packed: R,
    output: &mut W,
) -> (Result<Summary, Stop>, A)
    requires { AreWorking R.Input W.Output packed output.old }
    ensures done { IfOk result.0 (AreDone job
        (unpacked_stage (stage_of R.Input W.Output packed output.old))
        (record { input = Some []; output = W.contents output.new })) }
    ensures whole { OnOk result.0 (IfSome (R.remaining packed) (IsWhole Tag)) }
    ensures refused { IfErr result.0 (λ s. (behind : Stage)
        × WereAnswered job
        (unpacked_stage (stage_of R.Input W.Output packed output.old)) behind s
        × (IsWriteFault W.Output output.new s.fault
        ⊎ IsCutAfter (R.remaining packed) behind (W.contents output.new) s.fault
        ⊎ ((left : Option (List ℕ)) × EndsAfter job behind
        (record { input = left; output = W.contents output.new }) true s))) }
    ensures failed { IfErr result.0 (λ s. s.fault ≡ StreamError.Frame ReadFailed
        → IfSome (R.remaining packed) (λ _. (device : R) × (R.has_failed device ≡ true))) }
    ensures exactly { IfErr result.0 (λ s. IsSomeAnd (R.remaining packed)
        (λ bytes. IsWhole Tag bytes × CanBeAnswered job (unpacked_bytes Tag bytes))
        → IsOfDevices s.fault) }
    ensures works { OnOk result.0 (W.has_failed output.new ≡ false) }
    ensures kept { OnOk result.0 (A.refusals result.1 ≡ A.refusals allocator) }
    ensures counted { IfErr result.0 (λ s. A.refusals result.1
        ≡ job_refusals_behind job s.fault (A.refusals allocator)) }
{
    let mut input = UnpackingInput::new(packed);
    let (answered, allocator) = run(alloc, allocator, job, &mut input, output);
    match answered {
        Ok(summary) => match input.is_whole_at_end() {
            Ok(true) => (Ok(summary), allocator),
            Ok(false) => (Err(stop_after(summary, FrameError::Truncated)), allocator),
            Err(DeviceFault) => (Err(stop_after(summary, FrameError::ReadFailed)), allocator),
        },
        Err(stop) => (Err(stop), allocator),
    }
}
