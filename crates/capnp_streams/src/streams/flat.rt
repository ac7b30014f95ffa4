//! Does a job with the one message that an input holds as raw words, without a frame.
ghost use Rattle.std.specs.Prelude.{◌≡◌, ◌⊎◌, true, OnOk, IfOk, IfErr, IsSomeAnd};
ghost use Rattle.capnp_framing.specs.declared.framing.frame_error.FrameError.TheVariants.{ReadFailed};
ghost use Rattle.capnp_framing.specs.Writing.{IsUnwritten};
ghost use Rattle.capnp_streams.specs.Flat.{CanFlatBeAnswered, HasTakenFlat, IsFlatDone, StopsFlat};
ghost use Rattle.capnp_streams.specs.Streams.{AreWorking, IsOfDevices, IsShortIfShown, IsWriteFault, RunsToEnd, job_refusals_behind, stage_of};

use super::answers::{Memory, do_job};
use super::stream_error::StreamError;
use super::task::Job;
use capnp_arena::arena::Allocator;
use capnp_framing::devices::{Input, Output};
use capnp_framing::framing::{OwnedSegments, most_words, read_segment_into_with};
use std::alloc::Global;

/// Does `job` with the one message that the input holds as raw words, and writes the answer.
/// Returns `holds` of `Summary`. Precondition: neither `input` nor `output` has failed.
///
/// All bytes of the input are read as the words of the message's only segment, without a frame, as
/// `Canon` writes them in the form `Flat` (encoding specification, "Canonicalization"). The number
/// of these words may be at most the traversal limit. The answer is the one that `run` writes
/// for the message. An empty input is a segment without words, so without a root pointer; it is
/// refused with `MessageContainsOutOfBoundsPointer`.
///
/// Refusals: `Truncated` if the bytes end inside a word; `MessageTooLong` if there are more words
/// than the limit; the fault of the message, if it can't be copied, tested or measured;
/// `WriteFailed` if the output failed. After any refusal except `WriteFailed`, nothing has been
/// written. If the raw words are a message that has an answer within the limits, the call is
/// refused only if memory runs out, or if the input or the output fails.
///
/// Memory for copies comes from `allocator`. Memory for the bytes read comes from the heap; only if
/// the heap has none, it is requested from `allocator`. So a limit of `allocator` doesn't limit
/// this memory. If the call is refused with `AllocationFailed`, the allocator has counted one more
/// refusal (`A.refusals`); after any other result it has counted none. `Check` and `Size` take
/// memory only for the bytes read.
pub fn run_flat<A: Allocator, R: Input, W: Output>(
    alloc: Global,
    allocator: A,
    job: Job,
    input: &mut R,
    output: &mut W,
) -> (Result<bool, StreamError>, A)
    requires { AreWorking R.Input W.Output input.old output.old }
    ensures done { IfOk result.0 (IsFlatDone job
        (stage_of R.Input W.Output input.old output.old)
        (stage_of R.Input W.Output input.new output.new)) }
    ensures ended { OnOk result.0 (RunsToEnd R.Input W.Output input.old input.new output.new) }
    ensures refused { IfErr result.0 (λ fault. IsWriteFault W.Output output.new fault
        ⊎ (StopsFlat job (R.remaining input.old) (R.has_failed input.new) fault
        × IsUnwritten W.Output output.old output.new)) }
    ensures exactly { IfErr result.0 (λ fault.
        IsSomeAnd (R.remaining input.old) (CanFlatBeAnswered job)
        → IsOfDevices fault) }
    ensures failed { IfErr result.0 (λ fault. R.has_failed input.new ≡ true
        → fault ≡ StreamError.Frame ReadFailed) }
    ensures taken { IfErr result.0 (HasTakenFlat R.Input input.old input.new) }
    ensures bounded { OnOk result.0 (IsShortIfShown W.Output job output.old output.new) }
    ensures kept { OnOk result.0 (A.refusals result.1 ≡ A.refusals allocator) }
    ensures counted { IfErr result.0 (λ fault. A.refusals result.1
        ≡ job_refusals_behind job fault (A.refusals allocator)) }
{
    let mut allocator = allocator;
    let mut segments = OwnedSegments::new(alloc);
    match read_segment_into_with(
        &mut allocator,
        input,
        most_words(job.limits()),
        &mut segments,
    ) {
        Ok(()) => {
            let mut memory = Memory::new(alloc, allocator);
            let done = do_job(&mut memory, job, 1, &segments, output);
            (done, memory.into_allocator())
        }
        Err(error) => (Err(StreamError::Frame(error)), allocator),
    }
}
