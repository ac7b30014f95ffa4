//! Tests whether the root of each message of a stream conforms to a row of a table.
ghost use Rattle.std.specs.Prelude.{◌≡◌, ◌⊎◌, ◌↔◌, ℕ, List, [], Option, Some, false, true, Ok, None, IsOk, OnOk, IfOk, IfErr, IfSome, IsSomeAnd};
ghost use Rattle.std.specs.Io.KnownBytes.{IsAtEnd, Keeps};
ghost use Rattle.capnp_format.specs.Bytes.{message};
ghost use Rattle.capnp_arena_traits.specs.Limits.{IsSmall};
ghost use Rattle.capnp_framing.specs.Wholeness.{KeepsWhole};
ghost use Rattle.capnp_framing.specs.Writing.{IsUnwritten, Writes};
ghost use Rattle.capnp_framing.specs.declared.framing.frame_error.FrameError.TheVariants.{ReadFailed};
ghost use Rattle.capnp_packing.specs.Packing.{IsWhole, unpacked_bytes};
ghost use Rattle.capnp_packing.specs.declared.packing.place.Place.TheVariants.{Tag};
ghost use Rattle.capnp_streams.specs.Packed.{unpacked_stage};
ghost use Rattle.capnp_streams.specs.Streams.{AreWorking, RunsToEnd, Stage, stage_of};
ghost use Rattle.typed_streams.specs.Conforming.{AreConforming, AreConformingWords, AreRawWordsTested, AreTested, CutsTest, EndsTest, FailsToWrite, IsConforming, IsMisfitOf, IsNoMisfit, StopsRawTest, StopsTest, Wanted, refusals_of_test, yes_line};

use capnp_arena::arena::{Allocator, ReaderArenaImpl, ReaderOptions, ReaderSegments};
use capnp_framing::devices::{DeviceFault, Input, Output, write_all};
use capnp_framing::framing::{
    FrameError, OwnedSegments, most_words, read_into_with, read_segment_into_with,
};
use capnp_messages::messages::read_root;
use capnp_packing::buffered::{BufferedInput, BufferedOutput, flush_before_waiting};
use capnp_packing::packing::UnpackingInput;
use capnp_words::read_limiter::ReadLimiter;
use std::alloc::Global;
use typed_conforming::conforms::conforms;
use typed_conforming::schema::{Kind, Misfit};

/// The messages of a stream that were tested and conform.
#[derive(Clone, Copy, Debug, PartialEq, Eq)]
pub struct TestedMessages {
    /// The number of messages.
    pub messages: u64,
    /// The total size of their frames in bytes, at most `u64::MAX`.
    pub bytes: u64,
}

/// Why a message of a stream isn't said to conform.
#[derive(Clone, Copy, Debug, PartialEq, Eq)]
pub enum ConformingFault {
    /// The message's frame can't be read, or the output fails.
    Frame(FrameError),
    /// The message doesn't conform, or can't be read within the limits: why, and at which of its
    /// pointers.
    Misfit(Misfit),
    /// There are more messages than a `u64` can count.
    TooManyMessages,
}

/// Where and why testing a stream stopped.
#[derive(Clone, Copy, Debug, PartialEq, Eq)]
pub struct ConformingStop {
    /// The number of messages that conform.
    pub tested: u64,
    /// The byte of the input at which the frame of the next message begins, counted from 0: the
    /// total size of the frames before it, at most `u64::MAX`. For a packed input, this is a
    /// position in the unpacked bytes.
    pub byte: u64,
    /// Why the next message isn't said to conform.
    pub fault: ConformingFault,
}

/// Tests whether the root of the message in `segments` means a value within `limits` that conforms
/// to the row at `row` of `table`.
///
/// Refuses like `read_root`, then at word 0 of segment 0, and like `conforms`: with the first
/// pointer, in its order, that can't be read or doesn't conform. Precondition: `segments` has fewer
/// than 2^32 segments, each of fewer than 2^32 words.
pub fn test_message<S: ReaderSegments + Drop>(
    table: &[u32],
    row: u32,
    limits: ReaderOptions,
    segments: S,
) -> Result<(), Misfit>
    requires { IsSmall (S.segments segments) }
    ensures exactly { let w : Wanted = record { table = table.now; row = row; limits = limits } in
        IsOk result ↔ IsConforming w (message (S.segments segments)) }
    ensures refused { let w : Wanted = record { table = table.now; row = row; limits = limits } in
        IfErr result (IsMisfitOf w (message (S.segments segments))) }
{
    let arena = ReaderArenaImpl::new(segments, limits);
    let mut lim = ReadLimiter::new(limits.traversal_limit_in_words);
    match read_root(&arena, &mut lim) {
        Ok(root) => conforms(table, Kind::Struct(row), &root, &mut lim),
        Err(error) => Err(Misfit {
            error,
            segment: 0,
            word: 0,
            row: 0,
            index: 0,
        }),
    }
}

/// Writes the line about a message that conforms.
#[tactic(auto, unfolding(crate::specs::Conforming::yes_line))]
fn write_yes<W: Output>(output: &mut W) -> Result<(), DeviceFault>
    requires { W.has_failed output.old ≡ false }
    ensures { Writes W.Output result output.old output.new yes_line }
{
    write_all(output, b"conforms\n")
}

/// Reads the next message, tests it, and writes the line about it. Returns the size of its frame in
/// bytes, or `None` at the end of the input.
///
/// Precondition: the whole frame of the message is in the input's buffer, or the output has flushed
/// all its bytes. So no read waits for a sender while the output still holds a line.
fn test_next<A: Allocator, R: BufferedInput, W: BufferedOutput>(
    allocator: &mut A,
    table: &[u32],
    row: u32,
    limits: ReaderOptions,
    input: &mut R,
    segments: &mut OwnedSegments,
    output: &mut W,
) -> Result<Option<u64>, ConformingFault>
    requires work { AreWorking R.Input W.Output input.old output.old }
    requires passed_on { R.has_enough input.old ⊎ (W.kept output.old ≡ 0) }
    ensures end { result ≡ Ok None → IsAtEnd (R.remaining input.old)
        × IsAtEnd (R.remaining input.new)
        × Keeps (W.contents output.old) (W.contents output.new) }
    ensures tested { IfOk result (λ m. IfSome m (λ size.
        AreTested (record { table = table.now; row = row; limits = limits })
        (stage_of R.Input W.Output input.old output.old)
        (stage_of R.Input W.Output input.new output.new) 1 size)) }
    ensures whole { OnOk result (KeepsWhole (R.ends_whole input.old) (R.ends_whole input.new)) }
    ensures work { OnOk result (AreWorking R.Input W.Output input.new output.new) }
    ensures failed { IfErr result (λ e. R.has_failed input.new ≡ true
        → e ≡ ConformingFault.Frame ReadFailed) }
    ensures refused { IfErr result (λ e. FailsToWrite W.Output output.new e
        ⊎ (StopsTest (record { table = table.now; row = row; limits = limits })
        (R.remaining input.old) (R.remaining input.new) (R.has_failed input.new) e
        × Keeps (W.contents output.old) (W.contents output.new))) }
    ensures kept { OnOk result (A.refusals allocator.new ≡ A.refusals allocator.old) }
    ensures counted { IfErr result (λ e. A.refusals allocator.new
        ≡ refusals_of_test e (A.refusals allocator.old)) }
{
    match read_into_with(allocator, input, most_words(limits), segments) {
        Ok(false) => Ok(None),
        Ok(true) => match test_message(table, row, limits, &*segments) {
            Ok(()) => match write_yes(output) {
                Ok(()) => Ok(Some(segments.size_in_bytes() as u64)),
                Err(DeviceFault) => Err(ConformingFault::Frame(FrameError::WriteFailed)),
            },
            Err(misfit) => Err(ConformingFault::Misfit(misfit)),
        },
        Err(error) => Err(ConformingFault::Frame(error)),
    }
}

/// Flushes the lines so far, unless the next message is already in the input's buffer; then reads
/// and tests this message. Returns `None` at the end of the input.
fn flush_and_test_next<A: Allocator, R: BufferedInput, W: BufferedOutput>(
    allocator: &mut A,
    table: &[u32],
    row: u32,
    limits: ReaderOptions,
    input: &mut R,
    segments: &mut OwnedSegments,
    output: &mut W,
) -> Result<Option<u64>, ConformingFault>
    requires work { AreWorking R.Input W.Output input.old output.old }
    ensures end { result ≡ Ok None → IsAtEnd (R.remaining input.old)
        × IsAtEnd (R.remaining input.new)
        × Keeps (W.contents output.old) (W.contents output.new) }
    ensures tested { IfOk result (λ m. IfSome m (λ size.
        AreTested (record { table = table.now; row = row; limits = limits })
        (stage_of R.Input W.Output input.old output.old)
        (stage_of R.Input W.Output input.new output.new) 1 size)) }
    ensures whole { OnOk result (KeepsWhole (R.ends_whole input.old) (R.ends_whole input.new)) }
    ensures work { OnOk result (AreWorking R.Input W.Output input.new output.new) }
    ensures failed { IfErr result (λ e. R.has_failed input.new ≡ true
        → e ≡ ConformingFault.Frame ReadFailed) }
    ensures refused { IfErr result (λ e. FailsToWrite W.Output output.new e
        ⊎ (StopsTest (record { table = table.now; row = row; limits = limits })
        (R.remaining input.old) (R.remaining input.new) (R.has_failed input.new) e
        × Keeps (W.contents output.old) (W.contents output.new))) }
    ensures kept { OnOk result (A.refusals allocator.new ≡ A.refusals allocator.old) }
    ensures counted { IfErr result (λ e. A.refusals allocator.new
        ≡ refusals_of_test e (A.refusals allocator.old)) }
{
    if flush_before_waiting(input, output).is_err() {
        return Err(ConformingFault::Frame(FrameError::WriteFailed));
    }
    test_next(allocator, table, row, limits, input, segments, output)
}

/// Tests each message of the input, a stream of frames, like `test_message`, and writes the line
/// `conforms` for each that conforms. The number of words of each message may be at most the
/// traversal limit. The limits apply to each message separately. Precondition: neither `input` nor
/// `output` has failed.
///
/// Stops at the first message that doesn't conform or whose frame can't be read, and then writes
/// nothing about this message. If all messages of the input conform, stops only if memory runs out,
/// if the input or the output fails, or if there are more messages than a `u64` can count. Before a
/// read that may wait for input, flushes all lines.
///
/// Memory for the frames read is reused from one message to the next. It comes from the heap; only
/// if the heap has none, it is requested from `allocator`. If the test stops with
/// `AllocationFailed`, the allocator has counted one more refusal (`A.refusals`); after any other
/// result it has counted none.
pub fn test_stream<A: Allocator, R: BufferedInput, W: BufferedOutput>(
    alloc: Global,
    allocator: &mut A,
    table: &[u32],
    row: u32,
    limits: ReaderOptions,
    input: &mut R,
    output: &mut W,
) -> Result<TestedMessages, ConformingStop>
    requires { AreWorking R.Input W.Output input.old output.old }
    ensures done { IfOk result (λ t.
        AreTested (record { table = table.now; row = row; limits = limits })
        (stage_of R.Input W.Output input.old output.old)
        (record { input = Some []; output = W.contents output.new }) t.messages t.bytes) }
    ensures ended { OnOk result (RunsToEnd R.Input W.Output input.old input.new output.new) }
    ensures refused { IfErr result (λ s. (behind : Stage)
        × AreTested (record { table = table.now; row = row; limits = limits })
        (stage_of R.Input W.Output input.old output.old) behind s.tested s.byte
        × (FailsToWrite W.Output output.new s.fault
        ⊎ EndsTest (record { table = table.now; row = row; limits = limits }) behind
        (stage_of R.Input W.Output input.new output.new) (R.has_failed input.new) s)) }
    ensures exactly { IfErr result (λ s. IsSomeAnd (R.remaining input.old)
        (AreConforming (record { table = table.now; row = row; limits = limits }))
        → IsNoMisfit s.fault) }
    ensures failed { IfErr result (λ s. R.has_failed input.new ≡ true
        → s.fault ≡ ConformingFault.Frame ReadFailed) }
    ensures kept { OnOk result (A.refusals allocator.new ≡ A.refusals allocator.old) }
    ensures counted { IfErr result (λ s. A.refusals allocator.new
        ≡ refusals_of_test s.fault (A.refusals allocator.old)) }
{
    let mut segments = OwnedSegments::new(alloc);
    let mut bytes = 0u64;
    for messages in 0..u64::MAX {
        match flush_and_test_next(allocator, table, row, limits, input, &mut segments, output) {
            Ok(None) => return Ok(TestedMessages { messages, bytes }),
            Ok(Some(size)) => bytes = bytes.saturating_add(size),
            Err(fault) => {
                return Err(ConformingStop {
                    tested: messages,
                    byte: bytes,
                    fault,
                });
            }
        }
    }
    Err(ConformingStop {
        tested: u64::MAX,
        byte: bytes,
        fault: ConformingFault::TooManyMessages,
    })
}

/// Returns the stop with the fault `error`, after the messages that `tested` counts.
fn stop_after(tested: TestedMessages, error: FrameError) -> ConformingStop
    ensures tested { result.tested ≡ tested.messages }
    ensures byte { result.byte ≡ tested.bytes }
    ensures fault { result.fault ≡ ConformingFault.Frame error }
{
    ConformingStop {
        tested: tested.messages,
        byte: tested.bytes,
        fault: ConformingFault::Frame(error),
    }
}

/// Unpacks the input `packed` (encoding specification, "Packing"), and tests the messages of the
/// unpacked bytes like `test_stream`. Precondition: neither `packed` nor `output` has failed.
///
/// If the packed bytes end inside a packed word, or where the count after a tag is missing, stops
/// with `Truncated`, after the messages whose frames are complete. The fault `ReadFailed` means
/// that reading from `packed` failed.
pub fn test_packed_stream<A: Allocator, R: Input + Drop, W: BufferedOutput>(
    alloc: Global,
    allocator: &mut A,
    table: &[u32],
    row: u32,
    limits: ReaderOptions,
    packed: R,
    output: &mut W,
) -> Result<TestedMessages, ConformingStop>
    requires { AreWorking R.Input W.Output packed output.old }
    ensures done { IfOk result (λ t.
        AreTested (record { table = table.now; row = row; limits = limits })
        (unpacked_stage (stage_of R.Input W.Output packed output.old))
        (record { input = Some []; output = W.contents output.new }) t.messages t.bytes) }
    ensures whole { OnOk result (IfSome (R.remaining packed) (IsWhole Tag)) }
    ensures refused { IfErr result (λ s. (behind : Stage)
        × AreTested (record { table = table.now; row = row; limits = limits })
        (unpacked_stage (stage_of R.Input W.Output packed output.old)) behind s.tested s.byte
        × (FailsToWrite W.Output output.new s.fault
        ⊎ CutsTest (R.remaining packed) behind (W.contents output.new) s.fault
        ⊎ ((left : Option (List ℕ))
        × EndsTest (record { table = table.now; row = row; limits = limits }) behind
        (record { input = left; output = W.contents output.new }) true s))) }
    ensures failed { IfErr result (λ s. s.fault ≡ ConformingFault.Frame ReadFailed
        → IfSome (R.remaining packed) (λ _. (device : R) × (R.has_failed device ≡ true))) }
    ensures exactly { IfErr result (λ s. IsSomeAnd (R.remaining packed) (λ bytes. IsWhole Tag bytes
        × AreConforming (record { table = table.now; row = row; limits = limits })
        (unpacked_bytes Tag bytes)) → IsNoMisfit s.fault) }
    ensures works { OnOk result (W.has_failed output.new ≡ false) }
    ensures kept { OnOk result (A.refusals allocator.new ≡ A.refusals allocator.old) }
    ensures counted { IfErr result (λ s. A.refusals allocator.new
        ≡ refusals_of_test s.fault (A.refusals allocator.old)) }
{
    let mut input = UnpackingInput::new(packed);
    match test_stream(alloc, allocator, table, row, limits, &mut input, output) {
        Ok(tested) => match input.is_whole_at_end() {
            Ok(true) => Ok(tested),
            Ok(false) => Err(stop_after(tested, FrameError::Truncated)),
            Err(DeviceFault) => Err(stop_after(tested, FrameError::ReadFailed)),
        },
        Err(stop) => Err(stop),
    }
}

/// Tests the one message that the input holds as raw words, without a frame, like `test_message`,
/// and writes the line `conforms` if it conforms. The number of these words may be at most the
/// traversal limit. Precondition: neither `input` nor `output` has failed.
///
/// Refusals: `Truncated` if the bytes end inside a word; `MessageTooLong` if there are more words
/// than the limit; the misfit of the message; `WriteFailed` if the output failed. After any refusal
/// except `WriteFailed`, nothing has been written.
///
/// Memory for the bytes read comes from the heap; only if the heap has none, it is requested from
/// `allocator`, which counts refusals like that of `test_stream`.
pub fn test_raw_words<A: Allocator, R: Input, W: Output>(
    alloc: Global,
    allocator: &mut A,
    table: &[u32],
    row: u32,
    limits: ReaderOptions,
    input: &mut R,
    output: &mut W,
) -> Result<(), ConformingFault>
    requires { AreWorking R.Input W.Output input.old output.old }
    ensures done { OnOk result (AreRawWordsTested
        (record { table = table.now; row = row; limits = limits })
        (stage_of R.Input W.Output input.old output.old)
        (stage_of R.Input W.Output input.new output.new)) }
    ensures ended { OnOk result (RunsToEnd R.Input W.Output input.old input.new output.new) }
    ensures refused { IfErr result (λ fault. FailsToWrite W.Output output.new fault
        ⊎ (StopsRawTest (record { table = table.now; row = row; limits = limits })
        (R.remaining input.old) (R.has_failed input.new) fault
        × IsUnwritten W.Output output.old output.new)) }
    ensures exactly { IfErr result (λ fault. IsSomeAnd (R.remaining input.old)
        (AreConformingWords (record { table = table.now; row = row; limits = limits }))
        → IsNoMisfit fault) }
    ensures failed { IfErr result (λ fault. R.has_failed input.new ≡ true
        → fault ≡ ConformingFault.Frame ReadFailed) }
    ensures kept { OnOk result (A.refusals allocator.new ≡ A.refusals allocator.old) }
    ensures counted { IfErr result (λ fault. A.refusals allocator.new
        ≡ refusals_of_test fault (A.refusals allocator.old)) }
{
    let mut segments = OwnedSegments::new(alloc);
    match read_segment_into_with(allocator, input, most_words(limits), &mut segments) {
        Ok(()) => match test_message(table, row, limits, &segments) {
            Ok(()) => match write_yes(output) {
                Ok(()) => Ok(()),
                Err(DeviceFault) => Err(ConformingFault::Frame(FrameError::WriteFailed)),
            },
            Err(misfit) => Err(ConformingFault::Misfit(misfit)),
        },
        Err(error) => Err(ConformingFault::Frame(error)),
    }
}
