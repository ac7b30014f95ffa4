//! Compares the messages of two streams.
ghost use Rattle.std.specs.Prelude.{◌≡◌, ◌⊎◌, ◌&&◌, ◌<◌, ◌+◌, ◌^◌, ℕ, List, Ok, Some, false, true, is_none, IfErr, IfOk, IfSome, IsNone, OnErr, OnOk};
ghost use Rattle.std.specs.Io.KnownBytes.{IsAtEnd, Keeps};
ghost use Rattle.capnp_arena_traits.specs.Limits.{IsSmall};
ghost use Rattle.capnp_format.specs.Bytes.{message};
ghost use Rattle.capnp_framing.specs.Bare.{IsSegmentRead};
ghost use Rattle.capnp_framing.specs.Limits.{most_words};
ghost use Rattle.capnp_framing.specs.Reading.{KeepsInput};
ghost use Rattle.capnp_framing.specs.Wholeness.{KeepsWhole};
ghost use Rattle.capnp_framing.specs.Writing.{IsUnwritten, Prints, Writes};
ghost use Rattle.capnp_messages.specs.Messages.{IsReadable};
ghost use Rattle.capnp_streams.specs.Diffs.{AreAllCompared, AreAllWorking, AreFlatCompared, IsCompared, IsDiffCut, IsDiffStopped, IsNextRead, IsDiffStep, IsUnsound, StopsDiff, StopsFlatDiff, WhyUncompared};
ghost use Rattle.capnp_streams.specs.Diffs.{EndsNotWhole, EndsRead, EndsStep, IsNotWhole, IsPackedCompared, IsPackedStopped, KeepWholeUnless};
ghost use Rattle.capnp_streams.specs.Diffs.{diff_devices, diff_fault, diff_stage, end_line, message_text, no_pairs, pair_of, side_refusal, side_text, unmatched_line, unpacked_stages, validating, with_pair};
ghost use Rattle.capnp_streams.specs.Flat.{StopsFlat};
ghost use Rattle.capnp_streams.specs.Streams.{StopsAt};
ghost use Rattle.capnp_streams.specs.declared.streams.diffs.Compared.{Compared};
ghost use Rattle.capnp_streams.specs.declared.streams.stream_error.StreamError.{StreamError};

use super::parts::validate;
use super::runs::Stop;
use super::stream_error::StreamError;
use super::task::DiffTask;
use capnp_arena::arena::{ReaderOptions, ReaderSegments};
use capnp_framing::devices::{DeviceFault, Input, Output, write_all};
use capnp_framing::framing::{FrameError, OwnedSegments, most_words, read_into, read_segment_into};
use capnp_messages::messages::Command;
use capnp_messages::text::write_number;
use capnp_packing::buffered::{BufferedInput, BufferedOutput, flush_before_waiting};
use capnp_packing::packing::UnpackingInput;
use capnp_refusals::refusals::pointer_of_refusal;
use capnp_show::show::{CompareFault, compare_messages};
use std::alloc::Global;

/// One of the two inputs.
#[derive(Clone, Copy, Debug, PartialEq, Eq)]
pub enum Side {
    Left,
    Right,
}

/// The result of a run that has compared all messages that both inputs have.
#[derive(Clone, Copy, Debug, PartialEq, Eq)]
pub struct Compared {
    /// Whether the lines of each two messages are equal, and there are as many in both inputs.
    pub is_same: bool,
    /// The number of messages that both inputs have.
    pub messages: u64,
    /// The input that has more messages.
    pub longer: Option<Side>,
    /// The total size of the frames of these messages in `left`, in bytes, at most `u64::MAX`.
    pub left_bytes: u64,
    /// The same in `right`.
    pub right_bytes: u64,
}

/// Why comparing stopped.
#[derive(Clone, Copy, Debug, PartialEq, Eq)]
pub enum DiffFault {
    /// The next message of this input is refused: its frame can't be read, or it isn't sound.
    Refused(Side, Stop),
    /// The messages of this number are too long to be compared.
    TooLong(u64),
    /// Memory ran out.
    AllocationFailed,
    /// Writing to the output failed.
    WriteFailed,
}

/// The result for two messages that were compared.
#[derive(Clone, Copy)]
struct ComparedPair {
    /// Whether their lines are equal.
    is_same: bool,
    /// The size of the first message's frame in bytes.
    left_bytes: u64,
    /// The same of the second one.
    right_bytes: u64,
}

/// What a step of a run did.
#[derive(Clone, Copy)]
enum DiffStep {
    /// It compared two messages.
    Pair(ComparedPair),
    /// One of the inputs, or both, have no more messages; this one has.
    Ended(Option<Side>),
}

/// The messages that were read last.
#[derive(Drop)]
struct MessagePair {
    left: OwnedSegments,
    right: OwnedSegments,
}

impl MessagePair {
    /// Makes the messages of a run before its first step.
    fn new(alloc: Global) -> Self {
        MessagePair {
            left: OwnedSegments::new(alloc),
            right: OwnedSegments::new(alloc),
        }
    }
}

impl Compared {
    /// The result before the first two messages.
    fn none() -> Self
        ensures { result ≡ no_pairs }
    {
        Compared {
            is_same: true,
            messages: 0,
            longer: None,
            left_bytes: 0,
            right_bytes: 0,
        }
    }

    /// The result after two more messages.
    fn with_pair(self, pair: ComparedPair) -> Self
        requires { self.messages + 1 < 2 ^ 64 }
        ensures { result ≡ with_pair self pair }
    {
        Compared {
            is_same: self.is_same && pair.is_same,
            messages: self.messages + 1,
            longer: None,
            left_bytes: self.left_bytes.saturating_add(pair.left_bytes),
            right_bytes: self.right_bytes.saturating_add(pair.right_bytes),
        }
    }

    /// The result at the end of the inputs, or of one if `longer` has more messages.
    fn ended(self, longer: Option<Side>) -> Self
        ensures { result ≡ record self {
          is_same = self.is_same && is_none longer;
          longer = longer;
        } }
    {
        Compared {
            is_same: self.is_same && longer.is_none(),
            longer,
            ..self
        }
    }

    /// The fault if the next message of this input is refused.
    fn refusal(self, side: Side, fault: StreamError) -> DiffFault
        ensures { result ≡ side_refusal self side fault }
    {
        let byte = match side {
            Side::Left => self.left_bytes,
            Side::Right => self.right_bytes,
        };
        DiffFault::Refused(
            side,
            Stop {
                answered: self.messages,
                byte,
                fault,
            },
        )
    }
}

/// Reads the next message of an input, and tests whether it is sound. Returns `false` at the end of
/// the input.
fn read_next<R: Input>(
    limits: ReaderOptions,
    input: &mut R,
    into: &mut OwnedSegments,
) -> Result<bool, StreamError>
    requires { R.has_failed input.old ≡ false }
    ensures next { IfOk result (λ has. IsNextRead R.Input limits input.old input.new has
        (message (⟦<OwnedSegments as ReaderSegments>⟧.segments into.new))) }
    ensures small { OnOk result (IsSmall (⟦<OwnedSegments as ReaderSegments>⟧.segments into.new)) }
    ensures input { KeepsInput R.Input result input.old input.new }
    ensures refused { IfErr result (StopsAt (validating limits) (R.remaining input.old)
        (R.remaining input.new) (R.has_failed input.new)) }
{
    match read_into(input, most_words(limits), into) {
        Ok(true) => match unsound_fault(into, limits) {
            None => Ok(true),
            Some(fault) => Err(fault),
        },
        Ok(false) => Ok(false),
        Err(error) => Err(StreamError::Frame(error)),
    }
}

/// Reads the raw words of the one message of an input, and tests whether it is sound.
fn read_flat<R: Input>(
    limits: ReaderOptions,
    input: &mut R,
    into: &mut OwnedSegments,
) -> Result<(), StreamError>
    requires { R.has_failed input.old ≡ false }
    ensures read { OnOk result (IsSegmentRead R.Input input.old input.new (most_words limits)
        (⟦<OwnedSegments as ReaderSegments>⟧.segments into.new)) }
    ensures end { OnOk result (IsAtEnd (R.remaining input.new)) }
    ensures sound { OnOk result (IsReadable
        (message (⟦<OwnedSegments as ReaderSegments>⟧.segments into.new)) limits) }
    ensures small { OnOk result (IsSmall (⟦<OwnedSegments as ReaderSegments>⟧.segments into.new)) }
    ensures works { OnOk result (R.has_failed input.new ≡ false) }
    ensures refused { IfErr result (StopsFlat (validating limits) (R.remaining input.old)
        (R.has_failed input.new)) }
{
    match read_segment_into(input, most_words(limits), into) {
        Ok(()) => match unsound_fault(into, limits) {
            None => Ok(()),
            Some(fault) => Err(fault),
        },
        Err(error) => Err(StreamError::Frame(error)),
    }
}

/// Why the message isn't sound; `None` if its whole value can be read within the limits.
fn unsound_fault(segments: &OwnedSegments, limits: ReaderOptions) -> Option<StreamError>
    requires { IsSmall (⟦<OwnedSegments as ReaderSegments>⟧.segments segments.now) }
    ensures sound { IsNone result
        → IsReadable (message (⟦<OwnedSegments as ReaderSegments>⟧.segments segments.now)) limits }
    ensures fault { IfSome result
        (IsUnsound limits (message (⟦<OwnedSegments as ReaderSegments>⟧.segments segments.now))) }
{
    match validate(segments, limits) {
        Ok(_) => None,
        Err(kind) => {
            let pointer = pointer_of_refusal(kind, Command::Validate, segments, limits);
            Some(StreamError::Layout(kind, pointer))
        }
    }
}

/// Compares two messages, which are sound. They are message `number` of their inputs.
fn compare<W: Output>(
    alloc: Global,
    limits: ReaderOptions,
    number: u64,
    read: &MessagePair,
    output: &mut W,
) -> Result<bool, DiffFault>
    requires left { IsSmall (⟦<OwnedSegments as ReaderSegments>⟧.segments read.now.left) }
    requires right { IsSmall (⟦<OwnedSegments as ReaderSegments>⟧.segments read.now.right) }
    requires left_sound { IsReadable
        (message (⟦<OwnedSegments as ReaderSegments>⟧.segments read.now.left)) limits }
    requires right_sound { IsReadable
        (message (⟦<OwnedSegments as ReaderSegments>⟧.segments read.now.right)) limits }
    requires works { W.has_failed output.old ≡ false }
    ensures compared { IfOk result (λ is_same. (text : List ℕ) × IsCompared limits
        (pair_of (⟦<OwnedSegments as ReaderSegments>⟧.segments read.now.left)
        (⟦<OwnedSegments as ReaderSegments>⟧.segments read.now.right)) is_same text
        × Prints W.Output output.old output.new text) }
    ensures same { result ≡ Ok true → IsUnwritten W.Output output.old output.new }
    ensures works { OnOk result (W.has_failed output.new ≡ false) }
    ensures refused { IfErr result (WhyUncompared W.Output limits (record {
      number = number;
      pair = pair_of
          (⟦<OwnedSegments as ReaderSegments>⟧.segments read.now.left)
          (⟦<OwnedSegments as ReaderSegments>⟧.segments read.now.right);
    }) output.old output.new) }
{
    match compare_messages(alloc, limits, number, &read.left, &read.right, output) {
        Ok(is_same) => Ok(is_same),
        Err(fault) => Err(fault_of_message(number, fault)),
    }
}

/// The fault of a run if message `number` of its inputs isn't compared.
fn fault_of_message(number: u64, fault: CompareFault) -> DiffFault
    ensures { result ≡ diff_fault number fault }
{
    match fault {
        CompareFault::AllocationFailed => DiffFault::AllocationFailed,
        CompareFault::TooLong => DiffFault::TooLong(number),
        CompareFault::WriteFailed => DiffFault::WriteFailed,
    }
}

/// Reads the next message of each input, and compares them.
///
/// Precondition: `counts` says what was compared before.
fn compare_next<L: Input, R: Input, W: Output>(
    alloc: Global,
    limits: ReaderOptions,
    counts: Compared,
    read: &mut MessagePair,
    left: &mut L,
    right: &mut R,
    output: &mut W,
) -> Result<DiffStep, DiffFault>
    requires works { AreAllWorking L.Input R.Input W.Output left.old right.old output.old }
    requires few { counts.messages + 1 < 2 ^ 64 }
    ensures step { IfOk result (IsDiffStep limits
        (diff_stage L.Input R.Input W.Output left.old right.old output.old)
        (diff_stage L.Input R.Input W.Output left.new right.new output.new)) }
    ensures whole_left { OnOk result (KeepsWhole (L.ends_whole left.old) (L.ends_whole left.new)) }
    ensures whole_right { OnOk result
        (KeepsWhole (R.ends_whole right.old) (R.ends_whole right.new)) }
    ensures works { OnOk result
        (AreAllWorking L.Input R.Input W.Output left.new right.new output.new) }
    ensures ended { IfOk result (λ step.
        EndsStep step (L.remaining left.new) (R.remaining right.new)) }
    ensures refused { IfErr result (StopsDiff limits
        (diff_stage L.Input R.Input W.Output left.old right.old output.old)
        (diff_devices L.Input R.Input W.Output left.new right.new output.new) counts) }
{
    let has_left = match read_next(limits, left, &mut read.left) {
        Ok(has) => has,
        Err(fault) => return Err(counts.refusal(Side::Left, fault)),
    };
    let has_right = match read_next(limits, right, &mut read.right) {
        Ok(has) => has,
        Err(fault) => return Err(counts.refusal(Side::Right, fault)),
    };
    if !has_left && !has_right {
        return Ok(DiffStep::Ended(None));
    }
    if !has_left {
        return Ok(DiffStep::Ended(Some(Side::Right)));
    }
    if !has_right {
        return Ok(DiffStep::Ended(Some(Side::Left)));
    }
    match compare(alloc, limits, counts.messages + 1, &*read, output) {
        Ok(is_same) => Ok(DiffStep::Pair(ComparedPair {
            is_same,
            left_bytes: read.left.size_in_bytes() as u64,
            right_bytes: read.right.size_in_bytes() as u64,
        })),
        Err(fault) => Err(fault),
    }
}

/// Writes the number of a message.
#[tactic(auto, unfolding(crate::specs::Diffs::message_text))]
fn write_message_number<W: Output>(output: &mut W, number: u64) -> Result<(), DeviceFault>
    requires { W.has_failed output.old ≡ false }
    ensures { Writes W.Output result output.old output.new (message_text number) }
{
    write_all(output, b"message ")?;
    write_number(output, number)
}

/// Writes that only one input has message `number`.
fn write_unmatched_line<W: Output>(
    output: &mut W,
    number: u64,
    side: Side,
) -> Result<(), DeviceFault>
    requires { W.has_failed output.old ≡ false }
    ensures { Writes W.Output result output.old output.new (unmatched_line number side) }
{
    write_message_number(output, number)?;
    match side {
        Side::Left => write_all(output, b": only in the first file\n"),
        Side::Right => write_all(output, b": only in the second file\n"),
    }
}

/// Writes that the input `longer`, if there is one, has message `number`.
fn write_end<W: Output>(
    output: &mut W,
    number: u64,
    longer: Option<Side>,
) -> Result<(), DeviceFault>
    requires { W.has_failed output.old ≡ false }
    ensures { Writes W.Output result output.old output.new (end_line longer number) }
{
    match longer {
        Some(side) => write_unmatched_line(output, number, side),
        None => Ok(()),
    }
}

/// Flushes the output, unless the next messages of both inputs are already in their buffers.
fn flush_before_reading<L: BufferedInput, R: BufferedInput, W: BufferedOutput>(
    left: &L,
    right: &R,
    output: &mut W,
) -> Result<(), DeviceFault>
    requires { W.has_failed output.old ≡ false }
    ensures bytes { Keeps (W.contents output.old) (W.contents output.new) }
    ensures works { OnOk result (W.has_failed output.new ≡ false) }
    ensures fails { OnErr result (W.has_failed output.new ≡ true) }
{
    flush_before_waiting(left, output)?;
    flush_before_waiting(right, output)
}

/// Compares each message of `left` with the message of the same number of `right`, and writes for
/// each two what `compare_messages` writes about them. If one input has more messages, writes
/// `message N: only in the first file` or `.. the second file`, where N is the number of the first
/// of them, and reads no further.
///
/// Precondition: none of `left`, `right` and `output` has failed.
///
/// Both inputs are streams of frames. The number of words of each message may be at most the
/// traversal limit. Each message has to be sound within the limits.
///
/// Refusals: `Refused` if a frame can't be read, or a message isn't sound; `TooLong` if the line of
/// a message is too long; `AllocationFailed`; `WriteFailed` if the output failed. What was written
/// before stays written.
pub fn run_diff<L: BufferedInput, R: BufferedInput, W: BufferedOutput>(
    alloc: Global,
    task: DiffTask,
    left: &mut L,
    right: &mut R,
    output: &mut W,
) -> Result<Compared, DiffFault>
    requires left { L.has_failed left.old ≡ false }
    requires right { R.has_failed right.old ≡ false }
    requires works { W.has_failed output.old ≡ false }
    ensures done { IfOk result (AreAllCompared task.limits
        (diff_stage L.Input R.Input W.Output left.old right.old output.old)
        (W.contents output.new)) }
    ensures refused { IfErr result (IsDiffStopped task.limits
        (diff_stage L.Input R.Input W.Output left.old right.old output.old)
        (diff_devices L.Input R.Input W.Output left.new right.new output.new)) }
    ensures same { IfOk result (λ compared. compared.is_same ≡ true
        → Keeps (W.contents output.old) (W.contents output.new)) }
    ensures ended { IfOk result (λ compared.
        EndsRead compared.longer (L.remaining left.new) (R.remaining right.new)) }
    ensures whole_left { OnOk result (KeepsWhole (L.ends_whole left.old) (L.ends_whole left.new)) }
    ensures whole_right { OnOk result
        (KeepsWhole (R.ends_whole right.old) (R.ends_whole right.new)) }
    ensures left { OnOk result (L.has_failed left.new ≡ false) }
    ensures right { OnOk result (R.has_failed right.new ≡ false) }
    ensures works { OnOk result (W.has_failed output.new ≡ false) }
{
    let mut read = MessagePair::new(alloc);
    let mut counts = Compared::none();
    for number in 1..u64::MAX {
        if flush_before_reading(&*left, &*right, output).is_err() {
            return Err(DiffFault::WriteFailed);
        }
        match compare_next(alloc, task.limits, counts, &mut read, left, right, output) {
            Ok(DiffStep::Pair(pair)) => counts = counts.with_pair(pair),
            Ok(DiffStep::Ended(longer)) => {
                if write_end(output, number, longer).is_err() {
                    return Err(DiffFault::WriteFailed);
                }
                return Ok(counts.ended(longer));
            }
            Err(fault) => return Err(fault),
        }
    }
    Err(DiffFault::TooLong(u64::MAX))
}

/// Unpacks both inputs (encoding specification, "Packing"), and does with the unpacked bytes what
/// `run_diff` does with its inputs. If the packed bytes of an input are cut short after its last
/// message, the run is refused with `Truncated`. Precondition: none of `left`, `right` and `output`
/// has failed.
pub fn run_diff_packed<L: Input + Drop, R: Input + Drop, W: BufferedOutput>(
    alloc: Global,
    task: DiffTask,
    left: L,
    right: R,
    output: &mut W,
) -> Result<bool, DiffFault>
    requires left { L.has_failed left ≡ false }
    requires right { R.has_failed right ≡ false }
    requires works { W.has_failed output.old ≡ false }
    ensures done { IfOk result (IsPackedCompared task.limits
        (diff_stage L.Input R.Input W.Output left right output.old) (W.contents output.new)) }
    ensures refused { IfErr result (λ fault. IsPackedStopped L.Input R.Input task.limits
        (diff_stage L.Input R.Input W.Output left right output.old)
        (W.contents output.new) (W.has_failed output.new) fault
        ⊎ ((compared : Compared) × AreAllCompared task.limits
        (unpacked_stages (diff_stage L.Input R.Input W.Output left right output.old))
        (W.contents output.new) compared × IsDiffCut L.Input R.Input left right compared fault)) }
    ensures same { result ≡ Ok true → Keeps (W.contents output.old) (W.contents output.new) }
    ensures works { OnOk result (W.has_failed output.new ≡ false) }
{
    let mut left = UnpackingInput::new(left);
    let mut right = UnpackingInput::new(right);
    let compared = run_diff(alloc, task, &mut left, &mut right, output)?;
    match check_ends(compared, &mut left, &mut right) {
        Ok(()) => Ok(compared.is_same),
        Err(fault) => Err(fault),
    }
}

/// Tests that the packed inputs that aren't longer aren't cut short after their last message.
fn check_ends<L: Input, R: Input>(
    compared: Compared,
    left: &mut UnpackingInput<L>,
    right: &mut UnpackingInput<R>,
) -> Result<(), DiffFault>
    requires { EndsRead compared.longer (⟦<UnpackingInput<L> as Input>⟧.remaining left.old)
        (⟦<UnpackingInput<R> as Input>⟧.remaining right.old) }
    ensures whole { OnOk result (KeepWholeUnless compared.longer
        (⟦<UnpackingInput<L> as Input>⟧.ends_whole left.old)
        (⟦<UnpackingInput<R> as Input>⟧.ends_whole right.old)) }
    ensures refused { IfErr result (IsNotWhole L.Input R.Input compared
        (⟦<UnpackingInput<L> as Input>⟧.ends_whole left.old)
        (⟦<UnpackingInput<R> as Input>⟧.ends_whole right.old)) }
{
    match compared.longer {
        Some(Side::Left) => check_whole_at_end(Side::Right, compared, right),
        Some(Side::Right) => check_whole_at_end(Side::Left, compared, left),
        None => {
            check_whole_at_end(Side::Left, compared, left)?;
            check_whole_at_end(Side::Right, compared, right)
        }
    }
}

/// Tests that a packed input isn't cut short after its last message.
fn check_whole_at_end<R: Input>(
    side: Side,
    compared: Compared,
    input: &mut UnpackingInput<R>,
) -> Result<(), DiffFault>
    requires { IsAtEnd (⟦<UnpackingInput<R> as Input>⟧.remaining input.old) }
    ensures whole { OnOk result
        (KeepsWhole (⟦<UnpackingInput<R> as Input>⟧.ends_whole input.old) (Some true)) }
    ensures refused { IfErr result (λ e. (fault : StreamError)
        × (e ≡ side_refusal compared side fault)
        × EndsNotWhole R.Input (⟦<UnpackingInput<R> as Input>⟧.ends_whole input.old) fault) }
{
    let error = match input.is_whole_at_end() {
        Ok(true) => return Ok(()),
        Ok(false) => FrameError::Truncated,
        Err(DeviceFault) => FrameError::ReadFailed,
    };
    Err(compared.refusal(side, StreamError::Frame(error)))
}

/// Compares the messages that both inputs hold as raw words, without a frame, like `run_diff`.
/// Precondition: none of `left`, `right` and `output` has failed.
pub fn run_diff_flat<L: Input, R: Input, W: Output>(
    alloc: Global,
    task: DiffTask,
    left: &mut L,
    right: &mut R,
    output: &mut W,
) -> Result<bool, DiffFault>
    requires left { L.has_failed left.old ≡ false }
    requires right { R.has_failed right.old ≡ false }
    requires works { W.has_failed output.old ≡ false }
    ensures done { IfOk result (AreFlatCompared task.limits
        (diff_stage L.Input R.Input W.Output left.old right.old output.old)
        (diff_stage L.Input R.Input W.Output left.new right.new output.new)) }
    ensures refused { IfErr result (StopsFlatDiff task.limits
        (diff_stage L.Input R.Input W.Output left.old right.old output.old)
        (diff_devices L.Input R.Input W.Output left.new right.new output.new)) }
    ensures same { result ≡ Ok true → IsUnwritten W.Output output.old output.new }
    ensures works { OnOk result (W.has_failed output.new ≡ false) }
{
    let mut read = MessagePair::new(alloc);
    if let Err(fault) = read_flat(task.limits, left, &mut read.left) {
        return Err(Compared::none().refusal(Side::Left, fault));
    }
    if let Err(fault) = read_flat(task.limits, right, &mut read.right) {
        return Err(Compared::none().refusal(Side::Right, fault));
    }
    compare(alloc, task.limits, 1, &read, output)
}
