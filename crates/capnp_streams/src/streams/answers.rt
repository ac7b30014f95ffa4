//! The answer to one message.
ghost use Rattle.std.specs.Prelude.{◌≡◌, Some, Ok, Err, false, IsSome, OnOk, OnErr};
ghost use Rattle.capnp_arena_traits.specs.Limits.{IsSmall};
ghost use Rattle.capnp_framing.specs.declared.framing.frame_error.FrameError.TheVariants.{WriteFailed};
ghost use Rattle.capnp_format.specs.Bytes.{message};
ghost use Rattle.capnp_streams.specs.Streams.{Answers, CountsRefusals, IsJobDone, IsShortIfShown, job_refusals_behind, question_on, refusals_behind, with_pointer};

use super::parts::{canonicalize_for_task, check, digest_for_task, size_for_task, validate};
use super::shows::show;
use super::stream_error::StreamError;
use super::task::{Job, Task};
use super::writing::{write_canonical_line, write_canonical_words, write_fault, write_hex_line};
use capnp_arena::arena::{Allocator, ReaderArena, ReaderArenaImpl, ReaderSegments};
use capnp_framing::devices::{DeviceFault, Output};
use capnp_framing::framing::{FrameError, OwnedSegments};
use capnp_messages::messages::{Command, Form, canonical_bytes, canonical_segment};
use capnp_messages::text::{write_extent, write_size};
use capnp_refusals::refusals::pointer_of_refusal;
use std::alloc::Global;

/// The fault if writing to the output fails.
const WRITE_FAILED: StreamError = StreamError::Frame(FrameError::WriteFailed);

/// What a run keeps from one message to the next.
#[derive(Drop)]
pub(super) struct Memory<A: Allocator> {
    alloc: Global,
    /// The allocator for frames and copies; `None` only while a copy is being made.
    pub(super) allocator: Option<A>,
    /// Whether the previous message was canonical already. To test a message before copying it
    /// saves time only if the message is canonical, so `canon` tests a message only if the previous
    /// one was canonical.
    was_canonical: bool,
}

impl<A: Allocator> Memory<A> {
    /// Makes the memory of a run before its first message. `was_canonical` starts as `true`, so
    /// `canon` tests the first message.
    pub(super) fn new(alloc: Global, allocator: A) -> Self
        ensures { result.allocator ≡ Some allocator }
    {
        Memory {
            alloc,
            allocator: Some(allocator),
            was_canonical: true,
        }
    }

    /// Returns the allocator.
    pub(super) fn into_allocator(self) -> A
        requires { IsSome self.allocator }
        ensures { self.allocator ≡ Some result }
    {
        let Memory {
            alloc: _,
            allocator,
            was_canonical: _,
        } = self;
        allocator.unwrap()
    }
}

/// Whether `bytes` are those of the message's first segment.
fn is_first_segment<S: ReaderSegments>(source: &ReaderArenaImpl<S>, bytes: &[u8]) -> bool {
    match source.get_segment(0) {
        Ok(segment) => segment == bytes,
        Err(_) => false,
    }
}

/// Returns `holds` if the answer was written, and the error `WRITE_FAILED` if it wasn't.
fn result_if_written(written: Result<(), DeviceFault>, holds: bool) -> Result<bool, StreamError>
    ensures written { OnOk written (result ≡ Ok holds) }
    ensures failed { OnErr written (result ≡ Err (StreamError.Frame WriteFailed)) }
{
    match written {
        Ok(()) => Ok(holds),
        Err(DeviceFault) => Err(WRITE_FAILED),
    }
}

/// Makes the canonical copy that `task` asks for of the message in `source`, writes the copy, and
/// notes in `memory` whether the message was canonical already. Returns `true` if the copy is
/// written.
fn write_canonical_copy<A: Allocator, S: ReaderSegments, W: Output>(
    memory: &mut Memory<A>,
    form: Form,
    task: Task,
    source: &ReaderArenaImpl<S>,
    output: &mut W,
) -> Result<bool, StreamError>
    requires there { IsSome memory.old.allocator }
    requires nesting { source.now.nesting_limit ≡ task.limits.nesting_limit }
    requires works { W.has_failed output.old ≡ false }
    ensures answer { Answers W.Output output.old output.new (question_on (Command.Canon form) task
        (⟦<ReaderArenaImpl<S> as ReaderArena>⟧.segments source.now)) result }
    ensures memory { CountsRefusals A.refusals memory.old.allocator memory.new.allocator
        (refusals_behind (Command.Canon form)) result }
{
    let Some(allocator) = memory.allocator.take() else {
        unreachable!()
    };
    match canonicalize_for_task(memory.alloc, allocator, source, task) {
        Ok(made) => {
            let words = canonical_bytes(&made);
            memory.was_canonical = is_first_segment(source, words);
            let written = write_canonical_words(output, words, task.hex, form);
            memory.allocator = Some(made.into_allocator());
            result_if_written(written, true)
        }
        Err((kind, allocator)) => {
            memory.allocator = Some(allocator);
            Err(StreamError::Layout(kind, None))
        }
    }
}

/// Writes the canonical words of the message, or of its part. If the whole message is asked for,
/// these are the words of its own segment if the message is canonical already and the previous one
/// was, too; otherwise makes a canonical copy. Returns `true` if the words are written.
fn answer_canon<A: Allocator, S: ReaderSegments + Drop, W: Output>(
    memory: &mut Memory<A>,
    form: Form,
    task: Task,
    segments: S,
    output: &mut W,
) -> Result<bool, StreamError>
    requires there { IsSome memory.old.allocator }
    requires small { IsSmall (S.segments segments) }
    requires works { W.has_failed output.old ≡ false }
    ensures answer { Answers W.Output output.old output.new
        (question_on (Command.Canon form) task (S.segments segments)) result }
    ensures memory { CountsRefusals A.refusals memory.old.allocator memory.new.allocator
        (refusals_behind (Command.Canon form)) result }
{
    let source = ReaderArenaImpl::new(segments, task.limits);
    if memory.was_canonical && task.path.is_empty() {
        if let Some(words) = canonical_segment(&source, task.limits.traversal_limit_in_words) {
            return result_if_written(write_canonical_words(output, words, task.hex, form), true);
        }
    }
    write_canonical_copy(memory, form, task, &source, output)
}

/// Writes the SHA-256 of the canonical words of the message, or of its part, as a line of hex
/// digits. Returns `true` if the line is written.
fn answer_digest<A: Allocator, S: ReaderSegments + Drop, W: Output>(
    memory: &mut Memory<A>,
    task: Task,
    segments: S,
    output: &mut W,
) -> Result<bool, StreamError>
    requires there { IsSome memory.old.allocator }
    requires small { IsSmall (S.segments segments) }
    requires works { W.has_failed output.old ≡ false }
    ensures answer { Answers W.Output output.old output.new
        (question_on Command.Digest task (S.segments segments)) result }
    ensures memory { CountsRefusals A.refusals memory.old.allocator memory.new.allocator
        (refusals_behind Command.Digest) result }
{
    let Some(allocator) = memory.allocator.take() else {
        unreachable!()
    };
    let (digest, allocator) = digest_for_task(memory.alloc, allocator, segments, task);
    memory.allocator = Some(allocator);
    match digest {
        Ok(digest) => result_if_written(write_hex_line(output, &digest), true),
        Err(kind) => Err(StreamError::Layout(kind, None)),
    }
}

/// Answers one message: writes what `task` asks for. Returns `false` if the command is `Check` and
/// the message isn't canonical; returns `true` after any other answer.
fn answer<A: Allocator, S: ReaderSegments + Drop, W: Output>(
    memory: &mut Memory<A>,
    task: Task,
    segments: S,
    output: &mut W,
) -> Result<bool, StreamError>
    requires there { IsSome memory.old.allocator }
    requires small { IsSmall (S.segments segments) }
    requires works { W.has_failed output.old ≡ false }
    ensures answer { Answers W.Output output.old output.new
        (question_on task.command task (S.segments segments)) result }
    ensures memory { CountsRefusals A.refusals memory.old.allocator memory.new.allocator
        (refusals_behind task.command) result }
{
    match task.command {
        Command::Canon(form) => answer_canon(memory, form, task, segments, output),
        Command::Check => match check(segments, task.limits) {
            Ok(None) => result_if_written(write_canonical_line(output), true),
            Ok(Some(fault)) => result_if_written(write_fault(output, fault), false),
            Err(kind) => Err(StreamError::Layout(kind, None)),
        },
        Command::Size => match size_for_task(segments, task) {
            Ok(size) => result_if_written(write_size(output, size), true),
            Err(kind) => Err(StreamError::Layout(kind, None)),
        },
        Command::Digest => answer_digest(memory, task, segments, output),
        Command::Validate => match validate(segments, task.limits) {
            Ok(extent) => result_if_written(write_extent(output, extent.value), true),
            Err(kind) => Err(StreamError::Layout(kind, None)),
        },
    }
}

/// Does `job` with message `number`, which is in `segments`: answers it like `answer`, or shows it
/// like `show`. Tells at which of its pointers a message is refused, if it is at one.
#[tactic(auto, using(crate::proofs::JobLemmas::jobs))]
pub(super) fn do_job<A: Allocator, W: Output>(
    memory: &mut Memory<A>,
    job: Job,
    number: u64,
    segments: &OwnedSegments,
    output: &mut W,
) -> Result<bool, StreamError>
    requires there { IsSome memory.old.allocator }
    requires small { IsSmall (⟦<OwnedSegments as ReaderSegments>⟧.segments segments.now) }
    requires works { W.has_failed output.old ≡ false }
    ensures done { IsJobDone W.Output output.old output.new job
        (message (⟦<OwnedSegments as ReaderSegments>⟧.segments segments.now)) result }
    ensures bounded { OnOk result (IsShortIfShown W.Output job output.old output.new) }
    ensures memory { CountsRefusals A.refusals memory.old.allocator memory.new.allocator
        (job_refusals_behind job) result }
{
    match job {
        Job::Answer(task) => match answer(memory, task, segments, output) {
            Ok(holds) => Ok(holds),
            Err(fault) => Err(locate_refusal(fault, task, segments)),
        },
        Job::Show(task) => show(memory.alloc, task, number, segments, output),
    }
}

/// Adds to `fault` the pointer at which the message in `segments` is refused, if `fault` is the
/// refusal of a pointer and `task` is about the whole message. The message is read once more for
/// this.
fn locate_refusal<S: ReaderSegments + Drop>(
    fault: StreamError,
    task: Task,
    segments: S,
) -> StreamError
    requires { IsSmall (S.segments segments) }
    ensures { result ≡ with_pointer task (message (S.segments segments)) fault }
{
    match fault {
        StreamError::Layout(kind, _) => {
            let pointer = if task.path.is_empty() {
                pointer_of_refusal(kind, task.command, segments, task.limits)
            } else {
                None
            };
            StreamError::Layout(kind, pointer)
        }
        other => other,
    }
}
