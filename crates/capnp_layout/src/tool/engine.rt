//! Runs the program once: reads an input, and writes the answer to a command. Titles in quotes are
//! sections of the encoding specification.
ghost use Rattle.std.specs.Prelude.{◌≡◌, ◌≢◌, ◌⊎◌, ◌++◌, ℕ, List, true, false, None, IfSome, OnOk, OnErr, IfOk, IfErr};
ghost use Rattle.capnp_arena_traits.specs.Allocations.{one_more};
ghost use Rattle.capnp_words.specs.declared.error.ErrorKind.TheVariants.{AllocationFailed};
ghost use Rattle.capnp_framing.specs.Writing.{Prints};
ghost use Rattle.capnp_layout.specs.Lines.{segments_of};
ghost use Rattle.capnp_layout.specs.Messages.{segments_in};
ghost use Rattle.capnp_layout.specs.Commands.{IsAnswer, IsWithin, WhyRefused, canonical_args};
ghost use Rattle.capnp_layout.specs.Reading.{CountsRead, WorksUnlessBad};
ghost use Rattle.capnp_layout.specs.Refusals.{refusal_line};
ghost use Rattle.capnp_layout.specs.declared.tool.refusal.Refusal.{Refusal};
ghost use Rattle.capnp_layout.specs.Runs.{AreLinesOf, TextHasAnswer, IsBadInput, IsForMemoryOr, Responds, uncounted};

use super::args::Args;
use super::canon::canonicalize_root;
use super::check::is_canonical;
use super::framed::{answer_frame, answer_framed_check, answer_unframe};
use super::frames::write_words_in_form;
use super::lines::{InputFault, Message, decode_lines};
use super::reading::read_to_end;
use super::refusal::Refusal;
use super::size::measure_message;
use super::writing::{write_check, write_refusal};
use crate::devices::{DeviceFault, Input, Output};
use capnp_arena::arena::{Allocator, ReaderOptions, ReaderSegments};
use capnp_messages::messages::{CopyMemory, Form, canonical_bytes};
use capnp_messages::text::write_size;
use capnp_words::error::ErrorKind;
use std::alloc::Global;

/// How a run ends.
#[derive(Clone, Copy, Debug, PartialEq, Eq)]
pub enum Outcome {
    /// The answer is written.
    Done,
    /// The lines are refused, and the line `refused NAME` is written.
    Refused,
    /// A line isn't pairs of hex digits, there are more lines than the command takes, or the input
    /// failed. Nothing is written.
    BadInput,
    /// The output failed. How many bytes of the answer were written is unspecified.
    WriteFailed,
}

/// Reads a message from `input`, which has one line of hex digits for each segment.
fn read_message<A: Allocator, R: Input>(
    alloc: Global,
    allocator: &mut A,
    input: &mut R,
) -> Result<Message, InputFault>
    requires { R.has_failed input.old ≡ false }
    ensures segments { IfOk result (λ m. AreLinesOf (R.remaining input.old) (segments_in m)) }
    ensures bad { IfErr result (λ e. e ≡ InputFault.BadInput
        → (R.has_failed input.new ≡ true)
        ⊎ IfSome (R.remaining input.old) (λ text. segments_of text ≡ None)) }
    ensures counted { CountsRead (A.refusals allocator.old) (A.refusals allocator.new) result }
    ensures works { WorksUnlessBad (R.has_failed input.new) result }
{
    let text = read_to_end(alloc, allocator, input)?;
    decode_lines(alloc, allocator, text.as_slice())
}

/// Returns `outcome` if the text was written, and `WriteFailed` if the output failed.
pub(super) fn outcome_of(written: Result<(), DeviceFault>, outcome: Outcome) -> Outcome
    ensures written { OnOk written (result ≡ outcome) }
    ensures failed { OnErr written (result ≡ Outcome.WriteFailed) }
{
    match written {
        Ok(()) => outcome,
        Err(DeviceFault) => Outcome::WriteFailed,
    }
}

/// Writes the line `refused NAME`. Returns `Refused` if it is written, and `WriteFailed` if the
/// output fails.
pub(super) fn answer_refusal<W: Output>(output: &mut W, refusal: Refusal) -> Outcome
    requires { W.has_failed output.old ≡ false }
    ensures either { (result ≡ Outcome.Refused) ⊎ (result ≡ Outcome.WriteFailed) }
    ensures written { result ≡ Outcome.Refused
        → Prints W.Output output.old output.new (refusal_line refusal) }
    ensures works { result ≡ Outcome.Refused → W.has_failed output.new ≡ false }
    ensures failed { result ≡ Outcome.WriteFailed → W.has_failed output.new ≡ true }
{
    outcome_of(write_refusal(output, refusal), Outcome::Refused)
}

/// Writes the line of the canonical words of `source`, in a frame or without one, depending on
/// `form`; or the line of the refusal.
fn answer_canon<A: Allocator, W: Output>(
    alloc: Global,
    allocator: A,
    source: Message,
    options: ReaderOptions,
    form: Form,
    output: &mut W,
) -> (Outcome, A)
    requires { W.has_failed output.old ≡ false }
    ensures { Responds W.Output output.old output.new (record {
      lines = segments_in source;
      args = canonical_args form options;
      outcome = result.0;
      before = A.refusals allocator;
      after = A.refusals result.1;
    }) }
{
    match canonicalize_root(alloc, allocator, source, options) {
        Ok(made) => {
            let written = write_words_in_form(output, canonical_bytes(&made), form);
            (outcome_of(written, Outcome::Done), made.into_allocator())
        }
        Err((kind, allocator)) => (answer_refusal(output, Refusal::Layout(kind)), allocator),
    }
}

/// Writes the line that says whether a message is canonical, or the line of the refusal.
fn answer_check<W: Output>(source: Message, options: ReaderOptions, output: &mut W) -> Outcome
    requires { W.has_failed output.old ≡ false }
    ensures { Responds W.Output output.old output.new
        (uncounted (segments_in source) (Args.Check options) result) }
{
    match is_canonical(source, options) {
        Ok(yes) => outcome_of(write_check(output, yes), Outcome::Done),
        Err(kind) => answer_refusal(output, Refusal::Layout(kind)),
    }
}

/// Writes the line of a message's size, or the line of the refusal.
fn answer_size<W: Output>(source: Message, options: ReaderOptions, output: &mut W) -> Outcome
    requires { W.has_failed output.old ≡ false }
    ensures { Responds W.Output output.old output.new
        (uncounted (segments_in source) (Args.Size options) result) }
{
    match measure_message(source, options) {
        Ok(size) => outcome_of(write_size(output, size), Outcome::Done),
        Err(kind) => answer_refusal(output, Refusal::Layout(kind)),
    }
}

/// Writes what the command in `args` prints for `lines`, the lines of an input, or the line of the
/// command's refusal.
fn run_command<A: Allocator, W: Output>(
    alloc: Global,
    allocator: A,
    lines: Message,
    args: &Args,
    output: &mut W,
) -> (Outcome, A)
    requires { W.has_failed output.old ≡ false }
    ensures { Responds W.Output output.old output.new (record {
      lines = segments_in lines;
      args = args.now;
      outcome = result.0;
      before = A.refusals allocator;
      after = A.refusals result.1;
    }) }
{
    match *args {
        Args::Canon(options) => answer_canon(alloc, allocator, lines, options, Form::Flat, output),
        Args::Check(options) => (answer_check(lines, options, output), allocator),
        Args::Size(options) => (answer_size(lines, options, output), allocator),
        Args::Frame => (answer_frame(lines, output), allocator),
        Args::Unframe => (answer_unframe(lines, output), allocator),
        Args::FramedCanon(options) => {
            answer_canon(alloc, allocator, lines, options, Form::Framed, output)
        }
        Args::FramedCheck(options) => (answer_framed_check(lines, options, output), allocator),
    }
}

/// Reads lines from `input`, and writes to `output` the answer to the command in `args`, or a line
/// with `refused` and the name of the refusal. `allocator` grants the segments of copies. Its
/// `keep` appends the bytes that were read to lists, and may refuse memory for them. Precondition:
/// neither `input` nor `output` has failed.
///
/// The answers are, by command:
///
/// - `Canon`: the canonical words of the message's value as lower case hex digits, each word's
///   lowest byte first.
/// - `Check`: `canonical` if the canonical words of a value are at the message's root, otherwise
///   `not canonical`.
/// - `Size`: `words N caps M`, the numbers of words and capabilities that the root leads to,
///   without landing pads, in decimal digits.
/// - `Frame`: the frame of the message as hex digits.
/// - `FramedCanon`: the frame of the message's canonical words as hex digits.
/// - `Unframe`: a line for each segment of the message in the frame at the start of the only line.
/// - `FramedCheck`: `canonical message` or `not a canonical message`.
///
/// The run takes memory for the input, and with `Canon` or `FramedCanon` also for the copy. If a
/// read fails, the outcome is always `BadInput`. The refusal `AllocationFailed` means that memory
/// ran out, and the allocator has counted this refusal.
pub fn run_with<A: Allocator, R: Input, W: Output>(
    alloc: Global,
    allocator: A,
    args: &Args,
    input: &mut R,
    output: &mut W,
) -> (Outcome, A)
    requires input { R.has_failed input.old ≡ false }
    requires output { W.has_failed output.old ≡ false }
    ensures done { result.0 ≡ Outcome.Done → (lines : List (List ℕ)) × (answer : List ℕ)
        × AreLinesOf (R.remaining input.old) lines × IsWithin args.now lines
        × IsAnswer lines args.now answer × Prints W.Output output.old output.new answer }
    ensures refused { result.0 ≡ Outcome.Refused → (r : Refusal)
        × Prints W.Output output.old output.new (refusal_line r)
        × IsForMemoryOr (A.refusals allocator) (A.refusals result.1) r ((lines : List (List ℕ))
        × AreLinesOf (R.remaining input.old) lines × WhyRefused lines args.now r) }
    ensures exactly { TextHasAnswer (R.remaining input.old) args.now
        → (result.0 ≡ Outcome.Done) ⊎ (R.has_failed input.new ≡ true)
        ⊎ (W.has_failed output.new ≡ true) ⊎ (result.0 ≡ Outcome.Refused) }
    ensures memory { TextHasAnswer (R.remaining input.old) args.now → result.0 ≡ Outcome.Refused
        → (A.refusals result.1 ≡ one_more (A.refusals allocator))
        × Prints W.Output output.old output.new (refusal_line (Refusal.Layout AllocationFailed)) }
    ensures kept { result.0 ≡ Outcome.Done → A.refusals result.1 ≡ A.refusals allocator }
    ensures kept_unread { result.0 ≡ Outcome.BadInput
        → A.refusals result.1 ≡ A.refusals allocator }
    ensures input { result.0 ≡ Outcome.BadInput → (R.has_failed input.new ≡ true)
        ⊎ IsBadInput (R.remaining input.old) args.now }
    ensures read { result.0 ≢ Outcome.BadInput → R.has_failed input.new ≡ false }
    ensures unwritten { result.0 ≡ Outcome.BadInput → W.contents output.new
        ≡ W.contents output.old }
    ensures works { result.0 ≢ Outcome.WriteFailed → W.has_failed output.new ≡ false }
    ensures failed { result.0 ≡ Outcome.WriteFailed → W.has_failed output.new ≡ true }
{
    let mut allocator = allocator;
    match read_message(alloc, &mut allocator, input) {
        Ok(source) => run_command(alloc, allocator, source, args, output),
        Err(InputFault::BadInput) => (Outcome::BadInput, allocator),
        Err(InputFault::NoMemory) => (
            answer_refusal(output, Refusal::Layout(ErrorKind::AllocationFailed)),
            allocator,
        ),
    }
}

/// Reads lines from `input`, and writes to `output` the answer to the command in `args`, or a line
/// with `refused` and the name of the refusal. Precondition: neither `input` nor `output` has
/// failed.
///
/// A line of the input is a segment, in pairs of hex digits in either case. An input without bytes
/// has no segments. The root pointer costs one word of the traversal limit. The answers are, by
/// command:
///
/// - `Canon`: the canonical words of the message's value as lower case hex digits, each word's
///   lowest byte first ("Canonicalization").
/// - `Check`: `canonical` if the canonical words of a value are at the root, with the first object
///   right after the root pointer, otherwise `not canonical`. Ignores other segments, and words
///   after the canonical ones.
/// - `Size`: `words N caps M`, the numbers of words and capabilities that the root leads to,
///   without landing pads, in decimal digits ("Structs", "Lists").
/// - `Frame`: the frame of the message as hex digits ("Serialization Over a Stream"). Refusals:
///   `NoSegments` if there are no segments, `TooManySegments` if there are more than 512.
/// - `FramedCanon`: the frame of the canonical words, in one segment. Refuses like `Canon`.
/// - `Unframe`: a line for each segment of the message in the frame at the start of the only line.
/// - `FramedCheck`: `canonical message` if the message in the frame at the start of the only line
///   is the canonical words of a value and nothing else, otherwise `not a canonical message`.
///
/// `Unframe` and `FramedCheck` take one line, with a message of at most 8,388,608 words. If there
/// is more than one line, the outcome is `BadInput`. No line, or an empty line, is refused with
/// `NoMessage`. A line that doesn't begin with a frame is refused with the name with which
/// `framing::read` refuses such an input.
///
/// If a read fails, the outcome is always `BadInput`. The refusal `AllocationFailed` means that
/// memory ran out. `MessageTooLarge` means one of these: the input has 2^32 segments or more, or
/// one of 2^32 words or more; there are more canonical words than a segment can have, 536,870,911;
/// the answer to `Size` would be a number of words that doesn't fit 64 bits, or a number of
/// capabilities that doesn't fit 32 bits.
pub fn run<R: Input, W: Output>(
    alloc: Global,
    args: &Args,
    input: &mut R,
    output: &mut W,
) -> Outcome
    requires input { R.has_failed input.old ≡ false }
    requires output { W.has_failed output.old ≡ false }
    ensures done { result ≡ Outcome.Done → (lines : List (List ℕ)) × (answer : List ℕ)
        × AreLinesOf (R.remaining input.old) lines × IsWithin args.now lines
        × IsAnswer lines args.now answer × Prints W.Output output.old output.new answer }
    ensures refused { result ≡ Outcome.Refused → (r : Refusal)
        × Prints W.Output output.old output.new (refusal_line r)
        × ((r ≡ Refusal.Layout AllocationFailed) ⊎ ((lines : List (List ℕ))
        × AreLinesOf (R.remaining input.old) lines × WhyRefused lines args.now r)) }
    ensures exactly { TextHasAnswer (R.remaining input.old) args.now
        → (result ≡ Outcome.Done) ⊎ (R.has_failed input.new ≡ true)
        ⊎ (W.has_failed output.new ≡ true) ⊎ (result ≡ Outcome.Refused) }
    ensures memory { TextHasAnswer (R.remaining input.old) args.now → result ≡ Outcome.Refused
        → Prints W.Output output.old output.new (refusal_line (Refusal.Layout AllocationFailed)) }
    ensures input { result ≡ Outcome.BadInput → (R.has_failed input.new ≡ true)
        ⊎ IsBadInput (R.remaining input.old) args.now }
    ensures read { result ≢ Outcome.BadInput → R.has_failed input.new ≡ false }
    ensures unwritten { result ≡ Outcome.BadInput → W.contents output.new ≡ W.contents output.old }
    ensures works { result ≢ Outcome.WriteFailed → W.has_failed output.new ≡ false }
    ensures failed { result ≡ Outcome.WriteFailed → W.has_failed output.new ≡ true }
{
    let (outcome, _) = run_with(alloc, CopyMemory::new(alloc), args, input, output);
    outcome
}
