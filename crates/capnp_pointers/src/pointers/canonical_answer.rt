//! The answer of a test for canonical form that stops before its end (encoding specification,
//! "Canonicalization").
ghost use Rattle.std.specs.Prelude.{◌≡◌, Ok, Err};
ghost use Rattle.capnp_pointers.specs.CanonicalFaults.{other_reason};
ghost use Rattle.capnp_pointers.specs.Checking.{level_refusal_name};

use crate::object::Place;
use crate::pointers::canonical_fault::{CanonicalFault, CanonicalFaultReason};
use capnp_words::error::ErrorKind;
use capnp_words::read_limiter::ReadLimiter;
use capnp_words::wire_pointer::{WirePointer, WirePointerKind};
use std::mem;

/// The answer of a test that stops: the fault that it found, or the refusal of an object that can't
/// be read.
pub(crate) type Answer = Result<CanonicalFault, ErrorKind>;

/// States that a test has stopped. The test's answer is in the field `answer` of its `Test`.
/// `Stopped` has no content, so a `Result` with it is returned in a register; a `Result` with the
/// answer would be written to memory at each level.
#[derive(Clone, Copy)]
pub(crate) struct Stopped;

/// A test: the limiter that it charges, and its answer once it has stopped.
#[derive(Drop)]
pub(crate) struct Test {
    /// The limiter, moved here while the test runs.
    pub(crate) lim: ReadLimiter,
    /// The answer, once the test has stopped. Before that, it has no meaning.
    pub(crate) answer: Answer,
}

impl Test {
    /// Begins a test, and moves the limiter from `lim` into it. The caller moves the limiter back
    /// at the end.
    pub(crate) fn begin(lim: &mut ReadLimiter) -> Self
        ensures { result.lim ≡ lim.old }
    {
        Test {
            lim: mem::replace(lim, ReadLimiter::new(None)),
            answer: Err(ErrorKind::ReadLimitExceeded),
        }
    }
}

/// Stores in `answer` a fault at position `word` of the segment of `place`, so that the test stops.
#[cold]
pub(crate) fn stop_with_fault(
    answer: &mut Answer,
    place: Place,
    word: u32,
    reason: CanonicalFaultReason,
) -> Stopped
    ensures { answer.new ≡ Ok (record {
      segment = place.entry.segment;
      word = word;
      reason = reason;
    }) }
{
    *answer = Ok(CanonicalFault {
        segment: place.segment,
        word,
        reason,
    });
    Stopped
}

/// Stores in `answer` the refusal of the object that `word` points to, so that the test stops.
/// Reading the object was refused with `kind`; for a list, `answer` has `NestingLimitExceeded` in
/// place of `MessageIsTooDeeplyNestedOrContainsCycles`.
#[cold]
pub(crate) fn stop_with_refusal(answer: &mut Answer, word: WirePointer, kind: ErrorKind) -> Stopped
    ensures { answer.new ≡ Err (level_refusal_name word.0 kind) }
{
    *answer = Err(refusal_for_word(word, kind));
    Stopped
}

/// Returns why `word`, which is a pointer to neither a struct nor a list, isn't canonical.
pub(crate) fn reason_of(word: WirePointer) -> CanonicalFaultReason
    ensures { result ≡ other_reason word.0 }
{
    if word.kind() == WirePointerKind::Far {
        CanonicalFaultReason::FarPointer
    } else if word.is_capability() {
        CanonicalFaultReason::Capability
    } else {
        CanonicalFaultReason::UnknownPointer
    }
}

// The refusal if the object of a word can't be read.
fn refusal_for_word(word: WirePointer, kind: ErrorKind) -> ErrorKind
    ensures { result ≡ level_refusal_name word.0 kind }
{
    match kind {
        ErrorKind::MessageIsTooDeeplyNestedOrContainsCycles
            if word.kind() == WirePointerKind::List => { ErrorKind::NestingLimitExceeded }
        kind => kind,
    }
}
