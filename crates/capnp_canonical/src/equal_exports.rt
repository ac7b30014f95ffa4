//! The functions for C that compare two messages by their canonical words.
ghost use Rattle.std.specs.Prelude.{◌≡◌, ◌≢◌, ◌⊎◌, ℕ, List, IfOk, IfErr, false};
ghost use Rattle.capnp_messages.specs.Commands.{HasAnswerWithin};
ghost use Rattle.capnp_messages.specs.declared.messages.command.Command.{Command};
ghost use Rattle.capnp_messages.specs.declared.messages.command.Form.{Form};
ghost use Rattle.capnp_canonical.specs.Calls.{InFrame, InSegments, InWords, IsCopyOf, IsNumberWhere, RefusesBytes, RefusesMeaning, RefusesSegment, RefusesSegments, limits_of};
ghost use Rattle.capnp_canonical.specs.Taking.{AreTheSame, IsComparison, RefusesOne};

use crate::calls::Limits;
use crate::frames::message_in;
use crate::refusal::Refusal;
use crate::segments::lent_message;
use crate::storing::store;
use crate::taking::{Beside, WordTaker, lend_words};
use crate::words::message_of;
use std::alloc::Global;

/// Compares words with those of the message whose frame is at the front of `bytes`.
#[derive(Clone, Copy)]
struct OtherFrame<'a> {
    alloc: Global,
    bytes: &'a [u8],
    limits: Limits,
}

impl WordTaker for OtherFrame<'_> {
    type Output = Result<bool, Refusal>;

    ghost takes = { λ other words _ made. IsComparison (InFrame other.bytes.now other.limits.words)
        (RefusesBytes other.bytes.now other.limits.words)
        (limits_of other.limits.nesting other.limits.words) words made };

    fn take(&mut self, words: &[u8]) -> Result<bool, Refusal> {
        match message_in(self.bytes, self.limits.words) {
            Ok(segments) => lend_words(self.alloc, segments, self.limits, &mut Beside { words }),
            Err(refusal) => Err(refusal),
        }
    }
}

/// Compares words with those of the message in the segments `bytes`.
#[derive(Clone, Copy)]
struct OtherSegments<'a> {
    alloc: Global,
    bytes: &'a [&'a [u8]],
    limits: Limits,
}

impl WordTaker for OtherSegments<'_> {
    type Output = Result<bool, Refusal>;

    ghost takes = { λ other words _ made. IsComparison (InSegments other.bytes.now)
        (RefusesSegments other.bytes.now)
        (limits_of other.limits.nesting other.limits.words) words made };

    fn take(&mut self, words: &[u8]) -> Result<bool, Refusal> {
        match lent_message(self.bytes) {
            Ok(lent) => lend_words(self.alloc, lent, self.limits, &mut Beside { words }),
            Err(refusal) => Err(refusal),
        }
    }
}

/// Compares words with those of the message whose one segment is `bytes`.
#[derive(Clone, Copy)]
struct OtherWords<'a> {
    alloc: Global,
    bytes: &'a [u8],
    limits: Limits,
}

impl WordTaker for OtherWords<'_> {
    type Output = Result<bool, Refusal>;

    ghost takes = { λ other words _ made. IsComparison (InWords other.bytes.now)
        (RefusesSegment other.bytes.now)
        (limits_of other.limits.nesting other.limits.words) words made };

    fn take(&mut self, words: &[u8]) -> Result<bool, Refusal> {
        match message_of(self.bytes) {
            Ok(message) => lend_words(self.alloc, message, self.limits, &mut Beside { words }),
            Err(refusal) => Err(refusal),
        }
    }
}

/// Whether the messages whose frames are at the fronts of `one` and `other` have the same canonical
/// words.
fn equal_frame(alloc: Global, one: &[u8], other: &[u8], limits: Limits) -> Result<bool, Refusal>
    ensures same { IfOk result (AreTheSame (InFrame one.now limits.words)
        (InFrame other.now limits.words) (limits_of limits.nesting limits.words)) }
    ensures refused { IfErr result (RefusesOne
        (InFrame one.now limits.words) (RefusesBytes one.now limits.words)
        (InFrame other.now limits.words) (RefusesBytes other.now limits.words)
        (limits_of limits.nesting limits.words)) }
{
    let first = message_in(one, limits.words)?;
    let mut other = OtherFrame {
        alloc,
        bytes: other,
        limits,
    };
    lend_words(alloc, first, limits, &mut other)?
}

/// Whether the messages in the segments `one` and `other` have the same canonical words.
fn equal_segments(
    alloc: Global,
    one: &[&[u8]],
    other: &[&[u8]],
    limits: Limits,
) -> Result<bool, Refusal>
    ensures same { IfOk result (AreTheSame (InSegments one.now) (InSegments other.now)
        (limits_of limits.nesting limits.words)) }
    ensures refused { IfErr result (RefusesOne (InSegments one.now) (RefusesSegments one.now)
        (InSegments other.now) (RefusesSegments other.now)
        (limits_of limits.nesting limits.words)) }
{
    let first = lent_message(one)?;
    let mut other = OtherSegments {
        alloc,
        bytes: other,
        limits,
    };
    lend_words(alloc, first, limits, &mut other)?
}

/// Whether the messages whose one segments are `one` and `other` have the same canonical words.
fn equal_words(alloc: Global, one: &[u8], other: &[u8], limits: Limits) -> Result<bool, Refusal>
    ensures same { IfOk result (AreTheSame (InWords one.now) (InWords other.now)
        (limits_of limits.nesting limits.words)) }
    ensures refused { IfErr result (RefusesOne (InWords one.now) (RefusesSegment one.now)
        (InWords other.now) (RefusesSegment other.now) (limits_of limits.nesting limits.words)) }
{
    let first = message_of(one)?;
    let mut other = OtherWords {
        alloc,
        bytes: other,
        limits,
    };
    lend_words(alloc, first, limits, &mut other)?
}

/// Compares the messages whose frames are at the fronts of `one` and `other`: stores in `is_equal`
/// whether their canonical words are the same, which they are exactly if the values are equal.
/// `nesting` and `words` limit the reading of each, as in `capnp_canonical_check`. Refused if
/// `capnp_canonical_digest` refuses `one`, and otherwise if it refuses `other`; `is_equal` is then
/// false.
#[unsafe(no_mangle)]
pub extern "C" fn capnp_canonical_equal(
    alloc: Global,
    one: &[u8],
    other: &[u8],
    nesting: i32,
    words: u64,
    is_equal: &mut bool,
) -> u32
    ensures done { result ≡ 0 → AreTheSame (InFrame one.now words) (InFrame other.now words)
        (limits_of nesting words) is_equal.new }
    ensures refused { result ≢ 0 → IsNumberWhere result (RefusesOne (InFrame one.now words)
        (RefusesBytes one.now words) (InFrame other.now words) (RefusesBytes other.now words)
        (limits_of nesting words)) }
    ensures none { result ≢ 0 → is_equal.new ≡ false }
    ensures granted { InFrame one.now words
        (HasAnswerWithin (Command.Canon Form.Flat) (limits_of nesting words))
        → InFrame other.now words
        (HasAnswerWithin (Command.Canon Form.Flat) (limits_of nesting words))
        → (result ≡ 0) ⊎ (result ≡ 32) }
{
    let same = equal_frame(alloc, one, other, Limits { nesting, words });
    store(same, false, is_equal)
}

/// Like `capnp_canonical_equal`, for the messages in the segments `one` and `other`.
#[unsafe(no_mangle)]
pub extern "C" fn capnp_canonical_segments_equal(
    alloc: Global,
    one: &[&[u8]],
    other: &[&[u8]],
    nesting: i32,
    words: u64,
    is_equal: &mut bool,
) -> u32
    ensures done { result ≡ 0 → AreTheSame (InSegments one.now) (InSegments other.now)
        (limits_of nesting words) is_equal.new }
    ensures refused { result ≢ 0 → IsNumberWhere result (RefusesOne (InSegments one.now)
        (RefusesSegments one.now) (InSegments other.now) (RefusesSegments other.now)
        (limits_of nesting words)) }
    ensures none { result ≢ 0 → is_equal.new ≡ false }
    ensures granted { InSegments one.now
        (HasAnswerWithin (Command.Canon Form.Flat) (limits_of nesting words))
        → InSegments other.now
        (HasAnswerWithin (Command.Canon Form.Flat) (limits_of nesting words))
        → (result ≡ 0) ⊎ (result ≡ 32) }
{
    let same = equal_segments(alloc, one, other, Limits { nesting, words });
    store(same, false, is_equal)
}

/// Like `capnp_canonical_equal`, for two messages with one segment each, whose words the caller
/// passes as `one` and `other`, without frames.
#[unsafe(no_mangle)]
pub extern "C" fn capnp_canonical_words_equal(
    alloc: Global,
    one: &[u8],
    other: &[u8],
    nesting: i32,
    words: u64,
    is_equal: &mut bool,
) -> u32
    ensures done { result ≡ 0 → AreTheSame (InWords one.now) (InWords other.now)
        (limits_of nesting words) is_equal.new }
    ensures refused { result ≢ 0 → IsNumberWhere result (RefusesOne (InWords one.now)
        (RefusesSegment one.now) (InWords other.now) (RefusesSegment other.now)
        (limits_of nesting words)) }
    ensures none { result ≢ 0 → is_equal.new ≡ false }
    ensures granted { InWords one.now
        (HasAnswerWithin (Command.Canon Form.Flat) (limits_of nesting words))
        → InWords other.now
        (HasAnswerWithin (Command.Canon Form.Flat) (limits_of nesting words))
        → (result ≡ 0) ⊎ (result ≡ 32) }
{
    let same = equal_words(alloc, one, other, Limits { nesting, words });
    store(same, false, is_equal)
}
