//! The functions for C that take a message as the words of its only segment, without a frame.
ghost use Rattle.std.specs.Prelude.{◌≡◌, ◌≢◌, ◌⊎◌, ⊤, false, length, replicate, take, drop};
ghost use Rattle.capnp_messages.specs.Digests.{IsDigestOf};
ghost use Rattle.capnp_messages.specs.Messages.{HasSizeOf, IsReadable};
ghost use Rattle.capnp_messages.specs.Commands.{HasAnswerWithin};
ghost use Rattle.capnp_messages.specs.declared.messages.command.Command.{Command};
ghost use Rattle.capnp_messages.specs.declared.messages.command.Form.{Form};
ghost use Rattle.capnp_messages.specs.SmallCopies.{NeedsNoHeap};
ghost use Rattle.capnp_canonical.specs.Calls.{FillsByNumber, InWords, IsCopyOf, IsGranted, IsNumberWhere, RefusesMeaning, RefusesRoom, RefusesSegment, TestIs, limits_of, no_fault};
ghost use Rattle.capnp_canonical.specs.Validation.{ExtentIs, RefusesExtent, no_extent};
ghost use Rattle.capnp_canonical.specs.Locating.{PointerIs, no_pointer};
ghost use Rattle.capnp_canonical.specs.Numbers.{wanted_room};

use crate::calls::Limits;
use crate::digests::digest_words_after;
use crate::fault::{Fault, NO_FAULT};
use crate::locating::{BrokenPointer, NO_POINTER, locate_in_words};
use crate::storing::{store, store_size, store_written};
use crate::validation::{NOT_SOUND, SoundMessage, validate_words};
use crate::words::{check_words, copy_words, size_words};
use std::alloc::Global;

/// Like `capnp_canonical_copy_flat`, for a message with one segment, whose words the caller passes
/// as `bytes`, without a frame.
#[unsafe(no_mangle)]
pub extern "C" fn capnp_canonical_words_copy(
    alloc: Global,
    bytes: &[u8],
    nesting: i32,
    words: u64,
    to: &mut [u8],
    written: &mut usize,
) -> u32
    ensures done { FillsByNumber result written.new to.old to.new (λ copy. InWords bytes.now
        (λ S. IsCopyOf Form.Flat (limits_of nesting words) S copy)) }
    ensures refused { result ≢ 0 → IsNumberWhere result (λ r. (written.new ≡ wanted_room r)
        × (RefusesSegment bytes.now r ⊎ InWords bytes.now
        (λ S. RefusesRoom Form.Flat (limits_of nesting words) (length to.old) S r))) }
    ensures granted { InWords bytes.now
        (HasAnswerWithin (Command.Canon Form.Flat) (limits_of nesting words))
        → IsGranted result }
    ensures lent { InWords bytes.now (NeedsNoHeap (limits_of nesting words))
        → (result ≡ 0) ⊎ (result ≡ 1) }
{
    let copied = copy_words(alloc, bytes, Limits { nesting, words }, to);
    store_written(copied, written)
}

/// Like `capnp_canonical_check`, for a message with one segment, whose words the caller passes as
/// `bytes`, without a frame.
#[unsafe(no_mangle)]
pub extern "C" fn capnp_canonical_words_check(
    bytes: &[u8],
    nesting: i32,
    words: u64,
    is_canonical: &mut bool,
    fault: &mut Fault,
) -> u32
    ensures done { result ≡ 0 → InWords bytes.now
        (TestIs (limits_of nesting words) is_canonical.new fault.new) }
    ensures refused { result ≢ 0 → IsNumberWhere result (λ r. RefusesSegment bytes.now r
        ⊎ InWords bytes.now (λ S. RefusesMeaning Command.Check (limits_of nesting words) S r)) }
    ensures none { result ≢ 0 → (is_canonical.new ≡ false) × (fault.new ≡ no_fault) }
    ensures granted { InWords bytes.now (HasAnswerWithin Command.Check (limits_of nesting words))
        → result ≡ 0 }
{
    match check_words(bytes, Limits { nesting, words }) {
        Ok(found) => {
            *is_canonical = found.is_none();
            *fault = Fault::of(found);
            0
        }
        Err(refusal) => {
            *is_canonical = false;
            *fault = NO_FAULT;
            refusal.number()
        }
    }
}

/// Like `capnp_canonical_size`, for a message with one segment, whose words the caller passes as
/// `bytes`, without a frame.
#[unsafe(no_mangle)]
pub extern "C" fn capnp_canonical_words_size(
    bytes: &[u8],
    nesting: i32,
    words: u64,
    word_count: &mut u64,
    cap_count: &mut u32,
) -> u32
    ensures done { result ≡ 0 → InWords bytes.now
        (λ S. HasSizeOf S (limits_of nesting words) word_count.new cap_count.new) }
    ensures refused { result ≢ 0 → IsNumberWhere result (λ r. RefusesSegment bytes.now r
        ⊎ InWords bytes.now (λ S. RefusesMeaning Command.Size (limits_of nesting words) S r)) }
    ensures none { result ≢ 0 → (word_count.new ≡ 0) × (cap_count.new ≡ 0) }
    ensures granted { InWords bytes.now (HasAnswerWithin Command.Size (limits_of nesting words))
        → result ≡ 0 }
{
    let size = size_words(bytes, Limits { nesting, words });
    store_size(size, word_count, cap_count)
}

/// Like `capnp_canonical_validate`, for the message whose only segment has the words in `bytes`.
#[unsafe(no_mangle)]
pub extern "C" fn capnp_canonical_words_validate(
    bytes: &[u8],
    nesting: i32,
    words: u64,
    extent: &mut SoundMessage,
) -> u32
    ensures done { result ≡ 0 → InWords bytes.now
        (ExtentIs (limits_of nesting words) extent.new) }
    ensures refused { result ≢ 0 → IsNumberWhere result (λ r. RefusesSegment bytes.now r
        ⊎ InWords bytes.now (λ S. RefusesExtent (limits_of nesting words) S r)) }
    ensures none { result ≢ 0 → extent.new ≡ no_extent }
    ensures granted { InWords bytes.now (λ S. IsReadable S (limits_of nesting words))
        → result ≡ 0 }
{
    let found = validate_words(bytes, Limits { nesting, words });
    store(found, NOT_SOUND, extent)
}

/// Like `capnp_canonical_locate`, for the message whose only segment has the words in `bytes`.
#[unsafe(no_mangle)]
pub extern "C" fn capnp_canonical_words_locate(
    bytes: &[u8],
    nesting: i32,
    words: u64,
    reading: u32,
    pointer: &mut BrokenPointer,
) -> u32
    ensures done { result ≡ 0 → InWords bytes.now
        (PointerIs reading (limits_of nesting words) pointer.new) }
    ensures refused { result ≢ 0 → IsNumberWhere result (RefusesSegment bytes.now) }
    ensures none { result ≢ 0 → pointer.new ≡ no_pointer }
    ensures granted { InWords bytes.now (λ _. ⊤) → result ≡ 0 }
{
    let found = locate_in_words(bytes, Limits { nesting, words }, reading);
    store(found, NO_POINTER, pointer)
}

/// Like `capnp_canonical_digest`, for a message with one segment, whose words the caller passes as
/// `bytes`, without a frame.
#[unsafe(no_mangle)]
pub extern "C" fn capnp_canonical_words_digest(
    alloc: Global,
    bytes: &[u8],
    nesting: i32,
    words: u64,
    digest: &mut [u8; 32],
) -> u32
    ensures done { result ≡ 0 → InWords bytes.now
        (λ S. IsDigestOf S (limits_of nesting words) digest.new) }
    ensures refused { result ≢ 0 → IsNumberWhere result (λ r. RefusesSegment bytes.now r
        ⊎ InWords bytes.now
        (λ S. RefusesMeaning (Command.Canon Form.Flat) (limits_of nesting words) S r)) }
    ensures none { result ≢ 0 → digest.new ≡ replicate 32 0 }
    ensures granted { InWords bytes.now
        (HasAnswerWithin (Command.Canon Form.Flat) (limits_of nesting words))
        → (result ≡ 0) ⊎ (result ≡ 32) }
    ensures lent { InWords bytes.now (NeedsNoHeap (limits_of nesting words))
        → result ≡ 0 }
{
    let made = digest_words_after(alloc, &[], bytes, Limits { nesting, words });
    store(made, [0; 32], digest)
}
