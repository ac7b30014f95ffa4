//! The functions for C that list the objects of a message.
ghost use Rattle.std.specs.Prelude.{◌≡◌, ◌⊎◌};
ghost use Rattle.capnp_format.specs.Bytes.{message};
ghost use Rattle.capnp_arena_traits.specs.Limits.{IsSmall};
ghost use Rattle.capnp_canonical.specs.Calls.{InFrame, InSegments, InWords, RefusesBytes, RefusesSegment, RefusesSegments, limits_of};
ghost use Rattle.capnp_walks.specs.Walks.{walk_message};
ghost use Rattle.capnp_canonical.specs.Walking.{NotWalked, c_walk};

use crate::calls::Limits;
use crate::frames::message_in;
use crate::refusal::Refusal;
use crate::segments::lent_message;
use crate::words::message_of;
use capnp_arena::arena::ReaderSegments;
use capnp_walks::walks::{WalkedObject, walk_message};

/// Lists the objects of the message in `segments` in `objects`, and stores their number in `count`.
fn walk<S: ReaderSegments + Drop>(
    segments: S,
    limits: Limits,
    objects: &mut [WalkedObject],
    count: &mut usize,
) -> u32
    requires { IsSmall (S.segments segments) }
    ensures { (objects.new, count.new, result) ≡ c_walk (walk_message
        (message (S.segments segments)) (limits_of limits.nesting limits.words)) objects.old }
{
    let walked = walk_message(segments, limits.options(), objects);
    let found = walked.count as usize;
    *count = found;
    match walked.refused {
        Some(pointer) => Refusal::Layout(pointer.refusal).number(),
        None => {
            if found > objects.len() {
                Refusal::NoRoom(found).number()
            } else {
                0
            }
        }
    }
}

/// Lists the objects of the message whose frame is at the front of `frame`: writes an entry for
/// each struct, list and capability to `objects`, each before those that its own pointers lead to,
/// and stores their number in `count`. Null pointers have no entry, and neither has an element of a
/// list of structs. Reads the message within `nesting` and `words`, like
/// `capnp_canonical_validate`. Takes no memory.
///
/// Answers 0 if all objects are listed; 1 if there are more than `objects` has room for: those that
/// fit are written, and all are counted. If the message isn't sound, the answer is that of
/// `capnp_canonical_validate`; the objects before the broken pointer are listed and counted. If
/// there is no such frame, `count` is 0. Entries of `objects` after the last object are unchanged.
#[unsafe(no_mangle)]
pub extern "C" fn capnp_canonical_walk(
    frame: &[u8],
    nesting: i32,
    words: u64,
    objects: &mut [WalkedObject],
    count: &mut usize,
) -> u32
    ensures { InFrame frame.now words (λ S. (objects.new, count.new, result)
        ≡ c_walk (walk_message S (limits_of nesting words)) objects.old)
        ⊎ NotWalked (RefusesBytes frame.now words) objects.old objects.new count.new result }
{
    match message_in(frame, words) {
        Ok(segments) => walk(segments, Limits { nesting, words }, objects, count),
        Err(refusal) => {
            *count = 0;
            refusal.number()
        }
    }
}

/// Like `capnp_canonical_walk`, for the message of these segments.
#[unsafe(no_mangle)]
pub extern "C" fn capnp_canonical_segments_walk(
    segments: &[&[u8]],
    nesting: i32,
    words: u64,
    objects: &mut [WalkedObject],
    count: &mut usize,
) -> u32
    ensures { InSegments segments.now (λ S. (objects.new, count.new, result)
        ≡ c_walk (walk_message S (limits_of nesting words)) objects.old)
        ⊎ NotWalked (RefusesSegments segments.now) objects.old objects.new count.new result }
{
    match lent_message(segments) {
        Ok(lent) => walk(lent, Limits { nesting, words }, objects, count),
        Err(refusal) => {
            *count = 0;
            refusal.number()
        }
    }
}

/// Like `capnp_canonical_walk`, for the message whose only segment has these words.
#[unsafe(no_mangle)]
pub extern "C" fn capnp_canonical_words_walk(
    bytes: &[u8],
    nesting: i32,
    words: u64,
    objects: &mut [WalkedObject],
    count: &mut usize,
) -> u32
    ensures { InWords bytes.now (λ S. (objects.new, count.new, result)
        ≡ c_walk (walk_message S (limits_of nesting words)) objects.old)
        ⊎ NotWalked (RefusesSegment bytes.now) objects.old objects.new count.new result }
{
    match message_of(bytes) {
        Ok(message) => walk(message, Limits { nesting, words }, objects, count),
        Err(refusal) => {
            *count = 0;
            refusal.number()
        }
    }
}
