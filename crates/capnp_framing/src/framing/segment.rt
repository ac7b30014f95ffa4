//! Reads a message of one segment from its words, without a frame (encoding specification,
//! "Messages").
ghost use Rattle.std.specs.Prelude.{◌≡◌, ◌⊎◌, ℕ, ◌<◌, ◌≤◌, ◌+◌, ◌++◌, [], false, true, length, take, drop, IfSome, IfOk, IfErr, OnOk, OnErr};
ghost use Rattle.std.specs.Io.KnownBytes.{Consumes, IsAtEnd};
ghost use Rattle.capnp_arena_traits.specs.Limits.{IsSmall};
ghost use Rattle.capnp_framing.specs.Bare.{IsSegmentRead, NoSegmentRead};
ghost use Rattle.capnp_framing.specs.Flat.{AreEnds};
ghost use Rattle.capnp_framing.specs.Memory.{CountsMemory, WantsMemory};
ghost use Rattle.capnp_framing.specs.Reading.{KeepsInput, words_told};
ghost use Rattle.capnp_framing.specs.declared.framing.frame_error.FrameError.TheVariants.{AllocationFailed, ReadFailed};

use super::frame_error::FrameError;
use super::owned_segments::OwnedSegments;
use super::reading::{grow_if_full, read_between};
use crate::devices::{DeviceFault, Input};
use capnp_arena::arena::{Allocator, HeapAllocator, ReaderSegments};

/// The most words that a segment table can state for a segment.
const MAX_WORDS: u64 = (1 << 32) - 1;

/// The most bytes by which memory grows before any byte arrives. After that, memory grows each time
/// by at most as many bytes as have arrived, or by this number if that is more.
const FIRST_PIECE: usize = 1 << 12;

/// Reads to the front of `to`, which grows as bytes arrive, until `most` bytes are read or the
/// input ends. Returns the number of bytes read.
fn read_to_end<A: Allocator, R: Input>(
    allocator: &mut A,
    input: &mut R,
    to: &mut Vec<u8>,
    most: usize,
) -> Result<usize, FrameError>
    requires { R.has_failed input.old ≡ false }
    ensures most { IfOk result (λ n. n ≤ most) }
    ensures within { IfOk result (λ n. n ≤ length to.new.items) }
    ensures bytes { IfOk result (λ n. Consumes (R.remaining input.old) (R.remaining input.new)
        (take n to.new.items)) }
    ensures end { IfOk result (λ n. n < most → IsAtEnd (R.remaining input.new)) }
    ensures input { KeepsInput R.Input result input.old input.new }
    ensures refused { IfErr result (λ e. (e ≡ AllocationFailed)
        ⊎ ((e ≡ ReadFailed) × (R.has_failed input.new ≡ true))) }
    ensures failed { IfErr result (λ e. R.has_failed input.new ≡ true → e ≡ ReadFailed) }
    ensures memory { CountsMemory result (A.refusals allocator.old) (A.refusals allocator.new) }
{
    let mut n = 0;
    while n < most {
        let more = (most - n).min(n.max(FIRST_PIECE));
        grow_if_full(allocator, to, n, more)?;
        let end = most.min(to.len());
        let came = match read_between(input, to.as_mut_slice(), n, end) {
            Ok(came) => came,
            Err(DeviceFault) => return Err(FrameError::ReadFailed),
        };
        n += came;
        if n < end {
            return Ok(n);
        }
    }
    Ok(n)
}

/// Appends `bytes` to `list`. If there is no memory for a byte, refuses with `AllocationFailed`,
/// and the allocator adds 1 to its count `refused`.
fn append_bytes<A: Allocator>(
    allocator: &mut A,
    list: &mut Vec<u8>,
    bytes: &[u8],
) -> Result<(), FrameError>
    ensures put { OnOk result (list.new.items ≡ list.old.items ++ bytes.now) }
    ensures memory { WantsMemory result (A.refusals allocator.old) (A.refusals allocator.new) }
{
    for byte in bytes {
        if allocator.keep(list, *byte).is_some() {
            return Err(FrameError::AllocationFailed);
        }
    }
    Ok(())
}

/// Replaces the contents of `table` and `ends` by those for a message whose only segment has
/// `words` words: the segment's size, and the number of words up to its end.
fn set_single_segment<A: Allocator>(
    allocator: &mut A,
    words: u32,
    table: &mut Vec<u8>,
    ends: &mut Vec<usize>,
) -> Result<(), FrameError>
    ensures long { OnOk result (length table.new.items ≡ 4) }
    ensures told { OnOk result (words_told 1 table.new.items ≡ words) }
    ensures ends { OnOk result (AreEnds 1 table.new.items ends.new.items) }
    ensures memory { WantsMemory result (A.refusals allocator.old) (A.refusals allocator.new) }
{
    table.clear();
    ends.clear();
    append_bytes(allocator, table, words.to_le_bytes().as_slice())?;
    if allocator.keep(ends, words as usize).is_some() {
        return Err(FrameError::AllocationFailed);
    }
    Ok(())
}

/// Reads all of `input` as the words of a message's only segment into `into`, whose memory is
/// reused. From an input without bytes, reads a segment of no words. Precondition: `input` hasn't
/// failed.
///
/// Refusals: `MessageTooLong(n)` if there are more than `max_words` words, or more than 2^32 - 1,
/// the most that a segment can have. Here n is the number of the first word that is too many,
/// counted from 1; no word after that one is read. `Truncated` if the bytes end inside a word.
/// `ReadFailed` exactly if the input failed. `AllocationFailed` if memory ran out. After a refusal
/// `into` has no segments.
///
/// The memory taken grows with the bytes that arrive, to at most twice as many bytes, or 4 KiB if
/// that is more. Takes memory only if the message has more words than each message that this call
/// read into `into` before. Memory for the bytes read comes from the heap; only if the heap has
/// none, it is requested from `allocator`. Memory for the segment's size and end is always
/// requested from `allocator`. If the refusal is `AllocationFailed`, adds 1 to the allocator's
/// count `refused`; otherwise leaves this count unchanged.
pub fn read_segment_into_with<A: Allocator, R: Input>(
    allocator: &mut A,
    input: &mut R,
    max_words: u64,
    into: &mut OwnedSegments,
) -> Result<(), FrameError>
    requires { R.has_failed input.old ≡ false }
    ensures read { OnOk result (IsSegmentRead R.Input input.old input.new max_words
        (⟦<OwnedSegments as ReaderSegments>⟧.segments into.new)) }
    ensures end { OnOk result (IsAtEnd (R.remaining input.new)) }
    ensures small { IsSmall (⟦<OwnedSegments as ReaderSegments>⟧.segments into.new) }
    ensures input { KeepsInput R.Input result input.old input.new }
    ensures refused { IfErr result (NoSegmentRead R.Input input.old input.new max_words) }
    ensures none { OnErr result (⟦<OwnedSegments as ReaderSegments>⟧.segments into.new ≡ []) }
    ensures memory { CountsMemory result (A.refusals allocator.old) (A.refusals allocator.new) }
{
    into.count = 0;
    let most = max_words.min(MAX_WORDS) as usize;
    let beyond = 8 * most + 8;
    let size = read_to_end(allocator, input, &mut into.words, beyond)?;
    if size == beyond {
        return Err(FrameError::MessageTooLong(most as u64 + 1));
    }
    if size % 8 != 0 {
        return Err(FrameError::Truncated);
    }
    set_single_segment(
        allocator,
        (size / 8) as u32,
        &mut into.table,
        &mut into.ends,
    )?;
    into.count = 1;
    Ok(())
}

/// Like `read_segment_into_with`, without an allocator: all memory comes from the heap.
/// Precondition: `input` hasn't failed.
pub fn read_segment_into<R: Input>(
    input: &mut R,
    max_words: u64,
    into: &mut OwnedSegments,
) -> Result<(), FrameError>
    requires { R.has_failed input.old ≡ false }
    ensures read { OnOk result (IsSegmentRead R.Input input.old input.new max_words
        (⟦<OwnedSegments as ReaderSegments>⟧.segments into.new)) }
    ensures end { OnOk result (IsAtEnd (R.remaining input.new)) }
    ensures small { IsSmall (⟦<OwnedSegments as ReaderSegments>⟧.segments into.new) }
    ensures input { KeepsInput R.Input result input.old input.new }
    ensures refused { IfErr result (NoSegmentRead R.Input input.old input.new max_words) }
    ensures none { OnErr result (⟦<OwnedSegments as ReaderSegments>⟧.segments into.new ≡ []) }
{
    let mut heap = HeapAllocator::new(*into.words.allocator(), 0);
    read_segment_into_with(&mut heap, input, max_words, into)
}
