//! Reads a message from a stream of bytes (encoding specification, "Serialization Over a Stream").
ghost use Rattle.std.specs.Prelude.{◌≡◌, ℕ, ◌<◌, ◌≤◌, ◌+◌, ◌-◌, ◌*◌, [], false, true, length, take, drop, slice_index, Ok, None, IfSome, OnSome, IfOk, IfErr, OnOk, OnErr};
ghost use Rattle.std.specs.Int.{from_le_bytes, w32};
ghost use Rattle.std.specs.Io.KnownBytes.{Consumes, IsAtEnd};
ghost use Rattle.capnp_format.specs.Bytes.{message};
ghost use Rattle.capnp_arena_traits.specs.Limits.{IsSmall};
ghost use Rattle.capnp_framing.specs.Flat.{AreEnds};
ghost use Rattle.capnp_framing.specs.Frames.{max_frame_segments};
ghost use Rattle.capnp_framing.specs.Memory.{CountsMemory, WantsMemory, frame_refusals};
ghost use Rattle.capnp_framing.specs.Reading.{IsFrameRead, KeepsInput, NoFrameRead, WhyUnread, max_length, segments_told, total, words_told};

use super::MAX_SEGMENTS;
use super::frame_error::FrameError;
use super::owned_segments::OwnedSegments;
use crate::devices::{DeviceFault, Input};
use capnp_arena::arena::{Allocator, HeapAllocator, ReaderSegments};
use std::alloc::{AllocError, Global};

/// The most bytes by which memory grows before more bytes arrive. A table may announce more words
/// than follow it, so it isn't trusted for more memory than this.
const PIECE: usize = 1 << 18;

/// Reads until `to` is full or the input ends, and returns the number of bytes read.
pub(super) fn read_up_to<R: Input>(input: &mut R, to: &mut [u8]) -> Result<usize, DeviceFault>
    requires { R.has_failed input.old ≡ false }
    ensures within { IfOk result (λ n. n ≤ length to.new) }
    ensures bytes { IfOk result (λ n. Consumes (R.remaining input.old) (R.remaining input.new)
        (take n to.new)) }
    ensures end { IfOk result (λ n. n < length to.new → IsAtEnd (R.remaining input.new)) }
    ensures long { length to.new ≡ length to.old }
    ensures input { KeepsInput R.Input result input.old input.new }
    ensures fails { OnErr result (R.has_failed input.new ≡ true) }
{
    let mut n = 0;
    while n < to.len() {
        let more = input.read(&mut to[n..])?;
        if more == 0 {
            return Ok(n);
        }
        n += more;
    }
    Ok(n)
}

/// If `to` has no bytes after the first `n`, grows `to` by `more` bytes, or by `PIECE` bytes if
/// that is fewer. Takes their memory from the heap. If the heap has none, grows `to` like
/// `grow`.
pub(super) fn grow_if_full<A: Allocator>(
    allocator: &mut A,
    to: &mut Vec<u8>,
    n: usize,
    more: usize,
) -> Result<(), FrameError>
    requires within { n ≤ length to.old.items }
    requires some { 0 < more }
    ensures front { take n to.new.items ≡ take n to.old.items }
    ensures long { length to.old.items ≤ length to.new.items }
    ensures room { OnOk result (n < length to.new.items) }
    ensures memory { WantsMemory result (A.refusals allocator.old) (A.refusals allocator.new) }
{
    if n < to.len() {
        return Ok(());
    }
    match to.resize(n + more.min(PIECE), 0) {
        Ok(()) => Ok(()),
        Err(AllocError) => grow(allocator, to, n),
    }
}

/// Grows `to` by one byte or more, and leaves its first `n` bytes unchanged. If there is no memory
/// for one byte, refuses with `AllocationFailed`, and the allocator adds 1 to its count `refused`.
#[cold]
#[inline(never)]
fn grow<A: Allocator>(allocator: &mut A, to: &mut Vec<u8>, n: usize) -> Result<(), FrameError>
    requires { n ≤ length to.old.items }
    ensures front { take n to.new.items ≡ take n to.old.items }
    ensures long { length to.old.items ≤ length to.new.items }
    ensures room { OnOk result (length to.old.items < length to.new.items) }
    ensures memory { WantsMemory result (A.refusals allocator.old) (A.refusals allocator.new) }
{
    if allocator.keep(to, 0u8).is_some() {
        return Err(FrameError::AllocationFailed);
    }
    // Uses the whole capacity.
    let room = to.capacity();
    let _ = to.resize(room, 0);
    Ok(())
}

/// Reads into `to` from position `start` up to `end`, or until the input ends, and returns the
/// number of bytes read.
pub(super) fn read_between<R: Input>(
    input: &mut R,
    to: &mut [u8],
    start: usize,
    end: usize,
) -> Result<usize, DeviceFault>
    requires works { R.has_failed input.old ≡ false }
    requires order { start ≤ end }
    requires inside { end ≤ length to.old }
    ensures within { IfOk result (λ n. start + n ≤ end) }
    ensures bytes { IfOk result (λ n. Consumes (R.remaining input.old) (R.remaining input.new)
        (take n (drop start to.new))) }
    ensures end { IfOk result (λ n. start + n < end → IsAtEnd (R.remaining input.new)) }
    ensures front { take start to.new ≡ take start to.old }
    ensures long { length to.new ≡ length to.old }
    ensures input { KeepsInput R.Input result input.old input.new }
    ensures fails { OnErr result (R.has_failed input.new ≡ true) }
{
    read_up_to(input, &mut to[start..end])
}

/// Reads into all bytes of `to` from position `start` up to `end`. Refuses with `Truncated` if the
/// input ends first.
fn read_exact_between<R: Input>(
    input: &mut R,
    to: &mut [u8],
    start: usize,
    end: usize,
) -> Result<(), FrameError>
    requires works { R.has_failed input.old ≡ false }
    requires order { start ≤ end }
    requires inside { end ≤ length to.old }
    ensures bytes { OnOk result (Consumes (R.remaining input.old) (R.remaining input.new)
        (take (end - start) (drop start to.new))) }
    ensures front { take start to.new ≡ take start to.old }
    ensures long { length to.new ≡ length to.old }
    ensures input { KeepsInput R.Input result input.old input.new }
    ensures refused { IfErr result (WhyUnread R.Input input.old input.new (end - start)) }
    ensures uncounted { IfErr result (λ e. (n : ℕ) → frame_refusals e n ≡ n) }
{
    match read_between(input, to, start, end) {
        Ok(n) if n == end - start => Ok(()),
        Ok(_) => Err(FrameError::Truncated),
        Err(DeviceFault) => Err(FrameError::ReadFailed),
    }
}

/// Reads `size` bytes to the front of `to`, which grows if it has to.
#[inline(always)]
fn read_exact_to_front<A: Allocator, R: Input>(
    allocator: &mut A,
    input: &mut R,
    to: &mut Vec<u8>,
    size: usize,
) -> Result<(), FrameError>
    requires { R.has_failed input.old ≡ false }
    ensures bytes { OnOk result (Consumes (R.remaining input.old) (R.remaining input.new)
        (take size to.new.items)) }
    ensures long { OnOk result (size ≤ length to.new.items) }
    ensures input { KeepsInput R.Input result input.old input.new }
    ensures refused { IfErr result (WhyUnread R.Input input.old input.new size) }
    ensures memory { CountsMemory result (A.refusals allocator.old) (A.refusals allocator.new) }
{
    let mut n = 0;
    while n < size {
        grow_if_full(allocator, to, n, size - n)?;
        let end = size.min(to.len());
        read_exact_between(input, to.as_mut_slice(), n, end)?;
        n = end;
    }
    Ok(())
}

/// Returns the number in the four bytes of `table` from position `at` on, the lowest byte first.
pub(super) fn number_at(table: &[u8], at: usize) -> u32
    requires { at + 4 ≤ length table.now }
    ensures { result ≡ from_le_bytes w32 (take 4 (drop at table.now)) }
{
    u32::from_le_bytes([table[at], table[at + 1], table[at + 2], table[at + 3]])
}

/// Returns the total number of words of the segments from `first` up to, but not including, `end`,
/// by their sizes in `table`.
pub(super) fn words_between(table: &[u8], first: usize, end: usize) -> u64
    requires inside { 4 * end ≤ length table.now }
    requires few { end ≤ 512 }
    requires order { first ≤ end }
    ensures sum { words_told first table.now + result ≡ words_told end table.now }
    ensures small { result ≤ max_length * (end - first) }
{
    let mut words = 0;
    for i in first..end {
        words += u64::from(number_at(table, 4 * i));
    }
    words
}

/// Stores in `ends`, for each of the `count` segments with sizes in `table`, the number of words up
/// to the segment's end. Returns the number of all words.
fn segment_ends<A: Allocator>(
    allocator: &mut A,
    table: &[u8],
    count: usize,
    ends: &mut Vec<usize>,
) -> Result<usize, FrameError>
    requires inside { 4 * count ≤ length table.now }
    requires few { count ≤ 512 }
    ensures ends { OnOk result (AreEnds count table.now ends.new.items) }
    ensures sum { IfOk result (λ words. words ≡ words_told count table.now) }
    ensures small { IfOk result (λ words. words ≤ max_length * count) }
    ensures memory { WantsMemory result (A.refusals allocator.old) (A.refusals allocator.new) }
{
    ends.clear();
    let mut sum = 0;
    for i in 0..count {
        sum += number_at(table, 4 * i) as usize;
        if allocator.keep(ends, sum).is_some() {
            return Err(FrameError::AllocationFailed);
        }
    }
    Ok(sum)
}

/// Does nothing; its contract states that each byte is below 256.
fn bytes_are_below_256(bytes: &[u8])
    ensures { (i : ℕ) → slice_index bytes.now i < 256 }
{}

/// Reads the first four bytes and returns the number of segments that they state; `None` if the
/// input is at its end.
#[inline(always)]
fn read_segment_count<R: Input>(
    input: &mut R,
    first: &mut [u8; 4],
) -> Result<Option<usize>, FrameError>
    requires { R.has_failed input.old ≡ false }
    ensures end { result ≡ Ok None
        → IsAtEnd (R.remaining input.old) × IsAtEnd (R.remaining input.new) }
    ensures bytes { IfOk result (λ m. OnSome m
        (Consumes (R.remaining input.old) (R.remaining input.new) first.new)) }
    ensures told { IfOk result (λ m. IfSome m (λ n. n ≡ segments_told first.new)) }
    ensures few { IfOk result (λ m. IfSome m (λ n. n ≤ max_frame_segments)) }
    ensures below { IfOk result (λ m. OnSome m ((i : ℕ) → slice_index first.new i < 256)) }
    ensures input { KeepsInput R.Input result input.old input.new }
    ensures refused { (most : ℕ) → IfErr result (NoFrameRead R.Input input.old input.new most) }
    ensures uncounted { IfErr result (λ e. (n : ℕ) → frame_refusals e n ≡ n) }
{
    match read_up_to(input, first) {
        Ok(0) => return Ok(None),
        Ok(4) => {}
        Ok(_) => return Err(FrameError::Truncated),
        Err(DeviceFault) => return Err(FrameError::ReadFailed),
    }
    bytes_are_below_256(first);
    let told = u64::from(u32::from_le_bytes(*first)) + 1;
    if told > MAX_SEGMENTS as u64 {
        return Err(FrameError::TooManySegments(told));
    }
    Ok(Some(told as usize))
}

/// Reads a message from the front of `input` into `into`, whose memory is reused, and leaves what
/// follows the message unread. Returns `true` if a message was read. Returns `false` if the input
/// is at its end; `into` has no segments then. Precondition: `input` hasn't failed.
///
/// Refusals, in this order: `Truncated` if there are fewer than four bytes; `TooManySegments(n)` if
/// there are n segments, and n is above 512; `Truncated` if the table is cut short, padding
/// included; `MessageTooLong(n)` if the segments have n words, and n is above `max_words`;
/// `Truncated` if the words are cut short. Also `ReadFailed` exactly if the input failed; and
/// `AllocationFailed` if memory ran out.
///
/// What has been read after a refusal: for `TooManySegments`, the four bytes of the number of
/// segments; for `MessageTooLong`, the table; for `Truncated`, all of the input; for all other
/// refusals, this is unspecified. Which segments `into` has after a refusal is unspecified, too.
///
/// The memory taken grows with the bytes that arrive, not with those that the table announces.
/// Takes memory only if the message has more segments, or more words, than each message that was
/// read into `into` before. Memory for the bytes read comes from the heap; only if the heap has
/// none, it is requested from `allocator`. So a limit of the allocator doesn't limit this memory.
/// Memory for the list of the segments' ends is always requested from `allocator`. If the refusal
/// is `AllocationFailed`, adds 1 to the allocator's count `refused`; otherwise leaves this count
/// unchanged.
pub fn read_into_with<A: Allocator, R: Input>(
    allocator: &mut A,
    input: &mut R,
    max_words: u64,
    into: &mut OwnedSegments,
) -> Result<bool, FrameError>
    requires { R.has_failed input.old ≡ false }
    ensures end { result ≡ Ok false
        → IsAtEnd (R.remaining input.old) × IsAtEnd (R.remaining input.new) }
    ensures none { result ≡ Ok false → ⟦<OwnedSegments as ReaderSegments>⟧.segments into.new ≡ [] }
    ensures read { result ≡ Ok true → IsFrameRead R.Input input.old input.new
        (message (⟦<OwnedSegments as ReaderSegments>⟧.segments into.new)) }
    ensures most { result ≡ Ok true →
        total (message (⟦<OwnedSegments as ReaderSegments>⟧.segments into.new)) ≤ max_words }
    ensures small { IsSmall (⟦<OwnedSegments as ReaderSegments>⟧.segments into.new) }
    ensures input { KeepsInput R.Input result input.old input.new }
    ensures refused { IfErr result (NoFrameRead R.Input input.old input.new max_words) }
    ensures memory { CountsMemory result (A.refusals allocator.old) (A.refusals allocator.new) }
{
    into.count = 0;
    let mut first = [0u8; 4];
    let count = match read_segment_count(input, &mut first)? {
        Some(count) => count,
        None => return Ok(false),
    };
    let size = 4 * count + 4 * ((count + 1) % 2);
    read_exact_to_front(allocator, input, &mut into.table, size)?;
    let words = segment_ends(allocator, into.table.as_slice(), count, &mut into.ends)?;
    if words as u64 > max_words {
        return Err(FrameError::MessageTooLong(words as u64));
    }
    read_exact_to_front(allocator, input, &mut into.words, 8 * words)?;
    bytes_are_below_256(into.table.as_slice());
    bytes_are_below_256(into.words.as_slice());
    into.count = count;
    Ok(true)
}

/// Like `read_into_with`, without an allocator: all memory comes from the heap. Precondition:
/// `input` hasn't failed.
pub fn read_into<R: Input>(
    input: &mut R,
    max_words: u64,
    into: &mut OwnedSegments,
) -> Result<bool, FrameError>
    requires { R.has_failed input.old ≡ false }
    ensures end { result ≡ Ok false
        → IsAtEnd (R.remaining input.old) × IsAtEnd (R.remaining input.new) }
    ensures none { result ≡ Ok false → ⟦<OwnedSegments as ReaderSegments>⟧.segments into.new ≡ [] }
    ensures read { result ≡ Ok true → IsFrameRead R.Input input.old input.new
        (message (⟦<OwnedSegments as ReaderSegments>⟧.segments into.new)) }
    ensures most { result ≡ Ok true →
        total (message (⟦<OwnedSegments as ReaderSegments>⟧.segments into.new)) ≤ max_words }
    ensures small { IsSmall (⟦<OwnedSegments as ReaderSegments>⟧.segments into.new) }
    ensures input { KeepsInput R.Input result input.old input.new }
    ensures refused { IfErr result (NoFrameRead R.Input input.old input.new max_words) }
{
    let mut heap = HeapAllocator::new(*into.words.allocator(), 0);
    read_into_with(&mut heap, input, max_words, into)
}

/// Reads a message from the front of `input`, and leaves what follows the message unread. Returns
/// `None` if the input is at its end. Precondition: `input` hasn't failed.
///
/// Refuses what `read_into` refuses, and has then read as much of the input as `read_into` would.
pub fn read<R: Input>(
    alloc: Global,
    input: &mut R,
    max_words: u64,
) -> Result<Option<OwnedSegments>, FrameError>
    requires { R.has_failed input.old ≡ false }
    ensures end { result ≡ Ok None
        → IsAtEnd (R.remaining input.old) × IsAtEnd (R.remaining input.new) }
    ensures read { IfOk result (λ m.
        IfSome m (λ owned. IsFrameRead R.Input input.old input.new
        (message (⟦<OwnedSegments as ReaderSegments>⟧.segments owned)))) }
    ensures most { IfOk result (λ m.
        IfSome m (λ owned. total (message (⟦<OwnedSegments as ReaderSegments>⟧.segments owned))
        ≤ max_words)) }
    ensures small { IfOk result (λ m.
        IfSome m (λ owned. IsSmall (⟦<OwnedSegments as ReaderSegments>⟧.segments owned))) }
    ensures input { KeepsInput R.Input result input.old input.new }
    ensures refused { IfErr result (NoFrameRead R.Input input.old input.new max_words) }
{
    let mut owned = OwnedSegments::new(alloc);
    if read_into(input, max_words, &mut owned)? {
        Ok(Some(owned))
    } else {
        Ok(None)
    }
}
