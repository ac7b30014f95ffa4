//! Writes a message to a stream of bytes (encoding specification, "Serialization Over a Stream").
ghost use Rattle.std.specs.Prelude.{◌≡◌, ◌⊎◌, ◌<◌, ◌≤◌, ◌+◌, ◌-◌, ◌*◌, ◌^◌, ◌++◌, All, false, true, length, take, drop, replicate, Err, IfErr, OnOk, OnErr};
ghost use Rattle.std.specs.Int.{to_le_bytes, w32};
ghost use Rattle.capnp_format.specs.Bytes.{message, words_of};
ghost use Rattle.capnp_format.specs.Segments.{segment};
ghost use Rattle.capnp_arena_traits.specs.Limits.{IsSmall};
ghost use Rattle.capnp_framing.specs.Frames.{CanBeFramed, AreSegmentWords, bytes_of_words, contents, frame, lengths, max_frame_segments, padding_size};
ghost use Rattle.capnp_framing.specs.Reading.{IsRefusedNumber};
ghost use Rattle.capnp_framing.specs.Writing.{CanWrite, IsUnwritten, Prints, Writes};
ghost use Rattle.capnp_framing.specs.declared.framing.frame_error.FrameError.TheVariants.{WriteFailed};
ghost use borrow.Rule.Slice.PartMut.{put_mid};

use super::MAX_SEGMENTS;
use super::frame_error::FrameError;
use crate::devices::{DeviceFault, Output, write_all};
use capnp_arena::arena::ReaderSegments;
use capnp_words::words::{count, word_range};

/// Returns the whole words of segment `id`; no bytes if there is no such segment.
fn segment_words<S: ReaderSegments>(segments: &S, id: u32) -> &[u8]
    requires small { IsSmall (S.segments segments.now) }
    ensures words { words_of result.now ≡ segment (message (S.segments segments.now)) id }
    ensures whole { length result.now ≡ 8 * length (words_of result.now) }
    ensures short { length (words_of result.now) < 2 ^ 32 }
{
    match segments.get_segment(id) {
        Some(bytes) => word_range(bytes, 0, count(bytes)),
        None => &[],
    }
}

/// Writes `number` to the four bytes of `to` from position `at` on, the lowest byte first.
fn put_number(to: &mut [u8], at: usize, number: u32)
    requires { at + 4 ≤ length to.old }
    ensures { to.new ≡ put_mid at 4 to.old (to_le_bytes w32 number) }
{
    to[at..at + 4].copy_from_slice(number.to_le_bytes().as_slice());
}

/// Returns the bytes of `first`, then those of `second`; the lowest byte of each number comes
/// first.
fn number_pair_bytes(first: u32, second: u32) -> [u8; 8]
    ensures { result ≡ to_le_bytes w32 first ++ to_le_bytes w32 second }
{
    let mut bytes = [0u8; 8];
    put_number(&mut bytes, 0, first);
    put_number(&mut bytes, 4, second);
    bytes
}

/// The size of segment `id` in words; 0 if there is no such segment.
fn segment_length<S: ReaderSegments>(segments: &S, id: u32) -> u32
    requires small { IsSmall (S.segments segments.now) }
    ensures { result ≡ length (segment (message (S.segments segments.now)) id) }
{
    (segment_words(segments, id).len() / 8) as u32
}

/// Writes the table of a message: the number of segments minus one, and each segment's size in
/// words. Writes two numbers at a time; padding is written as the size 0 of a segment that doesn't
/// exist.
fn write_table<W: Output, S: ReaderSegments>(
    output: &mut W,
    segments: &S,
    count: u32,
) -> Result<(), DeviceFault>
    requires ready { CanWrite W.Output output.old (S.segments segments.now) count }
    requires some { 1 ≤ count }
    requires few { count ≤ max_frame_segments }
    ensures { Writes W.Output result output.old output.new
        (to_le_bytes w32 (count - 1)
        ++ (lengths (message (S.segments segments.now)) ++ replicate (padding_size count) 0)) }
{
    let first = number_pair_bytes(count - 1, segment_length(segments, 0));
    write_all(output, first.as_slice())?;
    for k in 0..count / 2 {
        let next = number_pair_bytes(
            segment_length(segments, 2 * k + 1),
            segment_length(segments, 2 * k + 2),
        );
        write_all(output, next.as_slice())?;
    }
    Ok(())
}

/// Writes `words`. Precondition: these are whole words.
fn write_words<W: Output>(output: &mut W, words: &[u8]) -> Result<(), DeviceFault>
    requires works { W.has_failed output.old ≡ false }
    requires whole { length words.now ≡ 8 * length (words_of words.now) }
    ensures writes { Writes W.Output result output.old output.new
        (bytes_of_words (words_of words.now)) }
    ensures words { AreSegmentWords (words_of words.now) }
{
    write_all(output, words)
}

/// Writes the words of all segments, in order.
fn write_all_segments<W: Output, S: ReaderSegments>(
    output: &mut W,
    segments: &S,
    count: u32,
) -> Result<(), DeviceFault>
    requires { CanWrite W.Output output.old (S.segments segments.now) count }
    ensures writes { Writes W.Output result output.old output.new
        (contents (message (S.segments segments.now))) }
    ensures words { OnOk result (All AreSegmentWords (message (S.segments segments.now))) }
{
    for i in 0..count {
        write_words(output, segment_words(segments, i))?;
    }
    Ok(())
}

/// Writes a message as a frame: a table of its segments' sizes, with zero padding, and then the
/// words of each segment. Bytes after a segment's last whole word aren't written. Takes no memory.
/// Preconditions: `output` hasn't failed; `segments` has fewer than 2^32 segments, each of fewer
/// than 2^32 words.
///
/// Refusals: `NoSegments` if there are no segments; `TooManySegments(n)` if there are n segments,
/// and n is above 512. After these two refusals, nothing is written. `WriteFailed` if the output
/// failed; after it, how much is written is unspecified.
pub fn write<W: Output, S: ReaderSegments>(output: &mut W, segments: &S) -> Result<(), FrameError>
    requires works { W.has_failed output.old ≡ false }
    requires small { IsSmall (S.segments segments.now) }
    ensures written { OnOk result (Prints W.Output output.old output.new
        (frame (message (S.segments segments.now)))) }
    ensures framed { OnOk result (CanBeFramed (message (S.segments segments.now))) }
    ensures works { OnOk result (W.has_failed output.new ≡ false) }
    ensures refused { IfErr result (λ e. (e ≡ WriteFailed)
        ⊎ (IsRefusedNumber (length (S.segments segments.now)) e
        × IsUnwritten W.Output output.old output.new)) }
    ensures failed { result ≡ Err WriteFailed → W.has_failed output.new ≡ true }
{
    let count = segments.len();
    if count == 0 {
        return Err(FrameError::NoSegments);
    }
    if count > MAX_SEGMENTS {
        return Err(FrameError::TooManySegments(count as u64));
    }
    if write_table(output, segments, count as u32).is_err() {
        return Err(FrameError::WriteFailed);
    }
    match write_all_segments(output, segments, count as u32) {
        Ok(()) => Ok(()),
        Err(DeviceFault) => Err(FrameError::WriteFailed),
    }
}
