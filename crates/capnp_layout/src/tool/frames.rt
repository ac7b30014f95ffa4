//! Writes frames and segments as lines of hex digits (encoding specification, "Serialization Over a
//! Stream").
ghost use Rattle.std.specs.Prelude.{◌≡◌, ◌<◌, ◌≤◌, ◌-◌, ◌/◌, ◌^◌, ◌++◌, false, true, length, replicate, OnOk, OnErr};
ghost use Rattle.std.specs.Int.{to_le_bytes, w32};
ghost use Rattle.hex.specs.Hex.{encode_lower};
ghost use Rattle.capnp_format.specs.Bytes.{message, words_of};
ghost use Rattle.capnp_format.specs.Segments.{segment};
ghost use Rattle.capnp_arena_traits.specs.Limits.{IsSmall};
ghost use Rattle.capnp_framing.specs.Frames.{contents, lengths, max_frame_segments, padding_size};
ghost use Rattle.capnp_framing.specs.Writing.{Writes};
ghost use Rattle.capnp_layout.specs.Commands.{AreWritable, form_line, frame_line, segment_lines};

use super::writing::{write_hex_digits, write_hex_line};
use crate::devices::{DeviceFault, Output, write_all};
use capnp_arena::arena::{OutputSegments, ReaderSegments};
use capnp_messages::messages::Form;

/// Returns the bytes of segment `id`, or no bytes if there is no such segment.
fn segment_at<S: ReaderSegments>(segments: &S, id: u32) -> &[u8]
    requires { IsSmall (S.segments segments.now) }
    ensures words { id < length (S.segments segments.now)
        → words_of result.now ≡ segment (message (S.segments segments.now)) id }
    ensures short { length result.now / 8 < 2 ^ 32 }
{
    match segments.get_segment(id) {
        Some(bytes) => bytes,
        None => &[],
    }
}

/// Writes a number in eight hex digits, the lowest byte first.
fn write_hex_u32<W: Output>(output: &mut W, number: u32) -> Result<(), DeviceFault>
    requires { W.has_failed output.old ≡ false }
    ensures { Writes W.Output result output.old output.new
        (encode_lower (to_le_bytes w32 number)) }
{
    let mut digits = [0u8; 8];
    let _ = hex::encode_to_slice(number.to_le_bytes().as_slice(), &mut digits);
    write_all(output, &digits)
}

/// Writes the number of words of each segment as hex digits.
fn write_lengths<W: Output, S: ReaderSegments>(
    output: &mut W,
    segments: &S,
) -> Result<(), DeviceFault>
    requires { AreWritable W.Output output.old (S.segments segments.now) }
    ensures { Writes W.Output result output.old output.new
        (encode_lower (lengths (message (S.segments segments.now)))) }
{
    for i in 0..segments.len() as u32 {
        let words = segment_at(segments, i).len() / 8;
        write_hex_u32(output, words as u32)?;
    }
    Ok(())
}

/// Writes the padding of a frame's table that has `count` sizes: four zero bytes if `count` is
/// even, otherwise nothing.
fn write_padding<W: Output>(output: &mut W, count: u32) -> Result<(), DeviceFault>
    requires works { W.has_failed output.old ≡ false }
    requires few { count ≤ max_frame_segments }
    ensures { Writes W.Output result output.old output.new
        (encode_lower (replicate (padding_size count) 0)) }
{
    if count % 2 == 0 {
        write_hex_u32(output, 0)
    } else {
        Ok(())
    }
}

/// Writes the words of all segments as hex digits, in order.
fn write_all_segments<W: Output, S: ReaderSegments>(
    output: &mut W,
    segments: &S,
) -> Result<(), DeviceFault>
    requires { AreWritable W.Output output.old (S.segments segments.now) }
    ensures { Writes W.Output result output.old output.new
        (encode_lower (contents (message (S.segments segments.now)))) }
{
    for i in 0..segments.len() as u32 {
        write_hex_digits(output, segment_at(segments, i))?;
    }
    Ok(())
}

/// Writes the frame of a message as one line of hex digits. The frame's padding is zero.
pub(crate) fn write_frame<W: Output, S: ReaderSegments>(
    output: &mut W,
    segments: &S,
) -> Result<(), DeviceFault>
    requires writable { AreWritable W.Output output.old (S.segments segments.now) }
    requires some { 1 ≤ length (S.segments segments.now) }
    requires few { length (S.segments segments.now) ≤ max_frame_segments }
    ensures { Writes W.Output result output.old output.new
        (frame_line (message (S.segments segments.now))) }
{
    let count = segments.len() as u32;
    write_hex_u32(output, count - 1)?;
    write_lengths(output, segments)?;
    write_padding(output, count)?;
    write_all_segments(output, segments)?;
    write_all(output, b"\n")
}

/// Writes the canonical words in `words` as one line of hex digits: in a frame or without one,
/// depending on `form`.
pub(crate) fn write_words_in_form<W: Output>(
    output: &mut W,
    words: &[u8],
    form: Form,
) -> Result<(), DeviceFault>
    requires works { W.has_failed output.old ≡ false }
    requires short { length words.now < 2 ^ 35 }
    ensures { Writes W.Output result output.old output.new (form_line form (words_of words.now)) }
{
    match form {
        Form::Flat => write_hex_line(output, words),
        Form::Framed => write_frame(output, &OutputSegments::SingleSegment(words)),
    }
}

/// Writes a line of hex digits for each segment of a message.
pub(crate) fn write_segment_lines<W: Output, S: ReaderSegments>(
    output: &mut W,
    segments: &S,
) -> Result<(), DeviceFault>
    requires { AreWritable W.Output output.old (S.segments segments.now) }
    ensures { Writes W.Output result output.old output.new
        (segment_lines (message (S.segments segments.now))) }
{
    for i in 0..segments.len() as u32 {
        write_hex_line(output, segment_at(segments, i))?;
    }
    Ok(())
}
