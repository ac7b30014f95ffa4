//! Writes the answers about one message.
ghost use Rattle.std.specs.Prelude.{◌≡◌, ◌≤◌, ◌<◌, ◌^◌, false, true, length};
ghost use Rattle.hex.specs.Hex.{encode_lower};
ghost use Rattle.capnp_format.specs.Bytes.{words_of};
ghost use Rattle.capnp_framing.specs.Frames.{bytes_of_words};
ghost use Rattle.capnp_framing.specs.Writing.{Writes};
ghost use Rattle.capnp_messages.specs.Text.{check_line};
ghost use Rattle.capnp_streams.specs.Streams.{fault_line, hex_line, no_text, segment_text, word_text, written_words};

use capnp_framing::devices::{DeviceFault, Output, write_all};
use capnp_messages::messages::{Form, write_words};
use capnp_messages::text::write_number;
use capnp_pointers::pointers::CanonicalFault;

/// The largest number of bytes that are written as hex digits at a time.
const PIECE: usize = 512;

/// The number of hex digits of `PIECE` bytes.
const DIGITS: usize = 2 * PIECE;

/// Writes the line for a canonical message.
pub(super) fn write_canonical_line<W: Output>(output: &mut W) -> Result<(), DeviceFault>
    requires { W.has_failed output.old ≡ false }
    ensures { Writes W.Output result output.old output.new (check_line true) }
{
    write_all(output, b"canonical\n")
}

/// Writes the beginning of the line for a message that isn't canonical.
#[tactic(auto, unfolding(crate::specs::Streams::no_text))]
fn write_not_canonical<W: Output>(output: &mut W) -> Result<(), DeviceFault>
    requires { W.has_failed output.old ≡ false }
    ensures { Writes W.Output result output.old output.new no_text }
{
    write_all(output, b"not canonical: ")
}

/// Writes the segment of the fault.
#[tactic(auto, unfolding(crate::specs::Streams::segment_text))]
fn write_segment_number<W: Output>(output: &mut W, segment: u64) -> Result<(), DeviceFault>
    requires { W.has_failed output.old ≡ false }
    ensures { Writes W.Output result output.old output.new (segment_text segment) }
{
    write_all(output, b" at segment ")?;
    write_number(output, segment)
}

/// Writes the word of the fault, and ends the line.
#[tactic(auto, unfolding(crate::specs::Streams::word_text))]
fn write_word_number<W: Output>(output: &mut W, word: u64) -> Result<(), DeviceFault>
    requires { W.has_failed output.old ≡ false }
    ensures { Writes W.Output result output.old output.new (word_text word) }
{
    write_all(output, b", word ")?;
    write_number(output, word)?;
    write_all(output, b"\n")
}

/// Writes the line for a message that isn't canonical: why, and where.
pub(super) fn write_fault<W: Output>(
    output: &mut W,
    fault: CanonicalFault,
) -> Result<(), DeviceFault>
    requires { W.has_failed output.old ≡ false }
    ensures { Writes W.Output result output.old output.new (fault_line fault) }
{
    write_not_canonical(output)?;
    write_all(output, fault.reason.text().as_bytes())?;
    write_segment_number(output, fault.segment)?;
    write_word_number(output, u64::from(fault.word))
}

/// Writes at most 512 bytes as lower case hex digits, two a byte.
fn write_hex_digits<W: Output>(output: &mut W, bytes: &[u8]) -> Result<(), DeviceFault>
    requires works { W.has_failed output.old ≡ false }
    requires few { length bytes.now ≤ 512 }
    ensures { Writes W.Output result output.old output.new (encode_lower bytes.now) }
{
    let mut buffer = [0u8; DIGITS];
    let digits = &mut buffer[..2 * bytes.len()];
    let _ = hex::encode_to_slice(bytes, &mut *digits);
    write_all(output, &*digits)
}

/// Writes bytes as a line of lower case hex digits, two a byte.
pub(super) fn write_hex_line<W: Output>(output: &mut W, bytes: &[u8]) -> Result<(), DeviceFault>
    requires { W.has_failed output.old ≡ false }
    ensures { Writes W.Output result output.old output.new (hex_line bytes.now) }
{
    let mut rest = bytes;
    while !rest.is_empty() {
        let n = rest.len().min(PIECE);
        write_hex_digits(output, &rest[..n])?;
        rest = &rest[n..];
    }
    write_all(output, b"\n")
}

/// Writes the canonical words in `bytes`. If `hex` is `true`, writes them as a line of lower case
/// hex digits; otherwise in a frame or as raw words, depending on `form`.
pub(super) fn write_canonical_words<W: Output>(
    output: &mut W,
    bytes: &[u8],
    hex: bool,
    form: Form,
) -> Result<(), DeviceFault>
    requires works { W.has_failed output.old ≡ false }
    requires short { length bytes.now < 2 ^ 35 }
    requires whole { bytes.now ≡ bytes_of_words (words_of bytes.now) }
    ensures { Writes W.Output result output.old output.new
        (written_words hex form (words_of bytes.now)) }
{
    if hex {
        write_hex_line(output, bytes)
    } else {
        write_words(output, bytes, form)
    }
}
