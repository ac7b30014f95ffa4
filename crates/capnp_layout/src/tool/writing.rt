//! Writes the lines that the program prints.
ghost use Rattle.std.specs.Prelude.{◌≡◌, ◌+◌, ◌++◌, ◌∷◌, [], false, true, OnOk, OnErr};
ghost use Rattle.capnp_format.specs.Bytes.{words_of};
ghost use Rattle.capnp_messages.specs.Text.{check_line};
ghost use Rattle.capnp_layout.specs.Answers.{word_digits, digits_of};
ghost use Rattle.capnp_layout.specs.Commands.{message_line};
ghost use Rattle.capnp_layout.specs.Refusals.{refusal_line};
ghost use Rattle.capnp_framing.specs.Writing.{Writes};

use super::refusal::Refusal;
use crate::devices::{DeviceFault, Output, write_all};
use capnp_words::words::word_at;

/// Writes a word in 16 hex digits, the lowest byte first.
fn write_word_digits<W: Output>(output: &mut W, word: u64) -> Result<(), DeviceFault>
    requires { W.has_failed output.old ≡ false }
    ensures { Writes W.Output result output.old output.new (word_digits word) }
{
    let mut digits = [0u8; 16];
    let _ = hex::encode_to_slice(word.to_le_bytes().as_slice(), &mut digits);
    write_all(output, &digits)
}

/// Writes all whole words of a segment as hex digits.
pub(crate) fn write_hex_digits<W: Output>(output: &mut W, segment: &[u8]) -> Result<(), DeviceFault>
    requires { W.has_failed output.old ≡ false }
    ensures { Writes W.Output result output.old output.new
        (digits_of (words_of segment.now)) }
{
    for at in 0..segment.len() / 8 {
        write_word_digits(output, word_at(segment, at))?;
    }
    Ok(())
}

/// Writes all whole words of a segment as one line of hex digits.
pub(crate) fn write_hex_line<W: Output>(output: &mut W, segment: &[u8]) -> Result<(), DeviceFault>
    requires { W.has_failed output.old ≡ false }
    ensures { Writes W.Output result output.old output.new
        (digits_of (words_of segment.now) ++ 10 ∷ []) }
{
    write_hex_digits(output, segment)?;
    write_all(output, b"\n")
}

/// Writes the line that says whether a message is canonical.
pub(crate) fn write_check<W: Output>(output: &mut W, is_canonical: bool) -> Result<(), DeviceFault>
    requires { W.has_failed output.old ≡ false }
    ensures { Writes W.Output result output.old output.new
        (check_line is_canonical) }
{
    if is_canonical {
        write_all(output, b"canonical\n")
    } else {
        write_all(output, b"not canonical\n")
    }
}

/// Writes the line that says whether a message is canonical as a whole.
pub(crate) fn write_message_check<W: Output>(
    output: &mut W,
    is_canonical: bool,
) -> Result<(), DeviceFault>
    requires { W.has_failed output.old ≡ false }
    ensures { Writes W.Output result output.old output.new
        (message_line is_canonical) }
{
    if is_canonical {
        write_all(output, b"canonical message\n")
    } else {
        write_all(output, b"not a canonical message\n")
    }
}

/// Writes the line that names a refusal.
pub(crate) fn write_refusal<W: Output>(output: &mut W, refusal: Refusal) -> Result<(), DeviceFault>
    requires { W.has_failed output.old ≡ false }
    ensures { Writes W.Output result output.old output.new (refusal_line refusal) }
{
    write_all(output, b"refused ")?;
    write_all(output, refusal.name().as_bytes())?;
    write_all(output, b"\n")
}
