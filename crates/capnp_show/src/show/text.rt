//! A text in memory that can't grow beyond its bound.
ghost use Rattle.std.specs.Prelude.{◌≡◌, ◌≤◌, ◌<◌, ◌+◌, ◌++◌, ◌∷◌, [], false, true, take, drop, vec_len, length, IfErr, MatchOption, OnOk};
ghost use Rattle.std.specs.Fmt.{decimal};
ghost use Rattle.hex.specs.Hex.{encode_lower};
ghost use Rattle.capnp_framing.specs.Writing.{Writes};
ghost use Rattle.capnp_show.specs.Adding.{Adds, max_text};
ghost use Rattle.capnp_show.specs.Show.{PrintsAtMost};
ghost use Rattle.capnp_show.specs.Line.{ends_control, escape, escaped, has_control_after, in_quotes};
ghost use Rattle.capnp_show.specs.Line.{is_control, is_plain_text, reads_as_text, without_last};

use capnp_framing::devices::{DeviceFault, Output, write_all};
use std::alloc::Global;

/// The most bytes that are written for one message: 67,108,864, which is 64 MiB.
pub const MOST_BYTES: usize = 67_108_864;

/// The line that says that the text of a message is cut.
pub(super) const CUT_LINE: &[u8] = b"\ncut at 67108864 bytes\n";

/// The same line, if parts of lines have colors: it begins with the end of a part.
pub(super) const CUT_COLORED_LINE: &[u8] = b"\x1b[0m\ncut at 67108864 bytes\n";

/// The line of JSON that says that a message isn't shown, since its line would be too long.
pub(super) const CUT_OBJECT: &[u8] = b"{\"cut\":\"length\"}\n";

/// The number of bytes that are kept free for the line that says that the text is cut.
const KEPT: usize = 64;

/// The largest number of bytes that are written as hex digits at a time.
const PIECE: usize = 512;

/// The hex digits.
const HEX_DIGITS: [u8; 16] = *b"0123456789abcdef";

/// How many bytes of a text are shown.
const MOST_TEXT: usize = 1024;

/// Why a text ends before its end.
#[derive(Clone, Copy)]
pub(super) enum Ended {
    /// It has as many bytes as it may have.
    Full,
    /// Memory ran out.
    NoMemory,
    /// It has the byte that was looked for.
    Found,
}

/// A text of at most `MOST_BYTES` bytes.
#[derive(Drop)]
pub(super) struct Text {
    bytes: Vec<u8>,
    ghost bounded: { vec_len bytes ≤ 67108864 },
}

impl Text {
    /// Makes an empty text.
    pub(super) fn new(alloc: Global) -> Self
        ensures { length result.bytes.items ≡ 0 }
    {
        Text {
            bytes: Vec::new(alloc),
        }
    }

    /// The bytes of the text.
    pub(super) fn bytes(&self) -> &[u8]
        ensures value { result.now ≡ self.now.bytes.items }
        ensures bounded { length result.now ≤ 67108864 }
    {
        self.bytes.as_slice()
    }

    /// The number of bytes.
    pub(super) fn len(&self) -> usize {
        self.bytes.len()
    }

    /// Removes the bytes from position `len` on.
    pub(super) fn truncate(&mut self, len: usize)
        ensures { self.new.bytes.items ≡ take len self.old.bytes.items }
    {
        self.bytes.truncate(len);
    }

    /// Adds `bytes` if the text then has at most `most` bytes.
    fn push_within(&mut self, most: usize, bytes: &[u8]) -> Result<(), Ended>
        requires { most ≤ 67108864 }
        ensures added { OnOk result (self.new.bytes.items ≡ self.old.bytes.items ++ bytes.now) }
        ensures fits { OnOk result (length self.new.bytes.items ≤ most) }
        ensures full { IfErr result (λ e. e ≡ Ended.Full
            → most < length (self.old.bytes.items ++ bytes.now)) }
    {
        if self.bytes.len() > most || most - self.bytes.len() < bytes.len() {
            return Err(Ended::Full);
        }
        match self.bytes.extend_from_slice(bytes) {
            Ok(()) => Ok(()),
            Err(_) => Err(Ended::NoMemory),
        }
    }

    /// Adds `bytes`, and leaves `KEPT` bytes free.
    pub(super) fn push(&mut self, bytes: &[u8]) -> Result<(), Ended>
        ensures { Adds result self.old.bytes.items self.new.bytes.items bytes.now }
    {
        self.push_within(MOST_BYTES - KEPT, bytes)
    }

    /// Adds the `last` bytes, and leaves `KEPT` bytes free.
    pub(super) fn push_last_bytes(&mut self, last: &[u8]) -> Result<(), Ended>
        ensures adds { Adds result self.old.bytes.items self.new.bytes.items last.now }
        ensures fits { OnOk result (length self.new.bytes.items ≤ max_text) }
    {
        self.push_within(MOST_BYTES - KEPT, last)
    }

    /// Adds `bytes` to the end of the text, also to the bytes that were kept free.
    pub(super) fn push_into_kept(&mut self, bytes: &[u8]) -> Result<(), Ended>
        ensures { OnOk result (self.new.bytes.items ≡ self.old.bytes.items ++ bytes.now) }
    {
        self.push_within(MOST_BYTES, bytes)
    }

    /// Writes the text to `output`. Refuses with `fault` if that fails.
    pub(super) fn write<W: Output, E: Copy>(&self, output: &mut W, fault: E) -> Result<(), E>
        requires { W.has_failed output.old ≡ false }
        ensures writes { Writes W.Output result output.old output.new self.now.bytes.items }
        ensures bounded { OnOk result (PrintsAtMost W.Output MOST_BYTES output.old output.new) }
        ensures short { length self.now.bytes.items ≤ 67108864 }
        ensures refused { IfErr result (λ e. e ≡ fault) }
    {
        match write_all(output, self.bytes()) {
            Ok(()) => Ok(()),
            Err(DeviceFault) => Err(fault),
        }
    }

    /// Adds a number in decimal digits.
    pub(super) fn push_number(&mut self, n: u64) -> Result<(), Ended>
        ensures { Adds result self.old.bytes.items self.new.bytes.items (decimal n) }
    {
        if n < 10 {
            return self.push(&[b'0' + n as u8]);
        }
        self.push_number(n / 10)?;
        self.push(&[b'0' + (n % 10) as u8])
    }

    /// Adds a number in lower case hex digits, without zeros in front.
    pub(super) fn push_hex_number(&mut self, n: u64) -> Result<(), Ended> {
        if n >= 16 {
            self.push_hex_number(n / 16)?;
        }
        self.push(&[HEX_DIGITS[(n % 16) as usize]])
    }

    /// Adds `bytes` in lower case hex digits, two for each byte.
    pub(super) fn push_hex(&mut self, bytes: &[u8]) -> Result<(), Ended>
        ensures { Adds result self.old.bytes.items self.new.bytes.items (encode_lower bytes.now) }
    {
        let mut rest = bytes;
        while !rest.is_empty() {
            let n = rest.len().min(PIECE);
            self.push_digits(&rest[..n])?;
            rest = &rest[n..];
        }
        Ok(())
    }

    /// Adds at most 512 bytes in hex digits.
    fn push_digits(&mut self, bytes: &[u8]) -> Result<(), Ended>
        requires { length bytes.now ≤ 512 }
        ensures { Adds result self.old.bytes.items self.new.bytes.items (encode_lower bytes.now) }
    {
        let mut buffer = [0u8; 2 * PIECE];
        let digits = &mut buffer[..2 * bytes.len()];
        let _ = hex::encode_to_slice(bytes, &mut *digits);
        self.push(&*digits)
    }

    /// Adds UTF-8 `bytes` in quotes, with the escapes of JSON for quotes, backslashes, tabs and line
    /// ends.
    pub(super) fn push_quoted(&mut self, bytes: &[u8]) -> Result<(), Ended>
        ensures { Adds result self.old.bytes.items self.new.bytes.items
            (in_quotes (escaped bytes.now)) }
    {
        self.push(b"\"")?;
        self.push_escaped(bytes)?;
        self.push(b"\"")
    }

    /// Adds UTF-8 `bytes` with these escapes.
    fn push_escaped(&mut self, bytes: &[u8]) -> Result<(), Ended>
        ensures { Adds result self.old.bytes.items self.new.bytes.items (escaped bytes.now) }
    {
        let mut rest = bytes;
        while let Some((at, letter)) = first_escape(rest) {
            self.push(&rest[..at])?;
            self.push(&[b'\\', letter])?;
            rest = &rest[at + 1..];
        }
        self.push(rest)
    }
}

/// The position of the first byte of a text that JSON escapes, and what follows the backslash of its
/// escape.
fn first_escape(bytes: &[u8]) -> Option<(usize, u8)>
    ensures { MatchOption result (escaped bytes.now ≡ bytes.now) (λ found.
        (found.0 < length bytes.now) × (escaped bytes.now
        ≡ take found.0 bytes.now
        ++ ((92 ∷ found.1 ∷ []) ++ escaped (drop (found.0 + 1) bytes.now)))) }
{
    for (at, byte) in bytes.iter().enumerate() {
        if let Some(letter) = escape_of(*byte) {
            return Some((at, letter));
        }
    }
    None
}

/// What follows the backslash if JSON escapes a byte of a text.
fn escape_of(byte: u8) -> Option<u8>
    ensures { MatchOption result (escape byte ≡ byte ∷ []) (λ letter. escape byte ≡ 92 ∷ letter ∷ []) }
{
    match byte {
        b'"' | b'\\' => Some(byte),
        b'\t' => Some(b't'),
        b'\n' => Some(b'n'),
        b'\r' => Some(b'r'),
        _ => None,
    }
}

/// The text that `bytes` are, without the zero at its end, if they read as text: UTF-8 that ends in
/// one zero byte, without control characters other than tabs and line ends.
pub(super) fn as_text(bytes: &[u8]) -> Option<&str>
    ensures { MatchOption result (reads_as_text bytes.now ≡ false) (λ text.
        (reads_as_text bytes.now ≡ true) × (text.now ≡ without_last bytes.now)) }
{
    let len = bytes.len();
    if len == 0 {
        return None;
    }
    if bytes[len - 1] != 0 {
        return None;
    }
    plain_text(&bytes[..len - 1])
}

/// The text that `bytes` are, if they are UTF-8 without such control characters.
fn plain_text(bytes: &[u8]) -> Option<&str>
    ensures { MatchOption result (is_plain_text bytes.now ≡ false) (λ text.
        (is_plain_text bytes.now ≡ true) × (text.now ≡ bytes.now)) }
{
    match str::from_utf8(bytes) {
        Ok(text) => {
            if has_control(bytes) {
                return None;
            }
            Some(text)
        }
        Err(_) => None,
    }
}

/// Whether UTF-8 bytes have a control character other than a tab, a line feed or a carriage return:
/// U+0000 to U+001F, U+007F to U+009F.
fn has_control(bytes: &[u8]) -> bool
    ensures { result ≡ has_control_after 0 bytes.now }
{
    let mut before = 0;
    for byte in bytes {
        if ends_control(before, *byte) {
            return true;
        }
        before = *byte;
    }
    false
}

/// Whether the byte after the byte `before` is, or ends, such a control character.
fn ends_control(before: u8, byte: u8) -> bool
    ensures { result ≡ ends_control before byte }
{
    is_control(byte) || before == 0xc2 && byte < 0xa0
}

/// Whether an ASCII byte is such a control character.
fn is_control(byte: u8) -> bool
    ensures { result ≡ is_control byte }
{
    byte < 32 && !(byte == b'\t' || byte == b'\n' || byte == b'\r') || byte == 127
}

/// The first characters of UTF-8 bytes, at most `MOST_TEXT` bytes.
pub(super) fn text_prefix(bytes: &[u8]) -> &[u8]
    ensures { length result.now ≤ length bytes.now }
{
    if bytes.len() <= MOST_TEXT {
        return bytes;
    }
    let mut end = MOST_TEXT;
    while 0 < end && bytes[end] & 0xc0 == 0x80 {
        end -= 1;
    }
    &bytes[..end]
}
