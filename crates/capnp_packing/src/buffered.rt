//! Devices that buffer bytes: an input that reads ahead, and an output that flushes later. Suppose
//! that a peer waits for an answer before it sends more. The peer gets the answer if the program
//! flushes the output before each read that may wait for input.
ghost use Rattle.std.specs.Prelude.{◌≡◌, ◌⊎◌, false, true, ℕ, IsTrue, OnOk, OnErr};
ghost use Rattle.std.specs.Io.KnownBytes.{Keeps};

mod standard;

use capnp_framing::devices::{DeviceFault, Input, MemoryOutput, Output};
pub use standard::{BufReaderInput, BufWriterOutput};

/// An input that reads ahead.
pub trait BufferedInput: Input {
    // What is known of the bytes read ahead if the input says that there are enough.
    ghost has_enough: { Self → Type 0 };

    /// Returns `true` only if enough bytes are read ahead to read the next message without waiting
    /// for input; for `UnpackingInput`, to read the next unpacked word.
    fn is_ahead(&self) -> bool
        ensures { IsTrue result → has_enough self.now };
}

/// An output that flushes bytes later.
pub trait BufferedOutput: Output {
    // The number of bytes taken and not flushed yet.
    ghost kept: { Self → ℕ };

    /// Flushes all bytes that the output has taken.
    fn flush(&mut self) -> Result<(), DeviceFault>
        ensures bytes { Keeps (Self.contents self.old) (Self.contents self.new) }
        ensures none { OnOk result (kept self.new ≡ 0) }
        ensures works { OnOk result (Self.has_failed self.new ≡ Self.has_failed self.old) }
        ensures fails { OnErr result (Self.has_failed self.new ≡ true) };
}

impl BufferedOutput for MemoryOutput {
    ghost kept = { λ _. 0 };

    fn flush(&mut self) -> Result<(), DeviceFault> {
        Ok(())
    }
}

/// Flushes the output, unless `is_ahead` of the input is `true`. Precondition: `output` hasn't
/// failed.
pub fn flush_before_waiting<R: BufferedInput, W: BufferedOutput>(
    input: &R,
    output: &mut W,
) -> Result<(), DeviceFault>
    requires { W.has_failed output.old ≡ false }
    ensures none { OnOk result (R.has_enough input.now ⊎ (W.kept output.new ≡ 0)) }
    ensures bytes { Keeps (W.contents output.old) (W.contents output.new) }
    ensures works { OnOk result (W.has_failed output.new ≡ false) }
    ensures fails { OnErr result (W.has_failed output.new ≡ true) }
{
    if input.is_ahead() {
        return Ok(());
    }
    output.flush()
}
