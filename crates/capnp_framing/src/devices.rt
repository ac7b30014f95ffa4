//! Inputs and outputs of bytes. After a device has failed once, its `failed` returns `true`
//! forever.
ghost use Rattle.std.specs.Prelude.{◌≡◌, ◌<◌, ◌≤◌, ℕ, List, Bool, true, Option, length, IfOk, OnOk, OnErr};
ghost use Rattle.std.specs.Io.KnownBytes.{ReadConsumes, WriteAppends};
ghost use Rattle.capnp_framing.specs.Wholeness.{KeepsWhole};

mod memory;
mod standard;
mod writing;

pub use memory::{MemoryInput, MemoryOutput};
pub use standard::{ReaderInput, WriterOutput};
pub use writing::write_all;

/// A device failed to read or write. The reason isn't known.
#[derive(Clone, Copy, Debug, PartialEq, Eq)]
pub struct DeviceFault;

/// A source of bytes.
pub trait Input {
    // The bytes still to come, if they are known.
    ghost remaining: { Self → Option (List ℕ) };

    // Whether a read has failed.
    ghost has_failed: { Self → Bool };

    // Whether the bytes end where they may, like those of a packed input that isn't cut short;
    // `None` if that isn't known.
    ghost ends_whole: { Self → Option Bool };

    /// Reads at most `to.len()` bytes to the front of `to`, and returns their number. If `to` isn't
    /// empty, 0 means the end of the input. A read that fails consumes no bytes of the input.
    fn read(&mut self, to: &mut [u8]) -> Result<usize, DeviceFault>
        ensures bound { IfOk result (λ n. n ≤ length to.new) }
        ensures bytes { ReadConsumes (remaining self.old) (remaining self.new) result to.new }
        ensures whole { KeepsWhole (ends_whole self.old) (ends_whole self.new) }
        ensures works { OnOk result (has_failed self.new ≡ has_failed self.old) }
        ensures fails { OnErr result (has_failed self.new ≡ true) };

    /// Whether a read has failed.
    fn failed(&self) -> bool
        ensures { result ≡ has_failed self.now };
}

/// A destination of bytes.
pub trait Output {
    // The bytes taken so far, if they are known.
    ghost contents: { Self → Option (List ℕ) };

    // Whether a write has failed.
    ghost has_failed: { Self → Bool };

    /// Writes bytes from the front of `from`, and returns their number: at least 1 unless `from` is
    /// empty. A write that fails writes no bytes.
    fn write(&mut self, from: &[u8]) -> Result<usize, DeviceFault>
        ensures bound { IfOk result (λ n. n ≤ length from.now) }
        ensures some { 0 < length from.now → IfOk result (λ n. 0 < n) }
        ensures bytes { WriteAppends (contents self.old) (contents self.new) result from.now }
        ensures works { OnOk result (has_failed self.new ≡ has_failed self.old) }
        ensures fails { OnErr result (has_failed self.new ≡ true) };

    /// Whether a write has failed.
    fn failed(&self) -> bool
        ensures { result ≡ has_failed self.now };
}
