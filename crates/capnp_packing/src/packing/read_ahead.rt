//! Reads packed bytes ahead, many at a time.
ghost use Rattle.std.specs.Prelude.{◌≡◌, ◌≤◌, ◌<◌, ◌+◌, ◌∷◌, [], true, false, IfOk, OnOk, OnErr, IsTrue, length, take, slice_range};
ghost use Rattle.std.specs.Io.KnownBytes.{Consumes, IsAtEnd, Keeps, prepend_known};

use capnp_framing::devices::{DeviceFault, Input};

/// The number of bytes read at a time.
const CAPACITY: usize = 8192;

/// An input that reads ahead.
#[derive(Drop)]
pub(super) struct ReadAhead<R> {
    input: R,
    bytes: [u8; CAPACITY],
    // The bytes from `at` to `end` are read and not taken.
    at: usize,
    end: usize,
    ghost ordered: { at ≤ end },
    ghost inside: { end ≤ 8192 },
}

impl<R: Input> ReadAhead<R> {
    /// Wraps an input, and reads nothing yet.
    pub(super) fn new(input: R) -> Self
        ensures { ⟦<Self as Input>⟧.remaining result ≡ R.remaining input }
    {
        ReadAhead {
            input,
            bytes: [0; CAPACITY],
            at: 0,
            end: 0,
        }
    }

    /// The bytes that are read ahead and not taken yet.
    pub(super) fn buffer(&self) -> &[u8]
        ensures { result.now ≡ slice_range self.now.bytes self.now.at self.now.end }
    {
        &self.bytes[self.at..self.end]
    }

    /// Reads some bytes ahead if there are none. Returns whether there are any now: `false` means
    /// the end of the input.
    pub(super) fn fill(&mut self) -> Result<bool, DeviceFault>
        ensures kept { Keeps (⟦<Self as Input>⟧.remaining self.old)
            (⟦<Self as Input>⟧.remaining self.new) }
        ensures some { IfOk result (λ b. b ≡ true → self.new.at < self.new.end) }
        ensures end { IfOk result (λ b. b ≡ false
            → IsAtEnd (⟦<Self as Input>⟧.remaining self.new)) }
        ensures works { OnOk result (R.has_failed self.new.input ≡ R.has_failed self.old.input) }
        ensures fails { OnErr result (R.has_failed self.new.input ≡ true) }
    {
        if self.at < self.end {
            return Ok(true);
        }
        self.at = 0;
        self.end = 0;
        let n = self.input.read(&mut self.bytes)?;
        self.end = n;
        Ok(n > 0)
    }

    /// Takes a byte that is read ahead.
    pub(super) fn next(&mut self) -> u8
        requires { self.old.at < self.old.end }
        ensures byte { Consumes (⟦<Self as Input>⟧.remaining self.old)
            (⟦<Self as Input>⟧.remaining self.new) (result ∷ []) }
        ensures input { self.new.input ≡ self.old.input }
    {
        let byte = self.bytes[self.at];
        self.at += 1;
        byte
    }

    /// Takes `n` bytes that are read ahead.
    pub(super) fn consume(&mut self, n: usize)
        requires { self.old.at + n ≤ self.old.end }
        ensures bytes { Consumes (⟦<Self as Input>⟧.remaining self.old)
            (⟦<Self as Input>⟧.remaining self.new)
            (take n (slice_range self.old.bytes self.old.at self.old.end)) }
        ensures input { self.new.input ≡ self.old.input }
    {
        self.at += n;
    }
}

impl<R: Input> Input for ReadAhead<R> {
    ghost remaining = { λ r. prepend_known (slice_range r.bytes r.at r.end) (R.remaining r.input) };

    ghost has_failed = { λ r. R.has_failed r.input };

    ghost ends_whole = { λ r. R.ends_whole r.input };

    /// Returns bytes that are read ahead; if there are none, reads directly into `to`.
    fn read(&mut self, to: &mut [u8]) -> Result<usize, DeviceFault> {
        if self.at == self.end {
            return self.input.read(to);
        }
        let n = to.len().min(self.end - self.at);
        to[..n].copy_from_slice(&self.bytes[self.at..self.at + n]);
        self.at += n;
        Ok(n)
    }

    fn failed(&self) -> bool {
        self.input.failed()
    }
}
