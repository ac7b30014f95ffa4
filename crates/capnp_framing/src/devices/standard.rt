//! Inputs and outputs over the standard library's readers and writers.
ghost use Rattle.std.specs.Prelude.{◌≡◌, true, false, Some, IsErr, OnOk, OnErr};
ghost use Rattle.std.specs.Io.KnownBytes.{Keeps};
ghost use Rattle.capnp_framing.specs.Devices.{ReadGives};

use super::{DeviceFault, Input, Output};
use std::io::{Read, Write};

/// Reads the bytes of a reader. An error of the reader becomes a `DeviceFault`, without its reason;
/// after an error, the reader isn't read any more.
#[derive(Drop)]
pub struct ReaderInput<R> {
    reader: R,
    failed: bool,
}

impl<R: Read> ReaderInput<R> {
    /// Makes an input that reads from `reader`, and that hasn't failed yet.
    pub fn new(reader: R) -> Self
        ensures reader { result.reader ≡ reader }
        ensures works { result.failed ≡ false }
    {
        ReaderInput {
            reader,
            failed: false,
        }
    }
}

impl<R: Read> Input for ReaderInput<R> {
    ghost remaining = { λ r. R.remaining r.reader };

    ghost has_failed = { λ r. r.failed };

    ghost ends_whole = { λ _. Some true };

    fn read(&mut self, to: &mut [u8]) -> Result<usize, DeviceFault>
        ensures gives { ReadGives ⟦<Self as Input>⟧ result self.old self.new to.new }
        ensures stops { self.old.failed ≡ true
            → IsErr result × (self.new.reader ≡ self.old.reader) }
    {
        if self.failed {
            return Err(DeviceFault);
        }
        match self.reader.read(to) {
            Ok(n) => Ok(n),
            Err(_) => {
                self.failed = true;
                Err(DeviceFault)
            }
        }
    }

    fn failed(&self) -> bool {
        self.failed
    }
}

/// Writes bytes to a writer. An error of the writer becomes a `DeviceFault`, without its reason.
#[derive(Drop)]
pub struct WriterOutput<W> {
    writer: W,
    failed: bool,
}

impl<W: Write> WriterOutput<W> {
    /// Makes an output that writes to `writer`, and that hasn't failed yet.
    pub fn new(writer: W) -> Self
        ensures writer { result.writer ≡ writer }
        ensures works { result.failed ≡ false }
    {
        WriterOutput {
            writer,
            failed: false,
        }
    }

    /// Flushes the writer.
    pub fn flush(&mut self) -> Result<(), DeviceFault>
        ensures works { OnOk result (self.new.failed ≡ self.old.failed) }
        ensures fails { OnErr result (self.new.failed ≡ true) }
        ensures bytes { Keeps (W.contents self.old.writer) (W.contents self.new.writer) }
    {
        if self.writer.flush().is_err() {
            self.failed = true;
            return Err(DeviceFault);
        }
        Ok(())
    }
}

impl<W: Write> Output for WriterOutput<W> {
    ghost contents = { λ w. W.contents w.writer };

    ghost has_failed = { λ w. w.failed };

    fn write(&mut self, from: &[u8]) -> Result<usize, DeviceFault> {
        match self.writer.write(from) {
            Ok(n) if 0 < n || from.is_empty() => Ok(n),
            _ => {
                self.failed = true;
                Err(DeviceFault)
            }
        }
    }

    fn failed(&self) -> bool {
        self.failed
    }
}
