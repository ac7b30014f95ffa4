//! An input that reads ahead from a reader of the standard library, and an output that buffers bytes
//! for a writer.
ghost use Rattle.std.specs.Prelude.{◌≡◌, ◌<◌, ◌^◌, ◌-◌, length, false, true, Some, IfOk, IsErr, OnErr, OnOk};
ghost use Rattle.std.specs.Io.Buffered.{reader_buffer, reader_remaining, writer_buffer, writer_contents};
ghost use Rattle.capnp_format.specs.Segments.{Segments};
ghost use Rattle.capnp_framing.specs.Devices.{ReadGives};
ghost use Rattle.capnp_framing.specs.Flat.{BeginsWithFrame};

use super::{BufferedInput, BufferedOutput};
use capnp_framing::devices::{DeviceFault, Input, Output};
use capnp_framing::framing::read_from_flat_slice;
use std::io::{BufReader, BufWriter, Read, Write};

/// An input that reads ahead from a reader. After the reader has failed once, each read of the
/// input fails without reading from the reader.
#[derive(Drop)]
pub struct BufReaderInput<R> {
    reader: BufReader<R>,
    failed: bool,
}

impl<R: Read> BufReaderInput<R> {
    /// Makes an input that reads from `reader`, and that hasn't failed yet.
    pub fn new(reader: BufReader<R>) -> Self
        ensures reader { result.reader ≡ reader }
        ensures works { result.failed ≡ false }
    {
        BufReaderInput {
            reader,
            failed: false,
        }
    }
}

impl<R: Read> Input for BufReaderInput<R> {
    ghost remaining = { λ r. reader_remaining R.remaining r.reader };

    ghost has_failed = { λ r. r.failed };

    ghost ends_whole = { λ _. Some true };

    fn read(&mut self, to: &mut [u8]) -> Result<usize, DeviceFault>
        ensures gives { ReadGives ⟦<Self as Input>⟧ result self.old self.new to.new }
        ensures stops { self.old.failed ≡ true
            → IsErr result × (self.new.reader ≡ self.old.reader) }
    {
        if self.failed {
            return Err(DeviceFault);
        }
        match self.reader.read(to) {
            Ok(n) => Ok(n),
            Err(_) => {
                self.failed = true;
                Err(DeviceFault)
            }
        }
    }

    fn failed(&self) -> bool {
        self.failed
    }
}

impl<R: Read> BufferedInput for BufReaderInput<R> {
    // The buffer holds the whole next frame.
    ghost has_enough = { λ r. (S : Segments) × BeginsWithFrame (reader_buffer r.reader) (2 ^ 64 - 1) S };

    fn is_ahead(&self) -> bool {
        matches!(
            read_from_flat_slice(self.reader.buffer(), u64::MAX),
            Ok(Some(_))
        )
    }
}

/// An output that buffers bytes for a writer, and flushes them to the writer later.
#[derive(Drop)]
pub struct BufWriterOutput<W: Write + Drop> {
    writer: BufWriter<W>,
    failed: bool,
}

impl<W: Write + Drop> BufWriterOutput<W> {
    /// Makes an output that writes to `writer`, and that hasn't failed yet.
    pub fn new(writer: BufWriter<W>) -> Self
        ensures writer { result.writer ≡ writer }
        ensures works { result.failed ≡ false }
    {
        BufWriterOutput {
            writer,
            failed: false,
        }
    }
}

impl<W: Write + Drop> Output for BufWriterOutput<W> {
    ghost contents = { λ w. writer_contents W.contents w.writer };

    ghost has_failed = { λ w. w.failed };

    fn write(&mut self, from: &[u8]) -> Result<usize, DeviceFault> {
        match self.writer.write(from) {
            Ok(n) if 0 < n || from.is_empty() => Ok(n),
            _ => {
                self.failed = true;
                Err(DeviceFault)
            }
        }
    }

    fn failed(&self) -> bool {
        self.failed
    }
}

impl<W: Write + Drop> BufferedOutput for BufWriterOutput<W> {
    ghost kept = { λ w. length (writer_buffer w.writer) };

    fn flush(&mut self) -> Result<(), DeviceFault> {
        if self.writer.flush().is_err() {
            self.failed = true;
            return Err(DeviceFault);
        }
        Ok(())
    }
}
