//! An output that packs the words written to it, and writes the packed bytes to another output.
ghost use Rattle.std.specs.Prelude.{◌≡◌, ◌<◌, ◌≤◌, ◌+◌, ◌-◌, false, true, IfOk, OnOk, OnErr, length, slice_range};
ghost use Rattle.std.specs.Io.KnownBytes.{Keeps, WriteAppends, append_known};
ghost use Rattle.capnp_framing.specs.Devices.{WriteTakes};
ghost use Rattle.capnp_packing.specs.Packing.{unpacked_known};

use super::words::{MOST_BYTES, pack_words};
use crate::buffered::BufferedOutput;
use capnp_framing::devices::{DeviceFault, Output};

/// The most packed bytes that are held back.
const CAPACITY: usize = 8192;

/// An output that packs whole words, and writes the packed bytes to another output. Holds packed
/// bytes back until there are many of them, or until `write_pending` is called. A write of 1 to 7 bytes
/// fails, since it has no whole word; any other write fails only if the output of packed bytes has
/// failed.
#[derive(Drop)]
pub struct PackingOutput<W> {
    packed: W,
    // The bytes from `sent` to `end` are packed, and not yet written.
    pending: [u8; CAPACITY],
    sent: usize,
    end: usize,
    failed: bool,
    ghost ordered: { sent ≤ end },
    ghost inside: { end ≤ 8192 },
}

impl<W: Output> PackingOutput<W> {
    ghost use Rattle.capnp_packing.specs.Sending.{Sends};

    /// Makes an output that writes packed bytes to `packed`.
    pub fn new(packed: W) -> Self
        ensures packed { result.packed ≡ packed }
        ensures none { (result.sent ≡ 0) × (result.end ≡ 0) }
        ensures works { result.failed ≡ false }
        ensures contents { ⟦<Self as Output>⟧.contents result ≡ unpacked_known (W.contents packed) }
    {
        PackingOutput {
            packed,
            pending: [0; CAPACITY],
            sent: 0,
            end: 0,
            failed: false,
        }
    }

    /// Writes all packed bytes that are held back to the output of packed bytes.
    pub fn write_pending(&mut self) -> Result<(), DeviceFault>
        ensures sends { Sends W.Output result self.old self.new }
        ensures taken { OnOk result (Keeps (⟦<Self as Output>⟧.contents self.old)
            (unpacked_known (W.contents self.new.packed))) }
        ensures none { OnOk result ((self.new.sent ≡ 0) × (self.new.end ≡ 0)) }
    {
        while self.sent < self.end {
            match self
                .packed
                .write(subslice(&self.pending, self.sent, self.end))
            {
                Ok(n) => self.sent += n,
                Err(fault) => {
                    self.failed = true;
                    return Err(fault);
                }
            }
        }
        self.sent = 0;
        self.end = 0;
        Ok(())
    }

    /// Returns the output of packed bytes. Packed bytes that are held back are lost, so call
    /// `write_pending` first.
    pub fn into_packed(self) -> W
        ensures { result ≡ self.packed }
    {
        self.packed
    }

    /// Makes room for `MOST_BYTES` packed bytes, if needed by writing all bytes that are held back.
    fn ensure_room(&mut self) -> Result<(), DeviceFault>
        ensures sends { Sends W.Output result self.old self.new }
        ensures room { OnOk result (self.new.end + 2050 ≤ 8192) }
        ensures none { OnOk result (self.new.sent ≡ 0) }
    {
        if self.sent == 0 && CAPACITY - self.end >= MOST_BYTES {
            return Ok(());
        }
        self.write_pending()
    }
}

/// The bytes from `from` up to `to`.
fn subslice(bytes: &[u8], from: usize, to: usize) -> &[u8]
    requires order { from ≤ to }
    requires inside { to ≤ length bytes.now }
    ensures { result.now ≡ slice_range bytes.now from to }
{
    &bytes[from..to]
}

impl<W: Output> Output for PackingOutput<W> {
    ghost contents = { λ p. unpacked_known (append_known (W.contents p.packed)
        (slice_range p.pending p.sent p.end)) };

    ghost has_failed = { λ p. p.failed };

    fn write(&mut self, from: &[u8]) -> Result<usize, DeviceFault>
        ensures takes { WriteTakes ⟦<Self as Output>⟧ result self.old self.new from.now }
        ensures cause { OnErr result (8 ≤ length from.now
            → W.has_failed self.new.packed ≡ true) }
    {
        if from.is_empty() {
            return Ok(0);
        }
        if from.len() < 8 {
            self.failed = true;
            return Err(DeviceFault);
        }
        self.ensure_room()?;
        let done = pack_words(&mut self.pending[self.end..], from);
        self.end += done.given;
        Ok(done.taken)
    }

    fn failed(&self) -> bool {
        self.failed
    }
}

impl<W: BufferedOutput> BufferedOutput for PackingOutput<W> {
    ghost kept = { λ p. (p.end - p.sent) + W.kept p.packed };

    fn flush(&mut self) -> Result<(), DeviceFault>
        ensures bytes { Keeps (⟦<Self as Output>⟧.contents self.old)
            (⟦<Self as Output>⟧.contents self.new) }
        ensures none { OnOk result (⟦<Self as BufferedOutput>⟧.kept self.new ≡ 0) }
        ensures works { OnOk result
            (⟦<Self as Output>⟧.has_failed self.new ≡ ⟦<Self as Output>⟧.has_failed self.old) }
        ensures fails { OnErr result (⟦<Self as Output>⟧.has_failed self.new ≡ true) }
        ensures cause { OnErr result (W.has_failed self.new.packed ≡ true) }
    {
        self.write_pending()?;
        if self.packed.flush().is_err() {
            self.failed = true;
            return Err(DeviceFault);
        }
        Ok(())
    }
}
