//! Reads and writes bytes in memory.
ghost use Rattle.std.specs.Prelude.{◌≡◌, ◌<◌, ◌+◌, [], true, false, Some, Ok, length, min, vec_len, IfOk, OnErr};
ghost use Rattle.std.specs.Vec.{vec_capacity};
ghost use Rattle.capnp_framing.specs.Devices.{ReadGives, WriteTakes};

use super::{DeviceFault, Input, Output};
use std::alloc::Global;

/// Reads bytes in memory. It never fails. A read returns all bytes that are left, or as many as fit
/// in `to`.
#[derive(Clone, Copy)]
pub struct MemoryInput<'a> {
    bytes: &'a [u8],
}

impl<'a> MemoryInput<'a> {
    /// Makes an input that reads `bytes`.
    pub fn new(bytes: &'a [u8]) -> Self
        ensures { result.bytes.now ≡ bytes.now }
    {
        MemoryInput { bytes }
    }
}

impl Input for MemoryInput<'_> {
    ghost remaining = { λ m. Some m.bytes.now };

    ghost has_failed = { λ _. false };

    ghost ends_whole = { λ _. Some true };

    fn read(&mut self, to: &mut [u8]) -> Result<usize, DeviceFault>
        ensures gives { ReadGives ⟦<Self as Input>⟧ result self.old self.new to.new }
        ensures most { result ≡ Ok (min (length to.old) (length self.old.bytes.now)) }
    {
        let n = to.len().min(self.bytes.len());
        to[..n].copy_from_slice(&self.bytes[..n]);
        self.bytes = &self.bytes[n..];
        Ok(n)
    }

    fn failed(&self) -> bool {
        false
    }
}

/// Collects in memory the bytes that are written to it. A write takes all of its bytes, and fails
/// only if there is no memory for them.
#[derive(Drop)]
pub struct MemoryOutput {
    bytes: Vec<u8>,
    failed: bool,
}

impl MemoryOutput {
    /// Makes an output without bytes.
    pub fn new(alloc: Global) -> Self
        ensures empty { result.bytes.items ≡ [] }
        ensures works { result.failed ≡ false }
    {
        MemoryOutput {
            bytes: Vec::new(alloc),
            failed: false,
        }
    }

    /// All bytes written so far.
    pub fn bytes(&self) -> &[u8]
        ensures { Some result.now ≡ ⟦<Self as Output>⟧.contents self.now }
    {
        self.bytes.as_slice()
    }
}

impl Output for MemoryOutput {
    ghost contents = { λ m. Some m.bytes.items };

    ghost has_failed = { λ m. m.failed };

    fn write(&mut self, from: &[u8]) -> Result<usize, DeviceFault>
        ensures takes { WriteTakes ⟦<Self as Output>⟧ result self.old self.new from.now }
        ensures all { IfOk result (λ n. n ≡ length from.now) }
        ensures full { OnErr result
            (vec_capacity self.old.bytes < vec_len self.old.bytes + length from.now) }
    {
        if self.bytes.extend_from_slice(from).is_err() {
            self.failed = true;
            return Err(DeviceFault);
        }
        Ok(from.len())
    }

    fn failed(&self) -> bool {
        self.failed
    }
}
