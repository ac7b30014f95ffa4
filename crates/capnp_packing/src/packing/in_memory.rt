//! Packs words and unpacks packed bytes in memory.
ghost use Rattle.std.specs.Prelude.{◌≡◌, ◌≢◌, ◌⊎◌, ◌≤◌, ◌<◌, ◌+◌, ◌*◌, ◌%◌, ◌++◌, ℕ, List, length, take, IfOk, IfErr, OnOk};
ghost use Rattle.std.specs.Io.KnownBytes.{Consumes, IsAtEnd};
ghost use Rattle.capnp_packing.specs.Packing.{IsWhole, KeepsEnd, Packs, unpacked_bytes};
ghost use Rattle.capnp_packing.specs.declared.packing.packing_error.PackingError.TheVariants.{AllocationFailed, CutWord, TooLong, Truncated};

use super::packing_error::PackingError;
use super::place::Place;
use super::read_ahead::ReadAhead;
use super::unpacking_input::UnpackingInput;
use super::words::pack_words;
use capnp_framing::devices::{Input, MemoryInput};
use std::alloc::Global;

/// The most packed bytes that are made at a time, and the most bytes that are unpacked at a time.
const STEP: usize = 8192;

/// Packs `words` (encoding specification, "Packing"). Refusals: `CutWord` exactly if the length of
/// `words` isn't a multiple of 8; `AllocationFailed` if there is no memory.
pub fn pack(alloc: Global, words: &[u8]) -> Result<Vec<u8>, PackingError>
    ensures packed { IfOk result (λ packed. Packs packed.items words.now) }
    ensures whole { OnOk result (length words.now % 8 ≡ 0) }
    ensures refused { IfErr result (λ e. (e ≡ AllocationFailed)
        ⊎ ((e ≡ CutWord) × (length words.now % 8 ≢ 0))) }
{
    if !words.len().is_multiple_of(8) {
        return Err(PackingError::CutWord);
    }
    let mut packed = Vec::new(alloc);
    let mut taken = 0;
    while taken < words.len() {
        taken += pack_more(&mut packed, &words[taken..])?;
    }
    Ok(packed)
}

/// Packs some words from the front of `words`, at least one, and appends the packed bytes to
/// `packed`. Returns how many bytes of `words` were packed.
fn pack_more(packed: &mut Vec<u8>, words: &[u8]) -> Result<usize, PackingError>
    requires { 8 ≤ length words.now }
    ensures some { IfOk result (λ n. 0 < n) }
    ensures words { IfOk result (λ n. n % 8 ≡ 0) }
    ensures within { IfOk result (λ n. n ≤ length words.now) }
    ensures packed { IfOk result (λ n. (more : List ℕ)
        × (packed.new.items ≡ packed.old.items ++ more) × Packs more (take n words.now)) }
    ensures refused { IfErr result (λ e. e ≡ AllocationFailed) }
{
    let mut part = [0; STEP];
    let done = pack_words(&mut part, words);
    if packed.extend_from_slice(&part[..done.given]).is_err() {
        return Err(PackingError::AllocationFailed);
    }
    Ok(done.taken)
}

/// Unpacks packed bytes to at most `max_bytes` bytes ("Packing").
///
/// Refusals: `TooLong` if there are more than `max_bytes` unpacked bytes, even if the packed bytes
/// are cut short; otherwise `Truncated` if the packed bytes end inside a word or before a count;
/// `AllocationFailed` if there is no memory.
pub fn unpack(alloc: Global, packed: &[u8], max_bytes: usize) -> Result<Vec<u8>, PackingError>
    ensures bytes { IfOk result (λ bytes. Packs packed.now bytes.items) }
    ensures most { IfOk result (λ bytes. length bytes.items ≤ max_bytes) }
    ensures refused { IfErr result (λ e. (e ≡ AllocationFailed)
        ⊎ ((e ≡ TooLong) × (max_bytes < length (unpacked_bytes Place.Tag packed.now)))
        ⊎ ((e ≡ Truncated) × (IsWhole Place.Tag packed.now → ⊥)
        × (length (unpacked_bytes Place.Tag packed.now) ≤ max_bytes))) }
{
    let mut input = UnpackingInput::new(MemoryInput::new(packed));
    let mut bytes = Vec::new(alloc);
    while bytes.len() <= max_bytes {
        let most = (STEP - 1).min(max_bytes - bytes.len()) + 1;
        let n = unpack_more(&mut input, &mut bytes, most)?;
        if n == 0 {
            if input.is_whole() {
                return Ok(bytes);
            }
            return Err(PackingError::Truncated);
        }
    }
    Err(PackingError::TooLong)
}

/// Reads at most `most` unpacked bytes from `input`, appends them to `bytes`, and returns their
/// number: 0 only if the input has ended.
fn unpack_more<R: Input>(
    input: &mut UnpackingInput<R>,
    bytes: &mut Vec<u8>,
    most: usize,
) -> Result<usize, PackingError>
    requires some { 0 < most }
    requires few { most ≤ 8192 }
    ensures within { IfOk result (λ n. n ≤ most) }
    ensures bytes { IfOk result (λ n. (more : List ℕ) × (length more ≡ n)
        × (bytes.new.items ≡ bytes.old.items ++ more)
        × Consumes (⟦<UnpackingInput<R> as Input>⟧.remaining input.old)
        (⟦<UnpackingInput<R> as Input>⟧.remaining input.new) more) }
    ensures place { KeepsEnd
        input.old.place (⟦<ReadAhead<R> as Input>⟧.remaining input.old.packed)
        input.new.place (⟦<ReadAhead<R> as Input>⟧.remaining input.new.packed) }
    ensures end { IfOk result (λ n. n ≡ 0 → (input.new.zeros ≡ 0)
        × IsAtEnd (⟦<ReadAhead<R> as Input>⟧.remaining input.new.packed)) }
    ensures refused { IfErr result (λ e. e ≡ AllocationFailed) }
{
    let mut part = [0; STEP];
    match input.unpack(&mut part[..most]) {
        Ok(n) if bytes.extend_from_slice(&part[..n]).is_ok() => Ok(n),
        _ => Err(PackingError::AllocationFailed),
    }
}
