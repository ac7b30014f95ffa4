//! An input that unpacks the bytes of another input.
ghost use Rattle.std.specs.Prelude.{Some, ℕ, List, ◌&&◌, ◌≡◌, ◌≤◌, ◌<◌, ◌+◌, ◌-◌, ◌∷◌, ◌↔◌, [], IsTrue, IsErr, false, true, IfOk, OnOk, OnErr, length, take, slice_range};
ghost use Rattle.std.specs.Io.KnownBytes.{Consumes, IsAtEnd, ReadConsumes};
ghost use Rattle.std.specs.Option.{option_map};
ghost use Rattle.capnp_framing.specs.Devices.{ReadGives};
ghost use Rattle.capnp_framing.specs.Wholeness.{KeepsWhole};
ghost use Rattle.capnp_packing.specs.Packing.{KeepsEnd, bytes_behind, unpacked_bytes, whole_behind};
ghost use Rattle.capnp_packing.specs.Unpacking.{UnpacksAhead, UnpacksSome};

use super::place::{Place, step};
use super::read_ahead::ReadAhead;
use super::unpacking::{UNIT, fill_with_zeros, place_after_raw, unpack_words};
use crate::buffered::BufferedInput;
use capnp_framing::devices::{DeviceFault, Input};

/// Unpacks the bytes of a packed input. If the packed bytes end inside a word, the unpacked bytes
/// end there, too, without an error. Doesn't read from the packed input again after that has
/// failed.
#[derive(Drop)]
pub struct UnpackingInput<R> {
    packed: ReadAhead<R>,
    place: Place,
    // The number of zero bytes to return before the next packed byte is read.
    zeros: u16,
    // Whether a read has reported that the packed input failed. Bytes from before the failure are
    // returned first.
    told: bool,
}

impl<R: Input> UnpackingInput<R> {
    /// Makes an input that unpacks the bytes of `packed`.
    pub fn new(packed: R) -> Self
        ensures place { result.place ≡ Place.Tag }
        ensures zeros { result.zeros ≡ 0 }
        ensures works { result.told ≡ false }
        ensures packed { ⟦<ReadAhead<R> as Input>⟧.remaining result.packed ≡ R.remaining packed }
        ensures remaining { ⟦<Self as Input>⟧.remaining result
            ≡ option_map (unpacked_bytes Place.Tag) (R.remaining packed) }
        ensures whole { ⟦<Self as Input>⟧.ends_whole result
            ≡ whole_behind Place.Tag (R.remaining packed) }
    {
        UnpackingInput {
            packed: ReadAhead::new(packed),
            place: Place::Tag,
            zeros: 0,
            told: false,
        }
    }

    /// Tests whether the input has ended: returns `true` only if no unpacked byte is left, and the
    /// packed bytes aren't cut short. To find out, tries to read one unpacked byte. If there is
    /// one, no later read returns that byte.
    pub fn is_whole_at_end(&mut self) -> Result<bool, DeviceFault>
        ensures whole { IsAtEnd (⟦<Self as Input>⟧.remaining self.old) → IfOk result
            (λ whole. KeepsWhole (⟦<Self as Input>⟧.ends_whole self.old) (Some whole)) }
        ensures end { IfOk result
            (λ whole. IsTrue whole → IsAtEnd (⟦<Self as Input>⟧.remaining self.old)) }
        ensures bytes { (bytes : List ℕ) × (length bytes ≤ 1)
            × Consumes (⟦<Self as Input>⟧.remaining self.old)
            (⟦<Self as Input>⟧.remaining self.new) bytes }
        ensures works { OnOk result
            (⟦<Self as Input>⟧.has_failed self.new ≡ ⟦<Self as Input>⟧.has_failed self.old) }
        ensures fails { OnErr result (⟦<Self as Input>⟧.has_failed self.new ≡ true) }
        ensures stops { R.has_failed self.old.packed.input ≡ true
            → IsErr result × (self.new.packed ≡ self.old.packed) }
    {
        let n = self.unpack(&mut [0])?;
        Ok(n == 0 && self.is_whole())
    }

    /// Whether the packed bytes read so far end before a tag (not inside a word or before a count),
    /// and all bytes unpacked from them have been returned.
    pub fn is_whole(&self) -> bool
        ensures { IsTrue result ↔ (self.now.zeros ≡ 0) × (self.now.place ≡ Place.Tag) }
    {
        self.zeros == 0 && matches!(self.place, Place::Tag)
    }

    /// Reads at most `to.len()` unpacked bytes to the front of `to`, and returns their number: 0
    /// only if `to` is empty, or the packed bytes have ended.
    pub(super) fn unpack(&mut self, to: &mut [u8]) -> Result<usize, DeviceFault>
        ensures bound { IfOk result (λ n. n ≤ length to.new) }
        ensures bytes { ReadConsumes (⟦<Self as Input>⟧.remaining self.old)
            (⟦<Self as Input>⟧.remaining self.new) result to.new }
        ensures place { KeepsEnd
            self.old.place (⟦<ReadAhead<R> as Input>⟧.remaining self.old.packed)
            self.new.place (⟦<ReadAhead<R> as Input>⟧.remaining self.new.packed) }
        ensures end { IfOk result (λ n. n ≡ 0 → 0 < length to.new → (self.new.zeros ≡ 0)
            × IsAtEnd (⟦<ReadAhead<R> as Input>⟧.remaining self.new.packed)) }
        ensures works { OnOk result
            (⟦<Self as Input>⟧.has_failed self.new ≡ ⟦<Self as Input>⟧.has_failed self.old) }
        ensures fails { OnErr result (⟦<Self as Input>⟧.has_failed self.new ≡ true) }
        ensures stops { R.has_failed self.old.packed.input ≡ true
            → IsErr result × (self.new.packed ≡ self.old.packed) }
    {
        if self.packed.failed() {
            self.told = true;
            return Err(DeviceFault);
        }
        let mut given = 0;
        while given < to.len() {
            match self.unpack_some(&mut to[given..]) {
                Ok(0) => return Ok(given),
                Ok(n) => given += n,
                Err(DeviceFault) => {
                    self.told = given == 0;
                    return if self.told {
                        Err(DeviceFault)
                    } else {
                        Ok(given)
                    };
                }
            }
        }
        Ok(given)
    }

    /// Reads some unpacked bytes to the front of `to`, and returns their number: at least 1 unless
    /// the packed bytes have ended. Precondition: `to` isn't empty.
    fn unpack_some(&mut self, to: &mut [u8]) -> Result<usize, DeviceFault>
        requires { 0 < length to.old }
        ensures { UnpacksSome R.Input result self.old self.new to.new }
    {
        while self.zeros == 0 {
            if let Place::Raw(left) = self.place {
                return self.read_raw(left, to);
            }
            if !self.packed.fill()? {
                return Ok(0);
            }
            if self.is_whole() && to.len() >= 8 && self.packed.buffer().len() >= UNIT {
                return Ok(self.unpack_ahead(to));
            }
            let taken = step(self.place, self.packed.next());
            self.place = taken.next;
            self.zeros = taken.zeros;
            if let Some(byte) = taken.byte {
                to[0] = byte;
                return Ok(1);
            }
        }
        Ok(self.write_due_zeros(to))
    }

    /// Unpacks words from the bytes read ahead to the front of `to`, and returns the number of
    /// unpacked bytes.
    fn unpack_ahead(&mut self, to: &mut [u8]) -> usize
        requires zeros { self.old.zeros ≡ 0 }
        requires place { self.old.place ≡ Place.Tag }
        requires ahead { 10 ≤ self.old.packed.end - self.old.packed.at }
        requires room { 8 ≤ length to.old }
        ensures { UnpacksAhead R.Input result self.old self.new to.new }
    {
        let progress = unpack_words(self.packed.buffer(), to);
        self.packed.consume(progress.taken);
        self.place = progress.place;
        self.zeros = progress.zeros;
        progress.given
    }

    /// Writes zero bytes that are already unpacked, but not returned yet, to the front of `to`.
    /// Returns the number of bytes written.
    fn write_due_zeros(&mut self, to: &mut [u8]) -> usize
        requires due { 0 < self.old.zeros }
        requires room { 0 < length to.old }
        ensures { UnpacksAhead R.Input result self.old self.new to.new }
    {
        let n = to.len().min(self.zeros as usize);
        fill_with_zeros(&mut to[..n]);
        self.zeros -= n as u16;
        n
    }

    /// Reads bytes of words that aren't packed, directly into `to`, and returns their number.
    /// Before the call, `left` + 1 bytes of these words are still to be read: the next one, and
    /// `left` after it.
    fn read_raw(&mut self, left: u16, to: &mut [u8]) -> Result<usize, DeviceFault>
        requires place { self.old.place ≡ Place.Raw left }
        requires zeros { self.old.zeros ≡ 0 }
        requires room { 0 < length to.old }
        ensures { UnpacksSome R.Input result self.old self.new to.new }
    {
        let most = to.len().min(left as usize + 1);
        let n = self.packed.read(&mut to[..most])?;
        if n > 0 {
            self.place = place_after_raw(left, n);
        }
        Ok(n)
    }
}

impl<R: Input> Input for UnpackingInput<R> {
    ghost remaining = { λ u. bytes_behind u.zeros u.place
        (⟦<ReadAhead<R> as Input>⟧.remaining u.packed) };

    ghost has_failed = { λ u. u.told && R.has_failed u.packed.input };

    ghost ends_whole = { λ u. whole_behind u.place (⟦<ReadAhead<R> as Input>⟧.remaining u.packed) };

    fn read(&mut self, to: &mut [u8]) -> Result<usize, DeviceFault>
        ensures gives { ReadGives ⟦<Self as Input>⟧ result self.old self.new to.new }
        ensures stops { R.has_failed self.old.packed.input ≡ true
            → IsErr result × (self.new.packed ≡ self.old.packed) }
    {
        self.unpack(to)
    }

    fn failed(&self) -> bool {
        self.told && self.packed.failed()
    }
}

impl<R: Input> BufferedInput for UnpackingInput<R> {
    // A packed word, with what may come before and after it.
    ghost has_enough = { λ u. 10 ≤ u.packed.end - u.packed.at };

    fn is_ahead(&self) -> bool {
        self.packed.buffer().len() >= UNIT
    }
}
