//! Numbers in a message: little-endian bytes.
ghost use Rattle.std.specs.Prelude.{◌≡◌, ◌<◌, ◌≤◌, ◌%◌, ◌*◌, ◌^◌, ℕ, List, length};
ghost use Rattle.std.proofs.Common.{lit<, lit≤, refl};
ghost use Rattle.std.specs.Int.{w8, w16, w32, w64, from_le_bytes, to_le_bytes, cast_signed, cast_unsigned};
ghost use Rattle.capnp_format.specs.Numbers.{from_digits};

/// Numbers that a message can hold.
pub trait Primitive {
    /// An array of the number's bytes, the lowest byte first.
    type Raw;

    /// The size of the number in bytes.
    const BYTES: usize;

    ghost BYTES: { ℕ };

    ghost positive: { 0 < BYTES };

    ghost small: { BYTES ≤ 8 };

    // A word holds a whole number of them.
    ghost divides: { 8 % BYTES ≡ 0 };

    // The bytes of the array.
    ghost raw_bytes: { Self.Raw → List ℕ };

    // The bits of the number as a number without a sign.
    ghost bits_of: { Self → ℕ };

    // The number with these `BYTES` bytes.
    ghost value_of: { List ℕ → Self };

    ghost bytes_of: { Self → List ℕ };

    /// The number in the array.
    fn get(raw: &Self::Raw) -> Self
        ensures value { result ≡ value_of (raw_bytes raw.now) }
        ensures again { bytes_of result ≡ raw_bytes raw.now }
        ensures little_endian { bits_of result ≡ from_digits 256 (raw_bytes raw.now) };

    /// Stores a number in the array.
    fn set(raw: &mut Self::Raw, value: Self)
        ensures bytes { raw_bytes raw.new ≡ bytes_of value }
        ensures again { value_of (raw_bytes raw.new) ≡ value }
        ensures little_endian { from_digits 256 (raw_bytes raw.new) ≡ bits_of value };

    /// Returns the number that `bytes` holds. Precondition: `bytes` has `BYTES` bytes.
    fn load(bytes: &[u8]) -> Self
        requires { length bytes.now ≡ BYTES }
        ensures value { result ≡ value_of bytes.now }
        ensures again { bytes_of result ≡ bytes.now }
        ensures little_endian { bits_of result ≡ from_digits 256 bytes.now };

    /// Stores the number in `bytes`. Precondition: `bytes` has `BYTES` bytes.
    fn store(self, bytes: &mut [u8])
        requires { length bytes.old ≡ BYTES }
        ensures bytes { bytes.new ≡ bytes_of self }
        ensures again { value_of bytes.new ≡ self }
        ensures little_endian { from_digits 256 bytes.new ≡ bits_of self }
        ensures fits { bits_of self < 2 ^ (8 * BYTES) };
}

#[tactic(auto, using(crate::proofs::LittleEndian::little_endian))]
impl Primitive for u8 {
    type Raw = [u8; 1];

    const BYTES: usize = 1;

    ghost BYTES = { 1 };

    ghost positive = { lit< tt };

    ghost small = { lit≤ tt };

    ghost divides = { refl };

    ghost raw_bytes = { λ bs. bs };

    ghost bits_of = { λ n. n };

    ghost value_of = { from_le_bytes w8 };

    ghost bytes_of = { to_le_bytes w8 };

    fn get(raw: &[u8; 1]) -> u8 {
        u8::from_le_bytes(*raw)
    }

    fn set(raw: &mut [u8; 1], value: u8) {
        *raw = value.to_le_bytes();
    }

    fn load(bytes: &[u8]) -> u8 {
        bytes[0]
    }

    fn store(self, bytes: &mut [u8]) {
        bytes[0] = self;
    }
}

#[tactic(auto, using(crate::proofs::LittleEndian::little_endian))]
impl Primitive for u16 {
    type Raw = [u8; 2];

    const BYTES: usize = 2;

    ghost BYTES = { 2 };

    ghost positive = { lit< tt };

    ghost small = { lit≤ tt };

    ghost divides = { refl };

    ghost raw_bytes = { λ bs. bs };

    ghost bits_of = { λ n. n };

    ghost value_of = { from_le_bytes w16 };

    ghost bytes_of = { to_le_bytes w16 };

    fn get(raw: &[u8; 2]) -> u16 {
        u16::from_le_bytes(*raw)
    }

    fn set(raw: &mut [u8; 2], value: u16) {
        *raw = value.to_le_bytes();
    }

    fn load(bytes: &[u8]) -> u16 {
        u16::from_le_bytes([bytes[0], bytes[1]])
    }

    fn store(self, bytes: &mut [u8]) {
        bytes.copy_from_slice(self.to_le_bytes().as_slice());
    }
}

#[tactic(auto, using(crate::proofs::LittleEndian::little_endian))]
impl Primitive for u32 {
    type Raw = [u8; 4];

    const BYTES: usize = 4;

    ghost BYTES = { 4 };

    ghost positive = { lit< tt };

    ghost small = { lit≤ tt };

    ghost divides = { refl };

    ghost raw_bytes = { λ bs. bs };

    ghost bits_of = { λ n. n };

    ghost value_of = { from_le_bytes w32 };

    ghost bytes_of = { to_le_bytes w32 };

    fn get(raw: &[u8; 4]) -> u32 {
        u32::from_le_bytes(*raw)
    }

    fn set(raw: &mut [u8; 4], value: u32) {
        *raw = value.to_le_bytes();
    }

    fn load(bytes: &[u8]) -> u32 {
        u32::from_le_bytes([bytes[0], bytes[1], bytes[2], bytes[3]])
    }

    fn store(self, bytes: &mut [u8]) {
        bytes.copy_from_slice(self.to_le_bytes().as_slice());
    }
}

#[tactic(auto, using(crate::proofs::LittleEndian::little_endian))]
impl Primitive for u64 {
    type Raw = [u8; 8];

    const BYTES: usize = 8;

    ghost BYTES = { 8 };

    ghost positive = { lit< tt };

    ghost small = { lit≤ tt };

    ghost divides = { refl };

    ghost raw_bytes = { λ bs. bs };

    ghost bits_of = { λ n. n };

    ghost value_of = { from_le_bytes w64 };

    ghost bytes_of = { to_le_bytes w64 };

    fn get(raw: &[u8; 8]) -> u64 {
        u64::from_le_bytes(*raw)
    }

    fn set(raw: &mut [u8; 8], value: u64) {
        *raw = value.to_le_bytes();
    }

    fn load(bytes: &[u8]) -> u64 {
        u64::from_le_bytes([
            bytes[0], bytes[1], bytes[2], bytes[3], bytes[4], bytes[5], bytes[6], bytes[7],
        ])
    }

    fn store(self, bytes: &mut [u8]) {
        bytes.copy_from_slice(self.to_le_bytes().as_slice());
    }
}

#[tactic(auto, using(crate::proofs::LittleEndian::little_endian))]
impl Primitive for i8 {
    type Raw = [u8; 1];

    const BYTES: usize = 1;

    ghost BYTES = { 1 };

    ghost positive = { lit< tt };

    ghost small = { lit≤ tt };

    ghost divides = { refl };

    ghost raw_bytes = { λ bs. bs };

    ghost bits_of = { cast_unsigned w8 };

    ghost value_of = { λ bs. cast_signed w8 (from_le_bytes w8 bs) };

    ghost bytes_of = { λ n. to_le_bytes w8 (cast_unsigned w8 n) };

    fn get(raw: &[u8; 1]) -> i8 {
        i8::from_le_bytes(*raw)
    }

    fn set(raw: &mut [u8; 1], value: i8) {
        *raw = value.to_le_bytes();
    }

    fn load(bytes: &[u8]) -> i8 {
        bytes[0].cast_signed()
    }

    fn store(self, bytes: &mut [u8]) {
        bytes[0] = self.cast_unsigned();
    }
}

#[tactic(auto, using(crate::proofs::LittleEndian::little_endian))]
impl Primitive for i16 {
    type Raw = [u8; 2];

    const BYTES: usize = 2;

    ghost BYTES = { 2 };

    ghost positive = { lit< tt };

    ghost small = { lit≤ tt };

    ghost divides = { refl };

    ghost raw_bytes = { λ bs. bs };

    ghost bits_of = { cast_unsigned w16 };

    ghost value_of = { λ bs. cast_signed w16 (from_le_bytes w16 bs) };

    ghost bytes_of = { λ n. to_le_bytes w16 (cast_unsigned w16 n) };

    fn get(raw: &[u8; 2]) -> i16 {
        i16::from_le_bytes(*raw)
    }

    fn set(raw: &mut [u8; 2], value: i16) {
        *raw = value.to_le_bytes();
    }

    fn load(bytes: &[u8]) -> i16 {
        i16::from_le_bytes([bytes[0], bytes[1]])
    }

    fn store(self, bytes: &mut [u8]) {
        bytes.copy_from_slice(self.to_le_bytes().as_slice());
    }
}

#[tactic(auto, using(crate::proofs::LittleEndian::little_endian))]
impl Primitive for i32 {
    type Raw = [u8; 4];

    const BYTES: usize = 4;

    ghost BYTES = { 4 };

    ghost positive = { lit< tt };

    ghost small = { lit≤ tt };

    ghost divides = { refl };

    ghost raw_bytes = { λ bs. bs };

    ghost bits_of = { cast_unsigned w32 };

    ghost value_of = { λ bs. cast_signed w32 (from_le_bytes w32 bs) };

    ghost bytes_of = { λ n. to_le_bytes w32 (cast_unsigned w32 n) };

    fn get(raw: &[u8; 4]) -> i32 {
        i32::from_le_bytes(*raw)
    }

    fn set(raw: &mut [u8; 4], value: i32) {
        *raw = value.to_le_bytes();
    }

    fn load(bytes: &[u8]) -> i32 {
        i32::from_le_bytes([bytes[0], bytes[1], bytes[2], bytes[3]])
    }

    fn store(self, bytes: &mut [u8]) {
        bytes.copy_from_slice(self.to_le_bytes().as_slice());
    }
}

#[tactic(auto, using(crate::proofs::LittleEndian::little_endian))]
impl Primitive for i64 {
    type Raw = [u8; 8];

    const BYTES: usize = 8;

    ghost BYTES = { 8 };

    ghost positive = { lit< tt };

    ghost small = { lit≤ tt };

    ghost divides = { refl };

    ghost raw_bytes = { λ bs. bs };

    ghost bits_of = { cast_unsigned w64 };

    ghost value_of = { λ bs. cast_signed w64 (from_le_bytes w64 bs) };

    ghost bytes_of = { λ n. to_le_bytes w64 (cast_unsigned w64 n) };

    fn get(raw: &[u8; 8]) -> i64 {
        i64::from_le_bytes(*raw)
    }

    fn set(raw: &mut [u8; 8], value: i64) {
        *raw = value.to_le_bytes();
    }

    fn load(bytes: &[u8]) -> i64 {
        i64::from_le_bytes([
            bytes[0], bytes[1], bytes[2], bytes[3], bytes[4], bytes[5], bytes[6], bytes[7],
        ])
    }

    fn store(self, bytes: &mut [u8]) {
        bytes.copy_from_slice(self.to_le_bytes().as_slice());
    }
}
