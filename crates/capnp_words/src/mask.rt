//! Masks: a field is stored as the exclusive or of its value and its default, so that a field that
//! holds its default is stored as zero bits.
ghost use Rattle.std.specs.Prelude.{◌≡◌, ℕ, bit_xor};
ghost use Rattle.std.specs.Int.{w8, w16, w32, w64, int_bit_xor, cast_unsigned};

use crate::primitive::Primitive;

/// Numbers that can be masked by another number with as many bits.
pub trait Mask: Primitive {
    /// The type of a mask: the number's own type.
    type T;

    // The number with a mask applied.
    ghost masked: { Self → Self.T → Self };

    // The bits of a mask as a number without a sign.
    ghost mask_bits: { Self.T → ℕ };

    /// The exclusive or of a number and a mask. Applying the same mask again returns the number.
    fn mask(value: Self, mask: Self::T) -> Self
        ensures value { result ≡ masked value mask }
        ensures bits { Self.bits_of result ≡ bit_xor (Self.bits_of value) (mask_bits mask) }
        ensures undone { masked result mask ≡ value };
}

impl Mask for u8 {
    type T = u8;

    ghost masked = { bit_xor };

    ghost mask_bits = { λ n. n };

    fn mask(value: u8, mask: u8) -> u8 {
        value ^ mask
    }
}

impl Mask for u16 {
    type T = u16;

    ghost masked = { bit_xor };

    ghost mask_bits = { λ n. n };

    fn mask(value: u16, mask: u16) -> u16 {
        value ^ mask
    }
}

impl Mask for u32 {
    type T = u32;

    ghost masked = { bit_xor };

    ghost mask_bits = { λ n. n };

    fn mask(value: u32, mask: u32) -> u32 {
        value ^ mask
    }
}

impl Mask for u64 {
    type T = u64;

    ghost masked = { bit_xor };

    ghost mask_bits = { λ n. n };

    fn mask(value: u64, mask: u64) -> u64 {
        value ^ mask
    }
}

#[tactic(auto, using(crate::proofs::Masks::int_xor_again, crate::proofs::Masks::int_xor_bits))]
impl Mask for i8 {
    type T = i8;

    ghost masked = { int_bit_xor w8 };

    ghost mask_bits = { cast_unsigned w8 };

    fn mask(value: i8, mask: i8) -> i8 {
        value ^ mask
    }
}

#[tactic(auto, using(crate::proofs::Masks::int_xor_again, crate::proofs::Masks::int_xor_bits))]
impl Mask for i16 {
    type T = i16;

    ghost masked = { int_bit_xor w16 };

    ghost mask_bits = { cast_unsigned w16 };

    fn mask(value: i16, mask: i16) -> i16 {
        value ^ mask
    }
}

#[tactic(auto, using(crate::proofs::Masks::int_xor_again, crate::proofs::Masks::int_xor_bits))]
impl Mask for i32 {
    type T = i32;

    ghost masked = { int_bit_xor w32 };

    ghost mask_bits = { cast_unsigned w32 };

    fn mask(value: i32, mask: i32) -> i32 {
        value ^ mask
    }
}

#[tactic(auto, using(crate::proofs::Masks::int_xor_again, crate::proofs::Masks::int_xor_bits))]
impl Mask for i64 {
    type T = i64;

    ghost masked = { int_bit_xor w64 };

    ghost mask_bits = { cast_unsigned w64 };

    fn mask(value: i64, mask: i64) -> i64 {
        value ^ mask
    }
}
