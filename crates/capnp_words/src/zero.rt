//! The number zero, by type.
ghost use Rattle.std.specs.Prelude.{◌≡◌, pos};
ghost use Rattle.std.proofs.Common.{refl};

use crate::primitive::Primitive;

/// Numbers with a zero. A field that a struct doesn't have is read as zero.
pub trait Zero: Primitive {
    // The zero.
    ghost nought: { Self };

    /// The number 0.
    fn zero() -> Self
        ensures { result ≡ nought };

    // The zero has no bit.
    ghost no_bits: { Self.bits_of nought ≡ 0 };
}

impl Zero for u8 {
    ghost nought = { 0 };

    ghost no_bits = { refl };

    fn zero() -> u8 {
        0
    }
}

impl Zero for u16 {
    ghost nought = { 0 };

    ghost no_bits = { refl };

    fn zero() -> u16 {
        0
    }
}

impl Zero for u32 {
    ghost nought = { 0 };

    ghost no_bits = { refl };

    fn zero() -> u32 {
        0
    }
}

impl Zero for u64 {
    ghost nought = { 0 };

    ghost no_bits = { refl };

    fn zero() -> u64 {
        0
    }
}

impl Zero for i8 {
    ghost nought = { pos 0 };

    ghost no_bits = { refl };

    fn zero() -> i8 {
        0
    }
}

impl Zero for i16 {
    ghost nought = { pos 0 };

    ghost no_bits = { refl };

    fn zero() -> i16 {
        0
    }
}

impl Zero for i32 {
    ghost nought = { pos 0 };

    ghost no_bits = { refl };

    fn zero() -> i32 {
        0
    }
}

impl Zero for i64 {
    ghost nought = { pos 0 };

    ghost no_bits = { refl };

    fn zero() -> i64 {
        0
    }
}
