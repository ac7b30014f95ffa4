//! What the definitions say in which generated builders state a field. Each function does nothing:
//! its contract is the law, proved for all numbers.
ghost use Rattle.std.specs.Prelude.{◌≡◌, ℤ, FitsSigned};
ghost use Rattle.std.specs.Int.{cast_unsigned, w8, w16, w32, w64};
ghost use Rattle.typed_building.specs.Signed.{int8_bits, int16_bits, int32_bits, int64_bits};

/// The bits that are stored for a number with a sign are its bits in two's complement.
pub fn bits_of_signed()
    ensures int8 { (n : ℤ) → FitsSigned w8 n → int8_bits n ≡ cast_unsigned w8 n }
    ensures int16 { (n : ℤ) → FitsSigned w16 n → int16_bits n ≡ cast_unsigned w16 n }
    ensures int32 { (n : ℤ) → FitsSigned w32 n → int32_bits n ≡ cast_unsigned w32 n }
    ensures int64 { (n : ℤ) → FitsSigned w64 n → int64_bits n ≡ cast_unsigned w64 n }
{}
