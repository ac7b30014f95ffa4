//! Writes and reads numbers and bits in place: in the data section of a struct, or in a list of
//! numbers (encoding specification, "Structs" and "Lists").
ghost use Rattle.std.specs.Prelude.{◌≡◌, ◌<◌, ◌≤◌, ◌+◌, ◌*◌, ◌%◌, ◌^◌, ◌↔◌, IsTrue, cond, length};
ghost use Rattle.capnp_format.specs.Bytes.{words_of};
ghost use Rattle.capnp_format.specs.Segments.{Grows, segment};
ghost use Rattle.capnp_allocation.specs.Fields.{with_field};
ghost use Rattle.capnp_format.specs.Fields.{field_in};

use capnp_arena_traits::arena::BuilderArena;
use capnp_words::primitive::Primitive;

/// Writes `value` into segment `id` at byte `byte`. Preconditions: `byte` is a multiple of the
/// number's width; the number is in allocated words of segment `id`.
pub fn set_number<A: BuilderArena, T: Primitive>(arena: &mut A, id: u32, byte: u64, value: T)
    requires inside { byte + T.BYTES ≤ 8 * length (segment (A.view arena.old).words id) }
    requires aligned { byte % T.BYTES ≡ 0 }
    ensures written { A.view arena.new
        ≡ record (A.view arena.old) {
          words = with_field (A.view arena.old).words id (8 * byte) (8 * T.BYTES)
              (T.bits_of value);
        } }
    ensures fits { T.bits_of value < 2 ^ (8 * T.BYTES) }
    ensures grows { Grows (A.view arena.old).words (A.view arena.new).words }
{
    let start = byte as usize;
    let bytes = arena.segment_mut(id);
    value.store(&mut bytes[start..start + T::BYTES]);
}

/// Writes bit `bit` of segment `id`, which is counted from the lowest bit of the segment's first
/// byte on. Precondition: bit `bit` is in an allocated word of segment `id`.
pub fn set_bit<A: BuilderArena>(arena: &mut A, id: u32, bit: u64, value: bool)
    requires inside { bit < 64 * length (segment (A.view arena.old).words id) }
    ensures written { A.view arena.new
        ≡ record (A.view arena.old)
        { words = with_field (A.view arena.old).words id bit 1 (cond value 1 0) } }
    ensures grows { Grows (A.view arena.old).words (A.view arena.new).words }
{
    let bytes = arena.segment_mut(id);
    let byte = &mut bytes[(bit / 8) as usize];
    let mask = 1u8 << (bit % 8);
    if value {
        *byte |= mask;
    } else {
        *byte &= !mask;
    }
}

/// Returns the number in segment `id` at byte `byte`. Preconditions: `byte` is a multiple of the
/// number's width; the number is in allocated words of segment `id`.
pub fn get_number<A: BuilderArena, T: Primitive>(arena: &A, id: u32, byte: u64) -> T
    requires inside { byte + T.BYTES ≤ 8 * length (segment (A.view arena.now).words id) }
    requires aligned { byte % T.BYTES ≡ 0 }
    ensures { T.bits_of result ≡ field_in (segment (A.view arena.now).words id) (8 * byte)
        (8 * T.BYTES) }
{
    let Ok(bytes) = arena.get_segment(id) else {
        unreachable!()
    };
    number_in(bytes, byte)
}

/// Returns the number in `bytes` at byte `byte`. Preconditions: `byte` is a multiple of the
/// number's width, and the number is inside the whole words of `bytes`.
fn number_in<T: Primitive>(bytes: &[u8], byte: u64) -> T
    requires small { length bytes.now < 8 * 2 ^ 32 }
    requires inside { byte + T.BYTES ≤ 8 * length (words_of bytes.now) }
    requires aligned { byte % T.BYTES ≡ 0 }
    ensures { T.bits_of result ≡ field_in (words_of bytes.now) (8 * byte) (8 * T.BYTES) }
{
    let start = byte as usize;
    T::load(&bytes[start..start + T::BYTES])
}

/// Returns bit `bit` of segment `id`, which is counted from the lowest bit of the segment's first
/// byte on. Precondition: bit `bit` is in an allocated word of segment `id`.
pub fn get_bit<A: BuilderArena>(arena: &A, id: u32, bit: u64) -> bool
    requires inside { bit < 64 * length (segment (A.view arena.now).words id) }
    ensures { IsTrue result ↔ (field_in (segment (A.view arena.now).words id) bit 1 ≡ 1) }
{
    let Ok(bytes) = arena.get_segment(id) else {
        unreachable!()
    };
    bit_in(bytes, bit)
}

/// Returns bit `bit` of `bytes`, which is counted from the lowest bit of the first byte on.
/// Precondition: the bit is inside the whole words of `bytes`.
fn bit_in(bytes: &[u8], bit: u64) -> bool
    requires inside { bit < 64 * length (words_of bytes.now) }
    ensures { IsTrue result ↔ (field_in (words_of bytes.now) bit 1 ≡ 1) }
{
    (bytes[(bit / 8) as usize] >> (bit % 8)) & 1 == 1
}
