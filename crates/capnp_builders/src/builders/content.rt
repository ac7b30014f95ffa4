//! Overwrites the data section of a struct with that of another, and clears the struct's pointers
//! (encoding specification, "Structs").
ghost use Rattle.std.specs.Prelude.{◌≡◌, ℕ, ◌+◌, ◌*◌, ◌/◌, ◌%◌, ◌^◌, ◌<◌, ◌≤◌, length, slice_index};
ghost use Rattle.capnp_arena_traits.specs.View.{KeepsLimits};
ghost use Rattle.capnp_format.specs.Segments.{segment, word_at};
ghost use Rattle.capnp_allocation.specs.Zeroed.{IsPruned};
ghost use Rattle.capnp_readers.specs.Readers.{IsStructPlace};
ghost use Rattle.capnp_readers.specs.Sections.{bytes_for};
ghost use Rattle.capnp_builders.specs.Content.{content_byte, with_fields, fields_from, with_content, AreCleared};

use capnp_allocation::making::clear;
use capnp_arena_traits::arena::BuilderArena;
use capnp_in_place::numbers::{set_bit, set_number};
use capnp_readers::readers::StructPlace;
use capnp_words::lanes;

/// Writes the `bits` bits of data in `bytes` over the data section of the struct at `place`. Leaves
/// out bits that don't fit the section; if the section is longer, zeroes its rest.
pub(crate) fn write_content<A: BuilderArena>(
    arena: &mut A,
    place: StructPlace,
    bytes: &[u8],
    bits: u32,
)
    requires inside { IsStructPlace (A.view arena.old).words place }
    requires long { length bytes.now ≡ bytes_for bits }
    ensures { A.view arena.new
        ≡ record (A.view arena.old)
        { words = with_content (A.view arena.old).words place bits bytes.now } }
{
    let whole = place.bits / 8;
    write_bytes(arena, place, bytes, bits);
    let bit = 8 * place.byte + u64::from(whole) * 8;
    let left = place.bits % 8;
    if left > 0 {
        let byte = content_byte(bytes, bits, whole);
        write_bits(arena, place.segment, bit, left, byte);
    }
}

/// Clears `count` consecutive pointers from `at` of segment `id` on: makes each null, and zeroes
/// the objects that it led to.
pub(crate) fn clear_pointers<A: BuilderArena>(arena: &mut A, id: u32, at: u32, count: u16)
    requires room { at + count ≤ length (segment (A.view arena.old).words id) }
    ensures cleared { AreCleared (A.view arena.old).words (A.view arena.new).words id at count }
    ensures null { (i : ℕ) → i < count → word_at (A.view arena.new).words id (at + i) ≡ 0 }
    ensures only { IsPruned (A.view arena.old).words (A.view arena.new).words }
    ensures limits { KeepsLimits (A.view arena.old) (A.view arena.new) }
{
    for i in 0..count {
        clear(arena, id, at + u32::from(i));
    }
}

/// Like `write_content`, but writes only the whole bytes of the data section.
fn write_bytes<A: BuilderArena>(arena: &mut A, place: StructPlace, bytes: &[u8], bits: u32)
    requires inside { IsStructPlace (A.view arena.old).words place }
    requires long { length bytes.now ≡ bytes_for bits }
    ensures { A.view arena.new
        ≡ record (A.view arena.old) {
          words = with_fields (A.view arena.old).words place.segment
              (fields_from (8 * place.byte) 8 (content_byte bits bytes.now)) (place.bits / 8);
        } }
{
    let id = place.segment;
    let start = place.byte;
    let count = place.bits / 8;
    let both = count.min(bits / 8);
    copy_bytes(arena, id, start, &bytes[..both as usize]);
    if both < count {
        let byte = content_byte(bytes, bits, both);
        let next = start + u64::from(both);
        set_number(arena, id, next, byte);
        zero_bytes(arena, id, next + 1, count - both - 1);
    }
}

/// Writes the bytes of `from` over those of segment `id` from byte `start` on.
fn copy_bytes<A: BuilderArena>(arena: &mut A, id: u32, start: u64, from: &[u8])
    requires inside { start + length from.now ≤ 8 * length (segment (A.view arena.old).words id) }
    ensures { A.view arena.new
        ≡ record (A.view arena.old) {
          words = with_fields (A.view arena.old).words id
              (fields_from (8 * start) 8 (slice_index from.now)) (length from.now);
        } }
{
    if !from.is_empty() {
        let first = start as usize;
        let end = first + from.len();
        let bytes = arena.segment_mut(id);
        lanes::copy(from, &mut bytes[first..end]);
    }
}

/// Zeroes `count` bytes of segment `id` from byte `start` on.
fn zero_bytes<A: BuilderArena>(arena: &mut A, id: u32, start: u64, count: u32)
    requires inside { start + count ≤ 8 * length (segment (A.view arena.old).words id) }
    ensures { A.view arena.new
        ≡ record (A.view arena.old) {
          words = with_fields (A.view arena.old).words id (fields_from (8 * start) 8 (λ i. 0))
              count;
        } }
{
    if count > 0 {
        let first = start as usize;
        let end = first + count as usize;
        let bytes = arena.segment_mut(id);
        lanes::zero(&mut bytes[first..end]);
    }
}

/// Writes the lowest `count` bits of `byte` over those of segment `id` from bit `start` on.
fn write_bits<A: BuilderArena>(arena: &mut A, id: u32, start: u64, count: u32, byte: u8)
    requires inside { start + count ≤ 64 * length (segment (A.view arena.old).words id) }
    requires few { count < 8 }
    ensures { A.view arena.new
        ≡ record (A.view arena.old) {
          words = with_fields (A.view arena.old).words id
              (fields_from start 1 (λ j. byte / 2 ^ j % 2)) count;
        } }
{
    for j in 0..count {
        set_bit(arena, id, start + u64::from(j), byte >> j & 1 == 1);
    }
}

/// Returns byte `index` of the `bits` bits of data in `bytes`. Bits beyond these `bits` bits are 0.
fn content_byte(bytes: &[u8], bits: u32, index: u32) -> u8
    requires long { length bytes.now ≡ bytes_for bits }
    ensures { result ≡ content_byte bits bytes.now index }
{
    let i = index as usize;
    if i >= bytes.len() {
        return 0;
    }
    let left = bits as usize - 8 * i;
    if left >= 8 {
        return bytes[i];
    }
    bytes[i] & ((1 << left) - 1)
}
