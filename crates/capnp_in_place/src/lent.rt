//! Lends bytes of a message being built, for writing in place (encoding specification, "Lists").
ghost use Rattle.std.specs.Prelude.{◌≡◌, ℕ, ◌+◌, ◌-◌, ◌^◌, ◌<◌, ◌≤◌, List, [], length, take, drop, get_or, slice_index_or, IfOk};
ghost use Rattle.std.specs.Borrow.{sem, Lends, Array, u8 as byte};
ghost use Rattle.capnp_format.specs.Segments.{IsPlace};
ghost use Rattle.capnp_format.specs.Value.{AreBelow};
ghost use Rattle.capnp_arena_traits.specs.Written.{overwritten};
ghost use Rattle.capnp_in_place.specs.Existing.{AreInside};
ghost use Rattle.capnp_in_place.specs.InPlace.{bytes_there, rewritten, segments_with, AreZeroOnce, LendsBytes, MakesBytes, Overwrites};
ghost use Rattle.capnp_allocation.specs.Makes.{ReachesArena, call_at};

use crate::existing::ExistingBytes;
use crate::initializing::init_list;
use capnp_arena_traits::arena::BuilderArena;
use capnp_words::error::ErrorKind;
use capnp_words::wire_pointer::ElementSize;

/// Lends the bytes of segment `id` from position `from` on, up to position `end`, which isn't
/// included. The other bytes stay unchanged.
fn bytes_between_mut<A: BuilderArena>(arena: &mut A, id: u32, from: usize, end: usize) -> &mut [u8]
    requires there { id < length (A.segments arena.old) }
    requires order { from ≤ end }
    requires inside { end ≤ length (slice_index_or (A.segments arena.old) id []) }
    ensures* lends { sem 𝓛 (Lends A.row (Array byte 0) arena.entry result
        (λ ws. A.with_bytes arena.old id
        (overwritten (slice_index_or (A.segments arena.old) id []) from ws))) }
    ensures now { result.now ≡ take (end - from)
        (drop from (slice_index_or (A.segments arena.old) id [])) }
    ensures small { (i : ℕ) → get_or (slice_index_or (A.segments arena.old) id []) i 0 < 2 ^ 8 }
{
    let bytes = arena.segment_mut(id);
    &mut bytes[from..end]
}

/// Lends the bytes at `bytes`, for writing in place; nothing else of the message changes.
/// Preconditions: segment `bytes.segment` exists; the words that hold `bytes` are allocated.
pub fn bytes_mut<A: BuilderArena>(arena: &mut A, bytes: ExistingBytes) -> &mut [u8]
    requires there { bytes.segment < length (A.view arena.old).words }
    requires inside { AreInside (A.view arena.old).words bytes }
    ensures* lends { sem 𝓛 (Lends A.row (Array byte 0) arena.entry result
        (rewritten A.with_bytes A.segments arena.old bytes)) }
    ensures now { result.now ≡ bytes_there (A.segments arena.old) bytes }
    ensures count { length result.now ≡ bytes.length }
    ensures segments { (ws : List ℕ) → length ws ≡ bytes.length →
        A.segments (rewritten A.with_bytes A.segments arena.old bytes ws)
        ≡ segments_with (A.segments arena.old) bytes ws }
    ensures written { (ws : List ℕ) → (length ws ≡ bytes.length) × AreBelow 256 ws →
        Overwrites (A.view arena.old).words
        (A.view (rewritten A.with_bytes A.segments arena.old bytes ws)).words bytes ws }
{
    let from = 8 * bytes.start as usize;
    let end = from + bytes.length as usize;
    bytes_between_mut(arena, bytes.segment, from, end)
}

/// Makes the pointer at `at` of segment `id` lead to new data of `size` zero bytes, and lends these
/// bytes for writing in place ("Lists"). Preconditions: word `at` of segment `id` is allocated;
/// `size` is below 2^29.
///
/// First zeroes the object that the pointer led to. Refusals: `AllocationFailed` if memory runs
/// out; `MessageTooLarge` if the object needs a new segment, and the object and a landing pad have
/// more than 536,870,911 words, or the message can't have more segments. After a refusal the
/// pointer is null.
pub fn init_data<A: BuilderArena>(
    arena: &mut A,
    id: u32,
    at: u32,
    size: u32,
) -> Result<&mut [u8], ErrorKind>
    requires place { IsPlace (A.view arena.old).words id at }
    requires few { size < 2 ^ 29 }
    ensures count { IfOk result (λ bytes. length bytes.now ≡ size) }
    ensures zero { IfOk result (λ bytes. AreZeroOnce (A.view arena.old).words id at bytes.now) }
    ensures made { ReachesArena (LendsBytes A.segments)
        (λ now r. MakesBytes r (call_at id at (A.view arena.old) (A.view now)) size size)
        result }
{
    init_bytes(arena, id, at, size, size)
}

/// Makes the pointer at `at` of segment `id` lead to a new text of `size` zero bytes, followed by
/// the zero byte at a text's end. Lends the `size` bytes for writing in place, without that last
/// one ("Lists"). Preconditions: word `at` of segment `id` is allocated; `size` is below 2^29 - 1.
///
/// First zeroes the object that the pointer led to. Refusals: `AllocationFailed` if memory runs
/// out; `MessageTooLarge` if the object needs a new segment, and the object and a landing pad have
/// more than 536,870,911 words, or the message can't have more segments. After a refusal the
/// pointer is null.
pub fn init_text<A: BuilderArena>(
    arena: &mut A,
    id: u32,
    at: u32,
    size: u32,
) -> Result<&mut [u8], ErrorKind>
    requires place { IsPlace (A.view arena.old).words id at }
    requires few { size + 1 < 2 ^ 29 }
    ensures count { IfOk result (λ bytes. length bytes.now ≡ size) }
    ensures zero { IfOk result (λ bytes. AreZeroOnce (A.view arena.old).words id at bytes.now) }
    ensures made { ReachesArena (LendsBytes A.segments)
        (λ now r. MakesBytes r (call_at id at (A.view arena.old) (A.view now)) (size + 1) size)
        result }
{
    init_bytes(arena, id, at, size + 1, size)
}

/// Makes the pointer at `at` of segment `id` lead to a new list of `count` bytes, all zero, and
/// lends the first `size` of them.
fn init_bytes<A: BuilderArena>(
    arena: &mut A,
    id: u32,
    at: u32,
    count: u32,
    size: u32,
) -> Result<&mut [u8], ErrorKind>
    requires place { IsPlace (A.view arena.old).words id at }
    requires few { (size ≤ count) × (count < 2 ^ 29) }
    ensures count { IfOk result (λ bytes. length bytes.now ≡ size) }
    ensures zero { IfOk result (λ bytes. AreZeroOnce (A.view arena.old).words id at bytes.now) }
    ensures made { ReachesArena (LendsBytes A.segments)
        (λ now r. MakesBytes r (call_at id at (A.view arena.old) (A.view now)) count size)
        result }
{
    let start = init_list(arena, id, at, ElementSize::Byte, count)?;
    let bytes = ExistingBytes {
        segment: start.segment,
        start: start.at,
        length: size,
    };
    Ok(bytes_mut(arena, bytes))
}
