//! Makes a pointer lead to a text or to data (encoding specification, "Lists").
//!
//! Data is a list of bytes; a text is a list of bytes whose last byte is zero.
ghost use Rattle.std.specs.Prelude.{◌≡◌, ℕ, ◌<◌, ◌≤◌, ◌+◌, ◌-◌, ◌*◌, ◌^◌, ◌++◌, ◌∷◌, [], length, OnOk};
ghost use Rattle.capnp_format.specs.Numbers.{words_for};
ghost use Rattle.capnp_format.specs.Segments.{segment, Grows, IsPlace};
ghost use Rattle.capnp_format.specs.Tree.{Flat};
ghost use Rattle.capnp_arena_traits.specs.View.{KeepsLimits};
ghost use Rattle.capnp_in_place.specs.InPlace.{segments_with};
ghost use Rattle.capnp_allocation.specs.Made.{words_of_zero};
ghost use Rattle.capnp_allocation.specs.Makes.{MakesObject, call_at};
ghost use Rattle.capnp_allocation.specs.Near.{LeadsToEnd};
ghost use Rattle.capnp_allocation.specs.Stored.{PutsOnceZeroed};

use crate::initializing::init_list;
use capnp_arena_traits::arena::{BuilderArena, WordPlace};
use capnp_words::error::ErrorKind;
use capnp_words::lanes;
use capnp_words::wire_pointer::ElementSize;

/// Makes the pointer at `at` of segment `id` lead to new data, which are the bytes of `from`
/// ("Lists"). Preconditions: word `at` of segment `id` is allocated; `from` has fewer than 2^29
/// bytes.
///
/// First zeroes the object that the pointer led to. Refusals: `AllocationFailed` if memory runs
/// out; `MessageTooLarge` if the object needs a new segment, and the object and a landing pad have
/// more than 536,870,911 words, or the message can't have more segments. After a refusal the
/// pointer is null.
#[inline(always)]
pub fn set_data<A: BuilderArena>(
    arena: &mut A,
    id: u32,
    at: u32,
    from: &[u8],
) -> Result<(), ErrorKind>
    requires place { IsPlace (A.view arena.old).words id at }
    requires few { length from.now < 2 ^ 29 }
    ensures object { MakesObject result (call_at id at (A.view arena.old) (A.view arena.new))
        (Flat 2 from.now) (words_for 2 (length from.now)) }
    ensures once_zeroed { OnOk result (PutsOnceZeroed (A.view arena.old).words
        (A.view arena.new).words id at (Flat 2 from.now)) }
    ensures at_end { OnOk result (LeadsToEnd (call_at id at (A.view arena.old) (A.view arena.new))
        (words_for 2 (length from.now))) }
    ensures grows { Grows (A.view arena.old).words (A.view arena.new).words }
{
    set_bytes(arena, id, at, from, from.len() as u32)
}

/// Makes the pointer at `at` of segment `id` lead to a new text: the bytes of `from`, followed by a
/// zero byte ("Lists"). Preconditions: word `at` of segment `id` is allocated; `from` has fewer
/// than 2^29 - 1 bytes.
///
/// First zeroes the object that the pointer led to. Refusals: `AllocationFailed` if memory runs
/// out; `MessageTooLarge` if the object needs a new segment, and the object and a landing pad have
/// more than 536,870,911 words, or the message can't have more segments. After a refusal the
/// pointer is null.
#[inline(always)]
pub fn set_text<A: BuilderArena>(
    arena: &mut A,
    id: u32,
    at: u32,
    from: &[u8],
) -> Result<(), ErrorKind>
    requires place { IsPlace (A.view arena.old).words id at }
    requires few { length from.now + 1 < 2 ^ 29 }
    ensures object { MakesObject result (call_at id at (A.view arena.old) (A.view arena.new))
        (Flat 2 (from.now ++ 0 ∷ [])) (words_for 2 (length from.now + 1)) }
    ensures once_zeroed { OnOk result (PutsOnceZeroed (A.view arena.old).words
        (A.view arena.new).words id at (Flat 2 (from.now ++ 0 ∷ []))) }
    ensures grows { Grows (A.view arena.old).words (A.view arena.new).words }
{
    set_bytes(arena, id, at, from, from.len() as u32 + 1)
}

/// Makes the pointer at `at` of segment `id` lead to a new list of `count` bytes: those of `from`,
/// followed by zeros.
#[inline(always)]
fn set_bytes<A: BuilderArena>(
    arena: &mut A,
    id: u32,
    at: u32,
    from: &[u8],
    count: u32,
) -> Result<(), ErrorKind>
    requires place { IsPlace (A.view arena.old).words id at }
    requires few { (length from.now ≤ count) × (count < 2 ^ 29) }
    ensures object { MakesObject result (call_at id at (A.view arena.old) (A.view arena.new))
        (Flat 2 (from.now ++ words_of_zero (count - length from.now))) (words_for 2 count) }
    ensures once_zeroed { OnOk result (PutsOnceZeroed (A.view arena.old).words
        (A.view arena.new).words id at
        (Flat 2 (from.now ++ words_of_zero (count - length from.now)))) }
    ensures at_end { OnOk result (LeadsToEnd (call_at id at (A.view arena.old) (A.view arena.new))
        (words_for 2 count)) }
{
    let start = init_list(arena, id, at, ElementSize::Byte, count)?;
    write_bytes(arena, start, from);
    Ok(())
}

/// Writes the bytes of `from` into the message, from the word `start` on. Precondition: the bytes
/// that are overwritten are inside the segment.
fn write_bytes<A: BuilderArena>(arena: &mut A, start: WordPlace, from: &[u8])
    requires there { start.segment < length (A.view arena.old).words }
    requires inside { 8 * start.at + length from.now
        ≤ 8 * length (segment (A.view arena.old).words start.segment) }
    ensures written { 0 < length from.now → A.segments arena.new
        ≡ segments_with (A.segments arena.old)
        (record { segment = start.segment; start = start.at; length = length from.now }) from.now }
    ensures nothing { length from.now ≡ 0 → arena.new ≡ arena.old }
    ensures limits { KeepsLimits (A.view arena.old) (A.view arena.new) }
{
    if !from.is_empty() {
        let first = 8 * start.at as usize;
        let end = first + from.len();
        lanes::copy(from, &mut arena.segment_mut(start.segment)[first..end]);
    }
}
