//! Zeroes what a pointer leads to: its object, all objects below that, and their landing pads.
ghost use Rattle.std.specs.Prelude.{◌≡◌, ℕ, ◌<◌, ◌≤◌, ◌+◌, ◌*◌, ◌^◌, ◌∷◌, [], length, IsTrue, ◌↔◌};
ghost use Rattle.capnp_arena_traits.specs.View.{KeepsLimits};
ghost use Rattle.capnp_format.specs.Segments.{segment, word_at, IsPlace};
ghost use Rattle.capnp_format.specs.Means.{IsTag};
ghost use Rattle.capnp_format.specs.Tree.{Tree, Trees, Elements, element_count};
ghost use Rattle.capnp_format.specs.Tree.{count as number};
ghost use Rattle.capnp_format.specs.Word.{far_position, is_double, kind, upper_half};
ghost use Rattle.capnp_format.specs.Forest.{pads_of, row, PadsInside, object_cover, cover_all, cover_elements};
ghost use Rattle.capnp_format.specs.Path.{extent};
ghost use Rattle.capnp_allocation.specs.Landings.{target_of};
ghost use Rattle.capnp_allocation.specs.Zeroed.{IsZeroed, IsPruned, Zeroes, ZeroesPads, IsApart, IsObjectApart, AreApart, AreApartElements, IsStructListApart, element_extents, struct_list_cover};

use crate::landing::{PointerTarget, follow, pointer_word, segment_length};
use capnp_arena_traits::arena::{BuilderArena, set_word, zero_words};
use capnp_words::wire_pointer::{
    ElementSize, StructSize, WirePointer, WirePointerKind, data_bits_per_element,
};

/// Zeroes the `n` words of segment `id` from `start` on. Changes nothing unless all of them are
/// inside the segment. Precondition: `n` is below 2^63.
pub fn zero_if_inside<A: BuilderArena>(arena: &mut A, id: u32, start: u32, n: u64)
    requires { n < 2 ^ 63 }
    ensures zeroed { start + n ≤ length (segment (A.view arena.old).words id)
        → IsZeroed (A.view arena.old).words (A.view arena.new).words (row id start n ∷ []) }
    ensures beyond { length (segment (A.view arena.old).words id) < start + n
        → A.view arena.new ≡ A.view arena.old }
    ensures pruned { IsPruned (A.view arena.old).words (A.view arena.new).words }
    ensures limits { KeepsLimits (A.view arena.old) (A.view arena.new) }
{
    if is_nonempty_inside(arena, id, start, n) {
        zero_words(arena, id, start, n as u32);
    }
}

/// Whether the `n` words from `start` on are inside segment `id`, and `n` isn't 0.
fn is_nonempty_inside<A: BuilderArena>(arena: &A, id: u32, start: u32, n: u64) -> bool
    requires { n < 2 ^ 63 }
    ensures { IsTrue result
        ↔ ((0 < n) × (start + n ≤ length (segment (A.view arena.now).words id))) }
{
    n > 0 && u64::from(start) + n <= u64::from(segment_length(arena, id))
}

/// Zeroes the landing pads of `word`, if it is a far pointer. Changes nothing if the pads aren't
/// inside their segment.
pub fn zero_pads<A: BuilderArena>(arena: &mut A, word: WirePointer)
    ensures { ZeroesPads (A.view arena.old) (A.view arena.new) word.0 }
{
    if word.kind() == WirePointerKind::Far {
        zero_far_pads(arena, word);
    }
}

/// Zeroes the landing pads of the far pointer `word`. Not inlined, because most pointers aren't
/// far.
#[cold]
#[inline(never)]
fn zero_far_pads<A: BuilderArena>(arena: &mut A, word: WirePointer)
    requires { kind word.0 ≡ 2 }
    ensures { ZeroesPads (A.view arena.old) (A.view arena.new) word.0 }
{
    let words = if word.is_double_far() { 2 } else { 1 };
    zero_if_inside(
        arena,
        word.far_segment_id(),
        word.far_position_in_segment(),
        words,
    );
}

/// Zeroes the pointer at `at` of segment `id` and what it leads to: its object, all objects below
/// that, and their landing pads. If the pointer doesn't lead to a value in which no word is used
/// twice, may zero any words, but writes only zeros. In a message that a builder made, this can't
/// happen.
///
/// Precondition: word `at` of segment `id` is allocated.
#[cycle(zeroing)]
#[inline(always)]
pub fn zero_object<A: BuilderArena>(arena: &mut A, id: u32, at: u32)
    requires { IsPlace (A.view arena.old).words id at }
    ensures zeroes { Zeroes (A.view arena.old) (A.view arena.new)
        (IsApart (A.view arena.old).words id at) (extent (A.view arena.old).words id at) }
    ensures null { word_at (A.view arena.new).words id at ≡ 0 }
{
    let word = WirePointer(arena.get_word(id, at));
    if word.is_null() {
        return;
    }
    let landing = follow(arena, id, at);
    set_word(arena, id, at, 0);
    match landing {
        Some(landing) => {
            zero_target(arena, landing);
            zero_pads(arena, word);
        }
        None => {}
    }
}

/// Zeroes the object at `landing` and all objects below it, if together they are a value in which
/// no word is used twice. Otherwise may zero any words, but writes only zeros.
#[cycle(zeroing)]
#[cold]
#[inline(never)]
fn zero_target<A: BuilderArena>(arena: &mut A, landing: PointerTarget)
    ensures { Zeroes (A.view arena.old) (A.view arena.new)
        (IsObjectApart (A.view arena.old).words (target_of landing))
        (object_cover (A.view arena.old).words (target_of landing)) }
{
    let PointerTarget {
        word,
        segment: id,
        start,
        pads: _,
    } = landing;
    match word.kind() {
        WirePointerKind::Struct => zero_struct(arena, id, start, word.struct_size()),
        WirePointerKind::List => {
            let count = word.list_element_count();
            match word.list_element_size() {
                ElementSize::InlineComposite => zero_struct_list(arena, id, start),
                ElementSize::Pointer => zero_pointers(arena, id, start, count),
                size => {
                    let bits = u64::from(data_bits_per_element(size)) * u64::from(count);
                    zero_if_inside(arena, id, start, bits.div_ceil(64));
                }
            }
        }
        WirePointerKind::Far | WirePointerKind::Other => {}
    }
}

/// Zeroes the struct that starts at `start` of segment `id`, and all objects below it, if its
/// pointers lead to values, and no word is used twice. Otherwise may zero any words, but writes
/// only zeros.
#[cycle(zeroing)]
fn zero_struct<A: BuilderArena>(arena: &mut A, id: u32, start: u32, size: StructSize)
    ensures { Zeroes (A.view arena.old) (A.view arena.new)
        (λ (ts : Trees). (number ts ≡ size.pointers)
        × (start + (size.data_words + size.pointers) ≤ length (segment (A.view arena.old).words id))
        × AreApart (A.view arena.old).words id (start + size.data_words) ts)
        (λ (ts : Trees). row id start (size.data_words + size.pointers)
        ∷ cover_all (A.view arena.old).words id (start + size.data_words) ts) }
{
    let pointers = u64::from(start) + u64::from(size.data_words);
    if pointers + u64::from(size.pointers) <= u64::from(segment_length(arena, id)) {
        zero_pointers(arena, id, pointers as u32, u32::from(size.pointers));
        zero_if_inside(arena, id, start, u64::from(size.total()));
    }
}

/// Zeroes the `count` consecutive pointers from `start` of segment `id` on, and all objects below
/// them, if the pointers lead to values, and no word is used twice. Otherwise may zero any words,
/// but writes only zeros.
#[cycle(zeroing)]
#[tactic(auto, using(crate::proofs::Zeros::fewer))]
fn zero_pointers<A: BuilderArena>(arena: &mut A, id: u32, start: u32, count: u32)
    ensures { Zeroes (A.view arena.old) (A.view arena.new)
        (λ (ts : Trees). (number ts ≡ count)
        × (start + count ≤ length (segment (A.view arena.old).words id))
        × AreApart (A.view arena.old).words id start ts)
        (λ (ts : Trees). row id start count ∷ cover_all (A.view arena.old).words id start ts) }
{
    if u64::from(start) + u64::from(count) <= u64::from(segment_length(arena, id)) {
        for i in 0..count {
            zero_object(arena, id, start + i);
        }
    }
}

/// Zeroes the list of structs whose tag is at `start` of segment `id`, and all objects below it, if
/// its pointers lead to values, and no word is used twice. Otherwise may zero any words, but writes
/// only zeros.
#[cycle(zeroing)]
fn zero_struct_list<A: BuilderArena>(arena: &mut A, id: u32, start: u32)
    ensures { Zeroes (A.view arena.old) (A.view arena.new)
        (IsStructListApart (A.view arena.old).words id start)
        (struct_list_cover (A.view arena.old).words id start) }
{
    let tag = pointer_word(arena, id, start);
    let count = tag.inline_composite_list_element_count();
    let size = tag.struct_size();
    let words = 1 + u64::from(count) * u64::from(size.total());
    if u64::from(start) + words <= u64::from(segment_length(arena, id)) {
        zero_elements(arena, id, start + 1, size, count);
        zero_if_inside(arena, id, start, words);
    }
}

/// Zeroes the pointers of `count` consecutive structs, the elements of a list, from `start` of
/// segment `id` on, and all objects below them, if the pointers lead to values, and no word is used
/// twice. Otherwise may zero any words, but writes only zeros.
#[cycle(zeroing)]
#[tactic(auto, using(crate::proofs::Zeros::fewer))]
fn zero_elements<A: BuilderArena>(arena: &mut A, id: u32, start: u32, size: StructSize, count: u32)
    requires { start + count * (size.data_words + size.pointers)
        ≤ length (segment (A.view arena.old).words id) }
    ensures { Zeroes (A.view arena.old) (A.view arena.new)
        (λ (es : Elements). (element_count es ≡ count)
        × AreApartElements (A.view arena.old).words id start size es)
        (element_extents (A.view arena.old).words id start size) }
{
    if size.pointers > 0 {
        let mut at = start;
        for i in 0..count {
            at += u32::from(size.data_words);
            zero_pointers(arena, id, at, u32::from(size.pointers));
            at += u32::from(size.pointers);
        }
    }
}
