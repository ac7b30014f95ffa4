//! Turns lists of numbers into lists of structs: each number becomes the lowest bytes of a struct's
//! first data word.
ghost use Rattle.std.specs.Prelude.{◌≡◌, ◌↔◌, ◌<◌, ◌≤◌, ◌+◌, ◌*◌, ◌^◌, IsTrue, length, IsOk, IfOk, IfErr, OnErr};
ghost use Rattle.capnp_arena_traits.specs.View.{KeepsLimits};
ghost use Rattle.capnp_format.specs.Numbers.{element_bits, words_for};
ghost use Rattle.capnp_format.specs.Segments.{Grows, segment, IsPlace};
ghost use Rattle.capnp_words.specs.Sizes.{size_number};
ghost use Rattle.capnp_allocation.specs.Made.{structs_words};
ghost use Rattle.capnp_format.specs.Fields.{field_in};
ghost use Rattle.capnp_allocation.specs.Makes.{call_at};
ghost use Rattle.capnp_allocation.specs.Memory.{HasRoom, RefusesWords};
ghost use Rattle.capnp_in_place.specs.Rooms.{GrowsByAtMost};
ghost use Rattle.capnp_in_place.specs.RowsRemade.{AreNumbersCopied, IsList, MakesListAnew, MakesListOfStructs, NumbersInside};

use crate::existing::ExistingList;
use crate::remaking::allocate_struct_list;
use crate::widening::point_to_object;
use capnp_allocation::landing::{pointer_word, segment_length};
use capnp_allocation::making::Shape;
use capnp_allocation::zeroing::{zero_if_inside, zero_pads};
use capnp_arena_traits::arena::{BuilderArena, WordPlace, set_word};
use capnp_words::error::ErrorKind;
use capnp_words::wire_pointer::{ElementSize, StructSize, data_bits_per_element};

/// Turns the list of numbers `old`, which the pointer at `at` of segment `id` leads to, into a list
/// of structs of `size`. Precondition: `size` has at least one data word.
///
/// If `old` is the list that this pointer leads to, refuses only if the arena refuses the new
/// words, and then leaves the old list unchanged.
pub(crate) fn widen_numbers<A: BuilderArena>(
    arena: &mut A,
    id: u32,
    at: u32,
    old: ExistingList,
    size: StructSize,
) -> Result<ExistingList, ErrorKind>
    requires place { IsPlace (A.view arena.old).words id at }
    requires kind { (2 ≤ size_number old.size) × (size_number old.size ≤ 5) }
    requires data { 0 < size.data_words }
    requires small { old.count * (size.data_words + size.pointers) < 2 ^ 29 }
    ensures makes { MakesListOfStructs result (IsList (A.view arena.old).words id at old) size
        (call_at id at (A.view arena.old) (A.view arena.new)) }
    ensures grows { Grows (A.view arena.old).words (A.view arena.new).words }
{
    if !are_numbers_inside(arena, old) {
        return Err(ErrorKind::MessageContainsOutOfBoundsPointer);
    }
    widen_numbers_inside(arena, id, at, old, size)
}

/// Whether the words of a list of numbers are inside their segment.
fn are_numbers_inside<A: BuilderArena>(arena: &A, list: ExistingList) -> bool
    ensures { IsTrue result ↔ NumbersInside (A.view arena.now).words list }
{
    let end = u64::from(list.start) + words_of_numbers(list);
    end <= u64::from(segment_length(arena, list.segment))
}

/// The number of words of a list of numbers.
fn words_of_numbers(list: ExistingList) -> u64
    ensures value { result ≡ words_for (size_number list.size) list.count }
    ensures small { result < 2 ^ 33 }
{
    (u64::from(data_bits_per_element(list.size)) * u64::from(list.count)).div_ceil(64)
}

/// Turns the list of numbers `old`, which the pointer at `at` of segment `id` leads to, into a list
/// of structs. Precondition: the words of `old` are inside their segment.
fn widen_numbers_inside<A: BuilderArena>(
    arena: &mut A,
    id: u32,
    at: u32,
    old: ExistingList,
    size: StructSize,
) -> Result<ExistingList, ErrorKind>
    requires place { IsPlace (A.view arena.old).words id at }
    requires kind { (2 ≤ size_number old.size) × (size_number old.size ≤ 5) }
    requires inside { NumbersInside (A.view arena.old).words old }
    requires data { 0 < size.data_words }
    requires small { old.count * (size.data_words + size.pointers) < 2 ^ 29 }
    ensures made { MakesListAnew result (IsList (A.view arena.old).words id at old) size
        (call_at id at (A.view arena.old) (A.view arena.new)) }
    ensures refused { OnErr result ((A.view arena.new).words ≡ (A.view arena.old).words) }
    ensures full { IfErr result (RefusesWords (A.view arena.old) (A.view arena.new)
        (structs_words old.count size)) }
    ensures few { GrowsByAtMost (A.view arena.old).words (A.view arena.new).words
        (structs_words old.count size + 1) }
    ensures grows { Grows (A.view arena.old).words (A.view arena.new).words }
    ensures fits { HasRoom (A.view arena.old) id (structs_words old.count size) → IsOk result }
{
    let pointer = pointer_word(arena, id, at);
    let room = allocate_struct_list(arena, id, old.count, size)?;
    let first = WordPlace {
        segment: room.segment,
        at: room.at + room.pads + 1,
    };
    copy_numbers(arena, old, first, size.total());
    let shape = Shape::List(ElementSize::InlineComposite, old.count * size.total());
    point_to_object(arena, id, at, room, shape);
    zero_if_inside(arena, old.segment, old.start, words_of_numbers(old));
    zero_pads(arena, pointer);
    Ok(ExistingList {
        segment: first.segment,
        start: first.at,
        size: ElementSize::InlineComposite,
        struct_size: size,
        count: old.count,
    })
}

/// Copies each number of `old` into a word of its own: the first number to `to`, each further
/// number to `step` words after the one before.
fn copy_numbers<A: BuilderArena>(arena: &mut A, old: ExistingList, to: WordPlace, step: u32)
    requires kind { (2 ≤ size_number old.size) × (size_number old.size ≤ 5) }
    requires inside { NumbersInside (A.view arena.old).words old }
    requires to { to.at + old.count * step ≤ length (segment (A.view arena.old).words to.segment) }
    requires apart { old.segment ≡ to.segment
        → old.start + words_for (size_number old.size) old.count ≤ to.at }
    requires some { 0 < step }
    ensures copied { AreNumbersCopied (A.view arena.old).words (A.view arena.new).words old
        (record { segment = to.segment; at = to.at; step = step }) }
    ensures limits { KeepsLimits (A.view arena.old) (A.view arena.new) }
{
    let mut place = to.at;
    for i in 0..old.count {
        let number = number_at(arena, old, i);
        set_word(arena, to.segment, place, number);
        place += step;
    }
}

/// Element `index` of a list of numbers.
fn number_at<A: BuilderArena>(arena: &A, list: ExistingList, index: u32) -> u64
    requires kind { (2 ≤ size_number list.size) × (size_number list.size ≤ 5) }
    requires index { index < list.count }
    requires inside { NumbersInside (A.view arena.now).words list }
    ensures { result ≡ field_in (segment (A.view arena.now).words list.segment)
        (64 * list.start + element_bits (size_number list.size) * index)
        (element_bits (size_number list.size)) }
{
    let bits = data_bits_per_element(list.size);
    let first = u64::from(bits) * u64::from(index);
    let word = pointer_word(arena, list.segment, list.start + (first / 64) as u32);
    let low = word.0 >> (first % 64);
    if bits < 64 {
        low & ((1 << bits) - 1)
    } else {
        low
    }
}
