//! Makes a pointer lead to a new object, all zero (encoding specification, "Structs", "Lists" and
//! "Inter-Segment Pointers").
//!
//! If the object fits after the words of its pointer's segment, it is put there. Otherwise it is
//! put after a landing pad of one word, in any segment in which the arena finds room, and the
//! pointer becomes a far pointer.
//!
//! The calls that make an object overwrite the pointer's word, even if the pointer isn't null. So
//! the caller first calls `clear` for such a pointer: that zeroes what the pointer leads to, with
//! all objects below it and their landing pads. These words stay allocated.
ghost use Rattle.std.specs.Prelude.{◌≡◌, ℕ, length, ◌∷◌, ◌<◌, ◌≤◌, ◌+◌, ◌-◌, ◌*◌, ◌^◌, IfOk, IsOk, OnOk, OnErr, IfErr};
ghost use Rattle.capnp_format.specs.Canonical.{offset_to, Reaches};
ghost use Rattle.capnp_format.specs.Segments.{segment, word_at, IsPlace};
ghost use Rattle.capnp_format.specs.Tree.{Null};
ghost use Rattle.capnp_format.specs.Word.{offset_bits, struct_word, list_word};
ghost use Rattle.capnp_words.specs.Sizes.{size_number};
ghost use Rattle.capnp_arena_traits.specs.Taking.{IsFirstFit};
ghost use Rattle.capnp_arena_traits.specs.View.{KeepsLimits};
ghost use Rattle.capnp_allocation.specs.Made.{IsShape, CountFits, AsksWords, zero_struct, zero_structs, zero_list, list_words, words_of_zero};
ghost use Rattle.capnp_allocation.specs.Makes.{Allocates, IsMadeAt, MakesFar, ObjectStartsAt, call_at};
ghost use Rattle.capnp_allocation.specs.Memory.{KeepsMemory, IsNextRoom, Lengthens, ComesAfter, IsRefusedFor};
ghost use Rattle.capnp_allocation.specs.Near.{HasOwnRoom, StartsAtEnd, offset_to_end, shape_word, with_object};
ghost use Rattle.capnp_allocation.specs.declared.making.Shape.TheVariants.{Struct as StructShape, List as ListShape};
ghost use Rattle.capnp_allocation.specs.Stored.{IsReplaced, Puts};
ghost use Rattle.capnp_allocation.specs.Zeroed.{IsPruned};
ghost use Rattle.capnp_arena_traits.specs.Written.{with_word};

use crate::zeroing::zero_object;
use capnp_arena_traits::arena::{BuilderArena, WordPlace, set_word};
use capnp_words::error::ErrorKind;
use capnp_words::wire_pointer::{
    ElementSize, StructSize, WirePointer, data_bits_per_element, offset_between,
    pointers_per_element,
};

/// What an object is, according to its pointer.
#[derive(Clone, Copy)]
pub enum Shape {
    /// A struct.
    Struct(StructSize),
    /// A list, with the number that its pointer states: the number of elements, or for a list of
    /// structs the number of words of all elements, without the tag.
    List(ElementSize, u32),
}

/// Returns the word of a pointer that is at `position` of a segment, and leads to an object at
/// `target` of the same segment. Preconditions: the offset from word `position + 1` to word
/// `target` is from -2^29 to 2^29 - 1; the number of a list in `shape` is below 2^29.
pub fn pointer_to(shape: Shape, position: u32, target: u32) -> WirePointer
    requires reaches { Reaches position target }
    requires few { CountFits shape }
    ensures word { result.0 ≡ shape_word shape (offset_to position target) }
    ensures shape { IsShape shape result.0 }
    ensures offset { offset_bits result.0 ≡ offset_to position target }
{
    let offset = offset_between(position, target);
    match shape {
        Shape::Struct(size) => WirePointer::new_struct(offset, size),
        Shape::List(size, count) => WirePointer::new_list(offset, size, count),
    }
}

/// Makes an object of `amount` words, all zero, and makes the pointer at `at` of segment `id` lead
/// to it.
///
/// Refuses like `BuilderArena::allocate_anywhere` for `amount + 1` words: the object's and one for
/// a landing pad. A refusal changes nothing, except that `AllocationFailed` adds 1 to the
/// allocator's `refused`.
#[inline(always)]
fn make_object<A: BuilderArena>(
    arena: &mut A,
    id: u32,
    at: u32,
    shape: Shape,
    amount: u32,
) -> Result<WordPlace, ErrorKind>
    requires place { IsPlace (A.view arena.old).words id at }
    requires few { CountFits shape }
    requires some { AsksWords shape }
    requires small { amount < 2 ^ 31 }
    ensures made { IfOk result
        (IsMadeAt (call_at id at (A.view arena.old) (A.view arena.new)) shape amount) }
    ensures memory { Allocates result (call_at id at (A.view arena.old) (A.view arena.new))
        amount }
    ensures behind { IfOk result (ComesAfter (A.view arena.old) id amount) }
    ensures near { HasOwnRoom (A.view arena.old) id amount
        → OnOk result
        ((A.view arena.new).words ≡ with_object (A.view arena.old).words id at
        (shape_word shape (offset_to_end (A.view arena.old).words id at))
        (words_of_zero amount)) }
    ensures at_end { HasOwnRoom (A.view arena.old) id amount
        → IfOk result (StartsAtEnd (A.view arena.old).words id) }
    ensures refused { OnErr result ((A.view arena.new).words ≡ (A.view arena.old).words) }
{
    match arena.allocate(id, amount) {
        Some(start) => {
            let word = pointer_to(shape, at, start);
            set_word(arena, id, at, word.0);
            Ok(WordPlace {
                segment: id,
                at: start,
            })
        }
        None => make_far_object(arena, id, at, shape, amount),
    }
}

/// Makes a landing pad, and after it an object of `amount` words, all zero, in a segment in which
/// the arena finds room for both. Makes the pointer at `at` of segment `id` lead to the object.
///
/// Refuses like `BuilderArena::allocate_anywhere` for `amount + 1` words: the object's and one for
/// a landing pad. A refusal changes nothing, except that `AllocationFailed` adds 1 to the
/// allocator's `refused`.
#[inline(always)]
fn make_far_object<A: BuilderArena>(
    arena: &mut A,
    id: u32,
    at: u32,
    shape: Shape,
    amount: u32,
) -> Result<WordPlace, ErrorKind>
    requires place { IsPlace (A.view arena.old).words id at }
    requires few { CountFits shape }
    requires small { amount < 2 ^ 31 }
    ensures { MakesFar result (call_at id at (A.view arena.old) (A.view arena.new)) shape amount }
{
    // No `?`: it would make building lists and trees of structs slower (docs/SPEED.md).
    match arena.allocate_anywhere(amount + 1) {
        Ok((segment, pad)) => {
            let word = pointer_to(shape, pad, pad + 1);
            set_word(arena, segment, pad, word.0);
            set_word(arena, id, at, WirePointer::new_far(pad, segment).0);
            Ok(WordPlace {
                segment,
                at: pad + 1,
            })
        }
        Err(k) => Err(k),
    }
}

/// Makes the pointer at `at` of segment `id` null, and zeroes what it led to: its object, all
/// objects below that, and their landing pads. Precondition: word `at` of segment `id` is
/// allocated.
pub fn clear<A: BuilderArena>(arena: &mut A, id: u32, at: u32)
    requires place { IsPlace (A.view arena.old).words id at }
    ensures cleared { Puts (A.view arena.old).words (A.view arena.new).words id at Null }
    ensures null { word_at (A.view arena.new).words id at ≡ 0 }
    ensures only { IsPruned (A.view arena.old).words (A.view arena.new).words }
    ensures limits { KeepsLimits (A.view arena.old) (A.view arena.new) }
{
    zero_object(arena, id, at);
}

/// Makes a struct, all zero, and makes the pointer at `at` of segment `id` lead to it. A struct
/// without sections takes no words. Precondition: word `at` of segment `id` is allocated.
///
/// Refuses like `BuilderArena::allocate_anywhere` for the struct's words and one for a landing pad.
/// A refusal changes nothing, except that `AllocationFailed` adds 1 to the allocator's `refused`.
#[inline(always)]
pub fn make_struct<A: BuilderArena>(
    arena: &mut A,
    id: u32,
    at: u32,
    size: StructSize,
) -> Result<WordPlace, ErrorKind>
    requires place { IsPlace (A.view arena.old).words id at }
    ensures made { OnOk result (IsReplaced (A.view arena.old).words
        (A.view arena.new).words id at Null (zero_struct size)) }
    ensures start { IfOk result
        (ObjectStartsAt (call_at id at (A.view arena.old) (A.view arena.new))
        (size.data_words + size.pointers)) }
    ensures memory { Allocates result (call_at id at (A.view arena.old) (A.view arena.new))
        (size.data_words + size.pointers) }
    ensures near { (0 < size.data_words + size.pointers)
        × HasOwnRoom (A.view arena.old) id (size.data_words + size.pointers)
        → OnOk result
        ((A.view arena.new).words ≡ with_object (A.view arena.old).words id at
        (shape_word (StructShape size) (offset_to_end (A.view arena.old).words id at))
        (words_of_zero (size.data_words + size.pointers))) }
    ensures empty { size.data_words + size.pointers ≡ 0
        → OnOk result
        ((A.view arena.new).words ≡ with_word (A.view arena.old).words id at
        (struct_word (2 ^ 30 - 1) 0 0)) }
    ensures refused { OnErr result ((A.view arena.new).words ≡ (A.view arena.old).words) }
{
    let words = size.total();
    if words == 0 {
        set_word(arena, id, at, WirePointer::empty_struct().0);
        return Ok(WordPlace { segment: id, at });
    }
    make_object(arena, id, at, Shape::Struct(size), words)
}

/// Makes a list of `count` elements that aren't structs, all zero or null, and makes the pointer at
/// `at` of segment `id` lead to it. Preconditions: word `at` of segment `id` is allocated; `count`
/// is below 2^29; `size` isn't `InlineComposite`.
///
/// Refuses like `BuilderArena::allocate_anywhere` for the list's words and one for a landing pad. A
/// refusal changes nothing, except that `AllocationFailed` adds 1 to the allocator's `refused`.
#[inline(always)]
pub fn make_list<A: BuilderArena>(
    arena: &mut A,
    id: u32,
    at: u32,
    size: ElementSize,
    count: u32,
) -> Result<WordPlace, ErrorKind>
    requires place { IsPlace (A.view arena.old).words id at }
    requires few { count < 2 ^ 29 }
    requires plain { size_number size ≤ 6 }
    ensures made { OnOk result (IsReplaced (A.view arena.old).words
        (A.view arena.new).words id at Null (zero_list (size_number size) count)) }
    ensures start { IfOk result
        (ObjectStartsAt (call_at id at (A.view arena.old) (A.view arena.new))
        (list_words (size_number size) count)) }
    ensures memory { Allocates result (call_at id at (A.view arena.old) (A.view arena.new))
        (list_words (size_number size) count) }
    ensures near { HasOwnRoom (A.view arena.old) id (list_words (size_number size) count)
        → OnOk result
        ((A.view arena.new).words ≡ with_object (A.view arena.old).words id at
        (shape_word (ListShape size count) (offset_to_end (A.view arena.old).words id at))
        (words_of_zero (list_words (size_number size) count))) }
    ensures at_end { HasOwnRoom (A.view arena.old) id (list_words (size_number size) count)
        → IfOk result (StartsAtEnd (A.view arena.old).words id) }
    ensures refused { OnErr result ((A.view arena.new).words ≡ (A.view arena.old).words) }
{
    let words = words_of_list(size, count);
    make_object(arena, id, at, Shape::List(size, count), words)
}

/// The number of words of a list of `count` elements that aren't structs.
fn words_of_list(size: ElementSize, count: u32) -> u32
    requires few { count < 2 ^ 29 }
    requires plain { size_number size ≤ 6 }
    ensures value { result ≡ list_words (size_number size) count }
    ensures small { result < 2 ^ 30 }
{
    if size == ElementSize::Pointer {
        return count;
    }
    (u64::from(data_bits_per_element(size)) * u64::from(count)).div_ceil(64) as u32
}

/// Makes a list of `count` structs, all zero, and makes the pointer at `at` of segment `id` lead to
/// it. The first word of the list is the tag. Preconditions: word `at` of segment `id` is
/// allocated; `count` is below 2^30; `count` structs of `size` have fewer than 2^29 words.
///
/// Refuses like `BuilderArena::allocate_anywhere` for the list's words, its tag included, and one
/// for a landing pad. A refusal changes nothing, except that `AllocationFailed` adds 1 to the
/// allocator's `refused`.
pub fn make_struct_list<A: BuilderArena>(
    arena: &mut A,
    id: u32,
    at: u32,
    count: u32,
    size: StructSize,
) -> Result<WordPlace, ErrorKind>
    requires place { IsPlace (A.view arena.old).words id at }
    requires few { count < 2 ^ 30 }
    requires words { count * (size.data_words + size.pointers) < 2 ^ 29 }
    ensures made { OnOk result (IsReplaced (A.view arena.old).words
        (A.view arena.new).words id at Null (zero_structs count size)) }
    ensures start { IfOk result
        (ObjectStartsAt (call_at id at (A.view arena.old) (A.view arena.new))
        (1 + count * (size.data_words + size.pointers))) }
    ensures memory { Allocates result (call_at id at (A.view arena.old) (A.view arena.new))
        (1 + count * (size.data_words + size.pointers)) }
    ensures near { HasOwnRoom (A.view arena.old) id
        (1 + count * (size.data_words + size.pointers))
        → OnOk result
        ((A.view arena.new).words ≡ with_object (A.view arena.old).words id at
        (list_word (offset_to_end (A.view arena.old).words id at) 7
        (count * (size.data_words + size.pointers)))
        (struct_word count size.data_words size.pointers
        ∷ words_of_zero (count * (size.data_words + size.pointers)))) }
    ensures refused { OnErr result ((A.view arena.new).words ≡ (A.view arena.old).words) }
{
    let words = count * size.total();
    let shape = Shape::List(ElementSize::InlineComposite, words);
    let start = make_object(arena, id, at, shape, 1 + words)?;
    let tag = WirePointer::new_tag(count, size);
    set_word(arena, start.segment, start.at, tag.0);
    Ok(start)
}
