//! Marks the words of the object that a pointer leads to.
ghost use Rattle.std.specs.Prelude.{◌≡◌, ℕ, ◌+◌, ◌<◌, ◌≤◌, ◌^◌, ◌∷◌, [], ◌↔◌, IsTrue, IfOk, length, slice_index};
ghost use Rattle.capnp_format.specs.Bytes.{words_of, message};
ghost use Rattle.capnp_format.specs.Numbers.{words_for};
ghost use Rattle.capnp_format.specs.Segments.{segment};
ghost use Rattle.capnp_format.specs.Segments.{HasSmallWords};
ghost use Rattle.capnp_format.specs.Word.{kind, element_size, list_count};
ghost use Rattle.capnp_words.specs.Sizes.{size_number};
ghost use Rattle.capnp_format.specs.Padding.{IsPadded};
ghost use Rattle.layout_vectors.specs.Landings.{target_at};
ghost use Rattle.layout_vectors.specs.Marks.{rows_of};
ghost use Rattle.layout_vectors.specs.Walks.{walk, TakesObject, FitsRows};

use crate::vectors::landing::{PointerTarget, pointer_word};
use crate::vectors::marks::Marks;
use crate::vectors::pending::{push_element_pointers, push_pointers};
use capnp_arena::arena::ReaderArena;
use capnp_arena_traits::arena::WordPlace;
use capnp_words::wire_pointer::{
    ElementSize, WirePointerKind, data_bits_per_element, words_for_elements,
};
use capnp_words::words::word_at;
use std::alloc::AllocError;

/// Marks the words of the object at `landing`, and appends the places of its pointers to `pending`.
/// Returns `false` if there is no such object, one of its words is marked already, the bits after
/// the last element of a list of numbers aren't zero, or the tag of a list of structs isn't a
/// struct pointer or states another number of words than the pointer to the list.
pub(crate) fn mark_object<A: ReaderArena>(
    arena: &A,
    marks: &mut Marks,
    pending: &mut Vec<WordPlace>,
    landing: PointerTarget,
) -> Result<bool, AllocError>
    requires { FitsRows (message (A.segments arena.now)) (rows_of marks.old) }
    ensures { IfOk result (TakesObject (message (A.segments arena.now)) (target_at landing)
        (walk marks.old pending.old) (walk marks.new pending.new)) }
{
    match landing.word.kind() {
        WirePointerKind::Struct => mark_struct(arena, marks, pending, landing),
        WirePointerKind::List => match landing.word.list_element_size() {
            ElementSize::InlineComposite => mark_struct_list(arena, marks, pending, landing),
            ElementSize::Pointer => mark_pointer_list(arena, marks, pending, landing),
            size => Ok(mark_primitive_list(arena, marks, pending, landing, size)),
        },
        WirePointerKind::Far => Ok(false),
        WirePointerKind::Other => Ok(landing.word.is_capability()),
    }
}

/// Does what `mark_object` does, for a struct (encoding specification, "Structs").
fn mark_struct<A: ReaderArena>(
    arena: &A,
    marks: &mut Marks,
    pending: &mut Vec<WordPlace>,
    landing: PointerTarget,
) -> Result<bool, AllocError>
    requires fits { FitsRows (message (A.segments arena.now)) (rows_of marks.old) }
    requires is_struct { kind landing.word.0 ≡ 0 }
    ensures { IfOk result (TakesObject (message (A.segments arena.now)) (target_at landing)
        (walk marks.old pending.old) (walk marks.new pending.new)) }
{
    let size = landing.word.struct_size();
    if !marks.try_mark(landing.segment, landing.start, size.total()) {
        return Ok(false);
    }
    let start = landing.start + u32::from(size.data_words);
    push_pointers(pending, landing.segment, start, u32::from(size.pointers))?;
    Ok(true)
}

/// Does what `mark_object` does, for a list of pointers ("Lists").
fn mark_pointer_list<A: ReaderArena>(
    arena: &A,
    marks: &mut Marks,
    pending: &mut Vec<WordPlace>,
    landing: PointerTarget,
) -> Result<bool, AllocError>
    requires fits { FitsRows (message (A.segments arena.now)) (rows_of marks.old) }
    requires of_pointers { (kind landing.word.0 ≡ 1) × (element_size landing.word.0 ≡ 6) }
    ensures { IfOk result (TakesObject (message (A.segments arena.now)) (target_at landing)
        (walk marks.old pending.old) (walk marks.new pending.new)) }
{
    let count = landing.word.list_element_count();
    if !marks.try_mark(landing.segment, landing.start, count) {
        return Ok(false);
    }
    push_pointers(pending, landing.segment, landing.start, count)?;
    Ok(true)
}

/// Does what `mark_object` does, for a list of numbers ("Lists").
fn mark_primitive_list<A: ReaderArena>(
    arena: &A,
    marks: &mut Marks,
    pending: &Vec<WordPlace>,
    landing: PointerTarget,
    size: ElementSize,
) -> bool
    requires fits { FitsRows (message (A.segments arena.now)) (rows_of marks.old) }
    requires is_list { kind landing.word.0 ≡ 1 }
    requires is_size { size_number size ≡ element_size landing.word.0 }
    requires is_flat { size_number size ≤ 5 }
    ensures { TakesObject (message (A.segments arena.now)) (target_at landing)
        (walk marks.old pending.now) (walk marks.new pending.now) result }
{
    let count = landing.word.list_element_count();
    let words = words_for_elements(size, count);
    marks.try_mark(landing.segment, landing.start, words)
        && has_zero_padding(arena, landing, size, count)
}

/// Whether the bits after the elements of the list of numbers at `landing`, up to the end of the
/// list's last word, are zero. Precondition: the list's words are inside their segment.
fn has_zero_padding<A: ReaderArena>(
    arena: &A,
    landing: PointerTarget,
    size: ElementSize,
    count: u32,
) -> bool
    requires inside { landing.start + words_for (size_number size) count
        ≤ length (segment (message (A.segments arena.now)) landing.segment) }
    requires is_flat { size_number size ≤ 5 }
    requires few { count < 2 ^ 29 }
    ensures exactly { IsTrue result
        ↔ IsPadded (message (A.segments arena.now)) landing.segment landing.start
        (size_number size) count }
    ensures small { HasSmallWords (message (A.segments arena.now)) landing.segment }
{
    match arena.get_segment(landing.segment) {
        Ok(bytes) => is_zero_padded(bytes, landing.start, size, count),
        Err(_) => true,
    }
}

/// Whether the bits after the elements of the list of numbers that starts at word `start` of
/// `bytes`, up to the end of the list's last word, are zero. Precondition: the list is inside
/// `bytes`.
fn is_zero_padded(bytes: &[u8], start: u32, size: ElementSize, count: u32) -> bool
    requires inside { start + words_for (size_number size) count ≤ length (words_of bytes.now) }
    requires small { length (words_of bytes.now) < 2 ^ 32 }
    requires is_flat { size_number size ≤ 5 }
    requires few { count < 2 ^ 29 }
    ensures exactly { IsTrue result
        ↔ IsPadded (words_of bytes.now ∷ []) 0 start (size_number size) count }
    ensures small { (i : ℕ) → slice_index (words_of bytes.now) i < 2 ^ 64 }
{
    let bits = u64::from(count) * u64::from(data_bits_per_element(size));
    let end = start + (bits / 64) as u32;
    let rest = bits % 64;
    if rest == 0 {
        return true;
    }
    if word_at(bytes, end as usize) >> rest == 0 {
        return true;
    }
    false
}

/// Does what `mark_object` does, for a list of structs and its tag ("Lists").
fn mark_struct_list<A: ReaderArena>(
    arena: &A,
    marks: &mut Marks,
    pending: &mut Vec<WordPlace>,
    landing: PointerTarget,
) -> Result<bool, AllocError>
    requires fits { FitsRows (message (A.segments arena.now)) (rows_of marks.old) }
    requires of_structs { (kind landing.word.0 ≡ 1) × (element_size landing.word.0 ≡ 7) }
    ensures { IfOk result (TakesObject (message (A.segments arena.now)) (target_at landing)
        (walk marks.old pending.old) (walk marks.new pending.new)) }
{
    let words = landing.word.list_inline_composite_word_count();
    if !marks.try_mark(landing.segment, landing.start, words + 1) {
        return Ok(false);
    }
    let tag = pointer_word(arena, landing.segment, landing.start);
    let size = tag.struct_size();
    let count = tag.inline_composite_list_element_count();
    let taken = u64::from(count) * u64::from(size.total());
    if tag.kind() != WirePointerKind::Struct || taken != u64::from(words) {
        return Ok(false);
    }
    push_element_pointers(pending, landing.segment, landing.start + 1, size, count)?;
    Ok(true)
}
