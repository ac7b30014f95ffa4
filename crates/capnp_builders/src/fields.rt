//! Sets fields of structs and elements of lists at their places. Each call borrows the message only
//! while it runs, so that a program can go on at another place (encoding specification, "Structs"
//! and "Lists").
//!
//! A call states what it does to the value of the struct at its place. Its clauses hold for each
//! pointer that may lead to the struct, and for any data words and children (`HasStruct`).
ghost use Rattle.std.specs.Prelude.{◌≡◌, ℕ, List, ◌+◌, ◌-◌, ◌*◌, ◌^◌, ◌<◌, ◌≤◌, ◌++◌, ◌∷◌, [], IfErr, IfOk, OnOk, OnErr, cond, length, slice_set, true};
ghost use Rattle.capnp_format.specs.Forest.{target};
ghost use Rattle.capnp_format.specs.Numbers.{element_bits, words_for};
ghost use Rattle.capnp_format.specs.Segments.{Grows, IsPlace, word_at};
ghost use Rattle.capnp_format.specs.Word.{struct_word};
ghost use Rattle.capnp_format.specs.Tree.{Tree, Trees, Null, Flat};
ghost use Rattle.capnp_words.specs.Sizes.{size_number};
ghost use Rattle.capnp_words.specs.declared.wire_pointer.ElementSize.TheVariants.{InlineComposite};
ghost use Rattle.capnp_in_place.specs.Existing.{is_unfound, list_in, plain_list, struct_list};
ghost use Rattle.capnp_allocation.specs.Made.{list_words, words_of_zero, nulls, zero_elements, zero_list, zero_struct, zero_structs};
ghost use Rattle.capnp_allocation.specs.Makes.{MakesObject, call_at};
ghost use Rattle.capnp_allocation.specs.Near.{LeadsToEnd};
ghost use Rattle.capnp_format.specs.Path.{put_tree};
ghost use Rattle.capnp_allocation.specs.Stored.{IsStored};
ghost use Rattle.capnp_in_place.specs.Anew.{OnlyWrites};
ghost use Rattle.capnp_readers.specs.Readers.{IsListPlace, IsStructPlace};
ghost use Rattle.capnp_readers.specs.Sections.{IsInside};
ghost use Rattle.capnp_builders.specs.Found.{list_given};
ghost use Rattle.capnp_builders.specs.Held.{HasList, HasStruct, Holder, MakesChild, ReplacesField, SetsField, call_in, element_of, pointer_to};
ghost use Rattle.capnp_builders.specs.Places.{IsAligned, IsListOf, IsStructOf, WritesField, element_place, field, number_field};

use crate::builders::found::find_list;
use crate::builders::{NO_SECTIONS, list_builder};
use capnp_arena_traits::arena::BuilderArena;
use capnp_in_place::{bytes, initializing, numbers};
use capnp_readers::readers::{ListPlace, StructPlace};
use capnp_words::error::ErrorKind;
use capnp_words::primitive::Primitive;
use capnp_words::wire_pointer::{ElementSize, StructSize};
use capnp_words::zero::Zero;

/// Makes the root pointer lead to a new struct, all zero, and returns the struct's place.
/// Precondition: word 0 of segment 0 is allocated.
///
/// Refusals, if no segment has room: `AllocationFailed` if memory runs out;
/// `MessageTooLarge(usize::MAX)` if the message already has 4,294,967,295 segments. After a refusal
/// the pointer is null.
pub fn init_root<A: BuilderArena>(arena: &mut A, size: StructSize) -> Result<StructPlace, ErrorKind>
    requires { IsPlace (A.view arena.old).words 0 0 }
    ensures object { MakesObject result (call_at 0 0 (A.view arena.old) (A.view arena.new))
        (zero_struct size) (size.data_words + size.pointers) }
    ensures grows { Grows (A.view arena.old).words (A.view arena.new).words }
    ensures inside { IfOk result (IsStructPlace (A.view arena.new).words) }
    ensures aligned { IfOk result IsAligned }
    ensures bits { IfOk result (λ place. place.bits ≡ 64 * size.data_words) }
    ensures pointers { IfOk result (λ place. place.pointers ≡ size.pointers) }
    ensures made { (t : Tree) → IsStored (A.view arena.old).words 0 0 t
        → IfOk result (λ place. HasStruct (A.view arena.new).words (pointer_to 0 0) place
        (words_of_zero size.data_words) (nulls size.pointers)) }
{
    new_struct(arena, 0, 0, size)
}

/// Writes the field of the data section at `offset`, counted in values of `T`. Preconditions:
/// `place` is inside the message and aligned; the field at `offset` is inside the data section.
pub fn set_number<A: BuilderArena, T: Primitive + Zero>(
    arena: &mut A,
    place: StructPlace,
    offset: usize,
    value: T,
)
    requires aligned { IsAligned place }
    requires inside { IsStructPlace (A.view arena.old).words place }
    requires field { IsInside place.bits (8 * T.BYTES) offset }
    ensures grows { Grows (A.view arena.old).words (A.view arena.new).words }
    ensures sets { SetsField
        (call_in place (A.view arena.old).words (A.view arena.new).words)
        (number_field T.BYTES offset (T.bits_of value)) }
    ensures replaces { ReplacesField
        (call_in place (A.view arena.old).words (A.view arena.new).words)
        (number_field T.BYTES offset (T.bits_of value)) }
    ensures memory { OnlyWrites (A.view arena.old) (A.view arena.new) }
{
    write_number(arena, place, offset, value);
}

/// Writes bit `offset` of the data section. Preconditions: `place` is inside the message; bit
/// `offset` is inside the data section.
pub fn set_bool<A: BuilderArena>(arena: &mut A, place: StructPlace, offset: usize, value: bool)
    requires inside { IsStructPlace (A.view arena.old).words place }
    requires field { offset < place.bits }
    ensures grows { Grows (A.view arena.old).words (A.view arena.new).words }
    ensures sets { SetsField
        (call_in place (A.view arena.old).words (A.view arena.new).words)
        (field offset 1 (cond value 1 0)) }
    ensures replaces { ReplacesField
        (call_in place (A.view arena.old).words (A.view arena.new).words)
        (field offset 1 (cond value 1 0)) }
    ensures memory { OnlyWrites (A.view arena.old) (A.view arena.new) }
{
    write_bit(arena, place, offset, value);
}

/// Makes pointer `index` of the pointer section lead to a new text: the bytes of `text`, followed
/// by a zero byte. Preconditions: `place` is inside the message; `index` is below `place.pointers`;
/// `text` has fewer than 2^29 - 1 bytes.
///
/// Refusals, if no segment has room: `AllocationFailed` if memory runs out;
/// `MessageTooLarge(usize::MAX)` if the message already has 4,294,967,295 segments. After a refusal
/// the pointer is null.
pub fn set_text<A: BuilderArena>(
    arena: &mut A,
    place: StructPlace,
    index: usize,
    text: &[u8],
) -> Result<(), ErrorKind>
    requires inside { IsStructPlace (A.view arena.old).words place }
    requires field { index < place.pointers }
    requires few { length text.now + 1 < 2 ^ 29 }
    ensures object { MakesObject result (call_at place.segment (place.pointers_at + index)
        (A.view arena.old) (A.view arena.new)) (Flat 2 (text.now ++ 0 ∷ []))
        (words_for 2 (length text.now + 1)) }
    ensures grows { Grows (A.view arena.old).words (A.view arena.new).words }
    ensures child { MakesChild result
        (call_in place (A.view arena.old).words (A.view arena.new).words) index
        (Flat 2 (text.now ++ 0 ∷ [])) }
{
    bytes::set_text(arena, place.segment, place.pointers_at + index as u32, text)
}

/// Makes pointer `index` of the pointer section lead to new data, the bytes of `contents`.
/// Preconditions: `place` is inside the message; `index` is below `place.pointers`; `contents` has
/// fewer than 2^29 bytes.
///
/// Refusals, if no segment has room: `AllocationFailed` if memory runs out;
/// `MessageTooLarge(usize::MAX)` if the message already has 4,294,967,295 segments. After a refusal
/// the pointer is null.
pub fn set_data<A: BuilderArena>(
    arena: &mut A,
    place: StructPlace,
    index: usize,
    contents: &[u8],
) -> Result<(), ErrorKind>
    requires inside { IsStructPlace (A.view arena.old).words place }
    requires field { index < place.pointers }
    requires few { length contents.now < 2 ^ 29 }
    ensures object { MakesObject result (call_at place.segment (place.pointers_at + index)
        (A.view arena.old) (A.view arena.new)) (Flat 2 contents.now)
        (words_for 2 (length contents.now)) }
    ensures grows { Grows (A.view arena.old).words (A.view arena.new).words }
    ensures child { MakesChild result
        (call_in place (A.view arena.old).words (A.view arena.new).words) index
        (Flat 2 contents.now) }
{
    bytes::set_data(
        arena,
        place.segment,
        place.pointers_at + index as u32,
        contents,
    )
}

/// Makes pointer `index` of the pointer section lead to a new struct, all zero, and returns the
/// struct's place. Preconditions: `place` is inside the message; `index` is below `place.pointers`.
///
/// Refusals, if no segment has room: `AllocationFailed` if memory runs out;
/// `MessageTooLarge(usize::MAX)` if the message already has 4,294,967,295 segments. After a refusal
/// the pointer is null.
pub fn init_struct<A: BuilderArena>(
    arena: &mut A,
    place: StructPlace,
    index: usize,
    size: StructSize,
) -> Result<StructPlace, ErrorKind>
    requires inside { IsStructPlace (A.view arena.old).words place }
    requires field { index < place.pointers }
    ensures object { MakesObject result (call_at place.segment (place.pointers_at + index)
        (A.view arena.old) (A.view arena.new)) (zero_struct size)
        (size.data_words + size.pointers) }
    ensures grows { Grows (A.view arena.old).words (A.view arena.new).words }
    ensures inside { IfOk result (IsStructPlace (A.view arena.new).words) }
    ensures aligned { IfOk result IsAligned }
    ensures bits { IfOk result (λ inner. inner.bits ≡ 64 * size.data_words) }
    ensures pointers { IfOk result (λ inner. inner.pointers ≡ size.pointers) }
    ensures made { (x : Holder) (ws : List ℕ) (ts : Trees)
        → HasStruct (A.view arena.old).words x place ws ts
        → IfOk result (λ inner. HasStruct (A.view arena.new).words
        (pointer_to place.segment (place.pointers_at + index)) inner
        (words_of_zero size.data_words) (nulls size.pointers)) }
    ensures child { MakesChild result
        (call_in place (A.view arena.old).words (A.view arena.new).words) index
        (zero_struct size) }
{
    new_struct(arena, place.segment, place.pointers_at + index as u32, size)
}

/// Makes pointer `index` of the pointer section lead to a new list of `count` elements that aren't
/// structs, all zero or null, and returns the list's place. Preconditions: `place` is inside the
/// message; `index` is below `place.pointers`; `size` isn't `InlineComposite`; `count` is below
/// 2^29.
///
/// Refusals, if no segment has room: `AllocationFailed` if memory runs out; `MessageTooLarge(n)` if
/// n is above 536,870,911, where n is the number of the list's words, plus one for a landing pad;
/// `MessageTooLarge(usize::MAX)` if the message already has 4,294,967,295 segments. After a refusal
/// the pointer is null.
pub fn init_list<A: BuilderArena>(
    arena: &mut A,
    place: StructPlace,
    index: usize,
    size: ElementSize,
    count: u32,
) -> Result<ListPlace, ErrorKind>
    requires inside { IsStructPlace (A.view arena.old).words place }
    requires field { index < place.pointers }
    requires few { count < 2 ^ 29 }
    requires plain { size_number size ≤ 6 }
    ensures object { MakesObject result (call_at place.segment (place.pointers_at + index)
        (A.view arena.old) (A.view arena.new)) (zero_list (size_number size) count)
        (list_words (size_number size) count) }
    ensures grows { Grows (A.view arena.old).words (A.view arena.new).words }
    ensures inside { IfOk result (IsListPlace (A.view arena.new).words) }
    ensures count { IfOk result (λ list. list.count ≡ count) }
    ensures size { IfOk result (λ list. list.size ≡ size) }
    ensures width { IfOk result (λ list.
        element_bits (size_number list.size) ≡ element_bits (size_number size)) }
    ensures made { (x : Holder) (ws : List ℕ) (ts : Trees)
        → HasStruct (A.view arena.old).words x place ws ts
        → IfOk result (λ list. HasList (A.view arena.new).words place.segment
        (place.pointers_at + index) list (zero_list (size_number size) count)) }
    ensures child { MakesChild result
        (call_in place (A.view arena.old).words (A.view arena.new).words) index
        (zero_list (size_number size) count) }
{
    new_list(
        arena,
        place.segment,
        place.pointers_at + index as u32,
        size,
        count,
    )
}

/// Makes pointer `index` of the pointer section lead to a new list of `count` structs, all zero,
/// and returns the list's place. `builders::element_place` says where each of the structs is.
/// Preconditions: `place` is inside the message; `index` is below `place.pointers`; `count` is
/// below 2^30; `count` structs of `size` have fewer than 2^29 words.
///
/// Refusals, if no segment has room: `AllocationFailed` if memory runs out; `MessageTooLarge(n)` if
/// n is above 536,870,911, where n is the number of the structs' words, plus two for the tag and a
/// landing pad; `MessageTooLarge(usize::MAX)` if the message already has 4,294,967,295 segments.
/// After a refusal the pointer is null.
pub fn init_struct_list<A: BuilderArena>(
    arena: &mut A,
    place: StructPlace,
    index: usize,
    count: u32,
    size: StructSize,
) -> Result<ListPlace, ErrorKind>
    requires inside { IsStructPlace (A.view arena.old).words place }
    requires field { index < place.pointers }
    requires few { count < 2 ^ 30 }
    requires words { count * (size.data_words + size.pointers) < 2 ^ 29 }
    ensures object { MakesObject result (call_at place.segment (place.pointers_at + index)
        (A.view arena.old) (A.view arena.new)) (zero_structs count size)
        (1 + count * (size.data_words + size.pointers)) }
    ensures grows { Grows (A.view arena.old).words (A.view arena.new).words }
    ensures inside { IfOk result (IsListPlace (A.view arena.new).words) }
    ensures count { IfOk result (λ list. list.count ≡ count) }
    ensures size { IfOk result (λ list. list.size ≡ InlineComposite) }
    ensures sections { IfOk result (λ list. list.struct_size ≡ size) }
    ensures made { (x : Holder) (ws : List ℕ) (ts : Trees) (i : ℕ) → i < count
        → HasStruct (A.view arena.old).words x place ws ts
        → IfOk result (λ list. HasStruct (A.view arena.new).words
        (element_of place.segment (place.pointers_at + index) size
        (zero_elements size.data_words size.pointers count) i) (element_place list.size list i)
        (words_of_zero size.data_words) (nulls size.pointers)) }
    ensures child { MakesChild result
        (call_in place (A.view arena.old).words (A.view arena.new).words) index
        (zero_structs count size) }
{
    new_struct_list(
        arena,
        place.segment,
        place.pointers_at + index as u32,
        count,
        size,
    )
}

/// Returns the list that pointer `index` of the pointer section leads to. Changes nothing. If the
/// pointer is null, returns a list of void without elements. The elements may be wider than `size`,
/// and may be structs that begin with such an element. Preconditions: `place` is inside the
/// message; `index` is below `place.pointers`; `size` isn't `InlineComposite`.
///
/// Refusals: `ExistingPointerIsNotAList` if the pointer leads to something other than a list;
/// `ExistingListValueIsIncompatibleWithExpectedType` if the elements are narrower than `size`;
/// `FoundStructListWhereBitListWasExpected` for structs if `size` is `Bit`.
pub fn get_list<A: BuilderArena>(
    arena: &A,
    place: StructPlace,
    index: usize,
    size: ElementSize,
) -> Result<ListPlace, ErrorKind>
    requires inside { IsStructPlace (A.view arena.now).words place }
    requires field { index < place.pointers }
    requires plain { size_number size ≤ 6 }
    ensures found { (t : Tree)
        → IsStored (A.view arena.now).words place.segment (place.pointers_at + index) t
        → result ≡ list_given place.segment
        (list_in (target (A.view arena.now).words place.segment (place.pointers_at + index))
        size t) }
    ensures inside { (t : Tree)
        → IsStored (A.view arena.now).words place.segment (place.pointers_at + index) t
        → IfOk result (IsListPlace (A.view arena.now).words) }
    ensures named { IfErr result (λ k. is_unfound k ≡ true) }
{
    find_list(arena, place.segment, place.pointers_at + index as u32, size)
}

/// Writes element `index` of a list of numbers that are as wide as `T`. Preconditions: `list` is
/// inside the message; the elements are numbers as wide as `T`; `index` is below `list.count`.
pub fn set_element<A: BuilderArena, T: Primitive>(
    arena: &mut A,
    list: ListPlace,
    index: u32,
    value: T,
)
    requires inside { IsListPlace (A.view arena.old).words list }
    requires range { index < list.count }
    requires width { element_bits (size_number list.size) ≡ 8 * T.BYTES }
    ensures grows { Grows (A.view arena.old).words (A.view arena.new).words }
    ensures sets { (s p size : ℕ) (ns : List ℕ)
        → HasList (A.view arena.old).words s p list (Flat size ns)
        → HasList (A.view arena.new).words s p list
        (Flat size (slice_set ns index (T.bits_of value))) }
    ensures sets_child { (x : Holder) (place : StructPlace) (ws : List ℕ) (ts : Trees)
        (i size : ℕ) (ns : List ℕ) → i < place.pointers
        → HasList (A.view arena.old).words place.segment (place.pointers_at + i) list (Flat size ns)
        → HasStruct (A.view arena.old).words x place ws (put_tree ts i (Flat size ns))
        → HasStruct (A.view arena.new).words x place ws
        (put_tree ts i (Flat size (slice_set ns index (T.bits_of value)))) }
    ensures memory { OnlyWrites (A.view arena.old) (A.view arena.new) }
{
    list_builder::write_number(arena, list, index, value);
}

/// Does what `set_number` does, and says which words it leaves.
pub(crate) fn write_number<A: BuilderArena, T: Primitive + Zero>(
    arena: &mut A,
    place: StructPlace,
    offset: usize,
    value: T,
)
    requires aligned { IsAligned place }
    requires inside { IsStructPlace (A.view arena.old).words place }
    requires field { IsInside place.bits (8 * T.BYTES) offset }
    ensures written { WritesField (A.view arena.old) (A.view arena.new) place.segment place.byte
        (number_field T.BYTES offset (T.bits_of value)) }
    ensures grows { Grows (A.view arena.old).words (A.view arena.new).words }
{
    let byte = place.byte + (offset * T::BYTES) as u64;
    numbers::set_number(arena, place.segment, byte, value);
}

/// Does what `set_bool` does, and says which words it leaves.
pub(crate) fn write_bit<A: BuilderArena>(
    arena: &mut A,
    place: StructPlace,
    offset: usize,
    value: bool,
)
    requires inside { IsStructPlace (A.view arena.old).words place }
    requires field { offset < place.bits }
    ensures written { WritesField (A.view arena.old) (A.view arena.new) place.segment place.byte
        (field offset 1 (cond value 1 0)) }
    ensures grows { Grows (A.view arena.old).words (A.view arena.new).words }
{
    let bit = 8 * place.byte + offset as u64;
    numbers::set_bit(arena, place.segment, bit, value);
}

/// Makes the pointer at `at` of segment `id` lead to a new struct, all zero.
#[inline(always)]
pub(crate) fn new_struct<A: BuilderArena>(
    arena: &mut A,
    id: u32,
    at: u32,
    size: StructSize,
) -> Result<StructPlace, ErrorKind>
    requires { IsPlace (A.view arena.old).words id at }
    ensures object { MakesObject result (call_at id at (A.view arena.old) (A.view arena.new))
        (zero_struct size) (size.data_words + size.pointers) }
    ensures leads { IfOk result
        (IsStructOf (call_at id at (A.view arena.old) (A.view arena.new)) size) }
    ensures empty { size.data_words + size.pointers ≡ 0
        → OnOk result (word_at (A.view arena.new).words id at ≡ struct_word (2 ^ 30 - 1) 0 0) }
    ensures inside { IfOk result (IsStructPlace (A.view arena.new).words) }
    ensures aligned { IfOk result IsAligned }
    ensures bits { IfOk result (λ place. place.bits ≡ 64 * size.data_words) }
    ensures pointers { IfOk result (λ place. place.pointers ≡ size.pointers) }
    ensures grows { Grows (A.view arena.old).words (A.view arena.new).words }
{
    // No `?`: it would make callers that pass the place on slower (docs/SPEED.md).
    match initializing::init_struct(arena, id, at, size) {
        Ok(start) => Ok(StructPlace {
            segment: start.segment,
            byte: 8 * u64::from(start.at),
            bits: 64 * u32::from(size.data_words),
            pointers_at: start.at + u32::from(size.data_words),
            pointers: size.pointers,
        }),
        Err(k) => Err(k),
    }
}

/// Makes the pointer at `at` of segment `id` lead to a new list of `count` elements that aren't
/// structs, all zero or null.
#[inline(always)]
pub(crate) fn new_list<A: BuilderArena>(
    arena: &mut A,
    id: u32,
    at: u32,
    size: ElementSize,
    count: u32,
) -> Result<ListPlace, ErrorKind>
    requires place { IsPlace (A.view arena.old).words id at }
    requires few { count < 2 ^ 29 }
    requires plain { size_number size ≤ 6 }
    ensures object { MakesObject result (call_at id at (A.view arena.old) (A.view arena.new))
        (zero_list (size_number size) count) (list_words (size_number size) count) }
    ensures leads { IfOk result (IsListOf (call_at id at (A.view arena.old) (A.view arena.new))
        (λ a. plain_list a size count)) }
    ensures at_end { OnOk result (LeadsToEnd (call_at id at (A.view arena.old) (A.view arena.new))
        (list_words (size_number size) count)) }
    ensures inside { IfOk result (IsListPlace (A.view arena.new).words) }
    ensures count { IfOk result (λ list. list.count ≡ count) }
    ensures size { IfOk result (λ list. list.size ≡ size) }
    ensures width { IfOk result (λ list.
        element_bits (size_number list.size) ≡ element_bits (size_number size)) }
    ensures grows { Grows (A.view arena.old).words (A.view arena.new).words }
{
    let start = initializing::init_list(arena, id, at, size, count)?;
    Ok(ListPlace {
        segment: start.segment,
        byte: 8 * u64::from(start.at),
        size,
        struct_size: NO_SECTIONS,
        count,
    })
}

/// Makes the pointer at `at` of segment `id` lead to a new list of `count` structs, all zero.
pub(crate) fn new_struct_list<A: BuilderArena>(
    arena: &mut A,
    id: u32,
    at: u32,
    count: u32,
    size: StructSize,
) -> Result<ListPlace, ErrorKind>
    requires place { IsPlace (A.view arena.old).words id at }
    requires few { count < 2 ^ 30 }
    requires words { count * (size.data_words + size.pointers) < 2 ^ 29 }
    ensures object { MakesObject result (call_at id at (A.view arena.old) (A.view arena.new))
        (zero_structs count size) (1 + count * (size.data_words + size.pointers)) }
    ensures leads { IfOk result (IsListOf (call_at id at (A.view arena.old) (A.view arena.new))
        (λ a. struct_list a size.data_words size.pointers count)) }
    ensures inside { IfOk result (IsListPlace (A.view arena.new).words) }
    ensures count { IfOk result (λ list. list.count ≡ count) }
    ensures size { IfOk result (λ list. list.size ≡ InlineComposite) }
    ensures sections { IfOk result (λ list. list.struct_size ≡ size) }
    ensures grows { Grows (A.view arena.old).words (A.view arena.new).words }
{
    let start = initializing::init_struct_list(arena, id, at, count, size)?;
    Ok(ListPlace {
        segment: start.segment,
        byte: 8 * (u64::from(start.at) + 1),
        size: ElementSize::InlineComposite,
        struct_size: size,
        count,
    })
}
