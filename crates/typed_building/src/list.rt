//! The elements of a list of a message being built.
ghost use Rattle.std.specs.Prelude.{◌≡◌, ℕ, List, ◌+◌, ◌*◌, ◌/◌, ◌^◌, ◌<◌, ◌≤◌, ◌++◌, ◌∷◌, [], IfOk, cond, length, slice_set};
ghost use Rattle.capnp_format.specs.Numbers.{words_for};
ghost use Rattle.capnp_format.specs.Segments.{Grows};
ghost use Rattle.capnp_format.specs.Path.{put_tree};
ghost use Rattle.capnp_format.specs.Tree.{Flat, Trees};
ghost use Rattle.capnp_words.specs.Sizes.{size_number};
ghost use Rattle.capnp_words.specs.declared.wire_pointer.ElementSize.TheVariants.{Bit, Pointer};
ghost use Rattle.capnp_allocation.specs.Made.{list_words, zero_list, zero_structs};
ghost use Rattle.capnp_allocation.specs.Makes.{MakesObject};
ghost use Rattle.capnp_in_place.specs.Anew.{OnlyWrites};
ghost use Rattle.capnp_readers.specs.Readers.{IsStructPlace};
ghost use Rattle.capnp_builders.specs.Held.{HasList, HasStruct, Holder};
ghost use Rattle.capnp_builders.specs.Places.{element_place};
ghost use Rattle.typed_building.specs.Elements.{MakesElement, list_call};
ghost use Rattle.typed_building.specs.There.{HasStructsPlace, HasListPlace, HasStructPlace, call_on_element};

use capnp_arena_traits::arena::BuilderArena;
pub use capnp_builders::fields::set_element;
use capnp_builders::{builders, fields};
use capnp_in_place::numbers;
use capnp_readers::readers::{ListPlace, StructPlace};
use capnp_words::error::ErrorKind;
use capnp_words::wire_pointer::{ElementSize, StructSize};

/// Returns the place of element `index` of a list of structs at least as large as `size`.
/// Preconditions: `list` is inside the message; the elements are structs with sections at least as
/// large as in `size`; `index` is below `list.count`.
pub fn element<A: BuilderArena>(
    arena: &A,
    list: ListPlace,
    size: StructSize,
    index: u32,
) -> StructPlace
    requires there { HasStructsPlace (A.view arena.now).words size list }
    requires range { index < list.count }
    ensures there { HasStructPlace (A.view arena.now).words size result }
    ensures place { result ≡ element_place list.size list index }
{
    builders::element_place(list, index)
}

/// Writes element `index` of a list of bits. Preconditions: `list` is inside the message; the
/// elements are bits; `index` is below `list.count`.
pub fn set_bool<A: BuilderArena>(arena: &mut A, list: ListPlace, index: u32, value: bool)
    requires there { HasListPlace (A.view arena.old).words Bit list }
    requires range { index < list.count }
    ensures grows { Grows (A.view arena.old).words (A.view arena.new).words }
    ensures sets { (s p size : ℕ) (ns : List ℕ)
        → HasList (A.view arena.old).words s p list (Flat size ns)
        → HasList (A.view arena.new).words s p list
        (Flat size (slice_set ns index (cond value 1 0))) }
    ensures sets_child { (x : Holder) (place : StructPlace) (ws : List ℕ) (ts : Trees)
        (i size : ℕ) (ns : List ℕ) → i < place.pointers
        → HasList (A.view arena.old).words place.segment (place.pointers_at + i) list (Flat size ns)
        → HasStruct (A.view arena.old).words x place ws (put_tree ts i (Flat size ns))
        → HasStruct (A.view arena.new).words x place ws
        (put_tree ts i (Flat size (slice_set ns index (cond value 1 0)))) }
    ensures memory { OnlyWrites (A.view arena.old) (A.view arena.new) }
{
    let bit = 8 * list.byte + u64::from(index);
    numbers::set_bit(arena, list.segment, bit, value);
}

/// Returns the place of element `index` of a list of pointers, as a struct with one pointer.
fn pointer_place<A: BuilderArena>(arena: &A, list: ListPlace, index: u32) -> StructPlace
    requires there { HasListPlace (A.view arena.now).words Pointer list }
    requires range { index < list.count }
    ensures inside { IsStructPlace (A.view arena.now).words result }
    ensures segment { result.segment ≡ list.segment }
    ensures at { result.pointers_at ≡ list.byte / 8 + index }
    ensures one { result.pointers ≡ 1 }
{
    builders::element_place(list, index)
}

/// Makes element `index` of a list of pointers lead to a new text: the bytes of `text`, followed by
/// a zero byte. Preconditions: `list` is inside the message; the elements are pointers; `index` is
/// below `list.count`; `text` has fewer than 2^29 - 1 bytes.
///
/// Refusals, if no segment has room: `AllocationFailed` if memory runs out;
/// `MessageTooLarge(usize::MAX)` if the message already has 4,294,967,295 segments. After a refusal
/// the element is null.
pub fn set_text<A: BuilderArena>(
    arena: &mut A,
    list: ListPlace,
    index: u32,
    text: &[u8],
) -> Result<(), ErrorKind>
    requires there { HasListPlace (A.view arena.old).words Pointer list }
    requires range { index < list.count }
    requires few { length text.now + 1 < 2 ^ 29 }
    ensures object { MakesObject result
        (call_on_element list index (A.view arena.old) (A.view arena.new))
        (Flat 2 (text.now ++ 0 ∷ [])) (words_for 2 (length text.now + 1)) }
    ensures grows { Grows (A.view arena.old).words (A.view arena.new).words }
    ensures element { MakesElement result
        (list_call list (A.view arena.old).words (A.view arena.new).words) index
        (Flat 2 (text.now ++ 0 ∷ [])) }
{
    let place = pointer_place(&*arena, list, index);
    fields::set_text(arena, place, 0, text)
}

/// Makes element `index` of a list of pointers lead to new data, the bytes of `contents`.
/// Preconditions: `list` is inside the message; the elements are pointers; `index` is below
/// `list.count`; `contents` has fewer than 2^29 bytes.
///
/// Refusals, if no segment has room: `AllocationFailed` if memory runs out;
/// `MessageTooLarge(usize::MAX)` if the message already has 4,294,967,295 segments. After a refusal
/// the element is null.
pub fn set_data<A: BuilderArena>(
    arena: &mut A,
    list: ListPlace,
    index: u32,
    contents: &[u8],
) -> Result<(), ErrorKind>
    requires there { HasListPlace (A.view arena.old).words Pointer list }
    requires range { index < list.count }
    requires few { length contents.now < 2 ^ 29 }
    ensures object { MakesObject result
        (call_on_element list index (A.view arena.old) (A.view arena.new))
        (Flat 2 contents.now) (words_for 2 (length contents.now)) }
    ensures grows { Grows (A.view arena.old).words (A.view arena.new).words }
    ensures element { MakesElement result
        (list_call list (A.view arena.old).words (A.view arena.new).words) index
        (Flat 2 contents.now) }
{
    let place = pointer_place(&*arena, list, index);
    fields::set_data(arena, place, 0, contents)
}

/// Makes element `index` of a list of pointers lead to a new list of `count` elements that aren't
/// structs, all zero or null, and returns the list's place. Preconditions: `list` is inside the
/// message; the elements are pointers; `index` is below `list.count`; `size` isn't
/// `InlineComposite`; `count` is below 2^29.
///
/// Refusals, if no segment has room: `AllocationFailed` if memory runs out;
/// `MessageTooLarge(usize::MAX)` if the message already has 4,294,967,295 segments. After a refusal
/// the element is null.
pub fn init_list<A: BuilderArena>(
    arena: &mut A,
    list: ListPlace,
    index: u32,
    size: ElementSize,
    count: u32,
) -> Result<ListPlace, ErrorKind>
    requires there { HasListPlace (A.view arena.old).words Pointer list }
    requires range { index < list.count }
    requires few { count < 2 ^ 29 }
    requires plain { size_number size ≤ 6 }
    ensures object { MakesObject result
        (call_on_element list index (A.view arena.old) (A.view arena.new))
        (zero_list (size_number size) count) (list_words (size_number size) count) }
    ensures grows { Grows (A.view arena.old).words (A.view arena.new).words }
    ensures there { IfOk result (HasListPlace (A.view arena.new).words size) }
    ensures count { IfOk result (λ inner. inner.count ≡ count) }
    ensures element { MakesElement result
        (list_call list (A.view arena.old).words (A.view arena.new).words) index
        (zero_list (size_number size) count) }
{
    let place = pointer_place(&*arena, list, index);
    fields::init_list(arena, place, 0, size, count)
}

/// Makes element `index` of a list of pointers lead to a new list of `count` structs, all zero, and
/// returns the list's place. Preconditions: `list` is inside the message; the elements are
/// pointers; `index` is below `list.count`; `count` is below 2^30; `count` structs of `size` have
/// fewer than 2^29 words.
///
/// Refusals, if no segment has room: `AllocationFailed` if memory runs out;
/// `MessageTooLarge(usize::MAX)` if the message already has 4,294,967,295 segments. After a refusal
/// the element is null.
pub fn init_struct_list<A: BuilderArena>(
    arena: &mut A,
    list: ListPlace,
    index: u32,
    count: u32,
    size: StructSize,
) -> Result<ListPlace, ErrorKind>
    requires there { HasListPlace (A.view arena.old).words Pointer list }
    requires range { index < list.count }
    requires few { count < 2 ^ 30 }
    requires words { count * (size.data_words + size.pointers) < 2 ^ 29 }
    ensures object { MakesObject result
        (call_on_element list index (A.view arena.old) (A.view arena.new))
        (zero_structs count size) (1 + count * (size.data_words + size.pointers)) }
    ensures grows { Grows (A.view arena.old).words (A.view arena.new).words }
    ensures there { IfOk result (HasStructsPlace (A.view arena.new).words size) }
    ensures count { IfOk result (λ inner. inner.count ≡ count) }
    ensures element { MakesElement result
        (list_call list (A.view arena.old).words (A.view arena.new).words) index
        (zero_structs count size) }
{
    let place = pointer_place(&*arena, list, index);
    fields::init_struct_list(arena, place, 0, count, size)
}
