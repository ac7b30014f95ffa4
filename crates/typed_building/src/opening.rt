//! The structs and lists that pointers of a struct lead to, opened for writing.
ghost use Rattle.std.specs.Prelude.{◌≡◌, ℕ, List, ◌+◌, ◌<◌, ◌≤◌, IfOk, IsOk};
ghost use Rattle.capnp_format.specs.Forest.{target};
ghost use Rattle.capnp_format.specs.Path.{struct_at, tree_at};
ghost use Rattle.capnp_format.specs.Segments.{Grows};
ghost use Rattle.capnp_format.specs.Tree.{Tree, Null, Struct, Structs, Trees, Elements, element_count};
ghost use Rattle.capnp_words.specs.Sizes.{size_number, sized};
ghost use Rattle.capnp_in_place.specs.Existing.{list_in};
ghost use Rattle.capnp_allocation.specs.Stored.{IsStored};
ghost use Rattle.capnp_in_place.specs.Opening.{OpensStruct};
ghost use Rattle.capnp_in_place.specs.Rooms.{OpeningFits, WiderListFits};
ghost use Rattle.capnp_readers.specs.Readers.{IsStructPlace};
ghost use Rattle.capnp_readers.specs.Values.{struct_children, struct_data};
ghost use Rattle.capnp_builders.specs.Found.{list_given};
ghost use Rattle.capnp_builders.specs.Held.{HasList, HasStruct, Holder, call_in, element_of, pointer_to};
ghost use Rattle.capnp_builders.specs.Opening.{IsStructGiven, OpensList};
ghost use Rattle.capnp_builders.specs.Places.{element_place};
ghost use Rattle.typed_building.specs.Opened.{HasElements, OpensChild, opened_struct, opened_list};
ghost use Rattle.typed_building.specs.There.{HasListPlace, HasStructPlace, HasStructsPlace, call_on};

use capnp_arena_traits::arena::BuilderArena;
use capnp_builders::builders::PointerBuilder;
use capnp_builders::fields;
use capnp_readers::readers::{ListPlace, StructPlace};
use capnp_words::error::ErrorKind;
use capnp_words::wire_pointer::{ElementSize, StructSize};

/// Returns the struct that pointer `index` leads to, for writing, with sections at least as large
/// as in `size`. If a section is too small, moves the struct to new words, and fills its sections
/// up with zeros and null pointers. If the pointer is null, makes a new struct of `size`, all zero.
/// Preconditions: `place` is inside the message; `index` is below `place.pointers`.
///
/// Refusals: `MessageContainsNonStructPointerWhereStructPointerWasExpected` if the pointer leads to
/// something other than a struct. If no segment has room for the new struct, or for a landing pad:
/// `AllocationFailed` if memory runs out; `MessageTooLarge(usize::MAX)` if the message already has
/// 4,294,967,295 segments. After a refusal the pointer leads to what it led to before.
pub fn get_struct<A: BuilderArena>(
    arena: &mut A,
    place: StructPlace,
    index: usize,
    size: StructSize,
) -> Result<StructPlace, ErrorKind>
    requires inside { IsStructPlace (A.view arena.old).words place }
    requires field { index < place.pointers }
    ensures opens { (t : Tree)
        → IsStored (A.view arena.old).words place.segment (place.pointers_at + index) t
        → OpensStruct IsStructGiven size result
        (call_on place index (A.view arena.old) (A.view arena.new)) t }
    ensures fits { OpeningFits (A.view arena.old) place.segment (place.pointers_at + index) size
        → IsOk result }
    ensures child { OpensChild result
        (call_in place (A.view arena.old).words (A.view arena.new).words) index
        (opened_struct size) }
    ensures there { (x : Holder) (ws : List ℕ) (ts : Trees)
        → HasStruct (A.view arena.old).words x place ws ts
        → IfOk result (HasStructPlace (A.view arena.new).words size) }
    ensures made { (x : Holder) (ws : List ℕ) (ts : Trees)
        → HasStruct (A.view arena.old).words x place ws ts
        → IfOk result (λ inner. HasStruct (A.view arena.new).words
        (pointer_to place.segment (place.pointers_at + index)) inner
        (struct_data (opened_struct size (tree_at ts index)))
        (struct_children (opened_struct size (tree_at ts index)))) }
    ensures grows { Grows (A.view arena.old).words (A.view arena.new).words }
{
    let at = place.pointers_at + index as u32;
    let mut pointer = PointerBuilder {
        arena,
        segment: place.segment,
        at,
    };
    pointer.get_struct_place(size, None)
}

/// Returns the list that pointer `index` leads to, for writing, as a list of structs with sections
/// at least as large as in `size`. A list of structs that are too small, and a list of numbers or
/// pointers, is moved to new words, as a list of structs with sections of that size. If the pointer
/// is null, returns a list without elements, and changes nothing. Preconditions: `place` is inside
/// the message; `index` is below `place.pointers`.
///
/// Refusals: `ExistingPointerIsNotAList` if the pointer leads to something other than a list;
/// `FoundBitListWhereStructListWasExpected` for a list of bits; `MessageTooLarge(n)` if the new
/// elements would have n words, and n is 2^29 or more. If no segment has room for the new list, or
/// for a landing pad: `AllocationFailed` if memory runs out; `MessageTooLarge(n)` if n is above
/// 536,870,911, where n is the number of the new elements' words, plus two for the tag and a
/// landing pad; `MessageTooLarge(usize::MAX)` if the message already has 4,294,967,295 segments.
/// After a refusal the pointer leads to what it led to before.
pub fn get_struct_list<A: BuilderArena>(
    arena: &mut A,
    place: StructPlace,
    index: usize,
    size: StructSize,
) -> Result<ListPlace, ErrorKind>
    requires inside { IsStructPlace (A.view arena.old).words place }
    requires field { index < place.pointers }
    ensures opens { (t : Tree)
        → IsStored (A.view arena.old).words place.segment (place.pointers_at + index) t
        → OpensList size result
        (call_on place index (A.view arena.old) (A.view arena.new)) t }
    ensures fits { WiderListFits
        (IsStored (A.view arena.old).words place.segment (place.pointers_at + index))
        (A.view arena.old) place.segment (place.pointers_at + index) size
        → IsOk result }
    ensures child { OpensChild result
        (call_in place (A.view arena.old).words (A.view arena.new).words) index
        (opened_list size) }
    ensures there { (x : Holder) (ws : List ℕ) (ts : Trees)
        → HasStruct (A.view arena.old).words x place ws ts
        → IfOk result (HasStructsPlace (A.view arena.new).words size) }
    ensures made { (x : Holder) (ws : List ℕ) (ts : Trees) (d q : ℕ) (es : Elements) (i : ℕ)
        (vs : List ℕ) (us : Trees)
        → HasStruct (A.view arena.old).words x place ws ts
        → opened_list size (tree_at ts index) ≡ Structs d q es
        → i < element_count es → struct_at es i ≡ Struct vs us
        → IfOk result (λ list. HasStruct (A.view arena.new).words
        (element_of place.segment (place.pointers_at + index) (sized d q) es i)
        (element_place list.size list i) vs us) }
    ensures grows { Grows (A.view arena.old).words (A.view arena.new).words }
{
    let at = place.pointers_at + index as u32;
    let mut pointer = PointerBuilder {
        arena,
        segment: place.segment,
        at,
    };
    pointer.get_struct_list_place(size, None)
}

/// Returns the list that pointer `index` leads to, for writing. Changes nothing. If the pointer is
/// null, returns a list without elements. The elements may be wider than `size`, and may be structs
/// that begin with such an element. Preconditions: `place` is inside the message; `index` is below
/// `place.pointers`; `size` isn't `InlineComposite`.
///
/// Refusals: `ExistingPointerIsNotAList` if the pointer leads to something other than a list;
/// `ExistingListValueIsIncompatibleWithExpectedType` if the elements are narrower than `size`;
/// `FoundStructListWhereBitListWasExpected` for structs if `size` is `Bit`.
pub fn get_list<A: BuilderArena>(
    arena: &A,
    place: StructPlace,
    index: usize,
    size: ElementSize,
) -> Result<ListPlace, ErrorKind>
    requires inside { IsStructPlace (A.view arena.now).words place }
    requires field { index < place.pointers }
    requires plain { size_number size ≤ 6 }
    ensures found { (t : Tree)
        → IsStored (A.view arena.now).words place.segment (place.pointers_at + index) t
        → result ≡ list_given place.segment
        (list_in (target (A.view arena.now).words place.segment (place.pointers_at + index))
        size t) }
    ensures there { (x : Holder) (ws : List ℕ) (ts : Trees)
        → HasStruct (A.view arena.now).words x place ws ts → HasElements size (tree_at ts index)
        → IfOk result (HasListPlace (A.view arena.now).words size) }
    ensures made { (x : Holder) (ws : List ℕ) (ts : Trees)
        → HasStruct (A.view arena.now).words x place ws ts → HasElements size (tree_at ts index)
        → IfOk result (λ list. HasList (A.view arena.now).words place.segment
        (place.pointers_at + index) list (tree_at ts index)) }
    ensures empty { (x : Holder) (ws : List ℕ) (ts : Trees)
        → HasStruct (A.view arena.now).words x place ws ts → tree_at ts index ≡ Null
        → IfOk result (λ list. list.count ≡ 0) }
{
    fields::get_list(arena, place, index, size)
}
