//! Calls that make or open a struct or a list of structs, and return its place as the type that
//! generated code has for it.
ghost use Rattle.std.specs.Prelude.{◌≡◌, ℕ, List, ◌+◌, ◌*◌, ◌^◌, ◌<◌, IfOk, IsOk};
ghost use Rattle.capnp_format.specs.Path.{struct_at, tree_at};
ghost use Rattle.capnp_format.specs.Segments.{Grows, IsPlace};
ghost use Rattle.capnp_format.specs.Tree.{Tree, Elements, Struct, Structs, Trees, element_count};
ghost use Rattle.capnp_words.specs.Sizes.{sized};
ghost use Rattle.capnp_allocation.specs.Made.{nulls, words_of_zero, zero_elements, zero_struct, zero_structs};
ghost use Rattle.capnp_allocation.specs.Makes.{Allocates, MakesObject, call_at};
ghost use Rattle.capnp_allocation.specs.Stored.{IsStored};
ghost use Rattle.capnp_in_place.specs.Rooms.{OpeningFits, WiderListFits};
ghost use Rattle.capnp_readers.specs.Readers.{IsStructPlace};
ghost use Rattle.capnp_readers.specs.Sections.{IsInside};
ghost use Rattle.capnp_readers.specs.Values.{struct_children, struct_data};
ghost use Rattle.capnp_readers.specs.declared.readers.list_reader.ListPlace.{ListPlace};
ghost use Rattle.capnp_readers.specs.declared.readers.struct_reader.StructPlace.{StructPlace};
ghost use Rattle.capnp_builders.specs.Held.{HasStruct, Holder, MakesChild, call_in, element_of, pointer_to};
ghost use Rattle.capnp_builders.specs.Places.{IsAligned, element_place};
ghost use Rattle.typed_building.specs.Members.{MakesMember};
ghost use Rattle.typed_building.specs.Opened.{OpensChild, opened_list, opened_struct};
ghost use Rattle.typed_building.specs.There.{HasStructPlace, HasStructsPlace, call_on};

use crate::tag::UnionTag;
use crate::{opening, value};
use capnp_arena_traits::arena::BuilderArena;
use capnp_readers::readers::{ListPlace, StructPlace};
use capnp_words::error::ErrorKind;
use capnp_words::wire_pointer::StructSize;

/// A type that generated code has for the place of a struct.
pub trait FromStructPlace {
    // The place.
    ghost place_of: { Self → StructPlace };

    /// Returns the place as this type.
    fn from_place(place: StructPlace) -> Self
        ensures { place_of result ≡ place };
}

/// A type that generated code has for the place of a list of structs.
pub trait FromListPlace {
    // The place.
    ghost place_of: { Self → ListPlace };

    /// Returns the place as this type.
    fn from_place(place: ListPlace) -> Self
        ensures { place_of result ≡ place };
}

/// Makes the root of a message a new struct, all zero, and returns its place, like
/// `value::init_root`. Precondition: word 0 of segment 0 is allocated.
pub fn init_root<A: BuilderArena, B: FromStructPlace>(
    arena: &mut A,
    size: StructSize,
) -> Result<B, ErrorKind>
    requires { IsPlace (A.view arena.old).words 0 0 }
    ensures object { MakesObject result (call_at 0 0 (A.view arena.old) (A.view arena.new))
        (zero_struct size) (size.data_words + size.pointers) }
    ensures grows { Grows (A.view arena.old).words (A.view arena.new).words }
    ensures there { IfOk result (λ b.
        HasStructPlace (A.view arena.new).words size (B.place_of b)) }
    ensures made { (t : Tree) → IsStored (A.view arena.old).words 0 0 t
        → IfOk result (λ b. HasStruct (A.view arena.new).words (pointer_to 0 0) (B.place_of b)
        (words_of_zero size.data_words) (nulls size.pointers)) }
{
    match value::init_root(arena, size) {
        Ok(inner) => Ok(B::from_place(inner)),
        Err(k) => Err(k),
    }
}

/// Makes pointer `index` lead to a new struct, all zero, and returns its place, like
/// `value::init_struct`. Preconditions: `place` is inside the message; `index` is below
/// `place.pointers`.
pub fn init_struct<A: BuilderArena, B: FromStructPlace>(
    arena: &mut A,
    place: StructPlace,
    index: usize,
    size: StructSize,
) -> Result<B, ErrorKind>
    requires inside { IsStructPlace (A.view arena.old).words place }
    requires field { index < place.pointers }
    ensures object { MakesObject result
        (call_on place index (A.view arena.old) (A.view arena.new))
        (zero_struct size) (size.data_words + size.pointers) }
    ensures grows { Grows (A.view arena.old).words (A.view arena.new).words }
    ensures there { IfOk result (λ b.
        HasStructPlace (A.view arena.new).words size (B.place_of b)) }
    ensures made { (x : Holder) (ws : List ℕ) (ts : Trees)
        → HasStruct (A.view arena.old).words x place ws ts
        → IfOk result (λ b. HasStruct (A.view arena.new).words
        (pointer_to place.segment (place.pointers_at + index)) (B.place_of b)
        (words_of_zero size.data_words) (nulls size.pointers)) }
    ensures child { MakesChild result
        (call_in place (A.view arena.old).words (A.view arena.new).words) index
        (zero_struct size) }
{
    match value::init_struct(arena, place, index, size) {
        Ok(inner) => Ok(B::from_place(inner)),
        Err(k) => Err(k),
    }
}

/// Sets the member of a union that is a struct: writes its tag, and makes pointer `index` lead to a
/// new struct, all zero, whose place it returns. Preconditions: `place` is inside the message and
/// aligned; `tag` is inside the data section; `index` is below `place.pointers`.
///
/// Refusals, if no segment has room: `AllocationFailed` if memory runs out;
/// `MessageTooLarge(usize::MAX)` if the message already has 4,294,967,295 segments.
/// After a refusal the tag is written, and the pointer is null.
pub fn init_struct_member<A: BuilderArena, B: FromStructPlace>(
    arena: &mut A,
    place: StructPlace,
    tag: UnionTag,
    index: usize,
    size: StructSize,
) -> Result<B, ErrorKind>
    requires aligned { IsAligned place }
    requires inside { IsStructPlace (A.view arena.old).words place }
    requires tag { IsInside place.bits 16 tag.offset }
    requires field { index < place.pointers }
    ensures grows { Grows (A.view arena.old).words (A.view arena.new).words }
    ensures there { IfOk result (λ b.
        HasStructPlace (A.view arena.new).words size (B.place_of b)) }
    ensures made { (x : Holder) (ws : List ℕ) (ts : Trees)
        → HasStruct (A.view arena.old).words x place ws ts
        → IfOk result (λ b. HasStruct (A.view arena.new).words
        (pointer_to place.segment (place.pointers_at + index)) (B.place_of b)
        (words_of_zero size.data_words) (nulls size.pointers)) }
    ensures member { MakesMember result
        (call_in place (A.view arena.old).words (A.view arena.new).words) tag index
        (zero_struct size) }
    ensures memory { Allocates result
        (call_on place index (A.view arena.old) (A.view arena.new))
        (size.data_words + size.pointers) }
{
    value::set_tag(arena, place, tag);
    init_struct(arena, place, index, size)
}

/// Makes pointer `index` lead to a new list of `count` structs, all zero, and returns its place,
/// like `value::init_struct_list`. Preconditions: `place` is inside the message; `index` is below
/// `place.pointers`; `count` is below 2^30; `count` structs of `size` have fewer than 2^29 words.
pub fn init_struct_list<A: BuilderArena, B: FromListPlace>(
    arena: &mut A,
    place: StructPlace,
    index: usize,
    count: u32,
    size: StructSize,
) -> Result<B, ErrorKind>
    requires inside { IsStructPlace (A.view arena.old).words place }
    requires field { index < place.pointers }
    requires few { count < 2 ^ 30 }
    requires words { count * (size.data_words + size.pointers) < 2 ^ 29 }
    ensures object { MakesObject result
        (call_on place index (A.view arena.old) (A.view arena.new))
        (zero_structs count size) (1 + count * (size.data_words + size.pointers)) }
    ensures grows { Grows (A.view arena.old).words (A.view arena.new).words }
    ensures there { IfOk result (λ b.
        HasStructsPlace (A.view arena.new).words size (B.place_of b)) }
    ensures count { IfOk result (λ b. (B.place_of b).count ≡ count) }
    ensures made { (x : Holder) (ws : List ℕ) (ts : Trees) (i : ℕ) → i < count
        → HasStruct (A.view arena.old).words x place ws ts
        → IfOk result (λ b. HasStruct (A.view arena.new).words
        (element_of place.segment (place.pointers_at + index) size
        (zero_elements size.data_words size.pointers count) i)
        (element_place (B.place_of b).size (B.place_of b) i)
        (words_of_zero size.data_words) (nulls size.pointers)) }
    ensures child { MakesChild result
        (call_in place (A.view arena.old).words (A.view arena.new).words) index
        (zero_structs count size) }
{
    match value::init_struct_list(arena, place, index, count, size) {
        Ok(inner) => Ok(B::from_place(inner)),
        Err(k) => Err(k),
    }
}

/// Sets the member of a union that is a list of structs: writes its tag, and makes pointer `index`
/// lead to a new list of `count` structs, all zero, whose place it returns. Preconditions: `place`
/// is inside the message and aligned; `tag` is inside the data section; `index` is below
/// `place.pointers`; `count` is below 2^30; `count` structs of `size` have fewer than 2^29 words.
///
/// Refusals, if no segment has room: `AllocationFailed` if memory runs out;
/// `MessageTooLarge(usize::MAX)` if the message already has 4,294,967,295 segments.
/// After a refusal the tag is written, and the pointer is null.
pub fn init_struct_list_member<A: BuilderArena, B: FromListPlace>(
    arena: &mut A,
    place: StructPlace,
    tag: UnionTag,
    index: usize,
    count: u32,
    size: StructSize,
) -> Result<B, ErrorKind>
    requires aligned { IsAligned place }
    requires inside { IsStructPlace (A.view arena.old).words place }
    requires tag { IsInside place.bits 16 tag.offset }
    requires field { index < place.pointers }
    requires few { count < 2 ^ 30 }
    requires words { count * (size.data_words + size.pointers) < 2 ^ 29 }
    ensures grows { Grows (A.view arena.old).words (A.view arena.new).words }
    ensures there { IfOk result (λ b.
        HasStructsPlace (A.view arena.new).words size (B.place_of b)) }
    ensures count { IfOk result (λ b. (B.place_of b).count ≡ count) }
    ensures made { (x : Holder) (ws : List ℕ) (ts : Trees) (i : ℕ) → i < count
        → HasStruct (A.view arena.old).words x place ws ts
        → IfOk result (λ b. HasStruct (A.view arena.new).words
        (element_of place.segment (place.pointers_at + index) size
        (zero_elements size.data_words size.pointers count) i)
        (element_place (B.place_of b).size (B.place_of b) i)
        (words_of_zero size.data_words) (nulls size.pointers)) }
    ensures member { MakesMember result
        (call_in place (A.view arena.old).words (A.view arena.new).words) tag index
        (zero_structs count size) }
    ensures memory { Allocates result
        (call_on place index (A.view arena.old) (A.view arena.new))
        (1 + count * (size.data_words + size.pointers)) }
{
    value::set_tag(arena, place, tag);
    init_struct_list(arena, place, index, count, size)
}

/// Returns the struct that pointer `index` leads to, for writing, like `opening::get_struct`.
/// Preconditions: `place` is inside the message; `index` is below `place.pointers`.
pub fn get_struct<A: BuilderArena, B: FromStructPlace>(
    arena: &mut A,
    place: StructPlace,
    index: usize,
    size: StructSize,
) -> Result<B, ErrorKind>
    requires inside { IsStructPlace (A.view arena.old).words place }
    requires field { index < place.pointers }
    ensures fits { OpeningFits (A.view arena.old) place.segment (place.pointers_at + index) size
        → IsOk result }
    ensures child { OpensChild result
        (call_in place (A.view arena.old).words (A.view arena.new).words) index
        (opened_struct size) }
    ensures there { (x : Holder) (ws : List ℕ) (ts : Trees)
        → HasStruct (A.view arena.old).words x place ws ts
        → IfOk result (λ b. HasStructPlace (A.view arena.new).words size (B.place_of b)) }
    ensures made { (x : Holder) (ws : List ℕ) (ts : Trees)
        → HasStruct (A.view arena.old).words x place ws ts
        → IfOk result (λ b. HasStruct (A.view arena.new).words
        (pointer_to place.segment (place.pointers_at + index)) (B.place_of b)
        (struct_data (opened_struct size (tree_at ts index)))
        (struct_children (opened_struct size (tree_at ts index)))) }
    ensures grows { Grows (A.view arena.old).words (A.view arena.new).words }
{
    match opening::get_struct(arena, place, index, size) {
        Ok(inner) => Ok(B::from_place(inner)),
        Err(k) => Err(k),
    }
}

/// Returns the list that pointer `index` leads to, for writing, as a list of structs, like
/// `opening::get_struct_list`. Preconditions: `place` is inside the message; `index` is below
/// `place.pointers`.
pub fn get_struct_list<A: BuilderArena, B: FromListPlace>(
    arena: &mut A,
    place: StructPlace,
    index: usize,
    size: StructSize,
) -> Result<B, ErrorKind>
    requires inside { IsStructPlace (A.view arena.old).words place }
    requires field { index < place.pointers }
    ensures fits { WiderListFits
        (IsStored (A.view arena.old).words place.segment (place.pointers_at + index))
        (A.view arena.old) place.segment (place.pointers_at + index) size
        → IsOk result }
    ensures child { OpensChild result
        (call_in place (A.view arena.old).words (A.view arena.new).words) index
        (opened_list size) }
    ensures there { (x : Holder) (ws : List ℕ) (ts : Trees)
        → HasStruct (A.view arena.old).words x place ws ts
        → IfOk result (λ b. HasStructsPlace (A.view arena.new).words size (B.place_of b)) }
    ensures made { (x : Holder) (ws : List ℕ) (ts : Trees) (d q : ℕ) (es : Elements) (i : ℕ)
        (vs : List ℕ) (us : Trees)
        → HasStruct (A.view arena.old).words x place ws ts
        → opened_list size (tree_at ts index) ≡ Structs d q es
        → i < element_count es → struct_at es i ≡ Struct vs us
        → IfOk result (λ b. HasStruct (A.view arena.new).words
        (element_of place.segment (place.pointers_at + index) (sized d q) es i)
        (element_place (B.place_of b).size (B.place_of b) i) vs us) }
    ensures grows { Grows (A.view arena.old).words (A.view arena.new).words }
{
    match opening::get_struct_list(arena, place, index, size) {
        Ok(inner) => Ok(B::from_place(inner)),
        Err(k) => Err(k),
    }
}
