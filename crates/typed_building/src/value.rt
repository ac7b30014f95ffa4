//! The fields of a struct of a message being built.
ghost use Rattle.std.specs.Prelude.{◌≡◌, ℕ, List, ◌+◌, ◌*◌, ◌^◌, ◌<◌, ◌≤◌, ◌++◌, ◌∷◌, [], IfOk, bit_xor, cond, length};
ghost use Rattle.capnp_format.specs.Numbers.{words_for};
ghost use Rattle.capnp_format.specs.Segments.{Grows};
ghost use Rattle.capnp_format.specs.Tree.{Capability, Flat, Null, Trees};
ghost use Rattle.capnp_words.specs.Sizes.{size_number};
ghost use Rattle.capnp_allocation.specs.Made.{list_words, zero_list};
ghost use Rattle.capnp_allocation.specs.Makes.{Allocates};
ghost use Rattle.capnp_in_place.specs.Anew.{OnlyWrites};
ghost use Rattle.capnp_readers.specs.Readers.{IsStructPlace};
ghost use Rattle.capnp_readers.specs.Sections.{IsInside};
ghost use Rattle.capnp_builders.specs.Held.{HasList, HasStruct, Holder, ReplacesChild, ReplacesField, SetsChild, SetsField, call_in};
ghost use Rattle.capnp_builders.specs.Places.{IsAligned, field, number_field};
ghost use Rattle.typed_building.specs.Members.{MakesMember, ReplacesChildMember, ReplacesMember, SetsChildMember, SetsMember, tag_field};
ghost use Rattle.typed_building.specs.There.{HasListPlace, call_on};

use crate::tag::UnionTag;
use capnp_allocation::making;
use capnp_arena_traits::arena::BuilderArena;
use capnp_builders::fields;
pub use capnp_builders::fields::{
    init_list, init_root, init_struct, init_struct_list, set_bool, set_data, set_number, set_text,
};
use capnp_in_place::initializing;
use capnp_readers::readers::{ListPlace, StructPlace};
use capnp_words::error::ErrorKind;
use capnp_words::mask::Mask;
use capnp_words::primitive::Primitive;
use capnp_words::wire_pointer::ElementSize;
use capnp_words::zero::Zero;

/// Writes the number at `offset` of a struct's data, counted in numbers of type `T`, of a field
/// whose default value is `default`: stores the exclusive or of `value` and the default.
/// Preconditions: `place` is inside the message and aligned; the field at `offset` is inside the
/// data section.
pub fn set_number_or<A: BuilderArena, T: Primitive + Zero + Mask>(
    arena: &mut A,
    place: StructPlace,
    offset: usize,
    value: T,
    default: <T as Mask>::T,
)
    requires aligned { IsAligned place }
    requires inside { IsStructPlace (A.view arena.old).words place }
    requires field { IsInside place.bits (8 * T.BYTES) offset }
    ensures grows { Grows (A.view arena.old).words (A.view arena.new).words }
    ensures sets { SetsField
        (call_in place (A.view arena.old).words (A.view arena.new).words)
        (number_field T.BYTES offset
        (bit_xor (T.bits_of value) (T.mask_bits default))) }
    ensures replaces { ReplacesField
        (call_in place (A.view arena.old).words (A.view arena.new).words)
        (number_field T.BYTES offset
        (bit_xor (T.bits_of value) (T.mask_bits default))) }
    ensures memory { OnlyWrites (A.view arena.old) (A.view arena.new) }
{
    fields::set_number(arena, place, offset, T::mask(value, default));
}

/// Writes bit `offset` of a struct's data, of a field whose default value is `true`: stores the
/// opposite of `value`. Preconditions: `place` is inside the message; bit `offset` is inside the
/// data section.
pub fn set_bool_default_true<A: BuilderArena>(
    arena: &mut A,
    place: StructPlace,
    offset: usize,
    value: bool,
)
    requires inside { IsStructPlace (A.view arena.old).words place }
    requires field { offset < place.bits }
    ensures grows { Grows (A.view arena.old).words (A.view arena.new).words }
    ensures sets { SetsField
        (call_in place (A.view arena.old).words (A.view arena.new).words)
        (field offset 1 (cond value 0 1)) }
    ensures replaces { ReplacesField
        (call_in place (A.view arena.old).words (A.view arena.new).words)
        (field offset 1 (cond value 0 1)) }
    ensures memory { OnlyWrites (A.view arena.old) (A.view arena.new) }
{
    fields::set_bool(arena, place, offset, !value);
}

/// Writes the tag of a union: sets a member without a value. Preconditions: `place` is inside the
/// message and aligned; `tag` is inside the data section.
pub fn set_tag<A: BuilderArena>(arena: &mut A, place: StructPlace, tag: UnionTag)
    requires aligned { IsAligned place }
    requires inside { IsStructPlace (A.view arena.old).words place }
    requires tag { IsInside place.bits 16 tag.offset }
    ensures grows { Grows (A.view arena.old).words (A.view arena.new).words }
    ensures sets { SetsField
        (call_in place (A.view arena.old).words (A.view arena.new).words) (tag_field tag) }
    ensures replaces { ReplacesField
        (call_in place (A.view arena.old).words (A.view arena.new).words) (tag_field tag) }
    ensures memory { OnlyWrites (A.view arena.old) (A.view arena.new) }
{
    fields::set_number(arena, place, tag.offset, tag.number);
}

/// Sets the member of a union that is a number: writes its tag, and then the number at `offset`,
/// counted in numbers of type `T`. Preconditions: `place` is inside the message and aligned; `tag`
/// and the field at `offset` are inside the data section.
pub fn set_number_member<A: BuilderArena, T: Primitive + Zero>(
    arena: &mut A,
    place: StructPlace,
    tag: UnionTag,
    offset: usize,
    value: T,
)
    requires aligned { IsAligned place }
    requires inside { IsStructPlace (A.view arena.old).words place }
    requires tag { IsInside place.bits 16 tag.offset }
    requires field { IsInside place.bits (8 * T.BYTES) offset }
    ensures grows { Grows (A.view arena.old).words (A.view arena.new).words }
    ensures sets { SetsMember
        (call_in place (A.view arena.old).words (A.view arena.new).words) tag
        (number_field T.BYTES offset (T.bits_of value)) }
    ensures replaces { ReplacesMember
        (call_in place (A.view arena.old).words (A.view arena.new).words) tag
        (number_field T.BYTES offset (T.bits_of value)) }
    ensures memory { OnlyWrites (A.view arena.old) (A.view arena.new) }
{
    set_tag(arena, place, tag);
    fields::set_number(arena, place, offset, value);
}

/// Sets the member of a union that is a number with a default value, like `set_number_member` and
/// `set_number_or`. Preconditions: `place` is inside the message and aligned; `tag` and the field
/// at `offset` are inside the data section.
pub fn set_number_or_member<A: BuilderArena, T: Primitive + Zero + Mask>(
    arena: &mut A,
    place: StructPlace,
    tag: UnionTag,
    offset: usize,
    value: T,
    default: <T as Mask>::T,
)
    requires aligned { IsAligned place }
    requires inside { IsStructPlace (A.view arena.old).words place }
    requires tag { IsInside place.bits 16 tag.offset }
    requires field { IsInside place.bits (8 * T.BYTES) offset }
    ensures grows { Grows (A.view arena.old).words (A.view arena.new).words }
    ensures sets { SetsMember
        (call_in place (A.view arena.old).words (A.view arena.new).words) tag
        (number_field T.BYTES offset
        (bit_xor (T.bits_of value) (T.mask_bits default))) }
    ensures replaces { ReplacesMember
        (call_in place (A.view arena.old).words (A.view arena.new).words) tag
        (number_field T.BYTES offset
        (bit_xor (T.bits_of value) (T.mask_bits default))) }
    ensures memory { OnlyWrites (A.view arena.old) (A.view arena.new) }
{
    set_tag(arena, place, tag);
    set_number_or(arena, place, offset, value, default);
}

/// Sets the member of a union that is a bit: writes its tag, and then bit `offset`. Preconditions:
/// `place` is inside the message and aligned; `tag` and bit `offset` are inside the data section.
pub fn set_bool_member<A: BuilderArena>(
    arena: &mut A,
    place: StructPlace,
    tag: UnionTag,
    offset: usize,
    value: bool,
)
    requires aligned { IsAligned place }
    requires inside { IsStructPlace (A.view arena.old).words place }
    requires tag { IsInside place.bits 16 tag.offset }
    requires field { offset < place.bits }
    ensures grows { Grows (A.view arena.old).words (A.view arena.new).words }
    ensures sets { SetsMember
        (call_in place (A.view arena.old).words (A.view arena.new).words) tag
        (field offset 1 (cond value 1 0)) }
    ensures replaces { ReplacesMember
        (call_in place (A.view arena.old).words (A.view arena.new).words) tag
        (field offset 1 (cond value 1 0)) }
    ensures memory { OnlyWrites (A.view arena.old) (A.view arena.new) }
{
    set_tag(arena, place, tag);
    fields::set_bool(arena, place, offset, value);
}

/// Sets the member of a union that is a bit whose default value is `true`, like `set_bool_member`
/// and `set_bool_default_true`. Preconditions: `place` is inside the message and aligned; `tag` and
/// bit `offset` are inside the data section.
pub fn set_bool_default_true_member<A: BuilderArena>(
    arena: &mut A,
    place: StructPlace,
    tag: UnionTag,
    offset: usize,
    value: bool,
)
    requires aligned { IsAligned place }
    requires inside { IsStructPlace (A.view arena.old).words place }
    requires tag { IsInside place.bits 16 tag.offset }
    requires field { offset < place.bits }
    ensures grows { Grows (A.view arena.old).words (A.view arena.new).words }
    ensures sets { SetsMember
        (call_in place (A.view arena.old).words (A.view arena.new).words) tag
        (field offset 1 (cond value 0 1)) }
    ensures replaces { ReplacesMember
        (call_in place (A.view arena.old).words (A.view arena.new).words) tag
        (field offset 1 (cond value 0 1)) }
    ensures memory { OnlyWrites (A.view arena.old) (A.view arena.new) }
{
    set_tag(arena, place, tag);
    set_bool_default_true(arena, place, offset, value);
}

/// Sets the member of a union that is a text: writes its tag, and makes pointer `index` lead to a
/// new text, the bytes of `text`, followed by a zero byte. Preconditions: `place` is inside the
/// message and aligned; `tag` is inside the data section; `index` is below `place.pointers`; `text`
/// has fewer than 2^29 - 1 bytes.
///
/// Refusals, if no segment has room: `AllocationFailed` if memory runs out;
/// `MessageTooLarge(usize::MAX)` if the message already has 4,294,967,295 segments.
/// After a refusal the tag is written, and the pointer is null.
pub fn set_text_member<A: BuilderArena>(
    arena: &mut A,
    place: StructPlace,
    tag: UnionTag,
    index: usize,
    text: &[u8],
) -> Result<(), ErrorKind>
    requires aligned { IsAligned place }
    requires inside { IsStructPlace (A.view arena.old).words place }
    requires tag { IsInside place.bits 16 tag.offset }
    requires field { index < place.pointers }
    requires few { length text.now + 1 < 2 ^ 29 }
    ensures grows { Grows (A.view arena.old).words (A.view arena.new).words }
    ensures member { MakesMember result
        (call_in place (A.view arena.old).words (A.view arena.new).words) tag index
        (Flat 2 (text.now ++ 0 ∷ [])) }
    ensures memory { Allocates result
        (call_on place index (A.view arena.old) (A.view arena.new))
        (words_for 2 (length text.now + 1)) }
{
    set_tag(arena, place, tag);
    fields::set_text(arena, place, index, text)
}

/// Sets the member of a union that is data: writes its tag, and makes pointer `index` lead to new
/// data, the bytes of `contents`. Preconditions: `place` is inside the message and aligned; `tag`
/// is inside the data section; `index` is below `place.pointers`; `contents` has fewer than 2^29
/// bytes.
///
/// Refusals, if no segment has room: `AllocationFailed` if memory runs out;
/// `MessageTooLarge(usize::MAX)` if the message already has 4,294,967,295 segments.
/// After a refusal the tag is written, and the pointer is null.
pub fn set_data_member<A: BuilderArena>(
    arena: &mut A,
    place: StructPlace,
    tag: UnionTag,
    index: usize,
    contents: &[u8],
) -> Result<(), ErrorKind>
    requires aligned { IsAligned place }
    requires inside { IsStructPlace (A.view arena.old).words place }
    requires tag { IsInside place.bits 16 tag.offset }
    requires field { index < place.pointers }
    requires few { length contents.now < 2 ^ 29 }
    ensures grows { Grows (A.view arena.old).words (A.view arena.new).words }
    ensures member { MakesMember result
        (call_in place (A.view arena.old).words (A.view arena.new).words) tag index
        (Flat 2 contents.now) }
    ensures memory { Allocates result
        (call_on place index (A.view arena.old) (A.view arena.new))
        (words_for 2 (length contents.now)) }
{
    set_tag(arena, place, tag);
    fields::set_data(arena, place, index, contents)
}

/// Sets the member of a union that is a list of elements that aren't structs: writes its tag, and
/// makes pointer `index` lead to a new list of `count` elements, all zero or null, whose place it
/// returns. Preconditions: `place` is inside the message and aligned; `tag` is inside the data
/// section; `index` is below `place.pointers`; `size` isn't `InlineComposite`; `count` is below
/// 2^29.
///
/// Refusals, if no segment has room: `AllocationFailed` if memory runs out;
/// `MessageTooLarge(usize::MAX)` if the message already has 4,294,967,295 segments.
/// After a refusal the tag is written, and the pointer is null.
pub fn init_list_member<A: BuilderArena>(
    arena: &mut A,
    place: StructPlace,
    tag: UnionTag,
    index: usize,
    size: ElementSize,
    count: u32,
) -> Result<ListPlace, ErrorKind>
    requires aligned { IsAligned place }
    requires inside { IsStructPlace (A.view arena.old).words place }
    requires tag { IsInside place.bits 16 tag.offset }
    requires field { index < place.pointers }
    requires few { count < 2 ^ 29 }
    requires plain { size_number size ≤ 6 }
    ensures grows { Grows (A.view arena.old).words (A.view arena.new).words }
    ensures there { IfOk result (HasListPlace (A.view arena.new).words size) }
    ensures count { IfOk result (λ list. list.count ≡ count) }
    ensures made { (x : Holder) (ws : List ℕ) (ts : Trees)
        → HasStruct (A.view arena.old).words x place ws ts
        → IfOk result (λ list. HasList (A.view arena.new).words place.segment
        (place.pointers_at + index) list (zero_list (size_number size) count)) }
    ensures member { MakesMember result
        (call_in place (A.view arena.old).words (A.view arena.new).words) tag index
        (zero_list (size_number size) count) }
    ensures memory { Allocates result
        (call_on place index (A.view arena.old) (A.view arena.new))
        (list_words (size_number size) count) }
{
    set_tag(arena, place, tag);
    fields::init_list(arena, place, index, size, count)
}

/// Makes a pointer of a struct null, and zeroes what it held. Preconditions: `place` is inside the
/// message; `index` is below `place.pointers`.
pub fn clear<A: BuilderArena>(arena: &mut A, place: StructPlace, index: usize)
    requires inside { IsStructPlace (A.view arena.old).words place }
    requires field { index < place.pointers }
    ensures grows { Grows (A.view arena.old).words (A.view arena.new).words }
    ensures sets { SetsChild (λ after. after)
        (call_in place (A.view arena.old).words (A.view arena.new).words)
        index Null }
    ensures replaces { ReplacesChild (λ after. after)
        (call_in place (A.view arena.old).words (A.view arena.new).words)
        index Null }
    ensures memory { OnlyWrites (A.view arena.old) (A.view arena.new) }
{
    let at = place.pointers_at + index as u32;
    making::clear(arena, place.segment, at);
}

/// Makes a pointer of a struct the capability with index `capability` in the message's capability
/// table, and zeroes what it held. Preconditions: `place` is inside the message; `index` is below
/// `place.pointers`.
pub fn set_capability<A: BuilderArena>(
    arena: &mut A,
    place: StructPlace,
    index: usize,
    capability: u32,
)
    requires inside { IsStructPlace (A.view arena.old).words place }
    requires field { index < place.pointers }
    ensures grows { Grows (A.view arena.old).words (A.view arena.new).words }
    ensures sets { SetsChild (λ after. after)
        (call_in place (A.view arena.old).words (A.view arena.new).words)
        index (Capability capability) }
    ensures replaces { ReplacesChild (λ after. after)
        (call_in place (A.view arena.old).words (A.view arena.new).words)
        index (Capability capability) }
    ensures memory { OnlyWrites (A.view arena.old) (A.view arena.new) }
{
    let at = place.pointers_at + index as u32;
    initializing::set_capability(arena, place.segment, at, capability);
}

/// Sets the member of a union that is a capability: writes its tag, and makes pointer `index` the
/// capability with index `capability`. Zeroes what the pointer held. Preconditions: `place` is
/// inside the message and aligned; `tag` is inside the data section; `index` is below
/// `place.pointers`.
pub fn set_capability_member<A: BuilderArena>(
    arena: &mut A,
    place: StructPlace,
    tag: UnionTag,
    index: usize,
    capability: u32,
)
    requires aligned { IsAligned place }
    requires inside { IsStructPlace (A.view arena.old).words place }
    requires tag { IsInside place.bits 16 tag.offset }
    requires field { index < place.pointers }
    ensures grows { Grows (A.view arena.old).words (A.view arena.new).words }
    ensures sets { SetsChildMember (λ after. after)
        (call_in place (A.view arena.old).words (A.view arena.new).words) tag index
        (Capability capability) }
    ensures replaces { ReplacesChildMember (λ after. after)
        (call_in place (A.view arena.old).words (A.view arena.new).words) tag index
        (Capability capability) }
    ensures memory { OnlyWrites (A.view arena.old) (A.view arena.new) }
{
    set_tag(arena, place, tag);
    set_capability(arena, place, index, capability);
}
