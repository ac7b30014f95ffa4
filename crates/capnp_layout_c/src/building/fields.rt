//! Fields of structs of a message in the caller's buffer. No call needs room, and a refusal changes
//! nothing.
ghost use Rattle.std.specs.Prelude.{◌≡◌, ◌≢◌, ◌↔◌, ◌<◌, ◌*◌, cond};
ghost use Rattle.capnp_format.specs.Tree.{Capability, Null};
ghost use Rattle.capnp_builders.specs.Places.{field, number_field};
ghost use Rattle.capnp_readers.specs.Sections.{IsInside};
ghost use Rattle.capnp_layout_c.specs.Buffers.{IsPointerIn, IsStructIn, Refuses, buffer};
ghost use Rattle.capnp_layout_c.specs.BuildingNumbers.{bad_place};
ghost use Rattle.capnp_layout_c.specs.Builds.{PutsIn, WritesIn, call_of};

use crate::building::numbers::BAD_PLACE;
use crate::building::places::{StructAt, has_pointer, has_struct};
use capnp_builders::fields;
use capnp_lent_arena::lent_arena::LentArena;
use typed_building::value;

/// Writes bit `offset` of the data section of a struct. Refused if the bit isn't in it.
#[unsafe(no_mangle)]
pub extern "C" fn capnp_layout_set_bool(
    bytes: &mut [u8],
    used: u32,
    place: StructAt,
    offset: u32,
    value: bool,
) -> u32
    ensures exactly { (result ≡ 0)
        ↔ (IsStructIn bytes.old used place × (offset < 64 * place.data_words)) }
    ensures sets { result ≡ 0 → WritesIn (call_of (buffer bytes.old used bytes.new used) place)
        (field offset 1 (cond value 1 0)) }
    ensures refused { result ≢ 0
        → Refuses result bad_place (buffer bytes.old used bytes.new used) }
{
    if !has_struct(bytes, used, place) || offset >= 64 * u32::from(place.data_words) {
        return BAD_PLACE;
    }
    let mut arena = LentArena::new(bytes, used);
    fields::set_bool(&mut arena, place.place(), offset as usize, value);
    0
}

/// Writes a number of 1 byte into the data section of a struct, at `offset`, counted in such
/// numbers. Refused if the number isn't in it.
#[unsafe(no_mangle)]
pub extern "C" fn capnp_layout_set_u8(
    bytes: &mut [u8],
    used: u32,
    place: StructAt,
    offset: u32,
    value: u8,
) -> u32
    ensures exactly { (result ≡ 0) ↔ (IsStructIn bytes.old used place
        × IsInside (64 * place.data_words) 8 offset) }
    ensures sets { result ≡ 0 → WritesIn (call_of (buffer bytes.old used bytes.new used) place)
        (number_field 1 offset value) }
    ensures refused { result ≢ 0
        → Refuses result bad_place (buffer bytes.old used bytes.new used) }
{
    if !has_struct(bytes, used, place) || offset >= 8 * u32::from(place.data_words) {
        return BAD_PLACE;
    }
    let mut arena = LentArena::new(bytes, used);
    fields::set_number(&mut arena, place.place(), offset as usize, value);
    0
}

/// Writes a number of 2 bytes into the data section of a struct, at `offset`, counted in such
/// numbers. Refused if the number isn't in it.
#[unsafe(no_mangle)]
pub extern "C" fn capnp_layout_set_u16(
    bytes: &mut [u8],
    used: u32,
    place: StructAt,
    offset: u32,
    value: u16,
) -> u32
    ensures exactly { (result ≡ 0) ↔ (IsStructIn bytes.old used place
        × IsInside (64 * place.data_words) 16 offset) }
    ensures sets { result ≡ 0 → WritesIn (call_of (buffer bytes.old used bytes.new used) place)
        (number_field 2 offset value) }
    ensures refused { result ≢ 0
        → Refuses result bad_place (buffer bytes.old used bytes.new used) }
{
    if !has_struct(bytes, used, place) || offset >= 4 * u32::from(place.data_words) {
        return BAD_PLACE;
    }
    let mut arena = LentArena::new(bytes, used);
    fields::set_number(&mut arena, place.place(), offset as usize, value);
    0
}

/// Writes a number of 4 bytes into the data section of a struct, at `offset`, counted in such
/// numbers. Refused if the number isn't in it.
#[unsafe(no_mangle)]
pub extern "C" fn capnp_layout_set_u32(
    bytes: &mut [u8],
    used: u32,
    place: StructAt,
    offset: u32,
    value: u32,
) -> u32
    ensures exactly { (result ≡ 0) ↔ (IsStructIn bytes.old used place
        × IsInside (64 * place.data_words) 32 offset) }
    ensures sets { result ≡ 0 → WritesIn (call_of (buffer bytes.old used bytes.new used) place)
        (number_field 4 offset value) }
    ensures refused { result ≢ 0
        → Refuses result bad_place (buffer bytes.old used bytes.new used) }
{
    if !has_struct(bytes, used, place) || offset >= 2 * u32::from(place.data_words) {
        return BAD_PLACE;
    }
    let mut arena = LentArena::new(bytes, used);
    fields::set_number(&mut arena, place.place(), offset as usize, value);
    0
}

/// Writes a number of 8 bytes into the data section of a struct, at `offset`, counted in such
/// numbers. Refused if the number isn't in it.
#[unsafe(no_mangle)]
pub extern "C" fn capnp_layout_set_u64(
    bytes: &mut [u8],
    used: u32,
    place: StructAt,
    offset: u32,
    value: u64,
) -> u32
    ensures exactly { (result ≡ 0) ↔ (IsStructIn bytes.old used place
        × IsInside (64 * place.data_words) 64 offset) }
    ensures sets { result ≡ 0 → WritesIn (call_of (buffer bytes.old used bytes.new used) place)
        (number_field 8 offset value) }
    ensures refused { result ≢ 0
        → Refuses result bad_place (buffer bytes.old used bytes.new used) }
{
    if !has_struct(bytes, used, place) || offset >= u32::from(place.data_words) {
        return BAD_PLACE;
    }
    let mut arena = LentArena::new(bytes, used);
    fields::set_number(&mut arena, place.place(), offset as usize, value);
    0
}

/// Makes pointer `index` of a struct null, and zeroes what it held.
/// Refused if the pointer isn't in the message.
#[unsafe(no_mangle)]
pub extern "C" fn capnp_layout_clear(
    bytes: &mut [u8],
    used: u32,
    place: StructAt,
    index: u16,
) -> u32
    ensures exactly { (result ≡ 0) ↔ IsPointerIn bytes.old used place index }
    ensures sets { result ≡ 0 → PutsIn (call_of (buffer bytes.old used bytes.new used) place) index
        Null }
    ensures refused { result ≢ 0
        → Refuses result bad_place (buffer bytes.old used bytes.new used) }
{
    if !has_pointer(bytes, used, place, index) {
        return BAD_PLACE;
    }
    let mut arena = LentArena::new(bytes, used);
    value::clear(&mut arena, place.place(), index as usize);
    0
}

/// Makes pointer `index` of a struct the capability with index `capability` in the message's
/// capability table, and zeroes what the pointer held.
/// Refused if the pointer isn't in the message.
#[unsafe(no_mangle)]
pub extern "C" fn capnp_layout_set_capability(
    bytes: &mut [u8],
    used: u32,
    place: StructAt,
    index: u16,
    capability: u32,
) -> u32
    ensures exactly { (result ≡ 0) ↔ IsPointerIn bytes.old used place index }
    ensures sets { result ≡ 0 → PutsIn (call_of (buffer bytes.old used bytes.new used) place) index
        (Capability capability) }
    ensures refused { result ≢ 0
        → Refuses result bad_place (buffer bytes.old used bytes.new used) }
{
    if !has_pointer(bytes, used, place, index) {
        return BAD_PLACE;
    }
    let mut arena = LentArena::new(bytes, used);
    value::set_capability(&mut arena, place.place(), index as usize, capability);
    0
}
