//! Elements of lists of numbers and bits of a message in the caller's buffer. No call needs room,
//! and a refusal changes nothing.
ghost use Rattle.std.specs.Prelude.{◌≡◌, ◌≢◌, ◌↔◌, cond};
ghost use Rattle.capnp_words.specs.declared.wire_pointer.ElementSize.TheVariants.{Bit, Byte, TwoBytes, FourBytes, EightBytes};
ghost use Rattle.capnp_layout_c.specs.Buffers.{IsElementIn, Refuses, buffer, words_in};
ghost use Rattle.capnp_layout_c.specs.BuildingNumbers.{bad_place};
ghost use Rattle.capnp_layout_c.specs.Builds.{WritesElement};

use crate::building::numbers::BAD_PLACE;
use crate::building::places::{ListAt, has_element, list_place};
use capnp_builders::fields;
use capnp_lent_arena::lent_arena::LentArena;
use capnp_words::wire_pointer::ElementSize;
use typed_building::list;

/// Writes element `index` of a list of numbers of 1 byte. Refused if the list isn't in the message,
/// or has no such element.
#[unsafe(no_mangle)]
pub extern "C" fn capnp_layout_set_element_u8(
    bytes: &mut [u8],
    used: u32,
    list: ListAt,
    index: u32,
    value: u8,
) -> u32
    ensures exactly { (result ≡ 0) ↔ IsElementIn bytes.old used Byte list index }
    ensures sets { result ≡ 0 → WritesElement (words_in bytes.old used) (words_in bytes.new used)
        Byte list index value }
    ensures refused { result ≢ 0
        → Refuses result bad_place (buffer bytes.old used bytes.new used) }
{
    let words = (u64::from(list.count) * 8 + 63) / 64;
    if !has_element(bytes, used, list, words, index) {
        return BAD_PLACE;
    }
    let mut arena = LentArena::new(bytes, used);
    let elements = list_place(list, ElementSize::Byte);
    fields::set_element(&mut arena, elements, index, value);
    0
}

/// Writes element `index` of a list of numbers of 2 bytes. Refused if the list isn't in the
/// message, or has no such element.
#[unsafe(no_mangle)]
pub extern "C" fn capnp_layout_set_element_u16(
    bytes: &mut [u8],
    used: u32,
    list: ListAt,
    index: u32,
    value: u16,
) -> u32
    ensures exactly { (result ≡ 0) ↔ IsElementIn bytes.old used TwoBytes list index }
    ensures sets { result ≡ 0 → WritesElement (words_in bytes.old used) (words_in bytes.new used)
        TwoBytes list index value }
    ensures refused { result ≢ 0
        → Refuses result bad_place (buffer bytes.old used bytes.new used) }
{
    let words = (u64::from(list.count) * 16 + 63) / 64;
    if !has_element(bytes, used, list, words, index) {
        return BAD_PLACE;
    }
    let mut arena = LentArena::new(bytes, used);
    let elements = list_place(list, ElementSize::TwoBytes);
    fields::set_element(&mut arena, elements, index, value);
    0
}

/// Writes element `index` of a list of numbers of 4 bytes. Refused if the list isn't in the
/// message, or has no such element.
#[unsafe(no_mangle)]
pub extern "C" fn capnp_layout_set_element_u32(
    bytes: &mut [u8],
    used: u32,
    list: ListAt,
    index: u32,
    value: u32,
) -> u32
    ensures exactly { (result ≡ 0) ↔ IsElementIn bytes.old used FourBytes list index }
    ensures sets { result ≡ 0 → WritesElement (words_in bytes.old used) (words_in bytes.new used)
        FourBytes list index value }
    ensures refused { result ≢ 0
        → Refuses result bad_place (buffer bytes.old used bytes.new used) }
{
    let words = (u64::from(list.count) * 32 + 63) / 64;
    if !has_element(bytes, used, list, words, index) {
        return BAD_PLACE;
    }
    let mut arena = LentArena::new(bytes, used);
    let elements = list_place(list, ElementSize::FourBytes);
    fields::set_element(&mut arena, elements, index, value);
    0
}

/// Writes element `index` of a list of numbers of 8 bytes. Refused if the list isn't in the
/// message, or has no such element.
#[unsafe(no_mangle)]
pub extern "C" fn capnp_layout_set_element_u64(
    bytes: &mut [u8],
    used: u32,
    list: ListAt,
    index: u32,
    value: u64,
) -> u32
    ensures exactly { (result ≡ 0) ↔ IsElementIn bytes.old used EightBytes list index }
    ensures sets { result ≡ 0 → WritesElement (words_in bytes.old used) (words_in bytes.new used)
        EightBytes list index value }
    ensures refused { result ≢ 0
        → Refuses result bad_place (buffer bytes.old used bytes.new used) }
{
    let words = u64::from(list.count);
    if !has_element(bytes, used, list, words, index) {
        return BAD_PLACE;
    }
    let mut arena = LentArena::new(bytes, used);
    let elements = list_place(list, ElementSize::EightBytes);
    fields::set_element(&mut arena, elements, index, value);
    0
}

/// Writes element `index` of a list of bits. Refused if the list isn't in the message, or has no
/// such element.
#[unsafe(no_mangle)]
pub extern "C" fn capnp_layout_set_element_bool(
    bytes: &mut [u8],
    used: u32,
    list: ListAt,
    index: u32,
    value: bool,
) -> u32
    ensures exactly { (result ≡ 0) ↔ IsElementIn bytes.old used Bit list index }
    ensures sets { result ≡ 0 → WritesElement (words_in bytes.old used) (words_in bytes.new used)
        Bit list index (cond value 1 0) }
    ensures refused { result ≢ 0
        → Refuses result bad_place (buffer bytes.old used bytes.new used) }
{
    let words = (u64::from(list.count) + 63) / 64;
    if !has_element(bytes, used, list, words, index) {
        return BAD_PLACE;
    }
    let mut arena = LentArena::new(bytes, used);
    let elements = list_place(list, ElementSize::Bit);
    list::set_bool(&mut arena, elements, index, value);
    0
}
