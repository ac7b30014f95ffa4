//! Texts and data of a message in the caller's buffer. The pointer that is set is named by its word.
//!
//! Most calls set a short text or data at a null pointer. They are told apart first, so that the
//! code for them needs neither the arena in memory nor a call.
ghost use Rattle.std.specs.Prelude.{◌≡◌, ◌<◌, ◌≤◌, ◌+◌, ◌^◌, ◌++◌, ◌∷◌, [], ℕ, length};
ghost use Rattle.capnp_format.specs.Numbers.{words_for};
ghost use Rattle.capnp_format.specs.Tree.{Flat};
ghost use Rattle.capnp_layout_c.specs.Buffers.{Done, Gives, IsPointerIn, IsWordIn, Refuses, buffer, pointer_of};
ghost use Rattle.capnp_layout_c.specs.BuildingNumbers.{bad_place, too_large};
ghost use Rattle.capnp_layout_c.specs.Builds.{BuildsAt, MakesAt};
ghost use Rattle.capnp_layout_c.specs.declared.building.places.StructAt.{StructAt};

use crate::building::numbers::{BAD_PLACE, TOO_LARGE, number_of};
use crate::building::places::{has_null, has_word};
use capnp_in_place::bytes;
use capnp_lent_arena::lent_arena::LentArena;

/// Makes the pointer at word `pointer` of the message lead to a new text: the bytes of `text`, and a
/// zero byte, and zeroes what the pointer held. After a refusal with `NO_ROOM` the pointer is null.
/// Also refuses 2^29 - 1 bytes or more.
#[unsafe(no_mangle)]
pub extern "C" fn capnp_layout_set_text(
    bytes: &mut [u8],
    used: &mut u32,
    pointer: u64,
    text: &[u8],
) -> u32
    ensures builds { (place : StructAt) (index : ℕ) → IsPointerIn bytes.old used.old place index
        → pointer ≡ pointer_of place index → length text.now + 1 < 2 ^ 29
        → Gives Done result (buffer bytes.old used.old bytes.new used.new)
        (BuildsAt place index (Flat 2 (text.now ++ 0 ∷ []))
        (words_for 2 (length text.now + 1))) }
    ensures misplaced { (IsWordIn bytes.old used.old pointer → ⊥)
        → Refuses result bad_place (buffer bytes.old used.old bytes.new used.new) }
    ensures large { IsWordIn bytes.old used.old pointer → 2 ^ 29 ≤ (length text.now + 1)
        → Refuses result too_large (buffer bytes.old used.old bytes.new used.new) }
{
    if text.len() < 64 && has_null(bytes, *used, pointer) {
        make_text(bytes, used, pointer as u32, text)
    } else {
        set_any_text(bytes, used, pointer, text)
    }
}

/// Sets a text like `capnp_layout_set_text`.
#[inline(never)]
fn set_any_text(bytes: &mut [u8], used: &mut u32, pointer: u64, text: &[u8]) -> u32
    ensures makes { IsWordIn bytes.old used.old pointer → length text.now + 1 < 2 ^ 29
        → Gives Done result (buffer bytes.old used.old bytes.new used.new)
        (MakesAt pointer (Flat 2 (text.now ++ 0 ∷ [])) (words_for 2 (length text.now + 1))) }
    ensures misplaced { (IsWordIn bytes.old used.old pointer → ⊥)
        → Refuses result bad_place (buffer bytes.old used.old bytes.new used.new) }
    ensures large { IsWordIn bytes.old used.old pointer → 2 ^ 29 ≤ (length text.now + 1)
        → Refuses result too_large (buffer bytes.old used.old bytes.new used.new) }
{
    if !has_word(bytes, *used, pointer) {
        return BAD_PLACE;
    }
    if text.len() >= 0x1fff_ffff {
        return TOO_LARGE;
    }
    make_text(bytes, used, pointer as u32, text)
}

/// Makes the pointer at word `at` lead to a new text, and zeroes what it held.
#[inline(always)]
fn make_text(bytes: &mut [u8], used: &mut u32, at: u32, text: &[u8]) -> u32
    requires there { IsWordIn bytes.old used.old at }
    requires few { length text.now + 1 < 2 ^ 29 }
    ensures makes { Gives Done result (buffer bytes.old used.old bytes.new used.new)
        (MakesAt at (Flat 2 (text.now ++ 0 ∷ [])) (words_for 2 (length text.now + 1))) }
{
    let mut arena = LentArena::new(bytes, *used);
    let result = bytes::set_text(&mut arena, 0, at, text);
    *used = arena.used();
    match result {
        Ok(()) => 0,
        Err(kind) => number_of(kind),
    }
}

/// Makes the pointer at word `pointer` of the message lead to new data, the bytes of `contents`, and
/// zeroes what the pointer held. After a refusal with `NO_ROOM` the pointer is null. Also refuses
/// 2^29 bytes or more.
#[unsafe(no_mangle)]
pub extern "C" fn capnp_layout_set_data(
    bytes: &mut [u8],
    used: &mut u32,
    pointer: u64,
    contents: &[u8],
) -> u32
    ensures builds { (place : StructAt) (index : ℕ) → IsPointerIn bytes.old used.old place index
        → pointer ≡ pointer_of place index → length contents.now < 2 ^ 29
        → Gives Done result (buffer bytes.old used.old bytes.new used.new)
        (BuildsAt place index (Flat 2 contents.now)
        (words_for 2 (length contents.now))) }
    ensures misplaced { (IsWordIn bytes.old used.old pointer → ⊥)
        → Refuses result bad_place (buffer bytes.old used.old bytes.new used.new) }
    ensures large { IsWordIn bytes.old used.old pointer → 2 ^ 29 ≤ (length contents.now)
        → Refuses result too_large (buffer bytes.old used.old bytes.new used.new) }
{
    if contents.len() < 64 && has_null(bytes, *used, pointer) {
        make_data(bytes, used, pointer as u32, contents)
    } else {
        set_any_data(bytes, used, pointer, contents)
    }
}

/// Sets data like `capnp_layout_set_data`.
#[inline(never)]
fn set_any_data(bytes: &mut [u8], used: &mut u32, pointer: u64, contents: &[u8]) -> u32
    ensures makes { IsWordIn bytes.old used.old pointer → length contents.now < 2 ^ 29
        → Gives Done result (buffer bytes.old used.old bytes.new used.new)
        (MakesAt pointer (Flat 2 contents.now) (words_for 2 (length contents.now))) }
    ensures misplaced { (IsWordIn bytes.old used.old pointer → ⊥)
        → Refuses result bad_place (buffer bytes.old used.old bytes.new used.new) }
    ensures large { IsWordIn bytes.old used.old pointer → 2 ^ 29 ≤ (length contents.now)
        → Refuses result too_large (buffer bytes.old used.old bytes.new used.new) }
{
    if !has_word(bytes, *used, pointer) {
        return BAD_PLACE;
    }
    if contents.len() >= 0x2000_0000 {
        return TOO_LARGE;
    }
    make_data(bytes, used, pointer as u32, contents)
}

/// Makes the pointer at word `at` lead to new data, and zeroes what it held.
#[inline(always)]
fn make_data(bytes: &mut [u8], used: &mut u32, at: u32, contents: &[u8]) -> u32
    requires there { IsWordIn bytes.old used.old at }
    requires few { length contents.now < 2 ^ 29 }
    ensures makes { Gives Done result (buffer bytes.old used.old bytes.new used.new)
        (MakesAt at (Flat 2 contents.now) (words_for 2 (length contents.now))) }
{
    let mut arena = LentArena::new(bytes, *used);
    let result = bytes::set_data(&mut arena, 0, at, contents);
    *used = arena.used();
    match result {
        Ok(()) => 0,
        Err(kind) => number_of(kind),
    }
}
