//! Structs and lists that are made in the caller's buffer.
ghost use Rattle.std.specs.Prelude.{◌≡◌, ◌≢◌, ◌<◌, ◌≤◌, ◌+◌, ◌*◌, ◌^◌, ◌∷◌, [], ℕ, List, length};
ghost use Rattle.capnp_format.specs.Tree.{Tree, Trees};
ghost use Rattle.capnp_words.specs.Sizes.{sized};
ghost use Rattle.capnp_allocation.specs.Made.{list_words, nulls, words_of_zero, zero_elements, zero_list, zero_struct, zero_structs};
ghost use Rattle.capnp_allocation.specs.Stored.{IsStored};
ghost use Rattle.capnp_in_place.specs.Existing.{size_of};
ghost use Rattle.capnp_builders.specs.Held.{HasList, HasStruct, Holder, element_of, pointer_to};
ghost use Rattle.capnp_readers.specs.declared.readers.list_reader.ListPlace.{ListPlace};
ghost use Rattle.capnp_readers.specs.declared.readers.struct_reader.StructPlace.{StructPlace};
ghost use Rattle.capnp_numbers.specs.Numbers.{no_room_number};
ghost use Rattle.capnp_layout_c.specs.Buffers.{Gives, IsPointerIn, IsStructIn, Refuses, buffer, pointer_of, sized_at, placed_list, placed_struct, words_in};
ghost use Rattle.capnp_layout_c.specs.BuildingNumbers.{bad_place, too_large};
ghost use Rattle.capnp_layout_c.specs.Builds.{BuildsAt, BuildsRoot};
ghost use Rattle.capnp_layout_c.specs.Lists.{listed_at};

use crate::building::near::put_structs;
use crate::building::numbers::{BAD_PLACE, TOO_LARGE, number_of};
use crate::building::places::{
    ROOT, StructAt, element_size, has_null_and_room, has_pointer, has_struct, word_of,
};
use capnp_builders::fields;
use capnp_lent_arena::lent_arena::LentArena;
use capnp_numbers::NO_ROOM;
use capnp_words::wire_pointer::StructSize;
use capnp_words::words;

/// Starts a message: allocates its root pointer, which is null. Refused with `NO_ROOM`, with
/// nothing changed, if the buffer has no word.
#[unsafe(no_mangle)]
pub extern "C" fn capnp_layout_start(bytes: &mut [u8], used: &mut u32) -> u32
    ensures granted { 8 ≤ length bytes.old → result ≡ 0 }
    ensures root { result ≡ 0 → words_in bytes.new used.new ≡ (0 ∷ []) ∷ [] }
    ensures one { result ≡ 0 → used.new ≡ 1 }
    ensures refused { result ≢ 0
        → Refuses result no_room_number (buffer bytes.old used.old bytes.new used.new) }
{
    if bytes.len() < 8 {
        return NO_ROOM;
    }
    words::zero_words(bytes, 0, 1);
    *used = 1;
    0
}

/// Makes the root pointer lead to a new struct, all zero, zeroes what it held, and stores in `at`
/// the word where the struct starts; 0 after a refusal. After `NO_ROOM` the pointer is null.
#[unsafe(no_mangle)]
pub extern "C" fn capnp_layout_init_root(
    bytes: &mut [u8],
    used: &mut u32,
    data_words: u16,
    pointers: u16,
    at: &mut u32,
) -> u32
    ensures builds { IsStructIn bytes.old used.old (sized_at 0 0 1)
        → Gives StructPlace result (buffer bytes.old used.old bytes.new used.new)
        (BuildsRoot (zero_struct (sized data_words pointers)) (data_words + pointers)) }
    ensures made { (t : Tree) → IsStored (words_in bytes.old used.old) 0 0 t → result ≡ 0
        → HasStruct (words_in bytes.new used.new) (pointer_to 0 0)
        (placed_struct (sized_at at.new data_words pointers))
        (words_of_zero data_words) (nulls pointers) }
    ensures misplaced { (IsStructIn bytes.old used.old (sized_at 0 0 1) → ⊥)
        → Refuses result bad_place (buffer bytes.old used.old bytes.new used.new) }
    ensures none { result ≢ 0 → at.new ≡ 0 }
{
    *at = 0;
    if !has_struct(bytes, *used, ROOT) {
        return BAD_PLACE;
    }
    let size = StructSize {
        data_words,
        pointers,
    };
    let mut arena = LentArena::new(bytes, *used);
    let result = fields::init_root(&mut arena, size);
    *used = arena.used();
    match result {
        Ok(made) => {
            *at = word_of(made.byte);
            0
        }
        Err(kind) => number_of(kind),
    }
}

/// Makes pointer `index` of a struct lead to a new struct, all zero, zeroes what the pointer held,
/// and stores in `inner` the word where the new struct starts; 0 after a refusal. After `NO_ROOM`
/// the pointer is null.
#[unsafe(no_mangle)]
pub extern "C" fn capnp_layout_init_struct(
    bytes: &mut [u8],
    used: &mut u32,
    place: StructAt,
    index: u16,
    data_words: u16,
    pointers: u16,
    inner: &mut u32,
) -> u32
    ensures builds { IsPointerIn bytes.old used.old place index
        → Gives StructPlace result (buffer bytes.old used.old bytes.new used.new)
        (BuildsAt place index (zero_struct (sized data_words pointers)) (data_words + pointers)) }
    ensures made { (x : Holder) (ws : List ℕ) (ts : Trees)
        → HasStruct (words_in bytes.old used.old) x (placed_struct place) ws ts → result ≡ 0
        → HasStruct (words_in bytes.new used.new) (pointer_to 0 (pointer_of place index))
        (placed_struct (sized_at inner.new data_words pointers))
        (words_of_zero data_words) (nulls pointers) }
    ensures misplaced { (IsPointerIn bytes.old used.old place index → ⊥)
        → Refuses result bad_place (buffer bytes.old used.old bytes.new used.new) }
    ensures none { result ≢ 0 → inner.new ≡ 0 }
{
    *inner = 0;
    if !has_pointer(bytes, *used, place, index) {
        return BAD_PLACE;
    }
    let size = StructSize {
        data_words,
        pointers,
    };
    let mut arena = LentArena::new(bytes, *used);
    let result = fields::init_struct(&mut arena, place.place(), index as usize, size);
    *used = arena.used();
    match result {
        Ok(made) => {
            *inner = word_of(made.byte);
            0
        }
        Err(kind) => number_of(kind),
    }
}

/// Makes pointer `index` of a struct lead to a new list of `count` structs, all zero, zeroes what
/// the pointer held, and stores in `first` the word where the first element starts; 0 after a
/// refusal. Element i starts at `first + i * (data_words + pointers)`. After `NO_ROOM` the pointer
/// is null. Also refuses 2^29 structs or more, and structs of 2^29 words or more together.
#[unsafe(no_mangle)]
pub extern "C" fn capnp_layout_init_struct_list(
    bytes: &mut [u8],
    used: &mut u32,
    place: StructAt,
    index: u16,
    count: u32,
    data_words: u16,
    pointers: u16,
    first: &mut u32,
) -> u32
    ensures builds { IsPointerIn bytes.old used.old place index → count < 2 ^ 29
        → count * (data_words + pointers) < 2 ^ 29
        → Gives ListPlace result (buffer bytes.old used.old bytes.new used.new)
        (BuildsAt place index (zero_structs count (sized data_words pointers))
        (1 + count * (data_words + pointers))) }
    ensures made { (x : Holder) (ws : List ℕ) (ts : Trees) (i : ℕ) → i < count
        → HasStruct (words_in bytes.old used.old) x (placed_struct place) ws ts → result ≡ 0
        → HasStruct (words_in bytes.new used.new)
        (element_of 0 (pointer_of place index) (sized data_words pointers)
        (zero_elements data_words pointers count) i)
        (placed_struct (sized_at (first.new + i * (data_words + pointers)) data_words pointers))
        (words_of_zero data_words) (nulls pointers) }
    ensures misplaced { (IsPointerIn bytes.old used.old place index → ⊥)
        → Refuses result bad_place (buffer bytes.old used.old bytes.new used.new) }
    ensures many { IsPointerIn bytes.old used.old place index → 2 ^ 29 ≤ count
        → Refuses result too_large (buffer bytes.old used.old bytes.new used.new) }
    ensures large { IsPointerIn bytes.old used.old place index
        → 2 ^ 29 ≤ count * (data_words + pointers)
        → Refuses result too_large (buffer bytes.old used.old bytes.new used.new) }
    ensures none { result ≢ 0 → first.new ≡ 0 }
{
    if has_pointer(bytes, *used, place, index) {
        let at = place.at + u32::from(place.data_words) + u32::from(index);
        let words = u64::from(count) * (u64::from(data_words) + u64::from(pointers));
        if count < 0x2000_0000 && has_null_and_room(bytes, *used, at, 1 + words) {
            let size = StructSize {
                data_words,
                pointers,
            };
            let mut arena = LentArena::new(bytes, *used);
            let start = put_structs(&mut arena, 0, at, count, size);
            *used = arena.used();
            *first = start.at + 1;
            return 0;
        }
    }
    init_any_struct_list(
        bytes, used, place, index, count, data_words, pointers, first,
    )
}

/// Makes the list like `capnp_layout_init_struct_list`.
#[inline(never)]
fn init_any_struct_list(
    bytes: &mut [u8],
    used: &mut u32,
    place: StructAt,
    index: u16,
    count: u32,
    data_words: u16,
    pointers: u16,
    first: &mut u32,
) -> u32
    ensures builds { IsPointerIn bytes.old used.old place index → count < 2 ^ 29
        → count * (data_words + pointers) < 2 ^ 29
        → Gives ListPlace result (buffer bytes.old used.old bytes.new used.new)
        (BuildsAt place index (zero_structs count (sized data_words pointers))
        (1 + count * (data_words + pointers))) }
    ensures made { (x : Holder) (ws : List ℕ) (ts : Trees) (i : ℕ) → i < count
        → HasStruct (words_in bytes.old used.old) x (placed_struct place) ws ts → result ≡ 0
        → HasStruct (words_in bytes.new used.new)
        (element_of 0 (pointer_of place index) (sized data_words pointers)
        (zero_elements data_words pointers count) i)
        (placed_struct (sized_at (first.new + i * (data_words + pointers)) data_words pointers))
        (words_of_zero data_words) (nulls pointers) }
    ensures misplaced { (IsPointerIn bytes.old used.old place index → ⊥)
        → Refuses result bad_place (buffer bytes.old used.old bytes.new used.new) }
    ensures many { IsPointerIn bytes.old used.old place index → 2 ^ 29 ≤ count
        → Refuses result too_large (buffer bytes.old used.old bytes.new used.new) }
    ensures large { IsPointerIn bytes.old used.old place index
        → 2 ^ 29 ≤ count * (data_words + pointers)
        → Refuses result too_large (buffer bytes.old used.old bytes.new used.new) }
    ensures none { result ≢ 0 → first.new ≡ 0 }
{
    *first = 0;
    if !has_pointer(bytes, *used, place, index) {
        return BAD_PLACE;
    }
    let words = u64::from(count) * (u64::from(data_words) + u64::from(pointers));
    if count >= 0x2000_0000 || words >= 0x2000_0000 {
        return TOO_LARGE;
    }
    let size = StructSize {
        data_words,
        pointers,
    };
    let mut arena = LentArena::new(bytes, *used);
    let result = fields::init_struct_list(&mut arena, place.place(), index as usize, count, size);
    *used = arena.used();
    match result {
        Ok(made) => {
            *first = word_of(made.byte);
            0
        }
        Err(kind) => number_of(kind),
    }
}

/// Makes pointer `index` of a struct lead to a new list of `count` elements, all zero or null, of
/// the element size with number `size`, zeroes what the pointer held, and stores in `first` the
/// word where the list starts; 0 after a refusal. After `NO_ROOM` the pointer is null. Also refuses
/// a `size` above 6, as a bad place, and 2^29 elements or more.
#[unsafe(no_mangle)]
pub extern "C" fn capnp_layout_init_list(
    bytes: &mut [u8],
    used: &mut u32,
    place: StructAt,
    index: u16,
    size: u32,
    count: u32,
    first: &mut u32,
) -> u32
    ensures builds { IsPointerIn bytes.old used.old place index → size ≤ 6 → count < 2 ^ 29
        → Gives ListPlace result (buffer bytes.old used.old bytes.new used.new)
        (BuildsAt place index (zero_list size count) (list_words size count)) }
    ensures made { (x : Holder) (ws : List ℕ) (ts : Trees)
        → HasStruct (words_in bytes.old used.old) x (placed_struct place) ws ts → result ≡ 0
        → HasList (words_in bytes.new used.new) 0 (pointer_of place index)
        (placed_list (size_of size) (listed_at first.new count)) (zero_list size count) }
    ensures misplaced { (IsPointerIn bytes.old used.old place index → ⊥)
        → Refuses result bad_place (buffer bytes.old used.old bytes.new used.new) }
    ensures sizes { 6 < size
        → Refuses result bad_place (buffer bytes.old used.old bytes.new used.new) }
    ensures many { IsPointerIn bytes.old used.old place index → size ≤ 6 → 2 ^ 29 ≤ count
        → Refuses result too_large (buffer bytes.old used.old bytes.new used.new) }
    ensures none { result ≢ 0 → first.new ≡ 0 }
{
    *first = 0;
    if !has_pointer(bytes, *used, place, index) || size > 6 {
        return BAD_PLACE;
    }
    if count >= 0x2000_0000 {
        return TOO_LARGE;
    }
    let size = element_size(size);
    let mut arena = LentArena::new(bytes, *used);
    let result = fields::init_list(&mut arena, place.place(), index as usize, size, count);
    *used = arena.used();
    match result {
        Ok(made) => {
            *first = word_of(made.byte);
            0
        }
        Err(kind) => number_of(kind),
    }
}
