//! Structs and lists of a message in the caller's buffer that are opened for writing.
ghost use Rattle.std.specs.Prelude.{◌≡◌, ◌≢◌, ◌<◌, ◌≤◌, ℕ, List, Option};
ghost use Rattle.capnp_words.specs.Sizes.{sized};
ghost use Rattle.capnp_format.specs.Tree.{Flat};
ghost use Rattle.capnp_allocation.specs.Stored.{IsStored};
ghost use Rattle.capnp_in_place.specs.Existing.{size_of};
ghost use Rattle.capnp_in_place.specs.declared.existing.ExistingList.{ExistingList};
ghost use Rattle.capnp_in_place.specs.declared.existing.ExistingStruct.{ExistingStruct};
ghost use Rattle.capnp_builders.specs.Held.{HasList};
ghost use Rattle.capnp_layout_c.specs.Buffers.{Gives, IsPointerIn, Refuses, buffer, placed_list, pointer_of, sized_at, words_in};
ghost use Rattle.capnp_layout_c.specs.BuildingNumbers.{bad_place};
ghost use Rattle.capnp_layout_c.specs.Builds.{OpensAt};
ghost use Rattle.capnp_layout_c.specs.Lists.{FindsElements, OpensListAt, listed_at, no_list};

use crate::building::numbers::{BAD_PLACE, number_of};
use crate::building::places::{
    ElementsAt, NO_ELEMENTS, StructAt, element_size, elements_of, has_pointer,
};
use capnp_in_place::{existing, opening};
use capnp_lent_arena::lent_arena::LentArena;
use capnp_words::wire_pointer::StructSize;

/// Opens the struct that pointer `index` leads to, and stores its place in `inner`. Null becomes a
/// new struct, all zero; a struct with a smaller section is moved to new words. `inner` is all 0
/// after a refusal, and the pointer leads to what it led to before.
#[unsafe(no_mangle)]
pub extern "C" fn capnp_layout_get_struct(
    bytes: &mut [u8],
    used: &mut u32,
    place: StructAt,
    index: u16,
    data_words: u16,
    pointers: u16,
    inner: &mut StructAt,
) -> u32
    ensures opens { IsPointerIn bytes.old used.old place index
        → Gives ExistingStruct result (buffer bytes.old used.old bytes.new used.new)
        (OpensAt (pointer_of place index) (sized data_words pointers) inner.new) }
    ensures misplaced { (IsPointerIn bytes.old used.old place index → ⊥)
        → Refuses result bad_place (buffer bytes.old used.old bytes.new used.new) }
    ensures none { result ≢ 0 → inner.new ≡ sized_at 0 0 0 }
{
    *inner = StructAt {
        at: 0,
        data_words: 0,
        pointers: 0,
    };
    if !has_pointer(bytes, *used, place, index) {
        return BAD_PLACE;
    }
    let size = StructSize {
        data_words,
        pointers,
    };
    let at = place.at + u32::from(place.data_words) + u32::from(index);
    let mut arena = LentArena::new(bytes, *used);
    let result = opening::open_struct(&mut arena, 0, at, size);
    *used = arena.used();
    match result {
        Ok(found) => {
            *inner = StructAt {
                at: found.start,
                data_words: found.size.data_words,
                pointers: found.size.pointers,
            };
            0
        }
        Err(kind) => number_of(kind),
    }
}

/// Opens the list that pointer `index` leads to, as a list of structs with sections of at least
/// these sizes, and stores its place in `to`. A list of smaller structs, of numbers or of pointers
/// is moved to new words. A null pointer stays null, and `to` is all 0 then, and after a refusal.
/// After a refusal the pointer leads to what it led to before.
#[unsafe(no_mangle)]
pub extern "C" fn capnp_layout_get_struct_list(
    bytes: &mut [u8],
    used: &mut u32,
    place: StructAt,
    index: u16,
    data_words: u16,
    pointers: u16,
    to: &mut ElementsAt,
) -> u32
    ensures opens { IsPointerIn bytes.old used.old place index
        → Gives (Option ExistingList) result (buffer bytes.old used.old bytes.new used.new)
        (OpensListAt (pointer_of place index) (sized data_words pointers) to.new) }
    ensures misplaced { (IsPointerIn bytes.old used.old place index → ⊥)
        → Refuses result bad_place (buffer bytes.old used.old bytes.new used.new) }
    ensures none { result ≢ 0 → to.new ≡ no_list }
{
    *to = NO_ELEMENTS;
    if !has_pointer(bytes, *used, place, index) {
        return BAD_PLACE;
    }
    let size = StructSize {
        data_words,
        pointers,
    };
    let at = place.at + u32::from(place.data_words) + u32::from(index);
    let mut arena = LentArena::new(bytes, *used);
    let result = opening::open_struct_list(&mut arena, 0, at, size);
    *used = arena.used();
    match result {
        Ok(found) => {
            *to = elements_of(found);
            0
        }
        Err(kind) => number_of(kind),
    }
}

/// Finds the list that pointer `index` leads to, of elements at least as wide as the element size
/// with number `size`, and stores its place in `to`, with the size that its elements have. Changes
/// nothing. Elements may be structs that begin with such an element. A null pointer stays null, and
/// `to` is all 0 then, and after a refusal. Also refuses a `size` above 6, as a bad place.
#[unsafe(no_mangle)]
pub extern "C" fn capnp_layout_get_list(
    bytes: &mut [u8],
    used: u32,
    place: StructAt,
    index: u16,
    size: u32,
    to: &mut ElementsAt,
) -> u32
    ensures finds { IsPointerIn bytes.old used place index → size ≤ 6
        → FindsElements result size (pointer_of place index) (words_in bytes.old used) to.new }
    ensures there { (n : ℕ) (ns : List ℕ)
        → IsStored (words_in bytes.old used) 0 (pointer_of place index) (Flat n ns) → result ≡ 0
        → HasList (words_in bytes.new used) 0 (pointer_of place index)
        (placed_list (size_of to.new.size) (listed_at to.new.at to.new.count)) (Flat n ns) }
    ensures misplaced { (IsPointerIn bytes.old used place index → ⊥) → result ≡ bad_place }
    ensures sizes { 6 < size → result ≡ bad_place }
    ensures kept { bytes.new ≡ bytes.old }
    ensures none { result ≢ 0 → to.new ≡ no_list }
{
    *to = NO_ELEMENTS;
    if !has_pointer(bytes, used, place, index) || size > 6 {
        return BAD_PLACE;
    }
    let at = place.at + u32::from(place.data_words) + u32::from(index);
    let expected = element_size(size);
    let arena = LentArena::new(bytes, used);
    let result = existing::get_list(&arena, 0, at, expected);
    match result {
        Ok(found) => {
            *to = elements_of(found);
            0
        }
        Err(kind) => number_of(kind),
    }
}
