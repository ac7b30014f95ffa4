//! Opens structs and lists of structs for writing, with at least the requested size (encoding
//! specification, "Structs" and "Lists").
ghost use Rattle.std.specs.Prelude.{◌-◌, ◌≡◌, ◌+◌, ◌^◌, ◌≤◌, IsOk, Some, IfOk, OnOk, IfErr, OnErr};
ghost use Rattle.capnp_format.specs.Forest.{target};
ghost use Rattle.capnp_format.specs.Segments.{Grows, IsPlace, word_at};
ghost use Rattle.capnp_format.specs.Tree.{Tree, Null};
ghost use Rattle.capnp_in_place.specs.Existing.{IsStructInside, struct_in};
ghost use Rattle.capnp_format.specs.Word.{struct_word};
ghost use Rattle.capnp_allocation.specs.Memory.{HasRoom, KeepsMemory, SpendsMemory, TakesWords, ComesAfter, start_of};
ghost use Rattle.capnp_allocation.specs.Stored.{IsStored};
ghost use Rattle.capnp_allocation.specs.Makes.{call_at};
ghost use Rattle.capnp_in_place.specs.Opening.{IsNoWider, LeadsToOne, OpensStruct, struct_opened, OpensExistingList, existing_struct};
ghost use Rattle.capnp_in_place.specs.Rooms.{RefusesToBecome, UsesMemory, WiderListFits, OpeningFits, WiderStructFits};
ghost use Rattle.capnp_in_place.specs.RowsRemade.{RefusesWider};
ghost use Rattle.capnp_in_place.specs.Widened.{IsAtLeast};

use crate::existing::{self, ExistingList, ExistingStruct};
use crate::lists::get_struct_list;
use crate::widening::{is_wide_enough, widen_existing};
use capnp_allocation::landing::pointer_word;
use capnp_allocation::making::make_struct;
use capnp_arena_traits::arena::{BuilderArena, WordPlace};
use capnp_words::error::ErrorKind;
use capnp_words::wire_pointer::StructSize;

/// Returns the struct that the pointer at `at` of segment `id` leads to, with sections at least as
/// large as in `size`. If the pointer is null, makes a new struct, all zero. If a section is too
/// small, moves the struct to new words. Otherwise the struct is unchanged. Precondition: word `at`
/// of segment `id` is allocated.
///
/// Refusals: `MessageContainsNonStructPointerWhereStructPointerWasExpected` if the pointer leads to
/// something else than a struct, and then nothing changes; the arena's `AllocationFailed` or
/// `MessageTooLarge`, and then the old struct, or the null pointer, is unchanged.
#[inline(always)]
pub fn open_struct<A: BuilderArena>(
    arena: &mut A,
    id: u32,
    at: u32,
    size: StructSize,
) -> Result<ExistingStruct, ErrorKind>
    requires place { IsPlace (A.view arena.old).words id at }
    ensures opened { (t : Tree) → IsStored (A.view arena.old).words id at t
        → OpensStruct LeadsToOne size result
        (call_at id at (A.view arena.old) (A.view arena.new)) t }
    ensures wide { IfOk result (IsAtLeast size) }
    ensures memory { UsesMemory result (A.view arena.old) (A.view arena.new) }
    ensures grows { Grows (A.view arena.old).words (A.view arena.new).words }
    ensures named { (word_at (A.view arena.old).words id at ≡ 0 → ⊥)
        → IfErr result (IsNoWider size (call_at id at (A.view arena.old) (A.view arena.new))) }
    ensures fits { OpeningFits (A.view arena.old) id at size → IsOk result }
    ensures taken { word_at (A.view arena.old).words id at ≡ 0
        → OnOk result
        (TakesWords (A.view arena.old) (A.view arena.new) id (size.data_words + size.pointers)) }
    ensures empty { word_at (A.view arena.old).words id at ≡ 0 → size.data_words + size.pointers ≡ 0
        → OnOk result (word_at (A.view arena.new).words id at ≡ struct_word (2 ^ 30 - 1) 0 0) }
    ensures behind { word_at (A.view arena.old).words id at ≡ 0
        → OnOk result (ComesAfter (A.view arena.old) id (size.data_words + size.pointers)
        (start_of (target (A.view arena.new).words id at))) }
    ensures refused { word_at (A.view arena.old).words id at ≡ 0
        → OnErr result ((A.view arena.new).words ≡ (A.view arena.old).words) }
{
    match existing::get_struct(arena, id, at) {
        Some(old) => {
            if is_wide_enough(old.size, size) {
                return Ok(old);
            }
            let start = WordPlace {
                segment: old.segment,
                at: old.start,
            };
            open_narrow_struct(arena, WordPlace { segment: id, at }, start, old.size, size)
        }
        None => {
            if !pointer_word(arena, id, at).is_null() {
                return Err(ErrorKind::MessageContainsNonStructPointerWhereStructPointerWasExpected);
            }
            new_struct(arena, id, at, size)
        }
    }
}

/// Makes the null pointer at `at` of segment `id` lead to a new struct of `size`, all zero.
#[inline(never)]
fn new_struct<A: BuilderArena>(
    arena: &mut A,
    id: u32,
    at: u32,
    size: StructSize,
) -> Result<ExistingStruct, ErrorKind>
    requires place { IsPlace (A.view arena.old).words id at }
    requires null { word_at (A.view arena.old).words id at ≡ 0 }
    ensures opened { OpensStruct LeadsToOne size result
        (call_at id at (A.view arena.old) (A.view arena.new)) Null }
    ensures wide { IfOk result (IsAtLeast size) }
    ensures memory { UsesMemory result (A.view arena.old) (A.view arena.new) }
    ensures grows { Grows (A.view arena.old).words (A.view arena.new).words }
    ensures fits { HasRoom (A.view arena.old) id (size.data_words + size.pointers) → IsOk result }
    ensures taken { OnOk result (TakesWords (A.view arena.old) (A.view arena.new) id
        (size.data_words + size.pointers)) }
    ensures empty { size.data_words + size.pointers ≡ 0
        → OnOk result (word_at (A.view arena.new).words id at ≡ struct_word (2 ^ 30 - 1) 0 0) }
    ensures behind { OnOk result (ComesAfter (A.view arena.old) id
        (size.data_words + size.pointers)
        (start_of (target (A.view arena.new).words id at))) }
    ensures refused { OnErr result ((A.view arena.new).words ≡ (A.view arena.old).words) }
{
    let start = make_struct(arena, id, at, size)?;
    Ok(ExistingStruct {
        segment: start.segment,
        start: start.at,
        size,
    })
}

/// Widens the struct at `start`, to which the pointer at `place` leads, like `widen_existing`.
/// `narrow` is the struct's old sections; at least one of them is smaller than in `size`. Takes
/// `start` and `narrow` instead of an `ExistingStruct`, so that they are passed in registers.
#[inline(never)]
fn open_narrow_struct<A: BuilderArena>(
    arena: &mut A,
    place: WordPlace,
    start: WordPlace,
    narrow: StructSize,
    size: StructSize,
) -> Result<ExistingStruct, ErrorKind>
    requires place { IsPlace (A.view arena.old).words place.segment place.at }
    requires inside { IsStructInside (A.view arena.old).words (existing_struct start narrow) }
    requires known { (t : Tree) → IsStored (A.view arena.old).words place.segment place.at t
        → struct_in (target (A.view arena.old).words place.segment place.at) t
        ≡ Some (existing_struct start narrow) }
    requires narrow { size.data_words ≤ narrow.data_words → size.pointers ≤ narrow.pointers → ⊥ }
    ensures opened { (t : Tree) → IsStored (A.view arena.old).words place.segment place.at t
        → struct_in (target (A.view arena.old).words place.segment place.at) t
        ≡ Some (existing_struct start narrow)
        → OpensStruct LeadsToOne size result
        (call_at place.segment place.at (A.view arena.old) (A.view arena.new)) t }
    ensures wide { IfOk result (IsAtLeast size) }
    ensures memory { UsesMemory result (A.view arena.old) (A.view arena.new) }
    ensures grows { Grows (A.view arena.old).words (A.view arena.new).words }
    ensures named { IfErr result (RefusesToBecome
        (IsStored (A.view arena.old).words place.segment place.at) (struct_opened size)
        (A.view arena.old) (A.view arena.new)) }
    ensures fits { WiderStructFits (A.view arena.old) place.segment place.at size → IsOk result }
{
    let old = ExistingStruct {
        segment: start.segment,
        start: start.at,
        size: narrow,
    };
    widen_existing(arena, place.segment, place.at, old, size)
}

/// Returns the list that the pointer at `at` of segment `id` leads to, as a list of structs with
/// sections at least as large as in `size`. If the pointer is null, returns `None` and changes
/// nothing. A list of structs that are large enough is unchanged; any other list is turned into a
/// list of structs in new words.
///
/// Precondition: word `at` of segment `id` is allocated.
///
/// Refusals that change nothing: `ExistingPointerIsNotAList` if the pointer leads to something else
/// than a list; `FoundBitListWhereStructListWasExpected` for a list of bits; `MessageTooLarge(n)`,
/// where n is the number of words of the new elements, if n is 2^29 or more. Other refusals are the
/// arena's `AllocationFailed` or `MessageTooLarge`; after these, the old list is unchanged.
pub fn open_struct_list<A: BuilderArena>(
    arena: &mut A,
    id: u32,
    at: u32,
    size: StructSize,
) -> Result<Option<ExistingList>, ErrorKind>
    requires place { IsPlace (A.view arena.old).words id at }
    ensures opened { (t : Tree) → IsStored (A.view arena.old).words id at t
        → OpensExistingList size result (call_at id at (A.view arena.old) (A.view arena.new)) t }
    ensures memory { UsesMemory result (A.view arena.old) (A.view arena.new) }
    ensures grows { Grows (A.view arena.old).words (A.view arena.new).words }
    ensures named { IfErr result (RefusesWider (IsStored (A.view arena.old).words id at) size
        (A.view arena.old) (A.view arena.new)) }
    ensures fits { WiderListFits (IsStored (A.view arena.old).words id at)
        (A.view arena.old) id at size → IsOk result }
{
    get_struct_list(arena, id, at, size)
}
