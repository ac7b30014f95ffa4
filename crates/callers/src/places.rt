//! Functions that fill structs by calls at their places, for any arena. They are proved from the
//! contracts of these calls only.
ghost use Rattle.std.specs.Prelude.{◌≡◌, ◌≤◌, ◌<◌, ◌+◌, ◌*◌, ◌^◌, ◌++◌, ◌∷◌, [], ℕ, List, OnOk, cond, length, slice_set};
ghost use Rattle.capnp_format.specs.Segments.{Grows};
ghost use Rattle.capnp_format.specs.Tree.{Flat, Trees};
ghost use Rattle.capnp_format.specs.Fields.{put_field};
ghost use Rattle.capnp_allocation.specs.Made.{words_of_zero};
ghost use Rattle.capnp_format.specs.Path.{put_tree};
ghost use Rattle.capnp_readers.specs.Readers.{IsStructPlace};
ghost use Rattle.capnp_builders.specs.Held.{HasStruct, Holder};
ghost use Rattle.capnp_builders.specs.Places.{IsAligned};

use capnp_arena::arena::BuilderArena;
use capnp_builders::fields;
use capnp_readers::readers::StructPlace;
use capnp_words::error::ErrorKind;
use capnp_words::wire_pointer::{ElementSize, StructSize};

/// Sets three fields of a struct, a text, and an element of a new list of numbers. After a success
/// the struct has these fields and these two children, and is otherwise as before. This holds for
/// each struct, and for each pointer that may lead to it.
pub fn fill_struct<A: BuilderArena>(
    arena: &mut A,
    place: StructPlace,
    id: u32,
    is_new: bool,
    name: &[u8],
    count: u32,
    score: u16,
) -> Result<(), ErrorKind>
    requires aligned { IsAligned place }
    requires inside { IsStructPlace (A.view arena.old).words place }
    requires wide { 64 ≤ place.bits }
    requires many { 2 ≤ place.pointers }
    requires few { length name.now + 1 < 2 ^ 29 }
    requires some { 0 < count }
    requires count { count < 2 ^ 29 }
    ensures { (x : Holder) (ws : List ℕ) (ts : Trees)
        → HasStruct (A.view arena.old).words x place ws ts
        → OnOk result (HasStruct (A.view arena.new).words x place
        (put_field (put_field (put_field ws 0 32 id) 32 1 (cond is_new 1 0)) 48 16 score)
        (put_tree (put_tree ts 0 (Flat 2 (name.now ++ 0 ∷ []))) 1
        (Flat 3 (slice_set (words_of_zero count) 0 score)))) }
{
    fields::set_number(arena, place, 0, id);
    fields::set_bool(arena, place, 32, is_new);
    fields::set_number(arena, place, 3, score);
    fields::set_text(arena, place, 0, name)?;
    let scores = fields::init_list(arena, place, 1, ElementSize::TwoBytes, count)?;
    fields::set_element(arena, scores, 0, score);
    Ok(())
}

/// Makes two children of a struct, and then writes a number into each. Each call leaves every place
/// of the message there, so that the places of both children can be used in turn.
pub fn init_two_children<A: BuilderArena>(
    arena: &mut A,
    place: StructPlace,
    first: u64,
    second: u64,
) -> Result<(), ErrorKind>
    requires inside { IsStructPlace (A.view arena.old).words place }
    requires many { 2 ≤ place.pointers }
    ensures { Grows (A.view arena.old).words (A.view arena.new).words }
{
    let size = StructSize {
        data_words: 1,
        pointers: 0,
    };
    let one = fields::init_struct(arena, place, 0, size)?;
    let two = fields::init_struct(arena, place, 1, size)?;
    fields::set_number(arena, one, 0, first);
    fields::set_number(arena, two, 0, second);
    Ok(())
}
