//! What a struct of a message being built holds.
ghost use Rattle.std.specs.Prelude.{◌≡◌, ◌≢◌, ◌↔◌, ◌+◌, ◌*◌, ◌<◌, ℕ, List, IsTrue, bit_xor};
ghost use Rattle.capnp_format.specs.Fields.{field_in};
ghost use Rattle.capnp_format.specs.Path.{tree_at};
ghost use Rattle.capnp_format.specs.Tree.{Null, Trees};
ghost use Rattle.capnp_readers.specs.Readers.{IsStructPlace};
ghost use Rattle.capnp_readers.specs.Sections.{IsInside};
ghost use Rattle.capnp_builders.specs.Held.{HasStruct, Holder};
ghost use Rattle.capnp_builders.specs.Places.{IsAligned};

use capnp_allocation::landing::pointer_word;
use capnp_arena_traits::arena::BuilderArena;
use capnp_in_place::{existing, numbers};
use capnp_readers::readers::StructPlace;
use capnp_words::error::ErrorKind;
use capnp_words::mask::Mask;
use capnp_words::primitive::Primitive;
use capnp_words::zero::Zero;

/// Returns the number at `offset` of a struct's data, counted in numbers of type `T`.
/// Preconditions: `place` is inside the message and aligned; the field at `offset` is inside the
/// data section.
pub fn get_number<A: BuilderArena, T: Primitive + Zero>(
    arena: &A,
    place: StructPlace,
    offset: usize,
) -> T
    requires aligned { IsAligned place }
    requires inside { IsStructPlace (A.view arena.now).words place }
    requires field { IsInside place.bits (8 * T.BYTES) offset }
    ensures { (x : Holder) (ws : List ℕ) (ts : Trees)
        → HasStruct (A.view arena.now).words x place ws ts
        → T.bits_of result ≡ field_in ws (8 * (offset * T.BYTES)) (8 * T.BYTES) }
{
    let byte = place.byte + (offset * T::BYTES) as u64;
    numbers::get_number(arena, place.segment, byte)
}

/// Returns the number at `offset` of a struct's data, like `get_number`, of a field whose default
/// value is `default`: the exclusive or of what is stored and the default. Preconditions: `place`
/// is inside the message and aligned; the field at `offset` is inside the data section.
pub fn get_number_or<A: BuilderArena, T: Primitive + Zero + Mask>(
    arena: &A,
    place: StructPlace,
    offset: usize,
    default: <T as Mask>::T,
) -> T
    requires aligned { IsAligned place }
    requires inside { IsStructPlace (A.view arena.now).words place }
    requires field { IsInside place.bits (8 * T.BYTES) offset }
    ensures { (x : Holder) (ws : List ℕ) (ts : Trees)
        → HasStruct (A.view arena.now).words x place ws ts
        → T.bits_of result
        ≡ bit_xor (field_in ws (8 * (offset * T.BYTES)) (8 * T.BYTES)) (T.mask_bits default) }
{
    T::mask(get_number(arena, place, offset), default)
}

/// Returns bit `offset` of a struct's data. Preconditions: `place` is inside the message; bit
/// `offset` is inside the data section.
pub fn get_bool<A: BuilderArena>(arena: &A, place: StructPlace, offset: usize) -> bool
    requires inside { IsStructPlace (A.view arena.now).words place }
    requires field { offset < place.bits }
    ensures { (x : Holder) (ws : List ℕ) (ts : Trees)
        → HasStruct (A.view arena.now).words x place ws ts
        → (IsTrue result ↔ (field_in ws offset 1 ≡ 1)) }
{
    let bit = 8 * place.byte + offset as u64;
    numbers::get_bit(arena, place.segment, bit)
}

/// Returns whether a pointer of a struct isn't null. Preconditions: `place` is inside the message;
/// `index` is below `place.pointers`.
#[tactic(auto, using(crate::proofs::Held::null_held, crate::proofs::Held::null_zero))]
pub fn has<A: BuilderArena>(arena: &A, place: StructPlace, index: usize) -> bool
    requires inside { IsStructPlace (A.view arena.now).words place }
    requires field { index < place.pointers }
    ensures { (x : Holder) (ws : List ℕ) (ts : Trees)
        → HasStruct (A.view arena.now).words x place ws ts
        → (IsTrue result ↔ (tree_at ts index ≢ Null)) }
{
    let at = place.pointers_at + index as u32;
    !pointer_word(arena, place.segment, at).is_null()
}
