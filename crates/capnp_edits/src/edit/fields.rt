//! Edits of the data section of a struct.
ghost use Rattle.std.specs.Prelude.{◌≡◌, true, cond, IfErr};
ghost use Rattle.capnp_words.specs.declared.error.ErrorKind.TheVariants.{NoSuchPlace};
ghost use Rattle.capnp_in_place.specs.Existing.{IsStructInside};
ghost use Rattle.capnp_builders.specs.Places.{field, number_field};
ghost use Rattle.capnp_edits.specs.Tasks.{is_number};
ghost use Rattle.capnp_edits.specs.Edits.{refusal_of, bits_of, PutsBits, WritesWords};

use crate::edit::tasks::Number;
use capnp_arena::arena::BuilderArena;
use capnp_in_place::existing::ExistingStruct;
use capnp_in_place::numbers::{set_bit, set_number};
use capnp_words::error::ErrorKind;
use capnp_words::primitive::Primitive;
use capnp_words::wire_pointer::ElementSize;

#[tactic(auto, using(crate::proofs::Fields::number_aligned, crate::proofs::Fields::number_written, crate::proofs::Fields::number_outside))]
/// Writes `value` into the data section of `parent`, at index `index`, counted in numbers of the
/// same width. Refuses with `NoSuchPlace` if that place isn't inside the section.
fn put_number<A: BuilderArena, T: Primitive + Drop>(
    arena: &mut A,
    parent: ExistingStruct,
    index: u32,
    value: T,
) -> Result<(), ErrorKind>
    requires { IsStructInside (A.view arena.old).words parent }
    ensures put { PutsBits (A.view arena.old).words (A.view arena.new).words parent
        (number_field T.BYTES index (T.bits_of value)) (refusal_of result) }
    ensures only { WritesWords result (A.view arena.old) (A.view arena.new) }
    ensures named { IfErr result (λ k. k ≡ NoSuchPlace) }
{
    let bytes = T::BYTES as u64;
    let byte = u64::from(index) * bytes;
    if byte + bytes > 8 * u64::from(parent.size.data_words) {
        return Err(ErrorKind::NoSuchPlace);
    }
    set_number(
        arena,
        parent.segment,
        8 * u64::from(parent.start) + byte,
        value,
    );
    Ok(())
}

#[tactic(auto, using(crate::proofs::Fields::bit_written, crate::proofs::Fields::bit_outside))]
/// Writes `value` to bit `index` of the data section of `parent`. Refuses with `NoSuchPlace` if
/// that bit isn't inside the section.
fn put_bit<A: BuilderArena>(
    arena: &mut A,
    parent: ExistingStruct,
    index: u32,
    value: bool,
) -> Result<(), ErrorKind>
    requires { IsStructInside (A.view arena.old).words parent }
    ensures put { PutsBits (A.view arena.old).words (A.view arena.new).words parent
        (field index 1 (cond value 1 0)) (refusal_of result) }
    ensures only { WritesWords result (A.view arena.old) (A.view arena.new) }
    ensures named { IfErr result (λ k. k ≡ NoSuchPlace) }
{
    if u64::from(index) >= 64 * u64::from(parent.size.data_words) {
        return Err(ErrorKind::NoSuchPlace);
    }
    let bit = 64 * u64::from(parent.start) + u64::from(index);
    set_bit(arena, parent.segment, bit, value);
    Ok(())
}

/// Writes `number`, which may be a bit, into the data section of `parent`. Refuses with
/// `NoSuchPlace` if the place of `number` isn't inside the section.
pub(crate) fn put_field<A: BuilderArena>(
    arena: &mut A,
    parent: ExistingStruct,
    number: Number,
) -> Result<(), ErrorKind>
    requires inside { IsStructInside (A.view arena.old).words parent }
    requires range { is_number number.size number.value ≡ true }
    ensures put { PutsBits (A.view arena.old).words (A.view arena.new).words parent
        (bits_of number) (refusal_of result) }
    ensures only { WritesWords result (A.view arena.old) (A.view arena.new) }
    ensures named { IfErr result (λ k. k ≡ NoSuchPlace) }
{
    match number.size {
        ElementSize::Bit => put_bit(arena, parent, number.index, number.value != 0),
        ElementSize::Byte => put_number(arena, parent, number.index, number.value as u8),
        ElementSize::TwoBytes => put_number(arena, parent, number.index, number.value as u16),
        ElementSize::FourBytes => put_number(arena, parent, number.index, number.value as u32),
        _ => put_number(arena, parent, number.index, number.value),
    }
}
