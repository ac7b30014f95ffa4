//! Edits of elements of lists, and of bytes of texts and data.
ghost use Rattle.std.specs.Prelude.{◌≡◌, ◌+◌, ◌<◌, ◌≤◌, IsTrue, IfErr, true};
ghost use Rattle.capnp_format.specs.Numbers.{element_bits};
ghost use Rattle.capnp_format.specs.Segments.{IsPlace};
ghost use Rattle.capnp_in_place.specs.Existing.{is_unfound};
ghost use Rattle.capnp_words.specs.Sizes.{size_number};
ghost use Rattle.capnp_words.specs.declared.wire_pointer.ElementSize.TheVariants.{Byte};
ghost use Rattle.capnp_builders.specs.Building.{HoldsElement};
ghost use Rattle.capnp_readers.specs.Readers.{IsListPlace};
ghost use Rattle.capnp_readers.specs.Sections.{data_bits, elements_words};
ghost use Rattle.capnp_builders.specs.Elements.{lowest_bits};
ghost use Rattle.capnp_builders.specs.Places.{WritesField, list_place};
ghost use Rattle.capnp_edits.specs.declared.edit.path.PathEnd.TheVariants.{Pointer as AtPointer};
ghost use Rattle.capnp_edits.specs.declared.edit.tasks.Task.TheVariants.{Write};
ghost use Rattle.capnp_edits.specs.Tasks.{is_in_range, is_number};
ghost use Rattle.capnp_edits.specs.Edits.{refusal_of, is_of_path, PutsElement, PutsByte, WritesWords};
ghost use Rattle.capnp_edits.specs.Steps.{IsDoneAt};

use crate::edit::path::has_words;
use crate::edit::tasks::{Number, Part};
use capnp_arena::arena::BuilderArena;
use capnp_builders::builders::places::list_place;
use capnp_builders::builders::{ListBuilder, PrimitiveElement};
use capnp_in_place::existing;
use capnp_in_place::existing::{ExistingBytes, ExistingList};
use capnp_in_place::numbers::set_number;
use capnp_readers::readers::PointerPlace;
use capnp_words::error::ErrorKind;
use capnp_words::wire_pointer::{ElementSize, data_bits_per_element};

/// The number of words that the elements of a list take, without its tag.
fn list_words(list: ExistingList) -> u64
    ensures { result ≡ elements_words list.size list.count
        (list.struct_size.data_words + list.struct_size.pointers) }
{
    let count = u64::from(list.count);
    match list.size {
        ElementSize::InlineComposite => count * u64::from(list.struct_size.total()),
        ElementSize::Pointer => count,
        size => (count * u64::from(data_bits_per_element(size))).div_ceil(64),
    }
}

/// The number of bits of data of an element of a list.
fn element_bits(list: ExistingList) -> u32
    ensures { result ≡ data_bits list.size list.struct_size }
{
    match list.size {
        ElementSize::InlineComposite => 64 * u32::from(list.struct_size.data_words),
        size => data_bits_per_element(size),
    }
}

/// Whether the list is inside the message and has an element `index`, with at least as many bits of
/// data as `size` has.
fn has_element<A: BuilderArena>(
    arena: &A,
    list: ExistingList,
    size: ElementSize,
    index: u32,
) -> bool
    ensures inside { IsTrue result → IsListPlace (A.view arena.now).words (list_place list) }
    ensures there { IsTrue result → index < list.count }
    ensures wide { IsTrue result → element_bits (size_number size)
        ≤ data_bits list.size list.struct_size }
    ensures past { IsListPlace (A.view arena.now).words (list_place list)
        → element_bits (size_number size) ≤ data_bits list.size list.struct_size
        → index < list.count → IsTrue result }
{
    index < list.count
        && data_bits_per_element(size) <= element_bits(list)
        && arena.get_segment(list.segment).is_ok()
        && has_words(
            arena,
            list.segment,
            u64::from(list.start) + list_words(list),
        )
}

/// Writes `value` into the lowest bits of element `index` of `list`: into as many bits as an
/// element of size `size` has.
fn put_element<A: BuilderArena>(
    list: &mut ListBuilder<'_, A>,
    size: ElementSize,
    index: u32,
    value: u64,
)
    requires element { HoldsElement A.view list.old index (element_bits (size_number size)) }
    requires number { is_number size value ≡ true }
    ensures written { WritesField (A.view list.old.arena.now)
        (A.view list.new.arena.now) list.old.place.segment list.old.place.byte
        (lowest_bits list.old.place index (element_bits (size_number size)) value) }
    ensures same { list.new.arena.ghost_name ≡ list.old.arena.ghost_name }
{
    match size {
        ElementSize::Bit => <bool as PrimitiveElement>::set(list, index, value != 0),
        ElementSize::Byte => <u8 as PrimitiveElement>::set(list, index, value as u8),
        ElementSize::TwoBytes => <u16 as PrimitiveElement>::set(list, index, value as u16),
        ElementSize::FourBytes => <u32 as PrimitiveElement>::set(list, index, value as u32),
        _ => <u64 as PrimitiveElement>::set(list, index, value),
    }
}

#[tactic(auto, using(crate::proofs::Names::unfound_of_path))]
/// Writes `number` into the lowest bits of an element of the list in `found`. If `found` is a
/// refusal, returns it; refuses with `NoSuchPlace` if there is no list, or it has no such element.
fn set_element<A: BuilderArena>(
    arena: &mut A,
    found: Result<Option<ExistingList>, ErrorKind>,
    number: Number,
) -> Result<(), ErrorKind>
    requires number { is_number number.size number.value ≡ true }
    requires looked { IfErr found (λ k. is_unfound k ≡ true) }
    ensures put { PutsElement (A.view arena.old).words
        (A.view arena.new).words found number (refusal_of result) }
    ensures only { WritesWords result (A.view arena.old) (A.view arena.new) }
    ensures named { IfErr result (λ k. is_of_path k ≡ true) }
{
    match found? {
        Some(list) if has_element(&*arena, list, number.size, number.index) => {
            let place = list_place(list);
            put_element(
                &mut ListBuilder { arena, place },
                number.size,
                number.index,
                number.value,
            );
            Ok(())
        }
        _ => Err(ErrorKind::NoSuchPlace),
    }
}

#[tactic(auto, using(crate::proofs::Names::unfound_of_path))]
/// Writes `value` to byte `index` of the text or data in `found`. If `found` is a refusal, returns
/// it; refuses with `NoSuchPlace` if there is no such byte.
fn write_byte<A: BuilderArena>(
    arena: &mut A,
    found: Result<Option<ExistingBytes>, ErrorKind>,
    index: u32,
    value: u8,
) -> Result<(), ErrorKind>
    requires { IfErr found (λ k. is_unfound k ≡ true) }
    ensures byte { value < 256 }
    ensures put { PutsByte (A.view arena.old).words (A.view arena.new).words found
        (record { size = Byte; index = index; value = value }) (refusal_of result) }
    ensures only { WritesWords result (A.view arena.old) (A.view arena.new) }
    ensures named { IfErr result (λ k. is_of_path k ≡ true) }
{
    match found? {
        Some(bytes) if index < bytes.length && existing::are_inside(&*arena, bytes) => {
            let byte = 8 * u64::from(bytes.start) + u64::from(index);
            set_number(arena, bytes.segment, byte, value);
            Ok(())
        }
        _ => Err(ErrorKind::NoSuchPlace),
    }
}

/// Writes the number or byte of `part` into the list, text or data that the pointer at `place`
/// leads to.
pub(crate) fn edit_part<A: BuilderArena>(
    arena: &mut A,
    place: PointerPlace,
    part: Part,
) -> Result<(), ErrorKind>
    requires there { IsPlace (A.view arena.old).words place.segment place.word }
    requires range { is_in_range (Write part) ≡ true }
    ensures { IsDoneAt (A.view arena.old) (A.view arena.new) (AtPointer place) (Write part)
        (refusal_of result) }
{
    match part {
        Part::ListElement(number) => {
            let found = existing::get_list(&*arena, place.segment, place.word, number.size);
            set_element(arena, found, number)
        }
        Part::TextByte(index, value) => {
            let found = existing::get_text(&*arena, place.segment, place.word);
            write_byte(arena, found, index, value)
        }
        Part::DataByte(index, value) => {
            let found = existing::get_data(&*arena, place.segment, place.word);
            write_byte(arena, found, index, value)
        }
    }
}
