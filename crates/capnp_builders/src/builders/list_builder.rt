//! Lists of a message being built (encoding specification, "Lists").
ghost use Rattle.std.specs.Prelude.{◌≡◌, ◌≢◌, ◌↔◌, ◌+◌, ◌*◌, ◌/◌, ◌%◌, ◌<◌, ◌≤◌, ◌^◌, [], IsTrue, cond};
ghost use Rattle.capnp_format.specs.Numbers.{element_bits};
ghost use Rattle.capnp_words.specs.Sizes.{size_number};
ghost use Rattle.capnp_readers.specs.Readers.{IsStructPlace, IsListPlace};
ghost use Rattle.capnp_format.specs.Segments.{Grows, IsPlace, Segments};
ghost use Rattle.capnp_readers.specs.Sections.{HoldsPointer, data_bits, pointers_offset, elements_words, step_bits};
ghost use Rattle.capnp_builders.specs.Places.{HasField, IsAligned, WritesField, element_place};
ghost use Rattle.capnp_builders.specs.Elements.{lowest_bits};
ghost use Rattle.capnp_builders.specs.Reads.{IsListReader};

use crate::builders::{PointerBuilder, StructBuilder};
use capnp_arena_traits::arena::BuilderArena;
use capnp_in_place::numbers;
use capnp_readers::readers::{ListPlace, ListReader, StructPlace};
use capnp_words::primitive::Primitive;
use capnp_words::wire_pointer::{ElementSize, data_bits_per_element, pointers_per_element};

/// A list of a message being built.
#[derive(Drop)]
pub struct ListBuilder<'a, A> {
    /// Where the list is. Calls require that its elements are inside the message.
    pub place: ListPlace,
    /// The message.
    pub arena: &'a mut A,
}

#[tactic(auto, using(capnp_readers::proofs::Sections::elements, crate::proofs::ElementPlaces::element_inside))]
/// Returns the place of element `index` of `list` as a struct: a struct has its own sections, a
/// pointer becomes a struct's only pointer, and a number a struct's data section. Preconditions:
/// the elements aren't bits; `index` is below the number of elements; `list.byte` is a multiple of
/// 8; the segment has fewer than 2^29 words up to the end of the elements.
pub fn element_place(list: ListPlace, index: u32) -> StructPlace
    requires range { index < list.count }
    requires whole { size_number list.size ≢ 1 }
    requires inside { list.byte / 8 + elements_words list.size list.count
        (list.struct_size.data_words + list.struct_size.pointers) < 2 ^ 29 }
    requires aligned { list.byte % 8 ≡ 0 }
    ensures place { result ≡ element_place list.size list index }
    ensures aligned { IsAligned result }
    ensures inside { (S : Segments) → IsListPlace S list → IsStructPlace S result }
{
    let start = (list.byte / 8) as u32;
    match list.size {
        ElementSize::InlineComposite => {
            let first = start + index * list.struct_size.total();
            StructPlace {
                segment: list.segment,
                byte: 8 * u64::from(first),
                bits: 64 * u32::from(list.struct_size.data_words),
                pointers_at: first + u32::from(list.struct_size.data_words),
                pointers: list.struct_size.pointers,
            }
        }
        ElementSize::Pointer => StructPlace {
            segment: list.segment,
            byte: 8 * u64::from(start + index),
            bits: 0,
            pointers_at: start + index,
            pointers: 1,
        },
        size => {
            let bits = data_bits_per_element(size);
            StructPlace {
                segment: list.segment,
                byte: list.byte + u64::from(index) * u64::from(bits / 8),
                bits,
                pointers_at: start,
                pointers: 0,
            }
        }
    }
}

/// Returns the position, in words, of element `index` of `list` if it is a pointer, or of its first
/// pointer if it is a struct.
#[tactic(auto, using(capnp_readers::proofs::Sections::elements))]
fn element_pointer_position(list: ListPlace, index: u32) -> u32
    requires range { index < list.count }
    requires pointers { HoldsPointer list.size list.struct_size }
    requires inside { list.byte / 8 + elements_words list.size list.count
        (list.struct_size.data_words + list.struct_size.pointers) < 2 ^ 29 }
    ensures { result ≡ list.byte / 8 + pointers_offset list.size list.struct_size index }
{
    let start = (list.byte / 8) as u32;
    match list.size {
        ElementSize::InlineComposite => {
            start + index * list.struct_size.total() + u32::from(list.struct_size.data_words)
        }
        _ => start + index,
    }
}

/// The number of bits from one element of `list` to the next.
fn step_bits(list: ListPlace) -> u32
    ensures { result ≡ step_bits list.size list.struct_size }
{
    // A sum without a branch: a loop over the elements computes it once.
    let is_struct = u32::from(list.size == ElementSize::InlineComposite);
    let words = pointers_per_element(list.size) + is_struct * list.struct_size.total();
    data_bits_per_element(list.size) + 64 * words
}

// Writes a number over the lowest bytes of an element's data.
pub(crate) fn write_number<A: BuilderArena, T: Primitive>(
    arena: &mut A,
    list: ListPlace,
    index: u32,
    value: T,
)
    requires inside { IsListPlace (A.view arena.old).words list }
    requires range { index < list.count }
    requires wide { 8 * T.BYTES ≤ data_bits list.size list.struct_size }
    ensures written { WritesField (A.view arena.old) (A.view arena.new) list.segment list.byte
        (lowest_bits list index (8 * T.BYTES) (T.bits_of value)) }
    ensures fits { T.bits_of value < 2 ^ (8 * T.BYTES) }
    ensures grows { Grows (A.view arena.old).words (A.view arena.new).words }
{
    let step = u64::from(step_bits(list) / 8);
    let byte = list.byte + u64::from(index) * step;
    numbers::set_number(arena, list.segment, byte, value);
}

// Writes the lowest bit of an element's data.
pub(crate) fn write_bit<A: BuilderArena>(arena: &mut A, list: ListPlace, index: u32, value: bool)
    requires inside { IsListPlace (A.view arena.old).words list }
    requires range { index < list.count }
    requires wide { 1 ≤ data_bits list.size list.struct_size }
    ensures written { WritesField (A.view arena.old) (A.view arena.new) list.segment list.byte
        (lowest_bits list index 1 (cond value 1 0)) }
    ensures grows { Grows (A.view arena.old).words (A.view arena.new).words }
{
    let step = u64::from(step_bits(list));
    let bit = 8 * list.byte + u64::from(index) * step;
    numbers::set_bit(arena, list.segment, bit, value);
}

impl<'a, A: BuilderArena> ListBuilder<'a, A> {
    ghost use Rattle.std.specs.Borrow.{sem, follows};
    ghost use Rattle.capnp_builders.specs.Building.{HoldsElement, IsSameArena, KeepsListBuilder};
    ghost use Rattle.capnp_builders.specs.contracts.builders.list_builder.ListBuilder.{the_row};
    ghost use mir.Syntax.{named};

    /// Returns another builder of the same list. The new builder borrows `self`.
    pub fn reborrow(&mut self) -> ListBuilder<'_, A>
        ensures* lends { sem 𝓛 (follows (the_row (record { mir = named 1; lft = [] }) A.row) A.row
            self.entry.ghost_name result.arena.ghost_name
            (λ a. record self.old { arena = record self.old.arena { now = a } })) }
        ensures now { result.arena.now ≡ self.old.arena.now }
        ensures place { result.place ≡ self.old.place }
    {
        let place = self.place;
        let arena = &mut *self.arena;
        ListBuilder { arena, place }
    }

    /// The number of elements.
    pub fn len(&self) -> u32
        ensures { result ≡ self.now.place.count }
    {
        self.place.count
    }

    /// Whether there are no elements.
    pub fn is_empty(&self) -> bool
        ensures { IsTrue result ↔ (self.now.place.count ≡ 0) }
    {
        self.place.count == 0
    }

    /// The element size.
    pub fn get_element_size(&self) -> ElementSize
        ensures { result ≡ self.now.place.size }
    {
        self.place.size
    }

    /// Returns a reader of the list. Reading charges nothing, and may enter `i32::MAX` levels of
    /// structs and lists. Precondition: the list is inside the message.
    pub fn as_reader(&self) -> ListReader<'_, A>
        requires { IsListPlace (A.view self.now.arena.now).words self.now.place }
        ensures { IsListReader A.ReaderArena self.now result }
    {
        ListReader::at(&*self.arena, self.place, i32::MAX)
    }

    /// Turns the builder into a reader of the list, for when building is over. Reading charges
    /// nothing, and may enter `i32::MAX` levels of structs and lists. Precondition: the list is
    /// inside the message.
    pub fn into_reader(self) -> ListReader<'a, A>
        requires { IsListPlace (A.view self.arena.now).words self.place }
        ensures { IsListReader A.ReaderArena self.entry result }
    {
        let ListBuilder { arena, place } = self;
        ListReader::at(arena, place, i32::MAX)
    }

    /// Returns a builder of element `index` as a struct: a number becomes a struct whose data
    /// section is that number, a pointer a struct with one pointer. Preconditions: the list is
    /// inside the message; the elements aren't bits; `index` is below the number of elements.
    pub fn get_struct_element(self, index: u32) -> StructBuilder<'a, A>
        requires inside { IsListPlace (A.view self.arena.now).words self.place }
        requires range { index < self.place.count }
        requires whole { size_number self.place.size ≢ 1 }
        ensures arena { IsSameArena self.entry.arena result.arena }
        ensures place { result.place ≡ element_place self.entry.place.size self.entry.place index }
        ensures inside { IsStructPlace (A.view result.arena.now).words result.place }
    {
        let ListBuilder { arena, place } = self;
        StructBuilder {
            arena,
            place: element_place(place, index),
        }
    }

    #[tactic(auto, using(crate::proofs::ElementPlaces::pointer_inside))]
    /// Returns a builder of the pointer in element `index`: the element itself, or a struct
    /// element's first pointer. Preconditions: the list is inside the message; the elements are
    /// pointers, or structs with pointers; `index` is below the number of elements.
    pub fn get_pointer_element(self, index: u32) -> PointerBuilder<'a, A>
        requires inside { IsListPlace (A.view self.arena.now).words self.place }
        requires range { index < self.place.count }
        requires pointers { HoldsPointer self.place.size self.place.struct_size }
        ensures arena { IsSameArena self.entry.arena result.arena }
        ensures place { (result.segment ≡ self.entry.place.segment)
            × (result.at ≡ self.entry.place.byte / 8
            + pointers_offset self.entry.place.size self.entry.place.struct_size index) }
        ensures inside { IsPlace (A.view result.arena.now).words result.segment result.at }
    {
        let ListBuilder { arena, place } = self;
        PointerBuilder {
            arena,
            segment: place.segment,
            at: element_pointer_position(place, index),
        }
    }

    // The number in the lowest bytes of an element's data.
    pub(crate) fn get_number_at<T: Primitive>(&self, index: u32) -> T
        requires { HoldsElement A.view self.now index (8 * T.BYTES) }
        ensures { HasField (A.view self.now.arena.now) self.now.place.segment self.now.place.byte
            (lowest_bits self.now.place index (8 * T.BYTES) (T.bits_of result)) }
    {
        let step = u64::from(step_bits(self.place) / 8);
        let byte = self.place.byte + u64::from(index) * step;
        numbers::get_number(&*self.arena, self.place.segment, byte)
    }

    // The lowest bit of an element's data.
    pub(crate) fn get_bit_at(&self, index: u32) -> bool
        requires { HoldsElement A.view self.now index 1 }
        ensures { HasField (A.view self.now.arena.now) self.now.place.segment self.now.place.byte
            (lowest_bits self.now.place index 1 (cond result 1 0)) }
    {
        let step = u64::from(step_bits(self.place));
        let bit = 8 * self.place.byte + u64::from(index) * step;
        numbers::get_bit(&*self.arena, self.place.segment, bit)
    }

    // Writes a number over the lowest bytes of an element's data.
    pub(crate) fn set_number_at<T: Primitive>(&mut self, index: u32, value: T)
        requires { HoldsElement A.view self.old index (8 * T.BYTES) }
        ensures written { WritesField (A.view self.old.arena.now)
            (A.view self.new.arena.now) self.old.place.segment self.old.place.byte
            (lowest_bits self.old.place index (8 * T.BYTES) (T.bits_of value)) }
        ensures grows { Grows (A.view self.old.arena.now).words (A.view self.new.arena.now).words }
        ensures builder { KeepsListBuilder A.view self.old self.new }
    {
        write_number(&mut *self.arena, self.place, index, value);
    }

    // Writes the lowest bit of an element's data.
    pub(crate) fn set_bit_at(&mut self, index: u32, value: bool)
        requires { HoldsElement A.view self.old index 1 }
        ensures written { WritesField (A.view self.old.arena.now)
            (A.view self.new.arena.now) self.old.place.segment self.old.place.byte
            (lowest_bits self.old.place index 1 (cond value 1 0)) }
        ensures grows { Grows (A.view self.old.arena.now).words (A.view self.new.arena.now).words }
        ensures builder { KeepsListBuilder A.view self.old self.new }
    {
        write_bit(&mut *self.arena, self.place, index, value);
    }
}
