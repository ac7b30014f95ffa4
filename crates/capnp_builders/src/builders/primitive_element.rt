//! List elements that are numbers, bits or nothing: read from a list being read, and read and
//! written in a list being built (encoding specification, "Lists").
ghost use Rattle.std.specs.Prelude.{◌≡◌, ◌<◌, ◌≤◌, ℕ, List, cond};
ghost use Rattle.capnp_format.specs.Numbers.{element_bits};
ghost use Rattle.capnp_format.specs.Segments.{Grows};
ghost use Rattle.capnp_words.specs.Sizes.{size_number};
ghost use Rattle.capnp_words.specs.declared.wire_pointer.ElementSize.{ElementSize};
ghost use Rattle.capnp_words.specs.declared.wire_pointer.ElementSize.TheVariants.{Void, Bit, Byte, TwoBytes, FourBytes, EightBytes};
ghost use Rattle.capnp_readers.specs.Sections.{data_bits};
ghost use Rattle.capnp_readers.specs.Readers.{IsListPlace, element_start};
ghost use Rattle.capnp_builders.specs.Elements.{lowest_bits};
ghost use Rattle.capnp_builders.specs.Building.{KeepsListBuilder};
ghost use Rattle.capnp_builders.specs.Places.{HasField, WritesField};

use crate::builders::ListBuilder;
use capnp_arena_traits::arena::{BuilderArena, ReaderArena};
use capnp_readers::readers;
use capnp_readers::readers::ListReader;
use capnp_words::primitive::Primitive;
use capnp_words::wire_pointer::ElementSize;

/// A type for reading and writing the elements of a list: a number, a bit, or nothing.
pub trait PrimitiveElement {
    // The element size of a list of such elements.
    ghost size: { ElementSize };

    // The value that starts at a bit of a list's bytes.
    ghost value_at: { List ℕ → ℕ → Self };

    // The value's bits as a number.
    ghost bits_of: { Self → ℕ };

    /// Reads element `index` of `list`: the number in the lowest bytes of the element's data, or
    /// the lowest bit of that data.
    ///
    /// Precondition: unless `Self` is `()`, `index` is below the number of elements of `list`, and
    /// each of these has at least as many bits of data as the value. The data of a struct is its
    /// data section, so a list of numbers that became a list of structs reads as before.
    fn get<A: ReaderArena>(list: &ListReader<'_, A>, index: u32) -> Self
        requires range { 0 < element_bits (size_number size) → index < list.now.count }
        requires wide { element_bits (size_number size)
            ≤ data_bits list.now.element_size list.now.struct_size }
        ensures { result ≡ value_at list.now.content.now
            (element_start A.ReaderArena list.now index) };

    /// Like `get`, for a list being built. Preconditions: `list` is inside the message; unless
    /// `Self` is `()`, `index` is below the number of elements, and each element has at least as
    /// many bits of data as the value.
    fn get_from_builder<A: BuilderArena>(list: &ListBuilder<'_, A>, index: u32) -> Self
        requires inside { IsListPlace (A.view list.now.arena.now).words list.now.place }
        requires range { 0 < element_bits (size_number size) → index < list.now.place.count }
        requires wide { element_bits (size_number size)
            ≤ data_bits list.now.place.size list.now.place.struct_size }
        ensures { HasField (A.view list.now.arena.now) list.now.place.segment list.now.place.byte
            (lowest_bits list.now.place index (element_bits (size_number size)) (bits_of result)) };

    /// Writes element `index` of `list`: replaces the lowest bits of the element's data by the bits
    /// of `value`. The data of a struct is its data section. Preconditions: `list` is inside the
    /// message; unless `Self` is `()`, `index` is below the number of elements, and each element
    /// has at least as many bits of data as the value.
    fn set<A: BuilderArena>(list: &mut ListBuilder<'_, A>, index: u32, value: Self)
        requires inside { IsListPlace (A.view list.old.arena.now).words list.old.place }
        requires range { 0 < element_bits (size_number size) → index < list.old.place.count }
        requires wide { element_bits (size_number size)
            ≤ data_bits list.old.place.size list.old.place.struct_size }
        ensures written { 0 < element_bits (size_number size)
            → WritesField (A.view list.old.arena.now)
            (A.view list.new.arena.now) list.old.place.segment list.old.place.byte
            (lowest_bits list.old.place index (element_bits (size_number size)) (bits_of value)) }
        ensures nothing { element_bits (size_number size) ≡ 0
            → list.new.arena.now ≡ list.old.arena.now }
        ensures grows { Grows (A.view list.old.arena.now).words (A.view list.new.arena.now).words }
        ensures builder { KeepsListBuilder A.view list.old list.new };

    /// The element size of a list of this type: the one with the type's number of bytes, `Bit` for
    /// a `bool`, or `Void` for `()`.
    fn element_size() -> ElementSize
        ensures { result ≡ size };
}

impl PrimitiveElement for u8 {
    ghost size = { Byte };

    ghost value_at = { ⟦<u8 as readers::PrimitiveElement>⟧.value_at };

    ghost bits_of = { ⟦<u8 as Primitive>⟧.bits_of };

    fn get<A: ReaderArena>(list: &ListReader<'_, A>, index: u32) -> u8 {
        <u8 as readers::PrimitiveElement>::get(list, index)
    }

    fn get_from_builder<A: BuilderArena>(list: &ListBuilder<'_, A>, index: u32) -> u8 {
        list.get_number_at(index)
    }

    fn set<A: BuilderArena>(list: &mut ListBuilder<'_, A>, index: u32, value: u8) {
        list.set_number_at(index, value);
    }

    fn element_size() -> ElementSize {
        ElementSize::Byte
    }
}

impl PrimitiveElement for u16 {
    ghost size = { TwoBytes };

    ghost value_at = { ⟦<u16 as readers::PrimitiveElement>⟧.value_at };

    ghost bits_of = { ⟦<u16 as Primitive>⟧.bits_of };

    fn get<A: ReaderArena>(list: &ListReader<'_, A>, index: u32) -> u16 {
        <u16 as readers::PrimitiveElement>::get(list, index)
    }

    fn get_from_builder<A: BuilderArena>(list: &ListBuilder<'_, A>, index: u32) -> u16 {
        list.get_number_at(index)
    }

    fn set<A: BuilderArena>(list: &mut ListBuilder<'_, A>, index: u32, value: u16) {
        list.set_number_at(index, value);
    }

    fn element_size() -> ElementSize {
        ElementSize::TwoBytes
    }
}

impl PrimitiveElement for u32 {
    ghost size = { FourBytes };

    ghost value_at = { ⟦<u32 as readers::PrimitiveElement>⟧.value_at };

    ghost bits_of = { ⟦<u32 as Primitive>⟧.bits_of };

    fn get<A: ReaderArena>(list: &ListReader<'_, A>, index: u32) -> u32 {
        <u32 as readers::PrimitiveElement>::get(list, index)
    }

    fn get_from_builder<A: BuilderArena>(list: &ListBuilder<'_, A>, index: u32) -> u32 {
        list.get_number_at(index)
    }

    fn set<A: BuilderArena>(list: &mut ListBuilder<'_, A>, index: u32, value: u32) {
        list.set_number_at(index, value);
    }

    fn element_size() -> ElementSize {
        ElementSize::FourBytes
    }
}

impl PrimitiveElement for u64 {
    ghost size = { EightBytes };

    ghost value_at = { ⟦<u64 as readers::PrimitiveElement>⟧.value_at };

    ghost bits_of = { ⟦<u64 as Primitive>⟧.bits_of };

    fn get<A: ReaderArena>(list: &ListReader<'_, A>, index: u32) -> u64 {
        <u64 as readers::PrimitiveElement>::get(list, index)
    }

    fn get_from_builder<A: BuilderArena>(list: &ListBuilder<'_, A>, index: u32) -> u64 {
        list.get_number_at(index)
    }

    fn set<A: BuilderArena>(list: &mut ListBuilder<'_, A>, index: u32, value: u64) {
        list.set_number_at(index, value);
    }

    fn element_size() -> ElementSize {
        ElementSize::EightBytes
    }
}

impl PrimitiveElement for i8 {
    ghost size = { Byte };

    ghost value_at = { ⟦<i8 as readers::PrimitiveElement>⟧.value_at };

    ghost bits_of = { ⟦<i8 as Primitive>⟧.bits_of };

    fn get<A: ReaderArena>(list: &ListReader<'_, A>, index: u32) -> i8 {
        <i8 as readers::PrimitiveElement>::get(list, index)
    }

    fn get_from_builder<A: BuilderArena>(list: &ListBuilder<'_, A>, index: u32) -> i8 {
        list.get_number_at(index)
    }

    fn set<A: BuilderArena>(list: &mut ListBuilder<'_, A>, index: u32, value: i8) {
        list.set_number_at(index, value);
    }

    fn element_size() -> ElementSize {
        ElementSize::Byte
    }
}

impl PrimitiveElement for i16 {
    ghost size = { TwoBytes };

    ghost value_at = { ⟦<i16 as readers::PrimitiveElement>⟧.value_at };

    ghost bits_of = { ⟦<i16 as Primitive>⟧.bits_of };

    fn get<A: ReaderArena>(list: &ListReader<'_, A>, index: u32) -> i16 {
        <i16 as readers::PrimitiveElement>::get(list, index)
    }

    fn get_from_builder<A: BuilderArena>(list: &ListBuilder<'_, A>, index: u32) -> i16 {
        list.get_number_at(index)
    }

    fn set<A: BuilderArena>(list: &mut ListBuilder<'_, A>, index: u32, value: i16) {
        list.set_number_at(index, value);
    }

    fn element_size() -> ElementSize {
        ElementSize::TwoBytes
    }
}

impl PrimitiveElement for i32 {
    ghost size = { FourBytes };

    ghost value_at = { ⟦<i32 as readers::PrimitiveElement>⟧.value_at };

    ghost bits_of = { ⟦<i32 as Primitive>⟧.bits_of };

    fn get<A: ReaderArena>(list: &ListReader<'_, A>, index: u32) -> i32 {
        <i32 as readers::PrimitiveElement>::get(list, index)
    }

    fn get_from_builder<A: BuilderArena>(list: &ListBuilder<'_, A>, index: u32) -> i32 {
        list.get_number_at(index)
    }

    fn set<A: BuilderArena>(list: &mut ListBuilder<'_, A>, index: u32, value: i32) {
        list.set_number_at(index, value);
    }

    fn element_size() -> ElementSize {
        ElementSize::FourBytes
    }
}

impl PrimitiveElement for i64 {
    ghost size = { EightBytes };

    ghost value_at = { ⟦<i64 as readers::PrimitiveElement>⟧.value_at };

    ghost bits_of = { ⟦<i64 as Primitive>⟧.bits_of };

    fn get<A: ReaderArena>(list: &ListReader<'_, A>, index: u32) -> i64 {
        <i64 as readers::PrimitiveElement>::get(list, index)
    }

    fn get_from_builder<A: BuilderArena>(list: &ListBuilder<'_, A>, index: u32) -> i64 {
        list.get_number_at(index)
    }

    fn set<A: BuilderArena>(list: &mut ListBuilder<'_, A>, index: u32, value: i64) {
        list.set_number_at(index, value);
    }

    fn element_size() -> ElementSize {
        ElementSize::EightBytes
    }
}

impl PrimitiveElement for bool {
    ghost size = { Bit };

    ghost value_at = { ⟦<bool as readers::PrimitiveElement>⟧.value_at };

    ghost bits_of = { λ b. cond b 1 0 };

    fn get<A: ReaderArena>(list: &ListReader<'_, A>, index: u32) -> bool {
        <bool as readers::PrimitiveElement>::get(list, index)
    }

    fn get_from_builder<A: BuilderArena>(list: &ListBuilder<'_, A>, index: u32) -> bool {
        list.get_bit_at(index)
    }

    fn set<A: BuilderArena>(list: &mut ListBuilder<'_, A>, index: u32, value: bool) {
        list.set_bit_at(index, value);
    }

    fn element_size() -> ElementSize {
        ElementSize::Bit
    }
}

impl PrimitiveElement for () {
    ghost size = { Void };

    ghost value_at = { ⟦<() as readers::PrimitiveElement>⟧.value_at };

    ghost bits_of = { λ _. 0 };

    fn get<A: ReaderArena>(list: &ListReader<'_, A>, index: u32) {
        <() as readers::PrimitiveElement>::get(list, index)
    }

    fn get_from_builder<A: BuilderArena>(_list: &ListBuilder<'_, A>, _index: u32) {}

    fn set<A: BuilderArena>(_list: &mut ListBuilder<'_, A>, _index: u32, _value: ()) {}

    fn element_size() -> ElementSize {
        ElementSize::Void
    }
}
