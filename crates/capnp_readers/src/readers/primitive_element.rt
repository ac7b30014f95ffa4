//! Elements of lists that are numbers, bits or nothing.
ghost use Rattle.std.specs.Prelude.{◌≡◌, ◌<◌, ◌≤◌, ◌+◌, ◌/◌, ◌%◌, ◌^◌, ℕ, List, if◌then◌else◌, nat_eq, slice_range};
ghost use Rattle.std.specs.Int.{w8, w16, w32, w64, cast_unsigned};
ghost use Rattle.capnp_format.specs.Numbers.{element_bits};
ghost use Rattle.capnp_format.specs.Tree.{Tree};
ghost use Rattle.capnp_words.specs.Sizes.{size_number};
ghost use Rattle.capnp_words.specs.declared.wire_pointer.ElementSize.{ElementSize};
ghost use Rattle.capnp_words.specs.declared.wire_pointer.ElementSize.TheVariants.{Void, Bit, Byte, TwoBytes, FourBytes, EightBytes};
ghost use Rattle.capnp_readers.specs.Sections.{bit_at, data_bits};
ghost use Rattle.capnp_readers.specs.Readers.{element_start};
ghost use Rattle.capnp_readers.specs.Values.{ShowsListOf, element_number};

use crate::readers::ListReader;
use capnp_arena_traits::arena::ReaderArena;
use capnp_words::primitive::Primitive;
use capnp_words::wire_pointer::ElementSize;

/// A type that elements of a list can be read as: a number, a bit, or nothing.
pub trait PrimitiveElement {
    // The element size of a list of such elements.
    ghost size: { ElementSize };

    // The value that starts at a bit of a list's bytes.
    ghost value_at: { List ℕ → ℕ → Self };

    // The bits of a value as a number without a sign.
    ghost number_of: { Self → ℕ };

    /// Reads element `index` of `list`: the number in the lowest bytes of the element's data, or
    /// the lowest bit of that data.
    ///
    /// Precondition: unless `Self` is `()`, `index` is below the number of elements of `list`, and
    /// each of these has at least as many bits of data as the value. The data of a struct is its
    /// data section, so a list of numbers that became a list of structs reads as before (encoding
    /// specification, "Lists").
    fn get<A: ReaderArena>(list: &ListReader<'_, A>, index: u32) -> Self
        requires range { 0 < element_bits (size_number size) → index < list.now.count }
        requires wide { element_bits (size_number size)
            ≤ data_bits list.now.element_size list.now.struct_size }
        ensures value { result ≡ value_at list.now.content.now
            (element_start A.ReaderArena list.now index) }
        ensures number { (t : Tree) → ShowsListOf A.ReaderArena list.now t
            → number_of result ≡ element_number t index % 2 ^ element_bits (size_number size) };

    /// The element size of a list of this type: the size with as many bytes as a number of this
    /// type, `Bit` for a `bool`, or `Void` for `()` ("Lists").
    fn element_size() -> ElementSize
        ensures { result ≡ size };
}

impl PrimitiveElement for u8 {
    ghost size = { Byte };

    ghost value_at = { λ bytes at. ⟦<u8 as Primitive>⟧.value_of (slice_range bytes (at / 8) (at / 8 + 1)) };

    ghost number_of = { λ n. n };

    fn get<A: ReaderArena>(list: &ListReader<'_, A>, index: u32) -> u8 {
        list.number_at(index)
    }

    fn element_size() -> ElementSize {
        ElementSize::Byte
    }
}

impl PrimitiveElement for u16 {
    ghost size = { TwoBytes };

    ghost value_at = { λ bytes at. ⟦<u16 as Primitive>⟧.value_of (slice_range bytes (at / 8) (at / 8 + 2)) };

    ghost number_of = { λ n. n };

    fn get<A: ReaderArena>(list: &ListReader<'_, A>, index: u32) -> u16 {
        list.number_at(index)
    }

    fn element_size() -> ElementSize {
        ElementSize::TwoBytes
    }
}

impl PrimitiveElement for u32 {
    ghost size = { FourBytes };

    ghost value_at = { λ bytes at. ⟦<u32 as Primitive>⟧.value_of (slice_range bytes (at / 8) (at / 8 + 4)) };

    ghost number_of = { λ n. n };

    fn get<A: ReaderArena>(list: &ListReader<'_, A>, index: u32) -> u32 {
        list.number_at(index)
    }

    fn element_size() -> ElementSize {
        ElementSize::FourBytes
    }
}

impl PrimitiveElement for u64 {
    ghost size = { EightBytes };

    ghost value_at = { λ bytes at. ⟦<u64 as Primitive>⟧.value_of (slice_range bytes (at / 8) (at / 8 + 8)) };

    ghost number_of = { λ n. n };

    fn get<A: ReaderArena>(list: &ListReader<'_, A>, index: u32) -> u64 {
        list.number_at(index)
    }

    fn element_size() -> ElementSize {
        ElementSize::EightBytes
    }
}

impl PrimitiveElement for i8 {
    ghost size = { Byte };

    ghost value_at = { λ bytes at. ⟦<i8 as Primitive>⟧.value_of (slice_range bytes (at / 8) (at / 8 + 1)) };

    ghost number_of = { cast_unsigned w8 };

    fn get<A: ReaderArena>(list: &ListReader<'_, A>, index: u32) -> i8 {
        list.number_at(index)
    }

    fn element_size() -> ElementSize {
        ElementSize::Byte
    }
}

impl PrimitiveElement for i16 {
    ghost size = { TwoBytes };

    ghost value_at = { λ bytes at. ⟦<i16 as Primitive>⟧.value_of (slice_range bytes (at / 8) (at / 8 + 2)) };

    ghost number_of = { cast_unsigned w16 };

    fn get<A: ReaderArena>(list: &ListReader<'_, A>, index: u32) -> i16 {
        list.number_at(index)
    }

    fn element_size() -> ElementSize {
        ElementSize::TwoBytes
    }
}

impl PrimitiveElement for i32 {
    ghost size = { FourBytes };

    ghost value_at = { λ bytes at. ⟦<i32 as Primitive>⟧.value_of (slice_range bytes (at / 8) (at / 8 + 4)) };

    ghost number_of = { cast_unsigned w32 };

    fn get<A: ReaderArena>(list: &ListReader<'_, A>, index: u32) -> i32 {
        list.number_at(index)
    }

    fn element_size() -> ElementSize {
        ElementSize::FourBytes
    }
}

impl PrimitiveElement for i64 {
    ghost size = { EightBytes };

    ghost value_at = { λ bytes at. ⟦<i64 as Primitive>⟧.value_of (slice_range bytes (at / 8) (at / 8 + 8)) };

    ghost number_of = { cast_unsigned w64 };

    fn get<A: ReaderArena>(list: &ListReader<'_, A>, index: u32) -> i64 {
        list.number_at(index)
    }

    fn element_size() -> ElementSize {
        ElementSize::EightBytes
    }
}

impl PrimitiveElement for bool {
    ghost size = { Bit };

    ghost value_at = { λ bytes at. nat_eq (bit_at bytes at) 1 };

    ghost number_of = { λ b. if b then 1 else 0 };

    fn get<A: ReaderArena>(list: &ListReader<'_, A>, index: u32) -> bool {
        list.bit_at(index)
    }

    fn element_size() -> ElementSize {
        ElementSize::Bit
    }
}

impl PrimitiveElement for () {
    ghost size = { Void };

    ghost value_at = { λ bytes at. tt };

    ghost number_of = { λ x. 0 };

    fn get<A: ReaderArena>(_list: &ListReader<'_, A>, _index: u32) {}

    fn element_size() -> ElementSize {
        ElementSize::Void
    }
}
