//! Structs of a message, read in place.
ghost use Rattle.std.specs.Prelude.{◌≡◌, ◌≢◌, bit_xor, ◌<◌, ◌≤◌, ◌+◌, ◌*◌, ◌/◌, ◌^◌, ◌↔◌, ℕ, pos, [], true, false, ⊤, IsTrue, length, take, drop, slice_range};
ghost use Rattle.capnp_format.specs.Bytes.{message};
ghost use Rattle.capnp_format.specs.Segments.{word_at, segment};
ghost use Rattle.capnp_format.specs.Tree.{Tree, Null};
ghost use Rattle.capnp_format.specs.Fields.{field_in};
ghost use Rattle.capnp_format.specs.Path.{Child, next};
ghost use Rattle.capnp_pointers.specs.Outcomes.{MeansThere};
ghost use Rattle.capnp_pointers.specs.Reading.{source_start};
ghost use Rattle.capnp_words.specs.Sizes.{sized};
ghost use Rattle.capnp_pointers.specs.Rows.{rows_sized};
ghost use Rattle.capnp_pointers.specs.Objects.{IsHeld};
ghost use Rattle.capnp_readers.specs.Sections.{IsPart, IsInside, HasWordsFrom, bit_at, bytes_for};

use crate::readers::{ListReader, NO_SECTIONS, PointerReader, bytes_are_below_256};
use capnp_arena_traits::arena::ReaderArena;
use capnp_pointers::object::Place;
use capnp_pointers::pointers::Pointer;
use capnp_pointers::source::Source;
use capnp_words::mask::Mask;
use capnp_words::primitive::Primitive;
use capnp_words::wire_pointer::{ElementSize, StructSize};
use capnp_words::zero::Zero;
use std::alloc::AllocError;

/// The place of a struct in an arena. The size of its data section is in bits, since an element of
/// a list of numbers can be read as a struct. Its pointer section needn't follow its data section.
///
/// The place is *inside* a message if its segment exists and has both sections, in allocated words
/// if the message is being built. It is *aligned* if the data section has 8 bytes or more and starts
/// at a multiple of 8, or has 4, 2 or 1 whole bytes and starts at a multiple of that number, or has
/// less than a byte.
#[derive(Clone, Copy, Debug, PartialEq, Eq)]
pub struct StructPlace {
    /// The number of the segment.
    pub segment: u32,
    /// The size of the data section in bits.
    pub bits: u32,
    /// Where the data section starts, in bytes.
    pub byte: u64,
    /// Where the pointer section starts, in words.
    pub pointers_at: u32,
    /// The number of pointers in the pointer section.
    pub pointers: u16,
}

/// A struct being read, with its data section.
///
/// Required of the fields: `pointers.bytes` has exactly the whole words of segment
/// `pointers.segment` of `source`, fewer than 2^32; `content` is the part of `pointers.bytes` from
/// `byte` on that holds `bits` bits; the segment has at least `pointers.at + pointer_count` words.
pub struct StructReader<'a, A: ReaderArena> {
    /// What the struct is read from.
    pub source: Source<'a, A>,
    /// The bytes of the data section.
    pub content: &'a [u8],
    /// Where the data section starts in its segment, in bytes.
    pub byte: u64,
    /// The size of the data section in bits.
    pub bits: u32,
    /// Where the pointer section starts.
    pub pointers: Place<'a>,
    /// The number of pointers in the pointer section.
    pub pointer_count: u16,
    /// The nesting limit for the struct's pointers: how many levels of structs and lists may be
    /// entered from them; none if it is below 1.
    pub nesting_limit: i32,
    ghost held: { IsHeld (source_start A.ReaderArena source).segments pointers },
    ghost content_is: { IsPart pointers byte bits content.now },
    ghost inside: { HasWordsFrom (source_start A.ReaderArena source).segments pointers
        pointer_count },
}

impl<'a, A: ReaderArena> Clone for StructReader<'a, A> {
    ghost is_clone = { λ x y. y ≡ x };

    ghost is_infallible = { λ _. ⊤ };

    fn clone(&self) -> Result<Self, AllocError> {
        Ok(*self)
    }
}

impl<'a, A: ReaderArena> Copy for StructReader<'a, A> {}

impl<'a, A: ReaderArena> StructReader<'a, A> {
    ghost use Rattle.capnp_readers.specs.Readers.{ShowsStruct, ShowsList, IsStructPlace, read_by};
    ghost use Rattle.capnp_readers.specs.Values.{HasValue, ShowsNumber, ShowsStructOf, StaysIn, child_cost, field_of_number, struct_data};

    /// Returns a struct without sections, which isn't in any message. Its nesting limit is
    /// `i32::MAX`.
    pub fn new_default() -> Self
        ensures source { result.source ≡ Source.Nothing }
        ensures sections { (result.bits ≡ 0) × (result.pointer_count ≡ 0) }
        ensures nesting { result.nesting_limit ≡ i32.MAX }
    {
        StructReader {
            source: Source::Nothing,
            content: &[],
            byte: 0,
            bits: 0,
            pointers: Place {
                segment: 0,
                bytes: &[],
                at: 0,
            },
            pointer_count: 0,
            nesting_limit: i32::MAX,
        }
    }

    /// Returns a reader of the struct at `place` of `arena`. Precondition: both sections are inside
    /// segment `place.segment` of `arena`.
    pub fn at(arena: &'a A, place: StructPlace, nesting_limit: i32) -> Self
        requires { IsStructPlace (message (A.segments arena.now)) place }
        ensures source { result.source ≡ Source.Arena arena.entry }
        ensures data_at { (result.byte ≡ place.byte) × (result.bits ≡ place.bits) }
        ensures pointers { (result.pointers.segment ≡ place.segment)
            × (result.pointers.at ≡ place.pointers_at) × (result.pointer_count ≡ place.pointers) }
        ensures nesting { result.nesting_limit ≡ nesting_limit }
    {
        let Ok(bytes) = arena.get_segment(place.segment) else {
            return Self::new_default();
        };
        let start = place.byte as usize;
        let length = (place.bits as usize + 7) / 8;
        StructReader {
            source: Source::Arena(arena),
            content: &bytes[start..start + length],
            byte: place.byte,
            bits: place.bits,
            pointers: Place {
                segment: u64::from(place.segment),
                bytes,
                at: place.pointers_at,
            },
            pointer_count: place.pointers,
            nesting_limit,
        }
    }

    // The struct of whole words that starts at a place.
    #[inline(always)]
    #[tactic(auto, using(capnp_format::proofs::WordsOf::part_words))]
    pub(crate) fn starting_at(
        source: Source<'a, A>,
        start: Place<'a>,
        size: StructSize,
        nesting_limit: i32,
    ) -> Self
        requires held { IsHeld (source_start A.ReaderArena source).segments start }
        requires room { HasWordsFrom (source_start A.ReaderArena source).segments start
            (size.data_words + size.pointers) }
        ensures source { result.source ≡ source.entry }
        ensures shows { ShowsStruct A.ReaderArena (source_start A.ReaderArena source.entry).segments
            result start.entry.segment start.entry.at size }
        ensures nesting { result.nesting_limit ≡ nesting_limit }
    {
        let first = 8 * start.at as usize;
        let length = 8 * usize::from(size.data_words);
        StructReader {
            source,
            content: &start.bytes[first..first + length],
            byte: first as u64,
            bits: 64 * u32::from(size.data_words),
            pointers: Place {
                at: start.at + u32::from(size.data_words),
                ..start
            },
            pointer_count: size.pointers,
            nesting_limit,
        }
    }

    /// The bytes that hold the data section. A data section whose size isn't a multiple of 8 bits
    /// ends inside the last of these bytes.
    pub fn data_bytes(&self) -> &'a [u8]
        ensures { result.now ≡ self.now.content.now }
    {
        self.content
    }

    /// The number of pointers in the pointer section.
    pub fn pointer_count(&self) -> u16
        ensures { result ≡ self.now.pointer_count }
    {
        self.pointer_count
    }

    // The first pointer of the pointer section, or where it would be.
    #[inline(always)]
    pub(crate) fn pointers(&self) -> Pointer<'a, A>
        ensures source { result.source ≡ self.now.source }
        ensures place { result.place ≡ self.now.pointers }
        ensures nesting { result.nesting_limit ≡ self.now.nesting_limit }
    {
        Pointer {
            source: self.source,
            place: self.pointers,
            nesting_limit: self.nesting_limit,
        }
    }

    /// Returns a reader of pointer `index` of the pointer section. If the section has no such
    /// pointer, returns a null pointer that isn't in any message.
    pub fn get_pointer_field(&self, index: usize) -> PointerReader<'a, A>
        ensures source { index < self.now.pointer_count → result.source ≡ self.now.source }
        ensures place { index < self.now.pointer_count
            → (result.place.segment ≡ self.now.pointers.segment)
            × (result.place.at ≡ self.now.pointers.at + index) }
        ensures nesting { index < self.now.pointer_count
            → result.nesting_limit ≡ self.now.nesting_limit }
        ensures nothing { self.now.pointer_count ≤ index
            → (result.source ≡ Source.Nothing) × (result.nesting_limit ≡ i32.MAX) }
        ensures nowhere { self.now.pointer_count ≤ index
            → (result.place.segment ≡ 0) × (result.place.at ≡ 0) }
        ensures value { (t : Tree) → ShowsStructOf A.ReaderArena self.now t
            → HasValue (read_by A.ReaderArena result) (next t (Child index)) }
        ensures means { (t : Tree) (shows : ShowsStructOf A.ReaderArena self.now t)
            → MeansThere (read_by A.ReaderArena result) (next t (Child index))
            (child_cost A.ReaderArena shows index) }
        ensures within { (t : Tree) (shows : ShowsStructOf A.ReaderArena self.now t)
            → child_cost A.ReaderArena shows index ≤ shows.cost }
        ensures stays { StaysIn (source_start A.ReaderArena self.now.source)
            (read_by A.ReaderArena result) }
        ensures charging { (t : Tree) → ShowsStructOf A.ReaderArena self.now t
            → next t (Child index) ≢ Null → (read_by A.ReaderArena result).charging
            ≡ (source_start A.ReaderArena self.now.source).charging }
    {
        if index >= usize::from(self.pointer_count) {
            return PointerReader::new_default();
        }
        PointerReader {
            source: self.source,
            place: Place {
                at: self.pointers.at + index as u32,
                ..self.pointers
            },
            nesting_limit: self.nesting_limit,
        }
    }

    /// Returns the pointer section as a list of pointers, whose nesting limit is the struct's own
    /// (encoding specification, "Structs" and "Lists"). Its element `i` is the struct's pointer
    /// `i`; the list is empty if the struct has no pointers.
    pub fn get_pointer_section_as_list(&self) -> ListReader<'a, A>
        ensures source { result.source ≡ self.now.source }
        ensures size { result.element_size ≡ ElementSize.Pointer }
        ensures shows { ShowsList A.ReaderArena
            (source_start A.ReaderArena self.now.source).segments
            result self.now.pointers.segment self.now.pointers.at
            (rows_sized (sized 0 0) self.now.pointer_count) }
        ensures nesting { result.nesting_limit ≡ self.now.nesting_limit }
    {
        ListReader::starting_at(
            self.source,
            self.pointers,
            ElementSize::Pointer,
            NO_SECTIONS,
            u32::from(self.pointer_count),
            self.nesting_limit,
        )
    }

    /// Whether pointer `index` of the pointer section is null, or the section has no such pointer.
    pub fn is_pointer_field_null(&self, index: usize) -> bool
        ensures null { IsTrue result
            ↔ (index < self.now.pointer_count
            → word_at (source_start A.ReaderArena self.now.source).segments
            self.now.pointers.segment (self.now.pointers.at + index) ≡ 0) }
        ensures value { (t : Tree) → ShowsStructOf A.ReaderArena self.now t
            → (IsTrue result ↔ (next t (Child index) ≡ Null)) }
    {
        self.get_pointer_field(index).is_null()
    }

    /// Returns the field of the data section at `offset`, which is counted in values of type `T`.
    /// Returns zero if the field isn't wholly inside the section.
    pub fn get_data_field<T: Primitive + Zero>(&self, offset: usize) -> T
        ensures inside { IsInside self.now.bits (8 * T.BYTES) offset
            → result ≡ T.value_of
            (slice_range self.now.content.now (offset * T.BYTES) (offset * T.BYTES + T.BYTES)) }
        ensures outside { (IsInside self.now.bits (8 * T.BYTES) offset → ⊥) → result ≡ T.nought }
        ensures value { (t : Tree) → ShowsStructOf A.ReaderArena self.now t
            → T.bits_of result ≡ field_in (struct_data t) (8 * T.BYTES * offset) (8 * T.BYTES) }
        ensures number { (bits x : ℕ) → ShowsNumber A.ReaderArena self.now bits x
            → T.bits_of result ≡ field_of_number bits x (8 * T.BYTES * offset) (8 * T.BYTES) }
    {
        bytes_are_below_256(self.content);
        let n = T::BYTES;
        if offset < self.bits as usize / 8 / n {
            let start = offset * n;
            T::load(&self.content[start..start + n])
        } else {
            T::zero()
        }
    }

    /// Returns the exclusive or of the value that `StructReader::get_data_field` returns, and of
    /// `mask`. The caller passes the field's default value as `mask`, so a field outside of the
    /// section has this value.
    pub fn get_data_field_mask<T: Primitive + Zero + Mask>(
        &self,
        offset: usize,
        mask: <T as Mask>::T,
    ) -> T
        ensures inside { IsInside self.now.bits (8 * T.BYTES) offset
            → result ≡ T.masked
            (T.value_of (slice_range self.now.content.now (offset * T.BYTES)
            (offset * T.BYTES + T.BYTES))) mask }
        ensures outside { (IsInside self.now.bits (8 * T.BYTES) offset → ⊥)
            → result ≡ T.masked T.nought mask }
        ensures value { (t : Tree) → ShowsStructOf A.ReaderArena self.now t
            → T.bits_of result
            ≡ bit_xor (field_in (struct_data t) (8 * T.BYTES * offset) (8 * T.BYTES))
            (T.mask_bits mask) }
    {
        T::mask(self.get_data_field(offset), mask)
    }

    /// Returns the bit of the data section at `offset`, which is counted in bits; `false` if the
    /// section ends before that bit.
    pub fn get_bool_field(&self, offset: usize) -> bool
        ensures bit { IsTrue result ↔ (offset < self.now.bits)
            × (bit_at self.now.content.now offset ≡ 1) }
        ensures value { (t : Tree) → ShowsStructOf A.ReaderArena self.now t
            → (IsTrue result ↔ (field_in (struct_data t) offset 1 ≡ 1)) }
        ensures number { (bits x : ℕ) → ShowsNumber A.ReaderArena self.now bits x
            → (IsTrue result ↔ (field_of_number bits x offset 1 ≡ 1)) }
    {
        bytes_are_below_256(self.content);
        offset < self.bits as usize && self.content[offset / 8] >> (offset % 8) & 1 == 1
    }

    /// Returns the exclusive or of the bit that `StructReader::get_bool_field` returns, and of
    /// `mask`. The caller passes the field's default value as `mask`, so a bit after the section
    /// has this value.
    pub fn get_bool_field_mask(&self, offset: usize, mask: bool) -> bool
        ensures plain { mask ≡ false
            → (IsTrue result ↔ (offset < self.now.bits)
            × (bit_at self.now.content.now offset ≡ 1)) }
        ensures turned { mask ≡ true → (IsTrue result
            ↔ ((offset < self.now.bits) × (bit_at self.now.content.now offset ≡ 1) → ⊥)) }
        ensures plain_value { mask ≡ false → (t : Tree) → ShowsStructOf A.ReaderArena self.now t
            → (IsTrue result ↔ (field_in (struct_data t) offset 1 ≡ 1)) }
        ensures turned_value { mask ≡ true → (t : Tree) → ShowsStructOf A.ReaderArena self.now t
            → (IsTrue result ↔ (field_in (struct_data t) offset 1 ≢ 1)) }
    {
        self.get_bool_field(offset) != mask
    }
}
