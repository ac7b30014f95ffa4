//! Lists of a message, read in place.
ghost use Rattle.std.specs.Prelude.{◌≡◌, ◌≢◌, ◌<◌, ◌≤◌, ◌+◌, ◌*◌, ◌/◌, ◌^◌, ◌↔◌, ℕ, List, pos, [], ⊤, IsTrue, length, take, drop, slice_index, slice_range, nat_eq, ◌%◌, if◌then◌else◌};
ghost use Rattle.capnp_format.specs.Bytes.{message};
ghost use Rattle.capnp_format.specs.Segments.{word_at, segment};
ghost use Rattle.capnp_format.specs.Tree.{Tree, Flat};
ghost use Rattle.capnp_format.specs.Path.{Child, next};
ghost use Rattle.capnp_words.specs.declared.wire_pointer.ElementSize.TheVariants.{Void, InlineComposite};
ghost use Rattle.capnp_format.specs.Numbers.{element_bits, from_digits};
ghost use Rattle.capnp_words.specs.Sizes.{size_number};
ghost use Rattle.capnp_pointers.specs.Outcomes.{MeansThere};
ghost use Rattle.capnp_pointers.specs.Reading.{source_start};
ghost use Rattle.capnp_pointers.specs.Rows.{rows_sized};
ghost use Rattle.capnp_pointers.specs.Objects.{IsHeld};
ghost use Rattle.capnp_readers.specs.Sections.{IsPart, HasWordsFrom, HoldsPointer, elements_words, pointers_offset, bit_at, step_bits, data_bits, low_data};

use crate::readers::{NO_SECTIONS, PointerReader, StructReader, bytes_are_below_256};
use capnp_arena_traits::arena::ReaderArena;
use capnp_pointers::object::Place;
use capnp_pointers::source::Source;
use capnp_words::primitive::Primitive;
use capnp_words::wire_pointer::{
    ElementSize, StructSize, data_bits_per_element, pointers_per_element,
};
use std::alloc::AllocError;

/// The place of a list in an arena.
///
/// The place is *inside* a message if `byte` is a multiple of 8, and its segment exists and has all
/// elements, in allocated words if the message is being built.
#[derive(Clone, Copy, Debug)]
pub struct ListPlace {
    /// The number of the segment.
    pub segment: u32,
    /// Where the elements start, in bytes from the start of the segment, a multiple of 8. In a list
    /// of structs, the elements start after the tag.
    pub byte: u64,
    /// The element size.
    pub size: ElementSize,
    /// The numbers of data words and pointers of each element; only used for a list of structs.
    pub struct_size: StructSize,
    /// The number of elements.
    pub count: u32,
}

/// A list being read, with the words of its elements.
///
/// Required of the fields: `start.bytes` has exactly the whole words of segment `start.segment` of
/// `source`, fewer than 2^32; `content` is the part of `start.bytes` from word `start.at` on that
/// has exactly the words of the elements; unless these are structs, `struct_size` is 0 and 0.
pub struct ListReader<'a, A: ReaderArena> {
    /// What the list is read from.
    pub source: Source<'a, A>,
    /// The whole words that hold the elements, without the tag of a list of structs.
    pub content: &'a [u8],
    /// Where the elements start.
    pub start: Place<'a>,
    /// The element size.
    pub element_size: ElementSize,
    /// The numbers of data words and pointers of each element of a list of structs; 0 and 0 for any
    /// other list.
    pub struct_size: StructSize,
    /// The number of elements.
    pub count: u32,
    /// The nesting limit for the list's pointers: how many levels of structs and lists may be
    /// entered from them; none if it is below 1.
    pub nesting_limit: i32,
    ghost held: { IsHeld (source_start A.ReaderArena source).segments start },
    ghost content_is: { IsPart start (8 * start.at) (64 * elements_words element_size count (struct_size.data_words + struct_size.pointers)) content.now },
    ghost inside: { HasWordsFrom (source_start A.ReaderArena source).segments start
        (elements_words element_size count (struct_size.data_words + struct_size.pointers)) },
    ghost sized: { size_number element_size < 7
        → (struct_size.data_words ≡ 0) × (struct_size.pointers ≡ 0) },
}

impl<'a, A: ReaderArena> Clone for ListReader<'a, A> {
    ghost is_clone = { λ x y. y ≡ x };

    ghost is_infallible = { λ _. ⊤ };

    fn clone(&self) -> Result<Self, AllocError> {
        Ok(*self)
    }
}

impl<'a, A: ReaderArena> Copy for ListReader<'a, A> {}

// The sections of an element that is a pointer.
const ONE_POINTER: StructSize = StructSize {
    data_words: 0,
    pointers: 1,
};

/// The number of words that `count` elements take.
fn words_of_elements(size: ElementSize, struct_size: StructSize, count: u32) -> usize
    ensures { result ≡ elements_words size count (struct_size.data_words + struct_size.pointers) }
{
    match size {
        ElementSize::InlineComposite => count as usize * struct_size.total() as usize,
        ElementSize::Pointer => count as usize,
        _ => (count as usize * data_bits_per_element(size) as usize + 63) / 64,
    }
}

impl<'a, A: ReaderArena> ListReader<'a, A> {
    ghost use Rattle.capnp_readers.specs.Readers.{ShowsList, ShowsElement, IsListPlace, element_start, read_by};
    ghost use Rattle.capnp_readers.specs.Values.{HasStructs, HasValue, ShowsListOf, ShowsNumber, ShowsStructOf, element_number, list_length, pointer_cost, struct_element};

    /// Returns a list of void without elements, which isn't in any message. Its nesting limit is
    /// `i32::MAX`.
    pub fn new_default() -> Self
        ensures source { result.source ≡ Source.Nothing }
        ensures elements { (result.element_size ≡ Void) × (result.count ≡ 0) }
        ensures nesting { result.nesting_limit ≡ i32.MAX }
    {
        ListReader {
            source: Source::Nothing,
            content: &[],
            start: Place {
                segment: 0,
                bytes: &[],
                at: 0,
            },
            element_size: ElementSize::Void,
            struct_size: StructSize {
                data_words: 0,
                pointers: 0,
            },
            count: 0,
            nesting_limit: i32::MAX,
        }
    }

    /// Returns a reader of the list at `place` of `arena`. Preconditions: `place.byte` is a
    /// multiple of 8; the elements are inside segment `place.segment` of `arena`.
    pub fn at(arena: &'a A, place: ListPlace, nesting_limit: i32) -> Self
        requires { IsListPlace (message (A.segments arena.now)) place }
        ensures source { result.source ≡ Source.Arena arena.entry }
        ensures elements { (result.element_size ≡ place.size) × (result.count ≡ place.count) }
        ensures sections { place.size ≡ InlineComposite → result.struct_size ≡ place.struct_size }
        ensures start { (result.start.segment ≡ place.segment)
            × (8 * result.start.at ≡ place.byte) }
        ensures nesting { result.nesting_limit ≡ nesting_limit }
    {
        let Ok(bytes) = arena.get_segment(place.segment) else {
            return Self::new_default();
        };
        let struct_size = match place.size {
            ElementSize::InlineComposite => place.struct_size,
            _ => NO_SECTIONS,
        };
        let start = Place {
            segment: u64::from(place.segment),
            bytes,
            at: (place.byte / 8) as u32,
        };
        Self::starting_at(
            Source::Arena(arena),
            start,
            place.size,
            struct_size,
            place.count,
            nesting_limit,
        )
    }

    // The list whose elements start at a place.
    #[inline(always)]
    #[tactic(auto, using(capnp_format::proofs::WordsOf::part_words))]
    pub(crate) fn starting_at(
        source: Source<'a, A>,
        start: Place<'a>,
        element_size: ElementSize,
        struct_size: StructSize,
        count: u32,
        nesting_limit: i32,
    ) -> Self
        requires held { IsHeld (source_start A.ReaderArena source).segments start }
        requires room { HasWordsFrom (source_start A.ReaderArena source).segments start
            (elements_words element_size count (struct_size.data_words + struct_size.pointers)) }
        requires sized { size_number element_size < 7
            → (struct_size.data_words ≡ 0) × (struct_size.pointers ≡ 0) }
        ensures source { result.source ≡ source.entry }
        ensures size { result.element_size ≡ element_size }
        ensures shows { ShowsList A.ReaderArena (source_start A.ReaderArena source.entry).segments
            result start.entry.segment start.entry.at (rows_sized struct_size count) }
        ensures nesting { result.nesting_limit ≡ nesting_limit }
    {
        let first = 8 * start.at as usize;
        let length = 8 * words_of_elements(element_size, struct_size, count);
        ListReader {
            source,
            content: &start.bytes[first..first + length],
            start,
            element_size,
            struct_size,
            count,
            nesting_limit,
        }
    }

    /// The number of elements.
    pub fn len(&self) -> u32
        ensures count { result ≡ self.now.count }
        ensures value { (t : Tree) → ShowsListOf A.ReaderArena self.now t → result ≡ list_length t }
    {
        self.count
    }

    /// Whether there are no elements.
    pub fn is_empty(&self) -> bool
        ensures count { IsTrue result ↔ (self.now.count ≡ 0) }
        ensures value { (t : Tree) → ShowsListOf A.ReaderArena self.now t
            → (IsTrue result ↔ (list_length t ≡ 0)) }
    {
        self.count == 0
    }

    /// The element size.
    pub fn get_element_size(&self) -> ElementSize
        ensures { result ≡ self.now.element_size }
    {
        self.element_size
    }

    /// The numbers of data words and pointers of each element of a list of structs; 0 and 0 for any
    /// other list.
    pub fn struct_size(&self) -> StructSize
        ensures value { result ≡ self.now.struct_size }
        ensures none { size_number self.now.element_size < 7
            → (result.data_words ≡ 0) × (result.pointers ≡ 0) }
    {
        self.struct_size
    }

    /// The whole words that hold the elements, without the tag of a list of structs.
    pub fn data_bytes(&self) -> &'a [u8]
        ensures { result.now ≡ self.now.content.now }
    {
        self.content
    }

    /// The number of data bits of each element: the size of the data section for structs, and 0 for
    /// pointers.
    pub fn element_data_bits(&self) -> u32
        ensures { result ≡ data_bits self.now.element_size self.now.struct_size }
    {
        data_bits_per_element(self.element_size) + 64 * u32::from(self.struct_size.data_words)
    }

    /// Returns the lowest 64 bits of the data of element `index`, as a number: the value of a
    /// number or a bit, or the first data word of a struct; 0 if the element has no data.
    /// Precondition: `index` is below the number of elements.
    pub fn element_data(&self, index: u32) -> u64
        requires { index < self.now.count }
        ensures data { result ≡ low_data self.now.element_size self.now.struct_size
            self.now.content.now index }
        ensures value { (t : Tree) → ShowsListOf A.ReaderArena self.now t
            → result ≡ element_number t index }
    {
        bytes_are_below_256(self.content);
        self.lowest_data(index)
    }

    // The lowest 64 bits of the data of element `index`, as a number.
    #[inline(always)]
    fn lowest_data(&self, index: u32) -> u64
        requires { index < self.now.count }
        ensures { result ≡ low_data self.now.element_size self.now.struct_size
            self.now.content.now index }
    {
        match self.element_size {
            ElementSize::Bit => u64::from(self.bit_at(index)),
            ElementSize::Byte => u64::from(self.number_at::<u8>(index)),
            ElementSize::TwoBytes => u64::from(self.number_at::<u16>(index)),
            ElementSize::FourBytes => u64::from(self.number_at::<u32>(index)),
            ElementSize::EightBytes => self.number_at(index),
            ElementSize::InlineComposite if self.struct_size.data_words > 0 => {
                self.number_at(index)
            }
            _ => 0,
        }
    }

    // The number of bits from one element to the next.
    fn step_bits(&self) -> u32
        ensures { result ≡ step_bits self.now.element_size self.now.struct_size }
    {
        // A sum without a branch: a loop over the elements computes it once.
        let StructSize {
            data_words,
            pointers,
        } = self.struct_size;
        let total = u32::from(data_words) + u32::from(pointers);
        let is_struct = u32::from(self.element_size == ElementSize::InlineComposite);
        let words = pointers_per_element(self.element_size) + is_struct * total;
        data_bits_per_element(self.element_size) + 64 * words
    }

    // The number in the lowest bytes of an element's data.
    pub(crate) fn number_at<T: Primitive>(&self, index: u32) -> T
        requires range { index < self.now.count }
        requires wide { 8 * T.BYTES ≤ data_bits self.now.element_size self.now.struct_size }
        ensures value { let start = element_start A.ReaderArena self.now index / 8 in result
            ≡ T.value_of (slice_range self.now.content.now start (start + T.BYTES)) }
        ensures little_endian { let start = element_start A.ReaderArena self.now index / 8 in
            T.bits_of result
            ≡ from_digits 256 (slice_range self.now.content.now start (start + T.BYTES)) }
        ensures number { (t : Tree) → ShowsListOf A.ReaderArena self.now t
            → T.bits_of result ≡ element_number t index % 2 ^ (8 * T.BYTES) }
    {
        bytes_are_below_256(self.content);
        let n = T::BYTES;
        let step = self.step_bits() / 8;
        let start = index as usize * step as usize;
        T::load(&self.content[start..start + n])
    }

    // The lowest bit of an element's data.
    pub(crate) fn bit_at(&self, index: u32) -> bool
        requires range { index < self.now.count }
        requires wide { 1 ≤ data_bits self.now.element_size self.now.struct_size }
        ensures bit { result ≡ nat_eq
            (bit_at self.now.content.now (element_start A.ReaderArena self.now index)) 1 }
        ensures number { (t : Tree) → ShowsListOf A.ReaderArena self.now t
            → (if result then 1 else 0) ≡ element_number t index % 2 }
    {
        bytes_are_below_256(self.content);
        let at = index as usize * self.step_bits() as usize;
        self.content[at / 8] >> (at % 8) & 1 == 1
    }

    /// Returns a reader of the pointer of element `index`: of the element itself if the elements
    /// are pointers, or of its first pointer if they are structs. Preconditions: the elements are
    /// pointers, or structs with at least one pointer; `index` is below the number of elements.
    #[tactic(auto, using(crate::proofs::Sections::elements))]
    pub fn get_pointer_element(self, index: u32) -> PointerReader<'a, A>
        requires range { index < self.count }
        requires pointers { HoldsPointer self.element_size self.struct_size }
        ensures source { result.source ≡ self.entry.source }
        ensures place { (result.place.segment ≡ self.entry.start.segment)
            × (result.place.at ≡ self.entry.start.at
            + pointers_offset self.entry.element_size self.entry.struct_size index) }
        ensures nesting { result.nesting_limit ≡ self.entry.nesting_limit }
        ensures value { (t : Tree) → ShowsListOf A.ReaderArena self.entry t → HasStructs t
            → HasValue (read_by A.ReaderArena result) (next (struct_element t index) (Child 0)) }
        ensures means { (t : Tree) (shows : ShowsListOf A.ReaderArena self.entry t) → HasStructs t
            → MeansThere (read_by A.ReaderArena result) (next (struct_element t index) (Child 0))
            (pointer_cost A.ReaderArena shows index) }
    {
        let behind = match self.element_size {
            ElementSize::InlineComposite => {
                index * self.struct_size.total() + u32::from(self.struct_size.data_words)
            }
            _ => index,
        };
        PointerReader {
            source: self.source,
            place: Place {
                at: self.start.at + behind,
                ..self.start
            },
            nesting_limit: self.nesting_limit,
        }
    }

    /// Returns element `index` as a struct, whose nesting limit is the list's own. A number becomes
    /// a struct whose data section is that number; a pointer becomes a struct with one pointer.
    /// Preconditions: the elements aren't bits; `index` is below the number of elements.
    pub fn get_struct_element(&self, index: u32) -> StructReader<'a, A>
        requires range { index < self.now.count }
        requires size { size_number self.now.element_size ≢ 1 }
        ensures source { result.source ≡ self.now.source }
        ensures element { ShowsElement A.ReaderArena self.now.element_size self.now index result }
        ensures nesting { result.nesting_limit ≡ self.now.nesting_limit }
        ensures value { (t : Tree) → ShowsListOf A.ReaderArena self.now t → HasStructs t
            → ShowsStructOf A.ReaderArena result (struct_element t index) }
        ensures number { (size : ℕ) (ns : List ℕ)
            → ShowsListOf A.ReaderArena self.now (Flat size ns)
            → ShowsNumber A.ReaderArena result (element_bits size) (slice_index ns index) }
    {
        bytes_are_below_256(self.content);
        self.element_with_limit(index, self.nesting_limit)
    }

    /// The same call as `ListReader::get_struct_element`. Preconditions: the elements aren't bits;
    /// `index` is below the number of elements.
    pub fn element(&self, index: u32) -> StructReader<'a, A>
        requires range { index < self.now.count }
        requires size { size_number self.now.element_size ≢ 1 }
        ensures source { result.source ≡ self.now.source }
        ensures element { ShowsElement A.ReaderArena self.now.element_size self.now index result }
        ensures nesting { result.nesting_limit ≡ self.now.nesting_limit }
        ensures value { (t : Tree) → ShowsListOf A.ReaderArena self.now t → HasStructs t
            → ShowsStructOf A.ReaderArena result (struct_element t index) }
        ensures number { (size : ℕ) (ns : List ℕ)
            → ShowsListOf A.ReaderArena self.now (Flat size ns)
            → ShowsNumber A.ReaderArena result (element_bits size) (slice_index ns index) }
    {
        self.get_struct_element(index)
    }

    #[tactic(auto, using(crate::proofs::Sections::elements))]
    fn element_with_limit(&self, index: u32, nesting_limit: i32) -> StructReader<'a, A>
        requires range { index < self.now.count }
        requires size { size_number self.now.element_size ≢ 1 }
        ensures source { result.source ≡ self.now.source }
        ensures element { ShowsElement A.ReaderArena self.now.element_size self.now index result }
        ensures nesting { result.nesting_limit ≡ nesting_limit }
    {
        match self.element_size {
            ElementSize::InlineComposite => StructReader::starting_at(
                self.source,
                Place {
                    at: self.start.at + index * self.struct_size.total(),
                    ..self.start
                },
                self.struct_size,
                nesting_limit,
            ),
            _ => self.non_struct_element(index, nesting_limit),
        }
    }

    // An element that isn't a struct, as a struct of its bits or of one pointer. Not inlined, so
    // that a loop over structs makes one test for each.
    #[tactic(auto, using(crate::proofs::Sections::elements))]
    #[cold]
    #[inline(never)]
    fn non_struct_element(&self, index: u32, nesting_limit: i32) -> StructReader<'a, A>
        requires range { index < self.now.count }
        requires size { size_number self.now.element_size ≢ 1 }
        requires plain { size_number self.now.element_size ≤ 6 }
        ensures source { result.source ≡ self.now.source }
        ensures element { ShowsElement A.ReaderArena self.now.element_size self.now index result }
        ensures nesting { result.nesting_limit ≡ nesting_limit }
    {
        match self.element_size {
            ElementSize::Pointer => StructReader::starting_at(
                self.source,
                Place {
                    at: self.start.at + index,
                    ..self.start
                },
                ONE_POINTER,
                nesting_limit,
            ),
            _ => self.number_element(index, nesting_limit),
        }
    }

    // An element that is a number, as a struct of its bits.
    fn number_element(&self, index: u32, nesting_limit: i32) -> StructReader<'a, A>
        requires range { index < self.now.count }
        requires whole { size_number self.now.element_size ≢ 1 }
        requires flat { size_number self.now.element_size ≤ 5 }
        ensures source { result.source ≡ self.now.source }
        ensures bits { result.bits ≡ element_bits (size_number self.now.element_size) }
        ensures byte { result.byte ≡ 8 * self.now.start.at + index * (result.bits / 8) }
        ensures content { result.content.now ≡ slice_range self.now.content.now
            (index * (result.bits / 8)) (index * (result.bits / 8) + result.bits / 8) }
        ensures pointers { result.pointer_count ≡ 0 }
        ensures nesting { result.nesting_limit ≡ nesting_limit }
    {
        let bits = data_bits_per_element(self.element_size);
        let length = bits as usize / 8;
        let first = index as usize * length;
        StructReader {
            source: self.source,
            content: &self.content[first..first + length],
            byte: 8 * u64::from(self.start.at) + first as u64,
            bits,
            pointers: self.start,
            pointer_count: 0,
            nesting_limit,
        }
    }
}
