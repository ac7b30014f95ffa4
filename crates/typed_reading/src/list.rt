//! Lists of structs, of numbers and of texts that are read.
ghost use Rattle.std.specs.Prelude.{◌≡◌, ◌≢◌, ◌<◌, ◌≤◌, ◌%◌, ◌/◌, ◌^◌, ℕ, List, length, IfOk, IsOk, OnOk, slice_index, ⊤};
ghost use Rattle.std.specs.Result.{result_err};
ghost use Rattle.capnp_format.specs.Numbers.{element_bits};
ghost use Rattle.capnp_format.specs.Tree.{Tree, Null, Flat};
ghost use Rattle.capnp_words.specs.Meter.{Affords};
ghost use Rattle.capnp_words.specs.Sizes.{size_number};
ghost use Rattle.capnp_words.specs.declared.wire_pointer.ElementSize.TheVariants.{InlineComposite, Pointer};
ghost use Rattle.capnp_pointers.specs.Expected.{data_expected, text_expected};
ghost use Rattle.capnp_pointers.specs.Reading.{source_start};
ghost use Rattle.capnp_pointers.specs.Spending.{Paid};
ghost use Rattle.capnp_readers.specs.Sections.{data_bits};
ghost use Rattle.capnp_readers.specs.Values.{ShowsListOf, ShowsNumber, ShowsStructOf, FitsElements, HasStructs, IsBytes, IsText, element_number, list_length, list_numbers, pointer_cost, struct_element, text_bytes};
ghost use Rattle.typed_reading.specs.Outcomes.{reading_outcome};
ghost use Rattle.typed_reading.specs.Lists.{GetsList, GetsListOr, field_call};
ghost use Rattle.typed_reading.specs.Sections.{ElementHasSections, ShowsSectionsOf, element_pointer};
ghost use Rattle.typed_reading.specs.Values.{pointer_element};

use crate::value::is_null;
use capnp_arena_traits::arena::ReaderArena;
use capnp_readers::readers::{ListReader, PointerReader, PrimitiveElement, StructReader};
use capnp_words::error::ErrorKind;
use capnp_words::read_limiter::ReadLimiter;
use capnp_words::wire_pointer::ElementSize;
use std::alloc::AllocError;
use std::marker::PhantomData;

/// A list of structs that is read.
pub struct StructsReader<'a, A: ReaderArena> {
    /// The list. Required: its elements aren't bits.
    pub reader: ListReader<'a, A>,
    ghost whole: { size_number reader.element_size ≢ 1 },
}

impl<'a, A: ReaderArena> Clone for StructsReader<'a, A> {
    ghost is_clone = { λ x y. y ≡ x };

    ghost is_infallible = { λ _. ⊤ };

    fn clone(&self) -> Result<Self, AllocError> {
        Ok(*self)
    }
}

impl<'a, A: ReaderArena> Copy for StructsReader<'a, A> {}

impl<'a, A: ReaderArena> StructsReader<'a, A> {
    /// The number of elements.
    pub fn len(&self) -> u32
        ensures count { result ≡ self.now.reader.count }
        ensures value { (t : Tree) → ShowsListOf A.ReaderArena self.now.reader t
            → result ≡ list_length t }
    {
        self.reader.len()
    }

    /// Returns element `index`. Precondition: `index` is below the number of elements.
    pub fn get(&self, index: u32) -> StructReader<'a, A>
        requires { index < self.now.reader.count }
        ensures value { (t : Tree) → ShowsListOf A.ReaderArena self.now.reader t → HasStructs t
            → ShowsStructOf A.ReaderArena result (struct_element t index) }
        ensures sections { (t : Tree) → ElementHasSections A.ReaderArena self.now.reader index t
            → ShowsSectionsOf A.ReaderArena result t }
        ensures number { (size : ℕ) (ns : List ℕ)
            → ShowsListOf A.ReaderArena self.now.reader (Flat size ns)
            → ShowsNumber A.ReaderArena result (element_bits size) (slice_index ns index) }
        ensures source { result.source ≡ self.now.reader.source }
    {
        self.reader.get_struct_element(index)
    }
}

/// A list of numbers that is read, of bits, or of nothing.
pub struct NumbersReader<'a, A: ReaderArena, T: PrimitiveElement> {
    /// The list.
    pub reader: ListReader<'a, A>,
    // The type of the elements.
    of: PhantomData<T>,
    ghost wide: { 0 < reader.count → element_bits (size_number T.size)
        ≤ data_bits reader.element_size reader.struct_size },
}

impl<'a, A: ReaderArena, T: PrimitiveElement> Clone for NumbersReader<'a, A, T> {
    ghost is_clone = { λ x y. y ≡ x };

    ghost is_infallible = { λ _. ⊤ };

    fn clone(&self) -> Result<Self, AllocError> {
        Ok(*self)
    }
}

impl<'a, A: ReaderArena, T: PrimitiveElement> Copy for NumbersReader<'a, A, T> {}

impl<'a, A: ReaderArena, T: PrimitiveElement> NumbersReader<'a, A, T> {
    /// The number of elements.
    pub fn len(&self) -> u32
        ensures count { result ≡ self.now.reader.count }
        ensures value { (t : Tree) → ShowsListOf A.ReaderArena self.now.reader t
            → result ≡ list_length t }
    {
        self.reader.len()
    }

    /// Returns element `index`: the lowest bits of its data. Precondition: `index` is below the
    /// number of elements.
    pub fn get(&self, index: u32) -> T
        requires { index < self.now.reader.count }
        ensures { (t : Tree) → ShowsListOf A.ReaderArena self.now.reader t
            → T.number_of result
            ≡ element_number t index % 2 ^ element_bits (size_number T.size) }
    {
        T::get(&self.reader, index)
    }
}

/// A list of texts that is read.
pub struct TextsReader<'a, A: ReaderArena> {
    /// The list. Required: its elements, if there are any, are pointers or structs with pointers.
    pub reader: ListReader<'a, A>,
    ghost pointers: { 0 < reader.count → size_number reader.element_size ≢ 6
        → 0 < reader.struct_size.pointers },
}

impl<'a, A: ReaderArena> Clone for TextsReader<'a, A> {
    ghost is_clone = { λ x y. y ≡ x };

    ghost is_infallible = { λ _. ⊤ };

    fn clone(&self) -> Result<Self, AllocError> {
        Ok(*self)
    }
}

impl<'a, A: ReaderArena> Copy for TextsReader<'a, A> {}

impl<'a, A: ReaderArena> TextsReader<'a, A> {
    /// The number of elements.
    pub fn len(&self) -> u32
        ensures count { result ≡ self.now.reader.count }
        ensures value { (t : Tree) → ShowsListOf A.ReaderArena self.now.reader t
            → result ≡ list_length t }
    {
        self.reader.len()
    }

    /// Returns the bytes of text `index`, without the zero byte at its end; no bytes if the element
    /// is null. Precondition: `index` is below the number of elements.
    ///
    /// Refuses like `PointerReader::get_text`.
    pub fn get(&self, index: u32, lim: &mut ReadLimiter) -> Result<&'a [u8], ErrorKind>
        requires { index < self.now.reader.count }
        ensures value { (t : Tree) → ShowsListOf A.ReaderArena self.now.reader t → HasStructs t
            → IfOk result (λ text. text.now ≡ text_bytes (pointer_element index t)) }
        ensures answered { let start = source_start A.ReaderArena self.now.reader.source in
            (t : Tree) (shows : ShowsListOf A.ReaderArena self.now.reader t) → HasStructs t
            → IsText (pointer_element index t)
            → Affords start.charging lim.old (pointer_cost A.ReaderArena shows index)
            → IsOk result }
        ensures spent { let start = source_start A.ReaderArena self.now.reader.source in
            (t : Tree) (shows : ShowsListOf A.ReaderArena self.now.reader t) → HasStructs t
            → pointer_element index t ≢ Null → OnOk result (Paid start.charging lim.old lim.new
            (pointer_cost A.ReaderArena shows index) 1) }
        ensures exactly { reading_outcome text_expected
            (element_pointer A.ReaderArena self.now.reader index) lim.old
            ≡ (result_err result, lim.new) }
    {
        self.reader.get_pointer_element(index).get_text(lim, None)
    }
}

/// A list of data that is read.
pub struct DataListReader<'a, A: ReaderArena> {
    /// The list. Required: its elements, if there are any, are pointers or structs with pointers.
    pub reader: ListReader<'a, A>,
    ghost pointers: { 0 < reader.count → size_number reader.element_size ≢ 6
        → 0 < reader.struct_size.pointers },
}

impl<'a, A: ReaderArena> Clone for DataListReader<'a, A> {
    ghost is_clone = { λ x y. y ≡ x };

    ghost is_infallible = { λ _. ⊤ };

    fn clone(&self) -> Result<Self, AllocError> {
        Ok(*self)
    }
}

impl<'a, A: ReaderArena> Copy for DataListReader<'a, A> {}

impl<'a, A: ReaderArena> DataListReader<'a, A> {
    /// The number of elements.
    pub fn len(&self) -> u32
        ensures count { result ≡ self.now.reader.count }
        ensures value { (t : Tree) → ShowsListOf A.ReaderArena self.now.reader t
            → result ≡ list_length t }
    {
        self.reader.len()
    }

    /// Returns the bytes of data `index`; no bytes if the element is null. Precondition: `index` is
    /// below the number of elements.
    ///
    /// Refuses like `PointerReader::get_data`.
    pub fn get(&self, index: u32, lim: &mut ReadLimiter) -> Result<&'a [u8], ErrorKind>
        requires { index < self.now.reader.count }
        ensures value { (t : Tree) → ShowsListOf A.ReaderArena self.now.reader t → HasStructs t
            → IfOk result (λ bytes. bytes.now ≡ list_numbers (pointer_element index t)) }
        ensures answered { let start = source_start A.ReaderArena self.now.reader.source in
            (t : Tree) (shows : ShowsListOf A.ReaderArena self.now.reader t) → HasStructs t
            → IsBytes (pointer_element index t)
            → Affords start.charging lim.old (pointer_cost A.ReaderArena shows index)
            → IsOk result }
        ensures spent { let start = source_start A.ReaderArena self.now.reader.source in
            (t : Tree) (shows : ShowsListOf A.ReaderArena self.now.reader t) → HasStructs t
            → pointer_element index t ≢ Null → OnOk result (Paid start.charging lim.old lim.new
            (pointer_cost A.ReaderArena shows index) 1) }
        ensures exactly { reading_outcome data_expected
            (element_pointer A.ReaderArena self.now.reader index) lim.old
            ≡ (result_err result, lim.new) }
    {
        self.reader.get_pointer_element(index).get_data(lim, None)
    }
}

/// A list of pointers that is read: of lists, of capabilities, or of anything.
pub struct PointersReader<'a, A: ReaderArena> {
    /// The list. Required: its elements aren't bits.
    pub reader: ListReader<'a, A>,
    ghost whole: { size_number reader.element_size ≢ 1 },
}

impl<'a, A: ReaderArena> Clone for PointersReader<'a, A> {
    ghost is_clone = { λ x y. y ≡ x };

    ghost is_infallible = { λ _. ⊤ };

    fn clone(&self) -> Result<Self, AllocError> {
        Ok(*self)
    }
}

impl<'a, A: ReaderArena> Copy for PointersReader<'a, A> {}

impl<'a, A: ReaderArena> PointersReader<'a, A> {
    /// The number of elements.
    pub fn len(&self) -> u32
        ensures count { result ≡ self.now.reader.count }
        ensures value { (t : Tree) → ShowsListOf A.ReaderArena self.now.reader t
            → result ≡ list_length t }
    {
        self.reader.len()
    }

    /// Returns element `index` as a struct whose pointer 0 is the element, so that the functions of
    /// this crate read it. Precondition: `index` is below the number of elements.
    pub fn get(&self, index: u32) -> StructReader<'a, A>
        requires { index < self.now.reader.count }
        ensures value { (t : Tree) → ShowsListOf A.ReaderArena self.now.reader t → HasStructs t
            → ShowsStructOf A.ReaderArena result (struct_element t index) }
        ensures source { result.source ≡ self.now.reader.source }
    {
        self.reader.element(index)
    }
}

// The list that a pointer of a struct leads to; a list without elements if the pointer is null.
fn get_list<'a, A: ReaderArena>(
    reader: &StructReader<'a, A>,
    index: usize,
    expected: ElementSize,
    lim: &mut ReadLimiter,
) -> Result<ListReader<'a, A>, ErrorKind>
    ensures gets { GetsList A.ReaderArena
        (field_call A.ReaderArena reader.now index lim.old lim.new) expected result
        (λ list. list) }
    ensures fits { IfOk result (FitsElements A.ReaderArena expected) }
{
    reader
        .get_pointer_field(index)
        .get_list(lim, expected, None)
}

/// Returns the list of structs that a pointer of a struct leads to; a list without elements if the
/// pointer is null.
///
/// Refuses like `PointerReader::get_list`.
pub fn get_structs<'a, A: ReaderArena>(
    reader: &StructReader<'a, A>,
    index: usize,
    lim: &mut ReadLimiter,
) -> Result<StructsReader<'a, A>, ErrorKind>
    ensures { GetsList A.ReaderArena
        (field_call A.ReaderArena reader.now index lim.old lim.new) InlineComposite result
        (λ list. list.reader) }
{
    match get_list(reader, index, ElementSize::InlineComposite, lim) {
        Ok(reader) => Ok(StructsReader { reader }),
        Err(kind) => Err(kind),
    }
}

/// Returns the list of numbers that a pointer of a struct leads to; a list without elements if the
/// pointer is null.
///
/// Refuses like `PointerReader::get_list`.
pub fn get_numbers<'a, A: ReaderArena, T: PrimitiveElement>(
    reader: &StructReader<'a, A>,
    index: usize,
    lim: &mut ReadLimiter,
) -> Result<NumbersReader<'a, A, T>, ErrorKind>
    ensures { GetsList A.ReaderArena
        (field_call A.ReaderArena reader.now index lim.old lim.new) T.size result
        (λ list. list.reader) }
{
    match get_list(reader, index, T::element_size(), lim) {
        Ok(reader) => Ok(NumbersReader {
            reader,
            of: PhantomData,
        }),
        Err(kind) => Err(kind),
    }
}

/// Returns the list of texts that a pointer of a struct leads to; a list without elements if the
/// pointer is null.
///
/// Refuses like `PointerReader::get_list`.
pub fn get_texts<'a, A: ReaderArena>(
    reader: &StructReader<'a, A>,
    index: usize,
    lim: &mut ReadLimiter,
) -> Result<TextsReader<'a, A>, ErrorKind>
    ensures { GetsList A.ReaderArena
        (field_call A.ReaderArena reader.now index lim.old lim.new) Pointer result
        (λ list. list.reader) }
{
    match get_list(reader, index, ElementSize::Pointer, lim) {
        Ok(reader) => Ok(TextsReader { reader }),
        Err(kind) => Err(kind),
    }
}

/// Returns the list of data that a pointer of a struct leads to; a list without elements if the
/// pointer is null.
///
/// Refuses like `PointerReader::get_list`.
pub fn get_data_list<'a, A: ReaderArena>(
    reader: &StructReader<'a, A>,
    index: usize,
    lim: &mut ReadLimiter,
) -> Result<DataListReader<'a, A>, ErrorKind>
    ensures { GetsList A.ReaderArena
        (field_call A.ReaderArena reader.now index lim.old lim.new) Pointer result
        (λ list. list.reader) }
{
    match get_list(reader, index, ElementSize::Pointer, lim) {
        Ok(reader) => Ok(DataListReader { reader }),
        Err(kind) => Err(kind),
    }
}

/// Returns the list of pointers that a pointer of a struct leads to; a list without elements if the
/// pointer is null.
///
/// Refuses like `PointerReader::get_list`.
pub fn get_pointers<'a, A: ReaderArena>(
    reader: &StructReader<'a, A>,
    index: usize,
    lim: &mut ReadLimiter,
) -> Result<PointersReader<'a, A>, ErrorKind>
    ensures { GetsList A.ReaderArena
        (field_call A.ReaderArena reader.now index lim.old lim.new) Pointer result
        (λ list. list.reader) }
{
    match get_list(reader, index, ElementSize::Pointer, lim) {
        Ok(reader) => Ok(PointersReader { reader }),
        Err(kind) => Err(kind),
    }
}

// The list that a pointer of a struct leads to; that of `default` if the pointer is null.
fn get_list_or<'a, A: ReaderArena>(
    reader: &StructReader<'a, A>,
    index: usize,
    expected: ElementSize,
    default: &'a [u8],
    lim: &mut ReadLimiter,
) -> Result<ListReader<'a, A>, ErrorKind>
    requires { length default.now / 8 < 2 ^ 32 }
    ensures gets { GetsListOr A.ReaderArena
        (field_call A.ReaderArena reader.now index lim.old lim.new) default.now expected result
        (λ list. list) }
    ensures fits { IfOk result (FitsElements A.ReaderArena expected) }
{
    if is_null(reader, index) {
        return match PointerReader::from_default(default) {
            Ok(field) => field.get_list(lim, expected, None),
            Err(kind) => Err(kind),
        };
    }
    get_list(reader, index, expected, lim)
}

/// Returns the list of structs that a pointer of a struct leads to, like `get_structs`; that of
/// `default`, which is one segment with its pointer in the first word, if the pointer is null.
/// Reading the default charges nothing. Precondition: `default` has fewer than 2^32 words.
pub fn get_structs_or<'a, A: ReaderArena>(
    reader: &StructReader<'a, A>,
    index: usize,
    default: &'a [u8],
    lim: &mut ReadLimiter,
) -> Result<StructsReader<'a, A>, ErrorKind>
    requires { length default.now / 8 < 2 ^ 32 }
    ensures { GetsListOr A.ReaderArena
        (field_call A.ReaderArena reader.now index lim.old lim.new) default.now InlineComposite
        result (λ list. list.reader) }
{
    match get_list_or(reader, index, ElementSize::InlineComposite, default, lim) {
        Ok(list) => Ok(StructsReader { reader: list }),
        Err(kind) => Err(kind),
    }
}

/// Returns the list of numbers that a pointer of a struct leads to, like `get_numbers`; that of
/// `default`, which is one segment with its pointer in the first word, if the pointer is null.
/// Reading the default charges nothing. Precondition: `default` has fewer than 2^32 words.
pub fn get_numbers_or<'a, A: ReaderArena, T: PrimitiveElement>(
    reader: &StructReader<'a, A>,
    index: usize,
    default: &'a [u8],
    lim: &mut ReadLimiter,
) -> Result<NumbersReader<'a, A, T>, ErrorKind>
    requires { length default.now / 8 < 2 ^ 32 }
    ensures { GetsListOr A.ReaderArena
        (field_call A.ReaderArena reader.now index lim.old lim.new) default.now T.size result
        (λ list. list.reader) }
{
    match get_list_or(reader, index, T::element_size(), default, lim) {
        Ok(reader) => Ok(NumbersReader {
            reader,
            of: PhantomData,
        }),
        Err(kind) => Err(kind),
    }
}

/// Returns the list of texts that a pointer of a struct leads to, like `get_texts`; that of
/// `default`, which is one segment with its pointer in the first word, if the pointer is null.
/// Reading the default charges nothing. Precondition: `default` has fewer than 2^32 words.
pub fn get_texts_or<'a, A: ReaderArena>(
    reader: &StructReader<'a, A>,
    index: usize,
    default: &'a [u8],
    lim: &mut ReadLimiter,
) -> Result<TextsReader<'a, A>, ErrorKind>
    requires { length default.now / 8 < 2 ^ 32 }
    ensures { GetsListOr A.ReaderArena
        (field_call A.ReaderArena reader.now index lim.old lim.new) default.now Pointer result
        (λ list. list.reader) }
{
    match get_list_or(reader, index, ElementSize::Pointer, default, lim) {
        Ok(list) => Ok(TextsReader { reader: list }),
        Err(kind) => Err(kind),
    }
}

/// Returns the list of data that a pointer of a struct leads to, like `get_data_list`; that of
/// `default`, which is one segment with its pointer in the first word, if the pointer is null.
/// Reading the default charges nothing. Precondition: `default` has fewer than 2^32 words.
pub fn get_data_list_or<'a, A: ReaderArena>(
    reader: &StructReader<'a, A>,
    index: usize,
    default: &'a [u8],
    lim: &mut ReadLimiter,
) -> Result<DataListReader<'a, A>, ErrorKind>
    requires { length default.now / 8 < 2 ^ 32 }
    ensures { GetsListOr A.ReaderArena
        (field_call A.ReaderArena reader.now index lim.old lim.new) default.now Pointer result
        (λ list. list.reader) }
{
    match get_list_or(reader, index, ElementSize::Pointer, default, lim) {
        Ok(list) => Ok(DataListReader { reader: list }),
        Err(kind) => Err(kind),
    }
}

/// Returns the list of pointers that a pointer of a struct leads to, like `get_pointers`; that of
/// `default`, which is one segment with its pointer in the first word, if the pointer is null.
/// Reading the default charges nothing. Precondition: `default` has fewer than 2^32 words.
pub fn get_pointers_or<'a, A: ReaderArena>(
    reader: &StructReader<'a, A>,
    index: usize,
    default: &'a [u8],
    lim: &mut ReadLimiter,
) -> Result<PointersReader<'a, A>, ErrorKind>
    requires { length default.now / 8 < 2 ^ 32 }
    ensures { GetsListOr A.ReaderArena
        (field_call A.ReaderArena reader.now index lim.old lim.new) default.now Pointer result
        (λ list. list.reader) }
{
    match get_list_or(reader, index, ElementSize::Pointer, default, lim) {
        Ok(list) => Ok(PointersReader { reader: list }),
        Err(kind) => Err(kind),
    }
}
