//! Value
ghost use Rattle.std.specs.Prelude.{◌≡◌, ◌≢◌, ◌<◌, ◌≤◌, ◌+◌, ◌↔◌, ℕ, IsTrue, IfOk, IfErr, IsOk, ⊤};
ghost use Rattle.std.specs.Result.{result_err};
ghost use Rattle.std.specs.Int.{cast_unsigned, w8, w16, w32, w64};
ghost use Rattle.capnp_format.specs.Bytes.{message};
ghost use Rattle.capnp_format.specs.Means.{Means};
ghost use Rattle.capnp_format.specs.Tree.{Tree, Null};
ghost use Rattle.capnp_words.specs.Meter.{Affords};
ghost use Rattle.capnp_arena_traits.specs.Checks.{Holds};
ghost use Rattle.capnp_pointers.specs.Expected.{data_expected, text_expected};
ghost use Rattle.capnp_pointers.specs.Reading.{source_start, word_of};
ghost use Rattle.capnp_pointers.specs.Source.{levels};
ghost use Rattle.capnp_readers.specs.Readers.{read_by};
ghost use Rattle.capnp_readers.specs.Values.{HasStructs, HasValue, IsBytes, IsStructOrNull, IsText, ShowsListOf, ShowsStructOf, child_cost, list_length, struct_element};
ghost use Rattle.typed_reading.specs.Outcomes.{reading_outcome, root_outcome, root_place};
ghost use Rattle.typed_reading.specs.Sections.{ElementHasSections, LeadsToSectionsOf, ShowsSectionsOf, pointer_field};
ghost use Rattle.typed_reading.specs.Values.{child};
ghost use Rattle.schema_reading.specs.Schema.{value_bool, value_int8, value_int16, value_int32, value_int64, value_uint8, value_uint16, value_uint32, value_uint64, value_float32, value_float64, value_text, value_data, value_list, value_enum, value_struct, value_any_pointer, value_tag};
ghost use Rattle.schema_reading.specs.OfValueWhich.{value_which_number};

use crate::value_which;
use capnp_arena_traits::arena::ReaderArena;
use capnp_readers::readers::{PointerReader, StructReader};
use capnp_words::error::ErrorKind;
use capnp_words::read_limiter::ReadLimiter;
use std::alloc::AllocError;
use typed_reading::error::NotInSchema;
use typed_reading::list::StructsReader;
use typed_reading::value;

/// Value.
pub struct Reader<'a, A: ReaderArena> {
    /// The struct.
    pub reader: StructReader<'a, A>,
}

impl<'a, A: ReaderArena> Clone for Reader<'a, A> {
    ghost is_clone = { λ x y. y ≡ x };

    ghost is_infallible = { λ _. ⊤ };

    fn clone(&self) -> Result<Self, AllocError> {
        Ok(*self)
    }
}

impl<'a, A: ReaderArena> Copy for Reader<'a, A> {}

impl<'a, A: ReaderArena> Reader<'a, A> {
    /// Returns the root of a message.
    pub fn root(arena: &'a A, lim: &mut ReadLimiter) -> Result<Self, ErrorKind>
        ensures value { (t : Tree) (c : ℕ)
            → Means (message (A.segments arena.now)) (levels (A.nesting arena.now)) 0 0 t c
            → IfOk result (λ r. ShowsStructOf A.ReaderArena r.reader t) }
        ensures answered { let S = message (A.segments arena.now) in (t : Tree) (c : ℕ)
            → Holds S 0 0 1 → IsStructOrNull t → Means S (levels (A.nesting arena.now)) 0 0 t c
            → Affords (A.charging arena.now) lim.old (1 + c) → IsOk result }
        ensures left { (t : Tree) (c : ℕ)
            → Means (message (A.segments arena.now)) (levels (A.nesting arena.now)) 0 0 t c
            → Affords (A.charging arena.now) lim.old (1 + c)
            → IfOk result (λ r. (shows : ShowsStructOf A.ReaderArena r.reader t) (i : ℕ)
            → Affords (source_start A.ReaderArena r.reader.source).charging lim.new
            (child_cost A.ReaderArena shows i)) }
        ensures exactly { root_outcome A.ReaderArena arena.entry lim.old
            ≡ (result_err result, lim.new) }
        ensures sections { (t : Tree)
            → LeadsToSectionsOf (root_place A.ReaderArena arena.entry) t
            → IfOk result (λ r. ShowsSectionsOf A.ReaderArena r.reader t) }
    {
        match value::root(arena, lim) {
            Ok(reader) => Ok(Reader { reader }),
            Err(k) => Err(k),
        }
    }

    /// bool @1 :Bool
    pub fn get_bool(&self) -> bool
        ensures value { (t : Tree) → ShowsStructOf A.ReaderArena self.now.reader t
            → (IsTrue result ↔ (value_bool t ≡ 1)) }
        ensures sections { (t : Tree) → ShowsSectionsOf A.ReaderArena self.now.reader t
            → (IsTrue result ↔ (value_bool t ≡ 1)) }
    {
        value::get_bool(&self.reader, 16)
    }

    /// int8 @2 :Int8
    pub fn get_int8(&self) -> i8
        ensures value { (t : Tree) → ShowsStructOf A.ReaderArena self.now.reader t
            → cast_unsigned w8 result ≡ value_int8 t }
        ensures sections { (t : Tree) → ShowsSectionsOf A.ReaderArena self.now.reader t
            → cast_unsigned w8 result ≡ value_int8 t }
    {
        value::get_number(&self.reader, 2)
    }

    /// int16 @3 :Int16
    pub fn get_int16(&self) -> i16
        ensures value { (t : Tree) → ShowsStructOf A.ReaderArena self.now.reader t
            → cast_unsigned w16 result ≡ value_int16 t }
        ensures sections { (t : Tree) → ShowsSectionsOf A.ReaderArena self.now.reader t
            → cast_unsigned w16 result ≡ value_int16 t }
    {
        value::get_number(&self.reader, 1)
    }

    /// int32 @4 :Int32
    pub fn get_int32(&self) -> i32
        ensures value { (t : Tree) → ShowsStructOf A.ReaderArena self.now.reader t
            → cast_unsigned w32 result ≡ value_int32 t }
        ensures sections { (t : Tree) → ShowsSectionsOf A.ReaderArena self.now.reader t
            → cast_unsigned w32 result ≡ value_int32 t }
    {
        value::get_number(&self.reader, 1)
    }

    /// int64 @5 :Int64
    pub fn get_int64(&self) -> i64
        ensures value { (t : Tree) → ShowsStructOf A.ReaderArena self.now.reader t
            → cast_unsigned w64 result ≡ value_int64 t }
        ensures sections { (t : Tree) → ShowsSectionsOf A.ReaderArena self.now.reader t
            → cast_unsigned w64 result ≡ value_int64 t }
    {
        value::get_number(&self.reader, 1)
    }

    /// uint8 @6 :UInt8
    pub fn get_uint8(&self) -> u8
        ensures value { (t : Tree) → ShowsStructOf A.ReaderArena self.now.reader t
            → result ≡ value_uint8 t }
        ensures sections { (t : Tree) → ShowsSectionsOf A.ReaderArena self.now.reader t
            → result ≡ value_uint8 t }
    {
        value::get_number(&self.reader, 2)
    }

    /// uint16 @7 :UInt16
    pub fn get_uint16(&self) -> u16
        ensures value { (t : Tree) → ShowsStructOf A.ReaderArena self.now.reader t
            → result ≡ value_uint16 t }
        ensures sections { (t : Tree) → ShowsSectionsOf A.ReaderArena self.now.reader t
            → result ≡ value_uint16 t }
    {
        value::get_number(&self.reader, 1)
    }

    /// uint32 @8 :UInt32
    pub fn get_uint32(&self) -> u32
        ensures value { (t : Tree) → ShowsStructOf A.ReaderArena self.now.reader t
            → result ≡ value_uint32 t }
        ensures sections { (t : Tree) → ShowsSectionsOf A.ReaderArena self.now.reader t
            → result ≡ value_uint32 t }
    {
        value::get_number(&self.reader, 1)
    }

    /// uint64 @9 :UInt64
    pub fn get_uint64(&self) -> u64
        ensures value { (t : Tree) → ShowsStructOf A.ReaderArena self.now.reader t
            → result ≡ value_uint64 t }
        ensures sections { (t : Tree) → ShowsSectionsOf A.ReaderArena self.now.reader t
            → result ≡ value_uint64 t }
    {
        value::get_number(&self.reader, 1)
    }

    /// float32 @10 :Float32
    pub fn get_float32(&self) -> u32
        ensures value { (t : Tree) → ShowsStructOf A.ReaderArena self.now.reader t
            → result ≡ value_float32 t }
        ensures sections { (t : Tree) → ShowsSectionsOf A.ReaderArena self.now.reader t
            → result ≡ value_float32 t }
    {
        value::get_number(&self.reader, 1)
    }

    /// float64 @11 :Float64
    pub fn get_float64(&self) -> u64
        ensures value { (t : Tree) → ShowsStructOf A.ReaderArena self.now.reader t
            → result ≡ value_float64 t }
        ensures sections { (t : Tree) → ShowsSectionsOf A.ReaderArena self.now.reader t
            → result ≡ value_float64 t }
    {
        value::get_number(&self.reader, 1)
    }

    /// text @12 :Text
    pub fn get_text(&self, lim: &mut ReadLimiter) -> Result<&'a [u8], ErrorKind>
        ensures value { (t : Tree) → ShowsStructOf A.ReaderArena self.now.reader t
            → IfOk result (λ text. text.now ≡ value_text t) }
        ensures answered { let start = source_start A.ReaderArena self.now.reader.source in
            (t : Tree) (shows : ShowsStructOf A.ReaderArena self.now.reader t)
            → IsText (child 0 t)
            → Affords start.charging lim.old (child_cost A.ReaderArena shows 0)
            → IsOk result }
        ensures exactly { reading_outcome text_expected
            (pointer_field A.ReaderArena self.now.reader 0) lim.old
            ≡ (result_err result, lim.new) }
    {
        value::get_text(&self.reader, 0, lim)
    }

    /// Whether the pointer of text is not null.
    pub fn has_text(&self) -> bool
        ensures value { (t : Tree) → ShowsStructOf A.ReaderArena self.now.reader t
            → (IsTrue result ↔ (child 0 t ≢ Null)) }
        ensures word { IsTrue result
            ↔ (word_of (pointer_field A.ReaderArena self.now.reader 0) ≢ 0) }
    {
        value::has(&self.reader, 0)
    }

    /// data @13 :Data
    pub fn get_data(&self, lim: &mut ReadLimiter) -> Result<&'a [u8], ErrorKind>
        ensures value { (t : Tree) → ShowsStructOf A.ReaderArena self.now.reader t
            → IfOk result (λ bytes. bytes.now ≡ value_data t) }
        ensures answered { let start = source_start A.ReaderArena self.now.reader.source in
            (t : Tree) (shows : ShowsStructOf A.ReaderArena self.now.reader t)
            → IsBytes (child 0 t)
            → Affords start.charging lim.old (child_cost A.ReaderArena shows 0)
            → IsOk result }
        ensures exactly { reading_outcome data_expected
            (pointer_field A.ReaderArena self.now.reader 0) lim.old
            ≡ (result_err result, lim.new) }
    {
        value::get_data(&self.reader, 0, lim)
    }

    /// Whether the pointer of data is not null.
    pub fn has_data(&self) -> bool
        ensures value { (t : Tree) → ShowsStructOf A.ReaderArena self.now.reader t
            → (IsTrue result ↔ (child 0 t ≢ Null)) }
        ensures word { IsTrue result
            ↔ (word_of (pointer_field A.ReaderArena self.now.reader 0) ≢ 0) }
    {
        value::has(&self.reader, 0)
    }

    /// list @14 :AnyPointer
    pub fn get_list(&self) -> PointerReader<'a, A>
        ensures value { (t : Tree) → ShowsStructOf A.ReaderArena self.now.reader t
            → HasValue (read_by A.ReaderArena result) (value_list t) }
        ensures place { read_by A.ReaderArena result
            ≡ pointer_field A.ReaderArena self.now.reader 0 }
    {
        value::get_pointer(&self.reader, 0)
    }

    /// Whether the pointer of list is not null.
    pub fn has_list(&self) -> bool
        ensures value { (t : Tree) → ShowsStructOf A.ReaderArena self.now.reader t
            → (IsTrue result ↔ (child 0 t ≢ Null)) }
        ensures word { IsTrue result
            ↔ (word_of (pointer_field A.ReaderArena self.now.reader 0) ≢ 0) }
    {
        value::has(&self.reader, 0)
    }

    /// enum @15 :UInt16
    pub fn get_enum(&self) -> u16
        ensures value { (t : Tree) → ShowsStructOf A.ReaderArena self.now.reader t
            → result ≡ value_enum t }
        ensures sections { (t : Tree) → ShowsSectionsOf A.ReaderArena self.now.reader t
            → result ≡ value_enum t }
    {
        value::get_number(&self.reader, 1)
    }

    /// struct @16 :AnyPointer
    pub fn get_struct(&self) -> PointerReader<'a, A>
        ensures value { (t : Tree) → ShowsStructOf A.ReaderArena self.now.reader t
            → HasValue (read_by A.ReaderArena result) (value_struct t) }
        ensures place { read_by A.ReaderArena result
            ≡ pointer_field A.ReaderArena self.now.reader 0 }
    {
        value::get_pointer(&self.reader, 0)
    }

    /// Whether the pointer of struct is not null.
    pub fn has_struct(&self) -> bool
        ensures value { (t : Tree) → ShowsStructOf A.ReaderArena self.now.reader t
            → (IsTrue result ↔ (child 0 t ≢ Null)) }
        ensures word { IsTrue result
            ↔ (word_of (pointer_field A.ReaderArena self.now.reader 0) ≢ 0) }
    {
        value::has(&self.reader, 0)
    }

    /// anyPointer @18 :AnyPointer
    pub fn get_any_pointer(&self) -> PointerReader<'a, A>
        ensures value { (t : Tree) → ShowsStructOf A.ReaderArena self.now.reader t
            → HasValue (read_by A.ReaderArena result) (value_any_pointer t) }
        ensures place { read_by A.ReaderArena result
            ≡ pointer_field A.ReaderArena self.now.reader 0 }
    {
        value::get_pointer(&self.reader, 0)
    }

    /// Whether the pointer of anyPointer is not null.
    pub fn has_any_pointer(&self) -> bool
        ensures value { (t : Tree) → ShowsStructOf A.ReaderArena self.now.reader t
            → (IsTrue result ↔ (child 0 t ≢ Null)) }
        ensures word { IsTrue result
            ↔ (word_of (pointer_field A.ReaderArena self.now.reader 0) ≢ 0) }
    {
        value::has(&self.reader, 0)
    }

    /// Returns which member is set.
    pub fn which(&self) -> Result<value_which::Which, NotInSchema>
        ensures value { (t : Tree) → ShowsStructOf A.ReaderArena self.now.reader t
            → IfOk result (λ e. value_which_number e
            ≡ value_tag t) }
        ensures unknown { (t : Tree) → ShowsStructOf A.ReaderArena self.now.reader t
            → IfErr result (λ e. (e.0 ≡ value_tag t)
            × (19 ≤ value_tag t)) }
        ensures sections { (t : Tree) → ShowsSectionsOf A.ReaderArena self.now.reader t
            → IfOk result (λ e. value_which_number e
            ≡ value_tag t) }
        ensures unknown_sections { (t : Tree)
            → ShowsSectionsOf A.ReaderArena self.now.reader t
            → IfErr result (λ e. (e.0 ≡ value_tag t)
            × (19 ≤ value_tag t)) }
    {
        value_which::of_number(value::get_number(&self.reader, 0))
    }
}

/// A list of Value.
pub struct Readers<'a, A: ReaderArena> {
    /// The list.
    pub list: StructsReader<'a, A>,
}

impl<'a, A: ReaderArena> Clone for Readers<'a, A> {
    ghost is_clone = { λ x y. y ≡ x };

    ghost is_infallible = { λ _. ⊤ };

    fn clone(&self) -> Result<Self, AllocError> {
        Ok(*self)
    }
}

impl<'a, A: ReaderArena> Copy for Readers<'a, A> {}

impl<'a, A: ReaderArena> Readers<'a, A> {
    /// The number of elements.
    pub fn len(&self) -> u32
        ensures count { result ≡ self.now.list.reader.count }
        ensures value { (t : Tree) → ShowsListOf A.ReaderArena self.now.list.reader t
            → result ≡ list_length t }
    {
        self.list.len()
    }

    /// Returns element `index`. Precondition: `index` is below the number of elements.
    pub fn get(&self, index: u32) -> Reader<'a, A>
        requires { index < self.now.list.reader.count }
        ensures value { (t : Tree) → ShowsListOf A.ReaderArena self.now.list.reader t
            → HasStructs t → ShowsStructOf A.ReaderArena result.reader (struct_element t index) }
        ensures sections { (t : Tree)
            → ElementHasSections A.ReaderArena self.now.list.reader index t
            → ShowsSectionsOf A.ReaderArena result.reader t }
        ensures source { result.reader.source ≡ self.now.list.reader.source }
    {
        Reader {
            reader: self.list.get(index),
        }
    }
}
