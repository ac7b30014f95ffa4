//! The structs of a message that was tested against its schema. Their getters can't be refused, and
//! charge nothing.
ghost use Rattle.std.specs.Prelude.{◌≡◌, ◌⊎◌, ◌<◌, ◌+◌, ℕ, true, IfErr, IfOk, IsOk, OnOk, Some, ⊤};
ghost use Rattle.capnp_format.specs.Bytes.{message};
ghost use Rattle.capnp_format.specs.Means.{Means};
ghost use Rattle.capnp_format.specs.Tree.{Tree};
ghost use Rattle.capnp_words.specs.Meter.{Affords, charged};
ghost use Rattle.capnp_arena_traits.specs.Checks.{Holds};
ghost use Rattle.capnp_pointers.specs.Source.{levels};
ghost use Rattle.capnp_pointers.specs.Spending.{Paid, pointers_in};
ghost use Rattle.capnp_readers.specs.Values.{HasStructs, ShowsListOf, ShowsStructOf, list_length, list_numbers, struct_data, struct_element, text_bytes};
ghost use Rattle.typed_reading.specs.Values.{child};
ghost use Rattle.typed_conforming.specs.Conforms.{Conforms};
ghost use Rattle.typed_conforming.specs.Tables.{elements_wanted, is_text_kind, wanted};
ghost use Rattle.typed_conforming.specs.Blame.{IsTrueFrom, first_visit, arena_root};
ghost use Rattle.typed_conforming.specs.Walk.{misfit_at, rowless_pointer};
ghost use Rattle.typed_conforming.specs.Checked.{IsChecked, IsCheckedList};

use crate::conforms::conforms;
use crate::schema::{Kind, Misfit};
use capnp_arena_traits::arena::ReaderArena;
use capnp_pointers::pointers::Pointer;
use capnp_readers::readers::{ListReader, PrimitiveElement, StructReader};
use capnp_words::error::ErrorKind;
use capnp_words::read_limiter::ReadLimiter;
use capnp_words::wire_pointer::ElementSize;
use std::alloc::AllocError;
use typed_reading::list::{self, NumbersReader, StructsReader};
use typed_reading::value;

/// A struct that conforms to a row of a schema, with all that it leads to; or a number of a list,
/// read as a struct without pointers.
///
/// Required of the fields: as `CheckedStruct::root` and the getters return them.
pub struct CheckedStruct<'a, 's, A: ReaderArena> {
    /// The struct. Its numbers are read by `typed_reading::value`, which refuses nothing.
    pub reader: StructReader<'a, A>,
    /// The schema's table.
    pub table: &'s [u32],
    /// The position of the struct's row.
    pub row: u32,
    ghost conforms: { ∥ IsChecked A.ReaderArena table.now row reader ∥₁ },
}

impl<'a, 's, A: ReaderArena> Clone for CheckedStruct<'a, 's, A> {
    ghost is_clone = { λ x y. y ≡ x };

    ghost is_infallible = { λ _. ⊤ };

    fn clone(&self) -> Result<Self, AllocError> {
        Ok(*self)
    }
}

impl<'a, 's, A: ReaderArena> Copy for CheckedStruct<'a, 's, A> {}

impl<'a, 's, A: ReaderArena> CheckedStruct<'a, 's, A> {
    /// Tests a message, and returns its root. The whole message has to be readable within both
    /// limits, and its root has to be a struct that conforms to the row at `row` of `table`, or null,
    /// which reads as a struct without sections.
    ///
    /// Charges one word for the root pointer, and what reading the whole message once costs. After
    /// that, nothing that the root leads to is charged.
    ///
    /// Refuses like `Pointer::get_root_from_arena`, then at word 0 of segment 0, and like `conforms`.
    /// What was charged before stays charged.
    pub fn root(
        arena: &'a A,
        table: &'s [u32],
        row: u32,
        lim: &mut ReadLimiter,
    ) -> Result<Self, Misfit>
        ensures value { (t : Tree) (c : ℕ)
            → Means (message (A.segments arena.now)) (levels (A.nesting arena.now)) 0 0 t c
            → IfOk result (λ r. ShowsStructOf A.ReaderArena r.reader t) }
        ensures table { IfOk result (λ r. r.table.now ≡ table.now) }
        ensures row { IfOk result (λ r. r.row ≡ row) }
        ensures answered { let S = message (A.segments arena.now) in (t : Tree) (c : ℕ)
            → Holds S 0 0 1 → Conforms table.now (Kind.Struct row) t
            → Means S (levels (A.nesting arena.now)) 0 0 t c
            → Affords (A.charging arena.now) lim.old (1 + c) → IsOk result }
        ensures conforms { OnOk result ((t : Tree) × (c : ℕ)
            × Conforms table.now (Kind.Struct row) t
            × Means (message (A.segments arena.now)) (levels (A.nesting arena.now)) 0 0 t c
            × Affords (A.charging arena.now) lim.old (1 + c)) }
        ensures spent { let charging = A.charging arena.now in (t : Tree) (c : ℕ)
            → Means (message (A.segments arena.now)) (levels (A.nesting arena.now)) 0 0 t c
            → OnOk result (Paid charging (charged charging lim.old 1) lim.new c (pointers_in t)) }
        ensures refused { let S = message (A.segments arena.now) in let root =
            arena_root A.ReaderArena arena.entry in IfErr result (λ x.
            ((Holds S 0 0 1 × Affords root.charging lim.old 1 → ⊥)
            × (x ≡ misfit_at (rowless_pointer (Kind.Struct row)) root x.error))
            ⊎ IsTrueFrom (first_visit table.now (Kind.Struct row) root) lim.new x) }
    {
        let pointer = match Pointer::get_root_from_arena(arena, lim) {
            Ok(pointer) => pointer,
            Err(error) => {
                return Err(Misfit {
                    error,
                    segment: 0,
                    word: 0,
                    row: 0,
                    index: 0,
                });
            }
        };
        match conforms(table, Kind::Struct(row), &pointer, lim) {
            Ok(()) => {}
            Err(misfit) => return Err(misfit),
        }
        let mut unlimited = ReadLimiter::new(None);
        let reader = value::root(arena, &mut unlimited).unwrap();
        Ok(CheckedStruct { reader, table, row })
    }

    /// Returns the bytes of the text that pointer `index` leads to, without the zero byte at its
    /// end; no bytes if the pointer is null. Precondition: the schema says that pointer `index` is
    /// a text, of kind `Text` or `Utf8`, for the members of unions that are set.
    pub fn get_text(&self, index: u16) -> &'a [u8]
        requires { (t : Tree) → ShowsStructOf A.ReaderArena self.now.reader t
            → is_text_kind (wanted self.now.table.now self.now.row (struct_data t) index)
            ≡ true }
        ensures { (t : Tree) → ShowsStructOf A.ReaderArena self.now.reader t
            → result.now ≡ text_bytes (child index t) }
    {
        if index >= self.reader.pointer_count {
            return &[];
        }
        let mut unlimited = ReadLimiter::new(None);
        value::get_text(&self.reader, index as usize, &mut unlimited).unwrap()
    }

    /// Returns the text that pointer `index` leads to, without the zero byte at its end; an empty
    /// text if the pointer is null. Reads each byte once more. Precondition: the schema says that
    /// pointer `index` is a text in UTF-8, for the members of unions that are set.
    pub fn get_str(&self, index: u16) -> &'a str
        requires { (t : Tree) → ShowsStructOf A.ReaderArena self.now.reader t
            → wanted self.now.table.now self.now.row (struct_data t) index ≡ Kind.Utf8 }
        ensures { (t : Tree) → ShowsStructOf A.ReaderArena self.now.reader t
            → result.now ≡ text_bytes (child index t) }
    {
        if index >= self.reader.pointer_count {
            return "";
        }
        let mut unlimited = ReadLimiter::new(None);
        let bytes = value::get_text(&self.reader, index as usize, &mut unlimited).unwrap();
        str::from_utf8(bytes).unwrap()
    }

    /// Returns the bytes of the data that pointer `index` leads to; no bytes if the pointer is
    /// null. Precondition: the schema says that pointer `index` is data, for the members of unions
    /// that are set.
    pub fn get_data(&self, index: u16) -> &'a [u8]
        requires { (t : Tree) → ShowsStructOf A.ReaderArena self.now.reader t
            → wanted self.now.table.now self.now.row (struct_data t) index ≡ Kind.Data }
        ensures { (t : Tree) → ShowsStructOf A.ReaderArena self.now.reader t
            → result.now ≡ list_numbers (child index t) }
    {
        if index >= self.reader.pointer_count {
            return &[];
        }
        let mut unlimited = ReadLimiter::new(None);
        value::get_data(&self.reader, index as usize, &mut unlimited).unwrap()
    }

    /// Returns the struct that pointer `index` leads to; a struct without sections if the pointer
    /// is null. Precondition: the schema says that pointer `index` leads to a struct of row `row`,
    /// for the members of unions that are set.
    pub fn get_struct(&self, index: u16, row: u32) -> CheckedStruct<'a, 's, A>
        requires { (t : Tree) → ShowsStructOf A.ReaderArena self.now.reader t
            → wanted self.now.table.now self.now.row (struct_data t) index ≡ Kind.Struct row }
        ensures value { (t : Tree) → ShowsStructOf A.ReaderArena self.now.reader t
            → ShowsStructOf A.ReaderArena result.reader (child index t) }
        ensures table { result.table.now ≡ self.now.table.now }
        ensures row { result.row ≡ row }
    {
        if index >= self.reader.pointer_count {
            return CheckedStruct {
                reader: StructReader::new_default(),
                table: self.table,
                row,
            };
        }
        let mut unlimited = ReadLimiter::new(None);
        let reader = value::get_struct(&self.reader, index as usize, &mut unlimited).unwrap();
        CheckedStruct {
            reader,
            table: self.table,
            row,
        }
    }

    /// Returns the list of structs that pointer `index` leads to; a list without elements if the
    /// pointer is null. Precondition: the schema says that pointer `index` leads to a list of
    /// structs of row `row`, for the members of unions that are set.
    pub fn get_structs(&self, index: u16, row: u32) -> CheckedStructs<'a, 's, A>
        requires { (t : Tree) → ShowsStructOf A.ReaderArena self.now.reader t
            → wanted self.now.table.now self.now.row (struct_data t) index
            ≡ Kind.List ElementSize.InlineComposite row }
        ensures value { (t : Tree) → ShowsStructOf A.ReaderArena self.now.reader t
            → ShowsListOf A.ReaderArena result.reader.reader (child index t) }
        ensures table { result.table.now ≡ self.now.table.now }
        ensures row { result.row ≡ row }
    {
        if index >= self.reader.pointer_count {
            return CheckedStructs {
                reader: StructsReader {
                    reader: ListReader::new_default(),
                },
                table: self.table,
                row,
            };
        }
        let mut unlimited = ReadLimiter::new(None);
        let reader = list::get_structs(&self.reader, index as usize, &mut unlimited).unwrap();
        CheckedStructs {
            reader,
            table: self.table,
            row,
        }
    }

    /// Returns the list of pointers that pointer `index` leads to; a list without elements if the
    /// pointer is null. Each element is read as a struct whose pointer 0 is the element: a text of
    /// a list of texts is `get_pointers(index, row).get(i).get_text(0)`. Precondition: the schema
    /// says that pointer `index` leads to a list of pointers of row `row`, for the members of
    /// unions that are set.
    pub fn get_pointers(&self, index: u16, row: u32) -> CheckedStructs<'a, 's, A>
        requires { (t : Tree) → ShowsStructOf A.ReaderArena self.now.reader t
            → wanted self.now.table.now self.now.row (struct_data t) index
            ≡ Kind.List ElementSize.Pointer row }
        ensures value { (t : Tree) → ShowsStructOf A.ReaderArena self.now.reader t
            → ShowsListOf A.ReaderArena result.reader.reader (child index t) }
        ensures table { result.table.now ≡ self.now.table.now }
        ensures row { result.row ≡ row }
    {
        if index >= self.reader.pointer_count {
            return CheckedStructs {
                reader: StructsReader {
                    reader: ListReader::new_default(),
                },
                table: self.table,
                row,
            };
        }
        let mut unlimited = ReadLimiter::new(None);
        let list = list::get_pointers(&self.reader, index as usize, &mut unlimited).unwrap();
        CheckedStructs {
            reader: StructsReader {
                reader: list.reader,
            },
            table: self.table,
            row,
        }
    }

    /// Returns the list of numbers that pointer `index` leads to; a list without elements if the
    /// pointer is null. Precondition: the schema says that pointer `index` leads to a list whose
    /// elements have the size of `T`, for the members of unions that are set.
    pub fn get_numbers<T: PrimitiveElement>(&self, index: u16) -> NumbersReader<'a, A, T>
        requires { (t : Tree) → ShowsStructOf A.ReaderArena self.now.reader t
            → elements_wanted (wanted self.now.table.now self.now.row (struct_data t) index)
            ≡ Some T.size }
        ensures { (t : Tree) → ShowsStructOf A.ReaderArena self.now.reader t
            → ShowsListOf A.ReaderArena result.reader (child index t) }
    {
        let mut unlimited = ReadLimiter::new(None);
        list::get_numbers(&self.reader, index as usize, &mut unlimited).unwrap()
    }
}

/// A list whose elements conform to a row of a schema, with all that they lead to.
///
/// Required of the fields: as the getters of `CheckedStruct` return them.
pub struct CheckedStructs<'a, 's, A: ReaderArena> {
    /// The list.
    pub reader: StructsReader<'a, A>,
    /// The schema's table.
    pub table: &'s [u32],
    /// The position of the elements' row.
    pub row: u32,
    ghost conforms: { ∥ IsCheckedList A.ReaderArena table.now row reader.reader ∥₁ },
}

impl<'a, 's, A: ReaderArena> Clone for CheckedStructs<'a, 's, A> {
    ghost is_clone = { λ x y. y ≡ x };

    ghost is_infallible = { λ _. ⊤ };

    fn clone(&self) -> Result<Self, AllocError> {
        Ok(*self)
    }
}

impl<'a, 's, A: ReaderArena> Copy for CheckedStructs<'a, 's, A> {}

impl<'a, 's, A: ReaderArena> CheckedStructs<'a, 's, A> {
    /// The number of elements.
    pub fn len(&self) -> u32
        ensures count { result ≡ self.now.reader.reader.count }
        ensures value { (t : Tree) → ShowsListOf A.ReaderArena self.now.reader.reader t
            → result ≡ list_length t }
    {
        self.reader.len()
    }

    /// Returns element `index`. Precondition: `index` is below the number of elements.
    pub fn get(&self, index: u32) -> CheckedStruct<'a, 's, A>
        requires { index < self.now.reader.reader.count }
        ensures value { (t : Tree) → ShowsListOf A.ReaderArena self.now.reader.reader t
            → HasStructs t → ShowsStructOf A.ReaderArena result.reader (struct_element t index) }
        ensures table { result.table.now ≡ self.now.table.now }
        ensures row { result.row ≡ self.now.row }
    {
        CheckedStruct {
            reader: self.reader.get(index),
            table: self.table,
            row: self.row,
        }
    }
}
