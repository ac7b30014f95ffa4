//! Structs and lists of a message that was checked against its schema, with the table and the row
//! in their types. Their getters can't be refused, and charge nothing.
ghost use Rattle.std.specs.Prelude.{◌≡◌, ◌⊎◌, ◌<◌, ◌+◌, ◌↔◌, ℕ, [], IfErr, IfOk, IfSome, IsOk, IsSome, IsTrue, OnOk, Some, ⊤};
ghost use Rattle.capnp_format.specs.Bytes.{message};
ghost use Rattle.capnp_format.specs.Means.{Means};
ghost use Rattle.capnp_format.specs.Tree.{Tree};
ghost use Rattle.capnp_words.specs.Meter.{Affords, charged};
ghost use Rattle.capnp_arena_traits.specs.Checks.{Holds};
ghost use Rattle.capnp_pointers.specs.Source.{levels};
ghost use Rattle.capnp_pointers.specs.Spending.{Paid, pointers_in};
ghost use Rattle.capnp_readers.specs.Values.{HasStructs, ShowsListOf, ShowsStructOf, list_length, list_numbers, struct_data, struct_element, text_bytes};
ghost use Rattle.typed_reading.specs.Values.{child, data_or, text_or};
ghost use Rattle.typed_conforming.specs.Conforms.{Conforms};
ghost use Rattle.typed_conforming.specs.Blame.{IsTrueFrom, first_visit, arena_root};
ghost use Rattle.typed_conforming.specs.Walk.{misfit_at, rowless_pointer};
ghost use Rattle.typed_conforming.specs.Checked.{IsChecked, IsCheckedList};
ghost use Rattle.typed_checking.specs.Given.{AreSet, kind_if_set, given_elements};

use crate::schema::{Member, Schema};
use capnp_arena_traits::arena::ReaderArena;
use capnp_readers::readers::{PrimitiveElement, StructReader};
use capnp_words::read_limiter::ReadLimiter;
use capnp_words::wire_pointer::ElementSize;
use std::alloc::AllocError;
use std::marker::PhantomData;
use typed_conforming::checked::{CheckedStruct, CheckedStructs};
use typed_conforming::schema::{Kind, Misfit};
use typed_reading::list::{NumbersReader, StructsReader};
use typed_reading::value;

/// A struct of a message that conforms to the schema `S`, with all that it leads to: its row is at
/// position `ROW` of the table. Or a number of a list, read as a struct without pointers.
///
/// Required of the field: as `RowStruct::root` and the getters return it.
pub struct RowStruct<'a, A: ReaderArena, S: Schema, const ROW: u32> {
    /// The struct. Its numbers are read by `typed_reading::value`, which refuses nothing.
    pub reader: StructReader<'a, A>,
    // The schema.
    of: PhantomData<S>,
    ghost conforms: { ∥ IsChecked A.ReaderArena S.table ROW reader ∥₁ },
}

impl<'a, A: ReaderArena, S: Schema, const ROW: u32> Clone for RowStruct<'a, A, S, ROW> {
    ghost is_clone = { λ x y. y ≡ x };

    ghost is_infallible = { λ _. ⊤ };

    fn clone(&self) -> Result<Self, AllocError> {
        Ok(*self)
    }
}

impl<'a, A: ReaderArena, S: Schema, const ROW: u32> Copy for RowStruct<'a, A, S, ROW> {}

impl<'a, A: ReaderArena, S: Schema, const ROW: u32> RowStruct<'a, A, S, ROW> {
    /// Checks a message, and returns its root, like `CheckedStruct::root`.
    pub fn root(arena: &'a A, lim: &mut ReadLimiter) -> Result<Self, Misfit>
        ensures value { (t : Tree) (c : ℕ)
            → Means (message (A.segments arena.now)) (levels (A.nesting arena.now)) 0 0 t c
            → IfOk result (λ r. ShowsStructOf A.ReaderArena r.reader t) }
        ensures answered { let segments = message (A.segments arena.now) in (t : Tree) (c : ℕ)
            → Holds segments 0 0 1 → Conforms S.table (Kind.Struct ROW) t
            → Means segments (levels (A.nesting arena.now)) 0 0 t c
            → Affords (A.charging arena.now) lim.old (1 + c) → IsOk result }
        ensures conforms { OnOk result ((t : Tree) × (c : ℕ)
            × Conforms S.table (Kind.Struct ROW) t
            × Means (message (A.segments arena.now)) (levels (A.nesting arena.now)) 0 0 t c
            × Affords (A.charging arena.now) lim.old (1 + c)) }
        ensures spent { let charging = A.charging arena.now in (t : Tree) (c : ℕ)
            → Means (message (A.segments arena.now)) (levels (A.nesting arena.now)) 0 0 t c
            → OnOk result (Paid charging (charged charging lim.old 1) lim.new c (pointers_in t)) }
        ensures refused { let segments = message (A.segments arena.now) in let root =
            arena_root A.ReaderArena arena.entry in IfErr result (λ x.
            ((Holds segments 0 0 1 × Affords root.charging lim.old 1 → ⊥)
            × (x ≡ misfit_at (rowless_pointer (Kind.Struct ROW)) root x.error))
            ⊎ IsTrueFrom (first_visit S.table (Kind.Struct ROW) root) lim.new x) }
    {
        match CheckedStruct::root(arena, S::table(), ROW, lim) {
            Ok(checked) => Ok(RowStruct::of_checked(checked)),
            Err(misfit) => Err(misfit),
        }
    }

    // The same struct.
    #[inline(always)]
    fn of_checked(checked: CheckedStruct<'a, 'static, A>) -> Self
        requires table { checked.table.now ≡ S.table }
        requires row { checked.row ≡ ROW }
        ensures { result.reader ≡ checked.entry.reader }
    {
        RowStruct {
            reader: checked.reader,
            of: PhantomData,
        }
    }

    // The same struct, with its table and its row as values.
    #[inline(always)]
    fn checked(&self) -> CheckedStruct<'a, 'static, A>
        ensures reader { result.reader ≡ self.now.reader }
        ensures table { result.table.now ≡ S.table }
        ensures row { result.row ≡ ROW }
    {
        CheckedStruct {
            reader: self.reader,
            table: S::table(),
            row: ROW,
        }
    }

    /// Whether all of these members of unions are set.
    pub fn are_set(&self, members: &[Member]) -> bool
        ensures { (t : Tree) → ShowsStructOf A.ReaderArena self.now.reader t
            → (IsTrue result ↔ AreSet members.now (struct_data t)) }
    {
        for member in members {
            let number: u16 = value::get_number(&self.reader, member.0 as usize);
            if number != member.1 {
                return false;
            }
        }
        true
    }

    /// Returns the text that pointer `index` leads to, empty if the pointer is null.
    /// Precondition: the schema says that it leads to a text, independent of the tags of unions.
    pub fn get_str(&self, index: u16) -> &'a str
        requires { kind_if_set S.table ROW [] index ≡ Some Kind.Utf8 }
        ensures { (t : Tree) → ShowsStructOf A.ReaderArena self.now.reader t
            → result.now ≡ text_bytes (child index t) }
    {
        self.checked().get_str(index)
    }

    /// Returns what `get_str` returns if all of `members` are set, and otherwise `None`.
    /// Precondition: the schema says that pointer `index` leads to a text then.
    pub fn get_member_str(&self, members: &[Member], index: u16) -> Option<&'a str>
        requires { kind_if_set S.table ROW members.now index ≡ Some Kind.Utf8 }
        ensures set { (t : Tree) → ShowsStructOf A.ReaderArena self.now.reader t
            → (IsSome result ↔ AreSet members.now (struct_data t)) }
        ensures value { (t : Tree) → ShowsStructOf A.ReaderArena self.now.reader t
            → IfSome result (λ r. r.now ≡ text_bytes (child index t)) }
    {
        if !self.are_set(members) {
            return None;
        }
        Some(self.checked().get_str(index))
    }

    /// Returns the data that pointer `index` leads to, empty if the pointer is null.
    /// Precondition: the schema says that it leads to data, independent of the tags of unions.
    pub fn get_data(&self, index: u16) -> &'a [u8]
        requires { kind_if_set S.table ROW [] index ≡ Some Kind.Data }
        ensures { (t : Tree) → ShowsStructOf A.ReaderArena self.now.reader t
            → result.now ≡ list_numbers (child index t) }
    {
        self.checked().get_data(index)
    }

    /// Returns what `get_data` returns if all of `members` are set, and otherwise `None`.
    /// Precondition: the schema says that pointer `index` leads to data then.
    pub fn get_member_data(&self, members: &[Member], index: u16) -> Option<&'a [u8]>
        requires { kind_if_set S.table ROW members.now index ≡ Some Kind.Data }
        ensures set { (t : Tree) → ShowsStructOf A.ReaderArena self.now.reader t
            → (IsSome result ↔ AreSet members.now (struct_data t)) }
        ensures value { (t : Tree) → ShowsStructOf A.ReaderArena self.now.reader t
            → IfSome result (λ r. r.now ≡ list_numbers (child index t)) }
    {
        if !self.are_set(members) {
            return None;
        }
        Some(self.checked().get_data(index))
    }

    /// Returns the text that pointer `index` leads to, or `default` if the pointer is null.
    /// Precondition: as of `get_str`.
    pub fn get_str_or(&self, index: u16, default: &'a str) -> &'a str
        requires { kind_if_set S.table ROW [] index ≡ Some Kind.Utf8 }
        ensures { (t : Tree) → ShowsStructOf A.ReaderArena self.now.reader t
            → result.now ≡ text_or default.entry.now (child index t) }
    {
        if value::is_null(&self.reader, index as usize) {
            return default;
        }
        self.get_str(index)
    }

    /// Returns what `get_str_or` returns if all of `members` are set, and otherwise `None`.
    /// Precondition: as of `get_member_str`.
    pub fn get_member_str_or(
        &self,
        members: &[Member],
        index: u16,
        default: &'a str,
    ) -> Option<&'a str>
        requires { kind_if_set S.table ROW members.now index ≡ Some Kind.Utf8 }
        ensures set { (t : Tree) → ShowsStructOf A.ReaderArena self.now.reader t
            → (IsSome result ↔ AreSet members.now (struct_data t)) }
        ensures value { (t : Tree) → ShowsStructOf A.ReaderArena self.now.reader t
            → IfSome result (λ r. r.now ≡ text_or default.entry.now (child index t)) }
    {
        let found = self.get_member_str(members, index)?;
        if value::is_null(&self.reader, index as usize) {
            return Some(default);
        }
        Some(found)
    }

    /// Returns the data that pointer `index` leads to, or `default` if the pointer is null.
    /// Precondition: as of `get_data`.
    pub fn get_data_or(&self, index: u16, default: &'a [u8]) -> &'a [u8]
        requires { kind_if_set S.table ROW [] index ≡ Some Kind.Data }
        ensures { (t : Tree) → ShowsStructOf A.ReaderArena self.now.reader t
            → result.now ≡ data_or default.entry.now (child index t) }
    {
        if value::is_null(&self.reader, index as usize) {
            return default;
        }
        self.get_data(index)
    }

    /// Returns what `get_data_or` returns if all of `members` are set, and otherwise `None`.
    /// Precondition: as of `get_member_data`.
    pub fn get_member_data_or(
        &self,
        members: &[Member],
        index: u16,
        default: &'a [u8],
    ) -> Option<&'a [u8]>
        requires { kind_if_set S.table ROW members.now index ≡ Some Kind.Data }
        ensures set { (t : Tree) → ShowsStructOf A.ReaderArena self.now.reader t
            → (IsSome result ↔ AreSet members.now (struct_data t)) }
        ensures value { (t : Tree) → ShowsStructOf A.ReaderArena self.now.reader t
            → IfSome result (λ r. r.now ≡ data_or default.entry.now (child index t)) }
    {
        let found = self.get_member_data(members, index)?;
        if value::is_null(&self.reader, index as usize) {
            return Some(default);
        }
        Some(found)
    }

    /// Returns the struct that pointer `index` leads to, without sections if the pointer is null.
    /// Precondition: the schema says that it leads to a struct with row `R`, independent
    /// of the tags of unions.
    pub fn get_struct<const R: u32>(&self, index: u16) -> RowStruct<'a, A, S, R>
        requires { kind_if_set S.table ROW [] index ≡ Some (Kind.Struct R) }
        ensures { (t : Tree) → ShowsStructOf A.ReaderArena self.now.reader t
            → ShowsStructOf A.ReaderArena result.reader (child index t) }
    {
        RowStruct::of_checked(self.checked().get_struct(index, R))
    }

    /// Returns what `get_struct` returns if all of `members` are set, and otherwise `None`.
    /// Precondition: the schema says that pointer `index` leads to a struct with row `R` then.
    pub fn get_member_struct<const R: u32>(
        &self,
        members: &[Member],
        index: u16,
    ) -> Option<RowStruct<'a, A, S, R>>
        requires { kind_if_set S.table ROW members.now index ≡ Some (Kind.Struct R) }
        ensures set { (t : Tree) → ShowsStructOf A.ReaderArena self.now.reader t
            → (IsSome result ↔ AreSet members.now (struct_data t)) }
        ensures value { (t : Tree) → ShowsStructOf A.ReaderArena self.now.reader t
            → IfSome result (λ r. ShowsStructOf A.ReaderArena r.reader (child index t)) }
    {
        if !self.are_set(members) {
            return None;
        }
        Some(RowStruct::of_checked(self.checked().get_struct(index, R)))
    }

    /// Returns the list of structs that pointer `index` leads to, empty if the pointer is null.
    /// Precondition: the schema says that it leads to a list of structs with row `R`, independent
    /// of the tags of unions.
    pub fn get_structs<const R: u32>(&self, index: u16) -> RowStructs<'a, A, S, R>
        requires { kind_if_set S.table ROW [] index
            ≡ Some (Kind.List ElementSize.InlineComposite R) }
        ensures { (t : Tree) → ShowsStructOf A.ReaderArena self.now.reader t
            → ShowsListOf A.ReaderArena result.list.reader (child index t) }
    {
        RowStructs::of_checked(self.checked().get_structs(index, R))
    }

    /// Returns what `get_structs` returns if all of `members` are set, and otherwise `None`.
    /// Precondition: the schema says that pointer `index` leads to a list of structs with row `R` then.
    pub fn get_member_structs<const R: u32>(
        &self,
        members: &[Member],
        index: u16,
    ) -> Option<RowStructs<'a, A, S, R>>
        requires { kind_if_set S.table ROW members.now index
            ≡ Some (Kind.List ElementSize.InlineComposite R) }
        ensures set { (t : Tree) → ShowsStructOf A.ReaderArena self.now.reader t
            → (IsSome result ↔ AreSet members.now (struct_data t)) }
        ensures value { (t : Tree) → ShowsStructOf A.ReaderArena self.now.reader t
            → IfSome result (λ r. ShowsListOf A.ReaderArena r.list.reader (child index t)) }
    {
        if !self.are_set(members) {
            return None;
        }
        Some(RowStructs::of_checked(self.checked().get_structs(index, R)))
    }

    /// Returns the list of pointers that pointer `index` leads to, empty if the pointer is null.
    /// Precondition: the schema says that it leads to a list of pointers with row `R`, independent
    /// of the tags of unions.
    pub fn get_pointers<const R: u32>(&self, index: u16) -> RowStructs<'a, A, S, R>
        requires { kind_if_set S.table ROW [] index
            ≡ Some (Kind.List ElementSize.Pointer R) }
        ensures { (t : Tree) → ShowsStructOf A.ReaderArena self.now.reader t
            → ShowsListOf A.ReaderArena result.list.reader (child index t) }
    {
        RowStructs::of_checked(self.checked().get_pointers(index, R))
    }

    /// Returns what `get_pointers` returns if all of `members` are set, and otherwise `None`.
    /// Precondition: the schema says that pointer `index` leads to a list of pointers with row `R` then.
    pub fn get_member_pointers<const R: u32>(
        &self,
        members: &[Member],
        index: u16,
    ) -> Option<RowStructs<'a, A, S, R>>
        requires { kind_if_set S.table ROW members.now index
            ≡ Some (Kind.List ElementSize.Pointer R) }
        ensures set { (t : Tree) → ShowsStructOf A.ReaderArena self.now.reader t
            → (IsSome result ↔ AreSet members.now (struct_data t)) }
        ensures value { (t : Tree) → ShowsStructOf A.ReaderArena self.now.reader t
            → IfSome result (λ r. ShowsListOf A.ReaderArena r.list.reader (child index t)) }
    {
        if !self.are_set(members) {
            return None;
        }
        Some(RowStructs::of_checked(self.checked().get_pointers(index, R)))
    }

    /// Returns the list of numbers that pointer `index` leads to, empty if the pointer is null.
    /// Precondition: the schema says that it leads to a list of such numbers, independent
    /// of the tags of unions.
    pub fn get_numbers<T: PrimitiveElement>(&self, index: u16) -> NumbersReader<'a, A, T>
        requires { given_elements (kind_if_set S.table ROW [] index) ≡ Some T.size }
        ensures { (t : Tree) → ShowsStructOf A.ReaderArena self.now.reader t
            → ShowsListOf A.ReaderArena result.reader (child index t) }
    {
        self.checked().get_numbers(index)
    }

    /// Returns what `get_numbers` returns if all of `members` are set, and otherwise `None`.
    /// Precondition: the schema says that pointer `index` leads to a list of such numbers then.
    pub fn get_member_numbers<T: PrimitiveElement>(
        &self,
        members: &[Member],
        index: u16,
    ) -> Option<NumbersReader<'a, A, T>>
        requires { given_elements (kind_if_set S.table ROW members.now index) ≡ Some T.size }
        ensures set { (t : Tree) → ShowsStructOf A.ReaderArena self.now.reader t
            → (IsSome result ↔ AreSet members.now (struct_data t)) }
        ensures value { (t : Tree) → ShowsStructOf A.ReaderArena self.now.reader t
            → IfSome result (λ r. ShowsListOf A.ReaderArena r.reader (child index t)) }
    {
        if !self.are_set(members) {
            return None;
        }
        Some(self.checked().get_numbers(index))
    }
}

/// A list of a message that conforms to the schema `S`. Its elements are structs whose row is at
/// position `ROW` of the table, or pointers, each read as a struct whose pointer 0 it is.
///
/// Required of the field: as the getters of `RowStruct` return it.
pub struct RowStructs<'a, A: ReaderArena, S: Schema, const ROW: u32> {
    /// The list.
    pub list: StructsReader<'a, A>,
    // The schema.
    of: PhantomData<S>,
    ghost conforms: { ∥ IsCheckedList A.ReaderArena S.table ROW list.reader ∥₁ },
}

impl<'a, A: ReaderArena, S: Schema, const ROW: u32> Clone for RowStructs<'a, A, S, ROW> {
    ghost is_clone = { λ x y. y ≡ x };

    ghost is_infallible = { λ _. ⊤ };

    fn clone(&self) -> Result<Self, AllocError> {
        Ok(*self)
    }
}

impl<'a, A: ReaderArena, S: Schema, const ROW: u32> Copy for RowStructs<'a, A, S, ROW> {}

impl<'a, A: ReaderArena, S: Schema, const ROW: u32> RowStructs<'a, A, S, ROW> {
    // The same list.
    #[inline(always)]
    fn of_checked(checked: CheckedStructs<'a, 'static, A>) -> Self
        requires table { checked.table.now ≡ S.table }
        requires row { checked.row ≡ ROW }
        ensures { result.list.reader ≡ checked.entry.reader.reader }
    {
        RowStructs {
            list: checked.reader,
            of: PhantomData,
        }
    }

    /// The number of elements.
    pub fn len(&self) -> u32
        ensures count { result ≡ self.now.list.reader.count }
        ensures value { (t : Tree) → ShowsListOf A.ReaderArena self.now.list.reader t
            → result ≡ list_length t }
    {
        self.list.len()
    }

    /// Returns element `index`. Precondition: `index` is below the number of elements.
    pub fn get(&self, index: u32) -> RowStruct<'a, A, S, ROW>
        requires { index < self.now.list.reader.count }
        ensures { (t : Tree) → ShowsListOf A.ReaderArena self.now.list.reader t
            → HasStructs t → ShowsStructOf A.ReaderArena result.reader (struct_element t index) }
    {
        let checked = CheckedStructs {
            reader: self.list,
            table: S::table(),
            row: ROW,
        };
        RowStruct::of_checked(checked.get(index))
    }
}
