//! Person.PhoneNumber
ghost use Rattle.std.specs.Prelude.{◌≡◌, ◌≢◌, ◌⊎◌, ◌<◌, ◌≤◌, ◌+◌, ◌↔◌, ℕ, IsTrue, IfOk, IfErr, IsOk, OnOk, ⊤};
ghost use Rattle.capnp_format.specs.Bytes.{message};
ghost use Rattle.capnp_format.specs.Means.{Means};
ghost use Rattle.capnp_format.specs.Tree.{Tree, Null};
ghost use Rattle.capnp_words.specs.Meter.{Affords, charged};
ghost use Rattle.capnp_arena_traits.specs.Checks.{Holds};
ghost use Rattle.capnp_pointers.specs.Reading.{word_of};
ghost use Rattle.capnp_pointers.specs.Source.{levels};
ghost use Rattle.capnp_pointers.specs.Spending.{Paid, pointers_in};
ghost use Rattle.capnp_readers.specs.Values.{HasStructs, ShowsListOf, ShowsStructOf, list_length, struct_element};
ghost use Rattle.typed_reading.specs.Sections.{ShowsSectionsOf, pointer_field};
ghost use Rattle.typed_reading.specs.Values.{child};
ghost use Rattle.typed_conforming.specs.Blame.{IsTrueFrom, arena_root, first_visit};
ghost use Rattle.typed_conforming.specs.Conforms.{Conforms};
ghost use Rattle.typed_conforming.specs.Walk.{misfit_at, rowless_pointer};
ghost use Rattle.typed_conforming.specs.declared.schema.Kind.TheVariants.{Struct};
ghost use Rattle.addressbook_checking.specs.Table.{schema_table};
ghost use Rattle.addressbook_reading.specs.Schema.{person_phone_number_number, person_phone_number_type};
ghost use Rattle.addressbook_reading.specs.OfPersonPhoneNumberType.{person_phone_number_type_number};

use crate::schema_table;
use addressbook_reading::person_phone_number_type;
use capnp_arena_traits::arena::ReaderArena;
use capnp_words::read_limiter::ReadLimiter;
use std::alloc::AllocError;
use typed_checking::rows::{RowStruct, RowStructs};
use typed_conforming::schema::Misfit;
use typed_reading::error::NotInSchema;
use typed_reading::value;

/// Person.PhoneNumber, in a message that was checked: row 16 of the table.
pub struct Checked<'a, A: ReaderArena> {
    /// The struct.
    pub checked: RowStruct<'a, A, schema_table::Table, 16>,
}

impl<'a, A: ReaderArena> Clone for Checked<'a, A> {
    ghost is_clone = { λ x y. y ≡ x };

    ghost is_infallible = { λ _. ⊤ };

    fn clone(&self) -> Result<Self, AllocError> {
        Ok(*self)
    }
}

impl<'a, A: ReaderArena> Copy for Checked<'a, A> {}

impl<'a, A: ReaderArena> Checked<'a, A> {
    /// Checks a message against the schema, once, and returns its root.
    pub fn root(arena: &'a A, lim: &mut ReadLimiter) -> Result<Self, Misfit>
        ensures value { (t : Tree) (c : ℕ)
            → Means (message (A.segments arena.now)) (levels (A.nesting arena.now)) 0 0 t c
            → IfOk result (λ r. ShowsStructOf A.ReaderArena r.checked.reader t) }
        ensures answered { let S = message (A.segments arena.now) in (t : Tree) (c : ℕ)
            → Holds S 0 0 1 → Conforms schema_table (Struct 16) t
            → Means S (levels (A.nesting arena.now)) 0 0 t c
            → Affords (A.charging arena.now) lim.old (1 + c) → IsOk result }
        ensures conforms { OnOk result ((t : Tree) × (c : ℕ)
            × Conforms schema_table (Struct 16) t
            × Means (message (A.segments arena.now)) (levels (A.nesting arena.now)) 0 0 t c
            × Affords (A.charging arena.now) lim.old (1 + c)) }
        ensures spent { let charging = A.charging arena.now in (t : Tree) (c : ℕ)
            → Means (message (A.segments arena.now)) (levels (A.nesting arena.now)) 0 0 t c
            → OnOk result (Paid charging (charged charging lim.old 1) lim.new c (pointers_in t)) }
        ensures refused { let S = message (A.segments arena.now) in let root =
            arena_root A.ReaderArena arena.entry in IfErr result (λ x.
            ((Holds S 0 0 1 × Affords root.charging lim.old 1 → ⊥)
            × (x ≡ misfit_at (rowless_pointer (Struct 16)) root x.error))
            ⊎ IsTrueFrom (first_visit schema_table (Struct 16) root) lim.new x) }
    {
        match RowStruct::root(arena, lim) {
            Ok(checked) => Ok(Checked { checked }),
            Err(misfit) => Err(misfit),
        }
    }

    /// Returns the reader whose getters check what they read.
    pub fn as_reader(&self) -> addressbook_reading::person_phone_number::Reader<'a, A>
        ensures { result.reader ≡ self.now.checked.reader }
    {
        addressbook_reading::person_phone_number::Reader {
            reader: self.checked.reader,
        }
    }

    /// number @0 :Text
    pub fn get_number(&self) -> &'a str
        ensures { (t : Tree) → ShowsStructOf A.ReaderArena self.now.checked.reader t
            → result.now ≡ person_phone_number_number t }
    {
        self.checked.get_str(0)
    }

    /// Whether the pointer of number is not null.
    pub fn has_number(&self) -> bool
        ensures value { (t : Tree) → ShowsStructOf A.ReaderArena self.now.checked.reader t
            → (IsTrue result ↔ (child 0 t ≢ Null)) }
        ensures word { IsTrue result
            ↔ (word_of (pointer_field A.ReaderArena self.now.checked.reader 0) ≢ 0) }
    {
        value::has(&self.checked.reader, 0)
    }

    /// type @1 :Person.PhoneNumber.Type
    pub fn get_type(&self) -> Result<person_phone_number_type::Type_, NotInSchema>
        ensures value { (t : Tree) → ShowsStructOf A.ReaderArena self.now.checked.reader t
            → IfOk result (λ e. person_phone_number_type_number e
            ≡ person_phone_number_type t) }
        ensures unknown { (t : Tree) → ShowsStructOf A.ReaderArena self.now.checked.reader t
            → IfErr result (λ e. (e.0 ≡ person_phone_number_type t)
            × (3 ≤ person_phone_number_type t)) }
        ensures sections { (t : Tree) → ShowsSectionsOf A.ReaderArena self.now.checked.reader t
            → IfOk result (λ e. person_phone_number_type_number e
            ≡ person_phone_number_type t) }
        ensures unknown_sections { (t : Tree)
            → ShowsSectionsOf A.ReaderArena self.now.checked.reader t
            → IfErr result (λ e. (e.0 ≡ person_phone_number_type t)
            × (3 ≤ person_phone_number_type t)) }
    {
        person_phone_number_type::of_number(value::get_number(&self.checked.reader, 0))
    }
}

/// A list of Person.PhoneNumber, in a message that was checked.
pub struct CheckedList<'a, A: ReaderArena> {
    /// The list.
    pub list: RowStructs<'a, A, schema_table::Table, 16>,
}

impl<'a, A: ReaderArena> Clone for CheckedList<'a, A> {
    ghost is_clone = { λ x y. y ≡ x };

    ghost is_infallible = { λ _. ⊤ };

    fn clone(&self) -> Result<Self, AllocError> {
        Ok(*self)
    }
}

impl<'a, A: ReaderArena> Copy for CheckedList<'a, A> {}

impl<'a, A: ReaderArena> CheckedList<'a, A> {
    /// The number of elements.
    pub fn len(&self) -> u32
        ensures count { result ≡ self.now.list.list.reader.count }
        ensures value { (t : Tree) → ShowsListOf A.ReaderArena self.now.list.list.reader t
            → result ≡ list_length t }
    {
        self.list.len()
    }

    /// Returns element `index`. Precondition: `index` is below the number of elements.
    pub fn get(&self, index: u32) -> Checked<'a, A>
        requires { index < self.now.list.list.reader.count }
        ensures { (t : Tree) → ShowsListOf A.ReaderArena self.now.list.list.reader t
            → HasStructs t
            → ShowsStructOf A.ReaderArena result.checked.reader (struct_element t index) }
    {
        Checked {
            checked: self.list.get(index),
        }
    }
}
