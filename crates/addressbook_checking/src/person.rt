//! Person
ghost use Rattle.std.specs.Prelude.{◌≡◌, ◌≢◌, ◌⊎◌, ◌<◌, ◌+◌, ◌↔◌, ℕ, IsTrue, IfOk, IfErr, IsOk, OnOk, ⊤};
ghost use Rattle.capnp_format.specs.Bytes.{message};
ghost use Rattle.capnp_format.specs.Means.{Means};
ghost use Rattle.capnp_format.specs.Tree.{Tree, Null};
ghost use Rattle.capnp_words.specs.Meter.{Affords, charged};
ghost use Rattle.capnp_arena_traits.specs.Checks.{Holds};
ghost use Rattle.capnp_pointers.specs.Reading.{word_of};
ghost use Rattle.capnp_pointers.specs.Source.{levels};
ghost use Rattle.capnp_pointers.specs.Spending.{Paid, pointers_in};
ghost use Rattle.capnp_readers.specs.Values.{HasStructs, ShowsListOf, ShowsStructOf, list_length, struct_element};
ghost use Rattle.typed_reading.specs.Sections.{ShowsSectionsOf, pointer_field};
ghost use Rattle.typed_reading.specs.Values.{child};
ghost use Rattle.typed_conforming.specs.Blame.{IsTrueFrom, arena_root, first_visit};
ghost use Rattle.typed_conforming.specs.Conforms.{Conforms};
ghost use Rattle.typed_conforming.specs.Walk.{misfit_at, rowless_pointer};
ghost use Rattle.typed_conforming.specs.declared.schema.Kind.TheVariants.{Struct};
ghost use Rattle.addressbook_checking.specs.Table.{schema_table};
ghost use Rattle.addressbook_reading.specs.Schema.{person_id, person_name, person_email, person_phones};

use crate::{person_employment, person_phone_number, schema_table};
use capnp_arena_traits::arena::ReaderArena;
use capnp_words::read_limiter::ReadLimiter;
use std::alloc::AllocError;
use typed_checking::rows::{RowStruct, RowStructs};
use typed_conforming::schema::Misfit;
use typed_reading::value;

/// Person, in a message that was checked: row 3 of the table.
pub struct Checked<'a, A: ReaderArena> {
    /// The struct.
    pub checked: RowStruct<'a, A, schema_table::Table, 3>,
}

impl<'a, A: ReaderArena> Clone for Checked<'a, A> {
    ghost is_clone = { λ x y. y ≡ x };

    ghost is_infallible = { λ _. ⊤ };

    fn clone(&self) -> Result<Self, AllocError> {
        Ok(*self)
    }
}

impl<'a, A: ReaderArena> Copy for Checked<'a, A> {}

impl<'a, A: ReaderArena> Checked<'a, A> {
    /// Checks a message against the schema, once, and returns its root.
    pub fn root(arena: &'a A, lim: &mut ReadLimiter) -> Result<Self, Misfit>
        ensures value { (t : Tree) (c : ℕ)
            → Means (message (A.segments arena.now)) (levels (A.nesting arena.now)) 0 0 t c
            → IfOk result (λ r. ShowsStructOf A.ReaderArena r.checked.reader t) }
        ensures answered { let S = message (A.segments arena.now) in (t : Tree) (c : ℕ)
            → Holds S 0 0 1 → Conforms schema_table (Struct 3) t
            → Means S (levels (A.nesting arena.now)) 0 0 t c
            → Affords (A.charging arena.now) lim.old (1 + c) → IsOk result }
        ensures conforms { OnOk result ((t : Tree) × (c : ℕ)
            × Conforms schema_table (Struct 3) t
            × Means (message (A.segments arena.now)) (levels (A.nesting arena.now)) 0 0 t c
            × Affords (A.charging arena.now) lim.old (1 + c)) }
        ensures spent { let charging = A.charging arena.now in (t : Tree) (c : ℕ)
            → Means (message (A.segments arena.now)) (levels (A.nesting arena.now)) 0 0 t c
            → OnOk result (Paid charging (charged charging lim.old 1) lim.new c (pointers_in t)) }
        ensures refused { let S = message (A.segments arena.now) in let root =
            arena_root A.ReaderArena arena.entry in IfErr result (λ x.
            ((Holds S 0 0 1 × Affords root.charging lim.old 1 → ⊥)
            × (x ≡ misfit_at (rowless_pointer (Struct 3)) root x.error))
            ⊎ IsTrueFrom (first_visit schema_table (Struct 3) root) lim.new x) }
    {
        match RowStruct::root(arena, lim) {
            Ok(checked) => Ok(Checked { checked }),
            Err(misfit) => Err(misfit),
        }
    }

    /// Returns the reader whose getters check what they read.
    pub fn as_reader(&self) -> addressbook_reading::person::Reader<'a, A>
        ensures { result.reader ≡ self.now.checked.reader }
    {
        addressbook_reading::person::Reader {
            reader: self.checked.reader,
        }
    }

    /// id @0 :UInt32
    pub fn get_id(&self) -> u32
        ensures value { (t : Tree) → ShowsStructOf A.ReaderArena self.now.checked.reader t
            → result ≡ person_id t }
        ensures sections { (t : Tree) → ShowsSectionsOf A.ReaderArena self.now.checked.reader t
            → result ≡ person_id t }
    {
        value::get_number(&self.checked.reader, 0)
    }

    /// name @1 :Text
    pub fn get_name(&self) -> &'a str
        ensures { (t : Tree) → ShowsStructOf A.ReaderArena self.now.checked.reader t
            → result.now ≡ person_name t }
    {
        self.checked.get_str(0)
    }

    /// Whether the pointer of name is not null.
    pub fn has_name(&self) -> bool
        ensures value { (t : Tree) → ShowsStructOf A.ReaderArena self.now.checked.reader t
            → (IsTrue result ↔ (child 0 t ≢ Null)) }
        ensures word { IsTrue result
            ↔ (word_of (pointer_field A.ReaderArena self.now.checked.reader 0) ≢ 0) }
    {
        value::has(&self.checked.reader, 0)
    }

    /// email @2 :Text
    pub fn get_email(&self) -> &'a str
        ensures { (t : Tree) → ShowsStructOf A.ReaderArena self.now.checked.reader t
            → result.now ≡ person_email t }
    {
        self.checked.get_str(1)
    }

    /// Whether the pointer of email is not null.
    pub fn has_email(&self) -> bool
        ensures value { (t : Tree) → ShowsStructOf A.ReaderArena self.now.checked.reader t
            → (IsTrue result ↔ (child 1 t ≢ Null)) }
        ensures word { IsTrue result
            ↔ (word_of (pointer_field A.ReaderArena self.now.checked.reader 1) ≢ 0) }
    {
        value::has(&self.checked.reader, 1)
    }

    /// phones @3 :List(Person.PhoneNumber)
    pub fn get_phones(&self) -> person_phone_number::CheckedList<'a, A>
        ensures { (t : Tree) → ShowsStructOf A.ReaderArena self.now.checked.reader t
            → ShowsListOf A.ReaderArena result.list.list.reader (person_phones t) }
    {
        person_phone_number::CheckedList {
            list: self.checked.get_structs(2),
        }
    }

    /// Whether the pointer of phones is not null.
    pub fn has_phones(&self) -> bool
        ensures value { (t : Tree) → ShowsStructOf A.ReaderArena self.now.checked.reader t
            → (IsTrue result ↔ (child 2 t ≢ Null)) }
        ensures word { IsTrue result
            ↔ (word_of (pointer_field A.ReaderArena self.now.checked.reader 2) ≢ 0) }
    {
        value::has(&self.checked.reader, 2)
    }

    /// employment :group
    pub fn get_employment(&self) -> person_employment::Checked<'a, A>
        ensures value { (t : Tree) → ShowsStructOf A.ReaderArena self.now.checked.reader t
            → ShowsStructOf A.ReaderArena result.checked.reader t }
        ensures reader { result.checked.reader ≡ self.now.checked.reader }
    {
        person_employment::Checked {
            checked: self.checked,
        }
    }
}

/// A list of Person, in a message that was checked.
pub struct CheckedList<'a, A: ReaderArena> {
    /// The list.
    pub list: RowStructs<'a, A, schema_table::Table, 3>,
}

impl<'a, A: ReaderArena> Clone for CheckedList<'a, A> {
    ghost is_clone = { λ x y. y ≡ x };

    ghost is_infallible = { λ _. ⊤ };

    fn clone(&self) -> Result<Self, AllocError> {
        Ok(*self)
    }
}

impl<'a, A: ReaderArena> Copy for CheckedList<'a, A> {}

impl<'a, A: ReaderArena> CheckedList<'a, A> {
    /// The number of elements.
    pub fn len(&self) -> u32
        ensures count { result ≡ self.now.list.list.reader.count }
        ensures value { (t : Tree) → ShowsListOf A.ReaderArena self.now.list.list.reader t
            → result ≡ list_length t }
    {
        self.list.len()
    }

    /// Returns element `index`. Precondition: `index` is below the number of elements.
    pub fn get(&self, index: u32) -> Checked<'a, A>
        requires { index < self.now.list.list.reader.count }
        ensures { (t : Tree) → ShowsListOf A.ReaderArena self.now.list.list.reader t
            → HasStructs t
            → ShowsStructOf A.ReaderArena result.checked.reader (struct_element t index) }
    {
        Checked {
            checked: self.list.get(index),
        }
    }
}
