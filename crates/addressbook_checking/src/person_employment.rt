//! Person.employment
ghost use Rattle.std.specs.Prelude.{◌≡◌, ◌≢◌, ◌≤◌, ◌↔◌, IsTrue, IfOk, IfErr, IfSome, IsSome, ⊤};
ghost use Rattle.capnp_format.specs.Tree.{Tree, Null};
ghost use Rattle.capnp_pointers.specs.Reading.{word_of};
ghost use Rattle.capnp_readers.specs.Values.{ShowsStructOf};
ghost use Rattle.typed_reading.specs.Sections.{ShowsSectionsOf, pointer_field};
ghost use Rattle.typed_reading.specs.Values.{child};
ghost use Rattle.addressbook_reading.specs.Schema.{person_employment_tag, person_employment_employer, person_employment_school};
ghost use Rattle.addressbook_reading.specs.OfPersonEmploymentWhich.{person_employment_which_number};

use crate::schema_table;
use addressbook_reading::person_employment_which;
use capnp_arena_traits::arena::ReaderArena;
use std::alloc::AllocError;
use typed_checking::rows::RowStruct;
use typed_checking::schema::Member;
use typed_reading::error::NotInSchema;
use typed_reading::value;

/// Person.employment, in a message that was checked: row 3 of the table.
pub struct Checked<'a, A: ReaderArena> {
    /// The struct.
    pub checked: RowStruct<'a, A, schema_table::Table, 3>,
}

impl<'a, A: ReaderArena> Clone for Checked<'a, A> {
    ghost is_clone = { λ x y. y ≡ x };

    ghost is_infallible = { λ _. ⊤ };

    fn clone(&self) -> Result<Self, AllocError> {
        Ok(*self)
    }
}

impl<'a, A: ReaderArena> Copy for Checked<'a, A> {}

impl<'a, A: ReaderArena> Checked<'a, A> {
    /// Returns the reader whose getters check what they read.
    pub fn as_reader(&self) -> addressbook_reading::person_employment::Reader<'a, A>
        ensures { result.reader ≡ self.now.checked.reader }
    {
        addressbook_reading::person_employment::Reader {
            reader: self.checked.reader,
        }
    }

    /// employer @5 :Text
    ///
    /// `None` if another member is set.
    pub fn get_employer(&self) -> Option<&'a str>
        ensures set { (t : Tree) → ShowsStructOf A.ReaderArena self.now.checked.reader t
            → (IsSome result ↔ (person_employment_tag t ≡ 1)) }
        ensures value { (t : Tree) → ShowsStructOf A.ReaderArena self.now.checked.reader t
            → IfSome result (λ r. r.now ≡ person_employment_employer t) }
    {
        self.checked.get_member_str(&[Member(2, 1)], 3)
    }

    /// Whether the pointer of employer is not null.
    pub fn has_employer(&self) -> bool
        ensures value { (t : Tree) → ShowsStructOf A.ReaderArena self.now.checked.reader t
            → (IsTrue result ↔ (child 3 t ≢ Null)) }
        ensures word { IsTrue result
            ↔ (word_of (pointer_field A.ReaderArena self.now.checked.reader 3) ≢ 0) }
    {
        value::has(&self.checked.reader, 3)
    }

    /// school @6 :Text
    ///
    /// `None` if another member is set.
    pub fn get_school(&self) -> Option<&'a str>
        ensures set { (t : Tree) → ShowsStructOf A.ReaderArena self.now.checked.reader t
            → (IsSome result ↔ (person_employment_tag t ≡ 2)) }
        ensures value { (t : Tree) → ShowsStructOf A.ReaderArena self.now.checked.reader t
            → IfSome result (λ r. r.now ≡ person_employment_school t) }
    {
        self.checked.get_member_str(&[Member(2, 2)], 3)
    }

    /// Whether the pointer of school is not null.
    pub fn has_school(&self) -> bool
        ensures value { (t : Tree) → ShowsStructOf A.ReaderArena self.now.checked.reader t
            → (IsTrue result ↔ (child 3 t ≢ Null)) }
        ensures word { IsTrue result
            ↔ (word_of (pointer_field A.ReaderArena self.now.checked.reader 3) ≢ 0) }
    {
        value::has(&self.checked.reader, 3)
    }

    /// Returns which member is set.
    pub fn which(&self) -> Result<person_employment_which::Which, NotInSchema>
        ensures value { (t : Tree) → ShowsStructOf A.ReaderArena self.now.checked.reader t
            → IfOk result (λ e. person_employment_which_number e
            ≡ person_employment_tag t) }
        ensures unknown { (t : Tree) → ShowsStructOf A.ReaderArena self.now.checked.reader t
            → IfErr result (λ e. (e.0 ≡ person_employment_tag t)
            × (4 ≤ person_employment_tag t)) }
        ensures sections { (t : Tree) → ShowsSectionsOf A.ReaderArena self.now.checked.reader t
            → IfOk result (λ e. person_employment_which_number e
            ≡ person_employment_tag t) }
        ensures unknown_sections { (t : Tree)
            → ShowsSectionsOf A.ReaderArena self.now.checked.reader t
            → IfErr result (λ e. (e.0 ≡ person_employment_tag t)
            × (4 ≤ person_employment_tag t)) }
    {
        person_employment_which::of_number(value::get_number(&self.checked.reader, 2))
    }
}
