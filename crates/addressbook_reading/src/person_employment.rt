//! Person.employment
ghost use Rattle.std.specs.Prelude.{◌≡◌, ◌≢◌, ◌≤◌, ◌↔◌, IsTrue, IfOk, IfErr, IsOk, ⊤};
ghost use Rattle.std.specs.Result.{result_err};
ghost use Rattle.capnp_format.specs.Tree.{Tree, Null};
ghost use Rattle.capnp_words.specs.Meter.{Affords};
ghost use Rattle.capnp_pointers.specs.Expected.{text_expected};
ghost use Rattle.capnp_pointers.specs.Reading.{source_start, word_of};
ghost use Rattle.capnp_readers.specs.Values.{IsText, ShowsStructOf, child_cost};
ghost use Rattle.typed_reading.specs.Outcomes.{reading_outcome};
ghost use Rattle.typed_reading.specs.Sections.{ShowsSectionsOf, pointer_field};
ghost use Rattle.typed_reading.specs.Values.{child};
ghost use Rattle.addressbook_reading.specs.Schema.{person_employment_employer, person_employment_school, person_employment_tag};
ghost use Rattle.addressbook_reading.specs.OfPersonEmploymentWhich.{person_employment_which_number};

use crate::person_employment_which;
use capnp_arena_traits::arena::ReaderArena;
use capnp_readers::readers::StructReader;
use capnp_words::error::ErrorKind;
use capnp_words::read_limiter::ReadLimiter;
use std::alloc::AllocError;
use typed_reading::error::NotInSchema;
use typed_reading::value;

/// Person.employment.
pub struct Reader<'a, A: ReaderArena> {
    /// The struct.
    pub reader: StructReader<'a, A>,
}

impl<'a, A: ReaderArena> Clone for Reader<'a, A> {
    ghost is_clone = { λ x y. y ≡ x };

    ghost is_infallible = { λ _. ⊤ };

    fn clone(&self) -> Result<Self, AllocError> {
        Ok(*self)
    }
}

impl<'a, A: ReaderArena> Copy for Reader<'a, A> {}

impl<'a, A: ReaderArena> Reader<'a, A> {
    /// employer @5 :Text
    pub fn get_employer(&self, lim: &mut ReadLimiter) -> Result<&'a [u8], ErrorKind>
        ensures value { (t : Tree) → ShowsStructOf A.ReaderArena self.now.reader t
            → IfOk result (λ text. text.now ≡ person_employment_employer t) }
        ensures answered { let start = source_start A.ReaderArena self.now.reader.source in
            (t : Tree) (shows : ShowsStructOf A.ReaderArena self.now.reader t)
            → IsText (child 3 t)
            → Affords start.charging lim.old (child_cost A.ReaderArena shows 3)
            → IsOk result }
        ensures exactly { reading_outcome text_expected
            (pointer_field A.ReaderArena self.now.reader 3) lim.old
            ≡ (result_err result, lim.new) }
    {
        value::get_text(&self.reader, 3, lim)
    }

    /// Whether the pointer of employer is not null.
    pub fn has_employer(&self) -> bool
        ensures value { (t : Tree) → ShowsStructOf A.ReaderArena self.now.reader t
            → (IsTrue result ↔ (child 3 t ≢ Null)) }
        ensures word { IsTrue result
            ↔ (word_of (pointer_field A.ReaderArena self.now.reader 3) ≢ 0) }
    {
        value::has(&self.reader, 3)
    }

    /// school @6 :Text
    pub fn get_school(&self, lim: &mut ReadLimiter) -> Result<&'a [u8], ErrorKind>
        ensures value { (t : Tree) → ShowsStructOf A.ReaderArena self.now.reader t
            → IfOk result (λ text. text.now ≡ person_employment_school t) }
        ensures answered { let start = source_start A.ReaderArena self.now.reader.source in
            (t : Tree) (shows : ShowsStructOf A.ReaderArena self.now.reader t)
            → IsText (child 3 t)
            → Affords start.charging lim.old (child_cost A.ReaderArena shows 3)
            → IsOk result }
        ensures exactly { reading_outcome text_expected
            (pointer_field A.ReaderArena self.now.reader 3) lim.old
            ≡ (result_err result, lim.new) }
    {
        value::get_text(&self.reader, 3, lim)
    }

    /// Whether the pointer of school is not null.
    pub fn has_school(&self) -> bool
        ensures value { (t : Tree) → ShowsStructOf A.ReaderArena self.now.reader t
            → (IsTrue result ↔ (child 3 t ≢ Null)) }
        ensures word { IsTrue result
            ↔ (word_of (pointer_field A.ReaderArena self.now.reader 3) ≢ 0) }
    {
        value::has(&self.reader, 3)
    }

    /// Returns which member is set.
    pub fn which(&self) -> Result<person_employment_which::Which, NotInSchema>
        ensures value { (t : Tree) → ShowsStructOf A.ReaderArena self.now.reader t
            → IfOk result (λ e. person_employment_which_number e
            ≡ person_employment_tag t) }
        ensures unknown { (t : Tree) → ShowsStructOf A.ReaderArena self.now.reader t
            → IfErr result (λ e. (e.0 ≡ person_employment_tag t)
            × (4 ≤ person_employment_tag t)) }
        ensures sections { (t : Tree) → ShowsSectionsOf A.ReaderArena self.now.reader t
            → IfOk result (λ e. person_employment_which_number e
            ≡ person_employment_tag t) }
        ensures unknown_sections { (t : Tree)
            → ShowsSectionsOf A.ReaderArena self.now.reader t
            → IfErr result (λ e. (e.0 ≡ person_employment_tag t)
            × (4 ≤ person_employment_tag t)) }
    {
        person_employment_which::of_number(value::get_number(&self.reader, 2))
    }
}
