//! Brand.Binding
ghost use Rattle.std.specs.Prelude.{◌≡◌, ◌≢◌, ◌<◌, ◌≤◌, ◌+◌, ◌↔◌, ℕ, IsTrue, IfOk, IfErr, IsOk, ⊤};
ghost use Rattle.std.specs.Result.{result_err};
ghost use Rattle.capnp_format.specs.Bytes.{message};
ghost use Rattle.capnp_format.specs.Means.{Means};
ghost use Rattle.capnp_format.specs.Tree.{Tree, Null};
ghost use Rattle.capnp_words.specs.Meter.{Affords};
ghost use Rattle.capnp_arena_traits.specs.Checks.{Holds};
ghost use Rattle.capnp_pointers.specs.Expected.{struct_expected};
ghost use Rattle.capnp_pointers.specs.Reading.{source_start, word_of};
ghost use Rattle.capnp_pointers.specs.Source.{levels};
ghost use Rattle.capnp_readers.specs.Values.{HasStructs, IsStructOrNull, ShowsListOf, ShowsStructOf, child_cost, list_length, struct_element};
ghost use Rattle.typed_reading.specs.Outcomes.{reading_outcome, root_outcome, root_place};
ghost use Rattle.typed_reading.specs.Sections.{ElementHasSections, LeadsToSectionsOf, ShowsSectionsOf, pointer_field};
ghost use Rattle.typed_reading.specs.Values.{child};
ghost use Rattle.schema_reading.specs.Schema.{brand_binding_type, brand_binding_tag};
ghost use Rattle.schema_reading.specs.OfBrandBindingWhich.{brand_binding_which_number};

use crate::{brand_binding_which, type_};
use capnp_arena_traits::arena::ReaderArena;
use capnp_readers::readers::StructReader;
use capnp_words::error::ErrorKind;
use capnp_words::read_limiter::ReadLimiter;
use std::alloc::AllocError;
use typed_reading::error::NotInSchema;
use typed_reading::list::StructsReader;
use typed_reading::value;

/// Brand.Binding.
pub struct Reader<'a, A: ReaderArena> {
    /// The struct.
    pub reader: StructReader<'a, A>,
}

impl<'a, A: ReaderArena> Clone for Reader<'a, A> {
    ghost is_clone = { λ x y. y ≡ x };

    ghost is_infallible = { λ _. ⊤ };

    fn clone(&self) -> Result<Self, AllocError> {
        Ok(*self)
    }
}

impl<'a, A: ReaderArena> Copy for Reader<'a, A> {}

impl<'a, A: ReaderArena> Reader<'a, A> {
    /// Returns the root of a message.
    pub fn root(arena: &'a A, lim: &mut ReadLimiter) -> Result<Self, ErrorKind>
        ensures value { (t : Tree) (c : ℕ)
            → Means (message (A.segments arena.now)) (levels (A.nesting arena.now)) 0 0 t c
            → IfOk result (λ r. ShowsStructOf A.ReaderArena r.reader t) }
        ensures answered { let S = message (A.segments arena.now) in (t : Tree) (c : ℕ)
            → Holds S 0 0 1 → IsStructOrNull t → Means S (levels (A.nesting arena.now)) 0 0 t c
            → Affords (A.charging arena.now) lim.old (1 + c) → IsOk result }
        ensures left { (t : Tree) (c : ℕ)
            → Means (message (A.segments arena.now)) (levels (A.nesting arena.now)) 0 0 t c
            → Affords (A.charging arena.now) lim.old (1 + c)
            → IfOk result (λ r. (shows : ShowsStructOf A.ReaderArena r.reader t) (i : ℕ)
            → Affords (source_start A.ReaderArena r.reader.source).charging lim.new
            (child_cost A.ReaderArena shows i)) }
        ensures exactly { root_outcome A.ReaderArena arena.entry lim.old
            ≡ (result_err result, lim.new) }
        ensures sections { (t : Tree)
            → LeadsToSectionsOf (root_place A.ReaderArena arena.entry) t
            → IfOk result (λ r. ShowsSectionsOf A.ReaderArena r.reader t) }
    {
        match value::root(arena, lim) {
            Ok(reader) => Ok(Reader { reader }),
            Err(k) => Err(k),
        }
    }

    /// type @1 :Type
    pub fn get_type(&self, lim: &mut ReadLimiter) -> Result<type_::Reader<'a, A>, ErrorKind>
        ensures value { (t : Tree) → ShowsStructOf A.ReaderArena self.now.reader t
            → IfOk result (λ r.
            ShowsStructOf A.ReaderArena r.reader (brand_binding_type t)) }
        ensures answered { let start = source_start A.ReaderArena self.now.reader.source in
            (t : Tree) (shows : ShowsStructOf A.ReaderArena self.now.reader t)
            → IsStructOrNull (brand_binding_type t)
            → Affords start.charging lim.old (child_cost A.ReaderArena shows 0)
            → IsOk result }
        ensures left { let start = source_start A.ReaderArena self.now.reader.source in
            (t : Tree) (shows : ShowsStructOf A.ReaderArena self.now.reader t)
            → Affords start.charging lim.old (child_cost A.ReaderArena shows 0)
            → IfOk result (λ r.
            (inner : ShowsStructOf A.ReaderArena r.reader (brand_binding_type t)) (i : ℕ)
            → Affords (source_start A.ReaderArena r.reader.source).charging lim.new
            (child_cost A.ReaderArena inner i)) }
        ensures exactly { reading_outcome struct_expected
            (pointer_field A.ReaderArena self.now.reader 0) lim.old
            ≡ (result_err result, lim.new) }
        ensures sections { (t : Tree)
            → LeadsToSectionsOf (pointer_field A.ReaderArena self.now.reader 0) t
            → IfOk result (λ r. ShowsSectionsOf A.ReaderArena r.reader t) }
    {
        match value::get_struct(&self.reader, 0, lim) {
            Ok(reader) => Ok(type_::Reader { reader }),
            Err(k) => Err(k),
        }
    }

    /// Whether the pointer of type is not null.
    pub fn has_type(&self) -> bool
        ensures value { (t : Tree) → ShowsStructOf A.ReaderArena self.now.reader t
            → (IsTrue result ↔ (child 0 t ≢ Null)) }
        ensures word { IsTrue result
            ↔ (word_of (pointer_field A.ReaderArena self.now.reader 0) ≢ 0) }
    {
        value::has(&self.reader, 0)
    }

    /// Returns which member is set.
    pub fn which(&self) -> Result<brand_binding_which::Which, NotInSchema>
        ensures value { (t : Tree) → ShowsStructOf A.ReaderArena self.now.reader t
            → IfOk result (λ e. brand_binding_which_number e
            ≡ brand_binding_tag t) }
        ensures unknown { (t : Tree) → ShowsStructOf A.ReaderArena self.now.reader t
            → IfErr result (λ e. (e.0 ≡ brand_binding_tag t)
            × (2 ≤ brand_binding_tag t)) }
        ensures sections { (t : Tree) → ShowsSectionsOf A.ReaderArena self.now.reader t
            → IfOk result (λ e. brand_binding_which_number e
            ≡ brand_binding_tag t) }
        ensures unknown_sections { (t : Tree)
            → ShowsSectionsOf A.ReaderArena self.now.reader t
            → IfErr result (λ e. (e.0 ≡ brand_binding_tag t)
            × (2 ≤ brand_binding_tag t)) }
    {
        brand_binding_which::of_number(value::get_number(&self.reader, 0))
    }
}

/// A list of Brand.Binding.
pub struct Readers<'a, A: ReaderArena> {
    /// The list.
    pub list: StructsReader<'a, A>,
}

impl<'a, A: ReaderArena> Clone for Readers<'a, A> {
    ghost is_clone = { λ x y. y ≡ x };

    ghost is_infallible = { λ _. ⊤ };

    fn clone(&self) -> Result<Self, AllocError> {
        Ok(*self)
    }
}

impl<'a, A: ReaderArena> Copy for Readers<'a, A> {}

impl<'a, A: ReaderArena> Readers<'a, A> {
    /// The number of elements.
    pub fn len(&self) -> u32
        ensures count { result ≡ self.now.list.reader.count }
        ensures value { (t : Tree) → ShowsListOf A.ReaderArena self.now.list.reader t
            → result ≡ list_length t }
    {
        self.list.len()
    }

    /// Returns element `index`. Precondition: `index` is below the number of elements.
    pub fn get(&self, index: u32) -> Reader<'a, A>
        requires { index < self.now.list.reader.count }
        ensures value { (t : Tree) → ShowsListOf A.ReaderArena self.now.list.reader t
            → HasStructs t → ShowsStructOf A.ReaderArena result.reader (struct_element t index) }
        ensures sections { (t : Tree)
            → ElementHasSections A.ReaderArena self.now.list.reader index t
            → ShowsSectionsOf A.ReaderArena result.reader t }
        ensures source { result.reader.source ≡ self.now.list.reader.source }
    {
        Reader {
            reader: self.list.get(index),
        }
    }
}
