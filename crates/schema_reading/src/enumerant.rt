//! Enumerant
ghost use Rattle.std.specs.Prelude.{◌≡◌, ◌≢◌, ◌<◌, ◌+◌, ◌↔◌, ℕ, IsTrue, IfOk, IsOk, ⊤};
ghost use Rattle.std.specs.Result.{result_err};
ghost use Rattle.capnp_format.specs.Bytes.{message};
ghost use Rattle.capnp_format.specs.Means.{Means};
ghost use Rattle.capnp_format.specs.Tree.{Tree, Null};
ghost use Rattle.capnp_words.specs.Meter.{Affords};
ghost use Rattle.capnp_words.specs.declared.wire_pointer.ElementSize.TheVariants.{InlineComposite};
ghost use Rattle.capnp_arena_traits.specs.Checks.{Holds};
ghost use Rattle.capnp_pointers.specs.Expected.{list_expected, text_expected};
ghost use Rattle.capnp_pointers.specs.Reading.{source_start, word_of};
ghost use Rattle.capnp_pointers.specs.Source.{levels};
ghost use Rattle.capnp_readers.specs.Values.{FitsSize, HasStructs, IsStructOrNull, IsText, ShowsListOf, ShowsStructOf, child_cost, list_length, struct_element};
ghost use Rattle.typed_reading.specs.Outcomes.{reading_outcome, root_outcome, root_place};
ghost use Rattle.typed_reading.specs.Sections.{ElementHasSections, LeadsToSectionsOf, ShowsSectionsOf, pointer_field};
ghost use Rattle.typed_reading.specs.Values.{child};
ghost use Rattle.schema_reading.specs.Schema.{enumerant_name, enumerant_code_order, enumerant_annotations};

use crate::annotation;
use capnp_arena_traits::arena::ReaderArena;
use capnp_readers::readers::StructReader;
use capnp_words::error::ErrorKind;
use capnp_words::read_limiter::ReadLimiter;
use std::alloc::AllocError;
use typed_reading::list::{self, StructsReader};
use typed_reading::value;

/// Enumerant.
pub struct Reader<'a, A: ReaderArena> {
    /// The struct.
    pub reader: StructReader<'a, A>,
}

impl<'a, A: ReaderArena> Clone for Reader<'a, A> {
    ghost is_clone = { λ x y. y ≡ x };

    ghost is_infallible = { λ _. ⊤ };

    fn clone(&self) -> Result<Self, AllocError> {
        Ok(*self)
    }
}

impl<'a, A: ReaderArena> Copy for Reader<'a, A> {}

impl<'a, A: ReaderArena> Reader<'a, A> {
    /// Returns the root of a message.
    pub fn root(arena: &'a A, lim: &mut ReadLimiter) -> Result<Self, ErrorKind>
        ensures value { (t : Tree) (c : ℕ)
            → Means (message (A.segments arena.now)) (levels (A.nesting arena.now)) 0 0 t c
            → IfOk result (λ r. ShowsStructOf A.ReaderArena r.reader t) }
        ensures answered { let S = message (A.segments arena.now) in (t : Tree) (c : ℕ)
            → Holds S 0 0 1 → IsStructOrNull t → Means S (levels (A.nesting arena.now)) 0 0 t c
            → Affords (A.charging arena.now) lim.old (1 + c) → IsOk result }
        ensures left { (t : Tree) (c : ℕ)
            → Means (message (A.segments arena.now)) (levels (A.nesting arena.now)) 0 0 t c
            → Affords (A.charging arena.now) lim.old (1 + c)
            → IfOk result (λ r. (shows : ShowsStructOf A.ReaderArena r.reader t) (i : ℕ)
            → Affords (source_start A.ReaderArena r.reader.source).charging lim.new
            (child_cost A.ReaderArena shows i)) }
        ensures exactly { root_outcome A.ReaderArena arena.entry lim.old
            ≡ (result_err result, lim.new) }
        ensures sections { (t : Tree)
            → LeadsToSectionsOf (root_place A.ReaderArena arena.entry) t
            → IfOk result (λ r. ShowsSectionsOf A.ReaderArena r.reader t) }
    {
        match value::root(arena, lim) {
            Ok(reader) => Ok(Reader { reader }),
            Err(k) => Err(k),
        }
    }

    /// name @0 :Text
    pub fn get_name(&self, lim: &mut ReadLimiter) -> Result<&'a [u8], ErrorKind>
        ensures value { (t : Tree) → ShowsStructOf A.ReaderArena self.now.reader t
            → IfOk result (λ text. text.now ≡ enumerant_name t) }
        ensures answered { let start = source_start A.ReaderArena self.now.reader.source in
            (t : Tree) (shows : ShowsStructOf A.ReaderArena self.now.reader t)
            → IsText (child 0 t)
            → Affords start.charging lim.old (child_cost A.ReaderArena shows 0)
            → IsOk result }
        ensures exactly { reading_outcome text_expected
            (pointer_field A.ReaderArena self.now.reader 0) lim.old
            ≡ (result_err result, lim.new) }
    {
        value::get_text(&self.reader, 0, lim)
    }

    /// Whether the pointer of name is not null.
    pub fn has_name(&self) -> bool
        ensures value { (t : Tree) → ShowsStructOf A.ReaderArena self.now.reader t
            → (IsTrue result ↔ (child 0 t ≢ Null)) }
        ensures word { IsTrue result
            ↔ (word_of (pointer_field A.ReaderArena self.now.reader 0) ≢ 0) }
    {
        value::has(&self.reader, 0)
    }

    /// codeOrder @1 :UInt16
    pub fn get_code_order(&self) -> u16
        ensures value { (t : Tree) → ShowsStructOf A.ReaderArena self.now.reader t
            → result ≡ enumerant_code_order t }
        ensures sections { (t : Tree) → ShowsSectionsOf A.ReaderArena self.now.reader t
            → result ≡ enumerant_code_order t }
    {
        value::get_number(&self.reader, 0)
    }

    /// annotations @2 :List(Annotation)
    pub fn get_annotations(
        &self,
        lim: &mut ReadLimiter,
    ) -> Result<annotation::Readers<'a, A>, ErrorKind>
        ensures value { (t : Tree) → ShowsStructOf A.ReaderArena self.now.reader t
            → IfOk result (λ r.
            ShowsListOf A.ReaderArena r.list.reader (enumerant_annotations t)) }
        ensures answered { let start = source_start A.ReaderArena self.now.reader.source in
            (t : Tree) (shows : ShowsStructOf A.ReaderArena self.now.reader t)
            → FitsSize InlineComposite (enumerant_annotations t)
            → Affords start.charging lim.old (child_cost A.ReaderArena shows 1)
            → IsOk result }
        ensures left { let start = source_start A.ReaderArena self.now.reader.source in
            (t : Tree) (shows : ShowsStructOf A.ReaderArena self.now.reader t)
            → Affords start.charging lim.old (child_cost A.ReaderArena shows 1)
            → IfOk result (λ r.
            (inner : ShowsListOf A.ReaderArena r.list.reader (enumerant_annotations t))
            → Affords (source_start A.ReaderArena r.list.reader.source).charging lim.new
            inner.cost) }
        ensures exactly { reading_outcome (list_expected InlineComposite)
            (pointer_field A.ReaderArena self.now.reader 1) lim.old
            ≡ (result_err result, lim.new) }
    {
        match list::get_structs(&self.reader, 1, lim) {
            Ok(list) => Ok(annotation::Readers { list }),
            Err(k) => Err(k),
        }
    }

    /// Whether the pointer of annotations is not null.
    pub fn has_annotations(&self) -> bool
        ensures value { (t : Tree) → ShowsStructOf A.ReaderArena self.now.reader t
            → (IsTrue result ↔ (child 1 t ≢ Null)) }
        ensures word { IsTrue result
            ↔ (word_of (pointer_field A.ReaderArena self.now.reader 1) ≢ 0) }
    {
        value::has(&self.reader, 1)
    }
}

/// A list of Enumerant.
pub struct Readers<'a, A: ReaderArena> {
    /// The list.
    pub list: StructsReader<'a, A>,
}

impl<'a, A: ReaderArena> Clone for Readers<'a, A> {
    ghost is_clone = { λ x y. y ≡ x };

    ghost is_infallible = { λ _. ⊤ };

    fn clone(&self) -> Result<Self, AllocError> {
        Ok(*self)
    }
}

impl<'a, A: ReaderArena> Copy for Readers<'a, A> {}

impl<'a, A: ReaderArena> Readers<'a, A> {
    /// The number of elements.
    pub fn len(&self) -> u32
        ensures count { result ≡ self.now.list.reader.count }
        ensures value { (t : Tree) → ShowsListOf A.ReaderArena self.now.list.reader t
            → result ≡ list_length t }
    {
        self.list.len()
    }

    /// Returns element `index`. Precondition: `index` is below the number of elements.
    pub fn get(&self, index: u32) -> Reader<'a, A>
        requires { index < self.now.list.reader.count }
        ensures value { (t : Tree) → ShowsListOf A.ReaderArena self.now.list.reader t
            → HasStructs t → ShowsStructOf A.ReaderArena result.reader (struct_element t index) }
        ensures sections { (t : Tree)
            → ElementHasSections A.ReaderArena self.now.list.reader index t
            → ShowsSectionsOf A.ReaderArena result.reader t }
        ensures source { result.reader.source ≡ self.now.list.reader.source }
    {
        Reader {
            reader: self.list.get(index),
        }
    }
}
