//! Field.slot
ghost use Rattle.std.specs.Prelude.{◌≡◌, ◌≢◌, ◌↔◌, ℕ, IsTrue, IfOk, IsOk, ⊤};
ghost use Rattle.std.specs.Result.{result_err};
ghost use Rattle.capnp_format.specs.Tree.{Tree, Null};
ghost use Rattle.capnp_words.specs.Meter.{Affords};
ghost use Rattle.capnp_pointers.specs.Expected.{struct_expected};
ghost use Rattle.capnp_pointers.specs.Reading.{source_start, word_of};
ghost use Rattle.capnp_readers.specs.Values.{IsStructOrNull, ShowsStructOf, child_cost};
ghost use Rattle.typed_reading.specs.Outcomes.{reading_outcome};
ghost use Rattle.typed_reading.specs.Sections.{LeadsToSectionsOf, ShowsSectionsOf, pointer_field};
ghost use Rattle.typed_reading.specs.Values.{child};
ghost use Rattle.schema_reading.specs.Schema.{field_slot_offset, field_slot_type, field_slot_default_value, field_slot_had_explicit_default};

use crate::{type_, value_};
use capnp_arena_traits::arena::ReaderArena;
use capnp_readers::readers::StructReader;
use capnp_words::error::ErrorKind;
use capnp_words::read_limiter::ReadLimiter;
use std::alloc::AllocError;
use typed_reading::value;

/// Field.slot.
pub struct Reader<'a, A: ReaderArena> {
    /// The struct.
    pub reader: StructReader<'a, A>,
}

impl<'a, A: ReaderArena> Clone for Reader<'a, A> {
    ghost is_clone = { λ x y. y ≡ x };

    ghost is_infallible = { λ _. ⊤ };

    fn clone(&self) -> Result<Self, AllocError> {
        Ok(*self)
    }
}

impl<'a, A: ReaderArena> Copy for Reader<'a, A> {}

impl<'a, A: ReaderArena> Reader<'a, A> {
    /// offset @4 :UInt32
    pub fn get_offset(&self) -> u32
        ensures value { (t : Tree) → ShowsStructOf A.ReaderArena self.now.reader t
            → result ≡ field_slot_offset t }
        ensures sections { (t : Tree) → ShowsSectionsOf A.ReaderArena self.now.reader t
            → result ≡ field_slot_offset t }
    {
        value::get_number(&self.reader, 1)
    }

    /// type @5 :Type
    pub fn get_type(&self, lim: &mut ReadLimiter) -> Result<type_::Reader<'a, A>, ErrorKind>
        ensures value { (t : Tree) → ShowsStructOf A.ReaderArena self.now.reader t
            → IfOk result (λ r.
            ShowsStructOf A.ReaderArena r.reader (field_slot_type t)) }
        ensures answered { let start = source_start A.ReaderArena self.now.reader.source in
            (t : Tree) (shows : ShowsStructOf A.ReaderArena self.now.reader t)
            → IsStructOrNull (field_slot_type t)
            → Affords start.charging lim.old (child_cost A.ReaderArena shows 2)
            → IsOk result }
        ensures left { let start = source_start A.ReaderArena self.now.reader.source in
            (t : Tree) (shows : ShowsStructOf A.ReaderArena self.now.reader t)
            → Affords start.charging lim.old (child_cost A.ReaderArena shows 2)
            → IfOk result (λ r.
            (inner : ShowsStructOf A.ReaderArena r.reader (field_slot_type t)) (i : ℕ)
            → Affords (source_start A.ReaderArena r.reader.source).charging lim.new
            (child_cost A.ReaderArena inner i)) }
        ensures exactly { reading_outcome struct_expected
            (pointer_field A.ReaderArena self.now.reader 2) lim.old
            ≡ (result_err result, lim.new) }
        ensures sections { (t : Tree)
            → LeadsToSectionsOf (pointer_field A.ReaderArena self.now.reader 2) t
            → IfOk result (λ r. ShowsSectionsOf A.ReaderArena r.reader t) }
    {
        match value::get_struct(&self.reader, 2, lim) {
            Ok(reader) => Ok(type_::Reader { reader }),
            Err(k) => Err(k),
        }
    }

    /// Whether the pointer of type is not null.
    pub fn has_type(&self) -> bool
        ensures value { (t : Tree) → ShowsStructOf A.ReaderArena self.now.reader t
            → (IsTrue result ↔ (child 2 t ≢ Null)) }
        ensures word { IsTrue result
            ↔ (word_of (pointer_field A.ReaderArena self.now.reader 2) ≢ 0) }
    {
        value::has(&self.reader, 2)
    }

    /// defaultValue @6 :Value
    pub fn get_default_value(
        &self,
        lim: &mut ReadLimiter,
    ) -> Result<value_::Reader<'a, A>, ErrorKind>
        ensures value { (t : Tree) → ShowsStructOf A.ReaderArena self.now.reader t
            → IfOk result (λ r.
            ShowsStructOf A.ReaderArena r.reader (field_slot_default_value t)) }
        ensures answered { let start = source_start A.ReaderArena self.now.reader.source in
            (t : Tree) (shows : ShowsStructOf A.ReaderArena self.now.reader t)
            → IsStructOrNull (field_slot_default_value t)
            → Affords start.charging lim.old (child_cost A.ReaderArena shows 3)
            → IsOk result }
        ensures left { let start = source_start A.ReaderArena self.now.reader.source in
            (t : Tree) (shows : ShowsStructOf A.ReaderArena self.now.reader t)
            → Affords start.charging lim.old (child_cost A.ReaderArena shows 3)
            → IfOk result (λ r.
            (inner : ShowsStructOf A.ReaderArena r.reader (field_slot_default_value t)) (i : ℕ)
            → Affords (source_start A.ReaderArena r.reader.source).charging lim.new
            (child_cost A.ReaderArena inner i)) }
        ensures exactly { reading_outcome struct_expected
            (pointer_field A.ReaderArena self.now.reader 3) lim.old
            ≡ (result_err result, lim.new) }
        ensures sections { (t : Tree)
            → LeadsToSectionsOf (pointer_field A.ReaderArena self.now.reader 3) t
            → IfOk result (λ r. ShowsSectionsOf A.ReaderArena r.reader t) }
    {
        match value::get_struct(&self.reader, 3, lim) {
            Ok(reader) => Ok(value_::Reader { reader }),
            Err(k) => Err(k),
        }
    }

    /// Whether the pointer of defaultValue is not null.
    pub fn has_default_value(&self) -> bool
        ensures value { (t : Tree) → ShowsStructOf A.ReaderArena self.now.reader t
            → (IsTrue result ↔ (child 3 t ≢ Null)) }
        ensures word { IsTrue result
            ↔ (word_of (pointer_field A.ReaderArena self.now.reader 3) ≢ 0) }
    {
        value::has(&self.reader, 3)
    }

    /// hadExplicitDefault @10 :Bool
    pub fn get_had_explicit_default(&self) -> bool
        ensures value { (t : Tree) → ShowsStructOf A.ReaderArena self.now.reader t
            → (IsTrue result ↔ (field_slot_had_explicit_default t ≡ 1)) }
        ensures sections { (t : Tree) → ShowsSectionsOf A.ReaderArena self.now.reader t
            → (IsTrue result ↔ (field_slot_had_explicit_default t ≡ 1)) }
    {
        value::get_bool(&self.reader, 128)
    }
}
