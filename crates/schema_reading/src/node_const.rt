//! Node.const
ghost use Rattle.std.specs.Prelude.{◌≡◌, ◌≢◌, ◌↔◌, ℕ, IsTrue, IfOk, IsOk, ⊤};
ghost use Rattle.std.specs.Result.{result_err};
ghost use Rattle.capnp_format.specs.Tree.{Tree, Null};
ghost use Rattle.capnp_words.specs.Meter.{Affords};
ghost use Rattle.capnp_pointers.specs.Expected.{struct_expected};
ghost use Rattle.capnp_pointers.specs.Reading.{source_start, word_of};
ghost use Rattle.capnp_readers.specs.Values.{IsStructOrNull, ShowsStructOf, child_cost};
ghost use Rattle.typed_reading.specs.Outcomes.{reading_outcome};
ghost use Rattle.typed_reading.specs.Sections.{LeadsToSectionsOf, ShowsSectionsOf, pointer_field};
ghost use Rattle.typed_reading.specs.Values.{child};
ghost use Rattle.schema_reading.specs.Schema.{node_const_type, node_const_value};

use crate::{type_, value_};
use capnp_arena_traits::arena::ReaderArena;
use capnp_readers::readers::StructReader;
use capnp_words::error::ErrorKind;
use capnp_words::read_limiter::ReadLimiter;
use std::alloc::AllocError;
use typed_reading::value;

/// Node.const.
pub struct Reader<'a, A: ReaderArena> {
    /// The struct.
    pub reader: StructReader<'a, A>,
}

impl<'a, A: ReaderArena> Clone for Reader<'a, A> {
    ghost is_clone = { λ x y. y ≡ x };

    ghost is_infallible = { λ _. ⊤ };

    fn clone(&self) -> Result<Self, AllocError> {
        Ok(*self)
    }
}

impl<'a, A: ReaderArena> Copy for Reader<'a, A> {}

impl<'a, A: ReaderArena> Reader<'a, A> {
    /// type @16 :Type
    pub fn get_type(&self, lim: &mut ReadLimiter) -> Result<type_::Reader<'a, A>, ErrorKind>
        ensures value { (t : Tree) → ShowsStructOf A.ReaderArena self.now.reader t
            → IfOk result (λ r.
            ShowsStructOf A.ReaderArena r.reader (node_const_type t)) }
        ensures answered { let start = source_start A.ReaderArena self.now.reader.source in
            (t : Tree) (shows : ShowsStructOf A.ReaderArena self.now.reader t)
            → IsStructOrNull (node_const_type t)
            → Affords start.charging lim.old (child_cost A.ReaderArena shows 3)
            → IsOk result }
        ensures left { let start = source_start A.ReaderArena self.now.reader.source in
            (t : Tree) (shows : ShowsStructOf A.ReaderArena self.now.reader t)
            → Affords start.charging lim.old (child_cost A.ReaderArena shows 3)
            → IfOk result (λ r.
            (inner : ShowsStructOf A.ReaderArena r.reader (node_const_type t)) (i : ℕ)
            → Affords (source_start A.ReaderArena r.reader.source).charging lim.new
            (child_cost A.ReaderArena inner i)) }
        ensures exactly { reading_outcome struct_expected
            (pointer_field A.ReaderArena self.now.reader 3) lim.old
            ≡ (result_err result, lim.new) }
        ensures sections { (t : Tree)
            → LeadsToSectionsOf (pointer_field A.ReaderArena self.now.reader 3) t
            → IfOk result (λ r. ShowsSectionsOf A.ReaderArena r.reader t) }
    {
        match value::get_struct(&self.reader, 3, lim) {
            Ok(reader) => Ok(type_::Reader { reader }),
            Err(k) => Err(k),
        }
    }

    /// Whether the pointer of type is not null.
    pub fn has_type(&self) -> bool
        ensures value { (t : Tree) → ShowsStructOf A.ReaderArena self.now.reader t
            → (IsTrue result ↔ (child 3 t ≢ Null)) }
        ensures word { IsTrue result
            ↔ (word_of (pointer_field A.ReaderArena self.now.reader 3) ≢ 0) }
    {
        value::has(&self.reader, 3)
    }

    /// value @17 :Value
    pub fn get_value(&self, lim: &mut ReadLimiter) -> Result<value_::Reader<'a, A>, ErrorKind>
        ensures value { (t : Tree) → ShowsStructOf A.ReaderArena self.now.reader t
            → IfOk result (λ r.
            ShowsStructOf A.ReaderArena r.reader (node_const_value t)) }
        ensures answered { let start = source_start A.ReaderArena self.now.reader.source in
            (t : Tree) (shows : ShowsStructOf A.ReaderArena self.now.reader t)
            → IsStructOrNull (node_const_value t)
            → Affords start.charging lim.old (child_cost A.ReaderArena shows 4)
            → IsOk result }
        ensures left { let start = source_start A.ReaderArena self.now.reader.source in
            (t : Tree) (shows : ShowsStructOf A.ReaderArena self.now.reader t)
            → Affords start.charging lim.old (child_cost A.ReaderArena shows 4)
            → IfOk result (λ r.
            (inner : ShowsStructOf A.ReaderArena r.reader (node_const_value t)) (i : ℕ)
            → Affords (source_start A.ReaderArena r.reader.source).charging lim.new
            (child_cost A.ReaderArena inner i)) }
        ensures exactly { reading_outcome struct_expected
            (pointer_field A.ReaderArena self.now.reader 4) lim.old
            ≡ (result_err result, lim.new) }
        ensures sections { (t : Tree)
            → LeadsToSectionsOf (pointer_field A.ReaderArena self.now.reader 4) t
            → IfOk result (λ r. ShowsSectionsOf A.ReaderArena r.reader t) }
    {
        match value::get_struct(&self.reader, 4, lim) {
            Ok(reader) => Ok(value_::Reader { reader }),
            Err(k) => Err(k),
        }
    }

    /// Whether the pointer of value is not null.
    pub fn has_value(&self) -> bool
        ensures value { (t : Tree) → ShowsStructOf A.ReaderArena self.now.reader t
            → (IsTrue result ↔ (child 4 t ≢ Null)) }
        ensures word { IsTrue result
            ↔ (word_of (pointer_field A.ReaderArena self.now.reader 4) ≢ 0) }
    {
        value::has(&self.reader, 4)
    }
}
