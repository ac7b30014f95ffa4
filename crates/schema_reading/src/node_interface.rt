//! Node.interface
ghost use Rattle.std.specs.Prelude.{◌≡◌, ◌≢◌, ◌↔◌, IsTrue, IfOk, IsOk, ⊤};
ghost use Rattle.std.specs.Result.{result_err};
ghost use Rattle.capnp_format.specs.Tree.{Tree, Null};
ghost use Rattle.capnp_words.specs.Meter.{Affords};
ghost use Rattle.capnp_words.specs.declared.wire_pointer.ElementSize.TheVariants.{InlineComposite};
ghost use Rattle.capnp_pointers.specs.Expected.{list_expected};
ghost use Rattle.capnp_pointers.specs.Reading.{source_start, word_of};
ghost use Rattle.capnp_readers.specs.Values.{FitsSize, ShowsListOf, ShowsStructOf, child_cost};
ghost use Rattle.typed_reading.specs.Outcomes.{reading_outcome};
ghost use Rattle.typed_reading.specs.Sections.{pointer_field};
ghost use Rattle.typed_reading.specs.Values.{child};
ghost use Rattle.schema_reading.specs.Schema.{node_interface_methods, node_interface_superclasses};

use crate::{method, superclass};
use capnp_arena_traits::arena::ReaderArena;
use capnp_readers::readers::StructReader;
use capnp_words::error::ErrorKind;
use capnp_words::read_limiter::ReadLimiter;
use std::alloc::AllocError;
use typed_reading::{list, value};

/// Node.interface.
pub struct Reader<'a, A: ReaderArena> {
    /// The struct.
    pub reader: StructReader<'a, A>,
}

impl<'a, A: ReaderArena> Clone for Reader<'a, A> {
    ghost is_clone = { λ x y. y ≡ x };

    ghost is_infallible = { λ _. ⊤ };

    fn clone(&self) -> Result<Self, AllocError> {
        Ok(*self)
    }
}

impl<'a, A: ReaderArena> Copy for Reader<'a, A> {}

impl<'a, A: ReaderArena> Reader<'a, A> {
    /// methods @15 :List(Method)
    pub fn get_methods(&self, lim: &mut ReadLimiter) -> Result<method::Readers<'a, A>, ErrorKind>
        ensures value { (t : Tree) → ShowsStructOf A.ReaderArena self.now.reader t
            → IfOk result (λ r.
            ShowsListOf A.ReaderArena r.list.reader (node_interface_methods t)) }
        ensures answered { let start = source_start A.ReaderArena self.now.reader.source in
            (t : Tree) (shows : ShowsStructOf A.ReaderArena self.now.reader t)
            → FitsSize InlineComposite (node_interface_methods t)
            → Affords start.charging lim.old (child_cost A.ReaderArena shows 3)
            → IsOk result }
        ensures left { let start = source_start A.ReaderArena self.now.reader.source in
            (t : Tree) (shows : ShowsStructOf A.ReaderArena self.now.reader t)
            → Affords start.charging lim.old (child_cost A.ReaderArena shows 3)
            → IfOk result (λ r.
            (inner : ShowsListOf A.ReaderArena r.list.reader (node_interface_methods t))
            → Affords (source_start A.ReaderArena r.list.reader.source).charging lim.new
            inner.cost) }
        ensures exactly { reading_outcome (list_expected InlineComposite)
            (pointer_field A.ReaderArena self.now.reader 3) lim.old
            ≡ (result_err result, lim.new) }
    {
        match list::get_structs(&self.reader, 3, lim) {
            Ok(list) => Ok(method::Readers { list }),
            Err(k) => Err(k),
        }
    }

    /// Whether the pointer of methods is not null.
    pub fn has_methods(&self) -> bool
        ensures value { (t : Tree) → ShowsStructOf A.ReaderArena self.now.reader t
            → (IsTrue result ↔ (child 3 t ≢ Null)) }
        ensures word { IsTrue result
            ↔ (word_of (pointer_field A.ReaderArena self.now.reader 3) ≢ 0) }
    {
        value::has(&self.reader, 3)
    }

    /// superclasses @31 :List(Superclass)
    pub fn get_superclasses(
        &self,
        lim: &mut ReadLimiter,
    ) -> Result<superclass::Readers<'a, A>, ErrorKind>
        ensures value { (t : Tree) → ShowsStructOf A.ReaderArena self.now.reader t
            → IfOk result (λ r.
            ShowsListOf A.ReaderArena r.list.reader (node_interface_superclasses t)) }
        ensures answered { let start = source_start A.ReaderArena self.now.reader.source in
            (t : Tree) (shows : ShowsStructOf A.ReaderArena self.now.reader t)
            → FitsSize InlineComposite (node_interface_superclasses t)
            → Affords start.charging lim.old (child_cost A.ReaderArena shows 4)
            → IsOk result }
        ensures left { let start = source_start A.ReaderArena self.now.reader.source in
            (t : Tree) (shows : ShowsStructOf A.ReaderArena self.now.reader t)
            → Affords start.charging lim.old (child_cost A.ReaderArena shows 4)
            → IfOk result (λ r.
            (inner : ShowsListOf A.ReaderArena r.list.reader (node_interface_superclasses t))
            → Affords (source_start A.ReaderArena r.list.reader.source).charging lim.new
            inner.cost) }
        ensures exactly { reading_outcome (list_expected InlineComposite)
            (pointer_field A.ReaderArena self.now.reader 4) lim.old
            ≡ (result_err result, lim.new) }
    {
        match list::get_structs(&self.reader, 4, lim) {
            Ok(list) => Ok(superclass::Readers { list }),
            Err(k) => Err(k),
        }
    }

    /// Whether the pointer of superclasses is not null.
    pub fn has_superclasses(&self) -> bool
        ensures value { (t : Tree) → ShowsStructOf A.ReaderArena self.now.reader t
            → (IsTrue result ↔ (child 4 t ≢ Null)) }
        ensures word { IsTrue result
            ↔ (word_of (pointer_field A.ReaderArena self.now.reader 4) ≢ 0) }
    {
        value::has(&self.reader, 4)
    }
}
