//! Node.struct
ghost use Rattle.std.specs.Prelude.{◌≡◌, ◌≢◌, ◌≤◌, ◌↔◌, IsTrue, IfOk, IfErr, IsOk, ⊤};
ghost use Rattle.std.specs.Result.{result_err};
ghost use Rattle.capnp_format.specs.Tree.{Tree, Null};
ghost use Rattle.capnp_words.specs.Meter.{Affords};
ghost use Rattle.capnp_words.specs.declared.wire_pointer.ElementSize.TheVariants.{InlineComposite};
ghost use Rattle.capnp_pointers.specs.Expected.{list_expected};
ghost use Rattle.capnp_pointers.specs.Reading.{source_start, word_of};
ghost use Rattle.capnp_readers.specs.Values.{FitsSize, ShowsListOf, ShowsStructOf, child_cost};
ghost use Rattle.typed_reading.specs.Outcomes.{reading_outcome};
ghost use Rattle.typed_reading.specs.Sections.{ShowsSectionsOf, pointer_field};
ghost use Rattle.typed_reading.specs.Values.{child};
ghost use Rattle.schema_reading.specs.Schema.{node_struct_data_word_count, node_struct_pointer_count, node_struct_preferred_list_encoding, node_struct_is_group, node_struct_discriminant_count, node_struct_discriminant_offset, node_struct_fields};
ghost use Rattle.schema_reading.specs.OfElementSize.{element_size_number};

use crate::{element_size, field};
use capnp_arena_traits::arena::ReaderArena;
use capnp_readers::readers::StructReader;
use capnp_words::error::ErrorKind;
use capnp_words::read_limiter::ReadLimiter;
use std::alloc::AllocError;
use typed_reading::error::NotInSchema;
use typed_reading::{list, value};

/// Node.struct.
pub struct Reader<'a, A: ReaderArena> {
    /// The struct.
    pub reader: StructReader<'a, A>,
}

impl<'a, A: ReaderArena> Clone for Reader<'a, A> {
    ghost is_clone = { λ x y. y ≡ x };

    ghost is_infallible = { λ _. ⊤ };

    fn clone(&self) -> Result<Self, AllocError> {
        Ok(*self)
    }
}

impl<'a, A: ReaderArena> Copy for Reader<'a, A> {}

impl<'a, A: ReaderArena> Reader<'a, A> {
    /// dataWordCount @7 :UInt16
    pub fn get_data_word_count(&self) -> u16
        ensures value { (t : Tree) → ShowsStructOf A.ReaderArena self.now.reader t
            → result ≡ node_struct_data_word_count t }
        ensures sections { (t : Tree) → ShowsSectionsOf A.ReaderArena self.now.reader t
            → result ≡ node_struct_data_word_count t }
    {
        value::get_number(&self.reader, 7)
    }

    /// pointerCount @8 :UInt16
    pub fn get_pointer_count(&self) -> u16
        ensures value { (t : Tree) → ShowsStructOf A.ReaderArena self.now.reader t
            → result ≡ node_struct_pointer_count t }
        ensures sections { (t : Tree) → ShowsSectionsOf A.ReaderArena self.now.reader t
            → result ≡ node_struct_pointer_count t }
    {
        value::get_number(&self.reader, 12)
    }

    /// preferredListEncoding @9 :ElementSize
    pub fn get_preferred_list_encoding(&self) -> Result<element_size::ElementSize, NotInSchema>
        ensures value { (t : Tree) → ShowsStructOf A.ReaderArena self.now.reader t
            → IfOk result (λ e. element_size_number e
            ≡ node_struct_preferred_list_encoding t) }
        ensures unknown { (t : Tree) → ShowsStructOf A.ReaderArena self.now.reader t
            → IfErr result (λ e. (e.0 ≡ node_struct_preferred_list_encoding t)
            × (8 ≤ node_struct_preferred_list_encoding t)) }
        ensures sections { (t : Tree) → ShowsSectionsOf A.ReaderArena self.now.reader t
            → IfOk result (λ e. element_size_number e
            ≡ node_struct_preferred_list_encoding t) }
        ensures unknown_sections { (t : Tree)
            → ShowsSectionsOf A.ReaderArena self.now.reader t
            → IfErr result (λ e. (e.0 ≡ node_struct_preferred_list_encoding t)
            × (8 ≤ node_struct_preferred_list_encoding t)) }
    {
        element_size::of_number(value::get_number(&self.reader, 13))
    }

    /// isGroup @10 :Bool
    pub fn get_is_group(&self) -> bool
        ensures value { (t : Tree) → ShowsStructOf A.ReaderArena self.now.reader t
            → (IsTrue result ↔ (node_struct_is_group t ≡ 1)) }
        ensures sections { (t : Tree) → ShowsSectionsOf A.ReaderArena self.now.reader t
            → (IsTrue result ↔ (node_struct_is_group t ≡ 1)) }
    {
        value::get_bool(&self.reader, 224)
    }

    /// discriminantCount @11 :UInt16
    pub fn get_discriminant_count(&self) -> u16
        ensures value { (t : Tree) → ShowsStructOf A.ReaderArena self.now.reader t
            → result ≡ node_struct_discriminant_count t }
        ensures sections { (t : Tree) → ShowsSectionsOf A.ReaderArena self.now.reader t
            → result ≡ node_struct_discriminant_count t }
    {
        value::get_number(&self.reader, 15)
    }

    /// discriminantOffset @12 :UInt32
    pub fn get_discriminant_offset(&self) -> u32
        ensures value { (t : Tree) → ShowsStructOf A.ReaderArena self.now.reader t
            → result ≡ node_struct_discriminant_offset t }
        ensures sections { (t : Tree) → ShowsSectionsOf A.ReaderArena self.now.reader t
            → result ≡ node_struct_discriminant_offset t }
    {
        value::get_number(&self.reader, 8)
    }

    /// fields @13 :List(Field)
    pub fn get_fields(&self, lim: &mut ReadLimiter) -> Result<field::Readers<'a, A>, ErrorKind>
        ensures value { (t : Tree) → ShowsStructOf A.ReaderArena self.now.reader t
            → IfOk result (λ r.
            ShowsListOf A.ReaderArena r.list.reader (node_struct_fields t)) }
        ensures answered { let start = source_start A.ReaderArena self.now.reader.source in
            (t : Tree) (shows : ShowsStructOf A.ReaderArena self.now.reader t)
            → FitsSize InlineComposite (node_struct_fields t)
            → Affords start.charging lim.old (child_cost A.ReaderArena shows 3)
            → IsOk result }
        ensures left { let start = source_start A.ReaderArena self.now.reader.source in
            (t : Tree) (shows : ShowsStructOf A.ReaderArena self.now.reader t)
            → Affords start.charging lim.old (child_cost A.ReaderArena shows 3)
            → IfOk result (λ r.
            (inner : ShowsListOf A.ReaderArena r.list.reader (node_struct_fields t))
            → Affords (source_start A.ReaderArena r.list.reader.source).charging lim.new
            inner.cost) }
        ensures exactly { reading_outcome (list_expected InlineComposite)
            (pointer_field A.ReaderArena self.now.reader 3) lim.old
            ≡ (result_err result, lim.new) }
    {
        match list::get_structs(&self.reader, 3, lim) {
            Ok(list) => Ok(field::Readers { list }),
            Err(k) => Err(k),
        }
    }

    /// Whether the pointer of fields is not null.
    pub fn has_fields(&self) -> bool
        ensures value { (t : Tree) → ShowsStructOf A.ReaderArena self.now.reader t
            → (IsTrue result ↔ (child 3 t ≢ Null)) }
        ensures word { IsTrue result
            ↔ (word_of (pointer_field A.ReaderArena self.now.reader 3) ≢ 0) }
    {
        value::has(&self.reader, 3)
    }
}
