//! Node.annotation
ghost use Rattle.std.specs.Prelude.{◌≡◌, ◌≢◌, ◌↔◌, ℕ, IsTrue, IfOk, IsOk, ⊤};
ghost use Rattle.std.specs.Result.{result_err};
ghost use Rattle.capnp_format.specs.Tree.{Tree, Null};
ghost use Rattle.capnp_words.specs.Meter.{Affords};
ghost use Rattle.capnp_pointers.specs.Expected.{struct_expected};
ghost use Rattle.capnp_pointers.specs.Reading.{source_start, word_of};
ghost use Rattle.capnp_readers.specs.Values.{IsStructOrNull, ShowsStructOf, child_cost};
ghost use Rattle.typed_reading.specs.Outcomes.{reading_outcome};
ghost use Rattle.typed_reading.specs.Sections.{LeadsToSectionsOf, ShowsSectionsOf, pointer_field};
ghost use Rattle.typed_reading.specs.Values.{child};
ghost use Rattle.schema_reading.specs.Schema.{node_annotation_type, node_annotation_targets_file, node_annotation_targets_const, node_annotation_targets_enum, node_annotation_targets_enumerant, node_annotation_targets_struct, node_annotation_targets_field, node_annotation_targets_union, node_annotation_targets_group, node_annotation_targets_interface, node_annotation_targets_method, node_annotation_targets_param, node_annotation_targets_annotation};

use crate::type_;
use capnp_arena_traits::arena::ReaderArena;
use capnp_readers::readers::StructReader;
use capnp_words::error::ErrorKind;
use capnp_words::read_limiter::ReadLimiter;
use std::alloc::AllocError;
use typed_reading::value;

/// Node.annotation.
pub struct Reader<'a, A: ReaderArena> {
    /// The struct.
    pub reader: StructReader<'a, A>,
}

impl<'a, A: ReaderArena> Clone for Reader<'a, A> {
    ghost is_clone = { λ x y. y ≡ x };

    ghost is_infallible = { λ _. ⊤ };

    fn clone(&self) -> Result<Self, AllocError> {
        Ok(*self)
    }
}

impl<'a, A: ReaderArena> Copy for Reader<'a, A> {}

impl<'a, A: ReaderArena> Reader<'a, A> {
    /// type @18 :Type
    pub fn get_type(&self, lim: &mut ReadLimiter) -> Result<type_::Reader<'a, A>, ErrorKind>
        ensures value { (t : Tree) → ShowsStructOf A.ReaderArena self.now.reader t
            → IfOk result (λ r.
            ShowsStructOf A.ReaderArena r.reader (node_annotation_type t)) }
        ensures answered { let start = source_start A.ReaderArena self.now.reader.source in
            (t : Tree) (shows : ShowsStructOf A.ReaderArena self.now.reader t)
            → IsStructOrNull (node_annotation_type t)
            → Affords start.charging lim.old (child_cost A.ReaderArena shows 3)
            → IsOk result }
        ensures left { let start = source_start A.ReaderArena self.now.reader.source in
            (t : Tree) (shows : ShowsStructOf A.ReaderArena self.now.reader t)
            → Affords start.charging lim.old (child_cost A.ReaderArena shows 3)
            → IfOk result (λ r.
            (inner : ShowsStructOf A.ReaderArena r.reader (node_annotation_type t)) (i : ℕ)
            → Affords (source_start A.ReaderArena r.reader.source).charging lim.new
            (child_cost A.ReaderArena inner i)) }
        ensures exactly { reading_outcome struct_expected
            (pointer_field A.ReaderArena self.now.reader 3) lim.old
            ≡ (result_err result, lim.new) }
        ensures sections { (t : Tree)
            → LeadsToSectionsOf (pointer_field A.ReaderArena self.now.reader 3) t
            → IfOk result (λ r. ShowsSectionsOf A.ReaderArena r.reader t) }
    {
        match value::get_struct(&self.reader, 3, lim) {
            Ok(reader) => Ok(type_::Reader { reader }),
            Err(k) => Err(k),
        }
    }

    /// Whether the pointer of type is not null.
    pub fn has_type(&self) -> bool
        ensures value { (t : Tree) → ShowsStructOf A.ReaderArena self.now.reader t
            → (IsTrue result ↔ (child 3 t ≢ Null)) }
        ensures word { IsTrue result
            ↔ (word_of (pointer_field A.ReaderArena self.now.reader 3) ≢ 0) }
    {
        value::has(&self.reader, 3)
    }

    /// targetsFile @19 :Bool
    pub fn get_targets_file(&self) -> bool
        ensures value { (t : Tree) → ShowsStructOf A.ReaderArena self.now.reader t
            → (IsTrue result ↔ (node_annotation_targets_file t ≡ 1)) }
        ensures sections { (t : Tree) → ShowsSectionsOf A.ReaderArena self.now.reader t
            → (IsTrue result ↔ (node_annotation_targets_file t ≡ 1)) }
    {
        value::get_bool(&self.reader, 112)
    }

    /// targetsConst @20 :Bool
    pub fn get_targets_const(&self) -> bool
        ensures value { (t : Tree) → ShowsStructOf A.ReaderArena self.now.reader t
            → (IsTrue result ↔ (node_annotation_targets_const t ≡ 1)) }
        ensures sections { (t : Tree) → ShowsSectionsOf A.ReaderArena self.now.reader t
            → (IsTrue result ↔ (node_annotation_targets_const t ≡ 1)) }
    {
        value::get_bool(&self.reader, 113)
    }

    /// targetsEnum @21 :Bool
    pub fn get_targets_enum(&self) -> bool
        ensures value { (t : Tree) → ShowsStructOf A.ReaderArena self.now.reader t
            → (IsTrue result ↔ (node_annotation_targets_enum t ≡ 1)) }
        ensures sections { (t : Tree) → ShowsSectionsOf A.ReaderArena self.now.reader t
            → (IsTrue result ↔ (node_annotation_targets_enum t ≡ 1)) }
    {
        value::get_bool(&self.reader, 114)
    }

    /// targetsEnumerant @22 :Bool
    pub fn get_targets_enumerant(&self) -> bool
        ensures value { (t : Tree) → ShowsStructOf A.ReaderArena self.now.reader t
            → (IsTrue result ↔ (node_annotation_targets_enumerant t ≡ 1)) }
        ensures sections { (t : Tree) → ShowsSectionsOf A.ReaderArena self.now.reader t
            → (IsTrue result ↔ (node_annotation_targets_enumerant t ≡ 1)) }
    {
        value::get_bool(&self.reader, 115)
    }

    /// targetsStruct @23 :Bool
    pub fn get_targets_struct(&self) -> bool
        ensures value { (t : Tree) → ShowsStructOf A.ReaderArena self.now.reader t
            → (IsTrue result ↔ (node_annotation_targets_struct t ≡ 1)) }
        ensures sections { (t : Tree) → ShowsSectionsOf A.ReaderArena self.now.reader t
            → (IsTrue result ↔ (node_annotation_targets_struct t ≡ 1)) }
    {
        value::get_bool(&self.reader, 116)
    }

    /// targetsField @24 :Bool
    pub fn get_targets_field(&self) -> bool
        ensures value { (t : Tree) → ShowsStructOf A.ReaderArena self.now.reader t
            → (IsTrue result ↔ (node_annotation_targets_field t ≡ 1)) }
        ensures sections { (t : Tree) → ShowsSectionsOf A.ReaderArena self.now.reader t
            → (IsTrue result ↔ (node_annotation_targets_field t ≡ 1)) }
    {
        value::get_bool(&self.reader, 117)
    }

    /// targetsUnion @25 :Bool
    pub fn get_targets_union(&self) -> bool
        ensures value { (t : Tree) → ShowsStructOf A.ReaderArena self.now.reader t
            → (IsTrue result ↔ (node_annotation_targets_union t ≡ 1)) }
        ensures sections { (t : Tree) → ShowsSectionsOf A.ReaderArena self.now.reader t
            → (IsTrue result ↔ (node_annotation_targets_union t ≡ 1)) }
    {
        value::get_bool(&self.reader, 118)
    }

    /// targetsGroup @26 :Bool
    pub fn get_targets_group(&self) -> bool
        ensures value { (t : Tree) → ShowsStructOf A.ReaderArena self.now.reader t
            → (IsTrue result ↔ (node_annotation_targets_group t ≡ 1)) }
        ensures sections { (t : Tree) → ShowsSectionsOf A.ReaderArena self.now.reader t
            → (IsTrue result ↔ (node_annotation_targets_group t ≡ 1)) }
    {
        value::get_bool(&self.reader, 119)
    }

    /// targetsInterface @27 :Bool
    pub fn get_targets_interface(&self) -> bool
        ensures value { (t : Tree) → ShowsStructOf A.ReaderArena self.now.reader t
            → (IsTrue result ↔ (node_annotation_targets_interface t ≡ 1)) }
        ensures sections { (t : Tree) → ShowsSectionsOf A.ReaderArena self.now.reader t
            → (IsTrue result ↔ (node_annotation_targets_interface t ≡ 1)) }
    {
        value::get_bool(&self.reader, 120)
    }

    /// targetsMethod @28 :Bool
    pub fn get_targets_method(&self) -> bool
        ensures value { (t : Tree) → ShowsStructOf A.ReaderArena self.now.reader t
            → (IsTrue result ↔ (node_annotation_targets_method t ≡ 1)) }
        ensures sections { (t : Tree) → ShowsSectionsOf A.ReaderArena self.now.reader t
            → (IsTrue result ↔ (node_annotation_targets_method t ≡ 1)) }
    {
        value::get_bool(&self.reader, 121)
    }

    /// targetsParam @29 :Bool
    pub fn get_targets_param(&self) -> bool
        ensures value { (t : Tree) → ShowsStructOf A.ReaderArena self.now.reader t
            → (IsTrue result ↔ (node_annotation_targets_param t ≡ 1)) }
        ensures sections { (t : Tree) → ShowsSectionsOf A.ReaderArena self.now.reader t
            → (IsTrue result ↔ (node_annotation_targets_param t ≡ 1)) }
    {
        value::get_bool(&self.reader, 122)
    }

    /// targetsAnnotation @30 :Bool
    pub fn get_targets_annotation(&self) -> bool
        ensures value { (t : Tree) → ShowsStructOf A.ReaderArena self.now.reader t
            → (IsTrue result ↔ (node_annotation_targets_annotation t ≡ 1)) }
        ensures sections { (t : Tree) → ShowsSectionsOf A.ReaderArena self.now.reader t
            → (IsTrue result ↔ (node_annotation_targets_annotation t ≡ 1)) }
    {
        value::get_bool(&self.reader, 123)
    }
}
