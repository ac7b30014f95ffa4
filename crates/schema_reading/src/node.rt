//! Node
ghost use Rattle.std.specs.Prelude.{◌≡◌, ◌≢◌, ◌<◌, ◌≤◌, ◌+◌, ◌↔◌, ℕ, IsTrue, IfOk, IfErr, IsOk, ⊤};
ghost use Rattle.std.specs.Result.{result_err};
ghost use Rattle.capnp_format.specs.Bytes.{message};
ghost use Rattle.capnp_format.specs.Means.{Means};
ghost use Rattle.capnp_format.specs.Tree.{Tree, Null};
ghost use Rattle.capnp_words.specs.Meter.{Affords};
ghost use Rattle.capnp_words.specs.declared.wire_pointer.ElementSize.TheVariants.{InlineComposite};
ghost use Rattle.capnp_arena_traits.specs.Checks.{Holds};
ghost use Rattle.capnp_pointers.specs.Expected.{list_expected, text_expected};
ghost use Rattle.capnp_pointers.specs.Reading.{source_start, word_of};
ghost use Rattle.capnp_pointers.specs.Source.{levels};
ghost use Rattle.capnp_readers.specs.Values.{FitsSize, HasStructs, IsStructOrNull, IsText, ShowsListOf, ShowsStructOf, child_cost, list_length, struct_element};
ghost use Rattle.typed_reading.specs.Outcomes.{reading_outcome, root_outcome, root_place};
ghost use Rattle.typed_reading.specs.Sections.{ElementHasSections, LeadsToSectionsOf, ShowsSectionsOf, pointer_field};
ghost use Rattle.typed_reading.specs.Values.{child};
ghost use Rattle.schema_reading.specs.Schema.{node_id, node_display_name, node_display_name_prefix_length, node_scope_id, node_nested_nodes, node_annotations, node_parameters, node_is_generic, node_tag};
ghost use Rattle.schema_reading.specs.OfNodeWhich.{node_which_number};

use crate::{
    annotation, node_annotation, node_const, node_enum, node_interface, node_nested_node,
    node_parameter, node_struct, node_which,
};
use capnp_arena_traits::arena::ReaderArena;
use capnp_readers::readers::StructReader;
use capnp_words::error::ErrorKind;
use capnp_words::read_limiter::ReadLimiter;
use std::alloc::AllocError;
use typed_reading::error::NotInSchema;
use typed_reading::list::{self, StructsReader};
use typed_reading::value;

/// Node.
pub struct Reader<'a, A: ReaderArena> {
    /// The struct.
    pub reader: StructReader<'a, A>,
}

impl<'a, A: ReaderArena> Clone for Reader<'a, A> {
    ghost is_clone = { λ x y. y ≡ x };

    ghost is_infallible = { λ _. ⊤ };

    fn clone(&self) -> Result<Self, AllocError> {
        Ok(*self)
    }
}

impl<'a, A: ReaderArena> Copy for Reader<'a, A> {}

impl<'a, A: ReaderArena> Reader<'a, A> {
    /// Returns the root of a message.
    pub fn root(arena: &'a A, lim: &mut ReadLimiter) -> Result<Self, ErrorKind>
        ensures value { (t : Tree) (c : ℕ)
            → Means (message (A.segments arena.now)) (levels (A.nesting arena.now)) 0 0 t c
            → IfOk result (λ r. ShowsStructOf A.ReaderArena r.reader t) }
        ensures answered { let S = message (A.segments arena.now) in (t : Tree) (c : ℕ)
            → Holds S 0 0 1 → IsStructOrNull t → Means S (levels (A.nesting arena.now)) 0 0 t c
            → Affords (A.charging arena.now) lim.old (1 + c) → IsOk result }
        ensures left { (t : Tree) (c : ℕ)
            → Means (message (A.segments arena.now)) (levels (A.nesting arena.now)) 0 0 t c
            → Affords (A.charging arena.now) lim.old (1 + c)
            → IfOk result (λ r. (shows : ShowsStructOf A.ReaderArena r.reader t) (i : ℕ)
            → Affords (source_start A.ReaderArena r.reader.source).charging lim.new
            (child_cost A.ReaderArena shows i)) }
        ensures exactly { root_outcome A.ReaderArena arena.entry lim.old
            ≡ (result_err result, lim.new) }
        ensures sections { (t : Tree)
            → LeadsToSectionsOf (root_place A.ReaderArena arena.entry) t
            → IfOk result (λ r. ShowsSectionsOf A.ReaderArena r.reader t) }
    {
        match value::root(arena, lim) {
            Ok(reader) => Ok(Reader { reader }),
            Err(k) => Err(k),
        }
    }

    /// id @0 :UInt64
    pub fn get_id(&self) -> u64
        ensures value { (t : Tree) → ShowsStructOf A.ReaderArena self.now.reader t
            → result ≡ node_id t }
        ensures sections { (t : Tree) → ShowsSectionsOf A.ReaderArena self.now.reader t
            → result ≡ node_id t }
    {
        value::get_number(&self.reader, 0)
    }

    /// displayName @1 :Text
    pub fn get_display_name(&self, lim: &mut ReadLimiter) -> Result<&'a [u8], ErrorKind>
        ensures value { (t : Tree) → ShowsStructOf A.ReaderArena self.now.reader t
            → IfOk result (λ text. text.now ≡ node_display_name t) }
        ensures answered { let start = source_start A.ReaderArena self.now.reader.source in
            (t : Tree) (shows : ShowsStructOf A.ReaderArena self.now.reader t)
            → IsText (child 0 t)
            → Affords start.charging lim.old (child_cost A.ReaderArena shows 0)
            → IsOk result }
        ensures exactly { reading_outcome text_expected
            (pointer_field A.ReaderArena self.now.reader 0) lim.old
            ≡ (result_err result, lim.new) }
    {
        value::get_text(&self.reader, 0, lim)
    }

    /// Whether the pointer of displayName is not null.
    pub fn has_display_name(&self) -> bool
        ensures value { (t : Tree) → ShowsStructOf A.ReaderArena self.now.reader t
            → (IsTrue result ↔ (child 0 t ≢ Null)) }
        ensures word { IsTrue result
            ↔ (word_of (pointer_field A.ReaderArena self.now.reader 0) ≢ 0) }
    {
        value::has(&self.reader, 0)
    }

    /// displayNamePrefixLength @2 :UInt32
    pub fn get_display_name_prefix_length(&self) -> u32
        ensures value { (t : Tree) → ShowsStructOf A.ReaderArena self.now.reader t
            → result ≡ node_display_name_prefix_length t }
        ensures sections { (t : Tree) → ShowsSectionsOf A.ReaderArena self.now.reader t
            → result ≡ node_display_name_prefix_length t }
    {
        value::get_number(&self.reader, 2)
    }

    /// scopeId @3 :UInt64
    pub fn get_scope_id(&self) -> u64
        ensures value { (t : Tree) → ShowsStructOf A.ReaderArena self.now.reader t
            → result ≡ node_scope_id t }
        ensures sections { (t : Tree) → ShowsSectionsOf A.ReaderArena self.now.reader t
            → result ≡ node_scope_id t }
    {
        value::get_number(&self.reader, 2)
    }

    /// nestedNodes @4 :List(Node.NestedNode)
    pub fn get_nested_nodes(
        &self,
        lim: &mut ReadLimiter,
    ) -> Result<node_nested_node::Readers<'a, A>, ErrorKind>
        ensures value { (t : Tree) → ShowsStructOf A.ReaderArena self.now.reader t
            → IfOk result (λ r.
            ShowsListOf A.ReaderArena r.list.reader (node_nested_nodes t)) }
        ensures answered { let start = source_start A.ReaderArena self.now.reader.source in
            (t : Tree) (shows : ShowsStructOf A.ReaderArena self.now.reader t)
            → FitsSize InlineComposite (node_nested_nodes t)
            → Affords start.charging lim.old (child_cost A.ReaderArena shows 1)
            → IsOk result }
        ensures left { let start = source_start A.ReaderArena self.now.reader.source in
            (t : Tree) (shows : ShowsStructOf A.ReaderArena self.now.reader t)
            → Affords start.charging lim.old (child_cost A.ReaderArena shows 1)
            → IfOk result (λ r.
            (inner : ShowsListOf A.ReaderArena r.list.reader (node_nested_nodes t))
            → Affords (source_start A.ReaderArena r.list.reader.source).charging lim.new
            inner.cost) }
        ensures exactly { reading_outcome (list_expected InlineComposite)
            (pointer_field A.ReaderArena self.now.reader 1) lim.old
            ≡ (result_err result, lim.new) }
    {
        match list::get_structs(&self.reader, 1, lim) {
            Ok(list) => Ok(node_nested_node::Readers { list }),
            Err(k) => Err(k),
        }
    }

    /// Whether the pointer of nestedNodes is not null.
    pub fn has_nested_nodes(&self) -> bool
        ensures value { (t : Tree) → ShowsStructOf A.ReaderArena self.now.reader t
            → (IsTrue result ↔ (child 1 t ≢ Null)) }
        ensures word { IsTrue result
            ↔ (word_of (pointer_field A.ReaderArena self.now.reader 1) ≢ 0) }
    {
        value::has(&self.reader, 1)
    }

    /// annotations @5 :List(Annotation)
    pub fn get_annotations(
        &self,
        lim: &mut ReadLimiter,
    ) -> Result<annotation::Readers<'a, A>, ErrorKind>
        ensures value { (t : Tree) → ShowsStructOf A.ReaderArena self.now.reader t
            → IfOk result (λ r.
            ShowsListOf A.ReaderArena r.list.reader (node_annotations t)) }
        ensures answered { let start = source_start A.ReaderArena self.now.reader.source in
            (t : Tree) (shows : ShowsStructOf A.ReaderArena self.now.reader t)
            → FitsSize InlineComposite (node_annotations t)
            → Affords start.charging lim.old (child_cost A.ReaderArena shows 2)
            → IsOk result }
        ensures left { let start = source_start A.ReaderArena self.now.reader.source in
            (t : Tree) (shows : ShowsStructOf A.ReaderArena self.now.reader t)
            → Affords start.charging lim.old (child_cost A.ReaderArena shows 2)
            → IfOk result (λ r.
            (inner : ShowsListOf A.ReaderArena r.list.reader (node_annotations t))
            → Affords (source_start A.ReaderArena r.list.reader.source).charging lim.new
            inner.cost) }
        ensures exactly { reading_outcome (list_expected InlineComposite)
            (pointer_field A.ReaderArena self.now.reader 2) lim.old
            ≡ (result_err result, lim.new) }
    {
        match list::get_structs(&self.reader, 2, lim) {
            Ok(list) => Ok(annotation::Readers { list }),
            Err(k) => Err(k),
        }
    }

    /// Whether the pointer of annotations is not null.
    pub fn has_annotations(&self) -> bool
        ensures value { (t : Tree) → ShowsStructOf A.ReaderArena self.now.reader t
            → (IsTrue result ↔ (child 2 t ≢ Null)) }
        ensures word { IsTrue result
            ↔ (word_of (pointer_field A.ReaderArena self.now.reader 2) ≢ 0) }
    {
        value::has(&self.reader, 2)
    }

    /// struct :group
    pub fn get_struct(&self) -> node_struct::Reader<'a, A>
        ensures { result.reader ≡ self.now.reader }
    {
        node_struct::Reader {
            reader: self.reader,
        }
    }

    /// enum :group
    pub fn get_enum(&self) -> node_enum::Reader<'a, A>
        ensures { result.reader ≡ self.now.reader }
    {
        node_enum::Reader {
            reader: self.reader,
        }
    }

    /// interface :group
    pub fn get_interface(&self) -> node_interface::Reader<'a, A>
        ensures { result.reader ≡ self.now.reader }
    {
        node_interface::Reader {
            reader: self.reader,
        }
    }

    /// const :group
    pub fn get_const(&self) -> node_const::Reader<'a, A>
        ensures { result.reader ≡ self.now.reader }
    {
        node_const::Reader {
            reader: self.reader,
        }
    }

    /// annotation :group
    pub fn get_annotation(&self) -> node_annotation::Reader<'a, A>
        ensures { result.reader ≡ self.now.reader }
    {
        node_annotation::Reader {
            reader: self.reader,
        }
    }

    /// parameters @32 :List(Node.Parameter)
    pub fn get_parameters(
        &self,
        lim: &mut ReadLimiter,
    ) -> Result<node_parameter::Readers<'a, A>, ErrorKind>
        ensures value { (t : Tree) → ShowsStructOf A.ReaderArena self.now.reader t
            → IfOk result (λ r.
            ShowsListOf A.ReaderArena r.list.reader (node_parameters t)) }
        ensures answered { let start = source_start A.ReaderArena self.now.reader.source in
            (t : Tree) (shows : ShowsStructOf A.ReaderArena self.now.reader t)
            → FitsSize InlineComposite (node_parameters t)
            → Affords start.charging lim.old (child_cost A.ReaderArena shows 5)
            → IsOk result }
        ensures left { let start = source_start A.ReaderArena self.now.reader.source in
            (t : Tree) (shows : ShowsStructOf A.ReaderArena self.now.reader t)
            → Affords start.charging lim.old (child_cost A.ReaderArena shows 5)
            → IfOk result (λ r.
            (inner : ShowsListOf A.ReaderArena r.list.reader (node_parameters t))
            → Affords (source_start A.ReaderArena r.list.reader.source).charging lim.new
            inner.cost) }
        ensures exactly { reading_outcome (list_expected InlineComposite)
            (pointer_field A.ReaderArena self.now.reader 5) lim.old
            ≡ (result_err result, lim.new) }
    {
        match list::get_structs(&self.reader, 5, lim) {
            Ok(list) => Ok(node_parameter::Readers { list }),
            Err(k) => Err(k),
        }
    }

    /// Whether the pointer of parameters is not null.
    pub fn has_parameters(&self) -> bool
        ensures value { (t : Tree) → ShowsStructOf A.ReaderArena self.now.reader t
            → (IsTrue result ↔ (child 5 t ≢ Null)) }
        ensures word { IsTrue result
            ↔ (word_of (pointer_field A.ReaderArena self.now.reader 5) ≢ 0) }
    {
        value::has(&self.reader, 5)
    }

    /// isGeneric @33 :Bool
    pub fn get_is_generic(&self) -> bool
        ensures value { (t : Tree) → ShowsStructOf A.ReaderArena self.now.reader t
            → (IsTrue result ↔ (node_is_generic t ≡ 1)) }
        ensures sections { (t : Tree) → ShowsSectionsOf A.ReaderArena self.now.reader t
            → (IsTrue result ↔ (node_is_generic t ≡ 1)) }
    {
        value::get_bool(&self.reader, 288)
    }

    /// Returns which member is set.
    pub fn which(&self) -> Result<node_which::Which, NotInSchema>
        ensures value { (t : Tree) → ShowsStructOf A.ReaderArena self.now.reader t
            → IfOk result (λ e. node_which_number e
            ≡ node_tag t) }
        ensures unknown { (t : Tree) → ShowsStructOf A.ReaderArena self.now.reader t
            → IfErr result (λ e. (e.0 ≡ node_tag t)
            × (6 ≤ node_tag t)) }
        ensures sections { (t : Tree) → ShowsSectionsOf A.ReaderArena self.now.reader t
            → IfOk result (λ e. node_which_number e
            ≡ node_tag t) }
        ensures unknown_sections { (t : Tree)
            → ShowsSectionsOf A.ReaderArena self.now.reader t
            → IfErr result (λ e. (e.0 ≡ node_tag t)
            × (6 ≤ node_tag t)) }
    {
        node_which::of_number(value::get_number(&self.reader, 6))
    }
}

/// A list of Node.
pub struct Readers<'a, A: ReaderArena> {
    /// The list.
    pub list: StructsReader<'a, A>,
}

impl<'a, A: ReaderArena> Clone for Readers<'a, A> {
    ghost is_clone = { λ x y. y ≡ x };

    ghost is_infallible = { λ _. ⊤ };

    fn clone(&self) -> Result<Self, AllocError> {
        Ok(*self)
    }
}

impl<'a, A: ReaderArena> Copy for Readers<'a, A> {}

impl<'a, A: ReaderArena> Readers<'a, A> {
    /// The number of elements.
    pub fn len(&self) -> u32
        ensures count { result ≡ self.now.list.reader.count }
        ensures value { (t : Tree) → ShowsListOf A.ReaderArena self.now.list.reader t
            → result ≡ list_length t }
    {
        self.list.len()
    }

    /// Returns element `index`. Precondition: `index` is below the number of elements.
    pub fn get(&self, index: u32) -> Reader<'a, A>
        requires { index < self.now.list.reader.count }
        ensures value { (t : Tree) → ShowsListOf A.ReaderArena self.now.list.reader t
            → HasStructs t → ShowsStructOf A.ReaderArena result.reader (struct_element t index) }
        ensures sections { (t : Tree)
            → ElementHasSections A.ReaderArena self.now.list.reader index t
            → ShowsSectionsOf A.ReaderArena result.reader t }
        ensures source { result.reader.source ≡ self.now.list.reader.source }
    {
        Reader {
            reader: self.list.get(index),
        }
    }
}
