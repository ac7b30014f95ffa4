//! Type
ghost use Rattle.std.specs.Prelude.{◌≡◌, ◌<◌, ◌≤◌, ◌+◌, ℕ, IfOk, IfErr, IsOk, ⊤};
ghost use Rattle.std.specs.Result.{result_err};
ghost use Rattle.capnp_format.specs.Bytes.{message};
ghost use Rattle.capnp_format.specs.Means.{Means};
ghost use Rattle.capnp_format.specs.Tree.{Tree};
ghost use Rattle.capnp_words.specs.Meter.{Affords};
ghost use Rattle.capnp_arena_traits.specs.Checks.{Holds};
ghost use Rattle.capnp_pointers.specs.Reading.{source_start};
ghost use Rattle.capnp_pointers.specs.Source.{levels};
ghost use Rattle.capnp_readers.specs.Values.{HasStructs, IsStructOrNull, ShowsListOf, ShowsStructOf, child_cost, list_length, struct_element};
ghost use Rattle.typed_reading.specs.Outcomes.{root_outcome, root_place};
ghost use Rattle.typed_reading.specs.Sections.{ElementHasSections, LeadsToSectionsOf, ShowsSectionsOf};
ghost use Rattle.schema_reading.specs.Schema.{type_tag};
ghost use Rattle.schema_reading.specs.OfTypeWhich.{type_which_number};

use crate::{type_any_pointer, type_enum, type_interface, type_list, type_struct, type_which};
use capnp_arena_traits::arena::ReaderArena;
use capnp_readers::readers::StructReader;
use capnp_words::error::ErrorKind;
use capnp_words::read_limiter::ReadLimiter;
use std::alloc::AllocError;
use typed_reading::error::NotInSchema;
use typed_reading::list::StructsReader;
use typed_reading::value;

/// Type.
pub struct Reader<'a, A: ReaderArena> {
    /// The struct.
    pub reader: StructReader<'a, A>,
}

impl<'a, A: ReaderArena> Clone for Reader<'a, A> {
    ghost is_clone = { λ x y. y ≡ x };

    ghost is_infallible = { λ _. ⊤ };

    fn clone(&self) -> Result<Self, AllocError> {
        Ok(*self)
    }
}

impl<'a, A: ReaderArena> Copy for Reader<'a, A> {}

impl<'a, A: ReaderArena> Reader<'a, A> {
    /// Returns the root of a message.
    pub fn root(arena: &'a A, lim: &mut ReadLimiter) -> Result<Self, ErrorKind>
        ensures value { (t : Tree) (c : ℕ)
            → Means (message (A.segments arena.now)) (levels (A.nesting arena.now)) 0 0 t c
            → IfOk result (λ r. ShowsStructOf A.ReaderArena r.reader t) }
        ensures answered { let S = message (A.segments arena.now) in (t : Tree) (c : ℕ)
            → Holds S 0 0 1 → IsStructOrNull t → Means S (levels (A.nesting arena.now)) 0 0 t c
            → Affords (A.charging arena.now) lim.old (1 + c) → IsOk result }
        ensures left { (t : Tree) (c : ℕ)
            → Means (message (A.segments arena.now)) (levels (A.nesting arena.now)) 0 0 t c
            → Affords (A.charging arena.now) lim.old (1 + c)
            → IfOk result (λ r. (shows : ShowsStructOf A.ReaderArena r.reader t) (i : ℕ)
            → Affords (source_start A.ReaderArena r.reader.source).charging lim.new
            (child_cost A.ReaderArena shows i)) }
        ensures exactly { root_outcome A.ReaderArena arena.entry lim.old
            ≡ (result_err result, lim.new) }
        ensures sections { (t : Tree)
            → LeadsToSectionsOf (root_place A.ReaderArena arena.entry) t
            → IfOk result (λ r. ShowsSectionsOf A.ReaderArena r.reader t) }
    {
        match value::root(arena, lim) {
            Ok(reader) => Ok(Reader { reader }),
            Err(k) => Err(k),
        }
    }

    /// list :group
    pub fn get_list(&self) -> type_list::Reader<'a, A>
        ensures { result.reader ≡ self.now.reader }
    {
        type_list::Reader {
            reader: self.reader,
        }
    }

    /// enum :group
    pub fn get_enum(&self) -> type_enum::Reader<'a, A>
        ensures { result.reader ≡ self.now.reader }
    {
        type_enum::Reader {
            reader: self.reader,
        }
    }

    /// struct :group
    pub fn get_struct(&self) -> type_struct::Reader<'a, A>
        ensures { result.reader ≡ self.now.reader }
    {
        type_struct::Reader {
            reader: self.reader,
        }
    }

    /// interface :group
    pub fn get_interface(&self) -> type_interface::Reader<'a, A>
        ensures { result.reader ≡ self.now.reader }
    {
        type_interface::Reader {
            reader: self.reader,
        }
    }

    /// anyPointer :group
    pub fn get_any_pointer(&self) -> type_any_pointer::Reader<'a, A>
        ensures { result.reader ≡ self.now.reader }
    {
        type_any_pointer::Reader {
            reader: self.reader,
        }
    }

    /// Returns which member is set.
    pub fn which(&self) -> Result<type_which::Which, NotInSchema>
        ensures value { (t : Tree) → ShowsStructOf A.ReaderArena self.now.reader t
            → IfOk result (λ e. type_which_number e
            ≡ type_tag t) }
        ensures unknown { (t : Tree) → ShowsStructOf A.ReaderArena self.now.reader t
            → IfErr result (λ e. (e.0 ≡ type_tag t)
            × (19 ≤ type_tag t)) }
        ensures sections { (t : Tree) → ShowsSectionsOf A.ReaderArena self.now.reader t
            → IfOk result (λ e. type_which_number e
            ≡ type_tag t) }
        ensures unknown_sections { (t : Tree)
            → ShowsSectionsOf A.ReaderArena self.now.reader t
            → IfErr result (λ e. (e.0 ≡ type_tag t)
            × (19 ≤ type_tag t)) }
    {
        type_which::of_number(value::get_number(&self.reader, 0))
    }
}

/// A list of Type.
pub struct Readers<'a, A: ReaderArena> {
    /// The list.
    pub list: StructsReader<'a, A>,
}

impl<'a, A: ReaderArena> Clone for Readers<'a, A> {
    ghost is_clone = { λ x y. y ≡ x };

    ghost is_infallible = { λ _. ⊤ };

    fn clone(&self) -> Result<Self, AllocError> {
        Ok(*self)
    }
}

impl<'a, A: ReaderArena> Copy for Readers<'a, A> {}

impl<'a, A: ReaderArena> Readers<'a, A> {
    /// The number of elements.
    pub fn len(&self) -> u32
        ensures count { result ≡ self.now.list.reader.count }
        ensures value { (t : Tree) → ShowsListOf A.ReaderArena self.now.list.reader t
            → result ≡ list_length t }
    {
        self.list.len()
    }

    /// Returns element `index`. Precondition: `index` is below the number of elements.
    pub fn get(&self, index: u32) -> Reader<'a, A>
        requires { index < self.now.list.reader.count }
        ensures value { (t : Tree) → ShowsListOf A.ReaderArena self.now.list.reader t
            → HasStructs t → ShowsStructOf A.ReaderArena result.reader (struct_element t index) }
        ensures sections { (t : Tree)
            → ElementHasSections A.ReaderArena self.now.list.reader index t
            → ShowsSectionsOf A.ReaderArena result.reader t }
        ensures source { result.reader.source ≡ self.now.list.reader.source }
    {
        Reader {
            reader: self.list.get(index),
        }
    }
}
