//! Type.anyPointer
ghost use Rattle.std.specs.Prelude.{◌≡◌, ◌≤◌, IfOk, IfErr, ⊤};
ghost use Rattle.capnp_format.specs.Tree.{Tree};
ghost use Rattle.capnp_readers.specs.Values.{ShowsStructOf};
ghost use Rattle.typed_reading.specs.Sections.{ShowsSectionsOf};
ghost use Rattle.schema_reading.specs.Schema.{type_any_pointer_tag};
ghost use Rattle.schema_reading.specs.OfTypeAnyPointerWhich.{type_any_pointer_which_number};

use crate::{
    type_any_pointer_implicit_method_parameter, type_any_pointer_parameter,
    type_any_pointer_unconstrained, type_any_pointer_which,
};
use capnp_arena_traits::arena::ReaderArena;
use capnp_readers::readers::StructReader;
use std::alloc::AllocError;
use typed_reading::error::NotInSchema;
use typed_reading::value;

/// Type.anyPointer.
pub struct Reader<'a, A: ReaderArena> {
    /// The struct.
    pub reader: StructReader<'a, A>,
}

impl<'a, A: ReaderArena> Clone for Reader<'a, A> {
    ghost is_clone = { λ x y. y ≡ x };

    ghost is_infallible = { λ _. ⊤ };

    fn clone(&self) -> Result<Self, AllocError> {
        Ok(*self)
    }
}

impl<'a, A: ReaderArena> Copy for Reader<'a, A> {}

impl<'a, A: ReaderArena> Reader<'a, A> {
    /// unconstrained :group
    pub fn get_unconstrained(&self) -> type_any_pointer_unconstrained::Reader<'a, A>
        ensures { result.reader ≡ self.now.reader }
    {
        type_any_pointer_unconstrained::Reader {
            reader: self.reader,
        }
    }

    /// parameter :group
    pub fn get_parameter(&self) -> type_any_pointer_parameter::Reader<'a, A>
        ensures { result.reader ≡ self.now.reader }
    {
        type_any_pointer_parameter::Reader {
            reader: self.reader,
        }
    }

    /// implicitMethodParameter :group
    pub fn get_implicit_method_parameter(
        &self,
    ) -> type_any_pointer_implicit_method_parameter::Reader<'a, A>
        ensures { result.reader ≡ self.now.reader }
    {
        type_any_pointer_implicit_method_parameter::Reader {
            reader: self.reader,
        }
    }

    /// Returns which member is set.
    pub fn which(&self) -> Result<type_any_pointer_which::Which, NotInSchema>
        ensures value { (t : Tree) → ShowsStructOf A.ReaderArena self.now.reader t
            → IfOk result (λ e. type_any_pointer_which_number e
            ≡ type_any_pointer_tag t) }
        ensures unknown { (t : Tree) → ShowsStructOf A.ReaderArena self.now.reader t
            → IfErr result (λ e. (e.0 ≡ type_any_pointer_tag t)
            × (3 ≤ type_any_pointer_tag t)) }
        ensures sections { (t : Tree) → ShowsSectionsOf A.ReaderArena self.now.reader t
            → IfOk result (λ e. type_any_pointer_which_number e
            ≡ type_any_pointer_tag t) }
        ensures unknown_sections { (t : Tree)
            → ShowsSectionsOf A.ReaderArena self.now.reader t
            → IfErr result (λ e. (e.0 ≡ type_any_pointer_tag t)
            × (3 ≤ type_any_pointer_tag t)) }
    {
        type_any_pointer_which::of_number(value::get_number(&self.reader, 4))
    }
}
