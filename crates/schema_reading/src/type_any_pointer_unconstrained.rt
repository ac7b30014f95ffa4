//! Type.anyPointer.unconstrained
ghost use Rattle.std.specs.Prelude.{◌≡◌, ◌≤◌, IfOk, IfErr, ⊤};
ghost use Rattle.capnp_format.specs.Tree.{Tree};
ghost use Rattle.capnp_readers.specs.Values.{ShowsStructOf};
ghost use Rattle.typed_reading.specs.Sections.{ShowsSectionsOf};
ghost use Rattle.schema_reading.specs.Schema.{type_any_pointer_unconstrained_tag};
ghost use Rattle.schema_reading.specs.OfTypeAnyPointerUnconstrainedWhich.{type_any_pointer_unconstrained_which_number};

use crate::type_any_pointer_unconstrained_which;
use capnp_arena_traits::arena::ReaderArena;
use capnp_readers::readers::StructReader;
use std::alloc::AllocError;
use typed_reading::error::NotInSchema;
use typed_reading::value;

/// Type.anyPointer.unconstrained.
pub struct Reader<'a, A: ReaderArena> {
    /// The struct.
    pub reader: StructReader<'a, A>,
}

impl<'a, A: ReaderArena> Clone for Reader<'a, A> {
    ghost is_clone = { λ x y. y ≡ x };

    ghost is_infallible = { λ _. ⊤ };

    fn clone(&self) -> Result<Self, AllocError> {
        Ok(*self)
    }
}

impl<'a, A: ReaderArena> Copy for Reader<'a, A> {}

impl<'a, A: ReaderArena> Reader<'a, A> {
    /// Returns which member is set.
    pub fn which(&self) -> Result<type_any_pointer_unconstrained_which::Which, NotInSchema>
        ensures value { (t : Tree) → ShowsStructOf A.ReaderArena self.now.reader t
            → IfOk result (λ e. type_any_pointer_unconstrained_which_number e
            ≡ type_any_pointer_unconstrained_tag t) }
        ensures unknown { (t : Tree) → ShowsStructOf A.ReaderArena self.now.reader t
            → IfErr result (λ e. (e.0 ≡ type_any_pointer_unconstrained_tag t)
            × (4 ≤ type_any_pointer_unconstrained_tag t)) }
        ensures sections { (t : Tree) → ShowsSectionsOf A.ReaderArena self.now.reader t
            → IfOk result (λ e. type_any_pointer_unconstrained_which_number e
            ≡ type_any_pointer_unconstrained_tag t) }
        ensures unknown_sections { (t : Tree)
            → ShowsSectionsOf A.ReaderArena self.now.reader t
            → IfErr result (λ e. (e.0 ≡ type_any_pointer_unconstrained_tag t)
            × (4 ≤ type_any_pointer_unconstrained_tag t)) }
    {
        type_any_pointer_unconstrained_which::of_number(value::get_number(&self.reader, 5))
    }
}
