//! Field.ordinal
ghost use Rattle.std.specs.Prelude.{◌≡◌, ◌≤◌, IfOk, IfErr, ⊤};
ghost use Rattle.capnp_format.specs.Tree.{Tree};
ghost use Rattle.capnp_readers.specs.Values.{ShowsStructOf};
ghost use Rattle.typed_reading.specs.Sections.{ShowsSectionsOf};
ghost use Rattle.schema_reading.specs.Schema.{field_ordinal_explicit, field_ordinal_tag};
ghost use Rattle.schema_reading.specs.OfFieldOrdinalWhich.{field_ordinal_which_number};

use crate::field_ordinal_which;
use capnp_arena_traits::arena::ReaderArena;
use capnp_readers::readers::StructReader;
use std::alloc::AllocError;
use typed_reading::error::NotInSchema;
use typed_reading::value;

/// Field.ordinal.
pub struct Reader<'a, A: ReaderArena> {
    /// The struct.
    pub reader: StructReader<'a, A>,
}

impl<'a, A: ReaderArena> Clone for Reader<'a, A> {
    ghost is_clone = { λ x y. y ≡ x };

    ghost is_infallible = { λ _. ⊤ };

    fn clone(&self) -> Result<Self, AllocError> {
        Ok(*self)
    }
}

impl<'a, A: ReaderArena> Copy for Reader<'a, A> {}

impl<'a, A: ReaderArena> Reader<'a, A> {
    /// explicit @9 :UInt16
    pub fn get_explicit(&self) -> u16
        ensures value { (t : Tree) → ShowsStructOf A.ReaderArena self.now.reader t
            → result ≡ field_ordinal_explicit t }
        ensures sections { (t : Tree) → ShowsSectionsOf A.ReaderArena self.now.reader t
            → result ≡ field_ordinal_explicit t }
    {
        value::get_number(&self.reader, 6)
    }

    /// Returns which member is set.
    pub fn which(&self) -> Result<field_ordinal_which::Which, NotInSchema>
        ensures value { (t : Tree) → ShowsStructOf A.ReaderArena self.now.reader t
            → IfOk result (λ e. field_ordinal_which_number e
            ≡ field_ordinal_tag t) }
        ensures unknown { (t : Tree) → ShowsStructOf A.ReaderArena self.now.reader t
            → IfErr result (λ e. (e.0 ≡ field_ordinal_tag t)
            × (2 ≤ field_ordinal_tag t)) }
        ensures sections { (t : Tree) → ShowsSectionsOf A.ReaderArena self.now.reader t
            → IfOk result (λ e. field_ordinal_which_number e
            ≡ field_ordinal_tag t) }
        ensures unknown_sections { (t : Tree)
            → ShowsSectionsOf A.ReaderArena self.now.reader t
            → IfErr result (λ e. (e.0 ≡ field_ordinal_tag t)
            × (2 ≤ field_ordinal_tag t)) }
    {
        field_ordinal_which::of_number(value::get_number(&self.reader, 5))
    }
}
