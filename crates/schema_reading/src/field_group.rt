//! Field.group
ghost use Rattle.std.specs.Prelude.{◌≡◌, ⊤};
ghost use Rattle.capnp_format.specs.Tree.{Tree};
ghost use Rattle.capnp_readers.specs.Values.{ShowsStructOf};
ghost use Rattle.typed_reading.specs.Sections.{ShowsSectionsOf};
ghost use Rattle.schema_reading.specs.Schema.{field_group_type_id};

use capnp_arena_traits::arena::ReaderArena;
use capnp_readers::readers::StructReader;
use std::alloc::AllocError;
use typed_reading::value;

/// Field.group.
pub struct Reader<'a, A: ReaderArena> {
    /// The struct.
    pub reader: StructReader<'a, A>,
}

impl<'a, A: ReaderArena> Clone for Reader<'a, A> {
    ghost is_clone = { λ x y. y ≡ x };

    ghost is_infallible = { λ _. ⊤ };

    fn clone(&self) -> Result<Self, AllocError> {
        Ok(*self)
    }
}

impl<'a, A: ReaderArena> Copy for Reader<'a, A> {}

impl<'a, A: ReaderArena> Reader<'a, A> {
    /// typeId @7 :UInt64
    pub fn get_type_id(&self) -> u64
        ensures value { (t : Tree) → ShowsStructOf A.ReaderArena self.now.reader t
            → result ≡ field_group_type_id t }
        ensures sections { (t : Tree) → ShowsSectionsOf A.ReaderArena self.now.reader t
            → result ≡ field_group_type_id t }
    {
        value::get_number(&self.reader, 2)
    }
}
