//! Type.anyPointer.implicitMethodParameter
ghost use Rattle.std.specs.Prelude.{◌≡◌, ⊤};
ghost use Rattle.capnp_format.specs.Tree.{Tree};
ghost use Rattle.capnp_readers.specs.Values.{ShowsStructOf};
ghost use Rattle.typed_reading.specs.Sections.{ShowsSectionsOf};
ghost use Rattle.schema_reading.specs.Schema.{type_any_pointer_implicit_method_parameter_parameter_index};

use capnp_arena_traits::arena::ReaderArena;
use capnp_readers::readers::StructReader;
use std::alloc::AllocError;
use typed_reading::value;

/// Type.anyPointer.implicitMethodParameter.
pub struct Reader<'a, A: ReaderArena> {
    /// The struct.
    pub reader: StructReader<'a, A>,
}

impl<'a, A: ReaderArena> Clone for Reader<'a, A> {
    ghost is_clone = { λ x y. y ≡ x };

    ghost is_infallible = { λ _. ⊤ };

    fn clone(&self) -> Result<Self, AllocError> {
        Ok(*self)
    }
}

impl<'a, A: ReaderArena> Copy for Reader<'a, A> {}

impl<'a, A: ReaderArena> Reader<'a, A> {
    /// parameterIndex @24 :UInt16
    pub fn get_parameter_index(&self) -> u16
        ensures value { (t : Tree) → ShowsStructOf A.ReaderArena self.now.reader t
            → result ≡ type_any_pointer_implicit_method_parameter_parameter_index t }
        ensures sections { (t : Tree) → ShowsSectionsOf A.ReaderArena self.now.reader t
            → result ≡ type_any_pointer_implicit_method_parameter_parameter_index t }
    {
        value::get_number(&self.reader, 5)
    }
}
