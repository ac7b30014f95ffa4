//! Type.interface
ghost use Rattle.std.specs.Prelude.{◌≡◌, ◌≢◌, ◌↔◌, ℕ, IsTrue, IfOk, IsOk, ⊤};
ghost use Rattle.std.specs.Result.{result_err};
ghost use Rattle.capnp_format.specs.Tree.{Tree, Null};
ghost use Rattle.capnp_words.specs.Meter.{Affords};
ghost use Rattle.capnp_pointers.specs.Expected.{struct_expected};
ghost use Rattle.capnp_pointers.specs.Reading.{source_start, word_of};
ghost use Rattle.capnp_readers.specs.Values.{IsStructOrNull, ShowsStructOf, child_cost};
ghost use Rattle.typed_reading.specs.Outcomes.{reading_outcome};
ghost use Rattle.typed_reading.specs.Sections.{LeadsToSectionsOf, ShowsSectionsOf, pointer_field};
ghost use Rattle.typed_reading.specs.Values.{child};
ghost use Rattle.schema_reading.specs.Schema.{type_interface_type_id, type_interface_brand};

use crate::brand;
use capnp_arena_traits::arena::ReaderArena;
use capnp_readers::readers::StructReader;
use capnp_words::error::ErrorKind;
use capnp_words::read_limiter::ReadLimiter;
use std::alloc::AllocError;
use typed_reading::value;

/// Type.interface.
pub struct Reader<'a, A: ReaderArena> {
    /// The struct.
    pub reader: StructReader<'a, A>,
}

impl<'a, A: ReaderArena> Clone for Reader<'a, A> {
    ghost is_clone = { λ x y. y ≡ x };

    ghost is_infallible = { λ _. ⊤ };

    fn clone(&self) -> Result<Self, AllocError> {
        Ok(*self)
    }
}

impl<'a, A: ReaderArena> Copy for Reader<'a, A> {}

impl<'a, A: ReaderArena> Reader<'a, A> {
    /// typeId @17 :UInt64
    pub fn get_type_id(&self) -> u64
        ensures value { (t : Tree) → ShowsStructOf A.ReaderArena self.now.reader t
            → result ≡ type_interface_type_id t }
        ensures sections { (t : Tree) → ShowsSectionsOf A.ReaderArena self.now.reader t
            → result ≡ type_interface_type_id t }
    {
        value::get_number(&self.reader, 1)
    }

    /// brand @23 :Brand
    pub fn get_brand(&self, lim: &mut ReadLimiter) -> Result<brand::Reader<'a, A>, ErrorKind>
        ensures value { (t : Tree) → ShowsStructOf A.ReaderArena self.now.reader t
            → IfOk result (λ r.
            ShowsStructOf A.ReaderArena r.reader (type_interface_brand t)) }
        ensures answered { let start = source_start A.ReaderArena self.now.reader.source in
            (t : Tree) (shows : ShowsStructOf A.ReaderArena self.now.reader t)
            → IsStructOrNull (type_interface_brand t)
            → Affords start.charging lim.old (child_cost A.ReaderArena shows 0)
            → IsOk result }
        ensures left { let start = source_start A.ReaderArena self.now.reader.source in
            (t : Tree) (shows : ShowsStructOf A.ReaderArena self.now.reader t)
            → Affords start.charging lim.old (child_cost A.ReaderArena shows 0)
            → IfOk result (λ r.
            (inner : ShowsStructOf A.ReaderArena r.reader (type_interface_brand t)) (i : ℕ)
            → Affords (source_start A.ReaderArena r.reader.source).charging lim.new
            (child_cost A.ReaderArena inner i)) }
        ensures exactly { reading_outcome struct_expected
            (pointer_field A.ReaderArena self.now.reader 0) lim.old
            ≡ (result_err result, lim.new) }
        ensures sections { (t : Tree)
            → LeadsToSectionsOf (pointer_field A.ReaderArena self.now.reader 0) t
            → IfOk result (λ r. ShowsSectionsOf A.ReaderArena r.reader t) }
    {
        match value::get_struct(&self.reader, 0, lim) {
            Ok(reader) => Ok(brand::Reader { reader }),
            Err(k) => Err(k),
        }
    }

    /// Whether the pointer of brand is not null.
    pub fn has_brand(&self) -> bool
        ensures value { (t : Tree) → ShowsStructOf A.ReaderArena self.now.reader t
            → (IsTrue result ↔ (child 0 t ≢ Null)) }
        ensures word { IsTrue result
            ↔ (word_of (pointer_field A.ReaderArena self.now.reader 0) ≢ 0) }
    {
        value::has(&self.reader, 0)
    }
}
