//! Elements of lists of structs, and consecutive pointers of an object.
ghost use Rattle.std.specs.Prelude.{◌≡◌, ◌+◌, ◌≤◌, length, ⊤};
ghost use Rattle.capnp_format.specs.Segments.{segment};
ghost use Rattle.capnp_pointers.specs.Objects.{IsHeld};
ghost use Rattle.capnp_pointers.specs.Reading.{place_past, segment_read, source_start};
ghost use Rattle.capnp_pointers.specs.Pointers.{reading};
ghost use Rattle.capnp_messages.specs.EndValues.{IsElementPlace};
ghost use Rattle.capnp_messages.specs.Parts.{inside, pointer_in};

use capnp_arena::arena::ReaderArena;
use capnp_pointers::object::Place;
use capnp_pointers::pointers::Pointer;
use capnp_words::error::ErrorKind;
use capnp_words::wire_pointer::StructSize;
use std::alloc::AllocError;

/// An element of a list of structs, which is a struct to which no pointer leads.
///
/// Required of the fields: both sections are inside the segment, from `first` on.
pub struct ElementPlace<'a, A: ReaderArena> {
    /// The place of the element's first word, with the nesting limit of the element's pointers.
    pub first: Pointer<'a, A>,
    /// The element's sections.
    pub size: StructSize,
    ghost there: { IsElementPlace (reading A.ReaderArena first) size.data_words size.pointers },
}

impl<'a, A: ReaderArena> Clone for ElementPlace<'a, A> {
    ghost is_clone = { λ x y. y ≡ x };

    ghost is_infallible = { λ _. ⊤ };

    fn clone(&self) -> Result<Self, AllocError> {
        Ok(*self)
    }
}

impl<'a, A: ReaderArena> Copy for ElementPlace<'a, A> {}

/// The place `words` words after `start`, which is inside the object that `from` leads to, as the
/// place of a pointer. Its nesting limit is one less than that of `from`.
pub(super) fn pointer_within<'a, A: ReaderArena>(
    from: Pointer<'a, A>,
    start: Place<'a>,
    words: u32,
) -> Pointer<'a, A>
    requires held { IsHeld (source_start A.ReaderArena from.source).segments start }
    requires inside { start.at + words
        ≤ length (segment (source_start A.ReaderArena from.source).segments start.segment) }
    ensures { reading A.ReaderArena result
        ≡ inside (reading A.ReaderArena from.entry) start.entry.segment (start.entry.at + words) }
{
    from.inside(start).past(words)
}

/// Consecutive pointers: those of a struct, or of a list.
#[derive(Drop)]
pub(super) struct PointerRun<'a, A: ReaderArena> {
    /// The first pointer.
    pub(super) first: Pointer<'a, A>,
    /// The number of pointers.
    pub(super) count: u32,
    ghost inside: { first.place.at + count ≤ length (segment_read (reading A.ReaderArena first)) },
}

impl<'a, A: ReaderArena> PointerRun<'a, A> {
    ghost use Rattle.capnp_messages.specs.PathEnds.{pointer_result};

    /// The `count` pointers that come `words` words after `start`, which is inside the object that
    /// `from` leads to. Their nesting limit is one less than that of `from`.
    pub(super) fn inside(from: Pointer<'a, A>, start: Place<'a>, words: u32, count: u32) -> Self
        requires held { IsHeld (source_start A.ReaderArena from.source).segments start }
        requires inside { start.at + words + count
            ≤ length (segment (source_start A.ReaderArena from.source).segments start.segment) }
        ensures first { reading A.ReaderArena result.first
            ≡ inside (reading A.ReaderArena from.entry) start.entry.segment
            (start.entry.at + words) }
        ensures count { result.count ≡ count }
    {
        PointerRun {
            first: pointer_within(from, start, words),
            count,
        }
    }

    /// The pointers of an element.
    pub(super) fn from_element(element: ElementPlace<'a, A>) -> Self
        ensures first { reading A.ReaderArena result.first
            ≡ place_past (reading A.ReaderArena element.entry.first) element.entry.size.data_words }
        ensures count { result.count ≡ element.entry.size.pointers }
    {
        PointerRun {
            first: element.first.past(u32::from(element.size.data_words)),
            count: u32::from(element.size.pointers),
        }
    }

    /// The pointer at `index`. Refuses with `NoSuchPlace` if there are no more than `index`
    /// pointers.
    pub(super) fn get(self, index: u32) -> Result<Pointer<'a, A>, ErrorKind>
        ensures { pointer_in (reading A.ReaderArena self.entry.first) self.entry.count index
            ≡ pointer_result A.ReaderArena result }
    {
        if index >= self.count {
            return Err(ErrorKind::NoSuchPlace);
        }
        Ok(self.first.past(index))
    }
}
