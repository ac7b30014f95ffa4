//! What a search for a list, a text or data finds (encoding specification, "Lists").
ghost use Rattle.std.specs.Prelude.{◌≡◌, ◌<◌, ◌≤◌, true, length, Ok, IfSome, IfOk, IfErr};
ghost use Rattle.capnp_format.specs.Forest.{target};
ghost use Rattle.capnp_format.specs.Segments.{IsPlace};
ghost use Rattle.capnp_format.specs.Tree.{Tree};
ghost use Rattle.capnp_in_place.specs.Existing.{AreBytesInside, is_unfound, list_in};
ghost use Rattle.capnp_allocation.specs.Stored.{IsStored};
ghost use Rattle.capnp_words.specs.Sizes.{size_number};
ghost use Rattle.capnp_readers.specs.Readers.{IsListPlace};
ghost use Rattle.capnp_builders.specs.Found.{list_given, bytes_given};

use super::NO_SECTIONS;
use super::places::list_place;
use capnp_arena_traits::arena::BuilderArena;
use capnp_in_place::existing::{self, ExistingBytes, ExistingList, are_inside};
use capnp_readers::readers::ListPlace;
use capnp_words::error::ErrorKind;
use capnp_words::wire_pointer::ElementSize;

/// Returns the place of the list `found`. If `found` is `None`, the pointer was null; then returns
/// the place of a list of void without elements in segment `segment`.
pub(crate) fn found_list(segment: u32, found: Option<ExistingList>) -> ListPlace
    ensures { list_given segment (Ok found) ≡ Ok result }
{
    match found {
        Some(list) => list_place(list),
        None => ListPlace {
            segment,
            byte: 0,
            size: ElementSize::Void,
            struct_size: NO_SECTIONS,
            count: 0,
        },
    }
}

/// Returns the place of the list that the pointer at `at` of segment `id` leads to; for a null
/// pointer, that of a list of void without elements. Refuses anything but a list, and a list whose
/// elements are narrower than `size`. Changes nothing.
pub(crate) fn find_list<A: BuilderArena>(
    arena: &A,
    id: u32,
    at: u32,
    size: ElementSize,
) -> Result<ListPlace, ErrorKind>
    requires place { IsPlace (A.view arena.now).words id at }
    requires plain { size_number size ≤ 6 }
    ensures found { (t : Tree) → IsStored (A.view arena.now).words id at t
        → result ≡ list_given id (list_in (target (A.view arena.now).words id at) size t) }
    ensures inside { (t : Tree) → IsStored (A.view arena.now).words id at t
        → IfOk result (IsListPlace (A.view arena.now).words) }
    ensures named { IfErr result (λ k. is_unfound k ≡ true) }
{
    let found = existing::get_list(arena, id, at, size)?;
    Ok(found_list(id, found))
}

/// Returns where the bytes `found` are. If `found` is `Ok(None)`, the pointer was null; then
/// returns an empty range at the start of segment `segment`. An error in `found` is returned.
///
/// Refuses with `MessageContainsOutOfBoundsPointer` if the bytes are outside of the message. No
/// pointer of a built message leads to such bytes.
#[inline(always)]
pub(crate) fn found_bytes<A: BuilderArena>(
    arena: &A,
    segment: u32,
    found: Result<Option<ExistingBytes>, ErrorKind>,
) -> Result<ExistingBytes, ErrorKind>
    requires there { segment < length (A.view arena.now).words }
    requires named { IfErr found (λ k. is_unfound k ≡ true) }
    ensures given { IfOk found (λ there. IfSome there (AreBytesInside (A.view arena.now).words))
        → result ≡ bytes_given segment found }
    ensures inside { IfOk result (AreBytesInside (A.view arena.now).words) }
    ensures named { IfErr result (λ k. is_unfound k ≡ true) }
{
    match found? {
        Some(bytes) => {
            if are_inside(arena, bytes) {
                Ok(bytes)
            } else {
                Err(ErrorKind::MessageContainsOutOfBoundsPointer)
            }
        }
        None => Ok(ExistingBytes {
            segment,
            start: 0,
            length: 0,
        }),
    }
}
