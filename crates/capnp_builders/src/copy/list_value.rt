//! Copies a list that a `ListReader` reads (encoding specification, "Lists" and
//! "Canonicalization").
ghost use Rattle.std.specs.Prelude.{◌+◌, ◌↔◌, IsTrue};
ghost use Rattle.capnp_copies.specs.Changes.{copy_call, IsNullPlace};
ghost use Rattle.capnp_copies.specs.Rooms.{CopiesOrClears};
ghost use Rattle.capnp_copies.specs.Forms.{form_of};
ghost use Rattle.capnp_builders.specs.ListValues.{list_read};
ghost use Rattle.capnp_copies.specs.Originals.{FitsListPointer};
ghost use Rattle.capnp_allocation.specs.Makes.{call_at};

use capnp_arena_traits::arena::{BuilderArena, ReaderArena, WordPlace};
use capnp_copies::copy::{
    clear_if_refused, copy_pointer_list, copy_primitive_list, copy_struct_list,
};
use capnp_copies::form::{CopyForm, Destination};
use capnp_copies::widths::StructList;
use capnp_pointers::pointers::Pointer;
use capnp_readers::readers::ListReader;
use capnp_words::error::ErrorKind;
use capnp_words::read_limiter::ReadLimiter;
use capnp_words::wire_pointer::{ElementSize, StructSize};

/// Copies the list `value` to the null pointer at `to`, in canonical form if `canonicalize`,
/// otherwise plain. In both forms, zeros follow the last number of a list of numbers. Charges `lim`
/// what reading the values of the list's pointers costs, and nothing for the list's own words or
/// its number of elements.
///
/// Precondition: the word at `to` is allocated and zero.
///
/// If all words of the copy fit the pointer's segment, or the message has one segment afterwards,
/// they follow the old words of the pointer's segment, in the canonical order of objects, and of
/// the old words only the pointer changes.
///
/// Refusals: those of reading the values; `CannotCreateACanonicalMessageWithACapability` for a
/// capability if `canonicalize`; the arena's `AllocationFailed` or `MessageTooLarge`, only if the
/// copy doesn't fit after the words of the pointer's segment; `MessageTooLarge(usize::MAX)` if the
/// list has more elements or words than a list pointer can state, which no list in a message has.
/// After a refusal the pointer is null, the words that were allocated are zero, and what was
/// charged to `lim` stays charged.
pub fn copy_list<A: BuilderArena, B: ReaderArena>(
    arena: &mut A,
    to: WordPlace,
    value: ListReader<'_, B>,
    lim: &mut ReadLimiter,
    canonicalize: bool,
) -> Result<(), ErrorKind>
    requires { IsNullPlace (A.view arena.old).words to.segment to.at }
    ensures { CopiesOrClears result (list_read B.ReaderArena value.entry)
        (copy_call (form_of canonicalize)
        (call_at to.segment to.at (A.view arena.old) (A.view arena.new)) lim.old lim.new) }
{
    let count = value.count;
    if !fits_list_pointer(value.element_size, value.struct_size, count) {
        return Err(ErrorKind::MessageTooLarge(usize::MAX));
    }
    let first = Pointer {
        source: value.source,
        place: value.start,
        nesting_limit: value.nesting_limit,
    };
    let form = CopyForm::of(canonicalize);
    let list = Destination { place: to, form };
    match value.element_size {
        ElementSize::InlineComposite => {
            let size = value.struct_size;
            let copied = copy_struct_list(arena, list, first, StructList { count, size }, lim);
            clear_if_refused(arena, to, copied)
        }
        ElementSize::Pointer => {
            let copied = copy_pointer_list(arena, list, first, count, lim);
            clear_if_refused(arena, to, copied)
        }
        size => copy_primitive_list(arena, to, size, count, value.content),
    }
}

/// Whether a list pointer, and for structs also the tag, can state a list of `count` elements.
fn fits_list_pointer(size: ElementSize, sections: StructSize, count: u32) -> bool
    ensures { IsTrue result ↔ FitsListPointer size count (sections.data_words + sections.pointers) }
{
    match size {
        ElementSize::InlineComposite => {
            let words = u64::from(count) * u64::from(sections.total());
            count < 1 << 30 && words < 1 << 29
        }
        _ => count < 1 << 29,
    }
}
