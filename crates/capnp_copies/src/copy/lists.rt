//! Copies lists of pointers and of structs (encoding specification, "Lists" and
//! "Canonicalization").
ghost use Rattle.std.specs.Prelude.{◌≡◌, ◌+◌, ◌*◌, ◌<◌, ◌≤◌, ◌^◌, length};
ghost use Rattle.capnp_pointers.specs.Reading.{segment_read};
ghost use Rattle.capnp_pointers.specs.Pointers.{reading};
ghost use Rattle.capnp_copies.specs.Growth.{CopiesOrLeaves};
ghost use Rattle.capnp_copies.specs.Changes.{copy_call_to, IsNullPlace};
ghost use Rattle.capnp_copies.specs.Forms.{form_in};
ghost use Rattle.capnp_copies.specs.Originals.{pointers_original, structs_original};
ghost use Rattle.capnp_copies.specs.Widths.{widths_kept, IsAtMost};

use super::children::copy_children_inline;
use super::elements::copy_elements;
use crate::form::{CopyForm, Destination};
use crate::widths::{ElementSizes, StructList, least_widths};
use capnp_allocation::making::{make_list, make_struct_list};
use capnp_arena_traits::arena::{BuilderArena, ReaderArena, WordPlace};
use capnp_pointers::pointers::Pointer;
use capnp_words::error::ErrorKind;
use capnp_words::read_limiter::ReadLimiter;
use capnp_words::wire_pointer::{ElementSize, StructSize};

/// Copies the list of pointers whose elements are the `count` pointers from `from` on. Makes the
/// null pointer at `to.place` lead to the copy. Preconditions: the word at `to.place` is allocated
/// and zero; `count` is below 2^29; the segment of `from` has at least `from.place.at + count`
/// words.
#[cycle(copies)]
#[inline(always)]
pub fn copy_pointer_list<A: BuilderArena, B: ReaderArena>(
    arena: &mut A,
    to: Destination,
    from: Pointer<'_, B>,
    count: u32,
    lim: &mut ReadLimiter,
) -> Result<(), ErrorKind>
    requires place { IsNullPlace (A.view arena.old).words to.place.segment to.place.at }
    requires few { count < 2 ^ 29 }
    requires inside { from.place.at + count ≤ length (segment_read (reading B.ReaderArena from)) }
    ensures { CopiesOrLeaves result (pointers_original count (reading B.ReaderArena from.entry))
        (copy_call_to to (A.view arena.old) (A.view arena.new) lim.old lim.new) }
{
    let WordPlace { segment, at } = to.place;
    let start = make_list(arena, segment, at, ElementSize::Pointer, count)?;
    let elements = Destination {
        place: start,
        form: to.form,
    };
    copy_children_inline(arena, elements, from, count, lim)
}

/// Copies the list of structs `list`, whose first element starts at `from`, to the null pointer at
/// `to.place`. In canonical form, the elements of the copy have the smallest sections with which
/// each element loses only zero words and null pointers. Preconditions: the word at `to.place` is
/// allocated and zero; `list.count` is below 2^30; the structs of `list` have fewer than 2^29
/// words; the segment of `from` has all of these from `from` on.
#[cycle(copies)]
#[inline(always)]
pub fn copy_struct_list<A: BuilderArena, B: ReaderArena>(
    arena: &mut A,
    to: Destination,
    from: Pointer<'_, B>,
    list: StructList,
    lim: &mut ReadLimiter,
) -> Result<(), ErrorKind>
    requires place { IsNullPlace (A.view arena.old).words to.place.segment to.place.at }
    requires few { list.count < 2 ^ 30 }
    requires words { list.count * (list.size.data_words + list.size.pointers) < 2 ^ 29 }
    requires inside { from.place.at + list.count * (list.size.data_words + list.size.pointers)
        ≤ length (segment_read (reading B.ReaderArena from)) }
    ensures { CopiesOrLeaves result
        (structs_original list.size list.count (reading B.ReaderArena from.entry))
        (copy_call_to to (A.view arena.old) (A.view arena.new) lim.old lim.new) }
{
    let WordPlace { segment, at } = to.place;
    let form = to.form;
    let StructList { count, size } = list;
    let kept = kept_widths(from, size, count, form);
    let made = make_struct_list(arena, segment, at, count, kept)?;
    let place = WordPlace {
        segment: made.segment,
        at: made.at + 1,
    };
    let sizes = ElementSizes {
        count,
        source: size,
        kept,
    };
    copy_elements(arena, Destination { place, form }, from, sizes, lim)
}

/// The sections that a copy keeps of each of the `count` structs from `from` on: in plain form all
/// of `size`, in canonical form the smallest with which each struct loses only zero words and null
/// pointers.
fn kept_widths<B: ReaderArena>(
    from: Pointer<'_, B>,
    size: StructSize,
    count: u32,
    form: CopyForm,
) -> StructSize
    requires inside { from.place.at + count * (size.data_words + size.pointers)
        ≤ length (segment_read (reading B.ReaderArena from)) }
    ensures kept { result
        ≡ widths_kept (form_in form) (reading B.ReaderArena from.entry) size count }
    ensures less { IsAtMost result size }
{
    match form {
        CopyForm::Canonical => least_widths(from.place.bytes, from.place.at, count, size),
        CopyForm::Plain | CopyForm::OfDefault => size,
    }
}
