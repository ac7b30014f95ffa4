//! Copies a struct (encoding specification, "Structs" and "Canonicalization").
ghost use Rattle.std.specs.Prelude.{◌≡◌, ◌+◌, ◌≤◌, length};
ghost use Rattle.capnp_format.specs.Canonical.{used_words};
ghost use Rattle.capnp_pointers.specs.Reading.{segment_read, place_past, words_from};
ghost use Rattle.capnp_pointers.specs.Pointers.{reading};
ghost use Rattle.capnp_copies.specs.Growth.{CopiesOrLeaves};
ghost use Rattle.capnp_copies.specs.Changes.{copy_call_to, IsNullPlace};
ghost use Rattle.capnp_copies.specs.Forms.{form_in};
ghost use Rattle.capnp_copies.specs.Originals.{sections_original, kept_count};
ghost use Rattle.capnp_copies.specs.Widths.{IsAtMost};

use super::children::copy_children;
use super::elements::put_words;
use crate::form::{CopyForm, Destination};
use capnp_allocation::making::make_struct;
use capnp_arena_traits::arena::{BuilderArena, ReaderArena, WordPlace};
use capnp_pointers::object::Place;
use capnp_pointers::pointers::Pointer;
use capnp_words::error::ErrorKind;
use capnp_words::read_limiter::ReadLimiter;
use capnp_words::wire_pointer::StructSize;
use capnp_words::words::{used_words_in, word_range};

/// Copies the struct whose first word is at `from`, with the sections `size`, to the null pointer
/// at `to.place`. In canonical form, drops the zeros and null pointers at the ends of the struct's
/// sections. Preconditions: the word at `to.place` is allocated and zero; the segment of `from` has
/// all words of a struct of `size` from `from` on.
#[cycle(copies)]
#[inline(always)]
pub fn copy_struct<A: BuilderArena, B: ReaderArena>(
    arena: &mut A,
    to: Destination,
    from: Pointer<'_, B>,
    size: StructSize,
    lim: &mut ReadLimiter,
) -> Result<(), ErrorKind>
    requires place { IsNullPlace (A.view arena.old).words to.place.segment to.place.at }
    requires inside { from.place.at + (size.data_words + size.pointers)
        ≤ length (segment_read (reading B.ReaderArena from)) }
    ensures { CopiesOrLeaves result
        (sections_original (words_from (reading B.ReaderArena from.entry) size.data_words)
        (place_past (reading B.ReaderArena from.entry) size.data_words) size.pointers)
        (copy_call_to to (A.view arena.old) (A.view arena.new) lim.old lim.new) }
{
    let form = to.form;
    let kept = kept_sections(from, size, form);
    let start = make_struct(arena, to.place.segment, to.place.at, kept)?;
    let data_words = usize::from(kept.data_words);
    let data = word_range(from.place.bytes, from.place.at as usize, data_words);
    put_words(arena, start.segment, start.at, data);
    let children = Pointer {
        source: from.source,
        place: Place {
            segment: from.place.segment,
            bytes: from.place.bytes,
            at: from.place.at + u32::from(size.data_words),
        },
        nesting_limit: from.nesting_limit,
    };
    let place = WordPlace {
        segment: start.segment,
        at: start.at + u32::from(kept.data_words),
    };
    let pointers = u32::from(kept.pointers);
    copy_children(arena, Destination { place, form }, children, pointers, lim)
}

/// The sections that a copy keeps of the struct whose first word is at `from`: in plain form all of
/// `size`, in canonical form the words of each section up to the last one that isn't zero.
#[inline(always)]
fn kept_sections<B: ReaderArena>(
    from: Pointer<'_, B>,
    size: StructSize,
    form: CopyForm,
) -> StructSize
    requires inside { from.place.at + (size.data_words + size.pointers)
        ≤ length (segment_read (reading B.ReaderArena from)) }
    ensures data { result.data_words ≡ kept_count (form_in form)
        (words_from (reading B.ReaderArena from.entry) size.data_words) }
    ensures pointers { result.pointers ≡ kept_count (form_in form)
        (words_from (place_past (reading B.ReaderArena from.entry) size.data_words) size.pointers) }
    ensures less { IsAtMost result size }
{
    match form {
        CopyForm::Canonical => used_sections(from, size),
        CopyForm::Plain | CopyForm::OfDefault => size,
    }
}

/// The used part of each section of the struct whose first word is at `from`: the words up to the
/// last one that isn't zero.
#[inline(always)]
fn used_sections<B: ReaderArena>(from: Pointer<'_, B>, size: StructSize) -> StructSize
    requires inside { from.place.at + (size.data_words + size.pointers)
        ≤ length (segment_read (reading B.ReaderArena from)) }
    ensures data { result.data_words
        ≡ used_words (words_from (reading B.ReaderArena from.entry) size.data_words) }
    ensures pointers { result.pointers ≡ used_words
        (words_from (place_past (reading B.ReaderArena from.entry) size.data_words) size.pointers) }
    ensures less { IsAtMost result size }
{
    let bytes = from.place.bytes;
    let data = from.place.at as usize;
    let pointers = data + usize::from(size.data_words);
    StructSize {
        data_words: used_words_in(bytes, data, usize::from(size.data_words)) as u16,
        pointers: used_words_in(bytes, pointers, usize::from(size.pointers)) as u16,
    }
}
