//! Copies a struct that a `StructReader` reads (encoding specification, "Structs" and
//! "Canonicalization").
ghost use Rattle.std.specs.Prelude.{◌≡◌, ◌<◌, ◌^◌, IfOk, IfErr};
ghost use Rattle.capnp_pointers.specs.Reading.{words_from};
ghost use Rattle.capnp_readers.specs.Sizes.{pointers_read};
ghost use Rattle.capnp_copies.specs.Changes.{copy_call, IsNullPlace};
ghost use Rattle.capnp_copies.specs.Rooms.{CopiesOrClears};
ghost use Rattle.capnp_copies.specs.Forms.{form_of};
ghost use Rattle.capnp_copies.specs.Originals.{kept_count};
ghost use Rattle.capnp_builders.specs.StructValues.{data_of, struct_read};
ghost use Rattle.capnp_allocation.specs.Makes.{call_at};

use crate::section::{kept_words, write_section};
use capnp_allocation::making::make_struct;
use capnp_arena_traits::arena::{BuilderArena, ReaderArena, WordPlace};
use capnp_copies::copy::{clear_if_refused, copy_children};
use capnp_copies::form::{CopyForm, Destination};
use capnp_pointers::pointers::Pointer;
use capnp_readers::readers::StructReader;
use capnp_words::error::ErrorKind;
use capnp_words::read_limiter::ReadLimiter;
use capnp_words::wire_pointer::StructSize;
use capnp_words::words::used_words_in;

/// Copies the struct `value` to the null pointer at `to`, in canonical form if `canonicalize`,
/// otherwise plain. Pads the struct's data section with zeros to whole words. Charges `lim` what
/// reading the values of the struct's pointers costs, and nothing for the struct's own words.
/// Precondition: the word at `to` is allocated and zero.
///
/// If the whole copy fits the pointer's segment, or the message has one segment afterwards, the
/// copy follows the segment's old words, in the canonical order of objects. Of the old words only
/// the pointer changes.
///
/// Refusals: those of reading the values; `CannotCreateACanonicalMessageWithACapability` for a
/// capability if `canonicalize`; the arena's `AllocationFailed` and `MessageTooLarge`, which occur
/// only if the copy doesn't fit after the segment's words; `MessageTooLarge(n)`, where n is the
/// number of data words to copy, if n is above 65535, and then nothing is charged. After a refusal
/// the pointer is null, the words that were allocated are zero, and what was charged to `lim` stays
/// charged.
pub fn copy_struct_value<A: BuilderArena, B: ReaderArena>(
    arena: &mut A,
    to: WordPlace,
    value: StructReader<'_, B>,
    lim: &mut ReadLimiter,
    canonicalize: bool,
) -> Result<(), ErrorKind>
    requires { IsNullPlace (A.view arena.old).words to.segment to.at }
    ensures { CopiesOrClears result (struct_read B.ReaderArena value.entry)
        (copy_call (form_of canonicalize)
        (call_at to.segment to.at (A.view arena.old) (A.view arena.new)) lim.old lim.new) }
{
    let kept = kept_sections(value, canonicalize)?;
    let start = make_struct(arena, to.segment, to.at, kept)?;
    let data_words = kept.data_words;
    write_section(arena, start, value.content, value.bits, data_words);
    let children = Pointer {
        source: value.source,
        place: value.pointers,
        nesting_limit: value.nesting_limit,
    };
    let place = WordPlace {
        segment: start.segment,
        at: start.at + u32::from(data_words),
    };
    let pointers = u32::from(kept.pointers);
    let form = CopyForm::of(canonicalize);
    let copied = copy_children(arena, Destination { place, form }, children, pointers, lim);
    clear_if_refused(arena, to, copied)
}

/// The sections of `value` that a copy keeps: in plain form all words, in canonical form the words
/// of each section up to the last one that isn't zero.
///
/// Refuses with `MessageTooLarge(n)`, where n is the number of these data words, if a struct can't
/// have that many.
fn kept_sections<B: ReaderArena>(
    value: StructReader<'_, B>,
    canonicalize: bool,
) -> Result<StructSize, ErrorKind>
    ensures data { IfOk result (λ size. size.data_words
        ≡ kept_count (form_of canonicalize) (data_of B.ReaderArena value.entry)) }
    ensures pointers { IfOk result (λ size. size.pointers
        ≡ kept_count (form_of canonicalize)
        (words_from (pointers_read B.ReaderArena value.entry) value.entry.pointer_count)) }
    ensures narrow { IfOk result (λ _.
        kept_count (form_of canonicalize) (data_of B.ReaderArena value.entry) < 2 ^ 16) }
    ensures wide { IfErr result
        ((struct_read B.ReaderArena value.entry).exceeds (form_of canonicalize)) }
{
    let data_words = kept_words(value.content, value.bits, canonicalize);
    if data_words > usize::from(u16::MAX) {
        return Err(ErrorKind::MessageTooLarge(data_words));
    }
    let mut pointers = value.pointer_count;
    if canonicalize {
        let at = value.pointers.at as usize;
        pointers = used_words_in(value.pointers.bytes, at, usize::from(pointers)) as u16;
    }
    Ok(StructSize {
        data_words: data_words as u16,
        pointers,
    })
}
