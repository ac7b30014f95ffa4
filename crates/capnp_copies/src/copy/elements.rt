//! Copies the elements of a list of structs (encoding specification, "Lists" and
//! "Canonicalization").
ghost use Rattle.std.specs.Prelude.{◌≡◌, ℕ, ◌+◌, ◌*◌, ◌<◌, ◌≤◌, length, IfOk, IfErr};
ghost use Rattle.capnp_format.specs.Bytes.{words_of};
ghost use Rattle.capnp_format.specs.Segments.{segment, word_at};
ghost use Rattle.capnp_arena_traits.specs.Written.{with_words};
ghost use Rattle.capnp_pointers.specs.Reading.{segment_read};
ghost use Rattle.capnp_pointers.specs.Pointers.{reading};
ghost use Rattle.capnp_copies.specs.Growth.{TakesNone, TakesAtMost};
ghost use Rattle.capnp_copies.specs.Changes.{copy_call_to, CopiesRows, StopsAtElements};
ghost use Rattle.capnp_copies.specs.Forms.{form_in};
ghost use Rattle.capnp_copies.specs.Originals.{elements_original};
ghost use Rattle.capnp_copies.specs.Widths.{widths_kept, IsAtMost};

use super::children::copy_children_inline;
use crate::form::Destination;
use crate::widths::ElementSizes;
use capnp_arena_traits::arena::{BuilderArena, ReaderArena, WordPlace, copy_words};
use capnp_pointers::object::Place;
use capnp_pointers::pointers::Pointer;
use capnp_words::error::ErrorKind;
use capnp_words::read_limiter::ReadLimiter;
use capnp_words::words::{count, word_range};

/// Copies the elements of a list of structs, which start at `from`, over the zero words from
/// `to.place` on. Cuts each element to the sections `sizes.kept`.
#[cycle(copies)]
#[inline(always)]
pub(crate) fn copy_elements<A: BuilderArena, B: ReaderArena>(
    arena: &mut A,
    to: Destination,
    from: Pointer<'_, B>,
    sizes: ElementSizes,
    lim: &mut ReadLimiter,
) -> Result<(), ErrorKind>
    requires room { to.place.at + sizes.count * (sizes.kept.data_words + sizes.kept.pointers)
        ≤ length (segment (A.view arena.old).words to.place.segment) }
    requires zero { (i : ℕ) → i < sizes.count * (sizes.kept.data_words + sizes.kept.pointers)
        → word_at (A.view arena.old).words to.place.segment (to.place.at + i) ≡ 0 }
    requires inside { from.place.at
        + sizes.count * (sizes.source.data_words + sizes.source.pointers)
        ≤ length (segment_read (reading B.ReaderArena from)) }
    requires less { IsAtMost sizes.kept sizes.source }
    requires kept { sizes.kept ≡ widths_kept (form_in to.form) (reading B.ReaderArena from)
        sizes.source sizes.count }
    ensures copied { IfOk result
        (λ _. CopiesRows (reading B.ReaderArena from.entry) sizes sizes.count 0
        (copy_call_to to (A.view arena.old) (A.view arena.new) lim.old lim.new)) }
    ensures refused { IfErr result
        (StopsAtElements (reading B.ReaderArena from.entry) sizes sizes.count
        (copy_call_to to (A.view arena.old) (A.view arena.new) lim.old lim.new)) }
    ensures taken { TakesAtMost result
        (elements_original (reading B.ReaderArena from.entry) sizes sizes.count)
        (copy_call_to to (A.view arena.old) (A.view arena.new) lim.old lim.new) }
{
    let source_words = sizes.source.total();
    let kept_words = sizes.kept.total();
    if kept_words == 0 {
        return Ok(());
    }
    let segment = to.place.segment;
    let data_words = usize::from(sizes.kept.data_words);
    let pointers = u32::from(sizes.kept.pointers);
    for i in 0..sizes.count {
        let element = from.place.at + i * source_words;
        let row = to.place.at + i * kept_words;
        let data = word_range(from.place.bytes, element as usize, data_words);
        put_words(arena, segment, row, data);
        let children = Pointer {
            source: from.source,
            place: Place {
                segment: from.place.segment,
                bytes: from.place.bytes,
                at: element + u32::from(sizes.source.data_words),
            },
            nesting_limit: from.nesting_limit,
        };
        let place = WordPlace {
            segment,
            at: row + u32::from(sizes.kept.data_words),
        };
        let form = to.form;
        copy_children_inline(arena, Destination { place, form }, children, pointers, lim)?;
    }
    Ok(())
}

/// Writes `words` over the words of segment `id` from `at` on; nothing if `words` is empty.
/// Preconditions: the length of `words` is a multiple of 8; segment `id` has at least `at`
/// allocated words more than there are in `words`.
pub fn put_words<A: BuilderArena>(arena: &mut A, id: u32, at: u32, words: &[u8])
    requires whole { length words.now ≡ 8 * length (words_of words.now) }
    requires inside { at + length (words_of words.now)
        ≤ length (segment (A.view arena.old).words id) }
    ensures words { A.view arena.new
        ≡ record (A.view arena.old)
        { words = with_words (A.view arena.old).words id at (words_of words.now) } }
    ensures behind { (i : ℕ) → at + length (words_of words.now) ≤ i
        → word_at (A.view arena.new).words id i ≡ word_at (A.view arena.old).words id i }
    ensures length { length (segment (A.view arena.new).words id)
        ≡ length (segment (A.view arena.old).words id) }
    ensures taken { TakesNone (A.view arena.old) (A.view arena.new) }
{
    if count(words) == 0 {
        return;
    }
    copy_words(arena, id, at, words);
}
