//! Copies of values that are read, into a message in the caller's buffer.
ghost use Rattle.std.specs.Prelude.{◌≡◌, ◌<◌, ◌+◌, [], ◌∷◌, IfErr, IfOk, IsOk};
ghost use Rattle.capnp_format.specs.Canonical.{encoding, trim};
ghost use Rattle.capnp_format.specs.Segments.{Grows};
ghost use Rattle.capnp_format.specs.Tree.{Tree};
ghost use Rattle.capnp_pointers.specs.Wanted.{canonical, plain};
ghost use Rattle.capnp_readers.specs.Readers.{IsStructPlace, read_by};
ghost use Rattle.capnp_readers.specs.Values.{HasValue};
ghost use Rattle.capnp_copies.specs.Changes.{copy_call};
ghost use Rattle.capnp_copies.specs.Growth.{TakesAtMost};
ghost use Rattle.capnp_copies.specs.Originals.{value_original};
ghost use Rattle.capnp_copies.specs.Rooms.{CanBeCopied};
ghost use Rattle.capnp_builders.specs.Held.{MakesChild, call_in};
ghost use Rattle.capnp_builders.specs.Kept.{FillsMessage, LeavesCleared, PutsCopy};
ghost use Rattle.typed_building.specs.There.{call_on};
ghost use Rattle.capnp_layout_c.specs.Buffers.{IsPointerIn, Refuses, buffer, words_in};
ghost use Rattle.capnp_layout_c.specs.BuildingNumbers.{bad_place};
ghost use Rattle.capnp_layout_c.specs.Copies.{CopiesValue};
ghost use Rattle.capnp_layout_c.specs.Lent.{lent_pointer};

use crate::building::numbers::{BAD_PLACE, number_of};
use crate::building::places::{StructAt, has_pointer};
use crate::limits::store_left;
use crate::segments::Segments;
use capnp_arena_traits::arena::{BuilderArena, ReaderArena};
use capnp_builders::builders::PointerBuilder;
use capnp_lent_arena::lent_arena::LentArena;
use capnp_readers::readers::{PointerReader, StructPlace};
use capnp_words::error::ErrorKind;
use capnp_words::read_limiter::ReadLimiter;
use typed_building::copying;

/// Copies the value of the pointer at word `word` of segment `segment` of another message, of any
/// type, to pointer `index` of a struct, and zeroes what that pointer held. Charges what reading
/// the whole value costs, unless there is no limit. After a refusal pointer `index` is null, unless its place is refused.
#[unsafe(no_mangle)]
pub extern "C" fn capnp_layout_copy(
    bytes: &mut [u8],
    used: &mut u32,
    place: StructAt,
    index: u16,
    segments: &Segments<'_>,
    left: &mut u64,
    segment: u64,
    word: u32,
    nesting: i32,
) -> u32
    ensures copies { IsPointerIn bytes.old used.old place index
        → CopiesValue plain result (lent_pointer segments.now.list.now segment word nesting)
        left.old left.new place index
        (buffer bytes.old used.old bytes.new used.new) }
    ensures misplaced { (IsPointerIn bytes.old used.old place index → ⊥)
        → Refuses result bad_place (buffer bytes.old used.old bytes.new used.new) }
    ensures uncharged { (IsPointerIn bytes.old used.old place index → ⊥) → left.new ≡ left.old }
{
    if !has_pointer(bytes, *used, place, index) {
        return BAD_PLACE;
    }
    let mut lim = ReadLimiter::new(Some(*left as usize));
    let from = segments.pointer(segment, word, nesting);
    let mut arena = LentArena::new(bytes, *used);
    let to = place.place();
    let result = copying::set_pointer_from(&mut arena, to, index as usize, from, &mut lim);
    *used = arena.used();
    store_left(&lim, left);
    match result {
        Ok(()) => 0,
        Err(kind) => number_of(kind),
    }
}

/// Copies the value like `capnp_layout_copy`, in canonical form: without the zero words and null
/// pointers that sections end with. The copy's objects are in the canonical order, so a copy to the
/// root pointer of a message that was just started is the canonical message of the value. Refuses a
/// value with a capability, too.
#[unsafe(no_mangle)]
pub extern "C" fn capnp_layout_copy_canonical(
    bytes: &mut [u8],
    used: &mut u32,
    place: StructAt,
    index: u16,
    segments: &Segments<'_>,
    left: &mut u64,
    segment: u64,
    word: u32,
    nesting: i32,
) -> u32
    ensures copies { IsPointerIn bytes.old used.old place index
        → CopiesValue canonical result
        (lent_pointer segments.now.list.now segment word nesting)
        left.old left.new place index
        (buffer bytes.old used.old bytes.new used.new) }
    ensures alone { (t : Tree)
        → HasValue (lent_pointer segments.now.list.now segment word nesting) t
        → words_in bytes.old used.old ≡ (0 ∷ []) ∷ []
        → IsPointerIn bytes.old used.old place index → result ≡ 0
        → words_in bytes.new used.new ≡ encoding (trim t) ∷ [] }
    ensures misplaced { (IsPointerIn bytes.old used.old place index → ⊥)
        → Refuses result bad_place (buffer bytes.old used.old bytes.new used.new) }
    ensures uncharged { (IsPointerIn bytes.old used.old place index → ⊥) → left.new ≡ left.old }
{
    if !has_pointer(bytes, *used, place, index) {
        return BAD_PLACE;
    }
    let mut lim = ReadLimiter::new(Some(*left as usize));
    let from = segments.pointer(segment, word, nesting);
    let mut arena = LentArena::new(bytes, *used);
    let to = place.place();
    let result = set_canonically(&mut arena, to, index as usize, from, &mut lim);
    *used = arena.used();
    store_left(&lim, left);
    match result {
        Ok(()) => 0,
        Err(kind) => number_of(kind),
    }
}

/// Copies the value of the pointer of `from` to pointer `index`, like
/// `typed_building::copying::set_pointer_from`, in canonical form.
fn set_canonically<A: BuilderArena, B: ReaderArena>(
    arena: &mut A,
    place: StructPlace,
    index: usize,
    from: PointerReader<'_, B>,
    lim: &mut ReadLimiter,
) -> Result<(), ErrorKind>
    requires inside { IsStructPlace (A.view arena.old).words place }
    requires field { index < place.pointers }
    ensures copied { IfOk result (λ _. PutsCopy (value_original (read_by B.ReaderArena from.entry))
        (copy_call canonical (call_on place index (A.view arena.old) (A.view arena.new))
        lim.old lim.new)) }
    ensures alone { (A.view arena.old).words ≡ (0 ∷ []) ∷ []
        → IfOk result (λ _. FillsMessage (read_by B.ReaderArena from.entry)
        (copy_call canonical (call_on place index (A.view arena.old) (A.view arena.new))
        lim.old lim.new)) }
    ensures fits { CanBeCopied (value_original (read_by B.ReaderArena from.entry)) canonical lim.old
        (A.view arena.old) place.segment
        → IsOk result }
    ensures refused { IfErr result (LeavesCleared
        (value_original (read_by B.ReaderArena from.entry))
        (copy_call canonical (call_on place index (A.view arena.old) (A.view arena.new))
        lim.old lim.new)) }
    ensures taken { TakesAtMost result (value_original (read_by B.ReaderArena from.entry))
        (copy_call canonical (call_on place index (A.view arena.old) (A.view arena.new))
        lim.old lim.new) }
    ensures grows { Grows (A.view arena.old).words (A.view arena.new).words }
    ensures child { (t : Tree) → HasValue (read_by B.ReaderArena from.entry) t
        → MakesChild result
        (call_in place (A.view arena.old).words (A.view arena.new).words) index (trim t) }
{
    let at = place.pointers_at + index as u32;
    let mut pointer = PointerBuilder {
        arena,
        segment: place.segment,
        at,
    };
    pointer.copy_from(from, lim, true)
}
