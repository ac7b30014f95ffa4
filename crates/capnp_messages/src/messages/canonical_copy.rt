//! Makes a copy in canonical form (encoding specification, "Canonicalization"), in one segment. The
//! first try requests one word more than the source message has. If that is too small, counts the
//! words of the copy, and requests exactly as many for a second and last try. No try requests more
//! than 536,870,911 words. During a try the message has no allocator, so the copy can't get a second
//! segment.
ghost use Rattle.std.specs.Prelude.{◌≡◌, ◌⊎◌, ◌<◌, ◌≤◌, ◌+◌, ◌*◌, ◌∷◌, [], false, length, min, Ok, Err, IsTrue, IsOk, OnOk, IfOk, OnErr, IfErr};
ghost use Rattle.std.specs.Bool.{OnFalse, OnTrue};
ghost use Rattle.capnp_format.specs.Canonical.{encoding};
ghost use Rattle.capnp_format.specs.Segments.{segment};
ghost use Rattle.capnp_format.specs.Tree.{Tree};
ghost use Rattle.capnp_words.specs.Meter.{Meter, raised, unused};
ghost use Rattle.capnp_words.specs.declared.error.ErrorKind.TheVariants.{AllocationFailed};
ghost use Rattle.capnp_arena_traits.specs.Allocations.{max_segment_words, one_more};
ghost use Rattle.capnp_pointers.specs.Values.{value};
ghost use Rattle.capnp_pointers.specs.Wanted.{canonical};
ghost use Rattle.capnp_pointers.specs.Pointers.{reading};
ghost use Rattle.capnp_copies.specs.Changes.{IsNullPlace, MakesCopy, StopsCopy, copy_call};
ghost use Rattle.capnp_allocation.specs.Makes.{call_at};
ghost use Rattle.capnp_messages.specs.Canonicalize.{end_value};
ghost use Rattle.capnp_messages.specs.Copies.{HoldsCanonicalWords, LacksMemoryOr, NeedsMoreRoom, RefusesCopy, is_message_too_large};
ghost use Rattle.capnp_messages.specs.EndValues.{EndReads, IsEndThere, end_original, end_place};
ghost use Rattle.capnp_messages.specs.MadeWords.{IsMeasured};
ghost use Rattle.capnp_messages.specs.Parts.{to_pointer};
ghost use Rattle.capnp_messages.specs.PathEnds.{end_read};
ghost use Rattle.capnp_words.specs.Names.{is_allocation_name};
ghost use Rattle.capnp_messages.specs.CanonicalErrors.{IsLeftOf};
ghost use Rattle.capnp_messages.specs.Tries.{IsFirstTry, IsSegmentRoom, first_room, words_read};

use super::copy_size::copy_size;
use super::path::Reached;
use capnp_arena::arena::{
    Allocator, BuilderArena, BuilderArenaImpl, MAX_SEGMENT_WORDS, ReaderArena,
};
use capnp_arena_traits::arena::WordPlace;
use capnp_copies::copy::{copy_in_form, copy_struct};
use capnp_copies::form::{CopyForm, Destination};
use capnp_pointers::pointers::Pointer;
use capnp_pointers::source::Source;
use capnp_words::error::ErrorKind;
use capnp_words::read_limiter::ReadLimiter;
use std::alloc::Global;

/// Whether `kind` says that the room is too small, or that memory ran out.
fn is_lack_of_room(kind: ErrorKind) -> bool
    ensures { result ≡ is_allocation_name kind }
{
    matches!(
        kind,
        ErrorKind::AllocationFailed | ErrorKind::MessageTooLarge(_)
    )
}

/// Copies what `from` leads to in canonical form to the null pointer at `to`. After a refusal the
/// objects that were made before it stay.
fn canonicalize_to_pointer<A: BuilderArena, B: ReaderArena>(
    arena: &mut A,
    to: WordPlace,
    from: Reached<'_, B>,
    lim: &mut ReadLimiter,
) -> Result<(), ErrorKind>
    requires { IsNullPlace (A.view arena.old).words to.segment to.at }
    ensures there { IsEndThere (end_read B.ReaderArena from.entry) }
    ensures copied { OnOk result (MakesCopy (end_original (end_read B.ReaderArena from.entry))
        (copy_call canonical
        (call_at to.segment to.at (A.view arena.old) (A.view arena.new)) lim.old lim.new)) }
    ensures refused { IfErr result (λ k. (t : Tree)
        × StopsCopy (end_original (end_read B.ReaderArena from.entry)) (copy_call canonical
        (call_at to.segment to.at (A.view arena.old) (A.view arena.new)) lim.old lim.new) t k) }
{
    let form = CopyForm::Canonical;
    let to = Destination { place: to, form };
    match from {
        Reached::Pointer(pointer) => copy_in_form(arena, to, pointer, lim),
        Reached::Element(element) => copy_struct(arena, to, element.first, element.size, lim),
    }
}

/// Copies what `from` leads to in canonical form to the root of a message whose only word is the
/// root, a null pointer. Charges the copy to a new limiter with `left` words left, and returns this
/// limiter. The copy has to fit in the message's only segment, which has room for at least `room`
/// words: refuses with `MessageTooLarge(room)` if it doesn't, or if the allocator grants another
/// segment for words that don't fit.
fn canonicalize_to_segment<A: Allocator, B: ReaderArena>(
    arena: &mut BuilderArenaImpl<A>,
    from: Reached<'_, B>,
    left: Option<usize>,
    room: u32,
) -> Result<ReadLimiter, ErrorKind>
    requires root { (⟦<BuilderArenaImpl<A> as BuilderArena>⟧.view arena.old).words ≡ (0 ∷ []) ∷ [] }
    requires room { room ≤ (⟦<BuilderArenaImpl<A> as BuilderArena>⟧.view arena.old).room 0 }
    ensures copied { IfOk result (λ after. (t : Tree)
        × EndReads (end_read B.ReaderArena from.entry) (unused left) after t
        × HoldsCanonicalWords (⟦<BuilderArenaImpl<A> as BuilderArena>⟧.view arena.new) t) }
    ensures room { OnOk result ((⟦<BuilderArenaImpl<A> as BuilderArena>⟧.view arena.new).room 0
        ≡ (⟦<BuilderArenaImpl<A> as BuilderArena>⟧.view arena.old).room 0) }
    ensures refused { IfErr result
        (RefusesCopy (Ok (end_read B.ReaderArena from.entry), unused left) room) }
{
    let too_large = ErrorKind::MessageTooLarge(room as usize);
    let root = WordPlace { segment: 0, at: 0 };
    let mut lim = ReadLimiter::new(left);
    match canonicalize_to_pointer(arena, root, from, &mut lim) {
        Ok(()) => {
            if arena.len() == 1 {
                Ok(lim)
            } else {
                Err(too_large)
            }
        }
        Err(kind) => {
            if is_lack_of_room(kind) {
                Err(too_large)
            } else {
                Err(kind)
            }
        }
    }
}

/// Makes the first segment of `made`, with room for at least `room` words. Allocates the segment's
/// first word: the root, a null pointer. Precondition: `made` has no segment yet.
fn allocate_root<A: Allocator>(made: &mut BuilderArenaImpl<A>, room: u32) -> Result<(), ErrorKind>
    requires none { ⟦<BuilderArenaImpl<A> as ReaderArena>⟧.segments made.old ≡ [] }
    requires room { IsSegmentRoom room }
    ensures root { OnOk result ((⟦<BuilderArenaImpl<A> as BuilderArena>⟧.view made.new).words
        ≡ (0 ∷ []) ∷ []) }
    ensures room { OnOk result
        (room ≤ (⟦<BuilderArenaImpl<A> as BuilderArena>⟧.view made.new).room 0) }
    ensures asked { OnOk result (IsTrue
        ((⟦<BuilderArenaImpl<A> as BuilderArena>⟧.view made.old).offers room
        ((⟦<BuilderArenaImpl<A> as BuilderArena>⟧.view made.new).room 0))) }
    ensures granted { OnOk result ((⟦<BuilderArenaImpl<A> as BuilderArena>⟧.view made.new).refusals
        ≡ (⟦<BuilderArenaImpl<A> as BuilderArena>⟧.view made.old).refusals) }
    ensures offers { (⟦<BuilderArenaImpl<A> as BuilderArena>⟧.view made.new).offers
        ≡ (⟦<BuilderArenaImpl<A> as BuilderArena>⟧.view made.old).offers }
    ensures refused { IfErr result (λ e. (e ≡ AllocationFailed)
        × ((⟦<BuilderArenaImpl<A> as BuilderArena>⟧.view made.new).refusals
        ≡ one_more (⟦<BuilderArenaImpl<A> as BuilderArena>⟧.view made.old).refusals)) }
    ensures sure { IsTrue A.first_in_arena → IsTrue (A.grants made.old.allocator room)
        → IsOk result }
{
    made.allocate_segment(room)?;
    let _root = made.allocate(0, 1);
    Ok(())
}

/// Makes `lim` count `pointers` more pointers as followed.
fn count_pointers(lim: &mut ReadLimiter, pointers: u64)
    ensures left { lim.new.left ≡ lim.old.left }
    ensures counted { lim.new.followed ≡ raised lim.old.followed pointers }
{
    for _ in 0..pointers {
        lim.count();
    }
}

/// Charges `lim` what a copy has charged to `own`, and makes `lim` count the pointers that the copy
/// followed. Precondition: before the copy, `own` had as many words left as `lim`, and had counted
/// no pointers. If `lim` has counted no pointers either, replaces `lim` by `own`, which has the
/// same result.
fn charge_copy(lim: &mut ReadLimiter, own: ReadLimiter)
    requires { IsLeftOf own.left lim.old.left }
    ensures left { lim.new.left ≡ own.left }
    ensures counted { lim.new.followed ≡ raised lim.old.followed own.followed }
{
    let pointers = own.followed();
    if lim.followed() == 0 {
        *lim = own;
        return;
    }
    if let (Some(left), Some(after)) = (lim.left(), own.left()) {
        let _ = lim.can_read(left - after);
    }
    count_pointers(lim, pointers);
}

/// Copies what `from` leads to in canonical form into a new message with one segment, for which it
/// requests `room` words. During the copy, the message has no allocator that could grant another
/// segment. If refused, returns the allocator, and leaves `lim` unchanged.
fn canonicalize_to_message<A: Allocator, B: ReaderArena>(
    alloc: Global,
    allocator: A,
    from: Reached<'_, B>,
    lim: &mut ReadLimiter,
    room: u32,
) -> Result<BuilderArenaImpl<A>, (ErrorKind, A)>
    requires room { IsSegmentRoom room }
    ensures copied { IfOk result (λ made. (t : Tree)
        × EndReads (end_read B.ReaderArena from.entry) lim.old lim.new t
        × HoldsCanonicalWords (⟦<BuilderArenaImpl<A> as BuilderArena>⟧.view made) t) }
    ensures asked { IfOk result (λ made. IsTrue (A.offers allocator room
        ((⟦<BuilderArenaImpl<A> as BuilderArena>⟧.view made).room 0))) }
    ensures granted { IfOk result (λ made.
        (⟦<BuilderArenaImpl<A> as BuilderArena>⟧.view made).refusals ≡ A.refusals allocator) }
    ensures given_back { IfErr result (λ e. A.offers e.1 ≡ A.offers allocator) }
    ensures refused { IfErr result
        (λ e. LacksMemoryOr (A.refusals allocator) (A.refusals e.1) e.0
        (RefusesCopy (Ok (end_read B.ReaderArena from.entry), lim.old) room e.0)) }
    ensures unread { OnErr result (lim.new ≡ lim.old) }
{
    let mut made = BuilderArenaImpl::new(alloc, allocator);
    if let Err(kind) = allocate_root(&mut made, room) {
        return Err((kind, made.into_allocator()));
    }
    let (mut segments, allocator) = made.without_allocator();
    let copied = canonicalize_to_segment(&mut segments, from, lim.left(), room);
    let made = segments.with_allocator(allocator);
    match copied {
        Ok(own) => {
            charge_copy(lim, own);
            Ok(made)
        }
        Err(kind) => Err((kind, made.into_allocator())),
    }
}

/// Whether `kind` is `MessageTooLarge`.
fn is_too_large(kind: ErrorKind) -> bool
    ensures { result ≡ is_message_too_large kind }
{
    matches!(kind, ErrorKind::MessageTooLarge(_))
}

/// The number of words that the first try requests for a source of `words` words: one more than
/// these, but at most 536,870,911.
fn first_room(words: usize) -> u32
    ensures first { result ≡ first_room words }
    ensures can_be_asked { IsSegmentRoom result }
{
    if words < MAX_SEGMENT_WORDS as usize {
        words as u32 + 1
    } else {
        MAX_SEGMENT_WORDS
    }
}

/// The number of words in the arena of `from`; 0 if `from` has no arena.
fn arena_words<B: ReaderArena>(from: &Pointer<'_, B>) -> usize
    ensures { result ≡ words_read (reading B.ReaderArena from.now) }
{
    match from.source {
        Source::Arena(arena) => arena.size_in_words(),
        _ => 0,
    }
}

/// The number of words in the arena of what `from` leads to; 0 if it has no arena.
fn arena_words_of_reached<B: ReaderArena>(from: &Reached<'_, B>) -> usize
    ensures { result ≡ words_read (end_place (end_read B.ReaderArena from.now)) }
{
    match from {
        Reached::Pointer(pointer) => arena_words(pointer),
        Reached::Element(element) => arena_words(&element.first),
    }
}

/// Copies what `from` leads to in canonical form into `made`, in one segment, for which it requests
/// `room` words, and returns `true`. Returns `false` if the copy doesn't fit the segment, or there
/// is no memory for the segment. `left` is the number of words that reading may cost. Precondition:
/// `made` has no segment yet.
pub(super) fn canonicalize_reached_into<A: Allocator, B: ReaderArena>(
    made: &mut BuilderArenaImpl<A>,
    from: Reached<'_, B>,
    left: Option<usize>,
    room: u32,
) -> Result<bool, ErrorKind>
    requires none { ⟦<BuilderArenaImpl<A> as ReaderArena>⟧.segments made.old ≡ [] }
    requires room { IsSegmentRoom room }
    ensures copied { IfOk result (λ fits. OnTrue fits ((t : Tree) × (after : Meter)
        × EndReads (end_read B.ReaderArena from.entry) (unused left) after t
        × HoldsCanonicalWords (⟦<BuilderArenaImpl<A> as BuilderArena>⟧.view made.new) t)) }
    ensures asked { IfOk result (λ fits. OnTrue fits (IsTrue
        ((⟦<BuilderArenaImpl<A> as BuilderArena>⟧.view made.old).offers room
        ((⟦<BuilderArenaImpl<A> as BuilderArena>⟧.view made.new).room 0)))) }
    ensures small { IfOk result (λ fits. OnFalse fits
        (NeedsMoreRoom (end_read B.ReaderArena from.entry) room
        ⊎ ((⟦<BuilderArenaImpl<A> as BuilderArena>⟧.view made.new).refusals
        ≡ one_more (⟦<BuilderArenaImpl<A> as BuilderArena>⟧.view made.old).refusals))) }
    ensures sure { IsTrue A.first_in_arena → IsTrue (A.grants made.old.allocator room)
        → IfOk result (λ fits. OnFalse fits
        (NeedsMoreRoom (end_read B.ReaderArena from.entry) room)) }
    ensures refused { IfErr result (λ k.
        (end_value canonical (end_read B.ReaderArena from.entry) (unused left)).0 ≡ Err k) }
{
    if allocate_root(made, room).is_err() {
        return Ok(false);
    }
    match canonicalize_to_segment(made, from, left, room) {
        Ok(_) => Ok(true),
        Err(kind) => {
            if is_too_large(kind) {
                Ok(false)
            } else {
                Err(kind)
            }
        }
    }
}

/// The number `words`, but at most 536,870,911.
fn at_most_a_segment(words: u32) -> u32
    ensures { result ≡ min words max_segment_words }
{
    words.min(MAX_SEGMENT_WORDS)
}

/// The number of words to request for the copy of what `from` leads to: as many as the copy has, but
/// at most 536,870,911. Reads the value once, which may cost `left` words, and takes no memory.
/// Refuses with the first refusal met while reading.
fn measured_room<B: ReaderArena>(
    from: Reached<'_, B>,
    left: Option<usize>,
) -> Result<u32, ErrorKind>
    ensures measured { IfOk result (IsMeasured (end_read B.ReaderArena from.entry) left) }
    ensures can_be_asked { IfOk result IsSegmentRoom }
    ensures refused { IfErr result (λ k.
        (end_value canonical (end_read B.ReaderArena from.entry) (unused left)).0 ≡ Err k) }
{
    match copy_size(from, left) {
        Ok(words) => Ok(at_most_a_segment(words)),
        Err(kind) => {
            if is_too_large(kind) {
                Ok(MAX_SEGMENT_WORDS)
            } else {
                Err(kind)
            }
        }
    }
}

/// Copies what `from` leads to like `canonicalize_pointer`, but counts the words of the copy first,
/// and so needs one try.
fn canonicalize_measured<A: Allocator, B: ReaderArena>(
    alloc: Global,
    allocator: A,
    from: Reached<'_, B>,
    lim: &mut ReadLimiter,
) -> Result<BuilderArenaImpl<A>, (ErrorKind, A)>
    ensures copied { IfOk result (λ made. (t : Tree)
        × EndReads (end_read B.ReaderArena from.entry) lim.old lim.new t
        × HoldsCanonicalWords (⟦<BuilderArenaImpl<A> as BuilderArena>⟧.view made) t) }
    ensures asked { IfOk result (λ made. IsTrue (A.offers allocator (min
        (length (segment (⟦<BuilderArenaImpl<A> as BuilderArena>⟧.view made).words 0))
        max_segment_words) ((⟦<BuilderArenaImpl<A> as BuilderArena>⟧.view made).room 0))) }
    ensures granted { IfOk result (λ made.
        (⟦<BuilderArenaImpl<A> as BuilderArena>⟧.view made).refusals ≡ A.refusals allocator) }
    ensures refused { IfErr result
        (λ e. LacksMemoryOr (A.refusals allocator) (A.refusals e.1) e.0
        (RefusesCopy (Ok (end_read B.ReaderArena from.entry), lim.old) max_segment_words e.0)) }
    ensures unread { OnErr result (lim.new ≡ lim.old) }
{
    match measured_room(from, lim.left()) {
        Ok(room) => canonicalize_to_message(alloc, allocator, from, lim, room),
        Err(kind) => Err((kind, allocator)),
    }
}

/// Copies what `from` leads to like `canonicalize_pointer`.
pub(super) fn canonicalize_reached<A: Allocator, B: ReaderArena>(
    alloc: Global,
    allocator: A,
    from: Reached<'_, B>,
    lim: &mut ReadLimiter,
) -> Result<BuilderArenaImpl<A>, (ErrorKind, A)>
    ensures copied { IfOk result (λ made. (t : Tree)
        × EndReads (end_read B.ReaderArena from.entry) lim.old lim.new t
        × HoldsCanonicalWords (⟦<BuilderArenaImpl<A> as BuilderArena>⟧.view made) t) }
    ensures tries { IfOk result (λ made.
        IsFirstTry (words_read (end_place (end_read B.ReaderArena from.entry)))
        (A.offers allocator) (A.refusals allocator)
        (⟦<BuilderArenaImpl<A> as BuilderArena>⟧.view made)) }
    ensures refused { IfErr result
        (λ e. LacksMemoryOr (A.refusals allocator) (A.refusals e.1) e.0
        (RefusesCopy (Ok (end_read B.ReaderArena from.entry), lim.old) max_segment_words e.0)) }
    ensures unread { OnErr result (lim.new ≡ lim.old) }
{
    let room = first_room(arena_words_of_reached(&from));
    match canonicalize_to_message(alloc, allocator, from, lim, room) {
        Ok(made) => Ok(made),
        Err((kind, returned)) => {
            if room == MAX_SEGMENT_WORDS || !is_too_large(kind) {
                return Err((kind, returned));
            }
            canonicalize_measured(alloc, returned, from, lim)
        }
    }
}

/// Makes the canonical copy of the value that the pointer `from` leads to (encoding specification,
/// "Canonicalization"): a message of one segment, whose memory `allocator` grants. If refused,
/// returns the allocator, and leaves `lim` unchanged.
///
/// Requests one word more than the source message has for the segment. If the copy doesn't fit,
/// counts its words, and makes it once more in a segment of exactly as many; so there are at most two
/// requests, for at most 536,870,911 words each. `lim` is charged for one copy in either case, and
/// counts each non-null pointer once.
///
/// Refusals: the first one met while reading `from`; `MessageTooLarge(536870911)` if the copy has
/// more than 536,870,911 words; `AllocationFailed`, which the allocator counts, if memory ran out.
pub fn canonicalize_pointer<A: Allocator, B: ReaderArena>(
    alloc: Global,
    allocator: A,
    from: Pointer<'_, B>,
    lim: &mut ReadLimiter,
) -> Result<BuilderArenaImpl<A>, (ErrorKind, A)>
    ensures copied { IfOk result (λ made. (t : Tree)
        × (value canonical (reading B.ReaderArena from.entry) lim.old ≡ (Ok t, lim.new))
        × HoldsCanonicalWords (⟦<BuilderArenaImpl<A> as BuilderArena>⟧.view made) t) }
    ensures tries { IfOk result (λ made. IsFirstTry (words_read (reading B.ReaderArena from.entry))
        (A.offers allocator) (A.refusals allocator)
        (⟦<BuilderArenaImpl<A> as BuilderArena>⟧.view made)) }
    ensures refused { IfErr result
        (λ e. LacksMemoryOr (A.refusals allocator) (A.refusals e.1) e.0
        (RefusesCopy (Ok (to_pointer (reading B.ReaderArena from.entry)), lim.old)
        max_segment_words e.0)) }
    ensures unread { OnErr result (lim.new ≡ lim.old) }
{
    canonicalize_reached(alloc, allocator, Reached::Pointer(from), lim)
}
