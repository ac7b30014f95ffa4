//! Functions that make canonical copies, and are proved only from the contracts of the calls that
//! make them.
ghost use Rattle.std.specs.Prelude.{◌≡◌, ◌⊎◌, ◌∷◌, ◌+◌, ◌*◌, ◌<◌, ◌≤◌, [], ℕ, Ok, true, length, map, sum, IfOk, IfErr, OnErr};
ghost use Rattle.capnp_words.specs.declared.error.ErrorKind.TheVariants.{AllocationFailed};
ghost use Rattle.capnp_words.specs.Meter.{FitsIn};
ghost use Rattle.capnp_format.specs.Bytes.{message};
ghost use Rattle.capnp_format.specs.Canonical.{HasNoCapabilities, encoding, trim, word_count};
ghost use Rattle.capnp_format.specs.Means.{Means};
ghost use Rattle.capnp_format.specs.Segments.{IsPlace};
ghost use Rattle.capnp_format.specs.Tree.{Tree};
ghost use Rattle.capnp_arena_traits.specs.Allocations.{max_segment_words};
ghost use Rattle.capnp_pointers.specs.Source.{levels};
ghost use Rattle.capnp_pointers.specs.Spending.{Paid, pointers_in};
ghost use Rattle.capnp_messages.specs.Copies.{RefusesCopy};
ghost use Rattle.capnp_messages.specs.Parts.{to_pointer};
ghost use Rattle.callers.specs.Truly.{read_at};

use crate::theorem::pointer_at;
use capnp_arena::arena::{
    BuilderArena, BuilderArenaImpl, HeapAllocator, ReaderArena, ReaderArenaImpl, ReaderSegments,
};
use capnp_messages::messages::canonicalize_pointer;
use capnp_readers::readers::PointerPlace;
use capnp_words::error::ErrorKind;
use capnp_words::read_limiter::ReadLimiter;
use std::alloc::Global;

/// Makes the canonical copy of the value that the pointer at `place` leads to, with memory from the
/// heap.
///
/// Succeeds only if the pointer leads to a value without capabilities, within the nesting limit of
/// `arena`, and `lim` covers what reading this value costs. If both hold, and if the value's
/// canonical words fit a segment, refuses only if memory runs out. A success charges `lim` that
/// cost, and counts each non-null pointer of the value in `lim`; a refusal leaves `lim` unchanged.
/// The copy's segment has room for at most one word more than the source message has, or for less
/// than twice as many words as the copy has.
pub fn make_heap_copy_at<S: ReaderSegments>(
    alloc: Global,
    arena: &ReaderArenaImpl<S>,
    place: PointerPlace,
    lim: &mut ReadLimiter,
) -> Result<BuilderArenaImpl<HeapAllocator>, ErrorKind>
    requires place { IsPlace (message (⟦<ReaderArenaImpl<S> as ReaderArena>⟧.segments arena.now))
        place.segment place.word }
    ensures exactly_where { (t : Tree) (c : ℕ)
        → Means (message (⟦<ReaderArenaImpl<S> as ReaderArena>⟧.segments arena.now))
        (levels arena.now.nesting_limit) place.segment place.word t c
        → HasNoCapabilities t → FitsIn lim.old.left c
        → 1 + word_count (trim t) ≤ max_segment_words
        → IfErr result (λ k. k ≡ AllocationFailed) }
    ensures exactly_what { IfOk result (λ made. (t : Tree) × (c : ℕ)
        × Means (message (⟦<ReaderArenaImpl<S> as ReaderArena>⟧.segments arena.now))
        (levels arena.now.nesting_limit) place.segment place.word t c
        × HasNoCapabilities t × Paid true lim.old lim.new c (pointers_in t)
        × ((⟦<BuilderArenaImpl<HeapAllocator> as BuilderArena>⟧.view made).words
        ≡ encoding (trim t) ∷ [])) }
    ensures asked { IfOk result (λ made. (t : Tree) (c : ℕ)
        → Means (message (⟦<ReaderArenaImpl<S> as ReaderArena>⟧.segments arena.now))
        (levels arena.now.nesting_limit) place.segment place.word t c
        → ((⟦<BuilderArenaImpl<HeapAllocator> as BuilderArena>⟧.view made).room 0 ≤ sum (map length
        (message (⟦<ReaderArenaImpl<S> as ReaderArena>⟧.segments arena.now))) + 1)
        ⊎ ((⟦<BuilderArenaImpl<HeapAllocator> as BuilderArena>⟧.view made).room 0
        < 2 * (1 + word_count (trim t)))) }
    ensures unread { OnErr result (lim.new ≡ lim.old) }
    ensures refused { let from = read_at
        (message (⟦<ReaderArenaImpl<S> as ReaderArena>⟧.segments arena.now))
        (levels arena.now.nesting_limit) place.segment place.word in
        IfErr result (λ k. (k ≡ AllocationFailed)
        ⊎ RefusesCopy (Ok (to_pointer from), lim.old) max_segment_words k) }
{
    let heap = HeapAllocator::new(alloc, 0);
    match canonicalize_pointer(alloc, heap, pointer_at(arena, place), lim) {
        Ok(made) => Ok(made),
        Err((kind, _)) => Err(kind),
    }
}
