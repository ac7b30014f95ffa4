//! Makes canonical copies of a part of a message: of the value to which a path leads; and measures
//! parts.
ghost use Rattle.std.specs.Prelude.{◌≡◌, ◌⊎◌, [], Ok, IfOk, IfErr, IsTrue};
ghost use Rattle.std.specs.Bool.{OnFalse, OnTrue};
ghost use Rattle.capnp_words.specs.Meter.{Meter};
ghost use Rattle.capnp_format.specs.Bytes.{message};
ghost use Rattle.capnp_format.specs.Tree.{Tree};
ghost use Rattle.capnp_arena_traits.specs.Allocations.{one_more};
ghost use Rattle.capnp_messages.specs.Copies.{HoldsCanonicalWords, LacksMemoryOr, NeedsMoreRoom};
ghost use Rattle.capnp_messages.specs.EndValues.{end_place};
ghost use Rattle.capnp_messages.specs.MessageParts.{IsPartOf, RefusesPart, part_size, part_within};
ghost use Rattle.capnp_messages.specs.Messages.{arena_limits};
ghost use Rattle.capnp_messages.specs.Parts.{PathEnd};
ghost use Rattle.capnp_messages.specs.Tries.{IsFirstTry, IsSegmentRoom, words_read};

use super::canonical_copy::{canonicalize_reached, canonicalize_reached_into};
use super::path::read_part;
use capnp_arena::arena::{
    Allocator, BuilderArena, BuilderArenaImpl, ReaderArena, ReaderArenaImpl, ReaderSegments,
};
use capnp_pointers::pointers::MessageSize;
use capnp_words::error::ErrorKind;
use capnp_words::read_limiter::ReadLimiter;
use std::alloc::Global;

/// Makes the canonical copy of a part of the message in `source`: of the value to which `path`
/// leads from the root pointer (encoding specification, "Canonicalization"). An element of a list of
/// structs is a struct. The copy is a message of one segment, whose memory `allocator` grants. If
/// refused, returns the allocator.
///
/// Follows `path` like `follow_path`, and reads the part, both within the nesting limit of `source`
/// and `traversal_limit_in_words`; the root pointer costs one word, and an element's own words were
/// charged with its list. The rest of the message isn't read. Refusals: the first one met while
/// reading; `NoSuchPlace` if `path` leads nowhere; `AllocationFailed`, which the allocator counts, if
/// memory ran out; `MessageTooLarge(536870911)` if there are more than 536,870,911 canonical words.
pub fn canonicalize_part<A: Allocator, S: ReaderSegments>(
    alloc: Global,
    allocator: A,
    source: &ReaderArenaImpl<S>,
    path: &[u32],
    traversal_limit_in_words: Option<usize>,
) -> Result<BuilderArenaImpl<A>, (ErrorKind, A)>
    ensures copied { IfOk result (λ made. (t : Tree) × IsPartOf
        (message (⟦<ReaderArenaImpl<S> as ReaderArena>⟧.segments source.now))
        (arena_limits source.now.nesting_limit traversal_limit_in_words) path.now t
        × HoldsCanonicalWords (⟦<BuilderArenaImpl<A> as BuilderArena>⟧.view made) t) }
    ensures tries { IfOk result (λ made. (e : PathEnd) × (m : Meter) × (part_within
        (message (⟦<ReaderArenaImpl<S> as ReaderArena>⟧.segments source.now))
        (arena_limits source.now.nesting_limit traversal_limit_in_words) path.now ≡ (Ok e, m))
        × IsFirstTry (words_read (end_place e)) (A.offers allocator) (A.refusals allocator)
        (⟦<BuilderArenaImpl<A> as BuilderArena>⟧.view made)) }
    ensures refused { IfErr result
        (λ e. LacksMemoryOr (A.refusals allocator) (A.refusals e.1) e.0 (RefusesPart
        (message (⟦<ReaderArenaImpl<S> as ReaderArena>⟧.segments source.now))
        (arena_limits source.now.nesting_limit traversal_limit_in_words) path.now e.0)) }
{
    let mut lim = ReadLimiter::new(traversal_limit_in_words);
    match read_part(source, path, &mut lim) {
        Ok(part) => canonicalize_reached(alloc, allocator, part, &mut lim),
        Err(kind) => Err((kind, allocator)),
    }
}

/// Makes the canonical copy of a part of the message in `source`, within the limits of
/// `canonicalize_part`. The copy becomes the one segment of `made`, for which this call requests
/// `room` words. Returns `true`; or `false` if the copy doesn't fit the segment, or there is no
/// memory for the segment.
///
/// Preconditions: `made` has no segment yet; `room` is from 1 to 536,870,911. Refuses with the
/// first refusal met while reading, or with `NoSuchPlace` if `path` leads nowhere.
pub fn canonicalize_part_into<A: Allocator, S: ReaderSegments>(
    made: &mut BuilderArenaImpl<A>,
    room: u32,
    source: &ReaderArenaImpl<S>,
    path: &[u32],
    traversal_limit_in_words: Option<usize>,
) -> Result<bool, ErrorKind>
    requires none { ⟦<BuilderArenaImpl<A> as ReaderArena>⟧.segments made.old ≡ [] }
    requires room { IsSegmentRoom room }
    ensures copied { IfOk result (λ fits. OnTrue fits ((t : Tree) × IsPartOf
        (message (⟦<ReaderArenaImpl<S> as ReaderArena>⟧.segments source.now))
        (arena_limits source.now.nesting_limit traversal_limit_in_words) path.now t
        × HoldsCanonicalWords (⟦<BuilderArenaImpl<A> as BuilderArena>⟧.view made.new) t)) }
    ensures asked { IfOk result (λ fits. OnTrue fits (IsTrue
        ((⟦<BuilderArenaImpl<A> as BuilderArena>⟧.view made.old).offers room
        ((⟦<BuilderArenaImpl<A> as BuilderArena>⟧.view made.new).room 0)))) }
    ensures small { IfOk result (λ fits. OnFalse fits (((e : PathEnd) × (m : Meter) × (part_within
        (message (⟦<ReaderArenaImpl<S> as ReaderArena>⟧.segments source.now))
        (arena_limits source.now.nesting_limit traversal_limit_in_words) path.now ≡ (Ok e, m))
        × NeedsMoreRoom e room)
        ⊎ ((⟦<BuilderArenaImpl<A> as BuilderArena>⟧.view made.new).refusals
        ≡ one_more (⟦<BuilderArenaImpl<A> as BuilderArena>⟧.view made.old).refusals))) }
    ensures sure { IsTrue A.first_in_arena → IsTrue (A.grants made.old.allocator room)
        → IfOk result (λ fits. OnFalse fits ((e : PathEnd) × (m : Meter) × (part_within
        (message (⟦<ReaderArenaImpl<S> as ReaderArena>⟧.segments source.now))
        (arena_limits source.now.nesting_limit traversal_limit_in_words) path.now ≡ (Ok e, m))
        × NeedsMoreRoom e room)) }
    ensures refused { IfErr result (RefusesPart
        (message (⟦<ReaderArenaImpl<S> as ReaderArena>⟧.segments source.now))
        (arena_limits source.now.nesting_limit traversal_limit_in_words) path.now) }
{
    let mut lim = ReadLimiter::new(traversal_limit_in_words);
    let part = read_part(source, path, &mut lim)?;
    canonicalize_reached_into(made, part, lim.left(), room)
}

/// Counts the words and capabilities of the value to which `path` leads from the root pointer of
/// the message in `source`, without landing pads (encoding specification, "Structs" and "Lists"). An
/// element of a list of structs has the words of its sections. Takes no memory. Reads within the
/// nesting limit of `source` and `traversal_limit_in_words`. Refuses like `follow_path`, and
/// otherwise like `Pointer::total_size`.
pub fn size_of_part<S: ReaderSegments>(
    source: &ReaderArenaImpl<S>,
    path: &[u32],
    traversal_limit_in_words: Option<usize>,
) -> Result<MessageSize, ErrorKind>
    ensures { part_size
        (message (⟦<ReaderArenaImpl<S> as ReaderArena>⟧.segments source.now))
        (arena_limits source.now.nesting_limit traversal_limit_in_words) path.now ≡ result }
{
    let mut lim = ReadLimiter::new(traversal_limit_in_words);
    let part = read_part(source, path, &mut lim)?;
    part.total_size(&mut lim)
}
