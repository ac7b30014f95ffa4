//! The SHA-256 of a message's canonical words, which names the message's value.
ghost use Rattle.std.specs.Prelude.{◌≡◌, IsOk, IfOk, IfErr, OnOk};
ghost use Rattle.capnp_format.specs.Bytes.{message};
ghost use Rattle.capnp_messages.specs.Copies.{LacksMemoryOr};
ghost use Rattle.capnp_messages.specs.Digests.{IsDigestOf};
ghost use Rattle.capnp_messages.specs.Messages.{RefusesCanon, arena_limits};
ghost use Rattle.capnp_messages.specs.SmallCopies.{NeedsNoHeap};

use super::already_canonical::canonical_segment;
use super::lent_memory::LentMemory;
use super::whole::{canonicalize, canonicalize_into};
use super::writing::canonical_bytes;
use capnp_arena::arena::{
    Allocator, BuilderArenaImpl, ReaderArena, ReaderArenaImpl, ReaderSegments,
};
use capnp_words::error::ErrorKind;
use sha2::{Digest, Sha256};
use std::alloc::Global;

/// The size in bytes of the stack memory into which a small message is copied.
const SMALL: usize = 512;

/// Like `digest`, but always makes the copy with memory from `allocator`.
#[inline(never)]
fn digest_of_copy<A: Allocator, S: ReaderSegments>(
    alloc: Global,
    allocator: A,
    source: &ReaderArenaImpl<S>,
    traversal_limit_in_words: Option<usize>,
) -> (Result<[u8; 32], ErrorKind>, A)
    ensures digest { IfOk result.0 (IsDigestOf
        (message (⟦<ReaderArenaImpl<S> as ReaderArena>⟧.segments source.now))
        (arena_limits source.now.nesting_limit traversal_limit_in_words)) }
    ensures refused { IfErr result.0
        (λ k. LacksMemoryOr (A.refusals allocator) (A.refusals result.1) k (RefusesCanon
        (message (⟦<ReaderArenaImpl<S> as ReaderArena>⟧.segments source.now))
        (arena_limits source.now.nesting_limit traversal_limit_in_words) k)) }
    ensures kept { OnOk result.0 (A.refusals result.1 ≡ A.refusals allocator) }
{
    match canonicalize(alloc, allocator, source, traversal_limit_in_words) {
        Ok(made) => {
            let digest = Sha256::digest(canonical_bytes(&made));
            (Ok(digest), made.into_allocator())
        }
        Err((kind, allocator)) => (Err(kind), allocator),
    }
}

/// Like `digest`, but makes the copy in `SMALL` bytes of stack memory if it fits there.
fn digest_of_small<A: Allocator, S: ReaderSegments>(
    alloc: Global,
    allocator: A,
    source: &ReaderArenaImpl<S>,
    traversal_limit_in_words: Option<usize>,
) -> (Result<[u8; 32], ErrorKind>, A)
    ensures digest { IfOk result.0 (IsDigestOf
        (message (⟦<ReaderArenaImpl<S> as ReaderArena>⟧.segments source.now))
        (arena_limits source.now.nesting_limit traversal_limit_in_words)) }
    ensures refused { IfErr result.0
        (λ k. LacksMemoryOr (A.refusals allocator) (A.refusals result.1) k (RefusesCanon
        (message (⟦<ReaderArenaImpl<S> as ReaderArena>⟧.segments source.now))
        (arena_limits source.now.nesting_limit traversal_limit_in_words) k)) }
    ensures kept { OnOk result.0 (A.refusals result.1 ≡ A.refusals allocator) }
    ensures lent { NeedsNoHeap
        (arena_limits source.now.nesting_limit traversal_limit_in_words)
        (message (⟦<ReaderArenaImpl<S> as ReaderArena>⟧.segments source.now)) → IsOk result.0 }
{
    let mut memory = [0u8; SMALL];
    let mut made = BuilderArenaImpl::new(alloc, LentMemory::new(memory.as_mut_slice()));
    let room = SMALL as u32 / 8;
    match canonicalize_into(&mut made, room, source, traversal_limit_in_words) {
        Ok(fits) => {
            if fits {
                (Ok(Sha256::digest(canonical_bytes(&made))), allocator)
            } else {
                digest_of_copy(alloc, allocator, source, traversal_limit_in_words)
            }
        }
        Err(kind) => (Err(kind), allocator),
    }
}

/// Like `digest`, but if the message is canonical already, hashes its own segment instead of a
/// copy.
fn digest_of_large<A: Allocator, S: ReaderSegments>(
    alloc: Global,
    allocator: A,
    source: &ReaderArenaImpl<S>,
    traversal_limit_in_words: Option<usize>,
) -> (Result<[u8; 32], ErrorKind>, A)
    ensures digest { IfOk result.0 (IsDigestOf
        (message (⟦<ReaderArenaImpl<S> as ReaderArena>⟧.segments source.now))
        (arena_limits source.now.nesting_limit traversal_limit_in_words)) }
    ensures refused { IfErr result.0
        (λ k. LacksMemoryOr (A.refusals allocator) (A.refusals result.1) k (RefusesCanon
        (message (⟦<ReaderArenaImpl<S> as ReaderArena>⟧.segments source.now))
        (arena_limits source.now.nesting_limit traversal_limit_in_words) k)) }
    ensures kept { OnOk result.0 (A.refusals result.1 ≡ A.refusals allocator) }
{
    match canonical_segment(source, traversal_limit_in_words) {
        Some(words) => (Ok(Sha256::digest(words)), allocator),
        None => digest_of_copy(alloc, allocator, source, traversal_limit_in_words),
    }
}

/// Returns the SHA-256 of the canonical words of the message in `source` (encoding specification,
/// "Canonicalization"), and the allocator. Equal values have the same digest, whatever the layout of
/// their messages.
///
/// Reads within the nesting limit of `source` and `traversal_limit_in_words`. Refuses what
/// `canonicalize` refuses. The words of a message of fewer than 64 words are made in stack memory if
/// they fit there. A message of 64 words or more that is canonical already and has at most
/// 536,870,911 words isn't copied. Any other copy takes memory from `allocator`, and returns it.
pub fn digest<A: Allocator, S: ReaderSegments>(
    alloc: Global,
    allocator: A,
    source: &ReaderArenaImpl<S>,
    traversal_limit_in_words: Option<usize>,
) -> (Result<[u8; 32], ErrorKind>, A)
    ensures digest { IfOk result.0 (IsDigestOf
        (message (⟦<ReaderArenaImpl<S> as ReaderArena>⟧.segments source.now))
        (arena_limits source.now.nesting_limit traversal_limit_in_words)) }
    ensures refused { IfErr result.0
        (λ k. LacksMemoryOr (A.refusals allocator) (A.refusals result.1) k (RefusesCanon
        (message (⟦<ReaderArenaImpl<S> as ReaderArena>⟧.segments source.now))
        (arena_limits source.now.nesting_limit traversal_limit_in_words) k)) }
    ensures kept { OnOk result.0 (A.refusals result.1 ≡ A.refusals allocator) }
    ensures lent { NeedsNoHeap
        (arena_limits source.now.nesting_limit traversal_limit_in_words)
        (message (⟦<ReaderArenaImpl<S> as ReaderArena>⟧.segments source.now)) → IsOk result.0 }
{
    if source.size_in_words() < SMALL / 8 {
        digest_of_small(alloc, allocator, source, traversal_limit_in_words)
    } else {
        digest_of_large(alloc, allocator, source, traversal_limit_in_words)
    }
}
