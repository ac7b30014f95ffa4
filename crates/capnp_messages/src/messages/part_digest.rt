//! The SHA-256 of the canonical words of a part of a message, which names the part's value.
ghost use Rattle.std.specs.Prelude.{◌≡◌, IsOk, IfOk, IfErr, OnOk};
ghost use Rattle.capnp_format.specs.Bytes.{message};
ghost use Rattle.capnp_messages.specs.Copies.{LacksMemoryOr};
ghost use Rattle.capnp_messages.specs.MessageParts.{IsDigestOfPart, RefusesPart};
ghost use Rattle.capnp_messages.specs.Messages.{arena_limits};
ghost use Rattle.capnp_messages.specs.SmallCopies.{PartNeedsNoHeap};

use super::lent_memory::LentMemory;
use super::part::{canonicalize_part, canonicalize_part_into};
use super::writing::canonical_bytes;
use capnp_arena::arena::{
    Allocator, BuilderArenaImpl, ReaderArena, ReaderArenaImpl, ReaderSegments,
};
use capnp_words::error::ErrorKind;
use sha2::{Digest, Sha256};
use std::alloc::Global;

/// The size in bytes of the stack memory into which a small part is copied.
const SMALL: usize = 512;

/// Like `digest_of_part`, but always makes the copy with memory from `allocator`.
#[inline(never)]
fn digest_of_part_copy<A: Allocator, S: ReaderSegments>(
    alloc: Global,
    allocator: A,
    source: &ReaderArenaImpl<S>,
    path: &[u32],
    traversal_limit_in_words: Option<usize>,
) -> (Result<[u8; 32], ErrorKind>, A)
    ensures digest { IfOk result.0 (IsDigestOfPart
        (message (⟦<ReaderArenaImpl<S> as ReaderArena>⟧.segments source.now))
        (arena_limits source.now.nesting_limit traversal_limit_in_words) path.now) }
    ensures refused { IfErr result.0
        (λ k. LacksMemoryOr (A.refusals allocator) (A.refusals result.1) k (RefusesPart
        (message (⟦<ReaderArenaImpl<S> as ReaderArena>⟧.segments source.now))
        (arena_limits source.now.nesting_limit traversal_limit_in_words) path.now k)) }
    ensures kept { OnOk result.0 (A.refusals result.1 ≡ A.refusals allocator) }
{
    match canonicalize_part(alloc, allocator, source, path, traversal_limit_in_words) {
        Ok(made) => {
            let digest = Sha256::digest(canonical_bytes(&made));
            (Ok(digest), made.into_allocator())
        }
        Err((kind, allocator)) => (Err(kind), allocator),
    }
}

/// Returns the SHA-256 of the canonical words of the part of the message in `source` to which
/// `path` leads, and the allocator. Equal values have the same digest, in any message and at the
/// end of any path.
///
/// Reads within the nesting limit of `source` and `traversal_limit_in_words`. Refuses what
/// `canonicalize_part` refuses. The words are made in stack memory if there are at
/// most 64. Otherwise the copy takes memory from `allocator`, and returns it.
pub fn digest_of_part<A: Allocator, S: ReaderSegments>(
    alloc: Global,
    allocator: A,
    source: &ReaderArenaImpl<S>,
    path: &[u32],
    traversal_limit_in_words: Option<usize>,
) -> (Result<[u8; 32], ErrorKind>, A)
    ensures digest { IfOk result.0 (IsDigestOfPart
        (message (⟦<ReaderArenaImpl<S> as ReaderArena>⟧.segments source.now))
        (arena_limits source.now.nesting_limit traversal_limit_in_words) path.now) }
    ensures refused { IfErr result.0
        (λ k. LacksMemoryOr (A.refusals allocator) (A.refusals result.1) k (RefusesPart
        (message (⟦<ReaderArenaImpl<S> as ReaderArena>⟧.segments source.now))
        (arena_limits source.now.nesting_limit traversal_limit_in_words) path.now k)) }
    ensures kept { OnOk result.0 (A.refusals result.1 ≡ A.refusals allocator) }
    ensures lent { PartNeedsNoHeap
        (arena_limits source.now.nesting_limit traversal_limit_in_words) path.now
        (message (⟦<ReaderArenaImpl<S> as ReaderArena>⟧.segments source.now)) → IsOk result.0 }
{
    let mut memory = [0u8; SMALL];
    let mut made = BuilderArenaImpl::new(alloc, LentMemory::new(memory.as_mut_slice()));
    let room = SMALL as u32 / 8;
    match canonicalize_part_into(&mut made, room, source, path, traversal_limit_in_words) {
        Ok(fits) => {
            if fits {
                (Ok(Sha256::digest(canonical_bytes(&made))), allocator)
            } else {
                digest_of_part_copy(alloc, allocator, source, path, traversal_limit_in_words)
            }
        }
        Err(kind) => (Err(kind), allocator),
    }
}
