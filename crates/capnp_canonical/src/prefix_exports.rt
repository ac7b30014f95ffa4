//! The functions for C that hash the canonical words of a message, or of a part of one, after a
//! prefix.
ghost use Rattle.std.specs.Prelude.{◌≡◌, ◌≢◌, ◌⊎◌, ℕ, replicate};
ghost use Rattle.capnp_messages.specs.Commands.{HasAnswerWithin};
ghost use Rattle.capnp_messages.specs.declared.messages.command.Command.{Command};
ghost use Rattle.capnp_messages.specs.declared.messages.command.Form.{Form};
ghost use Rattle.capnp_messages.specs.SmallCopies.{NeedsNoHeap, PartNeedsNoHeap};
ghost use Rattle.capnp_canonical.specs.Calls.{InFrame, InSegments, InWords, IsNumberWhere, RefusesBytes, RefusesMeaning, RefusesSegment, RefusesSegments, limits_of};
ghost use Rattle.capnp_canonical.specs.Parts.{HasPart, RefusesPartOf};
ghost use Rattle.capnp_canonical.specs.Taking.{IsDigestAfter, IsPartDigestAfter};

use crate::calls::Limits;
use crate::digests::{
    digest_frame_after, digest_frame_part_after, digest_segments_after, digest_segments_part_after,
    digest_words_after, digest_words_part_after,
};
use crate::storing::store;
use std::alloc::Global;

/// Stores in `digest` the SHA-256 of the bytes of `prefix` and then the canonical words of the
/// message whose frame is at the front of `frame`: the bytes that `capnp_canonical_copy_flat`
/// writes. `nesting` and `words` limit the reading, as in `capnp_canonical_check`. After a refusal
/// `digest` is all 0. The refusals are those of `capnp_canonical_digest`.
#[unsafe(no_mangle)]
pub extern "C" fn capnp_canonical_digest_with(
    alloc: Global,
    prefix: &[u8],
    frame: &[u8],
    nesting: i32,
    words: u64,
    digest: &mut [u8; 32],
) -> u32
    ensures done { result ≡ 0 → InFrame frame.now words
        (IsDigestAfter prefix.now (limits_of nesting words) digest.new) }
    ensures refused { result ≢ 0 → IsNumberWhere result (λ r. RefusesBytes frame.now words r
        ⊎ InFrame frame.now words
        (λ S. RefusesMeaning (Command.Canon Form.Flat) (limits_of nesting words) S r)) }
    ensures none { result ≢ 0 → digest.new ≡ replicate 32 0 }
    ensures granted { InFrame frame.now words (HasAnswerWithin (Command.Canon Form.Flat)
        (limits_of nesting words))
        → (result ≡ 0) ⊎ (result ≡ 32) }
    ensures lent { InFrame frame.now words (NeedsNoHeap (limits_of nesting words)) → result ≡ 0 }
{
    let made = digest_frame_after(alloc, prefix, frame, Limits { nesting, words });
    store(made, [0; 32], digest)
}

/// Like `capnp_canonical_digest_with`, for the message in `segments`.
#[unsafe(no_mangle)]
pub extern "C" fn capnp_canonical_segments_digest_with(
    alloc: Global,
    prefix: &[u8],
    segments: &[&[u8]],
    nesting: i32,
    words: u64,
    digest: &mut [u8; 32],
) -> u32
    ensures done { result ≡ 0 → InSegments segments.now
        (IsDigestAfter prefix.now (limits_of nesting words) digest.new) }
    ensures refused { result ≢ 0 → IsNumberWhere result (λ r. RefusesSegments segments.now r
        ⊎ InSegments segments.now
        (λ S. RefusesMeaning (Command.Canon Form.Flat) (limits_of nesting words) S r)) }
    ensures none { result ≢ 0 → digest.new ≡ replicate 32 0 }
    ensures granted { InSegments segments.now (HasAnswerWithin (Command.Canon Form.Flat)
        (limits_of nesting words))
        → (result ≡ 0) ⊎ (result ≡ 32) }
    ensures lent { InSegments segments.now (NeedsNoHeap (limits_of nesting words)) → result ≡ 0 }
{
    let made = digest_segments_after(alloc, prefix, segments, Limits { nesting, words });
    store(made, [0; 32], digest)
}

/// Like `capnp_canonical_digest_with`, for a message with one segment, whose words the caller
/// passes as `bytes`, without a frame.
#[unsafe(no_mangle)]
pub extern "C" fn capnp_canonical_words_digest_with(
    alloc: Global,
    prefix: &[u8],
    bytes: &[u8],
    nesting: i32,
    words: u64,
    digest: &mut [u8; 32],
) -> u32
    ensures done { result ≡ 0 → InWords bytes.now
        (IsDigestAfter prefix.now (limits_of nesting words) digest.new) }
    ensures refused { result ≢ 0 → IsNumberWhere result (λ r. RefusesSegment bytes.now r
        ⊎ InWords bytes.now
        (λ S. RefusesMeaning (Command.Canon Form.Flat) (limits_of nesting words) S r)) }
    ensures none { result ≢ 0 → digest.new ≡ replicate 32 0 }
    ensures granted { InWords bytes.now (HasAnswerWithin (Command.Canon Form.Flat)
        (limits_of nesting words))
        → (result ≡ 0) ⊎ (result ≡ 32) }
    ensures lent { InWords bytes.now (NeedsNoHeap (limits_of nesting words)) → result ≡ 0 }
{
    let made = digest_words_after(alloc, prefix, bytes, Limits { nesting, words });
    store(made, [0; 32], digest)
}

/// Like `capnp_canonical_digest_with`, for the part of the message to which `path` leads: the
/// SHA-256 of `prefix` and then the bytes that `capnp_canonical_copy_flat_at` writes.
#[unsafe(no_mangle)]
pub extern "C" fn capnp_canonical_digest_with_at(
    alloc: Global,
    prefix: &[u8],
    frame: &[u8],
    path: &[u32],
    nesting: i32,
    words: u64,
    digest: &mut [u8; 32],
) -> u32
    ensures done { result ≡ 0 → InFrame frame.now words
        (IsPartDigestAfter prefix.now (limits_of nesting words) path.now digest.new) }
    ensures refused { result ≢ 0 → IsNumberWhere result (λ r. RefusesBytes frame.now words r
        ⊎ InFrame frame.now words (λ S. RefusesPartOf (limits_of nesting words) path.now S r)) }
    ensures none { result ≢ 0 → digest.new ≡ replicate 32 0 }
    ensures granted { InFrame frame.now words (HasPart (limits_of nesting words) path.now)
        → (result ≡ 0) ⊎ (result ≡ 32) }
    ensures lent { InFrame frame.now words (PartNeedsNoHeap (limits_of nesting words) path.now)
        → result ≡ 0 }
{
    let made = digest_frame_part_after(alloc, prefix, frame, path, Limits { nesting, words });
    store(made, [0; 32], digest)
}

/// Like `capnp_canonical_digest_with_at`, for the message in `segments`.
#[unsafe(no_mangle)]
pub extern "C" fn capnp_canonical_segments_digest_with_at(
    alloc: Global,
    prefix: &[u8],
    segments: &[&[u8]],
    path: &[u32],
    nesting: i32,
    words: u64,
    digest: &mut [u8; 32],
) -> u32
    ensures done { result ≡ 0 → InSegments segments.now
        (IsPartDigestAfter prefix.now (limits_of nesting words) path.now digest.new) }
    ensures refused { result ≢ 0 → IsNumberWhere result (λ r. RefusesSegments segments.now r
        ⊎ InSegments segments.now (λ S. RefusesPartOf (limits_of nesting words) path.now S r)) }
    ensures none { result ≢ 0 → digest.new ≡ replicate 32 0 }
    ensures granted { InSegments segments.now (HasPart (limits_of nesting words) path.now)
        → (result ≡ 0) ⊎ (result ≡ 32) }
    ensures lent { InSegments segments.now (PartNeedsNoHeap (limits_of nesting words) path.now)
        → result ≡ 0 }
{
    let made = digest_segments_part_after(alloc, prefix, segments, path, Limits { nesting, words });
    store(made, [0; 32], digest)
}

/// Like `capnp_canonical_digest_with_at`, for a message with one segment, whose words the caller
/// passes as `bytes`, without a frame.
#[unsafe(no_mangle)]
pub extern "C" fn capnp_canonical_words_digest_with_at(
    alloc: Global,
    prefix: &[u8],
    bytes: &[u8],
    path: &[u32],
    nesting: i32,
    words: u64,
    digest: &mut [u8; 32],
) -> u32
    ensures done { result ≡ 0 → InWords bytes.now
        (IsPartDigestAfter prefix.now (limits_of nesting words) path.now digest.new) }
    ensures refused { result ≢ 0 → IsNumberWhere result (λ r. RefusesSegment bytes.now r
        ⊎ InWords bytes.now (λ S. RefusesPartOf (limits_of nesting words) path.now S r)) }
    ensures none { result ≢ 0 → digest.new ≡ replicate 32 0 }
    ensures granted { InWords bytes.now (HasPart (limits_of nesting words) path.now)
        → (result ≡ 0) ⊎ (result ≡ 32) }
    ensures lent { InWords bytes.now (PartNeedsNoHeap (limits_of nesting words) path.now)
        → result ≡ 0 }
{
    let made = digest_words_part_after(alloc, prefix, bytes, path, Limits { nesting, words });
    store(made, [0; 32], digest)
}
