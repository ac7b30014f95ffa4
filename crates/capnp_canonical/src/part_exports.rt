//! The functions for C that work on a part of a message: on the value to which a path leads.
ghost use Rattle.std.specs.Prelude.{◌≡◌, ◌≢◌, ◌⊎◌, ◌≤◌, ◌+◌, ◌*◌, ℕ, length, replicate, take, drop};
ghost use Rattle.capnp_messages.specs.MessageParts.{IsDigestOfPart};
ghost use Rattle.capnp_messages.specs.SmallCopies.{PartNeedsNoHeap};
ghost use Rattle.capnp_canonical.specs.Calls.{FillsByNumber, InFrame, InSegments, InWords, IsGranted, IsNumberWhere, RefusesBytes, RefusesSegment, RefusesSegments, limits_of};
ghost use Rattle.capnp_canonical.specs.Parts.{HasPart, HasPartSize, HasPartSizeWithin, IsCopyOfPart, RefusesPartOf, RefusesPartRoom, RefusesPartSize};
ghost use Rattle.capnp_canonical.specs.Numbers.{wanted_room};

use crate::calls::Limits;
use crate::digests::{
    digest_frame_part_after, digest_segments_part_after, digest_words_part_after,
};
use crate::parts::{
    copy_frame_part, copy_segments_part, copy_words_part, size_frame_part, size_segments_part,
    size_words_part,
};
use crate::storing::{store, store_size, store_written};
use std::alloc::Global;

/// Makes the canonical copy of a part of the message whose frame is at the front of `frame`: of the
/// value to which `path` leads. Writes the canonical words to the front of `to`, without a frame,
/// and stores the number of bytes written in `written`. `nesting` and `words` are the limits of
/// `capnp_canonical_check`. The rest of the message isn't read.
///
/// `path` is a list of indexes. From the root pointer on, an index leads from a struct to one of
/// its pointers; from a list of pointers, to an element; from a list of structs, to an element,
/// which is a struct too. Refuses with `NoSuchPlace` if an index leads nowhere.
///
/// If `to` is too small, stores the number of bytes needed in `written`; for any other refusal, 0.
/// The bytes of `to` after the copy are unchanged. If the call is refused, all bytes of `to` are
/// unchanged.
#[unsafe(no_mangle)]
pub extern "C" fn capnp_canonical_copy_flat_at(
    alloc: Global,
    frame: &[u8],
    path: &[u32],
    nesting: i32,
    words: u64,
    to: &mut [u8],
    written: &mut usize,
) -> u32
    ensures done { FillsByNumber result written.new to.old to.new (λ bytes. InFrame frame.now words
        (λ S. IsCopyOfPart (limits_of nesting words) path.now S bytes)) }
    ensures refused { result ≢ 0 → IsNumberWhere result (λ r. (written.new ≡ wanted_room r)
        × (RefusesBytes frame.now words r ⊎ InFrame frame.now words
        (λ S. RefusesPartRoom (limits_of nesting words) path.now (length to.old) S r))) }
    ensures granted { InFrame frame.now words (HasPart (limits_of nesting words) path.now)
        → IsGranted result }
    ensures enough { (n caps : ℕ) → InFrame frame.now words
        (λ S. HasPartSize (limits_of nesting words) path.now S n caps)
        → 8 + 8 * n ≤ length to.old → result ≢ 1 }
    ensures lent { InFrame frame.now words (PartNeedsNoHeap (limits_of nesting words) path.now)
        → (result ≡ 0) ⊎ (result ≡ 1) }
{
    let copied = copy_frame_part(alloc, frame, path, Limits { nesting, words }, to);
    store_written(copied, written)
}

/// Stores in `digest` the SHA-256 of the bytes that `capnp_canonical_copy_flat_at` writes. After a
/// refusal `digest` is all 0. The refusals are those of `capnp_canonical_copy_flat_at`, except that
/// there is always room.
#[unsafe(no_mangle)]
pub extern "C" fn capnp_canonical_digest_at(
    alloc: Global,
    frame: &[u8],
    path: &[u32],
    nesting: i32,
    words: u64,
    digest: &mut [u8; 32],
) -> u32
    ensures done { result ≡ 0 → InFrame frame.now words
        (λ S. IsDigestOfPart S (limits_of nesting words) path.now digest.new) }
    ensures refused { result ≢ 0 → IsNumberWhere result (λ r. RefusesBytes frame.now words r
        ⊎ InFrame frame.now words (λ S. RefusesPartOf (limits_of nesting words) path.now S r)) }
    ensures none { result ≢ 0 → digest.new ≡ replicate 32 0 }
    ensures granted { InFrame frame.now words (HasPart (limits_of nesting words) path.now)
        → (result ≡ 0) ⊎ (result ≡ 32) }
    ensures lent { InFrame frame.now words (PartNeedsNoHeap (limits_of nesting words) path.now)
        → result ≡ 0 }
{
    let made = digest_frame_part_after(alloc, &[], frame, path, Limits { nesting, words });
    store(made, [0; 32], digest)
}

/// Counts the words and capabilities of the part of the message to which `path` leads, without
/// landing pads. Follows `path` like `capnp_canonical_copy_flat_at`. Stores the numbers in
/// `word_count` and `cap_count`; after a refusal both are 0.
#[unsafe(no_mangle)]
pub extern "C" fn capnp_canonical_size_at(
    frame: &[u8],
    path: &[u32],
    nesting: i32,
    words: u64,
    word_count: &mut u64,
    cap_count: &mut u32,
) -> u32
    ensures done { result ≡ 0 → InFrame frame.now words (λ S.
        HasPartSize (limits_of nesting words) path.now S word_count.new cap_count.new) }
    ensures refused { result ≢ 0 → IsNumberWhere result (λ r. RefusesBytes frame.now words r
        ⊎ InFrame frame.now words (λ S. RefusesPartSize (limits_of nesting words) path.now S r)) }
    ensures none { result ≢ 0 → (word_count.new ≡ 0) × (cap_count.new ≡ 0) }
    ensures granted { InFrame frame.now words (HasPartSizeWithin (limits_of nesting words) path.now)
        → result ≡ 0 }
{
    let size = size_frame_part(frame, path, Limits { nesting, words });
    store_size(size, word_count, cap_count)
}

/// Like `capnp_canonical_copy_flat_at`, for a message that the caller passes as `segments`, without
/// a frame.
#[unsafe(no_mangle)]
pub extern "C" fn capnp_canonical_segments_copy_flat_at(
    alloc: Global,
    segments: &[&[u8]],
    path: &[u32],
    nesting: i32,
    words: u64,
    to: &mut [u8],
    written: &mut usize,
) -> u32
    ensures done { FillsByNumber result written.new to.old to.new (λ bytes. InSegments segments.now
        (λ S. IsCopyOfPart (limits_of nesting words) path.now S bytes)) }
    ensures refused { result ≢ 0 → IsNumberWhere result (λ r. (written.new ≡ wanted_room r)
        × (RefusesSegments segments.now r ⊎ InSegments segments.now
        (λ S. RefusesPartRoom (limits_of nesting words) path.now (length to.old) S r))) }
    ensures granted { InSegments segments.now (HasPart (limits_of nesting words) path.now)
        → IsGranted result }
    ensures lent { InSegments segments.now (PartNeedsNoHeap (limits_of nesting words) path.now)
        → (result ≡ 0) ⊎ (result ≡ 1) }
{
    let copied = copy_segments_part(alloc, segments, path, Limits { nesting, words }, to);
    store_written(copied, written)
}

/// Like `capnp_canonical_digest_at`, for a message that the caller passes as `segments`, without a
/// frame.
#[unsafe(no_mangle)]
pub extern "C" fn capnp_canonical_segments_digest_at(
    alloc: Global,
    segments: &[&[u8]],
    path: &[u32],
    nesting: i32,
    words: u64,
    digest: &mut [u8; 32],
) -> u32
    ensures done { result ≡ 0 → InSegments segments.now
        (λ S. IsDigestOfPart S (limits_of nesting words) path.now digest.new) }
    ensures refused { result ≢ 0 → IsNumberWhere result (λ r. RefusesSegments segments.now r
        ⊎ InSegments segments.now (λ S. RefusesPartOf (limits_of nesting words) path.now S r)) }
    ensures none { result ≢ 0 → digest.new ≡ replicate 32 0 }
    ensures granted { InSegments segments.now (HasPart (limits_of nesting words) path.now)
        → (result ≡ 0) ⊎ (result ≡ 32) }
    ensures lent { InSegments segments.now (PartNeedsNoHeap (limits_of nesting words) path.now)
        → result ≡ 0 }
{
    let made = digest_segments_part_after(alloc, &[], segments, path, Limits { nesting, words });
    store(made, [0; 32], digest)
}

/// Like `capnp_canonical_size_at`, for a message that the caller passes as `segments`, without a
/// frame.
#[unsafe(no_mangle)]
pub extern "C" fn capnp_canonical_segments_size_at(
    segments: &[&[u8]],
    path: &[u32],
    nesting: i32,
    words: u64,
    word_count: &mut u64,
    cap_count: &mut u32,
) -> u32
    ensures done { result ≡ 0 → InSegments segments.now (λ S.
        HasPartSize (limits_of nesting words) path.now S word_count.new cap_count.new) }
    ensures refused { result ≢ 0 → IsNumberWhere result (λ r. RefusesSegments segments.now r
        ⊎ InSegments segments.now (λ S. RefusesPartSize (limits_of nesting words) path.now S r)) }
    ensures none { result ≢ 0 → (word_count.new ≡ 0) × (cap_count.new ≡ 0) }
    ensures granted { InSegments segments.now (HasPartSizeWithin (limits_of nesting words) path.now)
        → result ≡ 0 }
{
    let size = size_segments_part(segments, path, Limits { nesting, words });
    store_size(size, word_count, cap_count)
}

/// Like `capnp_canonical_copy_flat_at`, for a message with one segment, whose words the caller
/// passes as `bytes`, without a frame.
#[unsafe(no_mangle)]
pub extern "C" fn capnp_canonical_words_copy_at(
    alloc: Global,
    bytes: &[u8],
    path: &[u32],
    nesting: i32,
    words: u64,
    to: &mut [u8],
    written: &mut usize,
) -> u32
    ensures done { FillsByNumber result written.new to.old to.new (λ copy. InWords bytes.now
        (λ S. IsCopyOfPart (limits_of nesting words) path.now S copy)) }
    ensures refused { result ≢ 0 → IsNumberWhere result (λ r. (written.new ≡ wanted_room r)
        × (RefusesSegment bytes.now r ⊎ InWords bytes.now
        (λ S. RefusesPartRoom (limits_of nesting words) path.now (length to.old) S r))) }
    ensures granted { InWords bytes.now (HasPart (limits_of nesting words) path.now)
        → IsGranted result }
    ensures lent { InWords bytes.now (PartNeedsNoHeap (limits_of nesting words) path.now)
        → (result ≡ 0) ⊎ (result ≡ 1) }
{
    let copied = copy_words_part(alloc, bytes, path, Limits { nesting, words }, to);
    store_written(copied, written)
}

/// Like `capnp_canonical_digest_at`, for a message with one segment, whose words the caller passes
/// as `bytes`, without a frame.
#[unsafe(no_mangle)]
pub extern "C" fn capnp_canonical_words_digest_at(
    alloc: Global,
    bytes: &[u8],
    path: &[u32],
    nesting: i32,
    words: u64,
    digest: &mut [u8; 32],
) -> u32
    ensures done { result ≡ 0 → InWords bytes.now
        (λ S. IsDigestOfPart S (limits_of nesting words) path.now digest.new) }
    ensures refused { result ≢ 0 → IsNumberWhere result (λ r. RefusesSegment bytes.now r
        ⊎ InWords bytes.now (λ S. RefusesPartOf (limits_of nesting words) path.now S r)) }
    ensures none { result ≢ 0 → digest.new ≡ replicate 32 0 }
    ensures granted { InWords bytes.now (HasPart (limits_of nesting words) path.now)
        → (result ≡ 0) ⊎ (result ≡ 32) }
    ensures lent { InWords bytes.now (PartNeedsNoHeap (limits_of nesting words) path.now)
        → result ≡ 0 }
{
    let made = digest_words_part_after(alloc, &[], bytes, path, Limits { nesting, words });
    store(made, [0; 32], digest)
}

/// Like `capnp_canonical_size_at`, for a message with one segment, whose words the caller passes as
/// `bytes`, without a frame.
#[unsafe(no_mangle)]
pub extern "C" fn capnp_canonical_words_size_at(
    bytes: &[u8],
    path: &[u32],
    nesting: i32,
    words: u64,
    word_count: &mut u64,
    cap_count: &mut u32,
) -> u32
    ensures done { result ≡ 0 → InWords bytes.now (λ S.
        HasPartSize (limits_of nesting words) path.now S word_count.new cap_count.new) }
    ensures refused { result ≢ 0 → IsNumberWhere result (λ r. RefusesSegment bytes.now r
        ⊎ InWords bytes.now (λ S. RefusesPartSize (limits_of nesting words) path.now S r)) }
    ensures none { result ≢ 0 → (word_count.new ≡ 0) × (cap_count.new ≡ 0) }
    ensures granted { InWords bytes.now (HasPartSizeWithin (limits_of nesting words) path.now)
        → result ≡ 0 }
{
    let size = size_words_part(bytes, path, Limits { nesting, words });
    store_size(size, word_count, cap_count)
}
