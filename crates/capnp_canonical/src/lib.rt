//! Canonical form (encoding specification, "Canonicalization") for C, and for languages that call
//! C. Copies, tests, measures and hashes a message that is given as a frame in a buffer, as
//! segments, or as the words of its only segment. Also unpacks packed bytes. Keeps no state between
//! calls.
//!
//! `bindings/c/capnp_canonical.h` says how to call each function. A function returns 0 if it
//! succeeded, otherwise the number of a refusal. The functions for names, texts and versions are
//! never refused; they return a length or the version.
#![tactic(auto)]

ghost use Rattle.std.specs.Prelude.{◌≡◌, ◌≢◌, ◌⊎◌, ◌≤◌, ⊤, ◌+◌, ◌*◌, ◌%◌, ◌++◌, ℕ, List, IsTrue, Ok, codes, false, length, replicate, take, drop};
ghost use Rattle.capnp_format.specs.Segments.{Segments};
ghost use Rattle.capnp_framing.specs.Frames.{IsFrameOf};
ghost use Rattle.capnp_framing.specs.Prefix.{size_from_prefix};
ghost use Rattle.capnp_framing.specs.Reading.{total};
ghost use Rattle.capnp_messages.specs.Digests.{IsDigestOf};
ghost use Rattle.capnp_messages.specs.Messages.{HasSizeOf, IsReadable};
ghost use Rattle.capnp_messages.specs.Commands.{HasAnswerWithin};
ghost use Rattle.capnp_messages.specs.declared.messages.command.Command.{Command};
ghost use Rattle.capnp_messages.specs.declared.messages.command.Form.{Form};
ghost use Rattle.capnp_packing.specs.Packing.{IsWhole, Packs, unpacked_bytes};
ghost use Rattle.capnp_packing.specs.Pieces.{unpacked_piece};
ghost use Rattle.capnp_messages.specs.SmallCopies.{NeedsNoHeap};
ghost use Rattle.capnp_canonical.specs.Calls.{FillsByNumber, InFrame, IsCopyOf, IsGranted, IsNumberWhere, RefusesBytes, RefusesMeaning, RefusesPacked, RefusesPrefix, RefusesRoom, RefusesPacking, TestIs, limits_of, no_fault};
ghost use Rattle.capnp_canonical.specs.Validation.{ExtentIs, RefusesExtent, no_extent};
ghost use Rattle.capnp_canonical.specs.Pieces.{next_place, unpacking_at, written_piece};
ghost use Rattle.capnp_canonical.specs.Locating.{PointerIs, no_pointer};
ghost use Rattle.capnp_pointers.specs.CanonicalFaults.{fault_reason_text};
ghost use Rattle.capnp_canonical.specs.PackedWords.{packed_words};
ghost use Rattle.capnp_canonical.specs.Numbers.{answer_name, answer_number, reason_number, wanted_room};
ghost use Rattle.capnp_canonical.specs.Texts.{PutsText, IsTextOf, is_c_string};

mod calls;
mod digests;
mod equal_exports;
mod fault;
mod frames;
mod locating;
mod names;
mod packed;
mod packing;
mod part_exports;
mod parts;
mod prefix_exports;
mod refusal;
mod segment_exports;
mod segments;
mod storing;
mod taking;
mod texts;
mod validation;
mod walk_exports;
mod word_exports;
mod words;

use calls::Limits;
use capnp_messages::messages::Form;
use capnp_packing::packing::Place;
use digests::digest_frame_after;
use fault::{Fault, NO_FAULT};
use frames::{check_frame, copy_frame, frame_size, frame_size_from_prefix, size_frame};
use locating::{BrokenPointer, NO_POINTER, locate_in_frame};
use names::{name_of_number, put_text, text_of_reason};
use packed::{Unpacking, unpack, unpack_further};
use packing::pack;
use std::alloc::Global;
use storing::{store, store_size, store_written};
use texts::text_of_answer;
use validation::{NOT_SOUND, SoundMessage, validate_frame};

/// Makes a canonical copy of the message whose frame is at the front of `frame`, writes the copy to
/// the front of `to`, as a frame of one segment, and stores the number of bytes written in
/// `written`. `nesting` and `words` limit the reading, as in `capnp_canonical_check`.
///
/// If `to` is too small, stores the number of bytes needed in `written`; for any other refusal, 0.
/// The bytes of `to` after the copy are unchanged. If the call is refused, all bytes of `to` are
/// unchanged.
#[unsafe(no_mangle)]
pub extern "C" fn capnp_canonical_copy(
    alloc: Global,
    frame: &[u8],
    nesting: i32,
    words: u64,
    to: &mut [u8],
    written: &mut usize,
) -> u32
    ensures done { FillsByNumber result written.new to.old to.new (λ bytes. InFrame frame.now words
        (λ S. IsCopyOf Form.Framed (limits_of nesting words) S bytes)) }
    ensures refused { result ≢ 0 → IsNumberWhere result (λ r. (written.new ≡ wanted_room r)
        × (RefusesBytes frame.now words r ⊎ InFrame frame.now words
        (λ S. RefusesRoom Form.Framed (limits_of nesting words) (length to.old) S r))) }
    ensures granted { InFrame frame.now words
        (HasAnswerWithin (Command.Canon Form.Framed) (limits_of nesting words))
        → IsGranted result }
    ensures enough { (n caps : ℕ) → InFrame frame.now words
        (λ S. HasSizeOf S (limits_of nesting words) n caps)
        → 16 + 8 * n ≤ length to.old → result ≢ 1 }
    ensures lent { InFrame frame.now words (NeedsNoHeap (limits_of nesting words))
        → (result ≡ 0) ⊎ (result ≡ 1) }
{
    let copied = copy_frame(alloc, Form::Framed, frame, Limits { nesting, words }, to);
    store_written(copied, written)
}

/// Like `capnp_canonical_copy`, but writes the canonical words without a frame.
#[unsafe(no_mangle)]
pub extern "C" fn capnp_canonical_copy_flat(
    alloc: Global,
    frame: &[u8],
    nesting: i32,
    words: u64,
    to: &mut [u8],
    written: &mut usize,
) -> u32
    ensures done { FillsByNumber result written.new to.old to.new (λ bytes. InFrame frame.now words
        (λ S. IsCopyOf Form.Flat (limits_of nesting words) S bytes)) }
    ensures refused { result ≢ 0 → IsNumberWhere result (λ r. (written.new ≡ wanted_room r)
        × (RefusesBytes frame.now words r ⊎ InFrame frame.now words
        (λ S. RefusesRoom Form.Flat (limits_of nesting words) (length to.old) S r))) }
    ensures granted { InFrame frame.now words
        (HasAnswerWithin (Command.Canon Form.Flat) (limits_of nesting words))
        → IsGranted result }
    ensures enough { (n caps : ℕ) → InFrame frame.now words
        (λ S. HasSizeOf S (limits_of nesting words) n caps)
        → 8 + 8 * n ≤ length to.old → result ≢ 1 }
    ensures lent { InFrame frame.now words (NeedsNoHeap (limits_of nesting words))
        → (result ≡ 0) ⊎ (result ≡ 1) }
{
    let copied = copy_frame(alloc, Form::Flat, frame, Limits { nesting, words }, to);
    store_written(copied, written)
}

/// Tests whether the message whose frame is at the front of `frame` is canonical: whether it has
/// one segment, which holds the canonical words of a value and nothing else. If it isn't canonical,
/// stores why and where in `fault`.
///
/// `nesting` is how many structs and lists may be inside one another. `words` limits both the words
/// of the frame and the words that may be read. After a refusal `is_canonical` is false and `fault`
/// all 0. So only if the call returned 0 does `false` say that the message isn't canonical.
#[unsafe(no_mangle)]
pub extern "C" fn capnp_canonical_check(
    frame: &[u8],
    nesting: i32,
    words: u64,
    is_canonical: &mut bool,
    fault: &mut Fault,
) -> u32
    ensures done { result ≡ 0 → InFrame frame.now words
        (TestIs (limits_of nesting words) is_canonical.new fault.new) }
    ensures refused { result ≢ 0 → IsNumberWhere result (λ r. RefusesBytes frame.now words r
        ⊎ InFrame frame.now words
        (λ S. RefusesMeaning Command.Check (limits_of nesting words) S r)) }
    ensures none { result ≢ 0 → (is_canonical.new ≡ false) × (fault.new ≡ no_fault) }
    ensures granted { InFrame frame.now words
        (HasAnswerWithin Command.Check (limits_of nesting words)) → result ≡ 0 }
{
    match check_frame(frame, Limits { nesting, words }) {
        Ok(found) => {
            *is_canonical = found.is_none();
            *fault = Fault::of(found);
            0
        }
        Err(refusal) => {
            *is_canonical = false;
            *fault = NO_FAULT;
            refusal.number()
        }
    }
}

/// Counts the words and capabilities of the message whose frame is at the front of `frame`, without
/// the root pointer and landing pads. Stores the numbers in `word_count` and `cap_count`; after a
/// refusal both are 0. `nesting` and `words` limit the reading, as in `capnp_canonical_check`.
#[unsafe(no_mangle)]
pub extern "C" fn capnp_canonical_size(
    frame: &[u8],
    nesting: i32,
    words: u64,
    word_count: &mut u64,
    cap_count: &mut u32,
) -> u32
    ensures done { result ≡ 0 → InFrame frame.now words
        (λ S. HasSizeOf S (limits_of nesting words) word_count.new cap_count.new) }
    ensures refused { result ≢ 0 → IsNumberWhere result (λ r. RefusesBytes frame.now words r
        ⊎ InFrame frame.now words
        (λ S. RefusesMeaning Command.Size (limits_of nesting words) S r)) }
    ensures none { result ≢ 0 → (word_count.new ≡ 0) × (cap_count.new ≡ 0) }
    ensures granted { InFrame frame.now words
        (HasAnswerWithin Command.Size (limits_of nesting words)) → result ≡ 0 }
{
    let size = size_frame(frame, Limits { nesting, words });
    store_size(size, word_count, cap_count)
}

/// Tests whether the message whose frame is at the front of `frame` is sound: whether its root
/// means a value within both limits, which may have capabilities. Stores in `extent` how deep the
/// value is, how much it holds, and what reading it costs. Takes no memory.
///
/// Answers 0 exactly for such messages. For others, `extent` is all 0.
#[unsafe(no_mangle)]
pub extern "C" fn capnp_canonical_validate(
    frame: &[u8],
    nesting: i32,
    words: u64,
    extent: &mut SoundMessage,
) -> u32
    ensures done { result ≡ 0 → InFrame frame.now words
        (ExtentIs (limits_of nesting words) extent.new) }
    ensures refused { result ≢ 0 → IsNumberWhere result (λ r. RefusesBytes frame.now words r
        ⊎ InFrame frame.now words (λ S. RefusesExtent (limits_of nesting words) S r)) }
    ensures none { result ≢ 0 → extent.new ≡ no_extent }
    ensures granted { InFrame frame.now words (λ S. IsReadable S (limits_of nesting words))
        → result ≡ 0 }
{
    let found = validate_frame(frame, Limits { nesting, words });
    store(found, NOT_SOUND, extent)
}

/// Finds the pointer at which reading the message whose frame is at the front of `frame` stops, and
/// stores its place and refusal in `pointer`; all 0 if the whole value is read. For use after
/// another call is refused: the message is read once more. Takes no memory.
///
/// `reading` says how the message is read, within the limits of `capnp_canonical_check`: 0 as by
/// the calls that validate and those that test; 1 as by those that copy and those that hash; 2 as
/// by those that measure. Any other number counts as 0. Refused only if there is no such frame;
/// then `pointer` is all 0 too.
#[unsafe(no_mangle)]
pub extern "C" fn capnp_canonical_locate(
    frame: &[u8],
    nesting: i32,
    words: u64,
    reading: u32,
    pointer: &mut BrokenPointer,
) -> u32
    ensures done { result ≡ 0 → InFrame frame.now words
        (PointerIs reading (limits_of nesting words) pointer.new) }
    ensures refused { result ≢ 0 → IsNumberWhere result (RefusesBytes frame.now words) }
    ensures none { result ≢ 0 → pointer.new ≡ no_pointer }
    ensures granted { InFrame frame.now words (λ _. ⊤) → result ≡ 0 }
{
    let found = locate_in_frame(frame, Limits { nesting, words }, reading);
    store(found, NO_POINTER, pointer)
}

/// Stores in `digest` the SHA-256 of the canonical words of the message whose frame is at the front
/// of `frame`: of the bytes that `capnp_canonical_copy_flat` writes. `nesting` and `words` limit
/// the reading, as in `capnp_canonical_check`. After a refusal `digest` is all 0. The refusals are
/// those of `capnp_canonical_copy_flat`, except that there is always room.
#[unsafe(no_mangle)]
pub extern "C" fn capnp_canonical_digest(
    alloc: Global,
    frame: &[u8],
    nesting: i32,
    words: u64,
    digest: &mut [u8; 32],
) -> u32
    ensures done { result ≡ 0 → InFrame frame.now words
        (λ S. IsDigestOf S (limits_of nesting words) digest.new) }
    ensures refused { result ≢ 0 → IsNumberWhere result (λ r. RefusesBytes frame.now words r
        ⊎ InFrame frame.now words
        (λ S. RefusesMeaning (Command.Canon Form.Flat) (limits_of nesting words) S r)) }
    ensures none { result ≢ 0 → digest.new ≡ replicate 32 0 }
    ensures granted { InFrame frame.now words
        (HasAnswerWithin (Command.Canon Form.Flat) (limits_of nesting words))
        → (result ≡ 0) ⊎ (result ≡ 32) }
    ensures lent { InFrame frame.now words (NeedsNoHeap (limits_of nesting words))
        → result ≡ 0 }
{
    let made = digest_frame_after(alloc, &[], frame, Limits { nesting, words });
    store(made, [0; 32], digest)
}

/// Stores in `bytes` the size in bytes of the frame at the front of `frame`; after a refusal
/// `bytes` is 0. Refuses a message of more than `words` words.
#[unsafe(no_mangle)]
pub extern "C" fn capnp_canonical_frame_size(frame: &[u8], words: u64, bytes: &mut usize) -> u32
    ensures done { result ≡ 0 → (S : Segments) × (front behind : List ℕ)
        × (frame.now ≡ front ++ behind) × IsFrameOf S front × (total S ≤ words)
        × (bytes.new ≡ length front) }
    ensures refused { result ≢ 0 → (bytes.new ≡ 0)
        × IsNumberWhere result (RefusesBytes frame.now words) }
    ensures granted { InFrame frame.now words (λ _. ⊤) → result ≡ 0 }
{
    let size = frame_size(frame, words);
    store(size, 0, bytes)
}

/// Stores in `bytes` how many bytes of a stream to have, from the start of a frame on, before
/// `capnp_canonical_frame_size` finds the frame whole: its size if `prefix`, the bytes that are
/// there, contains its segment table; otherwise the size of the table as far as `prefix` tells it,
/// which is more than `prefix` has. So read until as many bytes are there, and if `prefix` was
/// shorter than the table, ask again.
///
/// Refuses the frame if `prefix` tells that it has too many segments, or more than `words` words.
/// `bytes` is then 0.
#[unsafe(no_mangle)]
pub extern "C" fn capnp_canonical_frame_size_from_prefix(
    prefix: &[u8],
    words: u64,
    bytes: &mut usize,
) -> u32
    ensures done { result ≡ 0 → size_from_prefix prefix.now words ≡ Ok bytes.new }
    ensures refused { result ≢ 0 → (bytes.new ≡ 0)
        × IsNumberWhere result (RefusesPrefix prefix.now words) }
{
    let size = frame_size_from_prefix(prefix, words);
    store(size, 0, bytes)
}

/// Unpacks `packed` (encoding specification, "Packing") to the front of `to`, and stores the number
/// of unpacked bytes in `written`. Takes no memory.
///
/// If `to` is too small, stores the number of bytes needed in `written`; for any other refusal, 0.
/// The bytes of `to` after the unpacked bytes are unchanged. If the call is refused, all bytes of
/// `to` are unchanged.
#[unsafe(no_mangle)]
pub extern "C" fn capnp_canonical_unpack(packed: &[u8], to: &mut [u8], written: &mut usize) -> u32
    ensures done { FillsByNumber result written.new to.old to.new (Packs packed.now) }
    ensures refused { result ≢ 0 → IsNumberWhere result (λ r. (written.new ≡ wanted_room r)
        × RefusesPacked packed.now (length to.old) r) }
    ensures granted { IsWhole Place.Tag packed.now
        → length (unpacked_bytes Place.Tag packed.now) ≤ length to.old → result ≡ 0 }
{
    let unpacked = unpack(packed, to);
    store_written(unpacked, written)
}

/// Packs `words` (encoding specification, "Packing") to the front of `to`, and stores the number of
/// packed bytes in `written`. `words` is whole words, such as the frames of messages. Takes no
/// memory.
///
/// The packed bytes are those that C++ and Rust make of the words, each run as long as it can be.
/// There are at most 10 for each word. If `to` is too small, stores the number of bytes needed in
/// `written`; for any other refusal, 0. The bytes of `to` after the packed bytes are unchanged. If
/// the call is refused, all bytes of `to` are unchanged.
#[unsafe(no_mangle)]
pub extern "C" fn capnp_canonical_pack(words: &[u8], to: &mut [u8], written: &mut usize) -> u32
    ensures done { FillsByNumber result written.new to.old to.new
        (λ bytes. (bytes ≡ packed_words words.now) × Packs bytes words.now) }
    ensures refused { result ≢ 0 → IsNumberWhere result (λ r. (written.new ≡ wanted_room r)
        × RefusesPacking words.now (length to.old) r) }
    ensures granted { length words.now % 8 ≡ 0
        → (length (packed_words words.now) ≤ length to.old)
        ⊎ (10 * length words.now ≤ 8 * length to.old) → result ≡ 0 }
{
    let packed = pack(words, to);
    store_written(packed, written)
}

/// Unpacks the next bytes of a packed stream to the front of `to`, and goes on from where the last
/// call with this `unpacking` stopped; at the start of a stream its numbers are 0. Stops when `to`
/// is full or no packed bytes are left. Stores how many it took in `taken`, and returns the number
/// of bytes written. Is never refused, and takes no memory.
///
/// Takes only the packed bytes that it needs for what it writes, and the count after the last word
/// if that is in `packed`.
#[unsafe(no_mangle)]
pub extern "C" fn capnp_canonical_unpack_piece(
    unpacking: &mut Unpacking,
    packed: &[u8],
    to: &mut [u8],
    taken: &mut usize,
) -> usize
    ensures piece { written_piece taken.new result to.new unpacking.new
        ≡ unpacked_piece (length to.old) unpacking.old.zeros (next_place unpacking.old) packed.now }
    ensures state { unpacking.new ≡ unpacking_at unpacking.new.zeros (next_place unpacking.new) }
    ensures taken { taken.new ≤ length packed.now }
    ensures within { result ≤ length to.new }
{
    unpack_further(unpacking, packed, to, taken)
}

/// Stores the text of the answer with the number `answer` in `text`: a constant, one or more bytes
/// that aren't zero, and a terminating zero byte. So it is the text of a refusal as this library
/// knows it, even if the header that the caller was compiled with is older.
#[unsafe(no_mangle)]
pub extern "C" fn capnp_canonical_answer_text(answer: u32, text: &mut &'static [u8])
    ensures { IsTrue (is_c_string text.new.now) }
{
    *text = text_of_answer(answer);
}

/// Writes the name of the refusal with the number `answer` to the front of `to`, followed by a
/// terminating zero byte; cuts the name if `to` is too small. Returns the length of the whole name
/// in bytes; 0 if no refusal has this number.
#[unsafe(no_mangle)]
pub extern "C" fn capnp_canonical_name(answer: u32, to: &mut [u8]) -> usize
    ensures { (text : List ℕ) × IsTextOf answer_number answer_name answer text
        × (result ≡ length text)
        × PutsText text to.old to.new }
{
    put_text(name_of_number(answer), to)
}

/// Writes the text of the reason with the number `reason` (see `Fault`) to the front of `to`.
/// Terminates and cuts the text, and returns the length of the whole text, like
/// `capnp_canonical_name`.
#[unsafe(no_mangle)]
pub extern "C" fn capnp_canonical_reason_text(reason: u32, to: &mut [u8]) -> usize
    ensures { (text : List ℕ) × IsTextOf reason_number fault_reason_text reason text
        × (result ≡ length text)
        × PutsText text to.old to.new }
{
    put_text(text_of_reason(reason), to)
}

/// The version of the library: major * 10000 + minor * 100 + patch.
#[unsafe(no_mangle)]
pub extern "C" fn capnp_canonical_version() -> u32
    ensures { result ≡ 10100 }
{
    10100
}

/// Writes the library's version as text to the front of `to`. Terminates and cuts the text, and
/// returns the length of the whole text, like `capnp_canonical_name`.
#[unsafe(no_mangle)]
pub extern "C" fn capnp_canonical_version_text(to: &mut [u8]) -> usize
    ensures length { result ≡ length (codes "1.1.0") }
    ensures text { PutsText (codes "1.1.0") to.old to.new }
{
    put_text("1.1.0", to)
}
