//! Arenas for writing.
ghost use Rattle.std.specs.Prelude.{◌≡◌, ◌⊎◌, ◌<◌, ◌≤◌, ◌+◌, ◌-◌, ◌*◌, ◌/◌, ◌^◌, ◌↔◌, ◌++◌, ◌∷◌, [], ℕ, Bool, List, length, replicate, slice_get, slice_set, Some, IsTrue, IsNone, IsSome, IfSome, IsOk, IfOk, IsOkAnd, OnOk, OnErr, IfErr};
ghost use Rattle.std.specs.Borrow.{sem, Lends, Array, u8 as byte};
ghost use Rattle.capnp_format.specs.Segments.{segment, word_at, words_at, IsPlace};
ghost use Rattle.capnp_format.specs.Bytes.{words_of, message};
ghost use Rattle.capnp_words.specs.declared.error.ErrorKind.TheVariants.{InvalidSegmentId, MessageTooLarge};
ghost use Rattle.capnp_arena_traits.specs.Allocations.{max_segments, max_segment_words};
ghost use Rattle.capnp_arena_traits.specs.View.{View};
ghost use Rattle.capnp_arena_traits.specs.Taking.{GrowsSegment, IsFull, GainsSegment, IsAllocationRefusal, IsFirstFit, IsTaken, SameRoomBelow};
ghost use Rattle.capnp_arena_traits.specs.Written.{with_word, with_words};

use crate::arena::{ReaderArena, SegmentId, WordPlace};
use capnp_words::error::ErrorKind;

pub mod sealed {
    pub trait Closed {}
}

/// An arena that can be written. In this repository `BuilderArenaImpl` of `capnp_arena` and
/// `LentArena` of `capnp_lent_arena` implement this trait. `sealed::Closed` is public, so another
/// crate can implement both traits, if it proves the contracts of all calls and the laws below.
pub trait BuilderArena: ReaderArena + sealed::Closed {
    // The words of each segment, how many it has room for, how often memory was refused, and how a
    // request may be met.
    ghost view: { Self → View };

    // The arena with other bytes in the allocated words of a segment.
    ghost with_bytes: { Self → ℕ → List ℕ → Self };

    /// Lends the bytes of the allocated words of segment `id` for writing. The segment's words that
    /// aren't allocated stay zero. Precondition: segment `id` exists.
    fn segment_mut(&mut self, id: u32) -> &mut [u8]
        requires { id < length (Self.segments self.old) }
        ensures* lends { sem 𝓛 (Lends Self.row (Array byte 0) self.entry result
            (with_bytes self.old id)) }
        ensures bytes { slice_get (Self.segments self.old) id ≡ Some result.now };

    /// Lends the bytes of the allocated words of segment `id` for writing. Returns `None`, and
    /// leaves the arena unchanged, exactly if no segment has this number.
    ///
    /// This contract doesn't state how the arena changes when the bytes are written; only test
    /// cases show that. If the segment exists, `segment_mut` lends the same bytes, and its contract
    /// states exactly what the arena is afterwards.
    fn allocated_mut(&mut self, id: u32) -> Option<&mut [u8]>
        ensures there { IsSome result ↔ (id < length (Self.segments self.old)) }
        ensures bytes { IfSome result (λ s. slice_get (Self.segments self.old) id ≡ Some s.now) };

    /// Returns word `at` of segment `id`. Precondition: word `at` of segment `id` is allocated.
    fn get_word(&self, id: u32, at: u32) -> u64
        requires { IsPlace (view self.now).words id at }
        ensures { result ≡ word_at (view self.now).words id at };

    /// Writes `word` at position `at` of segment `id`. Precondition: word `at` of segment `id` is
    /// allocated.
    fn put_word(&mut self, id: u32, at: u32, word: u64)
        requires { IsPlace (view self.old).words id at }
        ensures { view self.new
            ≡ record (view self.old)
            { words = with_word (view self.old).words id at word } };

    /// Copies `n` words from place `from` to place `to`, in the same segment or another one; the
    /// two ranges may overlap. If `n` is 0, nothing changes. Preconditions: segment `from.segment`
    /// has at least `from.at + n` allocated words; segment `to.segment` has at least `to.at + n`.
    fn move_words(&mut self, from: WordPlace, to: WordPlace, n: u32)
        requires there { from.at + n ≤ length (segment (view self.old).words from.segment) }
        requires inside { to.at + n ≤ length (segment (view self.old).words to.segment) }
        ensures { view self.new
            ≡ record (view self.old) {
              words = with_words (view self.old).words to.segment to.at
                  (words_at (view self.old).words from.segment from.at n);
            } };

    /// Allocates `amount` words after the allocated ones of segment `id`, and returns their
    /// position. The new words are zero. Returns `None`, and changes nothing, if the segment has no
    /// room for them. Precondition: segment `id` exists.
    fn allocate(&mut self, id: u32, amount: u32) -> Option<u32>
        requires { id < length (view self.old).words }
        ensures exactly { IsSome result
            ↔ (length (segment (view self.old).words id) + amount ≤ (view self.old).room id) }
        ensures taken { IfSome result (GrowsSegment (view self.old) (view self.new) amount id) }
        ensures none { IsNone result → view self.new ≡ view self.old };

    /// Allocates `amount` words in the first segment with room, in order of number. If no segment
    /// has room, allocates them in a new one, for which it requests `amount` words. Returns the
    /// segment and the position of the new words, which are zero.
    ///
    /// Refusals, if no segment has room: `MessageTooLarge(usize::MAX)` if there are 4,294,967,295
    /// segments; `MessageTooLarge(amount)` if `amount` is above 536,870,911; `AllocationFailed` if
    /// memory ran out. A refusal changes nothing, except that `AllocationFailed` adds 1 to
    /// `refused`.
    fn allocate_anywhere(&mut self, amount: u32) -> Result<(SegmentId, u32), ErrorKind>
        ensures taken { IfOk result (λ r. IsTaken (view self.old).words
            (view self.new).words amount r.0 r.1) }
        ensures first { (k : ℕ) → IsFirstFit (view self.old) amount k
            → IsOkAnd result
            (λ r. (r.0 ≡ k) × GrowsSegment (view self.old) (view self.new) amount k r.1) }
        ensures another { IsFull (view self.old) amount
            → IfOk result (λ r. GainsSegment (view self.old) (view self.new) amount r.0 r.1) }
        ensures room { SameRoomBelow (length (view self.old).words) (view self.old).room
            (view self.new).room }
        ensures granted { OnOk result (view self.new ≡ record
            (view self.old) { words = (view self.new).words; room = (view self.new).room }) }
        ensures many { IsFull (view self.old) amount → length (view self.old).words ≡ max_segments
            → result ≡ Err (MessageTooLarge usize.MAX) }
        ensures large { max_segment_words < amount → length (view self.old).words < max_segments
            → result ≡ Err (MessageTooLarge amount) }
        ensures named { IfErr result
            (λ e. IsAllocationRefusal (view self.old) (view self.new)
            (length (view self.old).words) amount e) }
        ensures refused { OnErr result
            (view self.new ≡ record (view self.old) { refusals = (view self.new).refusals }) };

    /// Returns the arena itself, for reading.
    fn as_reader(&self) -> &Self
        ensures { result.now ≡ self.now };

    /// How often the arena's allocator has refused memory, at most `u64::MAX`.
    fn refused(&self) -> u64
        ensures { result ≡ (view self.now).refusals };

    // An unknown number is refused with its own name.
    ghost known: { (a : Self) (id : ℕ) → Self.ReaderArena.absent a id ≡ InvalidSegmentId id };

    // The words are those of the bytes that are read.
    ghost read: { (a : Self) → (view a).words ≡ message (Self.ReaderArena.segments a) };

    // A segment has no more words allocated than it has room for.
    ghost within: { (a : Self) (id : ℕ) → length (segment (view a).words id) ≤ (view a).room id };

    // A segment has room for fewer than 2^29 words.
    ghost small: { (a : Self) (id : ℕ) → (view a).room id < 2 ^ 29 };

    // With the same number of other bytes: that segment has them, and the others are unchanged.
    ghost with_bytes_segments: { (a : Self) (id : ℕ) (old ws : List ℕ) → slice_get (Self.ReaderArena.segments a) id ≡ Some old → length ws ≡ length old → Self.ReaderArena.segments (with_bytes a id ws) ≡ slice_set (Self.ReaderArena.segments a) id ws };

    // Nothing else changes.
    ghost with_bytes_view: { (a : Self) (id : ℕ) (ws : List ℕ) → view (with_bytes a id ws) ≡ record (view a) { words = (view (with_bytes a id ws)).words } };
}
