//! Arenas for reading.
ghost use Rattle.std.specs.Prelude.{IsTrue, IsSome, IfSome, ◌≡◌, ◌<◌, ◌≤◌, ◌+◌, ◌*◌, ◌/◌, ◌^◌, ◌↔◌, ◌⊎◌, ℕ, ℤ, pos, ◌+ℤ◌, ◌≤ℤ◌, List, Bool, length, IsOk, IfOk, OnOk, OnErr, IfErr, Some, slice_get};
ghost use Rattle.capnp_format.specs.Segments.{segment};
ghost use Rattle.capnp_format.specs.Bytes.{words_of, message};
ghost use Rattle.capnp_words.specs.Meter.{Affords, charged};
ghost use Rattle.capnp_arena_traits.specs.Checks.{Holds, IsUnknown, LeadsInside, misplaced, total_words};
ghost use Rattle.capnp_words.specs.declared.error.ErrorKind.{ErrorKind};
ghost use Rattle.capnp_words.specs.declared.error.ErrorKind.TheVariants.{ReadLimitExceeded};

use capnp_words::error::ErrorKind;
use capnp_words::read_limiter::ReadLimiter;

/// What readers need of a message: the words of its segments, whether a place is inside them, and
/// what reading costs. Sections "Messages", "Inter-Segment Pointers" and "Security Considerations"
/// of the encoding specification.
pub trait ReaderArena {
    // The bytes of the whole words of each segment. No law says that they are below 256: a law is
    // about any numbers, and `with_bytes` of `BuilderArena` puts any there. Those that
    // `get_segment` lends are, by their type.
    ghost segments: { Self → List (List ℕ) };

    ghost nesting: { Self → ℤ };

    // Whether reading is charged and counted at all.
    ghost charging: { Self → Bool };

    // The refusal for a segment that doesn't exist.
    ghost absent: { Self → ℕ → ErrorKind };

    // The refusal names the number, or says that there is no segment at all.
    ghost absent_named: { (a : Self) (id : ℕ) → IsUnknown (segments a) id (absent a id) };

    /// Returns the bytes of the whole words of segment `id`: fewer than 2^35 bytes. Segments are
    /// numbered from 0.
    ///
    /// Refuses with `InvalidSegmentId(id)` if no segment has this number. Only an arena without any
    /// segment may refuse with `TriedToReadFromNullArena` instead, as `NullArena` does.
    fn get_segment(&self, id: u32) -> Result<&[u8], ErrorKind>
        ensures there { IsOk result ↔ (id < length (segments self.now)) }
        ensures bytes { IfOk result (λ s. slice_get (segments self.now) id ≡ Some s.now) }
        ensures words { IfOk result (λ s. words_of s.now
            ≡ segment (message (segments self.now)) id) }
        ensures whole { IfOk result (λ s. length s.now ≡ 8
            * length (segment (message (segments self.now)) id)) }
        ensures small { IfOk result (λ s. length s.now < 8 * 2 ^ 32) }
        ensures named { IfErr result (λ e. e ≡ absent self.now id) };

    /// The nesting limit: how many structs and lists may be inside one another, from the root on. A
    /// limit of 0 or less allows none.
    fn nesting_limit(&self) -> i32
        ensures { result ≡ nesting self.now };

    /// Whether reading is charged to a `ReadLimiter`, which then also counts the pointers followed.
    /// If not, every charge is granted and leaves the limiter unchanged.
    fn charges(&self) -> bool
        ensures { result ≡ charging self.now };

    /// The total number of whole words in all segments. In a message being built, only allocated
    /// words count.
    fn size_in_words(&self) -> usize
        ensures { result ≡ total_words (segments self.now) };

    /// Returns the position `start + offset`, in words, of segment `id`.
    ///
    /// Refuses with `MessageContainsOutOfBoundsPointer` if `start` or the sum isn't from 0 to the
    /// segment's length in words, inclusive; with the refusal of `get_segment` if the segment
    /// doesn't exist.
    #[tactic(auto, using(crate::proofs::MessageLemmas::placing))]
    fn check_offset(&self, id: u32, start: u32, offset: i32) -> Result<u32, ErrorKind>
        ensures exactly { IsOk result ↔ LeadsInside (message (segments self.now)) id start offset }
        ensures value { IfOk result (λ r. pos r ≡ pos start +ℤ offset) }
        ensures named { IfErr result
            (λ e. e ≡ misplaced (message (segments self.now)) id (absent self.now id)) }
    {
        let length = self.get_segment(id)?.len() / 8;
        match position_within(length, start, offset) {
            Some(at) => Ok(at),
            None => Err(ErrorKind::MessageContainsOutOfBoundsPointer),
        }
    }

    /// Charges `lim` for `amount` words, without testing that a segment has them. Readers call this
    /// after they have made that test themselves, or for elements without words, such as those of a
    /// list of empty structs.
    ///
    /// Refuses with `ReadLimitExceeded` if fewer than `amount` words are left in `lim`; a refusal
    /// leaves `lim` unchanged. If `charges` returns `false`, grants every amount and leaves `lim`
    /// unchanged.
    fn amplified_read(&self, amount: u64, lim: &mut ReadLimiter) -> Result<(), ErrorKind>
        ensures exactly { IsOk result ↔ Affords (charging self.now) lim.old amount }
        ensures granted { OnOk result (lim.new ≡ charged (charging self.now) lim.old amount) }
        ensures refused { OnErr result (lim.new ≡ lim.old) }
        ensures named { IfErr result (λ e. e ≡ ReadLimitExceeded) }
    {
        if self.charges() {
            lim.can_read(amount as usize)
        } else {
            Ok(())
        }
    }

    /// Tests that the `size` words from position `start` on are inside segment `id`, and then
    /// charges `lim` for them. The interval may be empty, and may end at the segment's end.
    ///
    /// Refusals, which leave `lim` unchanged: `MessageContainsOutOfBoundsPointer` if the interval
    /// isn't inside the segment; the refusal of `get_segment` if the segment doesn't exist;
    /// `ReadLimitExceeded` if fewer than `size` words are left in `lim`, and `charges` returns
    /// `true`.
    #[tactic(auto, using(crate::proofs::MessageLemmas::placing))]
    fn contains_interval(
        &self,
        id: u32,
        start: u32,
        size: usize,
        lim: &mut ReadLimiter,
    ) -> Result<(), ErrorKind>
        ensures exactly { IsOk result ↔ Holds (message (segments self.now)) id start size
            × Affords (charging self.now) lim.old size }
        ensures granted { OnOk result (lim.new ≡ charged (charging self.now) lim.old size) }
        ensures refused { OnErr result (lim.new ≡ lim.old) }
        ensures outside { IfErr result (λ e. (Holds (message (segments self.now)) id start size → ⊥)
            → e ≡ misplaced (message (segments self.now)) id (absent self.now id)) }
        ensures budget { IfErr result (λ e. Holds (message (segments self.now)) id start size
            → e ≡ ReadLimitExceeded) }
    {
        let length = self.get_segment(id)?.len() / 8;
        if is_within(length, start, size) {
            if self.charges() {
                lim.can_read(size)
            } else {
                Ok(())
            }
        } else {
            Err(ErrorKind::MessageContainsOutOfBoundsPointer)
        }
    }
}

// The position `start + offset`, if both `start` and it are from 0 to `length`.
#[inline]
fn position_within(length: usize, start: u32, offset: i32) -> Option<u32>
    requires { length < 2 ^ 32 }
    ensures exactly { IsSome result
        ↔ (start ≤ length) × (pos 0 ≤ℤ (pos start +ℤ offset))
        × ((pos start +ℤ offset) ≤ℤ pos length) }
    ensures value { IfSome result (λ r. pos r ≡ pos start +ℤ offset) }
{
    let at = start as i64 + offset as i64;
    if start as usize <= length && 0 <= at && at <= length as i64 {
        Some(at as u32)
    } else {
        None
    }
}

// Whether `size` words from position `start` on end within `length` words.
#[inline]
fn is_within(length: usize, start: u32, size: usize) -> bool
    ensures { IsTrue result ↔ (start + size ≤ length) }
{
    start as usize <= length && size <= length - start as usize
}
