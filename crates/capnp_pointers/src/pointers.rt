//! Pointers of a message, read in place: where they are, the sizes of what they lead to, and the
//! test for canonical form.
ghost use Rattle.std.specs.Prelude.{◌≡◌, ◌↔◌, ⊤, IsTrue, IfOk, IsOk, OnOk, OnErr, IfErr};
ghost use Rattle.capnp_format.specs.Bytes.{message};
ghost use Rattle.capnp_format.specs.Segments.{IsPlace};
ghost use Rattle.capnp_words.specs.Meter.{Affords, charged};
ghost use Rattle.capnp_words.specs.declared.error.ErrorKind.TheVariants.{ReadLimitExceeded};
ghost use Rattle.capnp_arena_traits.specs.Checks.{Holds, misplaced};
ghost use Rattle.capnp_pointers.specs.Objects.{IsHeld};
ghost use Rattle.capnp_pointers.specs.Reading.{source_start, word_of};

mod canonical;
mod canonical_answer;
mod canonical_fault;
mod sizes;
mod validate;
mod walk;

use crate::nesting::one_level_less;
use crate::object::{Object, Place, Purpose};
use crate::source::Source;
pub use canonical::is_last_word_used;
pub use canonical_fault::{CanonicalFault, CanonicalFaultReason};
use capnp_arena_traits::arena::ReaderArena;
use capnp_words::error::ErrorKind;
use capnp_words::read_limiter::ReadLimiter;
pub use sizes::MessageSize;
use std::alloc::AllocError;
pub use validate::Extent;

/// The place of a pointer in an arena.
#[derive(Clone, Copy, Debug, PartialEq, Eq)]
pub struct PointerPlace {
    /// The number of the segment.
    pub segment: u32,
    /// The position of the pointer, in words.
    pub word: u32,
}

/// A pointer being read, with the bytes of its segment: a `PointerReader` without the calls that
/// return what it leads to.
///
/// Required of the fields: `place.bytes` has exactly the whole words of segment `place.segment` of
/// `source`, fewer than 2^32.
pub struct Pointer<'a, A: ReaderArena> {
    /// What the pointer is read from.
    pub source: Source<'a, A>,
    /// Where the pointer's word is.
    pub place: Place<'a>,
    /// The nesting limit: how many levels of structs and lists may be entered from here; none if it
    /// is below 1.
    pub nesting_limit: i32,
    ghost held: { IsHeld (source_start A.ReaderArena source).segments place },
}

impl<'a, A: ReaderArena> Clone for Pointer<'a, A> {
    ghost is_clone = { λ x y. y ≡ x };

    ghost is_infallible = { λ _. ⊤ };

    fn clone(&self) -> Result<Self, AllocError> {
        Ok(*self)
    }
}

impl<'a, A: ReaderArena> Copy for Pointer<'a, A> {}

impl<'a, A: ReaderArena> Pointer<'a, A> {
    ghost use Rattle.std.specs.Prelude.{◌+◌, ◌<◌, ◌^◌, pred};
    ghost use Rattle.capnp_pointers.specs.Enter.{read, result_shape};
    ghost use Rattle.capnp_pointers.specs.Entering.{IsObjectHeld};
    ghost use Rattle.capnp_pointers.specs.Objects.{IsObjectRead};
    ghost use Rattle.capnp_pointers.specs.Pointers.{reading};
    ghost use Rattle.capnp_pointers.specs.Reading.{place_past};
    ghost use Rattle.capnp_pointers.specs.Source.{levels};

    /// Returns a null pointer that isn't in any message: its source is `Source::Nothing`, its place
    /// word 0 of segment 0, and its nesting limit `i32::MAX`.
    pub fn new_default() -> Self
        ensures source { result.source ≡ Source.Nothing }
        ensures place { (result.place.segment ≡ 0) × (result.place.at ≡ 0) }
        ensures nesting { result.nesting_limit ≡ i32.MAX }
    {
        Pointer {
            source: Source::Nothing,
            place: Place {
                segment: 0,
                bytes: &[],
                at: 0,
            },
            nesting_limit: i32::MAX,
        }
    }

    /// Returns the root pointer of a message, word 0 of segment 0 (encoding specification,
    /// "Messages"). Charges `lim` this one word. The pointer's nesting limit is the arena's.
    ///
    /// Refusals: `MessageContainsOutOfBoundsPointer` if segment 0 has no word;
    /// `InvalidSegmentId(0)` if there is no segment; `TriedToReadFromNullArena` in a `NullArena`;
    /// `ReadLimitExceeded` if the limiter has no word left. A refusal leaves the limiter unchanged.
    pub fn get_root_from_arena(arena: &'a A, lim: &mut ReadLimiter) -> Result<Self, ErrorKind>
        ensures exactly { IsOk result ↔ Holds (message (A.segments arena.now)) 0 0 1
            × Affords (A.charging arena.now) lim.old 1 }
        ensures granted { OnOk result (lim.new ≡ charged (A.charging arena.now) lim.old 1) }
        ensures refused { OnErr result (lim.new ≡ lim.old) }
        ensures outside { IfErr result (λ k. (Holds (message (A.segments arena.now)) 0 0 1 → ⊥)
            → k ≡ misplaced (message (A.segments arena.now)) 0 (A.absent arena.now 0)) }
        ensures budget { IfErr result (λ k. Holds (message (A.segments arena.now)) 0 0 1
            → k ≡ ReadLimitExceeded) }
        ensures source { IfOk result (λ r. r.source ≡ Source.Arena arena.entry) }
        ensures place { IfOk result (λ r. (r.place.segment ≡ 0) × (r.place.at ≡ 0)) }
        ensures nesting { IfOk result (λ r. r.nesting_limit ≡ A.nesting arena.now) }
    {
        arena.contains_interval(0, 0, 1, lim)?;
        let place = PointerPlace {
            segment: 0,
            word: 0,
        };
        Ok(Self::at(arena, place, arena.nesting_limit()))
    }

    /// Returns the pointer at `place` of `arena`. Precondition: `place` is inside a segment of
    /// `arena`.
    pub fn at(arena: &'a A, place: PointerPlace, nesting_limit: i32) -> Self
        requires { IsPlace (message (A.segments arena.now)) place.segment place.word }
        ensures source { result.source ≡ Source.Arena arena.entry }
        ensures place { (result.place.segment ≡ place.segment) × (result.place.at ≡ place.word) }
        ensures nesting { result.nesting_limit ≡ nesting_limit }
    {
        let Ok(bytes) = arena.get_segment(place.segment) else {
            return Self::new_default();
        };
        Pointer {
            source: Source::Arena(arena),
            place: Place {
                segment: u64::from(place.segment),
                bytes,
                at: place.word,
            },
            nesting_limit,
        }
    }

    /// Reads the object that the pointer leads to, but none of its children: for its value like
    /// `Source::read_object`, for its size like `Source::measure_object`.
    #[inline(always)]
    pub fn read(self, purpose: Purpose, lim: &mut ReadLimiter) -> Result<Object<'a>, ErrorKind>
        ensures computed { read purpose (reading A.ReaderArena self.entry) lim.old
            ≡ (result_shape result, lim.new) }
        ensures object { IfOk result (IsObjectRead purpose (reading A.ReaderArena self.entry)) }
        ensures held { IfOk result
            (IsObjectHeld (source_start A.ReaderArena self.entry.source).segments) }
    {
        self.source
            .read_for_purpose(purpose, self.place, self.nesting_limit, lim)
    }

    /// Returns the pointer `words` words after this one, in the same segment and with the same
    /// nesting limit. The position wraps around at 2^32, which is after the last word of any
    /// segment.
    #[inline(always)]
    pub fn past(self, words: u32) -> Self
        ensures { self.entry.place.at + words < 2 ^ 32
            → reading A.ReaderArena result ≡ place_past (reading A.ReaderArena self.entry) words }
    {
        let at = self.place.at.wrapping_add(words);
        Pointer {
            source: self.source,
            place: Place { at, ..self.place },
            nesting_limit: self.nesting_limit,
        }
    }

    /// Returns the pointer at `start`, which is inside the object that this pointer leads to. Its
    /// nesting limit is one less. Precondition: `start.bytes` has exactly the whole words of segment
    /// `start.segment` of the source, fewer than 2^32.
    #[inline(always)]
    pub fn inside(self, start: Place<'a>) -> Self
        requires { IsHeld (source_start A.ReaderArena self.source).segments start }
        ensures source { result.source ≡ self.entry.source }
        ensures place { result.place ≡ start.entry }
        ensures levels { levels result.nesting_limit ≡ pred (levels self.entry.nesting_limit) }
    {
        Pointer {
            source: self.source,
            place: start,
            nesting_limit: one_level_less(self.nesting_limit),
        }
    }

    /// Whether the pointer's word is zero, or there is no such word.
    pub fn is_null(&self) -> bool
        ensures { IsTrue result ↔ (word_of (reading A.ReaderArena self.now) ≡ 0) }
    {
        self.place.word().is_null()
    }
}
