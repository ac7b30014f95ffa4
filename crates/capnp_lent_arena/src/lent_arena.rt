//! An arena of one segment, in memory that the caller lends.
ghost use Rattle.std.below.core.specs.declared.int.i32.TheConstants.{MAX};
ghost use Rattle.std.specs.Prelude.{◌≡◌, ◌<◌, ◌≤◌, ◌+◌, ◌*◌, ◌/◌, ◌↔◌, ◌++◌, ◌∷◌, [], ℕ, List, false, refl, length, take, replicate, min, IsTrue};
ghost use Rattle.std.specs.Borrow.{sem, Lends, Array, u8 as byte};
ghost use Rattle.capnp_format.specs.Bytes.{words_of, message};
ghost use Rattle.capnp_words.specs.declared.error.ErrorKind.TheVariants.{InvalidSegmentId};
ghost use Rattle.capnp_arena_traits.specs.Allocations.{max_segment_words};
ghost use Rattle.capnp_arena_traits.specs.View.{view_of};
ghost use Rattle.capnp_arena_traits.specs.Written.{with_front};

use capnp_arena::arena::{
    BuilderArena, MAX_SEGMENT_WORDS, ReaderArena, Segment, SegmentId, WordPlace,
};
use capnp_arena_traits::arena::sealed::Closed;
use capnp_words::error::ErrorKind;
use capnp_words::words;

/// Bytes that the caller lends. All of them are ready.
pub trait LentBytes: Segment + Drop {
    // The name of the reference through which the bytes are lent.
    ghost name: { Self → ℕ };

    // Other bytes are lent through the same reference.
    ghost name_kept: { (s : Self) (w : List ℕ) → name (Self.Segment.with_ready s w) ≡ name s };
}

impl LentBytes for &mut [u8] {
    ghost name = { λ s. s.ghost_name };

    ghost name_kept = { λ _ _. refl };
}

/// Lends the first `n` bytes of `segment` for writing, and leaves the others unchanged.
/// Precondition: `segment` has at least `n` bytes.
#[inline(always)]
fn prefix_mut<S: Segment>(segment: &mut S, n: usize) -> &mut [u8]
    requires { n ≤ length (S.ready segment.old) }
    ensures* lends { sem 𝓛 (Lends S.row (Array byte 0) segment.entry result
        (λ ws. S.with_ready segment.old (with_front n (S.ready segment.old) ws))) }
    ensures now { result.now ≡ take n (S.ready segment.old) }
{
    let bytes = segment.bytes_mut();
    &mut bytes[..n]
}

/// A message being built, of one segment in lent bytes. Takes no memory. Its first `used` words are
/// allocated; the bytes after them may hold anything, because a word is zeroed when it is allocated.
/// The segment's capacity is the number of whole words in the bytes, or 536,870,911 if that is less.
///
/// The arena is the bytes and a number, so each call can make it again. Its nesting limit is
/// `i32::MAX`, and reading from it charges nothing.
#[derive(Drop)]
pub struct LentArena<B: Segment + Drop> {
    bytes: B,
    used: u32,
    refused: u64,
    ghost inside: { 8 * used ≤ length (B.Segment.ready bytes) },
    ghost small: { used ≤ max_segment_words },
}

impl<B: LentBytes> LentArena<B> {
    ghost use Rattle.capnp_lent_arena.specs.Lent.{allocated_bytes, capacity_of, with_lent};
    ghost use Rattle.capnp_lent_arena.specs.contracts.lent_arena.LentArena.{the_row};

    /// Makes the arena. Precondition: `bytes` has at least `used` words, and `used` is at most
    /// 536,870,911.
    pub fn new(bytes: B, used: u32) -> Self
        requires inside { 8 * used ≤ length (B.Segment.ready bytes) }
        requires small { used ≤ max_segment_words }
        ensures bytes { result.bytes ≡ bytes }
        ensures used { result.used ≡ used }
        ensures refused { result.refused ≡ 0 }
    {
        LentArena {
            bytes,
            used,
            refused: 0,
        }
    }

    /// The number of allocated words.
    pub fn used(&self) -> u32
        ensures { result ≡ self.now.used }
    {
        self.used
    }

    /// How many words the segment can hold.
    pub fn capacity(&self) -> u32
        ensures { result ≡ capacity_of B.Segment self.now }
    {
        (self.bytes.bytes().len() / 8).min(MAX_SEGMENT_WORDS as usize) as u32
    }

    /// Whether `amount` more words can be allocated.
    pub fn has_room(&self, amount: u32) -> bool
        ensures { IsTrue result ↔ (self.now.used + amount ≤ capacity_of B.Segment self.now) }
    {
        amount <= self.capacity() - self.used
    }

    /// The bytes of the allocated words.
    pub fn allocated(&self) -> &[u8]
        ensures { result.now ≡ allocated_bytes B.Segment self.now }
    {
        &self.bytes.bytes()[..8 * self.used as usize]
    }

    /// Lends the bytes of the allocated words, for writing.
    fn lend(&mut self) -> &mut [u8]
        ensures* lends { sem 𝓛 (Lends (the_row B.row B.Segment) (Array byte 0) self.entry result
            (with_lent B.Segment self.old)) }
        ensures now { result.now ≡ allocated_bytes B.Segment self.old }
    {
        let n = 8 * self.used as usize;
        prefix_mut(&mut self.bytes, n)
    }

    /// Allocates `amount` words after the allocated ones, zeroes them, and returns their position.
    /// Precondition: the segment has room for them.
    fn allocate_fitting(&mut self, amount: u32) -> u32
        requires { self.old.used + amount ≤ capacity_of B.Segment self.old }
        ensures at { result ≡ self.old.used }
        ensures words { words_of (allocated_bytes B.Segment self.new)
            ≡ words_of (allocated_bytes B.Segment self.old) ++ replicate amount 0 }
        ensures used { self.new.used ≡ self.old.used + amount }
        ensures refused { self.new.refused ≡ self.old.refused }
        ensures same_reference { B.name self.new.bytes ≡ B.name self.old.bytes }
        ensures length { length (B.Segment.ready self.new.bytes)
            ≡ length (B.Segment.ready self.old.bytes) }
    {
        let at = self.used;
        words::zero_words(self.bytes.bytes_mut(), at as usize, amount as usize);
        self.used = at + amount;
        at
    }
}

impl<B: LentBytes> ReaderArena for LentArena<B> {
    ghost use Rattle.capnp_lent_arena.specs.Lent.{allocated_bytes};

    ghost segments = { λ a. allocated_bytes B.Segment a ∷ [] };

    ghost nesting = { λ _. MAX };

    ghost charging = { λ _. false };

    ghost absent = { λ _ id. InvalidSegmentId id };

    ghost use Rattle.std.proofs.Common.{inl};

    ghost absent_named = { λ _ _. inl refl };

    fn get_segment(&self, id: u32) -> Result<&[u8], ErrorKind> {
        if id == 0 {
            Ok(self.allocated())
        } else {
            Err(ErrorKind::InvalidSegmentId(id))
        }
    }

    fn nesting_limit(&self) -> i32 {
        i32::MAX
    }

    fn charges(&self) -> bool {
        false
    }

    fn size_in_words(&self) -> usize {
        self.used as usize
    }
}

impl<B: LentBytes> Closed for LentArena<B> {}

impl<B: LentBytes> BuilderArena for LentArena<B> {
    ghost use Rattle.capnp_lent_arena.specs.Lent.{lent_view, with_lent_bytes};
    ghost use Rattle.capnp_lent_arena.specs.LentArenaLemmas.{lent_within, lent_small, with_lent_bytes-segments, with_lent_bytes-view};

    ghost view = { lent_view B.Segment B.name };

    ghost known = { λ _ _. refl };

    ghost read = { λ _. refl };

    ghost within = { lent_within B.Segment B.name };

    ghost small = { lent_small B.Segment B.name };

    ghost with_bytes = { with_lent_bytes B.Segment };

    ghost with_bytes_segments = { with_lent_bytes-segments B.Segment };

    ghost with_bytes_view = { with_lent_bytes-view B.Segment B.name B.name_kept };

    fn segment_mut(&mut self, id: u32) -> &mut [u8] {
        self.lend()
    }

    fn allocated_mut(&mut self, id: u32) -> Option<&mut [u8]> {
        if id == 0 {
            return Some(self.segment_mut(id));
        }
        None
    }

    fn get_word(&self, id: u32, at: u32) -> u64 {
        words::word_at(self.allocated(), at as usize)
    }

    fn put_word(&mut self, id: u32, at: u32, word: u64) {
        let bytes = self.segment_mut(id);
        words::put_word(bytes, at as usize, word);
    }

    fn move_words(&mut self, from: WordPlace, to: WordPlace, n: u32) {
        if n == 0 {
            return;
        }
        let bytes = self.segment_mut(to.segment);
        words::move_words(bytes, from.at as usize, to.at as usize, n as usize);
    }

    fn allocate(&mut self, id: u32, amount: u32) -> Option<u32> {
        if self.has_room(amount) {
            Some(self.allocate_fitting(amount))
        } else {
            None
        }
    }

    fn allocate_anywhere(&mut self, amount: u32) -> Result<(SegmentId, u32), ErrorKind> {
        if self.has_room(amount) {
            let at = self.allocate_fitting(amount);
            return Ok((0, at));
        }
        if amount > MAX_SEGMENT_WORDS {
            return Err(ErrorKind::MessageTooLarge(amount as usize));
        }
        self.refused = self.refused.saturating_add(1);
        Err(ErrorKind::AllocationFailed)
    }

    fn as_reader(&self) -> &Self {
        self
    }

    fn refused(&self) -> u64 {
        self.refused
    }
}
