//! An allocator that grants one segment, in memory that the caller lends.
ghost use Rattle.std.specs.Prelude.{◌++◌, ◌∷◌, [], ◌≡◌, ◌<◌, ◌≤◌, ◌*◌, ◌/◌, ◌==◌, ℕ, length, replicate, false, true, nat_le, ◌&&◌, IsTrue, IsNone, IsSome, IfSome, IsOk, IfOk, OnOk, OnErr, IfErr, Err};
ghost use Rattle.std.specs.Option.{option_map_or};
ghost use Rattle.capnp_words.specs.declared.error.ErrorKind.TheVariants.{AllocationFailed, MessageTooLarge};
ghost use Rattle.capnp_arena_traits.specs.Allocations.{IsFresh, max_segment_words, one_more, zeros};

use capnp_arena::arena::{Allocator, MAX_SEGMENT_WORDS, push_or_count_refusal};
use capnp_words::error::ErrorKind;
use std::marker::Model;

/// Lent bytes, all zero. In contracts, a value of this type stands for the number of the bytes.
#[derive(Drop)]
struct LentZeros<'a> {
    bytes: &'a mut [u8],
}

impl<'a> Model for LentZeros<'a> {
    ghost Value = { ℕ };

    ghost view = { λ z. length z.bytes.now };

    ghost invariant = { λ z. z.bytes.now ≡ replicate (length z.bytes.now) 0 };
}

impl<'a> LentZeros<'a> {
    /// Wraps the lent `bytes`. Precondition: all of them are zero.
    fn new(bytes: &'a mut [u8]) -> Self
        requires { bytes.old ≡ replicate (length bytes.old) 0 }
        ensures { result ≡ length bytes.old }
    {
        LentZeros { bytes }
    }

    /// The number of bytes.
    fn len(&self) -> usize
        ensures { result ≡ self.now }
    {
        self.bytes.len()
    }

    /// Returns the bytes of the first `words` words. Precondition: there are that many words.
    fn into_words(self, words: u32) -> &'a mut [u8]
        requires { 8 * words ≤ self }
        ensures { result.now ≡ zeros words }
    {
        let LentZeros { bytes } = self;
        &mut bytes[..8 * words as usize]
    }
}

/// An allocator that grants one segment of exactly the requested size, in lent memory. Refuses a
/// request that the memory is too small for, and may still grant a smaller request afterwards.
/// Refuses every request after it has granted a segment. Only `keep` takes other memory: the list
/// to which it appends grows on the heap.
#[derive(Drop)]
pub struct LentMemory<'a> {
    memory: Option<LentZeros<'a>>,
    refused: u64,
}

impl<'a> LentMemory<'a> {
    /// Makes an allocator over `memory`. Precondition: all bytes of `memory` are zero.
    pub fn new(memory: &'a mut [u8]) -> Self
        requires { memory.old ≡ replicate (length memory.old) 0 }
        ensures refused { result.refused ≡ 0 }
        ensures grants { (words : ℕ) → words ≤ max_segment_words → 8 * words ≤ length memory.old
            → IsTrue (⟦<Self as Allocator>⟧.grants result words) }
    {
        LentMemory {
            memory: Some(LentZeros::new(memory)),
            refused: 0,
        }
    }

    /// Lends the first `words` words, if the memory has that many and none of it was lent yet.
    /// Otherwise returns `None`, and changes nothing.
    fn lend(&mut self, words: u32) -> Option<&'a mut [u8]>
        ensures lent { IfSome self.old.memory (λ bytes. 8 * words ≤ bytes → IsSome result) }
        ensures fresh { IfSome result (λ s. s.now ≡ zeros words) }
        ensures refused { self.new.refused ≡ self.old.refused }
        ensures kept { IsNone result → self.new.memory ≡ self.old.memory }
    {
        let memory = self.memory.as_ref()?;
        if memory.len() < 8 * words as usize {
            return None;
        }
        let memory = self.memory.take()?;
        Some(memory.into_words(words))
    }
}

impl<'a> Allocator for LentMemory<'a> {
    type Segment = &'a mut [u8];

    ghost first_in_arena = { true };

    #[inline(always)]
    fn keeps_first_in_arena() -> bool
        ensures { result ≡ true }
    {
        true
    }

    ghost refusals = { λ a. a.refused };

    ghost offers = { λ _ asked words. words == asked };

    ghost grants = { λ a words. nat_le words max_segment_words
        && option_map_or (λ bytes. nat_le (8 * words) bytes) a.memory false };

    fn allocate_segment(&mut self, min_words: u32) -> Result<&'a mut [u8], ErrorKind>
        ensures fresh { IfOk result (λ s. IsFresh min_words s.now) }
        ensures sure { IsTrue (⟦<Self as Allocator>⟧.grants self.old min_words) → IsOk result }
        ensures size { IfOk result (λ s.
            IsTrue (⟦<Self as Allocator>⟧.offers self.old min_words (length s.now / 8))) }
        ensures counted { OnOk result (self.new.refused ≡ self.old.refused) }
        ensures too_large { max_segment_words < min_words
            → (result ≡ Err (MessageTooLarge min_words))
            × (self.new.refused ≡ self.old.refused) }
        ensures refused { min_words ≤ max_segment_words
            → IfErr result (λ e. (e ≡ AllocationFailed)
            × (self.new.refused ≡ one_more self.old.refused)) }
        ensures offers { ⟦<Self as Allocator>⟧.offers self.new
            ≡ ⟦<Self as Allocator>⟧.offers self.old }
        ensures kept { OnErr result (self.new.memory ≡ self.old.memory) }
    {
        if min_words > MAX_SEGMENT_WORDS {
            return Err(ErrorKind::MessageTooLarge(min_words as usize));
        }
        match self.lend(min_words) {
            Some(segment) => Ok(segment),
            None => {
                self.refused = self.refused.saturating_add(1);
                Err(ErrorKind::AllocationFailed)
            }
        }
    }

    /// Does nothing: the memory isn't lent a second time.
    fn deallocate_segment(&mut self, _segment: &'a mut [u8], _used_words: u32) {}

    fn keep<T>(&mut self, list: &mut Vec<T>, row: T) -> Option<T> {
        push_or_count_refusal(list, row, &mut self.refused)
    }

    fn refused(&self) -> u64 {
        self.refused
    }
}
