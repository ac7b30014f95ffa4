//! An allocator that makes one segment of memory lent by the caller, and all others on the heap.
ghost use Rattle.std.specs.Prelude.{◌++◌, ◌∷◌, [], ◌≡◌, ◌≤◌, ◌<◌, ◌+◌, ◌*◌, ◌/◌, ◌==◌, ℕ, List, length, replicate, min, max, refl, true, false, IsTrue, IsFalse, IsSome, IsNone, IfSome, ◌↔◌, IsOk, IfOk, IsOkAnd, OnOk, IfErr, Err};
ghost use Rattle.capnp_arena_traits.specs.Allocations.{IsClearFrom, IsFresh, max_segment_words, one_more};
ghost use Rattle.capnp_words.specs.declared.error.ErrorKind.TheVariants.{AllocationFailed, MessageTooLarge};

use crate::arena::{Allocator, HeapAllocator, HeapSegment, MAX_SEGMENT_WORDS, Segment};
use capnp_words::error::ErrorKind;
use std::alloc::Global;
use std::marker::Model;

/// Makes borrowed bytes usable as a segment.
impl Segment for &mut [u8] {
    ghost use Rattle.capnp_arena.specs.HeapLemmas.{all_ready};

    ghost content = { λ s. s.now };

    ghost ready = { λ s. s.now };

    ghost with_ready = { λ s w. record s { now = w } };

    ghost holds = { λ _ _ _. refl };

    ghost as_long = { λ _ _ same. same };

    ghost zeros_behind = { λ s. all_ready s.now };

    fn empty(_alloc: Global) -> Self {
        &mut []
    }

    #[inline(always)]
    fn len(&self) -> usize {
        (**self).len()
    }

    fn bytes(&self) -> &[u8] {
        &**self
    }

    fn bytes_mut(&mut self) -> &mut [u8] {
        &mut **self
    }

    /// Does nothing: all bytes are ready from the start.
    #[inline(always)]
    fn make_ready(&mut self, _bytes: usize) {}
}

/// A segment in borrowed memory, or one on the heap.
#[derive(Drop)]
pub enum ScratchSegment<B: Segment + Drop> {
    /// In borrowed memory.
    Borrowed(B),
    /// On the heap.
    Owned(HeapSegment),
}

impl<B: Segment + Drop> Segment for ScratchSegment<B> {
    ghost use Rattle.capnp_arena.specs.Scratch.{content_of, ready_of, with_ready_of};
    ghost use Rattle.capnp_arena.specs.ScratchLemmas.{with_ready_of-as_long, with_ready_of-holds, zeros_behind_of};

    ghost content = { content_of B.Segment };

    ghost ready = { ready_of B.Segment };

    ghost with_ready = { with_ready_of B.Segment };

    ghost holds = { with_ready_of-holds B.Segment };

    ghost as_long = { with_ready_of-as_long B.Segment };

    ghost zeros_behind = { zeros_behind_of B.Segment };

    fn empty(alloc: Global) -> Self {
        ScratchSegment::Owned(HeapSegment::empty(alloc))
    }

    #[inline(always)]
    fn len(&self) -> usize {
        match self {
            ScratchSegment::Borrowed(segment) => segment.len(),
            ScratchSegment::Owned(segment) => segment.len(),
        }
    }

    fn bytes(&self) -> &[u8] {
        match self {
            ScratchSegment::Borrowed(segment) => segment.bytes(),
            ScratchSegment::Owned(segment) => segment.bytes(),
        }
    }

    fn bytes_mut(&mut self) -> &mut [u8] {
        match self {
            ScratchSegment::Borrowed(segment) => segment.bytes_mut(),
            ScratchSegment::Owned(segment) => segment.bytes_mut(),
        }
    }

    #[inline(always)]
    fn make_ready(&mut self, bytes: usize) {
        match self {
            ScratchSegment::Borrowed(segment) => segment.make_ready(bytes),
            ScratchSegment::Owned(segment) => segment.make_ready(bytes),
        }
    }
}

/// Borrowed bytes, all zero. To contracts, a value of this type is the number of its bytes.
#[derive(Drop)]
struct ZeroBytes<'a> {
    bytes: &'a mut [u8],
}

impl<'a> Model for ZeroBytes<'a> {
    ghost Value = { ℕ };

    ghost view = { λ z. length z.bytes.now };

    ghost invariant = { λ z. z.bytes.now ≡ replicate (length z.bytes.now) 0 };
}

impl<'a> ZeroBytes<'a> {
    /// Zeroes all of `bytes`, and wraps them.
    fn new(bytes: &'a mut [u8]) -> Self
        ensures { result ≡ length bytes.old }
    {
        bytes.fill(0);
        ZeroBytes { bytes }
    }

    /// Zeroes the first `used` words of `bytes`, and wraps `bytes`. Precondition: all bytes after
    /// these words are zero.
    fn rezeroed(bytes: &'a mut [u8], used: u32) -> Self
        requires within { 8 * used ≤ length bytes.old }
        requires clear { IsClearFrom used bytes.old }
        ensures { result ≡ length bytes.old }
    {
        bytes[..8 * used as usize].fill(0);
        ZeroBytes { bytes }
    }

    /// The number of words of the segment that these bytes make: the number of whole words in
    /// `bytes`, or 536,870,911 if that is less.
    fn words(&self) -> u32
        ensures { result ≡ min (self.now / 8) max_segment_words }
    {
        (self.bytes.len() / 8).min(MAX_SEGMENT_WORDS as usize) as u32
    }

    /// The bytes of the segment's words.
    fn into_words(self) -> &'a mut [u8]
        ensures fresh { IsFresh 0 result.now }
        ensures words { length result.now / 8 ≡ min (self.entry / 8) max_segment_words }
    {
        let words = self.words();
        let ZeroBytes { bytes } = self;
        &mut bytes[..8 * words as usize]
    }
}

/// Makes segments like `HeapAllocator`, except for one: the scratch space, which is memory lent by
/// the caller.
///
/// One segment is made of the scratch space's whole words, or of the first 536,870,911 of them if
/// there are more. While no arena uses that segment, it is granted to every request that it is
/// large enough for; this takes no memory and is never refused. After it is returned, it can be
/// granted again. A scratch space without a whole word is never used.
///
/// An arena with this allocator stores the row of its first segment itself
/// (`keeps_first_in_arena`), so a message that fits in the scratch space takes no memory at all.
#[derive(Drop)]
pub struct ScratchSpaceHeapAllocator<'a> {
    scratch: Option<ZeroBytes<'a>>,
    scratch_words: u32,
    heap: HeapAllocator,
}

// There is no ghost field here: an arena over a type that holds a `&mut` and one would have no
// proof.
impl<'a> Model for ScratchSpaceHeapAllocator<'a> {
    ghost use Rattle.std.specs.Prelude.{◌≡◌, ◌≤◌, ◌/◌, min, is_some, unwrap_or};
    ghost use Rattle.std.specs.Option.{ForSome};
    ghost use Rattle.capnp_arena_traits.specs.Allocations.{max_segment_words};
    ghost use Rattle.capnp_arena.specs.Scratch.{Scratch};

    ghost Value = { Scratch };

    ghost view = { λ a. record { here = is_some a.scratch; zeros = unwrap_or a.scratch 0; scratch_words = a.scratch_words; heap = a.heap } };

    ghost invariant = { λ a. (a.scratch_words ≤ max_segment_words) × ForSome a.scratch (λ bytes. min (bytes / 8) max_segment_words ≡ a.scratch_words) };
}

impl<'a> ScratchSpaceHeapAllocator<'a> {
    ghost use Rattle.capnp_arena.specs.Scratch.{lends, offered, whole_words};

    /// Makes an allocator with `scratch` as its scratch space. Every other segment has at least
    /// `words` words. Zeroes all bytes of `scratch`, and takes no memory. Precondition: `words` is
    /// at most 536,870,911.
    pub fn new(alloc: Global, scratch: &'a mut [u8], words: u32) -> Self
        requires { words ≤ max_segment_words }
        ensures grants { (asked : ℕ) → IsTrue (⟦<Self as Allocator>⟧.grants result asked)
            ↔ ((0 < whole_words scratch.old) × (asked ≤ whole_words scratch.old)) }
        ensures offers { ⟦<Self as Allocator>⟧.offers result
            ≡ offered (λ asked given. given == max words asked) (whole_words scratch.old) }
        ensures refusals { ⟦<Self as Allocator>⟧.refusals result ≡ 0 }
        ensures scratch_words { result.scratch_words ≡ whole_words scratch.old }
        ensures zeros { result.zeros ≡ length scratch.old }
    {
        let scratch = ZeroBytes::new(scratch);
        let scratch_words = scratch.words();
        ScratchSpaceHeapAllocator {
            scratch: Some(scratch),
            scratch_words,
            heap: HeapAllocator::new(alloc, words),
        }
    }

    /// Lends the scratch space, which is then in use. Returns `None`, and changes nothing, if it is
    /// already in use, has fewer than `min_words` words, or has no whole word.
    fn lend(&mut self, min_words: u32) -> Option<&'a mut [u8]>
        ensures exactly { IsSome result ↔ IsTrue (lends self.old min_words) }
        ensures fresh { IfSome result (λ s. IsFresh min_words s.now
            × (length s.now / 8 ≡ self.old.scratch_words)) }
        ensures out { IsSome result → IsFalse self.new.here }
        ensures kept { IsNone result → self.new.here ≡ self.old.here }
        ensures words { self.new.scratch_words ≡ self.old.scratch_words }
        ensures heap { self.new.heap ≡ self.old.heap }
    {
        if self.scratch_words == 0 || min_words > self.scratch_words {
            return None;
        }
        let scratch = self.scratch.take()?;
        Some(scratch.into_words())
    }

    /// If `bytes` has as many bytes as the scratch space's segment, takes `bytes` back as the
    /// scratch space, and zeroes its first `used_words` words; otherwise does nothing.
    /// Precondition: all bytes after these words are zero.
    fn reclaim(&mut self, bytes: &'a mut [u8], used_words: u32)
        requires within { 8 * used_words ≤ length bytes.old }
        requires clear { IsClearFrom used_words bytes.old }
        ensures back { length bytes.old ≡ 8 * self.old.scratch_words → IsTrue self.new.here }
        ensures stays { IsTrue self.old.here → IsTrue self.new.here }
        ensures words { self.new.scratch_words ≡ self.old.scratch_words }
        ensures heap { self.new.heap ≡ self.old.heap }
    {
        if bytes.len() == 8 * self.scratch_words as usize {
            self.scratch = Some(ZeroBytes::rezeroed(bytes, used_words));
        }
    }
}

impl<'a> Allocator for ScratchSpaceHeapAllocator<'a> {
    ghost use Rattle.capnp_arena.specs.Scratch.{IsBorrowed, IsOwned, bytes_of, lends, offered};

    type Segment = ScratchSegment<&'a mut [u8]>;

    ghost first_in_arena = { true };

    #[inline(always)]
    fn keeps_first_in_arena() -> bool
        ensures { result ≡ true }
    {
        true
    }

    ghost refusals = { λ a. a.heap.refused };

    ghost offers = { λ a. offered (⟦<HeapAllocator as Allocator>⟧.offers a.heap) a.scratch_words };

    ghost grants = { lends };

    fn allocate_segment(
        &mut self,
        min_words: u32,
    ) -> Result<ScratchSegment<&'a mut [u8]>, ErrorKind>
        ensures fresh { IfOk result (λ s. IsFresh min_words (bytes_of s)) }
        ensures size { IfOk result (λ s.
            IsTrue (⟦<Self as Allocator>⟧.offers self.old min_words (length (bytes_of s) / 8))) }
        ensures counted { OnOk result (self.new.heap.refused ≡ self.old.heap.refused) }
        ensures too_large { max_segment_words < min_words
            → (result ≡ Err (MessageTooLarge min_words))
            × (self.new.heap.refused ≡ self.old.heap.refused) }
        ensures refused { min_words ≤ max_segment_words
            → IfErr result (λ e. (e ≡ AllocationFailed)
            × (self.new.heap.refused ≡ one_more self.old.heap.refused)) }
        ensures offers { ⟦<Self as Allocator>⟧.offers self.new
            ≡ ⟦<Self as Allocator>⟧.offers self.old }
        ensures sure { IsTrue (lends self.old min_words) → IsOk result }
        ensures lent { IsTrue (lends self.old min_words) → IsOkAnd result IsBorrowed }
        ensures whole { IsTrue (lends self.old min_words)
            → IfOk result (λ s. length (bytes_of s) / 8 ≡ self.old.scratch_words) }
        ensures words { self.new.scratch_words ≡ self.old.scratch_words }
        ensures as_heap { IsFalse (lends self.old min_words)
            → IfOk result (λ s. length (bytes_of s) / 8 ≡ max self.old.heap.words min_words) }
        ensures no_memory { IsTrue (lends self.old min_words) → self.new.heap ≡ self.old.heap }
        ensures out { IsTrue (lends self.old min_words) → IsFalse self.new.here }
        ensures owned { IsFalse (lends self.old min_words) → IfOk result IsOwned }
        ensures kept { IsFalse (lends self.old min_words) → self.new.here ≡ self.old.here }
    {
        if let Some(bytes) = self.lend(min_words) {
            return Ok(ScratchSegment::Borrowed(bytes));
        }
        let segment = self.heap.allocate_segment(min_words)?;
        Ok(ScratchSegment::Owned(segment))
    }

    fn deallocate_segment(&mut self, segment: ScratchSegment<&'a mut [u8]>, used_words: u32)
        requires within { 8 * used_words ≤ length (bytes_of segment) }
        requires clear { IsClearFrom used_words (bytes_of segment) }
        ensures refusals { self.new.heap.refused ≡ self.old.heap.refused }
        ensures offers { ⟦<Self as Allocator>⟧.offers self.new
            ≡ ⟦<Self as Allocator>⟧.offers self.old }
        ensures back { IsBorrowed segment.entry → length (bytes_of segment.entry)
            ≡ 8 * self.old.scratch_words → IsTrue self.new.here }
        ensures words { self.new.scratch_words ≡ self.old.scratch_words }
        ensures stays { IsTrue self.old.here → IsTrue self.new.here }
    {
        match segment {
            ScratchSegment::Borrowed(bytes) => self.reclaim(bytes, used_words),
            ScratchSegment::Owned(segment) => self.heap.deallocate_segment(segment, used_words),
        }
    }

    fn keep<T>(&mut self, list: &mut Vec<T>, row: T) -> Option<T>
        ensures kept { IsNone result → (list.new.items ≡ list.old.items ++ row ∷ [])
            × (self.new.heap.refused ≡ self.old.heap.refused) }
        ensures given_back { IfSome result (λ r. (r ≡ row) × (list.new.items ≡ list.old.items)
            × (self.new.heap.refused ≡ one_more self.old.heap.refused)) }
        ensures offers { ⟦<Self as Allocator>⟧.offers self.new
            ≡ ⟦<Self as Allocator>⟧.offers self.old }
        ensures here { self.new.here ≡ self.old.here }
        ensures words { self.new.scratch_words ≡ self.old.scratch_words }
    {
        self.heap.keep(list, row)
    }

    fn refused(&self) -> u64 {
        self.heap.refused()
    }
}
