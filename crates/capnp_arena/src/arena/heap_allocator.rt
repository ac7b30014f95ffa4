//! Segments on the heap.
ghost use Rattle.std.specs.Prelude.{◌≡◌, ◌≤◌, ◌==◌, max};
ghost use Rattle.capnp_arena_traits.specs.Allocations.{max_segment_words};

use crate::arena::{Allocator, MAX_SEGMENT_WORDS, Segment, push_or_count_refusal};
use capnp_words::error::ErrorKind;
use std::alloc::Global;

/// A segment on the heap.
#[derive(Drop)]
pub struct HeapSegment {
    bytes: Vec<u8>,
}

impl Segment for HeapSegment {
    ghost use Rattle.capnp_arena.specs.Heap.{with_bytes};
    ghost use Rattle.capnp_arena.specs.HeapLemmas.{with_bytes-as_long, with_bytes-holds, all_ready};

    ghost content = { λ s. s.bytes.items };

    ghost ready = { λ s. s.bytes.items };

    ghost with_ready = { with_bytes };

    ghost holds = { with_bytes-holds };

    ghost as_long = { with_bytes-as_long };

    ghost zeros_behind = { λ s. all_ready s.bytes.items };

    fn empty(alloc: Global) -> Self {
        HeapSegment {
            bytes: Vec::new(alloc),
        }
    }

    #[inline(always)]
    fn len(&self) -> usize {
        self.bytes.len()
    }

    fn bytes(&self) -> &[u8] {
        self.bytes.as_slice()
    }

    fn bytes_mut(&mut self) -> &mut [u8] {
        self.bytes.as_mut_slice()
    }

    /// Does nothing: all bytes are initialized from the start.
    #[inline(always)]
    fn make_ready(&mut self, _bytes: usize) {}
}

/// Makes segments on the heap, each of `words` words, or of as many as requested if that is more.
#[derive(Drop)]
pub struct HeapAllocator {
    alloc: Global,
    words: u32,
    refused: u64,
    ghost small: { words ≤ max_segment_words },
}

impl HeapAllocator {
    /// Makes an allocator that has refused nothing yet. Each of its segments has at least `words`
    /// words. Precondition: `words` is at most 536,870,911.
    pub fn new(alloc: Global, words: u32) -> Self
        requires { words ≤ max_segment_words }
        ensures words { result.words ≡ words }
        ensures refused { result.refused ≡ 0 }
    {
        HeapAllocator {
            alloc,
            words,
            refused: 0,
        }
    }
}

impl Allocator for HeapAllocator {
    type Segment = HeapSegment;

    #[inline(always)]
    fn keeps_first_in_arena() -> bool {
        false
    }

    ghost refusals = { λ a. a.refused };

    ghost offers = { λ a asked words. words == max a.words asked };

    fn allocate_segment(&mut self, min_words: u32) -> Result<HeapSegment, ErrorKind> {
        if min_words > MAX_SEGMENT_WORDS {
            return Err(ErrorKind::MessageTooLarge(min_words as usize));
        }
        let words = self.words.max(min_words);
        match Vec::from_elem(self.alloc, 0u8, 8 * words as usize) {
            Ok(bytes) => Ok(HeapSegment { bytes }),
            Err(_) => {
                self.refused = self.refused.saturating_add(1);
                Err(ErrorKind::AllocationFailed)
            }
        }
    }

    fn deallocate_segment(&mut self, segment: HeapSegment, _used_words: u32) {
        drop(segment);
    }

    fn keep<T>(&mut self, list: &mut Vec<T>, row: T) -> Option<T> {
        push_or_count_refusal(list, row, &mut self.refused)
    }

    fn refused(&self) -> u64 {
        self.refused
    }
}
