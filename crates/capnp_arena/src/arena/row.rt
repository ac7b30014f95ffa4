//! A segment of a builder arena, and how much of it is allocated.
ghost use Rattle.std.specs.Prelude.{◌≡◌, ◌<◌, ◌≤◌, ◌+◌, ◌-◌, ◌*◌, ◌/◌, ◌↔◌, ◌++◌, [], ℕ, List, length, take, replicate, slice_index, slice_set, IsTrue};
ghost use Rattle.capnp_format.specs.Bytes.{words_of};
ghost use Rattle.capnp_arena_traits.specs.Allocations.{IsRow, max_segment_words, zeros};
ghost use Rattle.capnp_arena_traits.specs.Written.{with_copied, with_front};
ghost use Rattle.std.specs.Borrow.{sem, Lends, Array, u8 as byte};

use crate::arena::{MAX_SEGMENT_WORDS, Segment};
use capnp_words::words;

/// Lends the first `n` bytes of `segment` for writing, and leaves the others unchanged.
fn prefix_mut<S: Segment>(segment: &mut S, n: usize) -> &mut [u8]
    requires { n ≤ length (S.ready segment.old) }
    ensures* lends { sem 𝓛 (Lends S.row (Array byte 0) segment.entry result
        (λ ws. S.with_ready segment.old (with_front n (S.ready segment.old) ws))) }
    ensures now { result.now ≡ take n (S.ready segment.old) }
{
    let bytes = segment.bytes_mut();
    &mut bytes[..n]
}

/// A segment, and the number of its allocated words. The allocated words are ready to be read and
/// written; all other words are zero.
pub(crate) struct Row<S: Segment> {
    pub(crate) segment: S,
    pub(crate) used: u32,
    /// No row of the range that ends with this one (module `bounds`) has more room than `bound`.
    pub(crate) bound: u32,
    ghost clear: { IsRow used (S.ready segment) (length (S.content segment)) },
}

impl<S: Segment> Row<S> {
    ghost use Rattle.capnp_arena.specs.Bounds.{room};
    ghost use Rattle.capnp_arena.specs.Rewritten.{RewritesRow};
    ghost use Rattle.capnp_arena.specs.Row.{allocated, capacity, with_allocated};
    ghost use Rattle.capnp_arena.specs.contracts.arena.row.Row.{the_row};

    pub(crate) fn allocated(&self) -> &[u8]
        ensures { result.now ≡ allocated S.Segment self.now }
    {
        &self.segment.bytes()[..8 * self.used as usize]
    }

    /// Lends the allocated words, for writing.
    pub(crate) fn allocated_mut(&mut self) -> &mut [u8]
        ensures* lends { sem 𝓛 (Lends (the_row S.row S.Segment) (Array byte 0) self.entry result
            (with_allocated S.Segment self.old)) }
        ensures now { result.now ≡ allocated S.Segment self.old }
    {
        let n = 8 * self.used as usize;
        prefix_mut(&mut self.segment, n)
    }

    #[tactic(auto, using(crate::proofs::RowLemmas::fresh_rows))]
    pub(crate) fn new(segment: S) -> Row<S>
        requires fresh { S.content segment ≡ zeros (length (S.content segment) / 8) }
        requires small { length (S.content segment) / 8 ≤ max_segment_words }
        ensures none { allocated S.Segment result ≡ [] }
        ensures used { result.used ≡ 0 }
        ensures bound { result.bound ≡ max_segment_words }
        ensures segment { result.segment ≡ segment }
    {
        Row {
            segment,
            used: 0,
            bound: MAX_SEGMENT_WORDS,
        }
    }

    /// The number of words that can still be allocated.
    pub(crate) fn room(&self) -> u32
        ensures { result ≡ room S.Segment self.now }
    {
        (self.segment.len() / 8) as u32 - self.used
    }

    /// Whether `amount` more words can be allocated.
    pub(crate) fn has_room(&self, amount: u32) -> bool
        ensures { IsTrue result ↔ (self.now.used + amount ≤ capacity S.Segment self.now) }
    {
        self.used as usize + amount as usize <= self.segment.len() / 8
    }

    /// Allocates `amount` words after the allocated ones, and returns their position. The new words
    /// are zero. Precondition: the segment has room for them.
    #[tactic(auto, using(crate::proofs::RowLemmas::taking))]
    pub(crate) fn allocate_fitting(&mut self, amount: u32) -> u32
        requires { self.old.used + amount ≤ capacity S.Segment self.old }
        ensures at { result ≡ self.old.used }
        ensures taken { words_of (allocated S.Segment self.new)
            ≡ words_of (allocated S.Segment self.old) ++ replicate amount 0 }
        ensures used { self.new.used ≡ self.old.used + amount }
        ensures bound { self.new.bound ≡ self.old.bound }
        ensures capacity { capacity S.Segment self.new ≡ capacity S.Segment self.old }
    {
        let at = self.used;
        self.segment.make_ready(8 * (at + amount) as usize);
        self.used = at + amount;
        at
    }

    /// Allocated word `at`.
    pub(crate) fn word(&self, at: u32) -> u64
        requires { at < self.now.used }
        ensures { result ≡ slice_index (words_of (allocated S.Segment self.now)) at }
    {
        words::word_at(self.segment.bytes(), at as usize)
    }

    /// Writes `word` over allocated word `at`.
    #[inline(always)]
    pub(crate) fn put_word(&mut self, at: u32, word: u64)
        requires { at < self.old.used }
        ensures { RewritesRow S.Segment self.old self.new
            (slice_set (words_of (allocated S.Segment self.old)) at word) }
    {
        let start = 8 * at as usize;
        let bytes = self.segment.bytes_mut();
        words::put_word(&mut bytes[start..start + 8], 0, word);
    }

    /// Copies `n` words from position `from` of `row` to position `at` of this row.
    #[tactic(auto, using(crate::proofs::RowsLemmas::reading))]
    pub(crate) fn copy_from(&mut self, at: u32, row: &Row<S>, from: u32, n: u32)
        requires there { from + n ≤ row.now.used }
        requires inside { at + n ≤ self.old.used }
        ensures { RewritesRow S.Segment self.old self.new
            (with_copied (words_of (allocated S.Segment self.old)) at
            (words_of (allocated S.Segment row.now)) from n) }
    {
        let copied = words::word_range(row.allocated(), from as usize, n as usize);
        words::copy_words(self.allocated_mut(), at as usize, copied);
    }
}
