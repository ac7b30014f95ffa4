//! The rows of a builder arena, one for each segment, all in one list.
ghost use Rattle.std.specs.Prelude.{◌≡◌, ◌≢◌, ◌<◌, ◌≤◌, ◌+◌, ◌*◌, ◌/◌, ◌↔◌, [], length, replicate, slice_get, Some, IsTrue, IsSome, IsNone, IfSome};
ghost use Rattle.std.specs.Borrow.{sem, Lends, Array, u8 as byte};
ghost use Rattle.capnp_format.specs.Bytes.{message};
ghost use Rattle.capnp_format.specs.Segments.{segment, word_at, words_at, IsPlace};
ghost use Rattle.capnp_arena_traits.specs.Allocations.{max_segments};
ghost use Rattle.capnp_arena.specs.Bounds.{FindsFit, HasBounds};
ghost use Rattle.capnp_arena.specs.Rewritten.{RewritesRows};
ghost use Rattle.capnp_arena.specs.Row.{shown, capacity_at};
ghost use Rattle.capnp_arena_traits.specs.Written.{extended, with_word, with_words};

use crate::arena::row::Row;
use crate::arena::rows::{At, allocated_in, copy_across_in};
use crate::arena::{Segment, WordPlace, bounds};
use std::alloc::Global;

/// Rows that are all in a list.
pub(crate) struct Listed<S: Segment> {
    pub(crate) rows: Vec<Row<S>>,
    ghost few: { length rows.items ≤ max_segments },
    ghost bounded: { HasBounds S.Segment rows.items },
}

impl<S: Segment> Listed<S> {
    ghost use Rattle.capnp_arena.specs.Listed.{with_bytes_listed};
    ghost use Rattle.capnp_arena.specs.contracts.arena.listed.Listed.{the_row};

    /// Makes the rows of an arena that has no segment yet. Takes no memory.
    #[inline(always)]
    pub(crate) fn new(alloc: Global) -> Self
        ensures { result.rows.items ≡ [] }
    {
        Listed {
            rows: Vec::new(alloc),
        }
    }

    /// The number of rows.
    #[inline(always)]
    pub(crate) fn len(&self) -> usize
        ensures { result ≡ length self.now.rows.items }
    {
        self.rows.len()
    }

    /// Whether row `id` has room for `amount` more words.
    #[inline(always)]
    fn has_room(&self, id: u32, amount: u32) -> bool
        requires { id < length self.now.rows.items }
        ensures { IsTrue result
            ↔ (length (segment (message (shown S.Segment self.now.rows.items)) id) + amount
            ≤ capacity_at S.Segment self.now.rows.items id) }
    {
        self.rows[id as usize].has_room(amount)
    }

    /// Allocates `amount` words after the allocated ones of row `id`, and returns their position.
    /// Precondition: the row has room for them.
    #[inline(always)]
    #[tactic(auto, using(crate::proofs::RowsLemmas::rows_written))]
    pub(crate) fn allocate_fitting(&mut self, id: u32, amount: u32) -> u32
        requires there { id < length self.old.rows.items }
        requires fits { length (segment (message (shown S.Segment self.old.rows.items)) id)
            + amount ≤ capacity_at S.Segment self.old.rows.items id }
        ensures at { result
            ≡ length (segment (message (shown S.Segment self.old.rows.items)) id) }
        ensures taken { RewritesRows S.Segment self.old.rows.items self.new.rows.items
            (extended (message (shown S.Segment self.old.rows.items)) id (replicate amount 0)) }
    {
        let row = &mut self.rows[id as usize];
        row.allocate_fitting(amount)
    }

    /// Allocates `amount` words after the allocated ones of row `id`, and returns their position;
    /// `None` if the row has no room for them.
    #[inline(always)]
    pub(crate) fn allocate(&mut self, id: u32, amount: u32) -> Option<u32>
        requires { id < length self.old.rows.items }
        ensures exactly { IsSome result
            ↔ (length (segment (message (shown S.Segment self.old.rows.items)) id) + amount
            ≤ capacity_at S.Segment self.old.rows.items id) }
        ensures taken { IfSome result (λ at. (at
            ≡ length (segment (message (shown S.Segment self.old.rows.items)) id))
            × (message (shown S.Segment self.new.rows.items)
            ≡ extended (message (shown S.Segment self.old.rows.items)) id
            (replicate amount 0))) }
        ensures none { IsNone result → message (shown S.Segment self.new.rows.items)
            ≡ message (shown S.Segment self.old.rows.items) }
        ensures room { capacity_at S.Segment self.new.rows.items
            ≡ capacity_at S.Segment self.old.rows.items }
    {
        if self.has_room(id, amount) {
            Some(self.allocate_fitting(id, amount))
        } else {
            None
        }
    }

    /// Word `at` of row `id`.
    #[inline(always)]
    pub(crate) fn word(&self, id: u32, at: u32) -> u64
        requires { IsPlace (message (shown S.Segment self.now.rows.items)) id at }
        ensures { result ≡ word_at (message (shown S.Segment self.now.rows.items)) id at }
    {
        self.rows[id as usize].word(at)
    }

    /// Writes `word` over word `at` of row `id`.
    #[inline(always)]
    #[tactic(auto, using(crate::proofs::RowsLemmas::rows_written))]
    pub(crate) fn put_word(&mut self, id: u32, at: u32, word: u64)
        requires { IsPlace (message (shown S.Segment self.old.rows.items)) id at }
        ensures { RewritesRows S.Segment self.old.rows.items self.new.rows.items
            (with_word (message (shown S.Segment self.old.rows.items)) id at word) }
    {
        let row = &mut self.rows[id as usize];
        row.put_word(at, word);
    }

    /// Copies `n` words from place `from` to place `to`. Precondition: the two places are in
    /// different rows.
    #[inline(always)]
    pub(crate) fn copy_across(&mut self, from: WordPlace, to: WordPlace, n: u32)
        requires rows { (from.segment < length self.old.rows.items)
            × (to.segment < length self.old.rows.items) }
        requires apart { from.segment ≢ to.segment }
        requires there { from.at + n
            ≤ length (segment (message (shown S.Segment self.old.rows.items)) from.segment) }
        requires inside { to.at + n
            ≤ length (segment (message (shown S.Segment self.old.rows.items)) to.segment) }
        ensures { RewritesRows S.Segment self.old.rows.items self.new.rows.items
            (with_words (message (shown S.Segment self.old.rows.items)) to.segment to.at
            (words_at (message (shown S.Segment self.old.rows.items)) from.segment from.at n)) }
    {
        let old = At {
            row: from.segment as usize,
            at: from.at,
        };
        let new = At {
            row: to.segment as usize,
            at: to.at,
        };
        copy_across_in(&mut self.rows, old, new, n);
    }

    /// The allocated words of row `id`; `None` if there is no such row.
    #[inline(always)]
    pub(crate) fn allocated(&self, id: u32) -> Option<&[u8]>
        ensures there { IsSome result ↔ (id < length self.now.rows.items) }
        ensures bytes { IfSome result (λ s. slice_get (shown S.Segment self.now.rows.items) id
            ≡ Some s.now) }
    {
        allocated_in(&self.rows, id as usize)
    }

    /// Lends the allocated words of row `id`, for writing.
    #[inline(always)]
    pub(crate) fn allocated_mut(&mut self, id: u32) -> &mut [u8]
        requires { id < length self.old.rows.items }
        ensures* lends { sem 𝓛 (Lends (the_row S.row S.Segment) (Array byte 0) self.entry result
            (with_bytes_listed S.Segment self.old id)) }
        ensures now { slice_get (shown S.Segment self.old.rows.items) id ≡ Some result.now }
    {
        let row = &mut self.rows[id as usize];
        row.allocated_mut()
    }

    /// The first row with room for `amount` more words.
    #[inline(always)]
    pub(crate) fn first_fit(&mut self, amount: u32) -> Option<u32>
        ensures { FindsFit S.Segment self.old.rows.items self.new.rows.items amount result }
    {
        bounds::first_fit(&mut self.rows, amount)
    }
}
