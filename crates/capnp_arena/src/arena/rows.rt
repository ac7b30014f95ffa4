//! The rows of a builder arena whose allocator returns `true` from `keeps_first_in_arena`. A row is
//! a segment with the number of its allocated words. The first row is in the struct `Rows` itself,
//! so it takes no memory from the heap; the others are in a list. Any other builder arena uses
//! module `listed`.
//!
//! Most messages have one segment, and most words are written in it. So the code for row 0 is
//! inlined, and the code for other rows is in functions that aren't inlined.
ghost use Rattle.std.specs.Prelude.{◌≡◌, ◌≢◌, ◌<◌, ◌≤◌, ◌+◌, ◌-◌, ◌*◌, ◌/◌, ◌↔◌, ◌∷◌, [], length, replicate, slice_get, Some, IsSome, IsNone, IfSome};
ghost use Rattle.std.specs.Borrow.{sem, Lends, Array, u8 as byte};
ghost use Rattle.capnp_format.specs.Bytes.{message};
ghost use Rattle.capnp_format.specs.Segments.{segment, word_at, words_at, IsPlace};
ghost use Rattle.capnp_arena_traits.specs.Allocations.{IsFresh};
ghost use Rattle.capnp_arena.specs.Bounds.{FindsFit, HasBounds};
ghost use Rattle.capnp_arena.specs.Rewritten.{KeepsList, RewritesList, RewritesRows};
ghost use Rattle.capnp_arena.specs.Row.{GainsRow, most_others, shown, capacity_at};
ghost use Rattle.capnp_arena_traits.specs.Written.{extended, with_word, with_words};

use crate::arena::row::Row;
use crate::arena::{Segment, WordPlace, bounds};
use std::alloc::Global;
use std::mem::replace;

/// Allocates `amount` words after the allocated ones of row `id`, and returns their position.
/// Precondition: the row has room for them.
#[cold]
#[inline(never)]
#[tactic(auto, using(crate::proofs::RowsLemmas::rows_written))]
fn allocate_fitting_in<S: Segment>(rows: &mut [Row<S>], id: usize, amount: u32) -> u32
    requires there { id < length rows.old }
    requires fits { length (segment (message (shown S.Segment rows.old)) id) + amount
        ≤ capacity_at S.Segment rows.old id }
    ensures at { result ≡ length (segment (message (shown S.Segment rows.old)) id) }
    ensures taken { RewritesList S.Segment rows.old rows.new
        (extended (message (shown S.Segment rows.old)) id (replicate amount 0)) }
{
    let row = &mut rows[id];
    row.allocate_fitting(amount)
}

/// Allocates `amount` words after the allocated ones of row `id`, and returns their position;
/// `None` if the row has no room for them.
#[cold]
#[inline(never)]
fn allocate_in<S: Segment>(rows: &mut [Row<S>], id: usize, amount: u32) -> Option<u32>
    requires { id < length rows.old }
    ensures exactly { IsSome result
        ↔ (length (segment (message (shown S.Segment rows.old)) id) + amount
        ≤ capacity_at S.Segment rows.old id) }
    ensures taken { IfSome result
        (λ at. (at ≡ length (segment (message (shown S.Segment rows.old)) id))
        × (message (shown S.Segment rows.new)
        ≡ extended (message (shown S.Segment rows.old)) id (replicate amount 0))) }
    ensures none { IsNone result
        → message (shown S.Segment rows.new) ≡ message (shown S.Segment rows.old) }
    ensures kept { KeepsList S.Segment rows.old rows.new }
{
    if rows[id].has_room(amount) {
        Some(allocate_fitting_in(rows, id, amount))
    } else {
        None
    }
}

/// Word `at` of row `id`.
#[cold]
#[inline(never)]
fn word_in<S: Segment>(rows: &[Row<S>], id: usize, at: u32) -> u64
    requires { IsPlace (message (shown S.Segment rows.now)) id at }
    ensures { result ≡ word_at (message (shown S.Segment rows.now)) id at }
{
    rows[id].word(at)
}

/// Writes `word` over word `at` of row `id`.
#[cold]
#[inline(never)]
#[tactic(auto, using(crate::proofs::RowsLemmas::rows_written))]
fn put_word_in<S: Segment>(rows: &mut [Row<S>], id: usize, at: u32, word: u64)
    requires { IsPlace (message (shown S.Segment rows.old)) id at }
    ensures { RewritesList S.Segment rows.old rows.new
        (with_word (message (shown S.Segment rows.old)) id at word) }
{
    let row = &mut rows[id];
    row.put_word(at, word);
}

/// A place in a list of rows: a row, by its index in the list, and a position in that row, in
/// words.
#[derive(Clone, Copy)]
pub(crate) struct At {
    pub(crate) row: usize,
    pub(crate) at: u32,
}

/// Copies `n` words from position `from` of `row` to place `to` of `rows`.
#[inline(never)]
#[tactic(auto, using(crate::proofs::RowsLemmas::rows_written))]
fn copy_in<S: Segment>(rows: &mut [Row<S>], to: At, row: &Row<S>, from: u32, n: u32)
    requires row { to.row < length rows.old }
    requires there { from + n ≤ row.now.used }
    requires inside { to.at + n
        ≤ length (segment (message (shown S.Segment rows.old)) to.row) }
    ensures { RewritesList S.Segment rows.old rows.new
        (with_words (message (shown S.Segment rows.old)) to.row to.at
        (words_at (message (shown S.Segment (row.now ∷ []))) 0 from n)) }
{
    let written = &mut rows[to.row];
    written.copy_from(to.at, row, from, n);
}

/// Copies `n` words from place `from` to place `to`. Precondition: the two places are in different
/// rows.
pub(crate) fn copy_across_in<S: Segment>(rows: &mut [Row<S>], from: At, to: At, n: u32)
    requires rows { (from.row < length rows.old) × (to.row < length rows.old) }
    requires apart { from.row ≢ to.row }
    requires there { from.at + n
        ≤ length (segment (message (shown S.Segment rows.old)) from.row) }
    requires inside { to.at + n ≤ length (segment (message (shown S.Segment rows.old)) to.row) }
    ensures { RewritesList S.Segment rows.old rows.new
        (with_words (message (shown S.Segment rows.old)) to.row to.at
        (words_at (message (shown S.Segment rows.old)) from.row from.at n)) }
{
    if from.row < to.row {
        let (front, back) = rows.split_at_mut(to.row);
        let row = &mut back[0];
        row.copy_from(to.at, &front[from.row], from.at, n);
    } else {
        let (front, back) = rows.split_at_mut(from.row);
        let row = &mut front[to.row];
        row.copy_from(to.at, &back[0], from.at, n);
    }
}

/// The allocated words of row `id`; `None` if there is no such row.
#[inline(always)]
#[tactic(auto, using(crate::proofs::RowsLemmas::reading))]
pub(crate) fn allocated_in<S: Segment>(rows: &[Row<S>], id: usize) -> Option<&[u8]>
    ensures there { IsSome result ↔ (id < length rows.now) }
    ensures bytes { IfSome result (λ s. slice_get (shown S.Segment rows.now) id ≡ Some s.now) }
{
    match rows.get(id) {
        Some(row) => Some(row.allocated()),
        None => None,
    }
}

/// The rows of an arena: the first one, outside of the list, and a list of the others.
pub(crate) struct Rows<S: Segment> {
    pub(crate) first: Row<S>,
    /// Whether there is a first row; if not, `first` has no words, and there are no others.
    pub(crate) there: bool,
    pub(crate) others: Vec<Row<S>>,
    ghost few: { length others.items ≤ most_others there },
    ghost bounded: { HasBounds S.Segment others.items },
}

impl<S: Segment> Rows<S> {
    ghost use Rattle.capnp_arena.specs.Row.{allocated};
    ghost use Rattle.capnp_arena.specs.Rows.{all, with_bytes_apart};
    ghost use Rattle.capnp_arena.specs.contracts.arena.rows.Rows.{the_row};

    /// Makes the rows of an arena that has no segment yet. Takes no memory.
    #[tactic(auto, using(crate::proofs::RowLemmas::fresh_rows))]
    pub(crate) fn new(alloc: Global) -> Self
        ensures { all S.Segment result ≡ [] }
    {
        Rows {
            first: Row {
                segment: S::empty(alloc),
                used: 0,
                bound: 0,
            },
            there: false,
            others: Vec::new(alloc),
        }
    }

    /// The number of rows.
    pub(crate) fn len(&self) -> usize
        ensures { result ≡ length (all S.Segment self.now) }
    {
        if self.there { self.others.len() + 1 } else { 0 }
    }

    /// Allocates `amount` words after the allocated ones of row `id`, and returns their position.
    /// Precondition: the row has room for them.
    #[inline(always)]
    #[tactic(auto, using(crate::proofs::ListedLemmas::listing))]
    pub(crate) fn allocate_fitting(&mut self, id: u32, amount: u32) -> u32
        requires there { id < length (all S.Segment self.old) }
        requires fits { length (segment (message (shown S.Segment (all S.Segment self.old))) id)
            + amount ≤ capacity_at S.Segment (all S.Segment self.old) id }
        ensures at { result
            ≡ length (segment (message (shown S.Segment (all S.Segment self.old))) id) }
        ensures taken { RewritesRows S.Segment (all S.Segment self.old) (all S.Segment self.new)
            (extended (message (shown S.Segment (all S.Segment self.old))) id
            (replicate amount 0)) }
    {
        if id == 0 {
            self.first.allocate_fitting(amount)
        } else {
            allocate_fitting_in(&mut self.others, id as usize - 1, amount)
        }
    }

    /// Allocates `amount` words after the allocated ones of row `id`, and returns their position;
    /// `None` if the row has no room for them.
    #[inline(always)]
    #[tactic(auto, using(crate::proofs::ListedLemmas::listing))]
    pub(crate) fn allocate(&mut self, id: u32, amount: u32) -> Option<u32>
        requires { id < length (all S.Segment self.old) }
        ensures exactly { IsSome result
            ↔ (length (segment (message (shown S.Segment (all S.Segment self.old))) id) + amount
            ≤ capacity_at S.Segment (all S.Segment self.old) id) }
        ensures taken { IfSome result (λ at. (at
            ≡ length (segment (message (shown S.Segment (all S.Segment self.old))) id))
            × (message (shown S.Segment (all S.Segment self.new))
            ≡ extended (message (shown S.Segment (all S.Segment self.old))) id
            (replicate amount 0))) }
        ensures none { IsNone result → message (shown S.Segment (all S.Segment self.new))
            ≡ message (shown S.Segment (all S.Segment self.old)) }
        ensures room { capacity_at S.Segment (all S.Segment self.new)
            ≡ capacity_at S.Segment (all S.Segment self.old) }
    {
        if id == 0 {
            if self.first.has_room(amount) {
                Some(self.first.allocate_fitting(amount))
            } else {
                None
            }
        } else {
            allocate_in(&mut self.others, id as usize - 1, amount)
        }
    }

    /// Word `at` of row `id`.
    #[inline(always)]
    #[tactic(auto, using(crate::proofs::ListedLemmas::listing))]
    pub(crate) fn word(&self, id: u32, at: u32) -> u64
        requires { IsPlace (message (shown S.Segment (all S.Segment self.now))) id at }
        ensures { result ≡ word_at (message (shown S.Segment (all S.Segment self.now))) id at }
    {
        if id == 0 {
            self.first.word(at)
        } else {
            word_in(&self.others, id as usize - 1, at)
        }
    }

    /// Writes `word` over word `at` of row `id`.
    #[inline(always)]
    #[tactic(auto, using(crate::proofs::ListedLemmas::listing))]
    pub(crate) fn put_word(&mut self, id: u32, at: u32, word: u64)
        requires { IsPlace (message (shown S.Segment (all S.Segment self.old))) id at }
        ensures { RewritesRows S.Segment (all S.Segment self.old) (all S.Segment self.new)
            (with_word (message (shown S.Segment (all S.Segment self.old))) id at word) }
    {
        if id == 0 {
            self.first.put_word(at, word);
        } else {
            put_word_in(&mut self.others, id as usize - 1, at, word);
        }
    }

    /// Copies `n` words from place `from` to place `to`. Precondition: the two places are in
    /// different rows.
    #[tactic(auto, using(crate::proofs::ListedLemmas::listing))]
    pub(crate) fn copy_across(&mut self, from: WordPlace, to: WordPlace, n: u32)
        requires rows { (from.segment < length (all S.Segment self.old))
            × (to.segment < length (all S.Segment self.old)) }
        requires apart { from.segment ≢ to.segment }
        requires there { from.at + n
            ≤ length (segment (message (shown S.Segment (all S.Segment self.old))) from.segment) }
        requires inside { to.at + n
            ≤ length (segment (message (shown S.Segment (all S.Segment self.old))) to.segment) }
        ensures { RewritesRows S.Segment (all S.Segment self.old) (all S.Segment self.new)
            (with_words (message (shown S.Segment (all S.Segment self.old))) to.segment to.at
            (words_at (message (shown S.Segment (all S.Segment self.old)))
            from.segment from.at n)) }
    {
        if from.segment == 0 {
            let new = At {
                row: to.segment as usize - 1,
                at: to.at,
            };
            copy_in(&mut self.others, new, &self.first, from.at, n);
        } else if to.segment == 0 {
            self.first
                .copy_from(to.at, &self.others[from.segment as usize - 1], from.at, n);
        } else {
            let old = At {
                row: from.segment as usize - 1,
                at: from.at,
            };
            let new = At {
                row: to.segment as usize - 1,
                at: to.at,
            };
            copy_across_in(&mut self.others, old, new, n);
        }
    }

    /// The allocated words of row `id`; `None` if there is no such row.
    #[inline(always)]
    pub(crate) fn allocated(&self, id: u32) -> Option<&[u8]>
        ensures there { IsSome result ↔ (id < length (all S.Segment self.now)) }
        ensures bytes { IfSome result (λ s. slice_get (shown S.Segment (all S.Segment self.now)) id
            ≡ Some s.now) }
    {
        if id > 0 {
            return allocated_in(&self.others, id as usize - 1);
        }
        if self.there {
            Some(self.first.allocated())
        } else {
            None
        }
    }

    /// Lends the allocated words of the first row, for writing.
    #[inline(always)]
    fn first_mut(&mut self) -> &mut [u8]
        ensures* lends { sem 𝓛 (Lends (the_row S.row S.Segment) (Array byte 0) self.entry result
            (with_bytes_apart S.Segment self.old 0)) }
        ensures now { result.now ≡ allocated S.Segment self.old.first }
    {
        self.first.allocated_mut()
    }

    /// Lends the allocated words of row `id`, for writing. Precondition: it isn't the first row.
    #[cold]
    #[inline(never)]
    fn other_mut(&mut self, id: u32) -> &mut [u8]
        requires some { 0 < id }
        requires there { id < length (all S.Segment self.old) }
        ensures* lends { sem 𝓛 (Lends (the_row S.row S.Segment) (Array byte 0) self.entry result
            (with_bytes_apart S.Segment self.old id)) }
        ensures now { slice_get (shown S.Segment (all S.Segment self.old)) id ≡ Some result.now }
    {
        let row = &mut self.others[id as usize - 1];
        row.allocated_mut()
    }

    /// Lends the allocated words of row `id`, for writing.
    #[inline(always)]
    pub(crate) fn allocated_mut(&mut self, id: u32) -> &mut [u8]
        requires { id < length (all S.Segment self.old) }
        ensures* lends { sem 𝓛 (Lends (the_row S.row S.Segment) (Array byte 0) self.entry result
            (with_bytes_apart S.Segment self.old id)) }
        ensures now { slice_get (shown S.Segment (all S.Segment self.old)) id ≡ Some result.now }
    {
        if id == 0 {
            self.first_mut()
        } else {
            self.other_mut(id)
        }
    }

    /// The first row with room for `amount` more words. If it is row 0, as in most messages, looks
    /// at no bound.
    #[inline(always)]
    pub(crate) fn first_fit(&mut self, amount: u32) -> Option<u32>
        ensures { FindsFit S.Segment (all S.Segment self.old) (all S.Segment self.new)
            amount result }
    {
        if self.there {
            if self.first.has_room(amount) {
                return Some(0);
            }
            match bounds::first_fit_by_bounds(&mut self.others, amount) {
                Some(k) => Some(k + 1),
                None => None,
            }
        } else {
            None
        }
    }
}

impl<S: Segment + Drop> Rows<S> {
    ghost use Rattle.capnp_arena.specs.Rows.{all};

    /// Adds the first row, for `segment`, with none of its words allocated. Precondition: there are
    /// no rows yet.
    pub(crate) fn push_first(&mut self, segment: S)
        requires none { length (all S.Segment self.old) ≡ 0 }
        requires fresh { IsFresh 0 (S.Segment.content segment) }
        ensures { GainsRow S.Segment (all S.Segment self.old) (all S.Segment self.new) segment }
    {
        let empty = replace(&mut self.first, Row::new(segment));
        self.there = true;
        let Row {
            segment,
            used: _,
            bound: _,
        } = empty;
        drop(segment);
    }
}
