//! Marks of the words of a message.
ghost use Rattle.std.specs.Prelude.{◌≡◌, ◌≢◌, ℕ, ◌+◌, ◌/◌, ◌<◌, ◌≤◌, List, IsTrue, IfOk, Bool, false, length, map, replicate, slice_index, slice_get, vec_items};
ghost use borrow.Rule.Slice.PartMut.{put_mid};
ghost use Rattle.capnp_format.specs.Segments.{segment, word_at};
ghost use Rattle.capnp_arena.specs.declared.arena.reader_segments.ReaderSegments.{Ghosts};
ghost use Rattle.layout_vectors.specs.Marks.{rows_of, TakesRow, IsMarkedWithin, AreFreeWithin};

use std::alloc::{AllocError, Global};

/// A byte for each word of a message: 1 if the word is marked, otherwise 0.
#[derive(Drop)]
pub(crate) struct Marks {
    pub(crate) rows: Vec<Vec<u8>>,
}

/// Whether none of the `n` words from `start` on is marked in `row`.
fn are_free(row: &[u8], start: usize, n: usize) -> bool
    requires { start + n ≤ length row.now }
    ensures free { IsTrue result → AreFreeWithin row.now start n }
    ensures taken { result ≡ false → IsMarkedWithin row.now start n }
{
    for i in start..start + n {
        if row[i] != 0 {
            return false;
        }
    }
    true
}

/// Marks the `n` words from `start` on in `row`.
fn mark_words(row: &mut [u8], start: usize, n: usize)
    requires { start + n ≤ length row.old }
    ensures { row.new ≡ put_mid start n row.old (replicate n 1) }
{
    row[start..start + n].fill(1);
}

impl Marks {
    /// Makes a mark, not set, for each word of `segments`.
    pub(crate) fn new(alloc: Global, segments: &[&[u8]]) -> Result<Self, AllocError>
        ensures { IfOk result
            (λ m. rows_of m ≡ map (λ s. replicate (length s.now / 8) 0) segments.now) }
    {
        let mut rows = Vec::new(alloc);
        for segment in segments {
            let row = Vec::from_elem(alloc, 0u8, segment.len() / 8)?;
            rows.push(row)?;
        }
        Ok(Marks { rows })
    }

    /// The number of words of segment `id`; 0 if there is no such segment.
    fn segment_length(&self, id: u32) -> usize
        ensures { result ≡ length (segment (rows_of self.now) id) }
    {
        match self.rows.get(id as usize) {
            Some(row) => row.len(),
            None => 0,
        }
    }

    /// Marks the `n` words of segment `id` from `start` on and returns `true`. If one of them
    /// doesn't exist or is marked already, marks none and returns `false`.
    pub(crate) fn try_mark(&mut self, id: u32, start: u32, n: u32) -> bool
        ensures inside { IsTrue result → start + n ≤ length (segment (rows_of self.old) id) }
        ensures taken { IsTrue result → TakesRow (rows_of self.old) (rows_of self.new) id start n }
        ensures refused { result ≡ false → start + n ≤ length (segment (rows_of self.old) id)
            → IsMarkedWithin (segment (rows_of self.old) id) start n }
    {
        if start as usize + n as usize > self.segment_length(id) {
            return false;
        }
        if n == 0 {
            return true;
        }
        self.try_mark_nonempty(id, start as usize, n as usize)
    }

    /// Marks the `n` words of segment `id` from `start` on and returns `true`. If one of them is
    /// marked already, marks none and returns `false`. Preconditions: the words exist; `n` isn't 0.
    fn try_mark_nonempty(&mut self, id: u32, start: usize, n: usize) -> bool
        requires some { 0 < n }
        requires inside { start + n ≤ length (segment (rows_of self.old) id) }
        ensures taken { IsTrue result → TakesRow (rows_of self.old) (rows_of self.new) id start n }
        ensures refused { result ≡ false → IsMarkedWithin (segment (rows_of self.old) id) start n }
    {
        let row = &mut self.rows[id as usize];
        if !are_free(row.as_slice(), start, n) {
            return false;
        }
        mark_words(row.as_mut_slice(), start, n);
        true
    }
}
