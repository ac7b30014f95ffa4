//! The audit: a walk over a message from its root that marks each word that it reaches.
ghost use Rattle.std.specs.Prelude.{◌≡◌, ℕ, ◌+◌, ◌<◌, ◌↔◌, ◌∷◌, [], IsTrue, IfOk, IfErr, length, map, slice_index};
ghost use Rattle.capnp_arena_traits.specs.Limits.{AreSmall};
ghost use Rattle.capnp_format.specs.Bytes.{words_of, message};
ghost use Rattle.capnp_format.specs.Forest.{IsForest};
ghost use Rattle.capnp_format.specs.Segments.{IsPlace, segment, word_at};
ghost use Rattle.capnp_format.specs.Tree.{Tree};
ghost use Rattle.capnp_words.specs.declared.error.ErrorKind.TheVariants.{AllocationFailed};
ghost use Rattle.layout_vectors.specs.Marks.{rows_of, TakesPads};
ghost use Rattle.layout_vectors.specs.Walks.{walk, TakesSpot, FitsRows};

use crate::vectors::landing::{follow, pointer_word};
use crate::vectors::marks::Marks;
use crate::vectors::objects::mark_object;
use crate::vectors::pending::push_place;
use capnp_arena::arena::{ReaderArena, ReaderArenaImpl, ReaderOptions, SegmentArray};
use capnp_arena_traits::arena::WordPlace;
use capnp_words::error::ErrorKind;
use capnp_words::wire_pointer::{WirePointer, WirePointerKind};
use capnp_words::words;
use std::alloc::{AllocError, Global};

/// Tests whether `segments` are as a builder leaves them: the root pointer has a value, which means
/// that it and all pointers that it leads to are valid; each word of an object or a landing pad is
/// inside its segment, and belongs to no other object or landing pad; the bits after the elements
/// of lists are zero; lists of structs claim exactly the words of their elements; and every other
/// word is zero.
///
/// Preconditions: `segments` has fewer than 2^32 segments, each of fewer than 2^32 words; segment 0
/// has a word. Fails with `AllocationFailed` if memory runs out. Uses a byte of memory for each
/// word, and eight for each pointer still to be visited. Reads each word at most twice, and uses no
/// more stack for deeper messages.
pub fn audit(alloc: Global, segments: &[&[u8]]) -> Result<bool, ErrorKind>
    requires small { AreSmall segments.now }
    requires root { IsPlace (message (map (λ s. s.now) segments.now)) 0 0 }
    ensures exactly { IfOk result (λ b. IsTrue b
        ↔ ((t : Tree) × IsForest (message (map (λ s. s.now) segments.now)) t)) }
    ensures named { IfErr result (λ e. e ≡ AllocationFailed) }
{
    let marks = match Marks::new(alloc, segments) {
        Ok(marks) => marks,
        Err(AllocError) => return Err(ErrorKind::AllocationFailed),
    };
    match SegmentArray::new(segments) {
        Some(array) => {
            let arena = ReaderArenaImpl::new(array, ReaderOptions::default());
            match walk_from_root(alloc, &arena, marks) {
                Ok(is_forest) => Ok(is_forest),
                Err(AllocError) => Err(ErrorKind::AllocationFailed),
            }
        }
        None => Ok(false),
    }
}

/// Tests whether the segments of `arena` are as a builder leaves them, like `audit`. Precondition:
/// `marks` has one mark for each word, and no mark is set.
fn walk_from_root<A: ReaderArena>(
    alloc: Global,
    arena: &A,
    mut marks: Marks,
) -> Result<bool, AllocError>
    requires fits { FitsRows (message (A.segments arena.now)) (rows_of marks) }
    requires blank { (u q : ℕ) → word_at (rows_of marks) u q ≡ 0 }
    ensures { IfOk result (λ b. IsTrue b
        ↔ ((t : Tree) × IsForest (message (A.segments arena.now)) t)) }
{
    let mut pending = Vec::new(alloc);
    if !marks.try_mark(0, 0, 1) {
        return Ok(false);
    }
    push_place(&mut pending, 0, 0)?;
    while let Some(spot) = pending.pop() {
        if !walk_pointer(arena, &mut marks, &mut pending, spot)? {
            return Ok(false);
        }
    }
    Ok(rest_is_zero(arena, &marks))
}

/// Marks the words of the object that the pointer at `spot` leads to, and of its landing pad.
/// Returns `false` if the pointer leads nowhere, a word of the landing pad is marked already, or
/// `mark_object` returns `false`.
fn walk_pointer<A: ReaderArena>(
    arena: &A,
    marks: &mut Marks,
    pending: &mut Vec<WordPlace>,
    spot: WordPlace,
) -> Result<bool, AllocError>
    requires { FitsRows (message (A.segments arena.now)) (rows_of marks.old) }
    ensures { IfOk result (TakesSpot (message (A.segments arena.now)) spot
        (walk marks.old pending.old) (walk marks.new pending.new)) }
{
    let word = pointer_word(arena, spot.segment, spot.at);
    if word.is_null() {
        return Ok(true);
    }
    match follow(arena, spot.segment, spot.at) {
        Some(landing) => {
            if mark_pads(marks, word) {
                mark_object(arena, marks, pending, landing)
            } else {
                Ok(false)
            }
        }
        None => Ok(false),
    }
}

/// If `word` is a far pointer, marks the words of its landing pad; otherwise marks nothing. Returns
/// `false` if one of these words doesn't exist or is marked already.
fn mark_pads(marks: &mut Marks, word: WirePointer) -> bool
    ensures { TakesPads (rows_of marks.old) (rows_of marks.new) word.0 result }
{
    if word.kind() == WirePointerKind::Far {
        let words = if word.is_double_far() { 2 } else { 1 };
        marks.try_mark(word.far_segment_id(), word.far_position_in_segment(), words)
    } else {
        true
    }
}

/// Whether each word that isn't marked is zero.
fn rest_is_zero<A: ReaderArena>(arena: &A, marks: &Marks) -> bool
    requires { FitsRows (message (A.segments arena.now)) (rows_of marks.now) }
    ensures { IsTrue result ↔ ((u q : ℕ) → word_at (rows_of marks.now) u q ≡ 0
        → word_at (message (A.segments arena.now)) u q ≡ 0) }
{
    for (id, row) in marks.rows.iter().enumerate() {
        let is_zero = match arena.get_segment(id as u32) {
            Ok(bytes) => are_unmarked_words_zero(bytes, row.as_slice()),
            Err(_) => true,
        };
        if !is_zero {
            return false;
        }
    }
    true
}

/// Whether each unmarked word of a segment is zero. `bytes` are the bytes of the segment, and `row`
/// the marks of its words.
fn are_unmarked_words_zero(bytes: &[u8], row: &[u8]) -> bool
    requires { length row.now ≡ length (words_of bytes.now) }
    ensures { IsTrue result
        ↔ ((q : ℕ) → slice_index row.now q ≡ 0 → slice_index (words_of bytes.now) q ≡ 0) }
{
    for (i, taken) in row.iter().enumerate() {
        if *taken == 0 && words::word_at(bytes, i) != 0 {
            return false;
        }
    }
    true
}
