//! The arena of a message being built.
ghost use Rattle.std.below.core.specs.declared.int.i32.TheConstants.{MAX};
ghost use Rattle.std.specs.Prelude.{◌≡◌, ◌⊎◌, ◌<◌, ◌≤◌, ◌+◌, ◌*◌, ◌/◌, ◌^◌, ◌↔◌, ◌++◌, ◌∷◌, [], ℕ, ℤ, pos, false, refl, length, map, replicate, Some, None, IsTrue, IsSome, IsNone, IfSome, IsOk, IfOk, OnOk, OnErr, IfErr, slice_get};
ghost use Rattle.capnp_format.specs.Bytes.{message};
ghost use Rattle.capnp_format.specs.Segments.{segment};
ghost use Rattle.capnp_words.specs.declared.error.ErrorKind.TheVariants.{AllocationFailed, InvalidSegmentId, MessageTooLarge};
ghost use Rattle.capnp_arena_traits.specs.Allocations.{IsFresh, max_segments, max_segment_words};
ghost use Rattle.capnp_arena_traits.specs.View.{view_of};
ghost use Rattle.capnp_arena_traits.specs.Limits.{IsSmall};
ghost use Rattle.capnp_arena.specs.Another.{TakesAnother};
ghost use Rattle.capnp_arena.specs.Counted.{CountsRefusal, RefusesNothing};
ghost use Rattle.capnp_arena.specs.Output.{output_bytes, is_single};
ghost use Rattle.capnp_arena.specs.RoomLemmas.{rows_within, rows_small, same_room};
ghost use Rattle.capnp_arena.specs.Row.{GainsRow, shown, capacity_at};
ghost use Rattle.capnp_arena.specs.Kept.{arena_rows, listed_with_bytes, apart_with_bytes};
ghost use Rattle.capnp_arena.specs.WithBytesLemmas.{kept_shown, kept_capacity};
ghost use Rattle.capnp_arena.specs.Rows.{all};
ghost use Rattle.capnp_arena_traits.specs.Checks.{total_words};
ghost use Rattle.capnp_arena_traits.specs.Taking.{IsFull, IsFirstFit, IsAllocationRefusal, SameRoomBelow};
ghost use Rattle.capnp_arena_traits.specs.Written.{with_more};

use crate::arena::listed::Listed;
use crate::arena::row::Row;
use crate::arena::rows::Rows;
use crate::arena::{
    Allocator, BuilderArena, MAX_SEGMENTS, NullAllocator, OutputSegments, ReaderArena, Segment,
    SegmentId, WordPlace,
};
use capnp_arena_traits::arena::sealed::Closed;
use capnp_words::error::ErrorKind;
use capnp_words::words;
use std::alloc::Global;

/// A message being built, with 0 to 4,294,967,295 segments, which the allocator grants. The arena's
/// nesting limit is `i32::MAX`, and reading from it charges nothing.
///
/// Dropping the arena returns each segment to the allocator exactly once, in order of number.
pub struct BuilderArenaImpl<A: Allocator> {
    alloc: Global,
    allocator: A,
    /// All rows, if `keeps_first_in_arena` of the allocator is `false`; otherwise empty.
    listed: Listed<A::Segment>,
    /// All rows, with the first one outside of the list, if `keeps_first_in_arena` of the allocator
    /// is `true`; otherwise empty.
    apart: Rows<A::Segment>,
}

/// Returns the segment of a row to the allocator.
#[tactic(auto, using(crate::proofs::RowLemmas::segment_clear))]
fn deallocate<A: Allocator>(allocator: &mut A, row: Row<A::Segment>)
    ensures { RefusesNothing A.Allocator allocator.old allocator.new }
{
    let Row {
        segment,
        used,
        bound: _,
    } = row;
    allocator.deallocate_segment(segment, used);
}

/// Returns the segment of each row in `rows` to the allocator exactly once, in order of number.
#[inline(always)]
fn deallocate_list<A: Allocator>(allocator: &mut A, mut rows: Vec<Row<A::Segment>>)
    ensures { RefusesNothing A.Allocator allocator.old allocator.new }
{
    if rows.len() > 1 {
        rows.reverse();
    }
    while let Some(row) = rows.pop() {
        deallocate(allocator, row);
    }
    rows.destroy_empty();
}

/// For an arena that stores its first row outside of the list: returns each segment in the list,
/// `rows`, to the allocator exactly once, in order of number. For most messages the list is empty.
#[inline(never)]
fn deallocate_others<A: Allocator>(allocator: &mut A, rows: Vec<Row<A::Segment>>)
    ensures { RefusesNothing A.Allocator allocator.old allocator.new }
{
    if rows.is_empty() {
        rows.destroy_empty();
    } else {
        deallocate_list(allocator, rows);
    }
}

/// For an arena that stores its first row outside of the list: returns each segment to the
/// allocator exactly once, in order of number.
#[inline(always)]
fn deallocate_rows<A: Allocator>(allocator: &mut A, rows: Rows<A::Segment>)
    ensures { RefusesNothing A.Allocator allocator.old allocator.new }
{
    let Rows {
        first,
        there,
        others,
    } = rows;
    if there {
        deallocate(allocator, first);
        deallocate_others(allocator, others);
    } else {
        let Row {
            segment,
            used: _,
            bound: _,
        } = first;
        drop(segment);
        others.destroy_empty();
    }
}

/// Returns each segment to the allocator exactly once, in order of number. In every arena at least
/// one of `listed` and `apart` is empty.
#[inline(always)]
fn deallocate_all<A: Allocator>(
    allocator: &mut A,
    listed: Listed<A::Segment>,
    apart: Rows<A::Segment>,
)
    ensures { RefusesNothing A.Allocator allocator.old allocator.new }
{
    deallocate_rows(allocator, apart);
    let Listed { rows } = listed;
    deallocate_list(allocator, rows);
}

/// Appends `segment`, with none of its words allocated. If there is no memory for its row, returns
/// the segment to the allocator and refuses with `AllocationFailed`. The first row needs no memory.
#[tactic(auto, using(crate::proofs::TakingLemmas::pushed, crate::proofs::BoundsLemmas::bounded_pushed))]
fn push_to_rows<A: Allocator>(
    allocator: &mut A,
    rows: &mut Rows<A::Segment>,
    segment: A::Segment,
) -> Result<(), ErrorKind>
    requires few { length (all A.Segment.Segment rows.old) < max_segments }
    requires fresh { IsFresh 0 (A.Segment.content segment) }
    ensures put { OnOk result (GainsRow A.Segment.Segment (all A.Segment.Segment rows.old)
        (all A.Segment.Segment rows.new) segment) }
    ensures first { length (all A.Segment.Segment rows.old) ≡ 0 → IsOk result }
    ensures refused { OnErr result
        (all A.Segment.Segment rows.new ≡ all A.Segment.Segment rows.old) }
    ensures counted { CountsRefusal A.Allocator allocator.old allocator.new result }
{
    if !rows.there {
        rows.push_first(segment);
        return Ok(());
    }
    match allocator.keep(&mut rows.others, Row::new(segment)) {
        None => Ok(()),
        Some(row) => {
            deallocate(allocator, row);
            Err(ErrorKind::AllocationFailed)
        }
    }
}

/// Like `push_to_rows`, for an arena with all rows in a list: the first row needs memory, too.
#[tactic(auto, using(crate::proofs::TakingLemmas::pushed, crate::proofs::BoundsLemmas::bounded_pushed))]
fn push_to_list<A: Allocator>(
    allocator: &mut A,
    list: &mut Listed<A::Segment>,
    segment: A::Segment,
) -> Result<(), ErrorKind>
    requires few { length list.old.rows.items < max_segments }
    requires fresh { IsFresh 0 (A.Segment.content segment) }
    ensures put { OnOk result (GainsRow A.Segment.Segment list.old.rows.items
        list.new.rows.items segment) }
    ensures refused { OnErr result (list.new.rows.items ≡ list.old.rows.items) }
    ensures counted { CountsRefusal A.Allocator allocator.old allocator.new result }
{
    match allocator.keep(&mut list.rows, Row::new(segment)) {
        None => Ok(()),
        Some(row) => {
            deallocate(allocator, row);
            Err(ErrorKind::AllocationFailed)
        }
    }
}

/// Appends the allocated words of each row to `segments`, in order. Fails with `AllocationFailed`
/// if memory runs out.
fn push_allocated<'a, S: Segment>(
    segments: &mut Vec<&'a [u8]>,
    rows: &'a [Row<S>],
) -> Result<(), ErrorKind>
    ensures bytes { OnOk result (map (λ s. s.now) segments.new.items
        ≡ map (λ s. s.now) segments.old.items ++ shown S.Segment rows.now) }
    ensures named { IfErr result (λ e. e ≡ AllocationFailed) }
{
    for row in rows {
        if segments.push(row.allocated()).is_err() {
            return Err(ErrorKind::AllocationFailed);
        }
    }
    Ok(())
}

/// The allocated words of each row, in order. Fails with `AllocationFailed` if memory runs out.
fn allocated_of_rows<S: Segment>(alloc: Global, rows: &Rows<S>) -> Result<Vec<&[u8]>, ErrorKind>
    ensures bytes { IfOk result
        (λ v. map (λ s. s.now) v.items ≡ shown S.Segment (all S.Segment rows.now)) }
    ensures named { IfErr result (λ e. e ≡ AllocationFailed) }
{
    let mut segments = match Vec::with_capacity(alloc, rows.len()) {
        Ok(segments) => segments,
        Err(_) => return Err(ErrorKind::AllocationFailed),
    };
    if rows.there {
        if segments.push(rows.first.allocated()).is_err() {
            return Err(ErrorKind::AllocationFailed);
        }
        push_allocated(&mut segments, &rows.others)?;
    }
    Ok(segments)
}

/// The allocated words of each row of a list, in order. Fails with `AllocationFailed` if memory
/// runs out.
fn allocated_of_list<S: Segment>(alloc: Global, list: &Listed<S>) -> Result<Vec<&[u8]>, ErrorKind>
    ensures bytes { IfOk result
        (λ v. map (λ s. s.now) v.items ≡ shown S.Segment list.now.rows.items) }
    ensures named { IfErr result (λ e. e ≡ AllocationFailed) }
{
    let mut segments = match Vec::with_capacity(alloc, list.len()) {
        Ok(segments) => segments,
        Err(_) => return Err(ErrorKind::AllocationFailed),
    };
    push_allocated(&mut segments, &list.rows)?;
    Ok(segments)
}

/// The output segments of an arena that stores its first row outside of the list.
fn output_of_rows<S: Segment>(
    alloc: Global,
    rows: &Rows<S>,
) -> Result<OutputSegments<'_>, ErrorKind>
    ensures bytes { IfOk result
        (λ o. output_bytes o ≡ shown S.Segment (all S.Segment rows.now)) }
    ensures small { IfOk result (λ o. IsSmall (output_bytes o)) }
    ensures single { IfOk result
        (λ o. IsTrue (is_single o) ↔ (length (all S.Segment rows.now) ≡ 1)) }
    ensures one { length (all S.Segment rows.now) ≡ 1 → IsOk result }
    ensures named { IfErr result (λ e. e ≡ AllocationFailed) }
{
    if rows.len() == 1 {
        return Ok(OutputSegments::SingleSegment(rows.first.allocated()));
    }
    let segments = allocated_of_rows(alloc, rows)?;
    Ok(OutputSegments::MultiSegment(segments))
}

/// The output segments of an arena with all rows in a list.
fn output_of_list<S: Segment>(
    alloc: Global,
    list: &Listed<S>,
) -> Result<OutputSegments<'_>, ErrorKind>
    ensures bytes { IfOk result (λ o. output_bytes o ≡ shown S.Segment list.now.rows.items) }
    ensures small { IfOk result (λ o. IsSmall (output_bytes o)) }
    ensures single { IfOk result
        (λ o. IsTrue (is_single o) ↔ (length list.now.rows.items ≡ 1)) }
    ensures one { length list.now.rows.items ≡ 1 → IsOk result }
    ensures named { IfErr result (λ e. e ≡ AllocationFailed) }
{
    if list.rows.len() == 1 {
        return Ok(OutputSegments::SingleSegment(list.rows[0].allocated()));
    }
    let segments = allocated_of_list(alloc, list)?;
    Ok(OutputSegments::MultiSegment(segments))
}

/// The number of allocated words in all of `rows` together.
fn allocated_words_in<S: Segment>(rows: &[Row<S>]) -> usize
    requires { length rows.now ≤ max_segments }
    ensures words { result ≡ total_words (shown S.Segment rows.now) }
    ensures bounded { result ≤ max_segment_words * length rows.now }
{
    let mut words = 0;
    for row in rows {
        words += row.used as usize;
    }
    words
}

/// The number of allocated words in an arena that stores its first row outside of the list.
fn allocated_words_of_rows<S: Segment>(rows: &Rows<S>) -> usize
    ensures { result ≡ total_words (shown S.Segment (all S.Segment rows.now)) }
{
    if rows.there {
        rows.first.used as usize + allocated_words_in(&rows.others)
    } else {
        0
    }
}

impl<A: Allocator> Drop for BuilderArenaImpl<A> {
    fn drop(self) {
        let BuilderArenaImpl {
            alloc: _,
            mut allocator,
            listed,
            apart,
        } = self;
        deallocate_all(&mut allocator, listed, apart);
    }
}

impl<A: Allocator> BuilderArenaImpl<A> {
    /// Makes an arena without segments. `allocator` will grant its segments.
    #[tactic(auto, using(crate::proofs::KeptLemmas::keeping))]
    pub fn new(alloc: Global, allocator: A) -> Self
        ensures segments { ⟦<Self as ReaderArena>⟧.segments result ≡ [] }
        ensures refusals { (⟦<Self as BuilderArena>⟧.view result).refusals ≡ A.refusals allocator }
        ensures offers { (⟦<Self as BuilderArena>⟧.view result).offers ≡ A.offers allocator }
        ensures allocator { result.allocator ≡ allocator }
    {
        let listed = Listed::new(alloc);
        let apart = Rows::new(alloc);
        BuilderArenaImpl {
            alloc,
            allocator,
            listed,
            apart,
        }
    }

    /// The number of segments.
    #[tactic(auto, using(crate::proofs::KeptLemmas::keeping))]
    pub fn len(&self) -> usize
        ensures { result ≡ length (⟦<Self as ReaderArena>⟧.segments self.now) }
    {
        if A::keeps_first_in_arena() {
            self.apart.len()
        } else {
            self.listed.len()
        }
    }

    /// Whether there are no segments.
    pub fn is_empty(&self) -> bool
        ensures { IsTrue result ↔ (length (⟦<Self as ReaderArena>⟧.segments self.now) ≡ 0) }
    {
        self.len() == 0
    }

    /// Returns each segment to the allocator exactly once, in order of number, and then returns the
    /// allocator.
    #[inline(always)]
    pub fn into_allocator(self) -> A
        ensures refusals { A.refusals result ≡ A.refusals self.allocator }
        ensures offers { A.offers result ≡ A.offers self.allocator }
    {
        let BuilderArenaImpl {
            alloc: _,
            mut allocator,
            listed,
            apart,
        } = self;
        deallocate_all(&mut allocator, listed, apart);
        allocator
    }

    /// Separates the arena from its allocator, and returns both. The returned arena keeps its
    /// segments and their words, can allocate words only in these segments, and starts with a
    /// `refused` of 0. `with_allocator` gives it an allocator again.
    ///
    /// Dropping the arena without its allocator drops the segments: they aren't returned to the
    /// allocator.
    pub fn without_allocator(self) -> (BuilderArenaImpl<NullAllocator<A>>, A)
        ensures segments { ⟦<BuilderArenaImpl<NullAllocator<A>> as ReaderArena>⟧.segments result.0
            ≡ ⟦<Self as ReaderArena>⟧.segments self }
        ensures room { (⟦<BuilderArenaImpl<NullAllocator<A>> as BuilderArena>⟧.view result.0).room
            ≡ (⟦<Self as BuilderArena>⟧.view self).room }
        ensures refusals { (⟦<BuilderArenaImpl<NullAllocator<A>> as BuilderArena>⟧.view
            result.0).refusals ≡ 0 }
        ensures offers { (⟦<BuilderArenaImpl<NullAllocator<A>> as BuilderArena>⟧.view
            result.0).offers ≡ (λ _ _. false) }
        ensures allocator { result.1 ≡ self.allocator }
    {
        let BuilderArenaImpl {
            alloc,
            allocator,
            listed,
            apart,
        } = self;
        let segments = BuilderArenaImpl {
            alloc,
            allocator: NullAllocator::new(),
            listed,
            apart,
        };
        (segments, allocator)
    }

    /// Appends `segment`, with none of its words allocated. If there is no memory for its row,
    /// returns the segment to the allocator and refuses with `AllocationFailed`. If
    /// `keeps_first_in_arena` of the allocator is `true`, the first row needs no memory.
    #[inline(always)]
    #[tactic(auto, using(crate::proofs::KeptLemmas::keeping))]
    fn push_segment(&mut self, segment: A::Segment) -> Result<(), ErrorKind>
        requires few { length (⟦<Self as ReaderArena>⟧.segments self.old) < max_segments }
        requires fresh { IsFresh 0 (A.Segment.content segment) }
        ensures put { OnOk result (GainsRow A.Segment.Segment
            (arena_rows A.Segment.Segment A.first_in_arena self.old.listed self.old.apart)
            (arena_rows A.Segment.Segment A.first_in_arena self.new.listed self.new.apart)
            segment) }
        ensures first { length (⟦<Self as ReaderArena>⟧.segments self.old) ≡ 0
            → IsTrue A.first_in_arena → IsOk result }
        ensures refused { OnErr result
            (arena_rows A.Segment.Segment A.first_in_arena self.new.listed self.new.apart
            ≡ arena_rows A.Segment.Segment A.first_in_arena self.old.listed self.old.apart) }
        ensures counted { CountsRefusal A.Allocator self.old.allocator self.new.allocator result }
    {
        if A::keeps_first_in_arena() {
            push_to_rows(&mut self.allocator, &mut self.apart, segment)
        } else {
            push_to_list(&mut self.allocator, &mut self.listed, segment)
        }
    }

    /// Appends a segment of at least `min` words, with none of its words allocated.
    ///
    /// Refusals: `MessageTooLarge(usize::MAX)` if there are 4,294,967,295 segments already;
    /// `MessageTooLarge(min)` if `min` is above 536,870,911; `AllocationFailed` if memory ran out.
    /// A refusal changes nothing, except that `AllocationFailed` adds 1 to `refused` of the arena.
    /// If `keeps_first_in_arena` of the allocator is `true`, the first segment takes memory only if
    /// the allocator takes memory for it.
    #[tactic(auto, using(crate::proofs::KeptLemmas::keeping))]
    pub fn allocate_segment(&mut self, min: u32) -> Result<(), ErrorKind>
        ensures made { OnOk result (⟦<Self as ReaderArena>⟧.segments self.new
            ≡ ⟦<Self as ReaderArena>⟧.segments self.old ++ [] ∷ []) }
        ensures least { OnOk result (min ≤ (⟦<Self as BuilderArena>⟧.view self.new).room
            (length (⟦<Self as ReaderArena>⟧.segments self.old))) }
        ensures size { OnOk result (IsTrue
            ((⟦<Self as BuilderArena>⟧.view self.old).offers min
            ((⟦<Self as BuilderArena>⟧.view self.new).room
            (length (⟦<Self as ReaderArena>⟧.segments self.old))))) }
        ensures granted { OnOk result ((⟦<Self as BuilderArena>⟧.view self.new).refusals
            ≡ (⟦<Self as BuilderArena>⟧.view self.old).refusals) }
        ensures room { SameRoomBelow (length (⟦<Self as ReaderArena>⟧.segments self.old))
            (⟦<Self as BuilderArena>⟧.view self.old).room
            (⟦<Self as BuilderArena>⟧.view self.new).room }
        ensures many { length (⟦<Self as ReaderArena>⟧.segments self.old) ≡ max_segments
            → result ≡ Err (MessageTooLarge usize.MAX) }
        ensures large { length (⟦<Self as ReaderArena>⟧.segments self.old) < max_segments
            → max_segment_words < min → result ≡ Err (MessageTooLarge min) }
        ensures first { length (⟦<Self as ReaderArena>⟧.segments self.old) ≡ 0
            → IsTrue A.first_in_arena → IsTrue (A.grants self.old.allocator min) → IsOk result }
        ensures named { IfErr result
            (IsAllocationRefusal (⟦<Self as BuilderArena>⟧.view self.old)
            (⟦<Self as BuilderArena>⟧.view self.new)
            (length (⟦<Self as ReaderArena>⟧.segments self.old)) min) }
        ensures refused { OnErr result
            (⟦<Self as ReaderArena>⟧.segments self.new
            ≡ ⟦<Self as ReaderArena>⟧.segments self.old) }
        ensures refused_room { OnErr result
            ((⟦<Self as BuilderArena>⟧.view self.new).room
            ≡ (⟦<Self as BuilderArena>⟧.view self.old).room) }
        ensures offers { (⟦<Self as BuilderArena>⟧.view self.new).offers
            ≡ (⟦<Self as BuilderArena>⟧.view self.old).offers }
    {
        if self.len() >= MAX_SEGMENTS {
            return Err(ErrorKind::MessageTooLarge(usize::MAX));
        }
        let segment = self.allocator.allocate_segment(min)?;
        self.push_segment(segment)
    }

    /// The allocated words of each segment, for writing the message out. They meet the precondition
    /// of `ReaderArenaImpl::new`: fewer than 2^32 segments, each of fewer than 2^32 words. Takes
    /// memory unless there is exactly one segment, and fails with `AllocationFailed` if memory runs
    /// out.
    #[tactic(auto, using(crate::proofs::KeptLemmas::keeping))]
    pub fn get_segments_for_output(&self) -> Result<OutputSegments<'_>, ErrorKind>
        ensures bytes { IfOk result (λ o. output_bytes o
            ≡ ⟦<Self as ReaderArena>⟧.segments self.now) }
        ensures small { IfOk result (λ o. IsSmall (output_bytes o)) }
        ensures single { IfOk result (λ o. IsTrue (is_single o)
            ↔ (length (⟦<Self as ReaderArena>⟧.segments self.now) ≡ 1)) }
        ensures one { length (⟦<Self as ReaderArena>⟧.segments self.now) ≡ 1 → IsOk result }
        ensures named { IfErr result (λ e. e ≡ AllocationFailed) }
    {
        if A::keeps_first_in_arena() {
            output_of_rows(self.alloc, &self.apart)
        } else {
            output_of_list(self.alloc, &self.listed)
        }
    }

    /// The allocated words of segment `id`; `None` if there is no such segment.
    #[inline(always)]
    #[tactic(auto, using(crate::proofs::KeptLemmas::keeping))]
    fn allocated(&self, id: u32) -> Option<&[u8]>
        ensures there { IsSome result
            ↔ (id < length (⟦<Self as ReaderArena>⟧.segments self.now)) }
        ensures bytes { IfSome result
            (λ s. slice_get (⟦<Self as ReaderArena>⟧.segments self.now) id ≡ Some s.now) }
    {
        if A::keeps_first_in_arena() {
            self.apart.allocated(id)
        } else {
            self.listed.allocated(id)
        }
    }

    /// Returns the number of the first segment with room for `amount` more words; `None` if no
    /// segment has room for them.
    #[tactic(auto, using(crate::proofs::KeptLemmas::keeping))]
    fn first_fit(&mut self, amount: u32) -> Option<u32>
        ensures fit { IfSome result
            (λ k. IsFirstFit (⟦<Self as BuilderArena>⟧.view self.old) amount k) }
        ensures full { IsNone result → IsFull (⟦<Self as BuilderArena>⟧.view self.old) amount }
        ensures segments { ⟦<Self as ReaderArena>⟧.segments self.new
            ≡ ⟦<Self as ReaderArena>⟧.segments self.old }
        ensures same { ⟦<Self as BuilderArena>⟧.view self.new
            ≡ ⟦<Self as BuilderArena>⟧.view self.old }
    {
        if A::keeps_first_in_arena() {
            self.apart.first_fit(amount)
        } else {
            self.listed.first_fit(amount)
        }
    }

    /// Allocates `amount` words after the allocated ones of segment `id`, and returns their
    /// position. Precondition: the segment has room for them.
    #[tactic(auto, using(crate::proofs::KeptLemmas::keeping))]
    fn allocate_fitting(&mut self, id: u32, amount: u32) -> u32
        requires there { id < length (⟦<Self as ReaderArena>⟧.segments self.old) }
        requires fits { length (segment (⟦<Self as BuilderArena>⟧.view self.old).words id) + amount
            ≤ (⟦<Self as BuilderArena>⟧.view self.old).room id }
        ensures at { result ≡ length (segment (⟦<Self as BuilderArena>⟧.view self.old).words id) }
        ensures taken { ⟦<Self as BuilderArena>⟧.view self.new
            ≡ with_more (⟦<Self as BuilderArena>⟧.view self.old) id (replicate amount 0) }
        ensures small { result + amount < 2 ^ 29 }
    {
        if A::keeps_first_in_arena() {
            self.apart.allocate_fitting(id, amount)
        } else {
            self.listed.allocate_fitting(id, amount)
        }
    }

    /// Appends a segment of at least `amount` words, allocates `amount` words in it, and returns
    /// the segment's number. Refuses like `allocate_segment` for `amount` words.
    fn allocate_in_new_segment(&mut self, amount: u32) -> Result<u32, ErrorKind>
        ensures { TakesAnother (⟦<Self as BuilderArena>⟧.view self.old)
            (⟦<Self as BuilderArena>⟧.view self.new) amount result }
    {
        let id = self.len();
        self.allocate_segment(amount)?;
        let id = id as u32;
        let _at = self.allocate_fitting(id, amount);
        Ok(id)
    }
}

impl<A: Allocator> BuilderArenaImpl<NullAllocator<A>> {
    /// Returns the arena with `allocator` in place of the `NullAllocator`, which refuses every
    /// request. From then on, `allocator` grants further segments, and all segments are returned to
    /// `allocator`, including those that the arena has now. The segments, their words and their
    /// room are unchanged.
    pub fn with_allocator(self, allocator: A) -> BuilderArenaImpl<A>
        ensures segments { ⟦<BuilderArenaImpl<A> as ReaderArena>⟧.segments result
            ≡ ⟦<Self as ReaderArena>⟧.segments self }
        ensures room { (⟦<BuilderArenaImpl<A> as BuilderArena>⟧.view result).room
            ≡ (⟦<Self as BuilderArena>⟧.view self).room }
        ensures refusals { (⟦<BuilderArenaImpl<A> as BuilderArena>⟧.view result).refusals
            ≡ A.refusals allocator }
        ensures offers { (⟦<BuilderArenaImpl<A> as BuilderArena>⟧.view result).offers
            ≡ A.offers allocator }
        ensures allocator { result.allocator ≡ allocator }
    {
        let BuilderArenaImpl {
            alloc,
            allocator: _,
            listed,
            apart,
        } = self;
        BuilderArenaImpl {
            alloc,
            allocator,
            listed,
            apart,
        }
    }
}

impl<A: Allocator> ReaderArena for BuilderArenaImpl<A> {
    ghost segments = { λ b. shown A.Segment.Segment (arena_rows A.Segment.Segment A.first_in_arena b.listed b.apart) };

    ghost nesting = { λ _. MAX };

    ghost charging = { λ _. false };

    ghost absent = { λ _ id. InvalidSegmentId id };

    ghost use Rattle.std.proofs.Common.{inl};

    ghost absent_named = { λ _ _. inl refl };

    fn get_segment(&self, id: u32) -> Result<&[u8], ErrorKind> {
        match self.allocated(id) {
            Some(words) => Ok(words),
            None => Err(ErrorKind::InvalidSegmentId(id)),
        }
    }

    fn nesting_limit(&self) -> i32 {
        i32::MAX
    }

    fn charges(&self) -> bool {
        false
    }

    #[tactic(auto, using(crate::proofs::KeptLemmas::keeping))]
    fn size_in_words(&self) -> usize {
        if A::keeps_first_in_arena() {
            allocated_words_of_rows(&self.apart)
        } else {
            allocated_words_in(&self.listed.rows)
        }
    }
}

impl<A: Allocator> Closed for BuilderArenaImpl<A> {}

impl<A: Allocator> BuilderArena for BuilderArenaImpl<A> {
    ghost view = { λ b. view_of (message (shown A.Segment.Segment (arena_rows A.Segment.Segment A.first_in_arena b.listed b.apart))) (capacity_at A.Segment.Segment (arena_rows A.Segment.Segment A.first_in_arena b.listed b.apart)) (A.refusals b.allocator) (A.offers b.allocator) };

    ghost known = { λ _ _. refl };

    ghost read = { λ _. refl };

    ghost within = { λ b. rows_within A.Segment.Segment (arena_rows A.Segment.Segment A.first_in_arena b.listed b.apart) };

    ghost small = { λ b. rows_small A.Segment.Segment (arena_rows A.Segment.Segment A.first_in_arena b.listed b.apart) };

    ghost with_bytes = { λ b id ws. record b { listed = listed_with_bytes A.Segment.Segment A.first_in_arena b.listed id ws; apart = apart_with_bytes A.Segment.Segment A.first_in_arena b.apart id ws } };

    ghost with_bytes_segments = { λ b. kept_shown A.Segment.Segment A.first_in_arena b.listed b.apart };

    ghost with_bytes_view = { λ b id ws. same_room _ _ _ (A.refusals b.allocator) (A.offers b.allocator) (kept_capacity A.Segment.Segment A.first_in_arena b.listed b.apart id ws) };

    #[tactic(auto, using(crate::proofs::KeptLemmas::keeping))]
    fn segment_mut(&mut self, id: u32) -> &mut [u8] {
        if A::keeps_first_in_arena() {
            self.apart.allocated_mut(id)
        } else {
            self.listed.allocated_mut(id)
        }
    }

    fn allocated_mut(&mut self, id: u32) -> Option<&mut [u8]> {
        if (id as usize) < self.len() {
            return Some(self.segment_mut(id));
        }
        None
    }

    #[tactic(auto, using(crate::proofs::KeptLemmas::keeping))]
    fn get_word(&self, id: u32, at: u32) -> u64 {
        if A::keeps_first_in_arena() {
            self.apart.word(id, at)
        } else {
            self.listed.word(id, at)
        }
    }

    #[tactic(auto, using(crate::proofs::KeptLemmas::keeping))]
    fn put_word(&mut self, id: u32, at: u32, word: u64) {
        if A::keeps_first_in_arena() {
            self.apart.put_word(id, at, word);
        } else {
            self.listed.put_word(id, at, word);
        }
    }

    #[tactic(auto, using(crate::proofs::KeptLemmas::keeping))]
    fn move_words(&mut self, from: WordPlace, to: WordPlace, n: u32) {
        if n == 0 {
            return;
        }
        if from.segment == to.segment {
            let bytes = self.segment_mut(to.segment);
            words::move_words(bytes, from.at as usize, to.at as usize, n as usize);
        } else if A::keeps_first_in_arena() {
            self.apart.copy_across(from, to, n);
        } else {
            self.listed.copy_across(from, to, n);
        }
    }

    #[tactic(auto, using(crate::proofs::KeptLemmas::keeping))]
    fn allocate(&mut self, id: u32, amount: u32) -> Option<u32> {
        if A::keeps_first_in_arena() {
            self.apart.allocate(id, amount)
        } else {
            self.listed.allocate(id, amount)
        }
    }

    #[tactic(auto, using(crate::proofs::TakingLemmas::found))]
    fn allocate_anywhere(&mut self, amount: u32) -> Result<(SegmentId, u32), ErrorKind> {
        match self.first_fit(amount) {
            Some(id) => {
                let at = self.allocate_fitting(id, amount);
                Ok((id, at))
            }
            None => {
                let id = self.allocate_in_new_segment(amount)?;
                Ok((id, 0))
            }
        }
    }

    fn as_reader(&self) -> &Self {
        self
    }

    fn refused(&self) -> u64 {
        self.allocator.refused()
    }
}
