//! Moves pointers: writes pointers at new places, to the objects that the pointers at the old
//! places lead to (encoding specification, "Inter-Segment Pointers").
//!
//! A near pointer becomes a far pointer if its new place is in another segment than its object. Its
//! landing pad is one word after the words of the object's segment if there is room for it,
//! otherwise two words in any segment in which the arena finds or makes room. If the new place is
//! in the object's segment, the pointer stays near. A far pointer and a capability are copied
//! unchanged. The old pointer stays until the caller zeroes it, so until then two pointers lead to
//! one object.
ghost use Rattle.std.specs.Prelude.{ℕ, ◌⊎◌, ◌*◌, ◌≡◌, ◌≢◌, ◌<◌, ◌≤◌, ◌+◌, ◌-◌, ◌^◌, ◌∷◌, [], length, true, false, IsOk, OnOk, IfErr, OnErr};
ghost use Rattle.capnp_arena_traits.specs.View.{KeepsLimits};
ghost use Rattle.capnp_format.specs.Canonical.{Reaches, offset_to};
ghost use Rattle.capnp_format.specs.Segments.{segment, word_at, IsPlace, Grows};
ghost use Rattle.capnp_format.specs.Word.{kind, offset_bits, struct_word, upper_half};
ghost use Rattle.capnp_format.specs.Forest.{times};
ghost use Rattle.capnp_allocation.specs.Made.{IsShape, CountFits, AsksWords};
ghost use Rattle.capnp_allocation.specs.Memory.{KeepsMemory, SpendsMemory, RefusesWords, TakesWords};
ghost use Rattle.capnp_allocation.specs.Zeroed.{IsPruned};
ghost use Rattle.capnp_format.specs.Path.{word_interval};
ghost use Rattle.capnp_allocation.specs.Makes.{call_at};
ghost use Rattle.capnp_in_place.specs.Anew.{IsWrittenAnew, MovesApart, MovesInTurn, MovesRow, TakesBack, WritesAnew, pad_words};
ghost use Rattle.capnp_in_place.specs.Moved.{AreBothInside, AreRowsInside, row_of_moves, Moves, rows_of_moves};
ghost use Rattle.capnp_in_place.specs.Pointed.{HasPlainPads, PointsTo};
ghost use Rattle.capnp_in_place.specs.Rooms.{HasPadRoom, TakesPad};

use capnp_allocation::landing::{pointer_word, segment_length};
use capnp_allocation::making::{Shape, pointer_to};
use capnp_allocation::zeroing::zero_pads;
use capnp_arena_traits::arena::{BuilderArena, WordPlace, set_word};
use capnp_words::error::ErrorKind;
use capnp_words::wire_pointer::{WirePointer, WirePointerKind};

/// Replaces the null pointer at `to` by a pointer to the object that the pointer at `from` leads
/// to. Copies a far pointer or a capability unchanged. Writes nothing if the pointer at `from` is
/// null or leads out of its segment. Precondition: the words at `from` and at `to` are allocated.
///
/// Refuses only if the arena refuses two words for a landing pad. A refusal changes no word; if it
/// is `AllocationFailed`, the allocator has counted it.
#[inline(always)]
pub fn transfer_pointer<A: BuilderArena>(
    arena: &mut A,
    from: WordPlace,
    to: WordPlace,
) -> Result<(), ErrorKind>
    requires from { IsPlace (A.view arena.old).words from.segment from.at }
    requires to { IsPlace (A.view arena.old).words to.segment to.at }
    ensures moved { OnOk result (Moves (A.view arena.old).words (A.view arena.new).words
        (row_of_moves from to 1)) }
    ensures written { OnOk result (WritesAnew (A.view arena.old) (A.view arena.new)
        (row_of_moves from to 1)) }
    ensures memory { TakesPad result (A.view arena.old) (A.view arena.new) }
    ensures only { OnOk result ((x y : ℕ) → times (word_interval to.segment to.at ∷ []) x y ≡ 0
        → y < length (segment (A.view arena.old).words x)
        → word_at (A.view arena.new).words x y ≡ word_at (A.view arena.old).words x y) }
    ensures near { from.segment ≡ to.segment → IsOk result }
    ensures apart { from.segment ≢ to.segment
        → MovesApart result (A.view arena.old) (A.view arena.new) from.segment
        (row_of_moves from to 1) }
{
    let word = pointer_word(arena, from.segment, from.at);
    if word.is_null() {
        return Ok(());
    }
    if !word.is_positional() {
        set_word(arena, to.segment, to.at, word.0);
        return Ok(());
    }
    match word.target(from.at, segment_length(arena, from.segment)) {
        Some(start) => {
            let object = WordPlace {
                segment: from.segment,
                at: start,
            };
            set_pointer_to(arena, shape_of(word), object, to)
        }
        None => Ok(()),
    }
}

/// The kind and the size of the object that `word` describes. The caller passes a struct pointer or
/// a list pointer.
fn shape_of(word: WirePointer) -> Shape
    ensures shape { kind word.0 < 2 → IsShape result word.0 }
    ensures few { CountFits result }
{
    if word.kind() == WirePointerKind::Struct {
        Shape::Struct(word.struct_size())
    } else {
        Shape::List(word.list_element_size(), word.list_element_count())
    }
}

/// Makes the pointer at `to` lead to the object that starts at `object` and has the kind and the
/// size `shape`.
#[inline(always)]
fn set_pointer_to<A: BuilderArena>(
    arena: &mut A,
    shape: Shape,
    object: WordPlace,
    to: WordPlace,
) -> Result<(), ErrorKind>
    requires to { IsPlace (A.view arena.old).words to.segment to.at }
    requires there { object.segment < length (A.view arena.old).words }
    requires inside { object.at ≤ length (segment (A.view arena.old).words object.segment) }
    requires few { CountFits shape }
    ensures points { OnOk result (PointsTo (A.view arena.old).words
        (A.view arena.new).words shape object to) }
    ensures written { OnOk result ((x : ℕ) → IsShape shape x → x ≢ 0
        → IsWrittenAnew object.segment to.segment x
        (word_at (A.view arena.new).words to.segment to.at)) }
    ensures taken { OnOk result ((x : ℕ) → IsShape shape x → x ≢ 0
        → TakesWords (A.view arena.old) (A.view arena.new) object.segment
        (pad_words object.segment to.segment x)) }
    ensures memory { TakesPad result (A.view arena.old) (A.view arena.new) }
    ensures near { object.segment ≡ to.segment → IsOk result }
    ensures fits { HasPadRoom (A.view arena.old) object.segment 1 → IsOk result }
    ensures pads { OnOk result (HasPlainPads (A.view arena.new).words
        (word_at (A.view arena.new).words to.segment to.at)) }
{
    if object.segment == to.segment {
        let word = near_word(shape, to.at, object.at);
        set_word(arena, to.segment, to.at, word.0);
        return Ok(());
    }
    match arena.allocate(object.segment, 1) {
        Some(pad) => {
            let word = pointer_to(shape, pad, object.at);
            set_word(arena, object.segment, pad, word.0);
            let far = WirePointer::new_far(pad, object.segment);
            set_word(arena, to.segment, to.at, far.0);
            Ok(())
        }
        None => {
            let (segment, pad) = arena.allocate_anywhere(2)?;
            let start = WirePointer::new_far(object.at, object.segment);
            set_word(arena, segment, pad, start.0);
            let tag = tag_of(shape);
            set_word(arena, segment, pad + 1, tag.0);
            let far = WirePointer::new_double_far(pad, segment);
            set_word(arena, to.segment, to.at, far.0);
            Ok(())
        }
    }
}

/// The word of a pointer at `position` of a segment to the object `shape` at `target` of the same
/// segment. If the object is a struct without sections, the word has the offset -1 instead,
/// wherever `target` is.
fn near_word(shape: Shape, position: u32, target: u32) -> WirePointer
    requires reaches { Reaches position target }
    requires few { CountFits shape }
    ensures shape { IsShape shape result.0 }
    ensures some { result.0 ≢ 0 }
    ensures lands { (offset_bits result.0 ≡ offset_to position target)
        ⊎ ((kind result.0 ≡ 0) × (upper_half result.0 ≡ 0)
        × (offset_bits result.0 ≡ 2 ^ 30 - 1)) }
    ensures empty { IsShape shape (struct_word (2 ^ 30 - 1) 0 0)
        → result.0 ≡ struct_word (2 ^ 30 - 1) 0 0 }
{
    if is_empty(shape) {
        WirePointer::empty_struct()
    } else {
        pointer_to(shape, position, target)
    }
}

/// Whether `shape` is a struct without sections.
fn is_empty(shape: Shape) -> bool
    ensures some { result ≡ false → AsksWords shape }
    ensures empty { result ≡ true → IsShape shape (struct_word (2 ^ 30 - 1) 0 0) }
{
    match shape {
        Shape::Struct(size) => size.total() == 0,
        Shape::List(_, _) => false,
    }
}

/// The second word of a double-far pointer's landing pad: it describes the object `shape`, and has
/// the offset 0.
#[tactic(auto, using(crate::proofs::MovedPointers::SingleIntervals::zero_offset))]
fn tag_of(shape: Shape) -> WirePointer
    requires few { CountFits shape }
    ensures shape { IsShape shape result.0 }
    ensures offset { offset_bits result.0 ≡ 0 }
{
    match shape {
        Shape::Struct(size) => WirePointer::new_struct(0, size),
        Shape::List(size, count) => WirePointer::new_list(0, size, count),
    }
}

/// Replaces the `count` consecutive null pointers from `to` on by pointers to the objects that the
/// `count` pointers from `from` on lead to. Preconditions: segment `from.segment` has at least
/// `from.at + count` allocated words; segment `to.segment` has at least `to.at + count`.
///
/// Refuses only if the arena refuses two words for a landing pad. The pointers before the refused
/// one, and their landing pads, are then already written.
#[inline(always)]
pub fn transfer_row<A: BuilderArena>(
    arena: &mut A,
    from: WordPlace,
    to: WordPlace,
    count: u32,
) -> Result<(), ErrorKind>
    requires { AreBothInside (A.view arena.old).words from to count }
    ensures { MovesRow result
        (call_at from.segment from.at (A.view arena.old) (A.view arena.new)) to count }
{
    if from.segment == to.segment {
        transfer_each(arena, from, to, count)
    } else {
        transfer_row_across(arena, from, to, count)
    }
}

/// Does what `transfer_row` does, if `to` is in another segment than `from`. Not inlined, because this
/// is rare: most objects stay in their segment.
#[cold]
#[inline(never)]
fn transfer_row_across<A: BuilderArena>(
    arena: &mut A,
    from: WordPlace,
    to: WordPlace,
    count: u32,
) -> Result<(), ErrorKind>
    requires { AreBothInside (A.view arena.old).words from to count }
    ensures { MovesRow result
        (call_at from.segment from.at (A.view arena.old) (A.view arena.new)) to count }
{
    transfer_each(arena, from, to, count)
}

/// Does what `transfer_row` does, one pointer after the other. Inlined once for moves within a segment,
/// in which no pointer becomes far, and once for moves into another segment.
#[inline(always)]
fn transfer_each<A: BuilderArena>(
    arena: &mut A,
    from: WordPlace,
    to: WordPlace,
    count: u32,
) -> Result<(), ErrorKind>
    requires { AreBothInside (A.view arena.old).words from to count }
    ensures { MovesRow result
        (call_at from.segment from.at (A.view arena.old) (A.view arena.new)) to count }
{
    for i in 0..count {
        let source = WordPlace {
            segment: from.segment,
            at: from.at + i,
        };
        let place = WordPlace {
            segment: to.segment,
            at: to.at + i,
        };
        transfer_pointer(arena, source, place)?;
    }
    Ok(())
}

/// Zeroes the landing pads that `transfer_row` wrote when it moved `count` pointers from `from` to
/// `to`. Preconditions: segment `from.segment` has at least `from.at + count` allocated words;
/// segment `to.segment` has at least `to.at + count`.
#[cold]
#[inline(never)]
pub fn zero_pads_of_row<A: BuilderArena>(arena: &mut A, from: WordPlace, to: WordPlace, count: u32)
    requires { AreBothInside (A.view arena.old).words from to count }
    ensures { TakesBack (A.view arena.old) (A.view arena.new) (row_of_moves from to count) }
{
    for i in 0..count {
        zero_pads_of_pointer(arena, from.segment, from.at + i, to.segment, to.at + i);
    }
}

/// Zeroes the landing pads that `transfer_pointer` wrote when it moved the pointer at `at` of segment
/// `id` to `to_at` of segment `to_id`. If `transfer_pointer` copied the pointer unchanged, the pads
/// belong to the old pointer, and stay.
fn zero_pads_of_pointer<A: BuilderArena>(arena: &mut A, id: u32, at: u32, to_id: u32, to_at: u32)
    ensures { TakesBack (A.view arena.old) (A.view arena.new)
        (row_of_moves (record { segment = id; at = at }) (record { segment = to_id; at = to_at })
        1) }
{
    if pointer_word(arena, id, at).kind() != WirePointerKind::Far {
        let word = pointer_word(arena, to_id, to_at);
        zero_pads(arena, word);
    }
}

/// Rows of consecutive pointers, one row every `step` words.
#[derive(Clone, Copy)]
pub struct PointerRows {
    /// The segment that the rows are in.
    pub segment: u32,
    /// Where the first pointer of the first row is.
    pub at: u32,
    /// The number of words from one row to the next.
    pub step: u32,
}

/// Replaces the null pointers in the first `count` rows of `to`, `pointers` pointers in each row,
/// by pointers to the objects that the pointers in the same rows of `from` lead to. Precondition:
/// for `from` and for `to`, `step` is below 2^18, and `at + count * step + pointers` is at most
/// `step` more than the number of allocated words of the segment.
///
/// Refuses only if the arena refuses two words for a landing pad. The pointers before the refused
/// one, and their landing pads, are then already written.
pub fn transfer_rows<A: BuilderArena>(
    arena: &mut A,
    from: PointerRows,
    to: PointerRows,
    pointers: u32,
    count: u32,
) -> Result<(), ErrorKind>
    requires { AreRowsInside (A.view arena.old).words from to pointers count }
    ensures moves { MovesInTurn result (A.view arena.old) (A.view arena.new)
        (rows_of_moves from to pointers count)
        (count * pointers) }
    ensures near { from.segment ≡ to.segment → IsOk result }
    ensures apart { from.segment ≢ to.segment
        → MovesApart result (A.view arena.old) (A.view arena.new) from.segment
        (rows_of_moves from to pointers count) }
{
    let mut source = from.at;
    let mut place = to.at;
    for i in 0..count {
        let old = WordPlace {
            segment: from.segment,
            at: source,
        };
        let new = WordPlace {
            segment: to.segment,
            at: place,
        };
        transfer_row(arena, old, new, pointers)?;
        source += from.step;
        place += to.step;
    }
    Ok(())
}

/// Zeroes the landing pads that `transfer_rows` wrote when it moved the pointers of `count` rows,
/// `pointers` pointers in each row. Precondition: for `from` and for `to`, `step` is below 2^18,
/// and `at + count * step + pointers` is at most `step` more than the number of allocated words of
/// the segment.
pub fn zero_pads_of_rows<A: BuilderArena>(
    arena: &mut A,
    from: PointerRows,
    to: PointerRows,
    pointers: u32,
    count: u32,
)
    requires { AreRowsInside (A.view arena.old).words from to pointers count }
    ensures { TakesBack (A.view arena.old) (A.view arena.new)
        (rows_of_moves from to pointers count) }
{
    let mut source = from.at;
    let mut place = to.at;
    for i in 0..count {
        let old = WordPlace {
            segment: from.segment,
            at: source,
        };
        let new = WordPlace {
            segment: to.segment,
            at: place,
        };
        zero_pads_of_row(arena, old, new, pointers);
        source += from.step;
        place += to.step;
    }
}
