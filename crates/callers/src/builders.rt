//! Functions that call builders, for any arena, and are proved only from the contracts of these
//! calls. They show that these contracts state the value of the message after each call, whether
//! the call succeeds or is refused.
ghost use Rattle.std.specs.Prelude.{ℕ, ◌≡◌, ◌<◌, ◌≤◌, ◌+◌, ◌^◌, ◌∷◌, [], length, IsOk, IsOkAnd, IfErr, IfOk, OnOk, OnErr};
ghost use Rattle.capnp_words.specs.declared.error.ErrorKind.TheVariants.{AllocationFailed};
ghost use Rattle.capnp_allocation.specs.Makes.{call_at};
ghost use Rattle.capnp_builders.specs.Places.{IsStructOf};
ghost use Rattle.capnp_allocation.specs.Stored.{Puts};
ghost use Rattle.capnp_readers.specs.Readers.{IsStructPlace};
ghost use Rattle.capnp_format.specs.Bytes.{message};
ghost use Rattle.capnp_edits.specs.Edits.{EditTakes, InTurn};
ghost use Rattle.capnp_format.specs.Forest.{IsForest};
ghost use Rattle.capnp_format.specs.Means.{Means};
ghost use Rattle.capnp_format.specs.Numbers.{words_for};
ghost use Rattle.capnp_format.specs.Segments.{segment, IsPlace};
ghost use Rattle.capnp_format.specs.Tree.{Tree, Null, Struct};
ghost use Rattle.capnp_allocation.specs.Made.{words_of_zero, nulls, zero_struct};
ghost use Rattle.capnp_format.specs.Path.{put_tree};
ghost use Rattle.callers.specs.Meaning.{MeansTheSame};

use capnp_arena::arena::{
    Allocator, BuilderArena, BuilderArenaImpl, OutputSegments, ReaderArena, ReaderArenaImpl,
    ReaderOptions, ScratchSpaceHeapAllocator,
};
use capnp_builders::builders::{PointerBuilder, StructBuilder};
use capnp_edits::edit::{Edit, apply_all};
use capnp_readers::readers::StructPlace;
use capnp_words::error::ErrorKind;
use capnp_words::wire_pointer::StructSize;
use std::alloc::Global;

/// How far `init_two_structs` got.
#[derive(Clone, Copy, Debug, PartialEq, Eq)]
pub enum Built {
    /// No struct was made: the root is null.
    Nothing,
    /// Only the root's struct was made; its first pointer is null.
    Root,
    /// Both structs were made.
    Both,
}

/// Makes the root lead to a struct of size `outer`, and the first pointer of this struct to a
/// struct of size `inner`. Returns which of the two structs it has made. The caller passes an
/// `outer` with at least one pointer.
pub fn init_two_structs<A: BuilderArena>(
    arena: &mut A,
    outer: StructSize,
    inner: StructSize,
) -> Built
    requires place { IsPlace (A.view arena.old).words 0 0 }
    requires forest { (t : Tree) × IsForest (A.view arena.old).words t }
    requires some { 0 < outer.pointers }
    ensures both { result ≡ Built.Both
        → IsForest (A.view arena.new).words
        (Struct (words_of_zero outer.data_words)
        (put_tree (nulls outer.pointers) 0 (zero_struct inner))) }
    ensures root { result ≡ Built.Root
        → IsForest (A.view arena.new).words
        (Struct (words_of_zero outer.data_words) (put_tree (nulls outer.pointers) 0 Null)) }
    ensures nothing { result ≡ Built.Nothing → IsForest (A.view arena.new).words Null }
{
    let place = match init_root_struct(arena, outer) {
        Ok(place) => place,
        Err(_) => return Built::Nothing,
    };
    match init_field_struct(arena, place, inner) {
        Ok(_) => Built::Both,
        Err(_) => Built::Root,
    }
}

/// Makes the root lead to a struct of `size`.
fn init_root_struct<A: BuilderArena>(
    arena: &mut A,
    size: StructSize,
) -> Result<StructPlace, ErrorKind>
    requires { IsPlace (A.view arena.old).words 0 0 }
    ensures made { OnOk result (Puts (A.view arena.old).words (A.view arena.new).words 0 0
        (zero_struct size)) }
    ensures leads { IfOk result
        (IsStructOf (call_at 0 0 (A.view arena.old) (A.view arena.new)) size) }
    ensures refused { OnErr result
        (Puts (A.view arena.old).words (A.view arena.new).words 0 0 Null) }
{
    let mut root = PointerBuilder::get_root(arena);
    root.init_struct_place(size)
}

/// Makes the first pointer of the struct at `place` lead to a struct of `size`.
fn init_field_struct<A: BuilderArena>(
    arena: &mut A,
    place: StructPlace,
    size: StructSize,
) -> Result<StructPlace, ErrorKind>
    requires inside { IsStructPlace (A.view arena.old).words place }
    requires some { 0 < place.pointers }
    ensures made { OnOk result (Puts (A.view arena.old).words
        (A.view arena.new).words place.segment place.pointers_at (zero_struct size)) }
    ensures refused { OnErr result
        (Puts (A.view arena.old).words (A.view arena.new).words place.segment
        place.pointers_at Null) }
{
    let mut field = PointerBuilder {
        arena,
        segment: place.segment,
        at: place.pointers_at,
    };
    field.init_struct_place(size)
}

/// Returns a reader of the output segments of the message `built`. The reader has the same words as
/// the message, so each pointer leads to the same value in both. Refuses only if memory runs out,
/// and never if the message has one segment.
pub fn read_back<'a, L: Allocator>(
    built: &'a BuilderArenaImpl<L>,
) -> Result<ReaderArenaImpl<OutputSegments<'a>>, ErrorKind>
    ensures words { IfOk result (λ r.
        message (⟦<ReaderArenaImpl<OutputSegments<'a>> as ReaderArena>⟧.segments r)
        ≡ (⟦<BuilderArenaImpl<L> as BuilderArena>⟧.view built.now).words) }
    ensures same { IfOk result (λ r.
        MeansTheSame (⟦<BuilderArenaImpl<L> as BuilderArena>⟧.view built.now).words
        (message (⟦<ReaderArenaImpl<OutputSegments<'a>> as ReaderArena>⟧.segments r))) }
    ensures answered { length (⟦<BuilderArenaImpl<L> as BuilderArena>⟧.view built.now).words ≡ 1
        → IsOk result }
    ensures refused { IfErr result (λ k. k ≡ AllocationFailed) }
{
    let output = built.get_segments_for_output()?;
    Ok(ReaderArenaImpl::new(output, ReaderOptions::default()))
}

/// Applies `edits`, and returns a reader of the message's output segments. If the message had a
/// value before, the reader's root leads to the value that the edits make of it, given which of
/// them `outcomes` shows as refused.
pub fn edit_and_read_back<'a, L: Allocator>(
    built: &'a mut BuilderArenaImpl<L>,
    edits: &[Edit<'_>],
    outcomes: &mut [Option<ErrorKind>],
) -> Result<ReaderArenaImpl<OutputSegments<'a>>, ErrorKind>
    requires each { length outcomes.old ≡ length edits.now }
    ensures meant { IfOk result (λ r. (t : Tree)
        → IsForest (⟦<BuilderArenaImpl<L> as BuilderArena>⟧.view built.old).words t
        → (u : Tree) × InTurn EditTakes edits.now outcomes.new t u × (n : ℕ) × (c : ℕ)
        × Means (message (⟦<ReaderArenaImpl<OutputSegments<'a>> as ReaderArena>⟧.segments r))
        n 0 0 u c) }
    ensures refused { IfErr result (λ k. k ≡ AllocationFailed) }
{
    apply_all(&mut *built, edits, outcomes);
    read_back(built)
}

/// Makes the root lead to a struct of `size`. Precondition: `size` has at least one word.
fn init_root_with_room<A: BuilderArena>(
    arena: &mut A,
    size: StructSize,
) -> Result<StructPlace, ErrorKind>
    requires place { IsPlace (A.view arena.old).words 0 0 }
    requires some { 0 < size.data_words + size.pointers }
    ensures leads { IfOk result
        (IsStructOf (call_at 0 0 (A.view arena.old) (A.view arena.new)) size) }
    ensures fits { length (segment (A.view arena.old).words 0)
        + (size.data_words + size.pointers) ≤ (A.view arena.old).room 0
        → IsOkAnd result (λ place. (place.segment ≡ 0)
        × (length (segment (A.view arena.new).words 0)
        ≡ length (segment (A.view arena.old).words 0) + (size.data_words + size.pointers))
        × ((A.view arena.new).room 0 ≡ (A.view arena.old).room 0)) }
{
    let mut root = PointerBuilder::get_root(arena);
    root.init_struct_place(size)
}

/// Makes the first pointer of the struct at `place` lead to `text`.
fn set_text_with_room<A: BuilderArena>(
    arena: &mut A,
    place: StructPlace,
    text: &[u8],
) -> Result<(), ErrorKind>
    requires inside { IsStructPlace (A.view arena.old).words place }
    requires some { 0 < place.pointers }
    requires few { length text.now + 1 < 2 ^ 29 }
    ensures fits { length (segment (A.view arena.old).words place.segment)
        + words_for 2 (length text.now + 1) ≤ (A.view arena.old).room place.segment
        → IsOk result }
    ensures inside { OnOk result (IsStructPlace (A.view arena.new).words place) }
{
    let mut field = PointerBuilder {
        arena,
        segment: place.segment,
        at: place.pointers_at,
    };
    field.set_text(text)
}

/// Makes the root lead to a struct with a text and a number. Never refuses if segment 0 has room
/// for the words of the struct and of the text.
pub fn init_root_with_text_and_number<A: BuilderArena>(
    arena: &mut A,
    text: &[u8],
    number: u64,
) -> Result<(), ErrorKind>
    requires place { IsPlace (A.view arena.old).words 0 0 }
    requires few { length text.now + 1 < 2 ^ 29 }
    ensures { length (segment (A.view arena.old).words 0) + (2 + words_for 2 (length text.now + 1))
        ≤ (A.view arena.old).room 0 → IsOk result }
{
    let size = StructSize {
        data_words: 1,
        pointers: 1,
    };
    let place = init_root_with_room(arena, size)?;
    set_text_with_room(arena, place, text)?;
    let mut builder = StructBuilder { arena, place };
    builder.set_data_field::<u64>(0, number);
    Ok(())
}

/// Allocates the word of the root pointer. Precondition: the message is one segment without words,
/// which has room for a word.
pub(crate) fn allocate_root_word<A: BuilderArena>(arena: &mut A)
    requires empty { (A.view arena.old).words ≡ [] ∷ [] }
    requires room { 1 ≤ (A.view arena.old).room 0 }
    ensures words { (A.view arena.new).words ≡ (0 ∷ []) ∷ [] }
    ensures room { (A.view arena.new).room 0 ≡ (A.view arena.old).room 0 }
{
    let _root = arena.allocate(0, 1);
}

/// Calls `init_root_with_text_and_number` for a message whose first segment is an array of four
/// words on the stack. The words of the message all fit this array, so no call is refused for lack
/// of memory.
pub fn build_on_the_stack(alloc: Global, number: u64) -> Result<(), ErrorKind>
    ensures { IsOk result }
{
    let mut scratch = [0u8; 32];
    let allocator = ScratchSpaceHeapAllocator::new(alloc, &mut scratch, 0);
    let mut arena = BuilderArenaImpl::new(alloc, allocator);
    arena.allocate_segment(4)?;
    allocate_root_word(&mut arena);
    init_root_with_text_and_number(&mut arena, b"Hello", number)
}
