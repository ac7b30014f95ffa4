//! Examples of functions that call `apply_all`. Their proofs use only its contract, which shows that
//! this contract tells a caller enough.
ghost use Rattle.std.specs.Prelude.{◌≡◌, ◌≤◌, ◌+◌, ◌∷◌, [], length, true, IsOk, All};
ghost use Rattle.std.specs.List.{sum_by};
ghost use Rattle.capnp_format.specs.Forest.{IsForest};
ghost use Rattle.capnp_format.specs.Segments.{segment};
ghost use Rattle.capnp_format.specs.Tree.{Tree};
ghost use Rattle.capnp_edits.specs.Edits.{is_of_path};
ghost use Rattle.capnp_edits.specs.Fitting.{AreInFirst, AsksNoMore, IsNoneOfMemory, words_asked};
ghost use Rattle.capnp_edits.specs.Tasks.{task_of};

use crate::builders::allocate_root_word;
use capnp_arena::arena::{BuilderArena, BuilderArenaImpl, ScratchSpaceHeapAllocator};
use capnp_edits::edit::{Edit, Op, Step, apply_all};
use capnp_words::error::ErrorKind;
use capnp_words::wire_pointer::{ElementSize, StructSize};
use std::alloc::Global;

/// Applies `edits`. Because of the preconditions, no edit is refused for lack of memory.
///
/// Preconditions: `outcomes` has as many entries as `edits`; the value of the message holds no word
/// twice, and all other words of the message are zero; all words of the message are in its first
/// segment; `edits` only make objects, or write pointers, fields, elements and bytes; and the first
/// segment has room for the words of all objects that they make.
pub fn apply_fitting_edits<A: BuilderArena>(
    arena: &mut A,
    edits: &[Edit<'_>],
    outcomes: &mut [Option<ErrorKind>],
)
    requires many { length outcomes.old ≡ length edits.now }
    requires forest { (t : Tree) × IsForest (A.view arena.old).words t }
    requires first { AreInFirst (A.view arena.old).words }
    requires asks { All (λ e. AsksNoMore (task_of e.op)) edits.now }
    requires room { length (segment (A.view arena.old).words 0)
        + sum_by (λ e. words_asked (task_of e.op)) edits.now ≤ (A.view arena.old).room 0 }
    ensures { All IsNoneOfMemory outcomes.new }
{
    apply_all(arena, edits, outcomes);
}

/// Returns `kind` as an error if it is `AllocationFailed` or `MessageTooLarge`; otherwise returns
/// `Ok`.
fn err_if_memory_refusal(kind: ErrorKind) -> Result<(), ErrorKind>
    ensures { is_of_path kind ≡ true → IsOk result }
{
    match kind {
        ErrorKind::AllocationFailed | ErrorKind::MessageTooLarge(_) => Err(kind),
        _ => Ok(()),
    }
}

/// Returns the refusal of an edit as an error if it is `AllocationFailed` or `MessageTooLarge`;
/// otherwise returns `Ok`.
fn forward_memory_refusal(outcome: Option<ErrorKind>) -> Result<(), ErrorKind>
    ensures { IsNoneOfMemory outcome → IsOk result }
{
    match outcome {
        Some(kind) => err_if_memory_refusal(kind),
        None => Ok(()),
    }
}

/// Applies three edits, which make the root lead to a struct with a number and a text.
/// Preconditions: the only word of the message is a null root, and its segment has room for four
/// words. An error would be the refusal of an edit for lack of memory, but the segment has room for
/// all words.
#[tactic(auto, using(crate::proofs::Fitting::root_forest, crate::proofs::Fitting::root_first, crate::proofs::Fitting::three_ask, crate::proofs::Fitting::none_at))]
pub fn apply_three_edits<A: BuilderArena>(arena: &mut A) -> Result<(), ErrorKind>
    requires root { (A.view arena.old).words ≡ (0 ∷ []) ∷ [] }
    requires room { 4 ≤ (A.view arena.old).room 0 }
    ensures { IsOk result }
{
    let size = StructSize {
        data_words: 1,
        pointers: 1,
    };
    let field = [Step::Child(0)];
    let edits = [
        Edit {
            path: &[],
            op: Op::InitStruct(size),
        },
        Edit {
            path: &[],
            op: Op::SetField(ElementSize::EightBytes, 0, 7),
        },
        Edit {
            path: &field,
            op: Op::SetText(b"Hello"),
        },
    ];
    let mut outcomes = [None; 3];
    apply_fitting_edits(arena, &edits, &mut outcomes);
    forward_memory_refusal(outcomes[0])?;
    forward_memory_refusal(outcomes[1])?;
    forward_memory_refusal(outcomes[2])
}

/// Calls `apply_three_edits` for a message whose first segment is an array of four words on the
/// stack. Its words all fit this array, so no edit is refused for lack of memory.
pub fn edit_on_the_stack(alloc: Global) -> Result<(), ErrorKind>
    ensures { IsOk result }
{
    let mut scratch = [0u8; 32];
    let allocator = ScratchSpaceHeapAllocator::new(alloc, &mut scratch, 0);
    let mut arena = BuilderArenaImpl::new(alloc, allocator);
    arena.allocate_segment(4)?;
    allocate_root_word(&mut arena);
    apply_three_edits(&mut arena)
}
