//! Copies default values of structs and lists.
ghost use Rattle.std.specs.Prelude.{◌≤◌, IfOk};
ghost use Rattle.capnp_format.specs.Segments.{IsPlace};
ghost use Rattle.capnp_arena_traits.specs.Allocations.{max_segment_words};

use capnp_arena::arena::{
    BuilderArena, BuilderArenaImpl, HeapAllocator, MAX_SEGMENT_WORDS, ReaderArena,
};
use capnp_builders::builders::PointerBuilder;
use capnp_readers::readers::PointerReader;
use capnp_words::error::ErrorKind;
use capnp_words::read_limiter::ReadLimiter;
use std::alloc::Global;

/// A message being built, in segments on the heap.
type Built = BuilderArenaImpl<HeapAllocator>;

/// Returns the words of a value in canonical form: one segment, with its pointer in the first word.
pub fn canonical_words<A: ReaderArena>(
    alloc: Global,
    from: PointerReader<'_, A>,
    lim: &mut ReadLimiter,
) -> Result<Vec<u8>, ErrorKind> {
    let size = from.pointer().total_size(lim)?;
    let words = u32::try_from(size.word_count).unwrap_or(MAX_SEGMENT_WORDS);
    let mut built = empty_message(alloc, words.saturating_add(1).min(MAX_SEGMENT_WORDS))?;
    PointerBuilder::get_root(&mut built).copy_from(from, lim, true)?;
    let words = built.get_segment(0)?;
    match words.to_vec(alloc) {
        Ok(copied) => Ok(copied),
        Err(_) => Err(ErrorKind::AllocationFailed),
    }
}

// Makes a message with a null root, in a segment with room for `words` words.
fn empty_message(alloc: Global, words: u32) -> Result<Built, ErrorKind>
    requires { words ≤ max_segment_words }
    ensures { IfOk result (λ b. IsPlace (⟦<Built as BuilderArena>⟧.view b).words 0 0) }
{
    let mut built = BuilderArenaImpl::new(alloc, HeapAllocator::new(alloc, words));
    built.allocate_segment(1)?;
    let _root = built.allocate(0, 1);
    Ok(built)
}
