//! Messages: the segments of a message that is read, with its limits, and a message being built, with
//! its memory.
ghost use Rattle.std.specs.Prelude.{◌≡◌, ◌≤◌, ◌∷◌, [], IfOk, IfErr};
ghost use Rattle.capnp_format.specs.Bytes.{message};
ghost use Rattle.capnp_format.specs.Segments.{IsPlace};
ghost use Rattle.capnp_format.specs.Tree.{Null};
ghost use Rattle.capnp_words.specs.declared.error.ErrorKind.TheVariants.{AllocationFailed};
ghost use Rattle.capnp_arena_traits.specs.Allocations.{max_segment_words};
ghost use Rattle.capnp_arena_traits.specs.Limits.{IsSmall};
ghost use Rattle.capnp_allocation.specs.Stored.{IsStored};
ghost use Rattle.typed_messages.specs.Reading.{HasLimits, words_of_message};

pub use capnp_arena::arena::ReaderOptions;
use capnp_arena::arena::{
    BuilderArena, BuilderArenaImpl, HeapAllocator, ReaderArenaImpl, ReaderSegments,
};
use capnp_words::error::ErrorKind;
use capnp_words::read_limiter::ReadLimiter;
use std::alloc::Global;

/// A message that is read: its segments, and what is left of its limits. Generated readers take both
/// parts: `address_book::Reader::root(&message.arena, &mut message.limiter)`.
#[derive(Drop)]
pub struct MessageReader<S: ReaderSegments> {
    /// The segments, with the nesting limit.
    pub arena: ReaderArenaImpl<S>,
    /// What is left of the traversal limit.
    pub limiter: ReadLimiter,
}

impl<S: ReaderSegments> MessageReader<S> {
    /// Makes the message of `segments`, with the limits of `options`. Precondition: `segments` has
    /// fewer than 2^32 segments, each of fewer than 2^32 words. Ignores the bytes, at most 7, after
    /// a segment's last whole word.
    pub fn new(segments: S, options: ReaderOptions) -> Self
        requires { IsSmall (S.segments segments) }
        ensures segments { result.arena.segments ≡ segments }
        ensures words { words_of_message S.ReaderSegments result ≡ message (S.segments segments) }
        ensures limits { HasLimits S.ReaderSegments result options }
    {
        MessageReader {
            arena: ReaderArenaImpl::new(segments, options),
            limiter: ReadLimiter::new(options.traversal_limit_in_words),
        }
    }

    /// Returns the segments that `new` took.
    pub fn into_segments(self) -> S
        ensures { result ≡ self.arena.segments }
    {
        let MessageReader { arena, limiter: _ } = self;
        arena.into_segments()
    }
}

/// The arena of a `MessageBuilder`.
pub type HeapArena = BuilderArenaImpl<HeapAllocator>;

/// A message being built, in segments on the heap. Generated builders take its arena:
/// `address_book::Builder::init_root(&mut message.arena)`.
#[derive(Drop)]
pub struct MessageBuilder {
    /// The segments. They can be read, too, which charges nothing.
    pub arena: HeapArena,
}

impl MessageBuilder {
    /// Makes a message of one segment, whose only word is a null root pointer. The segment has room
    /// for `words` words, or for 1 if `words` is 0. Later segments get as much room, or more if an
    /// object needs more. Precondition: `words` is at most 536,870,911.
    ///
    /// Refuses with `AllocationFailed` if memory runs out.
    pub fn new(alloc: Global, words: u32) -> Result<Self, ErrorKind>
        requires { words ≤ max_segment_words }
        ensures words { IfOk result (λ m. (⟦<HeapArena as BuilderArena>⟧.view m.arena).words
            ≡ (0 ∷ []) ∷ []) }
        ensures room { IfOk result (λ m.
            words ≤ (⟦<HeapArena as BuilderArena>⟧.view m.arena).room 0) }
        ensures root { IfOk result (λ m.
            IsPlace (⟦<HeapArena as BuilderArena>⟧.view m.arena).words 0 0) }
        ensures null { IfOk result (λ m.
            IsStored (⟦<HeapArena as BuilderArena>⟧.view m.arena).words 0 0 Null) }
        ensures refused { IfErr result (λ e. e ≡ AllocationFailed) }
    {
        let mut arena = BuilderArenaImpl::new(alloc, HeapAllocator::new(alloc, words));
        match arena.allocate_segment(1) {
            Ok(()) => {
                let _root = arena.allocate(0, 1);
                Ok(MessageBuilder { arena })
            }
            Err(error) => Err(error),
        }
    }
}
