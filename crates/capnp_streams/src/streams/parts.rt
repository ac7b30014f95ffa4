//! Copies, hashes and measures what a task is about: the whole message, or the part of it to which
//! the task's path leads. Tests whole messages.
ghost use Rattle.std.specs.Prelude.{◌≡◌, ◌↔◌, IsNone, IsOk, IfOk, IfErr, IfNone, IfSome, OnOk};
ghost use Rattle.capnp_format.specs.Bytes.{message};
ghost use Rattle.capnp_format.specs.Tree.{Tree};
ghost use Rattle.capnp_arena_traits.specs.Limits.{IsSmall};
ghost use Rattle.capnp_messages.specs.CanonicalMessages.{IsCanonicalMessage};
ghost use Rattle.capnp_messages.specs.Copies.{HoldsCanonicalWords, LacksMemoryOr};
ghost use Rattle.capnp_messages.specs.Extents.{HasExtent, validate};
ghost use Rattle.capnp_messages.specs.Messages.{IsCanonicalWithin, IsFaultOf, IsReadable, RefusesCheck, arena_limits};
ghost use Rattle.capnp_streams.specs.Asked.{HasSizeAt, IsDigestAt, IsValueAt, RefusesCopyAt, RefusesSizeAt};
ghost use Rattle.capnp_streams.specs.Paths.{path_indexes};

use super::task::Task;
use capnp_arena::arena::{
    Allocator, BuilderArena, BuilderArenaImpl, ReaderArena, ReaderArenaImpl, ReaderOptions,
    ReaderSegments,
};
use capnp_messages::messages;
use capnp_messages::messages::MessageExtent;
use capnp_pointers::pointers::{CanonicalFault, MessageSize};
use capnp_words::error::ErrorKind;
use std::alloc::Global;

/// Makes the canonical copy that `task` asks for of the message in `source`, like `canonicalize` or
/// `canonicalize_part`, within the nesting limit of `source`.
pub(super) fn canonicalize_for_task<A: Allocator, S: ReaderSegments>(
    alloc: Global,
    allocator: A,
    source: &ReaderArenaImpl<S>,
    task: Task,
) -> Result<BuilderArenaImpl<A>, (ErrorKind, A)>
    ensures copied { IfOk result (λ made. (t : Tree) × IsValueAt
        (message (⟦<ReaderArenaImpl<S> as ReaderArena>⟧.segments source.now))
        (arena_limits source.now.nesting_limit task.limits.traversal_limit_in_words)
        (path_indexes task.path) t
        × HoldsCanonicalWords (⟦<BuilderArenaImpl<A> as BuilderArena>⟧.view made) t) }
    ensures granted { IfOk result (λ made.
        (⟦<BuilderArenaImpl<A> as BuilderArena>⟧.view made).refusals ≡ A.refusals allocator) }
    ensures refused { IfErr result
        (λ e. LacksMemoryOr (A.refusals allocator) (A.refusals e.1) e.0 (RefusesCopyAt
        (message (⟦<ReaderArenaImpl<S> as ReaderArena>⟧.segments source.now))
        (arena_limits source.now.nesting_limit task.limits.traversal_limit_in_words)
        (path_indexes task.path) e.0)) }
{
    let words = task.limits.traversal_limit_in_words;
    let path = task.path.indexes();
    if path.is_empty() {
        messages::canonicalize(alloc, allocator, source, words)
    } else {
        messages::canonicalize_part(alloc, allocator, source, path, words)
    }
}

/// Returns the digest that `task` asks for of the message, and the allocator, like `digest` or
/// `digest_of_part`.
pub(super) fn digest_for_task<A: Allocator, S: ReaderSegments + Drop>(
    alloc: Global,
    allocator: A,
    segments: S,
    task: Task,
) -> (Result<[u8; 32], ErrorKind>, A)
    requires { IsSmall (S.segments segments) }
    ensures digest { IfOk result.0
        (IsDigestAt (message (S.segments segments)) task.limits (path_indexes task.path)) }
    ensures refused { IfErr result.0
        (λ k. LacksMemoryOr (A.refusals allocator) (A.refusals result.1) k
        (RefusesCopyAt (message (S.segments segments)) task.limits (path_indexes task.path) k)) }
    ensures kept { OnOk result.0 (A.refusals result.1 ≡ A.refusals allocator) }
{
    let source = ReaderArenaImpl::new(segments, task.limits);
    let words = task.limits.traversal_limit_in_words;
    let path = task.path.indexes();
    if path.is_empty() {
        messages::digest(alloc, allocator, &source, words)
    } else {
        messages::digest_of_part(alloc, allocator, &source, path, words)
    }
}

/// Counts the words and capabilities that `task` asks for, like `size` or `size_of_part`.
pub(super) fn size_for_task<S: ReaderSegments + Drop>(
    segments: S,
    task: Task,
) -> Result<MessageSize, ErrorKind>
    requires { IsSmall (S.segments segments) }
    ensures size { IfOk result (λ z. HasSizeAt (message (S.segments segments)) task.limits
        (path_indexes task.path) z.word_count z.cap_count) }
    ensures refused { IfErr result
        (RefusesSizeAt (message (S.segments segments)) task.limits (path_indexes task.path)) }
{
    let source = ReaderArenaImpl::new(segments, task.limits);
    let words = task.limits.traversal_limit_in_words;
    let path = task.path.indexes();
    if path.is_empty() {
        messages::size(&source, words)
    } else {
        messages::size_of_part(&source, path, words)
    }
}

/// Returns where and why the message in `segments` isn't canonical as a whole, or `None` if it is,
/// like `check` of `capnp_messages`.
pub(super) fn check<S: ReaderSegments + Drop>(
    segments: S,
    limits: ReaderOptions,
) -> Result<Option<CanonicalFault>, ErrorKind>
    requires { IsSmall (S.segments segments) }
    ensures exactly { IfOk result (λ o. IsNone o
        ↔ IsCanonicalMessage (message (S.segments segments))) }
    ensures within { IfOk result (λ o. IfNone o
        (IsCanonicalWithin (message (S.segments segments)) limits)) }
    ensures fault { IfOk result (λ o. IfSome o (IsFaultOf (message (S.segments segments)) limits)) }
    ensures refused { IfErr result (RefusesCheck (message (S.segments segments)) limits) }
{
    let source = ReaderArenaImpl::new(segments, limits);
    messages::check(&source, limits.traversal_limit_in_words)
}

/// Tests whether the message in `segments` is sound, like `validate` of `capnp_messages`.
pub(super) fn validate<S: ReaderSegments + Drop>(
    segments: S,
    limits: ReaderOptions,
) -> Result<MessageExtent, ErrorKind>
    requires { IsSmall (S.segments segments) }
    ensures computed { validate (message (S.segments segments)) limits ≡ result }
    ensures exactly { IsOk result ↔ IsReadable (message (S.segments segments)) limits }
    ensures extent { IfOk result (HasExtent (message (S.segments segments)) limits) }
{
    let source = ReaderArenaImpl::new(segments, limits);
    messages::validate(&source, limits.traversal_limit_in_words)
}
