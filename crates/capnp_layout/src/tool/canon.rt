//! Finds the canonical words of a message (encoding specification, "Canonicalization").
ghost use Rattle.std.specs.Prelude.{OnOk, IfOk, IfErr};
ghost use Rattle.capnp_format.specs.Bytes.{message};
ghost use Rattle.capnp_format.specs.Tree.{Tree};
ghost use Rattle.capnp_arena_traits.specs.Limits.{IsSmall};
ghost use Rattle.capnp_framing.specs.Reading.{total};
ghost use Rattle.capnp_messages.specs.Copies.{HoldsCanonicalWords, LacksMemoryOr};
ghost use Rattle.capnp_messages.specs.Messages.{IsValueOf};
ghost use Rattle.capnp_messages.specs.Tries.{IsFirstTry};
ghost use Rattle.capnp_layout.specs.Answers.{RefusesMessage};
ghost use Rattle.capnp_layout.specs.Messages.{segments_in};

use super::args::Args;
use super::limits::ensure_small;
use super::lines::Message;
use capnp_arena::arena::{
    Allocator, BuilderArena, BuilderArenaImpl, ReaderArenaImpl, ReaderOptions,
};
use capnp_messages::messages::canonicalize;
use capnp_words::error::ErrorKind;
use std::alloc::Global;

/// Makes a canonical copy of the value of the root of `source`: a message of one segment. A refusal
/// returns the allocator.
pub(crate) fn canonicalize_root<A: Allocator>(
    alloc: Global,
    allocator: A,
    source: Message,
    options: ReaderOptions,
) -> Result<BuilderArenaImpl<A>, (ErrorKind, A)>
    ensures small { OnOk result (IsSmall (segments_in source)) }
    ensures value { IfOk result (λ made. (t : Tree)
        × IsValueOf (message (segments_in source)) options t
        × HoldsCanonicalWords (⟦<BuilderArenaImpl<A> as BuilderArena>⟧.view made) t) }
    ensures tries { IfOk result (λ made.
        IsFirstTry (total (message (segments_in source)))
        (A.offers allocator) (A.refusals allocator)
        (⟦<BuilderArenaImpl<A> as BuilderArena>⟧.view made)) }
    ensures refused { IfErr result
        (λ e. LacksMemoryOr (A.refusals allocator) (A.refusals e.1) e.0
        (RefusesMessage (segments_in source) (Args.Canon options) e.0)) }
{
    match ensure_small(&source) {
        Ok(()) => {
            let arena = ReaderArenaImpl::new(source, options);
            canonicalize(alloc, allocator, &arena, options.traversal_limit_in_words)
        }
        Err(kind) => Err((kind, allocator)),
    }
}
