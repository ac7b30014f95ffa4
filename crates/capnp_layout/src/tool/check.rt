//! Tests whether a message is in canonical form.
ghost use Rattle.std.specs.Prelude.{true, IsOk, IfOk, OnOk, IfErr};
ghost use Rattle.capnp_format.specs.Bytes.{message};
ghost use Rattle.capnp_arena_traits.specs.Limits.{IsSmall};
ghost use Rattle.capnp_layout.specs.Answers.{CheckOf, RefusesMessage};
ghost use Rattle.capnp_layout.specs.Messages.{segments_in};

use super::args::Args;
use super::limits::ensure_small;
use super::lines::Message;
use capnp_arena::arena::{ReaderArenaImpl, ReaderOptions};
use capnp_messages::messages::read_root;
use capnp_readers::readers::PointerReader;
use capnp_words::error::ErrorKind;
use capnp_words::read_limiter::ReadLimiter;

/// Tests whether a message is in canonical form at its root, with the first object right after the
/// root pointer (encoding specification, "Canonicalization").
pub(crate) fn is_canonical(source: Message, options: ReaderOptions) -> Result<bool, ErrorKind>
    ensures small { OnOk result (IsSmall (segments_in source)) }
    ensures check { IfOk result (CheckOf (message (segments_in source)) options) }
    ensures answered { IsSmall (segments_in source)
        → CheckOf (message (segments_in source)) options true → IsOk result }
    ensures refused { IfErr result (RefusesMessage (segments_in source) (Args.Check options)) }
{
    ensure_small(&source)?;
    let arena = ReaderArenaImpl::new(source, options);
    let mut lim = ReadLimiter::new(options.traversal_limit_in_words);
    let root = read_root(&arena, &mut lim)?;
    let mut head = 1;
    PointerReader::from_pointer(root).is_canonical(&mut lim, &mut head)
}
