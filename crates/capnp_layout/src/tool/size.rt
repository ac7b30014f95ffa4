//! Counts the words and capabilities of a message.
ghost use Rattle.std.specs.Prelude.{◌↔◌, IsOk, IfOk, IfErr};
ghost use Rattle.capnp_format.specs.Bytes.{message};
ghost use Rattle.capnp_arena_traits.specs.Limits.{IsSmall};
ghost use Rattle.capnp_messages.specs.Messages.{HasSizeOf, HasSizeWithin};
ghost use Rattle.capnp_layout.specs.Answers.{RefusesMessage};
ghost use Rattle.capnp_layout.specs.Messages.{segments_in};

use super::args::Args;
use super::limits::ensure_small;
use super::lines::Message;
use capnp_arena::arena::{ReaderArenaImpl, ReaderOptions};
use capnp_messages::messages;
use capnp_readers::readers::MessageSize;
use capnp_words::error::ErrorKind;

/// Counts the words and capabilities that the root of a message leads to, without landing pads.
pub(crate) fn measure_message(
    source: Message,
    options: ReaderOptions,
) -> Result<MessageSize, ErrorKind>
    ensures exactly { IsOk result ↔ IsSmall (segments_in source)
        × HasSizeWithin (message (segments_in source)) options }
    ensures size { IfOk result (λ z.
        HasSizeOf (message (segments_in source)) options z.word_count z.cap_count) }
    ensures refused { IfErr result (RefusesMessage (segments_in source) (Args.Size options)) }
{
    ensure_small(&source)?;
    let arena = ReaderArenaImpl::new(source, options);
    messages::size(&arena, options.traversal_limit_in_words)
}
