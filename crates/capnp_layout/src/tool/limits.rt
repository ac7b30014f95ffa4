//! Tests whether a message from the input is small enough for readers.
ghost use Rattle.std.specs.Prelude.{◌≡◌, ◌↔◌, ◌-◌, ◌^◌, IsOk, IfErr};
ghost use Rattle.capnp_words.specs.declared.error.ErrorKind.TheVariants.{MessageTooLarge};
ghost use Rattle.capnp_arena_traits.specs.Limits.{IsSmall};
ghost use Rattle.capnp_layout.specs.Messages.{segments_in};

use super::lines::Message;
use capnp_words::error::ErrorKind;

/// Tests whether a message is small enough for readers: it has fewer than 2^32 segments, each of
/// fewer than 2^32 words. Refuses a larger one with `MessageTooLarge`.
pub(crate) fn ensure_small(source: &Message) -> Result<(), ErrorKind>
    ensures small { IsOk result ↔ IsSmall (segments_in source.now) }
    ensures named { IfErr result (λ k. k ≡ MessageTooLarge (2 ^ 64 - 1)) }
{
    if source.is_small() {
        Ok(())
    } else {
        Err(ErrorKind::MessageTooLarge(usize::MAX))
    }
}
