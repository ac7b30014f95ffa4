//! Tests whether a whole message is in canonical form.
ghost use Rattle.std.specs.Prelude.{◌≡◌, ◌↔◌, true, Ok, IsTrue, IfOk};
ghost use Rattle.capnp_format.specs.Bytes.{message};
ghost use Rattle.capnp_pointers.specs.Source.{levels};
ghost use Rattle.capnp_pointers.specs.Metered.{answer, ◌>>>◌};
ghost use Rattle.capnp_messages.specs.CanonicalMessages.{IsCanonicalMessage, IsPaid, IsWithinLevels};
ghost use Rattle.capnp_messages.specs.Check.{is_whole, message_tested};

use super::message_fault::canonical_fault;
use capnp_arena::arena::{ReaderArena, ReaderArenaImpl, ReaderSegments};
use capnp_words::error::ErrorKind;
use capnp_words::read_limiter::ReadLimiter;

/// Tests whether a message is canonical as a whole: whether it has one segment, which holds the
/// canonical words of a value and nothing else (encoding specification, "Canonicalization"). So two
/// canonical messages are equal exactly if their values are.
///
/// If there isn't exactly one segment, returns `false` and reads nothing. Otherwise reads the root
/// pointer, which costs one word, and tests its value like `PointerReader::is_canonical`, with the
/// charges, nesting limit and refusals of that call. If the message is canonical, its value is at
/// most as deep as the arena's nesting limit, and `lim` has words left for the value's cost and the
/// root pointer, then it isn't refused.
pub fn is_canonical_message<S: ReaderSegments>(
    arena: &ReaderArenaImpl<S>,
    lim: &mut ReadLimiter,
) -> Result<bool, ErrorKind>
    ensures exactly { IfOk result (λ yes. IsTrue yes
        ↔ IsCanonicalMessage (message (⟦<ReaderArenaImpl<S> as ReaderArena>⟧.segments arena.now))) }
    ensures paid { result ≡ Ok true →
        IsPaid (message (⟦<ReaderArenaImpl<S> as ReaderArena>⟧.segments arena.now))
        lim.old lim.new }
    ensures within { result ≡ Ok true →
        IsWithinLevels (message (⟦<ReaderArenaImpl<S> as ReaderArena>⟧.segments arena.now))
        (levels arena.now.nesting_limit) }
    ensures computed { (message_tested
        (message (⟦<ReaderArenaImpl<S> as ReaderArena>⟧.segments arena.now))
        (levels arena.now.nesting_limit) >>> λ o. answer (is_whole o)) lim.old
        ≡ (result, lim.new) }
{
    Ok(canonical_fault(arena, lim)?.is_none())
}
