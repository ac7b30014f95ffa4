//! Reads the root pointer of a message.
ghost use Rattle.std.specs.Prelude.{◌≡◌, ◌↔◌, IsOk, OnOk, IfOk, OnErr, IfErr};
ghost use Rattle.capnp_words.specs.Meter.{spent};
ghost use Rattle.capnp_format.specs.Bytes.{message};
ghost use Rattle.capnp_pointers.specs.Source.{levels};
ghost use Rattle.capnp_pointers.specs.Pointers.{reading};
ghost use Rattle.capnp_messages.specs.Roots.{CoversRoot, RefusesRoot, message_root};

use capnp_arena::arena::{ReaderArena, ReaderArenaImpl, ReaderSegments};
use capnp_pointers::pointers::Pointer;
use capnp_words::error::ErrorKind;
use capnp_words::read_limiter::ReadLimiter;

/// Returns the root pointer of a message, and charges `lim` the pointer's word. Does what
/// `Pointer::get_root_from_arena` does, for a reader's arena whose segments may be held by any
/// type.
///
/// Refusals, which charge nothing: `InvalidSegmentId(0)` if there are no segments;
/// `MessageContainsOutOfBoundsPointer` if the first segment has no word; `ReadLimitExceeded` if
/// `lim` has no word left.
pub fn read_root<'a, S: ReaderSegments>(
    arena: &'a ReaderArenaImpl<S>,
    lim: &mut ReadLimiter,
) -> Result<Pointer<'a, ReaderArenaImpl<S>>, ErrorKind>
    ensures exactly { IsOk result ↔ CoversRoot
        (message (⟦<ReaderArenaImpl<S> as ReaderArena>⟧.segments arena.now)) lim.old.left }
    ensures place { IfOk result (λ root. reading ⟦<ReaderArenaImpl<S> as ReaderArena>⟧ root
        ≡ message_root (message (⟦<ReaderArenaImpl<S> as ReaderArena>⟧.segments arena.now))
        (levels arena.now.nesting_limit)) }
    ensures charged { OnOk result (lim.new ≡ spent lim.old 1) }
    ensures refused { IfErr result (RefusesRoot
        (message (⟦<ReaderArenaImpl<S> as ReaderArena>⟧.segments arena.now)) lim.old.left) }
    ensures unread { OnErr result (lim.new ≡ lim.old) }
{
    Pointer::get_root_from_arena(arena, lim)
}
