//! Clears what a refused copy has made.
ghost use Rattle.std.specs.Prelude.{◌≡◌, OnErr};
ghost use Rattle.capnp_format.specs.Segments.{IsPlace};
ghost use Rattle.capnp_copies.specs.Rooms.{ClearsRefused};
ghost use Rattle.capnp_allocation.specs.Makes.{call_at};

use capnp_allocation::making::clear;
use capnp_arena_traits::arena::{BuilderArena, WordPlace};
use capnp_words::error::ErrorKind;

/// Ends a copy to the pointer at `to`. If the copy was refused, makes the pointer null, and zeroes
/// what was made for the copy. Returns `copied`. Precondition: if `copied` is a refusal, the word
/// at `to` is allocated.
#[inline(always)]
pub fn clear_if_refused<A: BuilderArena>(
    arena: &mut A,
    to: WordPlace,
    copied: Result<(), ErrorKind>,
) -> Result<(), ErrorKind>
    requires { OnErr copied (IsPlace (A.view arena.old).words to.segment to.at) }
    ensures same { result ≡ copied }
    ensures clears { ClearsRefused copied
        (call_at to.segment to.at (A.view arena.old) (A.view arena.new)) }
{
    match copied {
        Ok(()) => Ok(()),
        Err(k) => {
            clear(arena, to.segment, to.at);
            Err(k)
        }
    }
}
