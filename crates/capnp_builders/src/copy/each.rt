//! Copies consecutive pointers, up to the first one that is refused.
ghost use Rattle.std.specs.Prelude.{◌≡◌, ℕ, ◌+◌, ◌<◌, ◌≤◌, length, IsOk, IfOk, IfErr};
ghost use Rattle.capnp_format.specs.Segments.{segment, word_at};
ghost use Rattle.capnp_pointers.specs.Reading.{segment_read};
ghost use Rattle.capnp_pointers.specs.Wanted.{plain};
ghost use Rattle.capnp_pointers.specs.Pointers.{reading};
ghost use Rattle.capnp_copies.specs.Growth.{TakesAtMost};
ghost use Rattle.capnp_copies.specs.Changes.{copy_call, CopiesChildren, CopiesFirst, HasNullsFor};
ghost use Rattle.capnp_copies.specs.Rooms.{CanBeCopied};
ghost use Rattle.capnp_copies.specs.Originals.{children_original};
ghost use Rattle.capnp_allocation.specs.Makes.{call_at};

use capnp_arena_traits::arena::{BuilderArena, ReaderArena, WordPlace};
use capnp_copies::copy::{copy_value, place_past};
use capnp_pointers::pointers::Pointer;
use capnp_words::error::ErrorKind;
use capnp_words::read_limiter::ReadLimiter;

/// Makes plain copies of the values of `count` consecutive pointers, from `from` on, to the `count`
/// null pointers from `to` on. Preconditions: the segment of `from` has at least `from.place.at +
/// count` words; segment `to.segment` has at least `to.at + count` allocated words; the `count`
/// words from `to` on are zero.
///
/// Refuses with the first refusal of `copy_value`. The pointers before the refused one are then
/// copied; the refused one and those after it are null. Never refuses if all the pointers can be
/// read, and the copies fit after the words of the segment of `to`.
pub fn copy_each<A: BuilderArena, B: ReaderArena>(
    arena: &mut A,
    to: WordPlace,
    from: Pointer<'_, B>,
    count: u32,
    lim: &mut ReadLimiter,
) -> Result<(), ErrorKind>
    requires { HasNullsFor (reading B.ReaderArena from) count
        (A.view arena.old).words to.segment to.at }
    ensures copied { IfOk result (λ _. CopiesChildren (reading B.ReaderArena from.entry) count
        (copy_call plain
        (call_at to.segment to.at (A.view arena.old) (A.view arena.new)) lim.old lim.new)) }
    ensures fits { CanBeCopied (children_original (reading B.ReaderArena from.entry) count)
        plain lim.old (A.view arena.old) to.segment → IsOk result }
    ensures refused { IfErr result
        (CopiesFirst (reading B.ReaderArena from.entry) count
        (copy_call plain
        (call_at to.segment to.at (A.view arena.old) (A.view arena.new)) lim.old lim.new)) }
    ensures taken { TakesAtMost result (children_original (reading B.ReaderArena from.entry) count)
        (copy_call plain
        (call_at to.segment to.at (A.view arena.old) (A.view arena.new)) lim.old lim.new) }
{
    for i in 0..count {
        let child = from.past(i);
        let place = place_past(to, i);
        copy_value(arena, place, child, lim, false)?;
    }
    Ok(())
}
