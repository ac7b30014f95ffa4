//! The places of the pointers still to be visited.
ghost use Rattle.std.specs.Prelude.{◌≡◌, ◌+◌, ◌*◌, ◌^◌, ◌<◌, ◌≤◌, ◌++◌, OnOk};
ghost use Rattle.layout_vectors.specs.Spots.{spots, element_spots};

use capnp_arena_traits::arena::WordPlace;
use capnp_words::wire_pointer::StructSize;
use std::alloc::AllocError;

/// Appends the place at word `at` of segment `segment` to `pending`.
pub(crate) fn push_place(
    pending: &mut Vec<WordPlace>,
    segment: u32,
    at: u32,
) -> Result<(), AllocError>
    ensures { OnOk result (pending.new.items ≡ pending.old.items ++ spots segment at 1) }
{
    pending.push(WordPlace { segment, at })?;
    Ok(())
}

/// Appends the places of the `count` consecutive pointers from word `start` on to `pending`.
#[tactic(auto, using(crate::proofs::SpotsMore::spots_more))]
pub(crate) fn push_pointers(
    pending: &mut Vec<WordPlace>,
    segment: u32,
    start: u32,
    count: u32,
) -> Result<(), AllocError>
    requires { start + count < 2 ^ 32 }
    ensures { OnOk result (pending.new.items ≡ pending.old.items
        ++ spots segment start count) }
{
    for i in 0..count {
        push_place(pending, segment, start + i)?;
    }
    Ok(())
}

/// Appends the places of the pointers in the `count` consecutive structs of `size` from word
/// `start` on to `pending`.
#[tactic(auto, using(crate::proofs::SpotsMore::element_spots_more, crate::proofs::SpotsMore::element_spots_none))]
pub(crate) fn push_element_pointers(
    pending: &mut Vec<WordPlace>,
    segment: u32,
    start: u32,
    size: StructSize,
    count: u32,
) -> Result<(), AllocError>
    requires { start + count * (size.data_words + size.pointers) < 2 ^ 32 }
    ensures { OnOk result (pending.new.items ≡ pending.old.items
        ++ element_spots segment start size.data_words size.pointers count) }
{
    if size.pointers == 0 {
        return Ok(());
    }
    let mut at = start;
    for _i in 0..count {
        at += u32::from(size.data_words);
        push_pointers(pending, segment, at, u32::from(size.pointers))?;
        at += u32::from(size.pointers);
    }
    Ok(())
}
