//! Makes parts of a struct zero, to begin a group.
ghost use Rattle.std.specs.Prelude.{[], ◌∷◌};
ghost use Rattle.capnp_format.specs.Segments.{Grows};
ghost use Rattle.capnp_readers.specs.Readers.{IsStructPlace};
ghost use Rattle.capnp_builders.specs.Held.{call_in};
ghost use Rattle.capnp_builders.specs.Places.{IsAligned};
ghost use Rattle.capnp_readers.specs.Sections.{IsInside};
ghost use Rattle.capnp_in_place.specs.Anew.{OnlyWrites};
ghost use Rattle.typed_building.specs.Slots.{BeginsGroup, HoldsSlot, HoldsSlots, ReplacesGroup, ReplacesSlots, ZeroesSlots};

use crate::slots::Slot;
use crate::tag::UnionTag;
use crate::value;
use capnp_arena_traits::arena::BuilderArena;
use capnp_builders::fields;
use capnp_readers::readers::StructPlace;

/// Makes a part of a struct zero, or null, and zeroes what a pointer held. Preconditions: `place`
/// is inside the message and aligned; `slot` is inside the struct.
pub fn zero_slot<A: BuilderArena>(arena: &mut A, place: StructPlace, slot: Slot)
    requires aligned { IsAligned place }
    requires inside { IsStructPlace (A.view arena.old).words place }
    requires slot { HoldsSlot place slot }
    ensures grows { Grows (A.view arena.old).words (A.view arena.new).words }
    ensures zeroes { ZeroesSlots
        (call_in place (A.view arena.old).words (A.view arena.new).words) (slot ∷ []) }
    ensures replaces { ReplacesSlots
        (call_in place (A.view arena.old).words (A.view arena.new).words) (slot ∷ []) }
    ensures memory { OnlyWrites (A.view arena.old) (A.view arena.new) }
{
    match slot {
        Slot::Bit(offset) => fields::set_bool(arena, place, offset, false),
        Slot::Byte(offset) => fields::set_number(arena, place, offset, 0u8),
        Slot::TwoBytes(offset) => fields::set_number(arena, place, offset, 0u16),
        Slot::FourBytes(offset) => fields::set_number(arena, place, offset, 0u32),
        Slot::EightBytes(offset) => fields::set_number(arena, place, offset, 0u64),
        Slot::Pointer(index) => value::clear(arena, place, index),
    }
}

/// Makes parts of a struct zero, or null, in their order, and zeroes what pointers held.
/// Preconditions: `place` is inside the message and aligned; each of `slots` is inside the struct.
pub fn zero_slots<A: BuilderArena>(arena: &mut A, place: StructPlace, slots: &[Slot])
    requires aligned { IsAligned place }
    requires inside { IsStructPlace (A.view arena.old).words place }
    requires slots { HoldsSlots place slots.now }
    ensures grows { Grows (A.view arena.old).words (A.view arena.new).words }
    ensures zeroes { ZeroesSlots
        (call_in place (A.view arena.old).words (A.view arena.new).words) slots.now }
    ensures replaces { ReplacesSlots
        (call_in place (A.view arena.old).words (A.view arena.new).words) slots.now }
    ensures memory { OnlyWrites (A.view arena.old) (A.view arena.new) }
{
    for slot in slots {
        zero_slot(arena, place, *slot);
    }
}

/// Sets the member of a union that is a group: writes its tag, and makes the parts of the struct
/// that the group has zero or null. Preconditions: `place` is inside the message and aligned; `tag`
/// is inside the data section; each of `slots` is inside the struct.
pub fn zero_slots_member<A: BuilderArena>(
    arena: &mut A,
    place: StructPlace,
    tag: UnionTag,
    slots: &[Slot],
)
    requires aligned { IsAligned place }
    requires inside { IsStructPlace (A.view arena.old).words place }
    requires tag { IsInside place.bits 16 tag.offset }
    requires slots { HoldsSlots place slots.now }
    ensures grows { Grows (A.view arena.old).words (A.view arena.new).words }
    ensures begins { BeginsGroup
        (call_in place (A.view arena.old).words (A.view arena.new).words) tag slots.now }
    ensures replaces { ReplacesGroup
        (call_in place (A.view arena.old).words (A.view arena.new).words) tag slots.now }
    ensures memory { OnlyWrites (A.view arena.old) (A.view arena.new) }
{
    value::set_tag(arena, place, tag);
    zero_slots(arena, place, slots);
}
