//! The places that builders have, made from structs and lists that were found in a message.
ghost use Rattle.std.specs.Prelude.{◌≡◌, ◌+◌, ◌*◌, ◌^◌, ◌<◌};
ghost use Rattle.capnp_builders.specs.Places.{IsAligned, list_place, struct_place};

use capnp_in_place::existing::{ExistingList, ExistingStruct};
use capnp_readers::readers::{ListPlace, StructPlace};

/// Returns the place for a `StructBuilder` of the struct `found`.
///
/// If the pointer section of `found` starts at word 2^32 or later, the place has word 2^32 - 1
/// instead. This doesn't happen for a struct of a message.
#[inline(always)]
pub fn struct_place(found: ExistingStruct) -> StructPlace
    ensures place { found.start + found.size.data_words < 2 ^ 32 → result ≡ struct_place found }
    ensures bits { result.bits ≡ 64 * found.size.data_words }
    ensures pointers { result.pointers ≡ found.size.pointers }
    ensures aligned { IsAligned result }
{
    let data_words = u32::from(found.size.data_words);
    StructPlace {
        segment: found.segment,
        byte: 8 * u64::from(found.start),
        bits: 64 * data_words,
        pointers_at: found.start.saturating_add(data_words),
        pointers: found.size.pointers,
    }
}

/// Returns the place for a `ListBuilder` of the list `found`.
#[inline(always)]
pub fn list_place(found: ExistingList) -> ListPlace
    ensures { result ≡ list_place found }
{
    ListPlace {
        segment: found.segment,
        byte: 8 * u64::from(found.start),
        size: found.size,
        struct_size: found.struct_size,
        count: found.count,
    }
}
