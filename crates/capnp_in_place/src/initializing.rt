//! Makes a pointer lead to a new object (encoding specification, "Structs", "Lists" and
//! "Capabilities (Interfaces)"). First zeroes the object that the pointer led to, with all objects
//! below it and their landing pads; these words stay allocated.
ghost use Rattle.std.specs.Prelude.{◌≡◌, ◌<◌, ◌≤◌, ◌+◌, ◌-◌, ◌*◌, ◌^◌, IfOk, OnOk};
ghost use Rattle.capnp_format.specs.Segments.{word_at, Grows, IsPlace};
ghost use Rattle.capnp_format.specs.Tree.{Capability};
ghost use Rattle.capnp_format.specs.Word.{struct_word, capability_word};
ghost use Rattle.capnp_words.specs.Sizes.{size_number};
ghost use Rattle.capnp_arena_traits.specs.View.{KeepsLimits};
ghost use Rattle.capnp_allocation.specs.Made.{zero_struct, zero_structs, zero_list, list_words};
ghost use Rattle.capnp_allocation.specs.Makes.{call_at};
ghost use Rattle.capnp_allocation.specs.Near.{HasOwnRoom, StartsAtEnd};
ghost use Rattle.capnp_allocation.specs.Stored.{Puts};
ghost use Rattle.capnp_allocation.specs.Zeroed.{IsPrunedBut};
ghost use Rattle.capnp_in_place.specs.Initialized.{GivesObject};

use capnp_allocation::making::{make_list, make_struct, make_struct_list};
use capnp_allocation::zeroing::zero_object;
use capnp_arena_traits::arena::{BuilderArena, WordPlace, set_word};
use capnp_words::error::ErrorKind;
use capnp_words::wire_pointer::{ElementSize, StructSize, WirePointer};

/// Turns the pointer at `at` of segment `id` into the capability with index `index`. Precondition:
/// word `at` of segment `id` is allocated.
pub fn set_capability<A: BuilderArena>(arena: &mut A, id: u32, at: u32, index: u32)
    requires place { IsPlace (A.view arena.old).words id at }
    ensures made { Puts (A.view arena.old).words (A.view arena.new).words id at (Capability index) }
    ensures grows { Grows (A.view arena.old).words (A.view arena.new).words }
    ensures only { IsPrunedBut (A.view arena.old).words (A.view arena.new).words id at
        (capability_word index) }
    ensures limits { KeepsLimits (A.view arena.old) (A.view arena.new) }
{
    zero_object(arena, id, at);
    set_word(arena, id, at, WirePointer::new_capability(index).0);
}

/// Makes the pointer at `at` of segment `id` lead to a new struct, all zero. A struct without
/// sections takes no words. Precondition: word `at` of segment `id` is allocated.
///
/// Refusals: `AllocationFailed` if memory runs out; `MessageTooLarge` if the object needs a new
/// segment, and the object and a landing pad have more than 536,870,911 words, or the message can't
/// have more segments. After a refusal the pointer is null.
#[inline(always)]
pub fn init_struct<A: BuilderArena>(
    arena: &mut A,
    id: u32,
    at: u32,
    size: StructSize,
) -> Result<WordPlace, ErrorKind>
    requires place { IsPlace (A.view arena.old).words id at }
    ensures gives { GivesObject result (call_at id at (A.view arena.old) (A.view arena.new))
        (zero_struct size) (size.data_words + size.pointers) }
    ensures empty { size.data_words + size.pointers ≡ 0
        → OnOk result (word_at (A.view arena.new).words id at ≡ struct_word (2 ^ 30 - 1) 0 0) }
    ensures grows { Grows (A.view arena.old).words (A.view arena.new).words }
{
    zero_object(arena, id, at);
    make_struct(arena, id, at, size)
}

/// Makes the pointer at `at` of segment `id` lead to a new list of `count` elements that aren't
/// structs, all zero or null. Preconditions: word `at` of segment `id` is allocated; `count` is
/// below 2^29; `size` isn't `InlineComposite`.
///
/// Refusals: `AllocationFailed` if memory runs out; `MessageTooLarge` if the object needs a new
/// segment, and the object and a landing pad have more than 536,870,911 words, or the message can't
/// have more segments. After a refusal the pointer is null.
#[inline(always)]
pub fn init_list<A: BuilderArena>(
    arena: &mut A,
    id: u32,
    at: u32,
    size: ElementSize,
    count: u32,
) -> Result<WordPlace, ErrorKind>
    requires place { IsPlace (A.view arena.old).words id at }
    requires few { count < 2 ^ 29 }
    requires plain { size_number size ≤ 6 }
    ensures gives { GivesObject result (call_at id at (A.view arena.old) (A.view arena.new))
        (zero_list (size_number size) count) (list_words (size_number size) count) }
    ensures at_end { HasOwnRoom (A.view arena.old) id (list_words (size_number size) count)
        → IfOk result (StartsAtEnd (A.view arena.old).words id) }
    ensures grows { Grows (A.view arena.old).words (A.view arena.new).words }
{
    zero_object(arena, id, at);
    make_list(arena, id, at, size, count)
}

/// Makes the pointer at `at` of segment `id` lead to a new list of `count` structs, all zero. The
/// first word of the list is the tag. Preconditions: word `at` of segment `id` is allocated;
/// `count` is below 2^30; `count` structs of `size` have fewer than 2^29 words.
///
/// Refusals: `AllocationFailed` if memory runs out; `MessageTooLarge` if the object needs a new
/// segment, and the object and a landing pad have more than 536,870,911 words, or the message can't
/// have more segments. After a refusal the pointer is null.
pub fn init_struct_list<A: BuilderArena>(
    arena: &mut A,
    id: u32,
    at: u32,
    count: u32,
    size: StructSize,
) -> Result<WordPlace, ErrorKind>
    requires place { IsPlace (A.view arena.old).words id at }
    requires few { count < 2 ^ 30 }
    requires words { count * (size.data_words + size.pointers) < 2 ^ 29 }
    ensures gives { GivesObject result (call_at id at (A.view arena.old) (A.view arena.new))
        (zero_structs count size) (1 + count * (size.data_words + size.pointers)) }
    ensures grows { Grows (A.view arena.old).words (A.view arena.new).words }
{
    zero_object(arena, id, at);
    make_struct_list(arena, id, at, count, size)
}
