//! Copies of values that were read, for pointers of a struct of a message being built.
ghost use Rattle.std.specs.Prelude.{◌≡◌, ◌+◌, ◌<◌, Err, IfErr, IfOk, IsOk};
ghost use Rattle.capnp_format.specs.Segments.{Grows};
ghost use Rattle.capnp_format.specs.Tree.{Tree};
ghost use Rattle.capnp_words.specs.declared.error.ErrorKind.{ErrorKind};
ghost use Rattle.capnp_pointers.specs.Wanted.{plain};
ghost use Rattle.capnp_readers.specs.Readers.{IsStructPlace, read_by};
ghost use Rattle.capnp_readers.specs.Values.{HasValue, ShowsListOf, ShowsStructOf};
ghost use Rattle.capnp_copies.specs.Changes.{copy_call};
ghost use Rattle.capnp_copies.specs.Growth.{TakesAtMost};
ghost use Rattle.capnp_copies.specs.Originals.{value_original};
ghost use Rattle.capnp_copies.specs.Rooms.{CanBeCopied};
ghost use Rattle.capnp_builders.specs.ListValues.{list_read};
ghost use Rattle.capnp_builders.specs.StructValues.{struct_read};
ghost use Rattle.capnp_builders.specs.Held.{MakesChild, call_in};
ghost use Rattle.capnp_builders.specs.Kept.{LeavesCleared, PutsCopy};
ghost use Rattle.capnp_builders.specs.Places.{IsAligned};
ghost use Rattle.capnp_readers.specs.Sections.{IsInside};
ghost use Rattle.typed_building.specs.Copied.{IsNotCopied, ReadsToCopy, copied_list, copied_struct};
ghost use Rattle.typed_building.specs.Members.{MakesMember};
ghost use Rattle.typed_building.specs.There.{call_on};

use crate::tag::UnionTag;
use crate::value;
use capnp_arena_traits::arena::{BuilderArena, ReaderArena};
use capnp_builders::builders::PointerBuilder;
use capnp_readers::readers::{ListReader, PointerReader, StructPlace, StructReader};
use capnp_words::error::ErrorKind;
use capnp_words::read_limiter::ReadLimiter;

/// Copies the struct `from` to pointer `index`, with all words of its sections, and zeroes what the
/// pointer held. Charges `lim` what reading the values of the struct's pointers costs, and nothing
/// for the struct's own words. Preconditions: `place` is inside the message; `index` is below
/// `place.pointers`.
///
/// Refusals: the first refusal of reading the values of the struct's pointers;
/// `MessageTooLarge(n)` if the struct has n data words, and n is above 65535. If the copy doesn't
/// fit the pointer's segment, and no other segment has room for one of its objects:
/// `AllocationFailed` if memory runs out; `MessageTooLarge(n)` if n is above 536,870,911, where n
/// is the number of that object's words, plus one for a landing pad; `MessageTooLarge(usize::MAX)`
/// if the message already has 4,294,967,295 segments. After a refusal the pointer is null, the
/// words that were allocated are zero, and what was charged stays charged.
pub fn set_struct_from<A: BuilderArena, B: ReaderArena>(
    arena: &mut A,
    place: StructPlace,
    index: usize,
    from: &StructReader<'_, B>,
    lim: &mut ReadLimiter,
) -> Result<(), ErrorKind>
    requires inside { IsStructPlace (A.view arena.old).words place }
    requires field { index < place.pointers }
    ensures copied { IfOk result (λ _. PutsCopy (struct_read B.ReaderArena from.now)
        (copy_call plain (call_on place index (A.view arena.old) (A.view arena.new))
        lim.old lim.new)) }
    ensures fits { CanBeCopied (struct_read B.ReaderArena from.now) plain lim.old
        (A.view arena.old) place.segment
        → IsOk result }
    ensures refused { IfErr result (LeavesCleared (struct_read B.ReaderArena from.now)
        (copy_call plain (call_on place index (A.view arena.old) (A.view arena.new))
        lim.old lim.new)) }
    ensures taken { TakesAtMost result (struct_read B.ReaderArena from.now)
        (copy_call plain (call_on place index (A.view arena.old) (A.view arena.new))
        lim.old lim.new) }
    ensures wide { (k : ErrorKind) → (struct_read B.ReaderArena from.now).exceeds plain k
        → (result ≡ Err k) × (lim.new ≡ lim.old) }
    ensures grows { Grows (A.view arena.old).words (A.view arena.new).words }
    ensures child { (t : Tree) → ShowsStructOf B.ReaderArena from.now t
        → MakesChild result
        (call_in place (A.view arena.old).words (A.view arena.new).words) index
        (copied_struct t) }
{
    let at = place.pointers_at + index as u32;
    let mut pointer = PointerBuilder {
        arena,
        segment: place.segment,
        at,
    };
    pointer.set_struct(from, lim, false)
}

/// Copies the list `from` to pointer `index`, with all words of its elements, and zeroes what the
/// pointer held. Charges `lim` what reading the values of the list's pointers costs, and nothing
/// for the list's own words. Preconditions: `place` is inside the message; `index` is below
/// `place.pointers`.
///
/// Refusals: the first refusal of reading the values of the list's pointers;
/// `MessageTooLarge(usize::MAX)` if the list has more elements or words than a list pointer can
/// state, which a list that was read from a message never has. If the copy doesn't fit the
/// pointer's segment, and no other segment has room for one of its objects: `AllocationFailed` if
/// memory runs out; `MessageTooLarge(n)` if n is above 536,870,911, where n is the number of that
/// object's words, plus one for a landing pad; `MessageTooLarge(usize::MAX)` if the message already
/// has 4,294,967,295 segments. After a refusal the pointer is null, the words that were allocated
/// are zero, and what was charged stays charged.
pub fn set_list_from<A: BuilderArena, B: ReaderArena>(
    arena: &mut A,
    place: StructPlace,
    index: usize,
    from: &ListReader<'_, B>,
    lim: &mut ReadLimiter,
) -> Result<(), ErrorKind>
    requires inside { IsStructPlace (A.view arena.old).words place }
    requires field { index < place.pointers }
    ensures copied { IfOk result (λ _. PutsCopy (list_read B.ReaderArena from.now)
        (copy_call plain (call_on place index (A.view arena.old) (A.view arena.new))
        lim.old lim.new)) }
    ensures fits { CanBeCopied (list_read B.ReaderArena from.now) plain lim.old
        (A.view arena.old) place.segment
        → IsOk result }
    ensures refused { IfErr result (LeavesCleared (list_read B.ReaderArena from.now)
        (copy_call plain (call_on place index (A.view arena.old) (A.view arena.new))
        lim.old lim.new)) }
    ensures taken { TakesAtMost result (list_read B.ReaderArena from.now)
        (copy_call plain (call_on place index (A.view arena.old) (A.view arena.new))
        lim.old lim.new) }
    ensures long { (k : ErrorKind) → (list_read B.ReaderArena from.now).exceeds plain k
        → (result ≡ Err k) × (lim.new ≡ lim.old) }
    ensures grows { Grows (A.view arena.old).words (A.view arena.new).words }
    ensures child { (t : Tree) → ShowsListOf B.ReaderArena from.now t
        → MakesChild result
        (call_in place (A.view arena.old).words (A.view arena.new).words) index
        (copied_list from.now.element_size from.now.struct_size t) }
{
    let at = place.pointers_at + index as u32;
    let mut pointer = PointerBuilder {
        arena,
        segment: place.segment,
        at,
    };
    pointer.set_list(from, lim, false)
}

/// Copies the value of the pointer of `from`, of any type, to pointer `index`, with all words of
/// its sections and elements. Zeroes what pointer `index` held. Charges `lim` what reading the
/// whole value costs. Preconditions: `place` is inside the message; `index` is below
/// `place.pointers`.
///
/// Refusals: the first refusal of reading the value. If the copy doesn't fit the pointer's segment,
/// and no other segment has room for one of its objects: `AllocationFailed` if memory runs out;
/// `MessageTooLarge(n)` if n is above 536,870,911, where n is the number of that object's words,
/// plus one for a landing pad; `MessageTooLarge(usize::MAX)` if the message already has
/// 4,294,967,295 segments. After a refusal the pointer is null, the words that were allocated are
/// zero, and what was charged stays charged.
pub fn set_pointer_from<A: BuilderArena, B: ReaderArena>(
    arena: &mut A,
    place: StructPlace,
    index: usize,
    from: PointerReader<'_, B>,
    lim: &mut ReadLimiter,
) -> Result<(), ErrorKind>
    requires inside { IsStructPlace (A.view arena.old).words place }
    requires field { index < place.pointers }
    ensures copied { IfOk result (λ _. PutsCopy (value_original (read_by B.ReaderArena from.entry))
        (copy_call plain (call_on place index (A.view arena.old) (A.view arena.new))
        lim.old lim.new)) }
    ensures fits { CanBeCopied (value_original (read_by B.ReaderArena from.entry)) plain lim.old
        (A.view arena.old) place.segment
        → IsOk result }
    ensures refused { IfErr result (LeavesCleared
        (value_original (read_by B.ReaderArena from.entry))
        (copy_call plain (call_on place index (A.view arena.old) (A.view arena.new))
        lim.old lim.new)) }
    ensures taken { TakesAtMost result (value_original (read_by B.ReaderArena from.entry))
        (copy_call plain (call_on place index (A.view arena.old) (A.view arena.new))
        lim.old lim.new) }
    ensures grows { Grows (A.view arena.old).words (A.view arena.new).words }
    ensures child { (t : Tree) → HasValue (read_by B.ReaderArena from.entry) t
        → MakesChild result
        (call_in place (A.view arena.old).words (A.view arena.new).words) index t }
{
    let at = place.pointers_at + index as u32;
    let mut pointer = PointerBuilder {
        arena,
        segment: place.segment,
        at,
    };
    pointer.copy_from(from, lim, false)
}

/// Sets the member of a union that is a struct: writes its tag, and then does what
/// `set_struct_from` does. Preconditions: `place` is inside the message and aligned; `tag` is
/// inside the data section; `index` is below `place.pointers`.
///
/// The refusals are those of `set_struct_from`. After a refusal the tag is written, and the pointer
/// is null.
pub fn set_struct_from_member<A: BuilderArena, B: ReaderArena>(
    arena: &mut A,
    place: StructPlace,
    tag: UnionTag,
    index: usize,
    from: &StructReader<'_, B>,
    lim: &mut ReadLimiter,
) -> Result<(), ErrorKind>
    requires aligned { IsAligned place }
    requires inside { IsStructPlace (A.view arena.old).words place }
    requires tag { IsInside place.bits 16 tag.offset }
    requires field { index < place.pointers }
    ensures copied { IfOk result (λ _. ReadsToCopy (struct_read B.ReaderArena from.now)
        (copy_call plain (call_on place index (A.view arena.old) (A.view arena.new))
        lim.old lim.new)) }
    ensures fits { CanBeCopied (struct_read B.ReaderArena from.now) plain lim.old
        (A.view arena.old) place.segment
        → IsOk result }
    ensures refused { IfErr result (IsNotCopied (struct_read B.ReaderArena from.now)
        (copy_call plain (call_on place index (A.view arena.old) (A.view arena.new))
        lim.old lim.new)) }
    ensures taken { TakesAtMost result (struct_read B.ReaderArena from.now)
        (copy_call plain (call_on place index (A.view arena.old) (A.view arena.new))
        lim.old lim.new) }
    ensures wide { (k : ErrorKind) → (struct_read B.ReaderArena from.now).exceeds plain k
        → (result ≡ Err k) × (lim.new ≡ lim.old) }
    ensures grows { Grows (A.view arena.old).words (A.view arena.new).words }
    ensures member { (t : Tree) → ShowsStructOf B.ReaderArena from.now t
        → MakesMember result
        (call_in place (A.view arena.old).words (A.view arena.new).words) tag index
        (copied_struct t) }
{
    value::set_tag(arena, place, tag);
    set_struct_from(arena, place, index, from, lim)
}

/// Sets the member of a union that is a list: writes its tag, and then does what `set_list_from`
/// does. Preconditions: `place` is inside the message and aligned; `tag` is inside the data
/// section; `index` is below `place.pointers`.
///
/// The refusals are those of `set_list_from`. After a refusal the tag is written, and the pointer
/// is null.
pub fn set_list_from_member<A: BuilderArena, B: ReaderArena>(
    arena: &mut A,
    place: StructPlace,
    tag: UnionTag,
    index: usize,
    from: &ListReader<'_, B>,
    lim: &mut ReadLimiter,
) -> Result<(), ErrorKind>
    requires aligned { IsAligned place }
    requires inside { IsStructPlace (A.view arena.old).words place }
    requires tag { IsInside place.bits 16 tag.offset }
    requires field { index < place.pointers }
    ensures copied { IfOk result (λ _. ReadsToCopy (list_read B.ReaderArena from.now)
        (copy_call plain (call_on place index (A.view arena.old) (A.view arena.new))
        lim.old lim.new)) }
    ensures fits { CanBeCopied (list_read B.ReaderArena from.now) plain lim.old
        (A.view arena.old) place.segment
        → IsOk result }
    ensures refused { IfErr result (IsNotCopied (list_read B.ReaderArena from.now)
        (copy_call plain (call_on place index (A.view arena.old) (A.view arena.new))
        lim.old lim.new)) }
    ensures taken { TakesAtMost result (list_read B.ReaderArena from.now)
        (copy_call plain (call_on place index (A.view arena.old) (A.view arena.new))
        lim.old lim.new) }
    ensures long { (k : ErrorKind) → (list_read B.ReaderArena from.now).exceeds plain k
        → (result ≡ Err k) × (lim.new ≡ lim.old) }
    ensures grows { Grows (A.view arena.old).words (A.view arena.new).words }
    ensures member { (t : Tree) → ShowsListOf B.ReaderArena from.now t
        → MakesMember result
        (call_in place (A.view arena.old).words (A.view arena.new).words) tag index
        (copied_list from.now.element_size from.now.struct_size t) }
{
    value::set_tag(arena, place, tag);
    set_list_from(arena, place, index, from, lim)
}

/// Sets the member of a union that is any pointer: writes its tag, and then does what
/// `set_pointer_from` does. Preconditions: `place` is inside the message and aligned; `tag` is
/// inside the data section; `index` is below `place.pointers`.
///
/// The refusals are those of `set_pointer_from`. After a refusal the tag is written, and the
/// pointer is null.
pub fn set_pointer_from_member<A: BuilderArena, B: ReaderArena>(
    arena: &mut A,
    place: StructPlace,
    tag: UnionTag,
    index: usize,
    from: PointerReader<'_, B>,
    lim: &mut ReadLimiter,
) -> Result<(), ErrorKind>
    requires aligned { IsAligned place }
    requires inside { IsStructPlace (A.view arena.old).words place }
    requires tag { IsInside place.bits 16 tag.offset }
    requires field { index < place.pointers }
    ensures copied { IfOk result (λ _. ReadsToCopy
        (value_original (read_by B.ReaderArena from.entry))
        (copy_call plain (call_on place index (A.view arena.old) (A.view arena.new))
        lim.old lim.new)) }
    ensures fits { CanBeCopied (value_original (read_by B.ReaderArena from.entry)) plain lim.old
        (A.view arena.old) place.segment
        → IsOk result }
    ensures refused { IfErr result (IsNotCopied (value_original (read_by B.ReaderArena from.entry))
        (copy_call plain (call_on place index (A.view arena.old) (A.view arena.new))
        lim.old lim.new)) }
    ensures taken { TakesAtMost result (value_original (read_by B.ReaderArena from.entry))
        (copy_call plain (call_on place index (A.view arena.old) (A.view arena.new))
        lim.old lim.new) }
    ensures grows { Grows (A.view arena.old).words (A.view arena.new).words }
    ensures member { (t : Tree) → HasValue (read_by B.ReaderArena from.entry) t
        → MakesMember result
        (call_in place (A.view arena.old).words (A.view arena.new).words) tag index
        t }
{
    value::set_tag(arena, place, tag);
    set_pointer_from(arena, place, index, from, lim)
}
