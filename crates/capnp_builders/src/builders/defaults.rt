//! Replaces null pointers by copies of a field's default value (encoding specification, "Default
//! Values").
ghost use Rattle.std.specs.Prelude.{◌≡◌, ◌↔◌, ◌/◌, ◌^◌, ◌<◌, ◌≤◌, length, IsTrue, IsNone, IsOk, IfErr, OnOk, IsSomeAnd, Some, slice_get};
ghost use Rattle.capnp_format.specs.Bytes.{words_of};
ghost use Rattle.capnp_format.specs.Segments.{IsPlace};
ghost use Rattle.capnp_format.specs.Tree.{Tree};
ghost use Rattle.capnp_allocation.specs.Makes.{call_at};
ghost use Rattle.capnp_copies.specs.Changes.{IsNullPlace};
ghost use Rattle.capnp_in_place.specs.Rooms.{UsesMemory};
ghost use Rattle.capnp_builders.specs.Defaults.{DropsDefault, PutsDefault, PutsDefaultBy, IsShortDefault, object_default, blob_default, DefaultCopyFits, DefaultFits};

use crate::copy;
use capnp_allocation::landing::pointer_word;
use capnp_arena_traits::arena::{BuilderArena, WordPlace};
use capnp_copies::form::{CopyForm, Destination};
use capnp_readers::readers::PointerReader;
use capnp_words::error::ErrorKind;
use capnp_words::read_limiter::ReadLimiter;
use capnp_words::words;

/// Copies the value of `default`, plain, to the null pointer at `at` of segment `id` ("Default
/// Values"). `default` is one segment, and its first word is the pointer to the value.
/// Preconditions: word `at` of segment `id` is allocated and zero; `default` has at least one word
/// and fewer than 2^32.
///
/// Reading `default` charges nothing, and may enter `i32::MAX` levels of structs and lists.
/// Refusals: `UnknownPointerType` for a capability in `default`; `TriedToReadFromNullArena` for a
/// far pointer in `default`; for any other fault of `default`, the refusal of reading it. If the
/// copy doesn't fit after the words of the pointer's segment, and no other segment has room for one
/// of its objects: `AllocationFailed` if memory runs out; `MessageTooLarge(n)` if n is above
/// 536,870,911, where n is the number of that object's words, plus one for a landing pad;
/// `MessageTooLarge(usize::MAX)` if the message already has 4,294,967,295 segments. After a refusal
/// the pointer is null, and the words that were allocated are zero.
#[inline(never)]
pub fn copy_default<A: BuilderArena>(
    arena: &mut A,
    id: u32,
    at: u32,
    default: &[u8],
) -> Result<(), ErrorKind>
    requires null { IsNullPlace (A.view arena.old).words id at }
    requires some { 8 ≤ length default.now }
    requires few { length default.now / 8 < 2 ^ 32 }
    ensures copied { OnOk result ((value : Tree) × PutsDefault default.now
        (call_at id at (A.view arena.old) (A.view arena.new)) value) }
    ensures fits { DefaultCopyFits default.now (A.view arena.old) id → IsOk result }
    ensures dropped { IfErr result (DropsDefault default.now
        (call_at id at (A.view arena.old) (A.view arena.new))) }
    ensures memory { UsesMemory result (A.view arena.old) (A.view arena.new) }
{
    let from: PointerReader<'_, A> = PointerReader::from_default(default)?;
    let mut lim = ReadLimiter::new(None);
    let to = Destination {
        place: WordPlace { segment: id, at },
        form: CopyForm::OfDefault,
    };
    copy::copy_in_form(arena, to, from.pointer(), &mut lim)
}

/// If the pointer at `at` of segment `id` is null, copies the value of `default` to it, like
/// `copy_default`. A pointer that isn't null stays as it is. A null pointer stays null if `default`
/// is `None` or starts with a null word.
///
/// Refuses only if the pointer is null: with `MessageContainsOutOfBoundsPointer` if `default` has
/// fewer than 8 bytes, and then nothing changes; otherwise like `copy_default`.
pub(crate) fn put_default<A: BuilderArena>(
    arena: &mut A,
    id: u32,
    at: u32,
    default: Option<&[u8]>,
) -> Result<(), ErrorKind>
    requires place { IsPlace (A.view arena.old).words id at }
    requires few { IsShortDefault default }
    ensures put { PutsDefaultBy (object_default default.entry)
        (call_at id at (A.view arena.old) (A.view arena.new)) result }
    ensures none { IsNone default.entry → IsOk result × (A.view arena.new ≡ A.view arena.old) }
    ensures fits { DefaultFits default.entry (A.view arena.old) id → IsOk result }
{
    let Some(bytes) = default else {
        return Ok(());
    };
    if !pointer_word(arena, id, at).is_null() {
        return Ok(());
    }
    if bytes.len() < 8 {
        return Err(ErrorKind::MessageContainsOutOfBoundsPointer);
    }
    if words::word_at(bytes, 0) == 0 {
        return Ok(());
    }
    copy_default(arena, id, at, bytes)
}

/// Like `put_default`, for a pointer that should lead to a text or data. Refuses with
/// `ExistingPointerIsNotAList` if both the pointer and the first word of `default` are null.
pub(crate) fn put_blob_default<A: BuilderArena>(
    arena: &mut A,
    id: u32,
    at: u32,
    default: Option<&[u8]>,
) -> Result<(), ErrorKind>
    requires place { IsPlace (A.view arena.old).words id at }
    requires few { IsShortDefault default }
    ensures { PutsDefaultBy (blob_default default.entry)
        (call_at id at (A.view arena.old) (A.view arena.new)) result }
{
    if starts_with_null(default) && pointer_word(arena, id, at).is_null() {
        return Err(ErrorKind::ExistingPointerIsNotAList);
    }
    put_default(arena, id, at, default)
}

/// Whether there is a default whose first word is null.
fn starts_with_null(default: Option<&[u8]>) -> bool
    ensures { IsTrue result
        ↔ IsSomeAnd default.entry (λ d. slice_get (words_of d.now) 0 ≡ Some 0) }
{
    match default {
        Some(bytes) => bytes.len() >= 8 && words::word_at(bytes, 0) == 0,
        None => false,
    }
}
