//! A user of the readers.
ghost use Rattle.std.specs.Prelude.{◌≡◌, ◌<◌, ◌+◌, ◌↔◌, ℕ, None, IfOk, IfSome, IsOk};
ghost use Rattle.std.specs.Result.{result_err};
ghost use Rattle.capnp_format.specs.Bytes.{message};
ghost use Rattle.capnp_format.specs.Means.{Means};
ghost use Rattle.capnp_format.specs.Tree.{Tree};
ghost use Rattle.capnp_words.specs.Meter.{Affords};
ghost use Rattle.capnp_arena_traits.specs.Checks.{Holds};
ghost use Rattle.capnp_pointers.specs.Source.{levels};
ghost use Rattle.capnp_readers.specs.Values.{HasStructs, IsStructOrNull, IsText, list_length, struct_element};
ghost use Rattle.typed_reading.specs.Outcomes.{root_outcome, root_place};
ghost use Rattle.typed_reading.specs.Sections.{LeadsToSectionsOf};
ghost use Rattle.typed_reading.specs.Values.{child};
ghost use Rattle.addressbook_reading.specs.Schema.{address_book_people, person_id, person_name};
ghost use Rattle.typed_messages.specs.Reading.{words_of_message};

use addressbook_reading::{address_book, person};
use capnp_arena::arena::ReaderSegments;
use capnp_arena_traits::arena::ReaderArena;
use capnp_words::error::ErrorKind;
use capnp_words::read_limiter::ReadLimiter;
use typed_messages::message::MessageReader;

/// Returns the id of the first person of the address book that a message is, or `None` if there are
/// no people.
pub fn first_id<A: ReaderArena>(arena: &A, lim: &mut ReadLimiter) -> Result<Option<u32>, ErrorKind>
    ensures some { (t : Tree) (c : ℕ)
        → Means (message (A.segments arena.now)) (levels (A.nesting arena.now)) 0 0 t c
        → HasStructs (address_book_people t) → IfOk result (λ first. IfSome first
        (λ id. id ≡ person_id (struct_element (address_book_people t) 0))) }
    ensures none { (t : Tree) (c : ℕ)
        → Means (message (A.segments arena.now)) (levels (A.nesting arena.now)) 0 0 t c
        → IfOk result (λ first. (first ≡ None) ↔ (list_length (address_book_people t) ≡ 0)) }
{
    let book = address_book::Reader::root(arena, lim)?;
    let people = book.get_people(lim)?;
    if people.len() == 0 {
        return Ok(None);
    }
    Ok(Some(people.get(0).get_id()))
}

/// Like `first_id`, for a message with its limits.
pub fn first_id_in<S: ReaderSegments>(
    message: &mut MessageReader<S>,
) -> Result<Option<u32>, ErrorKind>
    ensures some { (t : Tree) (c : ℕ) → Means (words_of_message S.ReaderSegments message.old)
        (levels message.old.arena.nesting_limit) 0 0 t c
        → HasStructs (address_book_people t) → IfOk result (λ first. IfSome first
        (λ id. id ≡ person_id (struct_element (address_book_people t) 0))) }
    ensures none { (t : Tree) (c : ℕ) → Means (words_of_message S.ReaderSegments message.old)
        (levels message.old.arena.nesting_limit) 0 0 t c
        → IfOk result (λ first. (first ≡ None) ↔ (list_length (address_book_people t) ≡ 0)) }
{
    first_id(&message.arena, &mut message.limiter)
}

/// Returns the id of the person that the root of a message is, also if what the person's pointers
/// lead to is broken. Refuses like `root`, and leaves of the limiter what that does.
pub fn id_of_root<A: ReaderArena>(arena: &A, lim: &mut ReadLimiter) -> Result<u32, ErrorKind>
    ensures value { (t : Tree) → LeadsToSectionsOf (root_place A.ReaderArena arena.entry) t
        → IfOk result (λ id. id ≡ person_id t) }
    ensures exactly { root_outcome A.ReaderArena arena.entry lim.old
        ≡ (result_err result, lim.new) }
{
    match person::Reader::root(arena, lim) {
        Ok(person) => Ok(person.get_id()),
        Err(kind) => Err(kind),
    }
}

/// Returns the name of the person that the root of a message is.
pub fn name_of_root<'a, A: ReaderArena>(
    arena: &'a A,
    lim: &mut ReadLimiter,
) -> Result<&'a [u8], ErrorKind>
    ensures value { (t : Tree) (c : ℕ)
        → Means (message (A.segments arena.now)) (levels (A.nesting arena.now)) 0 0 t c
        → IfOk result (λ name. name.now ≡ person_name t) }
    ensures answered { let S = message (A.segments arena.now) in (t : Tree) (c : ℕ)
        → Holds S 0 0 1 → IsStructOrNull t → IsText (child 0 t)
        → Means S (levels (A.nesting arena.now)) 0 0 t c
        → Affords (A.charging arena.now) lim.old (1 + c) → IsOk result }
{
    match person::Reader::root(arena, lim) {
        Ok(person) => person.get_name(lim),
        Err(kind) => Err(kind),
    }
}
