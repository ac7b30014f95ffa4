//! Reads an address book, by the readers that `capnpc-rattle-checked` writes.
ghost use Rattle.std.specs.Prelude.{◌≡◌, ℕ, IfOk, IfSome};
ghost use Rattle.capnp_format.specs.Bytes.{message};
ghost use Rattle.capnp_format.specs.Means.{Means};
ghost use Rattle.capnp_format.specs.Tree.{Tree};
ghost use Rattle.capnp_pointers.specs.Source.{levels};
ghost use Rattle.capnp_readers.specs.Values.{HasStructs, struct_element};
ghost use Rattle.addressbook_reading.specs.Schema.{address_book_people, person_employment_employer, person_name};

use addressbook_checking::address_book;
use capnp_arena_traits::arena::ReaderArena;
use capnp_words::read_limiter::ReadLimiter;
use typed_conforming::schema::Misfit;

/// Returns the name of the first person, or `None` if there are no people.
pub fn first_name<'a, A: ReaderArena>(
    arena: &'a A,
    lim: &mut ReadLimiter,
) -> Result<Option<&'a str>, Misfit>
    ensures { (t : Tree) (c : ℕ)
        → Means (message (A.segments arena.now)) (levels (A.nesting arena.now)) 0 0 t c
        → HasStructs (address_book_people t) → IfOk result (λ first. IfSome first
        (λ name. name.now ≡ person_name (struct_element (address_book_people t) 0))) }
{
    let book = match address_book::Checked::root(arena, lim) {
        Ok(book) => book,
        Err(misfit) => return Err(misfit),
    };
    let people = book.get_people();
    if people.len() == 0 {
        return Ok(None);
    }
    Ok(Some(people.get(0).get_name()))
}

/// Returns the name of the first person's employer, or `None` if there is none.
pub fn first_employer<'a, A: ReaderArena>(
    arena: &'a A,
    lim: &mut ReadLimiter,
) -> Result<Option<&'a str>, Misfit>
    ensures { (t : Tree) (c : ℕ)
        → Means (message (A.segments arena.now)) (levels (A.nesting arena.now)) 0 0 t c
        → HasStructs (address_book_people t) → IfOk result (λ first. IfSome first (λ name.
        name.now ≡ person_employment_employer (struct_element (address_book_people t) 0))) }
{
    let book = match address_book::Checked::root(arena, lim) {
        Ok(book) => book,
        Err(misfit) => return Err(misfit),
    };
    let people = book.get_people();
    if people.len() == 0 {
        return Ok(None);
    }
    Ok(people.get(0).get_employment().get_employer())
}
