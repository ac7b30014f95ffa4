//! Builds the address book of upstream's example.
ghost use Rattle.std.specs.Prelude.{◌≡◌, ◌<◌, ◌+◌, ◌^◌, length};
ghost use Rattle.capnp_format.specs.Segments.{Grows, IsPlace};
ghost use Rattle.addressbook_building.specs.Sizes.{person_phone_number_size, person_size};
ghost use Rattle.typed_building.specs.There.{HasStructsPlace, HasStructPlace};

use addressbook_building::person_phone_number_type::Type_;
use addressbook_building::{address_book, person, person_phone_number};
use capnp_arena_traits::arena::BuilderArena;
use capnp_words::error::ErrorKind;

/// Sets the fields of phone number `index`.
fn fill_phone<A: BuilderArena>(
    arena: &mut A,
    phones: person_phone_number::Builders,
    index: u32,
    number: &[u8],
    kind: Type_,
) -> Result<(), ErrorKind>
    requires there { HasStructsPlace (A.view arena.old).words person_phone_number_size phones.place }
    requires within { index < phones.place.count }
    requires few { length number.now + 1 < 2 ^ 29 }
    ensures { Grows (A.view arena.old).words (A.view arena.new).words }
{
    let phone = phones.get(&*arena, index);
    phone.set_number(arena, number)?;
    phone.set_type(arena, kind);
    Ok(())
}

/// Sets the name and the email address of a person.
fn set_name_and_email<A: BuilderArena>(
    arena: &mut A,
    person: person::Builder,
    name: &[u8],
    email: &[u8],
) -> Result<(), ErrorKind>
    requires there { HasStructPlace (A.view arena.old).words person_size person.place }
    requires name { length name.now + 1 < 2 ^ 29 }
    requires email { length email.now + 1 < 2 ^ 29 }
    ensures { Grows (A.view arena.old).words (A.view arena.new).words }
{
    person.set_name(arena, name)?;
    person.set_email(arena, email)
}

/// Gives the first person a phone number.
fn fill_alices_phone<A: BuilderArena>(
    arena: &mut A,
    alice: person::Builder,
) -> Result<(), ErrorKind>
    requires { HasStructPlace (A.view arena.old).words person_size alice.place }
    ensures { Grows (A.view arena.old).words (A.view arena.new).words }
{
    let phones = alice.init_phones(arena, 1)?;
    fill_phone(arena, phones, 0, b"555-1212", Type_::Mobile)
}

/// Gives the second person two phone numbers.
fn fill_bobs_phones<A: BuilderArena>(arena: &mut A, bob: person::Builder) -> Result<(), ErrorKind>
    requires { HasStructPlace (A.view arena.old).words person_size bob.place }
    ensures { Grows (A.view arena.old).words (A.view arena.new).words }
{
    let phones = bob.init_phones(arena, 2)?;
    fill_phone(arena, phones, 0, b"555-4567", Type_::Home)?;
    fill_phone(arena, phones, 1, b"555-7654", Type_::Work)
}

/// Sets the fields of the first person.
fn fill_alice<A: BuilderArena>(arena: &mut A, alice: person::Builder) -> Result<(), ErrorKind>
    requires { HasStructPlace (A.view arena.old).words person_size alice.place }
    ensures { Grows (A.view arena.old).words (A.view arena.new).words }
{
    alice.set_id(arena, 123);
    set_name_and_email(arena, alice, b"Alice", b"alice@example.com")?;
    fill_alices_phone(arena, alice)?;
    alice.get_employment().set_school(arena, b"MIT")
}

/// Sets the fields of the second person.
fn fill_bob<A: BuilderArena>(arena: &mut A, bob: person::Builder) -> Result<(), ErrorKind>
    requires { HasStructPlace (A.view arena.old).words person_size bob.place }
{
    bob.set_id(arena, 456);
    set_name_and_email(arena, bob, b"Bob", b"bob@example.com")?;
    fill_bobs_phones(arena, bob)?;
    bob.get_employment().set_unemployed(arena);
    Ok(())
}

/// Sets the fields of both people.
fn fill_people<A: BuilderArena>(arena: &mut A, people: person::Builders) -> Result<(), ErrorKind>
    requires there { HasStructsPlace (A.view arena.old).words person_size people.place }
    requires two { people.place.count ≡ 2 }
{
    let alice = people.get(&*arena, 0);
    let bob = people.get(&*arena, 1);
    fill_alice(arena, alice)?;
    fill_bob(arena, bob)
}

/// Builds an address book of two people.
pub fn build_address_book<A: BuilderArena>(arena: &mut A) -> Result<(), ErrorKind>
    requires { IsPlace (A.view arena.old).words 0 0 }
{
    let book = address_book::Builder::init_root(arena)?;
    let people = book.init_people(arena, 2)?;
    fill_people(arena, people)
}
