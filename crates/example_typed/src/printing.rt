//! Prints what an address book says about each person, like upstream's example.

use addressbook_reading::person_employment_which::Which;
use addressbook_reading::person_phone_number_type::Type_;
use addressbook_reading::{address_book, person, person_employment, person_phone_number};
use anyhow::Result;
use capnp_arena_traits::arena::ReaderArena;
use capnp_framing::framing::OwnedSegments;
use capnp_words::error::ErrorKind;
use capnp_words::read_limiter::ReadLimiter;
use std::str;
use typed_messages::message::MessageReader;
use typed_reading::error::NotInSchema;

/// The text that was read.
fn text(read: Result<&[u8], ErrorKind>) -> Result<&str> {
    Ok(str::from_utf8(read?)?)
}

/// The word for a kind of phone.
fn kind_of(phone: Result<Type_, NotInSchema>) -> &'static str {
    match phone {
        Ok(Type_::Mobile) => "mobile",
        Ok(Type_::Home) => "home",
        Ok(Type_::Work) => "work",
        Err(_) => "UNKNOWN",
    }
}

/// Prints a phone number.
fn print_phone<A: ReaderArena>(
    rt: &impl Print,
    phone: person_phone_number::Reader<'_, A>,
    lim: &mut ReadLimiter,
) -> Result<()> {
    let kind = kind_of(phone.get_type());
    let number = text(phone.get_number(lim))?;
    println!(rt; "  {kind} phone: {number}")?;
    Ok(())
}

/// Prints an employer or a school after these words.
fn print_institution(rt: &impl Print, words: &str, name: Result<&[u8], ErrorKind>) -> Result<()> {
    let name = text(name)?;
    println!(rt; "  {words}: {name}")?;
    Ok(())
}

/// Prints what a person does.
fn print_employment<A: ReaderArena>(
    rt: &impl Print,
    employment: person_employment::Reader<'_, A>,
    lim: &mut ReadLimiter,
) -> Result<()> {
    match employment.which() {
        Ok(Which::Unemployed) => Ok(println!(rt; "  unemployed")?),
        Ok(Which::Employer) => print_institution(rt, "employer", employment.get_employer(lim)),
        Ok(Which::School) => print_institution(rt, "student at", employment.get_school(lim)),
        Ok(Which::SelfEmployed) => Ok(println!(rt; "  self-employed")?),
        Err(_) => Ok(()),
    }
}

/// Prints a person's name and email address.
fn print_name_and_email<A: ReaderArena>(
    rt: &impl Print,
    person: person::Reader<'_, A>,
    lim: &mut ReadLimiter,
) -> Result<()> {
    let name = text(person.get_name(lim))?;
    let email = text(person.get_email(lim))?;
    println!(rt; "{name}: {email}")?;
    Ok(())
}

/// Prints phone numbers.
fn print_phones<A: ReaderArena>(
    rt: &impl Print,
    phones: person_phone_number::Readers<'_, A>,
    lim: &mut ReadLimiter,
) -> Result<()> {
    for i in 0..phones.len() {
        print_phone(rt, phones.get(i), lim)?;
    }
    Ok(())
}

/// Prints what an address book says about a person.
fn print_person<A: ReaderArena>(
    rt: &impl Print,
    person: person::Reader<'_, A>,
    lim: &mut ReadLimiter,
) -> Result<()> {
    print_name_and_email(rt, person, lim)?;
    print_phones(rt, person.get_phones(lim)?, lim)?;
    print_employment(rt, person.get_employment(), lim)
}

/// Prints an address book.
pub fn print_book(rt: &impl Print, mut message: MessageReader<OwnedSegments>) -> Result<()> {
    let book = address_book::Reader::root(&message.arena, &mut message.limiter)?;
    let people = book.get_people(&mut message.limiter)?;
    for i in 0..people.len() {
        print_person(rt, people.get(i), &mut message.limiter)?;
    }
    Ok(())
}
