//! Upstream's example of an address book, over generated readers and builders. For each argument
//! `write` it writes the frame of the sample message to standard output; for each argument `read` it
//! prints the address books of standard input.
#![tactic(auto)]

mod building;
mod first;
mod printing;

use anyhow::{Result, anyhow};
use building::build_address_book;
use capnp_framing::devices::{ReaderInput, WriterOutput};
use capnp_words::error::ErrorKind;
use first::first_id_in;
use printing::print_book;
use std::alloc::Global;
use std::{env, io};
use typed_messages::message::{MessageBuilder, ReaderOptions};
use typed_messages::serialize::{Messages, write_message};

/// Builds the sample message.
fn build_sample(alloc: Global) -> Result<MessageBuilder, ErrorKind> {
    let mut message = MessageBuilder::new(alloc, 1024)?;
    build_address_book(&mut message.arena)?;
    Ok(message)
}

/// Writes the frame of the sample message.
fn write_sample(rt: &HostRuntime) -> Result<()> {
    let message = build_sample(rt.alloc())?;
    let mut output = WriterOutput::new(io::writer(rt));
    write_message(&mut output, &message)?;
    Ok(())
}

/// Prints a stream of address books, each with the id of its first person before it.
fn print_books(rt: &HostRuntime) -> Result<()> {
    let input = ReaderInput::new(rt.reader());
    for message in Messages::new(rt.alloc(), input, ReaderOptions::default()) {
        let mut message = message?;
        if let Some(id) = first_id_in(&mut message)? {
            println!(rt; "first id: {id}")?;
        }
        print_book(rt, message)?;
    }
    Ok(())
}

fn main(rt: HostRuntime) -> Result<()> {
    for word in env::args(&rt)?.skip(1) {
        match word.as_str() {
            "write" => write_sample(&rt)?,
            "read" => print_books(&rt)?,
            _ => return Err(anyhow!("usage: example_typed [read | write]")),
        }
    }
    Ok(())
}
