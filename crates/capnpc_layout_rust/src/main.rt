//! The program `capnpc-layout-rust`, a plug-in of the schema compiler, `capnp compile`: reads the
//! compiler's request from standard input, and writes a file of Rust for each file of the schema into
//! the working directory. What it doesn't write, it names on standard error. With the argument
//! `--values`, structs have plain values, too.
#![tactic(auto)]

mod builders;
mod constants;
mod docs;
mod enums;
mod forms;
mod generating;
mod names;
mod naming;
mod order;
mod paths;
mod piece;
mod readers;
mod templates;
mod types;
mod unions;
mod value_templates;
mod values;

use anyhow::{Result, anyhow};
use capnpc_schema::files::File;
use capnpc_schema::input::read_standard_input;
use capnpc_schema::noted::Noted;
use generating::generate;
use naming::name_nodes;
use std::rt::Files;
use std::{env, fs, io};

// Writes files into the working directory.
fn write_files<R: Files>(rt: &R, files: &[File]) -> io::Result<()> {
    for file in files {
        fs::write(rt, file.path.as_str(), file.text.as_str())?;
    }
    Ok(())
}

// Whether the program's arguments ask for plain values. Refuses any other argument.
fn asks_values(rt: &HostRuntime) -> Result<bool> {
    let mut has_values = false;
    for arg in env::args(rt)?.skip(1) {
        if arg.as_str() != "--values" {
            return Err(anyhow!("unknown argument: there is only --values"));
        }
        has_values = true;
    }
    Ok(has_values)
}

fn main(rt: HostRuntime) -> Result<()> {
    let has_values = asks_values(&rt)?;
    let mut noted = Noted::new(rt.alloc());
    let mut request = read_standard_input(&rt, &mut noted)?;
    name_nodes(&mut request.nodes, has_values, &mut noted);
    noted.finish()?;
    let made = generate(
        rt.alloc(),
        request.files.as_slice(),
        request.nodes.as_slice(),
        has_values,
    )?;
    write_files(&rt, made.files.as_slice())?;
    for line in made.skipped.lines() {
        eprintln!(rt; "{line}")?;
    }
    Ok(())
}
