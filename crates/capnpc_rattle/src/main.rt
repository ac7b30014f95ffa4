//! The program `capnpc-rattle`, a plug-in of the schema compiler, `capnp compile`: reads the compiler's
//! request from standard input, and writes a crate of readers and one of builders into the working
//! directory; with `--checked`, also one of readers of messages that are checked once. The crates need no
//! proof of their own. What it doesn't write, it names on standard error.
#![tactic(auto)]

mod builders;
mod building;
mod calls;
mod checking;
mod checking_forms;
mod checking_templates;
mod definitions;
mod fields;
mod forms;
mod imports;
mod modules;
mod names;
mod output;
mod parts;
mod readers;
mod slots;
mod tables;
mod templates;
mod unions;
mod writing;

use anyhow::{Result, anyhow};
use builders::Builders;
use capnpc_schema::files::{File, write_files};
use capnpc_schema::groups::structs_of_file;
use capnpc_schema::input::{read_standard_input, stem};
use capnpc_schema::model::{Node, NodeKind};
use capnpc_schema::noted::Noted;
use capnpc_schema::request::Request;
use checking::Checking;
use definitions::name_definitions;
use modules::{name_modules, naming_order};
use names::crate_name;
use output::unwritten_lines;
use readers::{Generated, Readers};
use std::alloc::{AllocError, Global};
use std::env;

/// Reads the request, and names the modules and the definitions.
fn read_named_request(rt: &(impl Input + AllocGlobal)) -> Result<Request> {
    let mut noted = Noted::new(rt.alloc());
    let mut request = read_standard_input(rt, &mut noted)?;
    if request.files.len() > 1 {
        return Err(anyhow!(
            "two crates have one schema file: run `capnp compile` for each file by itself"
        ));
    }
    let file = request.first_id();
    let order = naming_order(request.nodes.as_slice(), file, &mut noted);
    name_modules(&mut request.nodes, order.as_slice(), &mut noted);
    name_definitions(&mut request.nodes, order.as_slice(), &mut noted);
    noted.finish()?;
    Ok(request)
}

/// Generates the crate of readers.
fn generate_readers(alloc: Global, request: &Request) -> Result<Generated, AllocError> {
    let stem = stem(request.first_file());
    let name = crate_name(alloc, stem, "_reading")?;
    Readers::new(alloc, name.as_str(), request.nodes.as_slice()).generate(stem)
}

/// Returns the files of the crate of builders.
fn generate_builders(alloc: Global, request: &Request) -> Result<Vec<File>, AllocError> {
    let stem = stem(request.first_file());
    let name = crate_name(alloc, stem, "_building")?;
    let reading = crate_name(alloc, stem, "_reading")?;
    let nodes = request.nodes.as_slice();
    Builders::new(alloc, name.as_str(), reading.as_str(), nodes).generate(stem)
}

/// Generates the crate of readers of checked messages.
fn generate_checking(alloc: Global, request: &Request) -> Result<Generated, AllocError> {
    let stem = stem(request.first_file());
    let name = crate_name(alloc, stem, "_checking")?;
    let reading = crate_name(alloc, stem, "_reading")?;
    let nodes = request.nodes.as_slice();
    let structs = structs_in_order(alloc, nodes, request.first_id())?;
    let made = Checking::new(
        alloc,
        name.as_str(),
        reading.as_str(),
        nodes,
        structs.as_slice(),
    );
    made.generate(stem)
}

/// The structs that have a row: those of the file first, by their names, and then those that are
/// imported.
fn structs_in_order(alloc: Global, nodes: &[Node], file: u64) -> Result<Vec<u64>, AllocError> {
    let own = structs_of_file(alloc, nodes, file);
    if own.has_failed {
        return Err(AllocError);
    }
    let mut ids = own.ids;
    for node in nodes {
        if let NodeKind::Struct(it) = &node.kind
            && !it.is_group
        {
            ids.push(node.id)?;
        }
    }
    Ok(ids)
}

/// Whether the program's arguments ask for readers of checked messages. Refuses any other argument.
fn asks_checked(rt: &HostRuntime) -> Result<bool> {
    let mut is_checked = false;
    for arg in env::args(rt)?.skip(1) {
        if arg.as_str() != "--checked" {
            return Err(anyhow!("unknown argument: there is only --checked"));
        }
        is_checked = true;
    }
    Ok(is_checked)
}

/// Prints lines on standard error.
fn print_lines(rt: &HostRuntime, lines: &str) -> Result<()> {
    for line in lines.lines() {
        eprintln!(rt; "{line}")?;
    }
    Ok(())
}

fn main(rt: HostRuntime) -> Result<()> {
    let is_checked = asks_checked(&rt)?;
    let request = read_named_request(&rt)?;
    let readers = generate_readers(rt.alloc(), &request)?;
    let builders = generate_builders(rt.alloc(), &request)?;
    let unwritten = unwritten_lines(rt.alloc(), request.nodes.as_slice(), request.first_id())?;
    write_files(&rt, readers.files.as_slice())?;
    write_files(&rt, builders.as_slice())?;
    print_lines(&rt, unwritten.as_str())?;
    print_lines(&rt, readers.skipped.as_str())?;
    if is_checked {
        let checking = generate_checking(rt.alloc(), &request)?;
        write_files(&rt, checking.files.as_slice())?;
        print_lines(&rt, checking.skipped.as_str())?;
    }
    Ok(())
}
