//! The program `capnpc-layout-c`, a plug-in of the schema compiler, `capnp compile`: reads the
//! compiler's request from standard input, and writes a header of C for each file of the schema into
//! the working directory. What it doesn't write, it names on standard error.
#![tactic(auto)]

mod annotated;
mod builders;
mod bytes;
mod checks;
mod comments;
mod constants;
mod enums;
mod files;
mod forms;
mod generating;
mod members;
mod naming;
mod readers;
mod templates;
mod words;

use anyhow::Result;
use capnpc_schema::files::write_files;
use capnpc_schema::input::read_standard_input;
use capnpc_schema::noted::Noted;
use capnpc_schema::request::Request;
use generating::generate;
use naming::name_nodes;

fn main(rt: HostRuntime) -> Result<()> {
    let mut noted = Noted::new(rt.alloc());
    let Request { files, mut nodes } = read_standard_input(&rt, &mut noted)?;
    name_nodes(&mut nodes, files.as_slice(), &mut noted);
    noted.finish()?;
    let made = generate(rt.alloc(), files.as_slice(), nodes.as_slice())?;
    write_files(&rt, made.files.as_slice())?;
    for line in made.skipped.lines() {
        eprintln!(rt; "{line}")?;
    }
    Ok(())
}
