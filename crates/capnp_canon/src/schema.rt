//! Reads the schema that the messages of a run are tested against.

use crate::texts::error_text;
use anyhow::Result;
use capnp_arena::arena::{ReaderArenaImpl, ReaderOptions};
use capnp_framing::devices::ReaderInput;
use capnp_framing::framing::read;
use capnp_words::read_limiter::ReadLimiter;
use capnpc_schema::groups::structs_of_file;
use capnpc_schema::model::{Node, NodeKind, find_node};
use capnpc_schema::noted::Noted;
use capnpc_schema::request::{Request, read_request};
use capnpc_schema::table::{TEXT, Table, table_of};
use schema_reading::code_generator_request;
use std::alloc::{AllocError, Global};
use std::fs::File;
use typed_conforming::schema::Misfit;
use typed_streams::conforming::ConformingFault;

/// What is made, if there is memory for it.
type Made<T> = std::result::Result<T, AllocError>;

/// The most words of a compiled schema, and the most that reading one may charge.
const MAX_WORDS: usize = 1 << 28;

/// The table of a schema, and its row that the root of each message has to conform to.
#[derive(Drop)]
pub struct Schema {
    pub table: Table,
    pub row: u32,
}

/// Reads the schema that `text` names: a file, a `:`, and a struct in it, by its name or its id. If
/// it can't be read, reports why and returns `None`.
pub fn read_schema(rt: &HostRuntime, text: &str) -> Option<Schema> {
    let (name, wanted) = text.rsplit_once(':').unwrap_or((text, ""));
    let file = match File::open(rt, name) {
        Ok(file) => file,
        Err(error) => {
            let _ = match error_text(rt.alloc(), &error) {
                Ok(why) => eprintln!(rt; "capnp_canon: {name}: {why}"),
                Err(AllocError) => eprintln!(rt; "capnp_canon: {name}: {error}"),
            };
            return None;
        }
    };
    match make_schema(rt.alloc(), file, wanted) {
        Ok(Some(schema)) => Some(schema),
        Ok(None) => {
            let _ = eprintln!(rt; "capnp_canon: {name}: no struct '{wanted}'");
            None
        }
        Err(error) => {
            let _ = eprintln!(rt; "capnp_canon: {name}: not a compiled schema: {error}");
            None
        }
    }
}

/// Makes the schema of the struct `wanted` in a file; `None` if the file has no such struct.
fn make_schema(alloc: Global, file: File, wanted: &str) -> Result<Option<Schema>> {
    let Some(request) = read_compiled(alloc, file)? else {
        return Ok(None);
    };
    let Some(id) = find_struct(alloc, &request, wanted)? else {
        return Ok(None);
    };
    let table = table_of(alloc, request.nodes.as_slice(), &[id], TEXT);
    if table.has_failed {
        return Err(AllocError.into());
    }
    match table.row_of(id) {
        Some(row) => Ok(Some(Schema { table, row })),
        None => Ok(None),
    }
}

/// Reads the request in a file that the schema compiler has written; `None` if the file is empty.
fn read_compiled(alloc: Global, file: File) -> Result<Option<Request>> {
    let mut input = ReaderInput::new(file);
    let Some(segments) = read(alloc, &mut input, MAX_WORDS as u64)? else {
        return Ok(None);
    };
    let (mut noted, mut limiter) = (Noted::new(alloc), ReadLimiter::new(Some(MAX_WORDS)));
    let arena = ReaderArenaImpl::new(segments, ReaderOptions::default());
    let root = code_generator_request::Reader::root(&arena, &mut limiter)?;
    let request = read_request(root, &mut limiter, &mut noted);
    noted.finish()?;
    Ok(Some(request))
}

/// Returns the id of the struct with the name `wanted`, or with this id in hex digits after `0x`. Of
/// several structs with the name, one that is declared in a file that was compiled comes first.
fn find_struct(alloc: Global, request: &Request, wanted: &str) -> Result<Option<u64>> {
    let nodes = request.nodes.as_slice();
    for file in request.files.iter() {
        let declared = structs_of_file(alloc, nodes, file.id);
        if declared.has_failed {
            return Err(AllocError.into());
        }
        for id in declared.ids.iter() {
            if let Some(node) = find_node(nodes, *id)
                && is_named(node, wanted)
            {
                return Ok(Some(*id));
            }
        }
    }
    for node in nodes {
        if is_struct(node) && (is_named(node, wanted) || parse_id(wanted) == Some(node.id)) {
            return Ok(Some(node.id));
        }
    }
    Ok(None)
}

/// Whether a declaration has this name.
fn is_named(node: &Node, name: &str) -> bool {
    node.full.as_str() == name
}

/// Whether a declaration is a struct, and not a group.
fn is_struct(node: &Node) -> bool {
    match &node.kind {
        NodeKind::Struct(it) => !it.is_group,
        _ => false,
    }
}

/// Returns the id that `text` states as `0x` and hex digits, after a `@` or not.
fn parse_id(text: &str) -> Option<u64> {
    let rest = text.strip_prefix('@').unwrap_or(text);
    u64::from_str_radix(rest.strip_prefix("0x")?, 16).ok()
}

impl Schema {
    /// Returns the name of the pointer that is refused, after `, in `: that of its struct, and of its
    /// field or its number. Returns an empty text if no pointer is refused, for the root, and for what
    /// the schema doesn't know.
    pub fn field_text(&self, alloc: Global, fault: ConformingFault) -> String {
        match fault {
            ConformingFault::Misfit(misfit) => match self.make_field_text(alloc, misfit) {
                Ok(text) => text,
                Err(AllocError) => String::new(alloc),
            },
            ConformingFault::Frame(_) | ConformingFault::TooManyMessages => String::new(alloc),
        }
    }

    /// Returns the same as `field_text` for a misfit. Fails if there is no memory.
    fn make_field_text(&self, alloc: Global, misfit: Misfit) -> Made<String> {
        for row in self.table.rows.iter() {
            if row.position == misfit.row && misfit.row != 0 {
                let name = row.name.as_str();
                let index = misfit.index;
                return match row.fields.get(index as usize) {
                    Some(field) if !field.is_empty() => format!(in alloc; ", in {name}.{field}"),
                    _ if row.id == 0 => format!(in alloc; ", in {name}"),
                    _ => format!(in alloc; ", in pointer {index} of {name}"),
                };
            }
        }
        Ok(String::new(alloc))
    }
}
