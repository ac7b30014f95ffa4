//! Writes the file of Rust for each requested file of a schema.

use crate::builders::write_module_head;
use crate::constants::{lacking_of_constant, write_constant};
use crate::enums::write_enum;
use crate::order::{Entry, order_of};
use crate::piece::Piece;
use crate::readers::{Schema, put_allow};
use crate::templates;
use capnpc_schema::files::File;
use capnpc_schema::groups::structs_of_file;
use capnpc_schema::model::{Constant, Node, NodeKind, find_node};
use capnpc_schema::request::SchemaFile;
use capnpc_schema::table::{TableRow, UTF8, table_of};
use capnpc_schema::text::{Text, Values};
use std::alloc::{AllocError, Global};

/// What is generated: the files, and a line for each declaration and field that isn't written.
#[derive(Drop)]
pub struct Generated {
    /// The files.
    pub files: Vec<File>,
    /// The lines.
    pub skipped: String,
}

/// Generates the files of a request, with plain values if `has_values` says so.
pub fn generate(
    alloc: Global,
    requested: &[SchemaFile],
    nodes: &[Node],
    has_values: bool,
) -> Result<Generated, AllocError> {
    let mut files = Vec::new(alloc);
    let mut schema = Schema {
        alloc,
        nodes,
        skipped: Text::new(alloc),
        has_values,
        file: 0,
        table: table_of(alloc, nodes, &[], UTF8),
    };
    for file in requested {
        if let Some(node) = find_node(nodes, file.id) {
            let file = generate_file(&mut schema, node, file.name.as_str())?;
            if files.push(file).is_err() {
                return Err(AllocError);
            }
        }
    }
    let skipped = schema.skipped.into_string()?;
    Ok(Generated { files, skipped })
}

// Generates a file of this name.
fn generate_file(schema: &mut Schema<'_>, node: &Node, name: &str) -> Result<File, AllocError> {
    let mut text = Text::new(schema.alloc);
    let mut values = Values::new(schema.alloc);
    values.put("file", name);
    text.push_filled(templates::FILE_HEAD, &values);
    make_table(schema, node.id);
    write_table(schema, &mut text);
    let order = order_of(schema.alloc, schema.nodes, node.id);
    text.note_if_failed(order.has_failed);
    let mut open = 0usize;
    for entry in order.entries.iter() {
        close_modules(&mut text, open, entry.depth);
        open = write_entry(schema, &mut text, *entry);
    }
    close_modules(&mut text, open, 0);
    let mut path = Text::new(schema.alloc);
    path.push_all(&[node.module.as_str(), ".rs"]);
    let path = path.into_string()?;
    let text = text.into_string()?;
    Ok(File { path, text })
}

// Makes the table of the structs of a file.
fn make_table(schema: &mut Schema<'_>, file: u64) {
    let structs = structs_of_file(schema.alloc, schema.nodes, file);
    schema.file = file;
    schema.table = table_of(schema.alloc, schema.nodes, structs.ids.as_slice(), UTF8);
    schema.table.has_failed = schema.table.has_failed || structs.has_failed;
}

// Writes the table of a file that has structs.
fn write_table(schema: &Schema<'_>, text: &mut Text) {
    text.note_if_failed(schema.table.has_failed);
    if schema.table.rows.is_empty() {
        return;
    }
    let mut piece = Piece::new(schema.alloc, 0);
    let mut words = Text::new(schema.alloc);
    for word in schema.table.words.iter() {
        push_item(&mut words, *word);
    }
    piece.text.push(templates::TABLE);
    piece.push_array("", "const TABLE: &[u32] = &[", words.as_str(), "];");
    piece.text.push(templates::NAMES);
    for row in schema.table.rows.iter() {
        push_row_names(&mut piece.text, row);
    }
    piece.text.push("\";\n");
    piece.push_into(text, 0);
}

// Appends a word of an array.
fn push_item(words: &mut Text, word: u32) {
    if !words.as_str().is_empty() {
        words.push(", ");
    }
    words.push_number(u64::from(word));
}

// Appends the line of names of a row.
fn push_row_names(text: &mut Text, row: &TableRow) {
    text.push_number(u64::from(row.position));
    text.push_all(&[" ", row.name.as_str()]);
    let mut separator = " ";
    for field in row.fields.iter() {
        text.push_all(&[separator, field.as_str()]);
        separator = ",";
    }
    text.push("\n");
}

// Closes modules until only `depth` of `open` are open.
fn close_modules(text: &mut Text, open: usize, depth: usize) {
    for closed in 0..open.saturating_sub(depth) {
        for _ in closed.saturating_add(1)..open {
            text.push("    ");
        }
        text.push("}\n");
    }
}

// Writes a declaration, and returns how many modules are open after it.
fn write_entry(schema: &mut Schema<'_>, text: &mut Text, entry: Entry) -> usize {
    let nodes = schema.nodes;
    let depth = entry.depth;
    let Some(node) = nodes.get(entry.index) else {
        return depth;
    };
    text.push("\n");
    match &node.kind {
        NodeKind::Struct(it) => {
            schema.write_reader(node, it, depth).push_into(text, depth);
            let inner = depth.saturating_add(1);
            text.push("\n");
            open_module(schema, text, node, depth);
            write_module_head(schema, node, it, inner).push_into(text, inner);
            inner
        }
        NodeKind::Enum(names) => {
            write_enum(schema, node, names.as_slice(), depth).push_into(text, depth);
            depth
        }
        NodeKind::Const(constant) => {
            write_const(schema, text, node, constant, depth);
            depth
        }
        NodeKind::Other(what) => {
            write_skipped(schema, text, node, what, depth);
            write_scope(schema, text, node, depth)
        }
        NodeKind::File => depth,
    }
}

// Writes a constant, or a comment in place of one that isn't known.
fn write_const(
    schema: &mut Schema<'_>,
    text: &mut Text,
    node: &Node,
    constant: &Option<Constant>,
    depth: usize,
) {
    let Some(constant) = constant else {
        write_skipped(
            schema,
            text,
            node,
            "its type or its value is unknown",
            depth,
        );
        return;
    };
    let why = lacking_of_constant(schema, constant);
    if why.is_empty() {
        write_constant(schema, node, constant, depth).push_into(text, depth);
    } else {
        write_skipped(schema, text, node, why, depth);
    }
}

// Opens the module of a declaration.
fn open_module(schema: &Schema<'_>, text: &mut Text, node: &Node, depth: usize) {
    let mut piece = Piece::new(schema.alloc, depth);
    let mut values = schema.node_values(node);
    put_allow(depth, &mut values);
    piece.push(
        "/// In the scope of `~full~`.\n~allow~pub mod ~own~ {\n",
        &values,
    );
    piece.push_into(text, depth);
}

// Writes a comment in place of a declaration, and notes that.
fn write_skipped(
    schema: &mut Schema<'_>,
    text: &mut Text,
    node: &Node,
    why: &'static str,
    depth: usize,
) {
    let mut piece = Piece::new(schema.alloc, depth);
    let full = node.full.as_str();
    piece
        .text
        .push_all(&["// ", full, " isn't written: ", why, ".\n"]);
    piece.push_into(text, depth);
    schema.skip(full, why);
}

// Opens a module for what is in the scope of a declaration that isn't written, if there is something.
// Returns how many modules are open then.
fn write_scope(schema: &Schema<'_>, text: &mut Text, node: &Node, depth: usize) -> usize {
    if !is_scope(schema.nodes, node.id) {
        return depth;
    }
    let inner = depth.saturating_add(1);
    text.push("\n");
    open_module(schema, text, node, depth);
    let mut piece = Piece::new(schema.alloc, inner);
    piece.text.push("#[allow(unused_imports)]\nuse super::g;\n");
    piece.push_into(text, inner);
    inner
}

// Whether a declaration has others in its scope.
fn is_scope(nodes: &[Node], id: u64) -> bool {
    for node in nodes {
        if node.scope == id {
            return true;
        }
    }
    false
}
