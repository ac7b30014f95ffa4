//! Writes enums.

use crate::docs::push_docs;
use crate::names::VARIANT_WORDS;
use crate::piece::Piece;
use crate::readers::{Schema, comment_of, put_allow};
use crate::templates;
use capnpc_schema::model::Node;
use capnpc_schema::names::{Names, capitalized};
use capnpc_schema::text::{Text, Values};
use std::alloc::Global;

/// Writes an enum with these names.
pub fn write_enum(schema: &Schema<'_>, node: &Node, names: &[String], depth: usize) -> Piece {
    let mut piece = Piece::new(schema.alloc, depth);
    let mut values = schema.node_values(node);
    put_allow(depth, &mut values);
    push_docs(
        &mut piece.text,
        "",
        node.comment.as_str(),
        node.full.as_str(),
    );
    if names.is_empty() {
        piece.push(templates::EMPTY_ENUM, &values);
        return piece;
    }
    let variants = variant_names(schema.alloc, names);
    put_variants(schema.alloc, node, names, &variants, &mut values);
    piece.push(templates::ENUM, &values);
    piece
}

/// The names of the variants of an enum, by their numbers.
pub fn variant_names(alloc: Global, names: &[String]) -> Names {
    let mut variants = Names::new(alloc);
    for name in names {
        let mut variant = capitalized(alloc, name.as_str());
        variants.make_unique_and_add(alloc, VARIANT_WORDS, &mut variant);
    }
    variants
}

// Puts the variants of an enum, and the arms that turn numbers into them and back.
fn put_variants(
    alloc: Global,
    node: &Node,
    names: &[String],
    variants: &Names,
    values: &mut Values,
) {
    let mut declared = Text::new(alloc);
    let mut from = Text::new(alloc);
    let mut into = Text::new(alloc);
    declared.note_if_failed(variants.has_failed);
    for (i, variant) in variants.as_slice().iter().enumerate() {
        let mut row = Values::new(alloc);
        row.put("name", name_at(names, i));
        row.put("variant", variant.as_str());
        row.put("type", values.get("type"));
        row.put_number("number", i as u64);
        row.put_lines("line=~name~ @~number~");
        push_docs(&mut declared, "    ", comment_of(node, i), row.get("line"));
        declared.push_filled("    ~variant~,\n", &row);
        from.push_filled("            ~number~ => Self::~variant~,\n", &row);
        into.push_filled("            ~type~::~variant~ => ~number~,\n", &row);
    }
    values.put_text("variants", declared);
    values.put_text("from", from);
    values.put_text("into", into);
}

/// The name with this number; empty if there is none.
pub fn name_at(names: &[String], index: usize) -> &str {
    match names.get(index) {
        Some(name) => name.as_str(),
        None => "",
    }
}
