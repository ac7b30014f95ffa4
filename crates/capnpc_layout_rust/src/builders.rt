//! Writes builders of structs.

use crate::docs::push_docs;
use crate::piece::{PUBLIC, Piece};
use crate::readers::{Schema, comment_of, is_void};
use crate::templates;
use crate::unions::{is_member, push_which_type};
use crate::values::write_value;
use capnpc_schema::model::{Default, Field, FieldKind, Node, Slot, Struct};
use capnpc_schema::names::Names;
use capnpc_schema::slots::add_group_slots;
use capnpc_schema::text::{Text, Values};
use capnpc_schema::types::BaseKind;
use std::alloc::Global;

/// Writes the head of the module of a struct or a group: its builder, its union, and its plain value.
pub fn write_module_head(schema: &Schema<'_>, node: &Node, it: &Struct, depth: usize) -> Piece {
    let mut piece = Piece::new(schema.alloc, depth);
    let mut values = schema.node_values(node);
    values.put_number("data", u64::from(it.data_words));
    values.put_number("pointers", u64::from(it.pointers));
    write_setters(schema, &mut piece, node, it);
    let setters = piece.take();
    piece.push(templates::MODULE_HEAD, &values);
    if !it.is_group {
        piece.push(templates::SIZE, &values);
    }
    piece.push(templates::BUILDER, &values);
    piece.push_impl("impl Builder<'_> {\n", &setters, &values);
    piece.push(templates::FROM_BUILDER, &values);
    if !it.is_group {
        piece.push(templates::TYPED_BUILDER, &values);
    }
    if it.members > 0 {
        push_which_type(schema, &mut piece, node, it);
    }
    if schema.has_values {
        write_value(schema, &mut piece, node, it);
    }
    piece
}

// Writes the calls of a builder.
fn write_setters(schema: &Schema<'_>, piece: &mut Piece, node: &Node, it: &Struct) {
    for (i, field) in it.fields.iter().enumerate() {
        if schema.skip_reason(field).is_empty() {
            let mut values = schema.field_values(node, field, node.id);
            values.put("tagged", "");
            values.put_number("tag", u64::from(it.tag_offset));
            if is_member(field) {
                let line = tag_line(schema.alloc, &values);
                values.put_text("tagged", line);
            }
            write_field(schema, piece, field, comment_of(node, i), &mut values);
        }
    }
}

// The statement that sets the tag of a member.
fn tag_line(alloc: Global, values: &Values) -> Text {
    let mut line = Text::new(alloc);
    line.push_filled("        self.0.set(~tag~, ~number~u16);\n", values);
    line
}

// Writes the calls of a field.
fn write_field(
    schema: &Schema<'_>,
    piece: &mut Piece,
    field: &Field,
    comment: &str,
    values: &mut Values,
) {
    match &field.kind {
        FieldKind::Group(id) => write_group(schema, piece, *id, is_member(field), comment, values),
        FieldKind::Slot(_) if is_void(field) => {
            if is_member(field) {
                values.put_lines(SET_VOID);
                push_call(piece, comment, templates::SET_VOID, values);
            }
        }
        FieldKind::Slot(slot) => write_slot(piece, slot, comment, values),
        FieldKind::Unknown => {}
    }
}

const SET_VOID: &str = "name=set_~snake~
params=&mut self
gives=&mut Self";

// Writes the calls of a field that isn't a group.
fn write_slot(piece: &mut Piece, slot: &Slot, comment: &str, values: &mut Values) {
    let is_list = slot.of.lists > 0;
    let has_meter = is_list || matches!(slot.of.base.kind, BaseKind::Struct | BaseKind::Pointer);
    values.put("generic", if has_meter { "<M: g::Meter>" } else { "" });
    values.put_lines("name=set_~snake~~generic~\nparams=&mut self;value: ~value~\ngives=&mut Self");
    push_call(piece, comment, templates::SET, values);
    if !values.get("init").is_empty() {
        values.put("count", if is_list { ";count: usize" } else { "" });
        values.put_lines("name=init_~snake~\nparams=&mut self~count~\ngives=~gives_init~");
        push_call(piece, "", templates::INIT, values);
    }
    if !values.get("edit").is_empty() && matches!(slot.default, Default::Zero) {
        values.put_lines("name=edit_~snake~\nparams=&mut self\ngives=~gives_init~\ninit=~edit~");
        push_call(piece, "", templates::EDIT, values);
    }
}

// Writes a call: its comment, its first line, and its body, which is `template`.
fn push_call(piece: &mut Piece, comment: &str, template: &str, values: &Values) {
    piece.begin_item();
    let (about, body) = template.split_once('|').unwrap_or(("", template));
    if about.is_empty() {
        push_docs(&mut piece.text, "    ", comment, values.get("line"));
    } else {
        piece.push(about, values);
    }
    piece.push_signature(PUBLIC, values);
    if body.contains("~set~") && values.get("set").contains("DEFAULT") {
        piece.push_default("        ", values);
    }
    piece.push(body, values);
}

// Writes the calls of a group.
fn write_group(
    schema: &Schema<'_>,
    piece: &mut Piece,
    id: u64,
    is_member: bool,
    comment: &str,
    values: &mut Values,
) {
    values.put_lines("name=~call~\nparams=&mut self\ngives=~path~~module~::Builder<'_>");
    push_call(piece, comment, templates::GROUP, values);
    if is_member {
        values.put_text("zeros", zeros_of(schema, id));
        values.put_lines("name=init_~snake~");
        push_call(piece, "", templates::INIT_GROUP, values);
    }
}

// The statements that make all fields of a group zero or null.
fn zeros_of(schema: &Schema<'_>, id: u64) -> Text {
    let mut slots = Names::new(schema.alloc);
    add_group_slots(schema.alloc, schema.nodes, id, &mut slots);
    let mut zeros = Text::new(schema.alloc);
    for slot in slots.as_slice() {
        let (kind, offset) = slot.split_once(' ').unwrap_or((slot.as_str(), ""));
        zeros.push("        self.0.");
        push_zero(&mut zeros, kind, offset);
    }
    zeros.note_if_failed(slots.has_failed);
    zeros
}

// Writes the call that makes a part of a struct zero or null.
fn push_zero(to: &mut Text, kind: &str, offset: &str) {
    match kind {
        "Bit" => to.push_all(&["set_bool(", offset, ", false);\n"]),
        "Byte" => to.push_all(&["set(", offset, ", 0u8);\n"]),
        "TwoBytes" => to.push_all(&["set(", offset, ", 0u16);\n"]),
        "FourBytes" => to.push_all(&["set(", offset, ", 0u32);\n"]),
        "EightBytes" => to.push_all(&["set(", offset, ", 0u64);\n"]),
        _ => to.push_all(&["clear(", offset, ");\n"]),
    }
}
