//! Writes unions.

use crate::docs::push_docs;
use crate::piece::Piece;
use crate::readers::{Schema, comment_of, is_void};
use crate::templates;
use capnpc_schema::model::{Field, FieldKind, NO_DISCRIMINANT, Node, Struct};
use capnpc_schema::types::BaseKind;

/// Whether a field is a member of its struct's union.
pub fn is_member(field: &Field) -> bool {
    field.discriminant != NO_DISCRIMINANT
}

/// Whether saying which member is set can be refused: whether one is a pointer that is followed.
pub fn is_fallible(it: &Struct) -> bool {
    for field in it.fields.iter() {
        if is_member(field) && is_followed(field) {
            return true;
        }
    }
    false
}

// Whether a field is a pointer that its call follows.
fn is_followed(field: &Field) -> bool {
    match &field.kind {
        FieldKind::Slot(slot) => {
            let is_any = slot.of.lists == 0 && matches!(slot.of.base.kind, BaseKind::Pointer);
            slot.of.is_pointer() && !is_any
        }
        _ => false,
    }
}

/// What parameters the type of a union has: `'a` and `M`, `'a`, or none.
pub fn parameters(schema: &Schema<'_>, it: &Struct) -> &'static str {
    let mut found = "";
    for field in it.fields.iter() {
        if is_member(field) && schema.skip_reason(field).is_empty() {
            match &field.kind {
                FieldKind::Group(_) => return "<'a, M>",
                FieldKind::Slot(slot) if has_meter(slot.of.lists, slot.of.base.kind) => {
                    return "<'a, M>";
                }
                FieldKind::Slot(slot)
                    if matches!(slot.of.base.kind, BaseKind::Text | BaseKind::Data) => {
                    found = "<'a>";
                }
                _ => {}
            }
        }
    }
    found
}

// Whether the value of a type has a meter.
fn has_meter(lists: u32, kind: BaseKind) -> bool {
    lists > 0 || matches!(kind, BaseKind::Struct | BaseKind::Pointer)
}

/// Writes the call that says which member is set.
pub fn push_which_call(schema: &Schema<'_>, piece: &mut Piece, node: &Node, it: &Struct) {
    let mut values = schema.node_values(node);
    values.put_number("tag", u64::from(it.tag_offset));
    values.put("parameters", parameters(schema, it));
    let is_result = is_fallible(it);
    piece.begin_item();
    piece.push(
        if is_result {
            templates::WHICH_RESULT
        } else {
            templates::WHICH
        },
        &values,
    );
    for field in it.fields.iter() {
        if is_member(field) && schema.skip_reason(field).is_empty() {
            push_arm(schema, piece, node, field);
        }
    }
    piece.push(
        if is_result {
            templates::WHICH_RESULT_END
        } else {
            templates::WHICH_END
        },
        &values,
    );
}

// Writes the arm of a member.
fn push_arm(schema: &Schema<'_>, piece: &mut Piece, node: &Node, field: &Field) {
    let mut values = schema.field_values(node, field, node.scope);
    values.put("filled", "");
    if let FieldKind::Group(_) = &field.kind {
        values.put_lines("filled=(self.0.into())");
    } else if !is_void(field) {
        values.put_lines("filled=(~read~~fails~)");
    }
    if values.get("const").is_empty() && values.get("array").is_empty() {
        piece.push(
            "            ~number~ => ~own~::Which::~variant~~filled~,\n",
            &values,
        );
        return;
    }
    piece.push("            ~number~ => {\n", &values);
    piece.push_default("                ", &values);
    piece.push(
        "                ~own~::Which::~variant~~filled~\n            }\n",
        &values,
    );
}

/// Writes the type of a union, in the module of its struct or group.
pub fn push_which_type(schema: &Schema<'_>, piece: &mut Piece, node: &Node, it: &Struct) {
    let mut values = schema.node_values(node);
    values.put(
        "parameters",
        match parameters(schema, it) {
            "<'a, M>" => "<'a, M: g::Meter = g::Typed>",
            other => other,
        },
    );
    piece.push(templates::WHICH_TYPE, &values);
    for (i, field) in it.fields.iter().enumerate() {
        if is_member(field) && schema.skip_reason(field).is_empty() {
            push_variant(schema, piece, node, field, comment_of(node, i));
        }
    }
    piece.push(templates::WHICH_TYPE_END, &values);
}

// Writes the variant of a member.
fn push_variant(schema: &Schema<'_>, piece: &mut Piece, node: &Node, field: &Field, comment: &str) {
    let mut values = schema.field_values(node, field, node.id);
    values.put("filled", "");
    if let FieldKind::Group(_) = &field.kind {
        values.put_lines("filled=(~path~~item~<'a, M>)");
    } else if !is_void(field) {
        values.put_lines("filled=(~payload~)");
    }
    push_docs(&mut piece.text, "    ", comment, values.get("line"));
    piece.push("    ~variant~~filled~,\n", &values);
}
