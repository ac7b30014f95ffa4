//! Writes plain values of structs: the types, and what copies a reader into a value, and a value into
//! a builder.

use crate::piece::Piece;
use crate::readers::{Schema, has_default, is_void, may_be_endless};
use crate::types::{element_value, is_bytes};
use crate::unions::is_member;
use crate::value_templates;
use capnpc_schema::model::{Default, Field, FieldKind, Node, Slot, Struct, Type};
use capnpc_schema::text::{Lines, Text, Values};
use capnpc_schema::types::BaseKind;

/// Writes the value of a struct or a group, in its module.
pub fn write_value(schema: &Schema<'_>, piece: &mut Piece, node: &Node, it: &Struct) {
    let mut values = schema.node_values(node);
    put_fields(schema, node, it, &mut values);
    let has_union = it.members > 0;
    if has_union {
        values.put("which", value_templates::WHICH);
        values.put("own_which", value_templates::OWN_WHICH);
        values.put("put_which", value_templates::PUT_WHICH);
    }
    let has_fields = !values.get("owned").is_empty();
    put_literal(schema, has_union, &mut values);
    values.put("mut", if has_fields { "mut " } else { "" });
    piece.push(
        if has_fields || has_union {
            value_templates::VALUE
        } else {
            value_templates::EMPTY_VALUE
        },
        &values,
    );
    piece.push(value_templates::DEFAULT, &values);
    if !it.is_group {
        piece.push(value_templates::OWNED, &values);
    }
    if has_union {
        write_members(schema, piece, node, it);
    }
}

// The most characters of the fields of a value in one line.
const LITERAL_WIDTH: usize = 18;

// Puts the value that is read: in one line if that has one field, and is short.
fn put_literal(schema: &Schema<'_>, has_union: bool, to: &mut Values) {
    let mut literal = Text::new(schema.alloc);
    let body = to.get("owned").trim().trim_end_matches(',');
    let is_short = body.len() <= LITERAL_WIDTH && !body.contains('\n') && !has_union;
    if is_short {
        literal.push("        Value { ");
        literal.push(body);
        literal.push(" }\n");
    } else {
        literal.push_filled(value_templates::LITERAL, to);
    }
    to.put_text("literal", literal);
}

// Puts the fields of a value, how they are read, and how they are written.
fn put_fields(schema: &Schema<'_>, node: &Node, it: &Struct, to: &mut Values) {
    let mut declared = Text::new(schema.alloc);
    let mut owned = Text::new(schema.alloc);
    let mut puts = Text::new(schema.alloc);
    for field in it.fields.iter() {
        if !is_member(field) && !is_void(field) && schema.skip_reason(field).is_empty() {
            let values = value_of(schema, node, field);
            if !values.get("vtype").is_empty() {
                declared.push_filled(value_templates::FIELD, &values);
                owned.push_filled("            ~call~: ~own~,\n", &values);
                puts.push_filled(put_of(field), &values);
            }
        }
    }
    to.put_text("declared", declared);
    to.put_text("owned", owned);
    to.put_text("puts", puts);
}

// The words of a field of a value.
fn value_of(schema: &Schema<'_>, node: &Node, field: &Field) -> Values {
    let mut values = schema.field_values(node, field, node.id);
    match &field.kind {
        FieldKind::Slot(slot) => {
            let element = element_value(schema.alloc, schema.nodes, node.id, slot.of);
            values.put_text("evalue", element);
            values.put_lines(form_of(slot.of));
            if may_be_endless(field) && has_default(field) {
                values.put_lines(if slot.of.lists > 0 {
                    LIST_OR_DEFAULT
                } else {
                    STRUCT_OR_DEFAULT
                });
            }
        }
        _ => values.put_lines(GROUP),
    }
    values
}

// Whether the type has values: whether nothing in it is a pointer of any kind, or a list of capabilities.
fn has_value(of: Type) -> bool {
    match of.base.kind {
        BaseKind::Pointer => false,
        BaseKind::Capability => of.lists == 0,
        _ => true,
    }
}

// What is done with a field of a type: `vtype`, the type of its value, and `own`, which reads it; the same
// for a member of a union, `mtype` and `mown`.
fn form_of(of: Type) -> Lines {
    match of.base.kind {
        _ if !has_value(of) => "vtype=\nmtype=",
        _ if of.lists > 0 => LIST,
        BaseKind::Text | BaseKind::Data => BYTES,
        BaseKind::Struct => STRUCT,
        BaseKind::Capability => "vtype=Option<u32>\nown=it.~call~()\nmtype=~vtype~\nmown=member",
        _ => "vtype=~payload~\nown=it.~call~()\nmtype=~payload~\nmown=member",
    }
}

const GROUP: Lines = "vtype=~path~~module~::Value
own=it.~call~().into()
mtype=~vtype~
mown=member.into()";

const LIST: Lines = "vtype=~evalue~
own=g::own_list(it.~call~())
mtype=~evalue~
mown=g::own_list(member)";

const BYTES: Lines = "vtype=~evalue~
own=it.~call~().into()
mtype=~evalue~
mown=member.into()";

const STRUCT: Lines = "vtype=Option<g::Box<~evalue~>>
own=g::boxed(it.0.has(~index~), it.~call~())
mtype=~vtype~
mown=g::boxed(it.0.has(~index~), member)";

const STRUCT_OR_DEFAULT: Lines = "own=g::boxed_or_default(&it.0, ~index~, it.~call~())
mown=g::boxed_or_default(&it.0, ~index~, member)";

const LIST_OR_DEFAULT: Lines = "own=g::own_list_or_default(&it.0, ~index~, it.~call~())
mown=g::own_list_or_default(&it.0, ~index~, member)";

// How a field of a value is written. An empty text or list that has no default value is left out.
fn put_of(field: &Field) -> &'static str {
    match &field.kind {
        FieldKind::Slot(slot) => put_of_slot(slot),
        _ => value_templates::PUT_GROUP,
    }
}

// How a field is written that isn't a group.
fn put_of_slot(slot: &Slot) -> &'static str {
    let is_null_by_default = matches!(slot.default, Default::Zero);
    match slot.of.base.kind {
        _ if slot.of.lists > 0 && is_null_by_default => value_templates::PUT_SOME_LIST,
        _ if slot.of.lists > 0 => value_templates::PUT_LIST,
        _ if is_bytes(slot.of) && is_null_by_default => value_templates::PUT_SOME_BYTES,
        _ if is_bytes(slot.of) => value_templates::PUT_BYTES,
        BaseKind::Struct => value_templates::PUT_STRUCT,
        BaseKind::Capability => value_templates::PUT_CAPABILITY,
        _ => value_templates::PUT_NUMBER,
    }
}

// Writes the members of a union as values.
fn write_members(schema: &Schema<'_>, piece: &mut Piece, node: &Node, it: &Struct) {
    let mut declared = Text::new(schema.alloc);
    let mut owned = Text::new(schema.alloc);
    let mut puts = Text::new(schema.alloc);
    for field in it.fields.iter() {
        if is_member(field) && schema.skip_reason(field).is_empty() {
            let mut values = value_of(schema, node, field);
            values.put_number("tag", u64::from(it.tag_offset));
            let forms = forms_of_member(field, &values);
            declared.push_filled(forms.declared, &values);
            push_owned(schema, piece, forms, &values, &mut owned);
            puts.push_filled(forms.put, &values);
        }
    }
    let mut values = schema.node_values(node);
    values.put_number("tag", u64::from(it.tag_offset));
    values.put_text("declared", declared);
    values.put_text("owned", owned);
    values.put_text("puts", puts);
    piece.push(value_templates::WHICH_VALUE, &values);
}

// Appends the arm of a member that is read: in three lines if one is too long.
fn push_owned(
    schema: &Schema<'_>,
    piece: &Piece,
    forms: MemberForms,
    values: &Values,
    owned: &mut Text,
) {
    let mut line = Text::new(schema.alloc);
    line.push_filled(forms.owned, values);
    if piece.has_room_for(&line) {
        owned.append(&line);
    } else {
        owned.push_filled(forms.long, values);
    }
}

// The templates of a member of a union: its variant, how it is read, in one line and in three, and how
// it is written.
#[derive(Clone, Copy)]
struct MemberForms {
    declared: &'static str,
    owned: &'static str,
    long: &'static str,
    put: &'static str,
}

// The templates of a member. One that has no value is only named.
fn forms_of_member(field: &Field, values: &Values) -> MemberForms {
    if is_void(field) {
        return MemberForms {
            declared: "    /// `~line~`\n    ~variant~,\n",
            owned: value_templates::OWN_VOID,
            long: value_templates::OWN_VOID_LONG,
            put: value_templates::MEMBER_VOID,
        };
    }
    if values.get("mtype").is_empty() {
        return MemberForms {
            declared: "    /// `~line~`, which has no plain value\n    ~variant~,\n",
            owned: value_templates::OWN_TAG,
            long: value_templates::OWN_TAG_LONG,
            put: value_templates::MEMBER_TAG,
        };
    }
    MemberForms {
        declared: "    /// `~line~`\n    ~variant~(~mtype~),\n",
        owned: value_templates::OWN_MEMBER,
        long: value_templates::OWN_MEMBER_LONG,
        put: put_of_member(field),
    }
}

// How a member with a value is written.
fn put_of_member(field: &Field) -> &'static str {
    match &field.kind {
        FieldKind::Slot(slot) => match slot.of.base.kind {
            _ if slot.of.lists > 0 => value_templates::MEMBER_LIST,
            BaseKind::Text | BaseKind::Data => value_templates::MEMBER_BYTES,
            BaseKind::Struct => value_templates::MEMBER_STRUCT,
            BaseKind::Capability => value_templates::MEMBER_CAPABILITY,
            _ => value_templates::MEMBER_NUMBER,
        },
        _ => value_templates::MEMBER_GROUP,
    }
}
