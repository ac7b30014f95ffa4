//! Writes the calls of structs that read.

use crate::comments::push_comment;
use crate::files::Files;
use crate::forms::put_slot;
use crate::members::{is_member, is_pointer};
use crate::templates;
use capnpc_schema::model::{Field, FieldKind, Node, Slot, Struct, find_node, lacking, type_name};
use capnpc_schema::table::Table;
use capnpc_schema::text::{Lines, Text, Values};
use capnpc_schema::types::BaseKind;
use std::alloc::Global;

/// A schema as it is printed.
#[derive(Drop)]
pub struct Schema<'m> {
    /// Where memory comes from.
    pub alloc: Global,
    /// All declarations.
    pub nodes: &'m [Node],
    /// The text of the file.
    pub text: Text,
    /// What isn't written, and why: a line for each.
    pub skipped: Text,
    /// The digits of the file's id.
    pub file_id: Text,
    /// The table of the file's structs.
    pub table: Table,
    /// The id of the file.
    pub file: u64,
    /// The files whose headers it includes.
    pub includes: Files,
}

impl<'m> Schema<'m> {
    /// Appends a template to the file.
    pub fn push(&mut self, template: &str, values: &Values) {
        self.text.push_filled(template, values);
    }

    /// The words of a declaration.
    pub fn node_values(&self, node: &Node) -> Values {
        let mut values = Values::new(self.alloc);
        values.put("full", node.full.as_str());
        values.put("type", node.item.as_str());
        values
    }

    /// The words of a field: if it is a member of a union, with what looks at the tag, and what sets it.
    pub fn field_values(&self, node: &Node, it: &Struct, field: &Field) -> Values {
        let mut values = self.node_values(node);
        values.put("field", field.name.as_str());
        values.put("name", field.snake.as_str());
        values.put_lines(ALWAYS);
        if is_member(field) {
            values.put_number("tag", tag_of(it));
            values.put_number("discriminant", u64::from(field.discriminant));
            values.put_lines(TAGGED);
            values.put_text("member", filled(self.alloc, templates::MEMBER, &values));
            let source = filled(self.alloc, templates::SOURCE_MEMBER, &values);
            values.put_text("source_member", source);
            values.put_text("tagged", filled(self.alloc, "~tagged_line~\n", &values));
        }
        match &field.kind {
            FieldKind::Slot(slot) => put_slot(self.alloc, self.nodes, slot, &mut values),
            FieldKind::Group(id) => self.put_group(*id, &mut values),
            FieldKind::Unknown => {}
        }
        values.put_text("line", self.field_line(field, values.get("shown")));
        values
    }

    // Puts what a group is.
    fn put_group(&self, id: u64, values: &mut Values) {
        if let Some(group) = find_node(self.nodes, id) {
            values.put("gives", group.item.as_str());
            values.put_lines(GROUP);
        }
    }

    // How a schema declares a field.
    fn field_line(&self, field: &Field, shown: &str) -> Text {
        let mut line = Text::new(self.alloc);
        line.push(field.name.as_str());
        line.push(" ");
        if let Some(ordinal) = field.ordinal {
            line.push("@");
            line.push_number(u64::from(ordinal));
            line.push(" ");
        }
        line.push(":");
        if let FieldKind::Slot(slot) = &field.kind {
            line.append(&type_name(self.alloc, self.nodes, slot.of));
        } else {
            line.push("group");
        }
        line.push(shown);
        line
    }

    /// Why a field has no calls; empty if it has some.
    pub fn skip_reason(&self, field: &Field) -> &'static str {
        match &field.kind {
            FieldKind::Unknown => "its type is unknown",
            FieldKind::Group(id) => match find_node(self.nodes, *id) {
                Some(_) => "",
                None => "its group is unknown",
            },
            FieldKind::Slot(slot) => lacking(self.nodes, slot),
        }
    }

    /// Writes a comment in place of calls, and notes that.
    pub fn skip(&mut self, node: &Node, field: &str, why: &str) {
        let mut name = Text::new(self.alloc);
        name.push(node.full.as_str());
        if !field.is_empty() {
            name.push_all(&[".", field]);
        }
        name.push_all(&[" isn't written: ", why]);
        self.text.push("\n");
        let mut line = Text::new(self.alloc);
        line.push_all(&[name.as_str(), "."]);
        push_comment(&mut self.text, "", line.as_str());
        self.skipped.push_all(&[name.as_str(), "\n"]);
    }

    /// Writes the calls of a field that read.
    pub fn write_getters(&mut self, field: &Field, comment: &str, values: &Values) {
        match &field.kind {
            FieldKind::Group(_) => {
                self.begin_call(comment, values);
                self.push(templates::GET_WRAPPED, values);
            }
            FieldKind::Slot(slot) if !slot.of.is_void() => {
                if !values.get("array").is_empty() {
                    self.text.push("\n");
                    self.push(templates::DEFAULT, values);
                }
                self.begin_call(comment, values);
                self.write_slot(slot, values);
            }
            _ => {}
        }
    }

    // Writes the calls of a field that isn't a group.
    fn write_slot(&mut self, slot: &Slot, values: &Values) {
        let is_capability = matches!(slot.of.base.kind, BaseKind::Capability);
        self.push(
            if is_capability && slot.of.lists == 0 {
                templates::GET_CAPABILITY
            } else if values.get("wrapped").is_empty() {
                templates::GET
            } else {
                templates::GET_WRAPPED
            },
            values,
        );
        if is_pointer(slot.of) {
            self.push(templates::HAS, values);
        }
    }

    /// Writes the comment of a call.
    pub fn begin_call(&mut self, comment: &str, values: &Values) {
        self.text.push("\n");
        push_comment(&mut self.text, comment, values.get("line"));
    }
}

// What is read, and what is copied.
const ALWAYS: Lines = "from=&of->reader
whole=of->reader
source=&source->reader";

// The same of a member, and the statement that sets its tag.
const TAGGED: Lines = "from=&member
whole=member
source=&member
tagged_line=    capnp_set_u16(&of->it, ~tag~, ~discriminant~, 0);";

// What is done with a group.
const GROUP: Lines = "verb=get_
built=~gives~_builder
read=~whole~";

/// Where the tag of a struct's union is, in bytes.
pub fn tag_of(it: &Struct) -> u64 {
    u64::from(it.tag_offset).saturating_mul(2)
}

/// A template, filled.
pub fn filled(alloc: Global, template: &str, values: &Values) -> Text {
    let mut text = Text::new(alloc);
    text.push_filled(template, values);
    text
}

/// The comment of a field or enumerant; empty if there is none.
pub fn comment_of(node: &Node, index: usize) -> &str {
    match node.comments.get(index) {
        Some(comment) => comment.as_str(),
        None => "",
    }
}
