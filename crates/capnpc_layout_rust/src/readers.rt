//! Writes readers of structs.

use crate::docs::push_docs;
use crate::forms::put_slot;
use crate::naming::{accessor, call_name};
use crate::paths::push_path;
use crate::piece::{PUBLIC, Piece};
use crate::templates;
use crate::types::{lacking_in_rust, path_to};
use crate::unions::{is_fallible, is_member, push_which_call};
use capnpc_schema::model::{
    Default, Field, FieldKind, Node, Slot, Struct, find_node, lacking, type_name,
};
use capnpc_schema::table::Table;
use capnpc_schema::text::{Lines, Text, Values};
use capnpc_schema::types::BaseKind;
use std::alloc::Global;

// The 16 hexadecimal digits of an id.
fn digits_of(alloc: Global, id: u64) -> Text {
    let mut digits = Text::new(alloc);
    match format!(in alloc; "{id:016x}") {
        Ok(text) => digits.push(text.as_str()),
        Err(_) => digits.note_if_failed(true),
    }
    digits
}

/// A schema as it is printed.
#[derive(Drop)]
pub struct Schema<'m> {
    /// Where memory comes from.
    pub alloc: Global,
    /// All declarations.
    pub nodes: &'m [Node],
    /// What isn't written, and why: a line for each.
    pub skipped: Text,
    /// Whether structs have plain values.
    pub has_values: bool,
    /// The id of the file that is written.
    pub file: u64,
    /// What the pointers of the file's structs may lead to, and of those that they lead to.
    pub table: Table,
}

impl<'m> Schema<'m> {
    /// The words of a declaration.
    pub fn node_values(&self, node: &Node) -> Values {
        let mut values = Values::new(self.alloc);
        values.put("full", node.full.as_str());
        values.put("type", node.item.as_str());
        values.put("own", node.module.as_str());
        values
    }

    /// The words of a field, for code of the module `from`.
    pub fn field_values(&self, node: &Node, field: &Field, from: u64) -> Values {
        let mut values = self.node_values(node);
        values.put("field", field.name.as_str());
        values.put("snake", field.snake.as_str());
        values.put_text("call", accessor(self.alloc, field));
        let bytes_call = call_name(self.alloc, "", field.snake.as_str(), "_bytes");
        values.put_text("bytes_call", bytes_call);
        values.put("variant", field.variant.as_str());
        values.put_number("number", u64::from(field.discriminant));
        if let FieldKind::Slot(slot) = &field.kind {
            put_slot(self.alloc, self.nodes, from, slot, &mut values);
        }
        if let FieldKind::Group(id) = &field.kind {
            values.put_text("path", path_to(self.alloc, self.nodes, from, *id));
            if let Some(group) = find_node(self.nodes, *id) {
                values.put("item", group.item.as_str());
                values.put("module", group.module.as_str());
            }
        }
        values.put_text("line", self.field_line(field, values.get("shown")));
        values
    }

    // How a schema declares a field.
    fn field_line(&self, field: &Field, shown: &str) -> Text {
        let mut line = Text::new(self.alloc);
        line.push(field.name.as_str());
        line.push(" ");
        if let Some(ordinal) = field.ordinal {
            line.push("@");
            line.push_number(u64::from(ordinal));
            line.push(" ");
        }
        line.push(":");
        if let FieldKind::Slot(slot) = &field.kind {
            line.append(&type_name(self.alloc, self.nodes, slot.of));
        } else {
            line.push("group");
        }
        line.push(shown);
        line
    }

    /// Why a field has no calls; empty if it has some.
    pub fn skip_reason(&self, field: &Field) -> &'static str {
        match &field.kind {
            FieldKind::Unknown => "its type is unknown",
            FieldKind::Group(id) => match find_node(self.nodes, *id) {
                Some(_) => "",
                None => "its group is unknown",
            },
            FieldKind::Slot(slot) => {
                let why = lacking(self.nodes, slot);
                if why.is_empty() {
                    return lacking_in_rust(slot.of, &slot.default);
                }
                why
            }
        }
    }

    /// Notes a declaration or a field that isn't written.
    pub fn skip(&mut self, name: &str, why: &str) {
        self.skipped
            .push_all(&[name, " isn't written: ", why, "\n"]);
    }

    /// Writes the reader of a struct or a group, in the module around its own.
    pub fn write_reader(&mut self, node: &Node, it: &Struct, depth: usize) -> Piece {
        let mut piece = Piece::new(self.alloc, depth);
        let mut values = self.node_values(node);
        put_allow(depth, &mut values);
        self.write_getters(&mut piece, node, it);
        let getters = piece.take();
        push_docs(
            &mut piece.text,
            "",
            node.comment.as_str(),
            node.full.as_str(),
        );
        piece.push(templates::READER, &values);
        piece.push_impl(templates::READER_IMPL, &getters, &values);
        piece.push(templates::FROM_STRUCT, &values);
        if !it.is_group {
            self.write_element(&mut piece, node);
            values.put_text("id", digits_of(self.alloc, node.id));
            self.put_row(node, &mut values);
            piece.push(templates::STRUCT_TYPE, &values);
        }
        self.write_debug(&mut piece, node, it);
        piece
    }

    // Writes the calls of a reader.
    fn write_getters(&mut self, piece: &mut Piece, node: &Node, it: &Struct) {
        for (i, field) in it.fields.iter().enumerate() {
            let why = self.skip_reason(field);
            if !why.is_empty() {
                self.skip_field(piece, node, field, why);
            } else if !is_member(field) {
                let comment = comment_of(node, i);
                let mut values = self.field_values(node, field, node.scope);
                write_getter(piece, field, comment, &mut values);
            } else {
                let mut values = self.field_values(node, field, node.scope);
                values.put_number("tag", u64::from(it.tag_offset));
                write_member_has(piece, field, &mut values);
            }
        }
        if it.members > 0 {
            push_which_call(self, piece, node, it);
        }
    }

    // Writes a comment in place of a field's calls, and notes that.
    fn skip_field(&mut self, piece: &mut Piece, node: &Node, field: &Field, why: &'static str) {
        let mut name = Text::new(self.alloc);
        name.push_all(&[node.full.as_str(), ".", field.name.as_str()]);
        self.skip(name.as_str(), why);
        piece.begin_item();
        piece.text.push_all(&[
            "    // ",
            field.name.as_str(),
            " isn't written: ",
            why,
            ".\n",
        ]);
    }

    // Writes that a reader is what elements of a list are read as.
    fn write_element(&self, piece: &mut Piece, node: &Node) {
        let mut values = self.node_values(node);
        piece.push(templates::ELEMENT, &values);
        values.put_lines(templates::READ);
        piece.push_signature("    fn read<'a, M: g::Meter>(", &values);
        piece.push(templates::ELEMENT_END, &values);
    }

    // Puts the row of a struct in the table of its file, and the module of the table.
    fn put_row(&self, node: &Node, values: &mut Values) {
        let row = self.table.row_of(node.id).unwrap_or(0);
        values.put_number("row", u64::from(row));
        let mut path = Text::new(self.alloc);
        push_path(self.alloc, self.nodes, node.scope, self.file, &mut path);
        values.put_text("top", path);
    }

    // Writes what `{:?}` shows of a struct.
    fn write_debug(&self, piece: &mut Piece, node: &Node, it: &Struct) {
        let values = self.node_values(node);
        piece.push(templates::DEBUG_HEAD, &values);
        for field in it.fields.iter() {
            if self.skip_reason(field).is_empty() && !is_member(field) && !is_void(field) {
                let mut values = self.field_values(node, field, node.scope);
                let is_result = !values.get("fails").is_empty();
                values.put_lines(if may_be_endless(field) {
                    show_endless(field)
                } else if is_result {
                    SHOW_RESULT
                } else {
                    SHOW
                });
                piece.push_shown("        ", field.name.as_str(), values.get("show"));
            }
        }
        if it.members > 0 {
            self.write_debug_of_union(piece, node, it);
        }
        piece.push(templates::DEBUG_END, &values);
    }

    // Writes what `{:?}` shows of a union. A member that may be without end isn't followed if it is null.
    fn write_debug_of_union(&self, piece: &mut Piece, node: &Node, it: &Struct) {
        let mut is_first = true;
        for field in it.fields.iter() {
            if self.skip_reason(field).is_empty() && is_member(field) && may_be_endless(field) {
                let mut values = self.field_values(node, field, node.scope);
                values.put_number("tag", u64::from(it.tag_offset));
                values.put_lines("show=&g::null(\"~variant~\")");
                values.put_lines(has_of(field));
                values.put("before", if is_first { "        " } else { " else " });
                piece.push(templates::DEBUG_NULL, &values);
                piece.push_shown("            ", "which", values.get("show"));
                piece.push("        }", &values);
                is_first = false;
            }
        }
        let read = if is_fallible(it) {
            "&g::shown(self.which())"
        } else {
            "&self.which()"
        };
        if is_first {
            piece.push_shown("        ", "which", read);
        } else {
            piece.text.push(" else {\n");
            piece.push_shown("            ", "which", read);
            piece.text.push("        }\n");
        }
    }
}

// The test whether a field that may be without end is followed: whether it isn't null, or has a default value
// in a reader of a message.
fn has_of(field: &Field) -> Lines {
    if has_default(field) {
        "has=g::has_or_default(&self.0, ~index~)"
    } else {
        "has=self.0.has(~index~)"
    }
}

// How a field is shown that may be without end.
fn show_endless(field: &Field) -> Lines {
    if has_default(field) {
        "show=&g::shown_or_default(&self.0, ~index~, self.~call~())"
    } else {
        "show=&g::shown_struct(self.0.has(~index~), self.~call~())"
    }
}

/// Whether a field has a default value other than null or zero.
pub fn has_default(field: &Field) -> bool {
    match &field.kind {
        FieldKind::Slot(slot) => !matches!(slot.default, Default::Zero),
        _ => false,
    }
}

/// Whether what a null pointer of this field is read as may have the same field, without end: whether it is a
/// struct, or a list of structs with a default value.
pub fn may_be_endless(field: &Field) -> bool {
    match &field.kind {
        FieldKind::Slot(slot) if matches!(slot.of.base.kind, BaseKind::Struct) => {
            slot.of.lists == 0 || has_default(field)
        }
        _ => false,
    }
}

// How a field is shown.
const SHOW: &str = "show=&self.~call~()";

// How a field is shown whose call may return a `Result`.
const SHOW_RESULT: &str = "show=&g::shown(self.~call~())";

/// Puts what is before an item inside of this many modules.
pub fn put_allow(depth: usize, values: &mut Values) {
    values.put("allow", if depth == 0 { templates::ALLOW } else { "" });
}

/// The comment of a field or enumerant; empty if there is none.
pub fn comment_of(node: &Node, index: usize) -> &str {
    match node.comments.get(index) {
        Some(comment) => comment.as_str(),
        None => "",
    }
}

/// Whether a field has no value.
pub fn is_void(field: &Field) -> bool {
    match &field.kind {
        FieldKind::Slot(slot) => slot.of.is_void(),
        _ => false,
    }
}

// Writes the calls of a field's reader.
fn write_getter(piece: &mut Piece, field: &Field, comment: &str, values: &mut Values) {
    match &field.kind {
        FieldKind::Group(_) => {
            values.put_lines(
                "name=~call~\nparams=&self\ngives=~path~~item~<'a, M>\nbody=self.0.into()",
            );
            push_getter(piece, comment, values);
        }
        FieldKind::Slot(slot) if !slot.of.is_void() => {
            values.put_lines("name=~call~\nparams=&self");
            push_getter(piece, comment, values);
            write_bytes_and_has(piece, slot, values);
        }
        _ => {}
    }
}

// Writes a call that reads a field.
fn push_getter(piece: &mut Piece, comment: &str, values: &Values) {
    piece.begin_item();
    push_docs(&mut piece.text, "    ", comment, values.get("line"));
    piece.push_signature(PUBLIC, values);
    piece.push_default("        ", values);
    piece.push("        ~body~\n    }\n", values);
}

// Writes the other calls of a pointer.
fn write_bytes_and_has(piece: &mut Piece, slot: &Slot, values: &mut Values) {
    if !values.get("read_bytes").is_empty() {
        piece.begin_item();
        piece.push(
            "    /// The bytes of `~field~`, which needn't be UTF-8.\n",
            values,
        );
        values.put_lines("name=~bytes_call~\ngives=M::Out<&'a [u8]>");
        piece.push_signature(PUBLIC, values);
        piece.push_default("        ", values);
        piece.push("        M::give(~read_bytes~)\n    }\n", values);
    }
    if slot.of.is_pointer() {
        values.put_lines("about=Whether `~field~` isn't null.\nread=self.0.has(~index~)");
        push_has(piece, values);
    }
}

// Writes the call that says whether a member of a union is set, and isn't null, if it is a pointer.
fn write_member_has(piece: &mut Piece, field: &Field, values: &mut Values) {
    if let FieldKind::Slot(slot) = &field.kind
        && slot.of.is_pointer()
    {
        values.put_lines(MEMBER_HAS);
        push_has(piece, values);
    }
}

// What the call of a member is.
const MEMBER_HAS: &str = "about=Whether `~field~` is the member that is set, and isn't null.
params=&self
read=self.0.get::<u16>(~tag~) == ~number~ && self.0.has(~index~)";

// Writes a call that says whether a pointer isn't null.
fn push_has(piece: &mut Piece, values: &mut Values) {
    piece.begin_item();
    values.put_lines("name=has_~snake~\ngives=bool");
    piece.push("    /// ~about~\n", values);
    piece.push_signature(PUBLIC, values);
    piece.push("        ~read~\n    }\n", values);
}
