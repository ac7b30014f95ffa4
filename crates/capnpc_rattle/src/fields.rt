//! What readers and builders of a field have in common.

use crate::forms::{reader_of_list, size_of_elements};
use crate::names::{ENUM_WORDS, VARIANT_WORDS};
use crate::output::Output;
use crate::writing::Module;
use capnpc_schema::model::{Default, Node, NodeKind, Slot, lacking, type_name};
use capnpc_schema::names::capitalized;
use capnpc_schema::text::{Text, Values};
use capnpc_schema::types::BaseKind;
use std::alloc::Global;

/// Puts what the calls of a field have in common: its type and its place, and its default value.
pub fn put_slot(output: &Output<'_>, slot: &Slot, values: &mut Values) {
    let base = slot.of.base;
    let offset = u64::from(slot.offset);
    values.put_text("of", type_name(output.alloc, output.nodes, slot.of));
    values.put_number("index", offset);
    values.put_number("bits", base.bits);
    values.put_number("bit", offset.saturating_mul(base.bits));
    values.put("rust", base.rust);
    let element = slot.of.element();
    values.put_lines(size_of_elements(element));
    values.put_lines(reader_of_list(element));
    match &slot.default {
        Default::Number { literal, bits } => {
            values.put("literal", literal.as_str());
            values.put_number("mask", *bits);
        }
        Default::Bytes(bytes) | Default::Words(bytes) => {
            values.put_text("numbers", byte_list_literal(output.alloc, bytes.as_slice()));
            values.put_text(
                "literal",
                byte_string_literal(output.alloc, bytes.as_slice()),
            );
        }
        Default::Zero | Default::Unknown => {}
    }
}

/// Puts what names the declaration of a struct or an enum, and notes that the module does.
pub fn put_declared(module: &mut Module, node: &Node, values: &mut Values) {
    module.put_path(node.module.as_str(), values);
    put_names(module, node, values);
}

/// Puts the same, except for the path.
pub fn put_names(module: &mut Module, node: &Node, values: &mut Values) {
    let of = node.module.as_str();
    values.put("module", of);
    if let NodeKind::Enum(names) = &node.kind {
        module.numbers.add_once(module.alloc, of);
        values.put_text("enum", enum_type_name(module.alloc, node));
        values.put_number("count", names.len() as u64);
    }
}

/// Writes the comment of a field's call.
pub fn push_field_comment(module: &mut Module, ordinal: Option<u16>, values: &Values) {
    module.body.push_filled("    /// ~name~ ", values);
    if let Some(ordinal) = ordinal {
        module.body.push("@");
        module.body.push_number(u64::from(ordinal));
        module.body.push(" ");
    }
    module.body.push_filled(":~of~\n", values);
}

/// Writes a comment in place of a call.
pub fn push_skip_comment(module: &mut Module, why: &str, values: &mut Values) {
    values.put("why", why);
    module.begin_item();
    module
        .body
        .push_filled("    // ~name~ isn't written: ~why~.\n", values);
}

/// The name of an enum: the last part of its full name.
pub fn enum_type_name(alloc: Global, node: &Node) -> Text {
    let full = node.full.as_str();
    let (_, last) = full.rsplit_once('.').unwrap_or(("", full));
    let mut name = capitalized(alloc, last);
    if VARIANT_WORDS.contains(&name.as_str()) || ENUM_WORDS.contains(&name.as_str()) {
        name.push_char('_');
    }
    name
}

/// Why a field has no getter; empty if it has one.
pub fn skip_reason(nodes: &[Node], slot: &Slot) -> &'static str {
    if matches!(slot.default, Default::Words(_))
        && slot.of.lists == 0
        && !matches!(slot.of.base.kind, BaseKind::Struct)
    {
        return "it has a default value, and can lead to anything";
    }
    lacking(nodes, slot)
}

/// Bytes as a literal of Rust's that is a byte string.
pub fn bytes_literal(alloc: Global, bytes: &[u8]) -> Text {
    let mut literal = Text::new(alloc);
    literal.push("b\"");
    for byte in bytes {
        literal.push_escaped_byte(*byte);
    }
    literal.push("\"");
    literal
}

/// A text as a literal of Rust's; `None` if it isn't UTF-8.
pub fn text_literal(alloc: Global, bytes: &[u8]) -> Option<Text> {
    let text = str::from_utf8(bytes).ok()?;
    let mut literal = Text::new(alloc);
    literal.push("\"");
    for c in text.chars() {
        match c {
            '"' | '\\' => {
                literal.push("\\");
                literal.push_char(c);
            }
            '\x00'..='\x1f' | '\x7f' => literal.push_escaped_byte(c as u8),
            _ => literal.push_char(c),
        }
    }
    literal.push("\"");
    Some(literal)
}

// Bytes as a list of the prover's.
fn byte_list_literal(alloc: Global, bytes: &[u8]) -> Text {
    let mut numbers = Text::new(alloc);
    for byte in bytes {
        numbers.push_number(u64::from(*byte));
        numbers.push(" ∷ ");
    }
    numbers.push("[]");
    numbers
}

// Bytes as a literal of Rust's, in the layout of `rt fmt` after `let default =`.
fn byte_string_literal(alloc: Global, bytes: &[u8]) -> Text {
    let mut literal = Text::new(alloc);
    let fits = bytes.len() <= 18;
    literal.push(if fits { " b\"" } else { "\n            b\"" });
    for byte in bytes {
        literal.push_escaped_byte(*byte);
    }
    literal.push("\"");
    literal
}
