//! What generated Rust does with a field of each type. A word between two `~` stands for what
//! `put_slot` puts there.

use crate::types::{element_type, is_list_of_structs, path_to, scalar_type};
use capnpc_schema::model::{Default, Node, Slot, Type, find_node};
use capnpc_schema::text::{Lines, Text, Values};
use capnpc_schema::types::BaseKind;
use std::alloc::Global;

/// Puts what the calls of a field have in common: `payload`, the type of its value; `fails`, a `?` if
/// reading it can be refused; `read`, which reads it, and `body`, which returns it in the form of
/// the meter; `value` and `set` of a builder's call; `const` for a default value. `from` is the
/// module of the code.
pub fn put_slot(alloc: Global, nodes: &[Node], from: u64, slot: &Slot, values: &mut Values) {
    let of = slot.of;
    values.put_number("index", u64::from(slot.offset));
    values.put("fails", "");
    values.put_text("rust", scalar_type(alloc, nodes, from, of));
    values.put_text("path", path_to(alloc, nodes, from, of.id));
    if let Some(node) = find_node(nodes, of.id) {
        values.put("item", node.item.as_str());
        values.put("module", node.module.as_str());
    }
    values.put_text("element", element_type(alloc, nodes, from, of, "'a"));
    values.put_text("built", element_type(alloc, nodes, from, of, "'_"));
    values.put_lines(form_of(of));
    put_default(alloc, of, &slot.default, values);
    let is_fallible = !values.get("fails").is_empty();
    values.put_lines(if is_fallible {
        "gives=M::Out<~payload~>\nbody=M::give(~read~)"
    } else {
        "gives=~payload~\nbody=~read~"
    });
}

// Puts what takes a default value into account.
fn put_default(alloc: Global, of: Type, default: &Default, values: &mut Values) {
    match default {
        Default::Number { literal, bits } => {
            values.put("literal", literal.as_str());
            values.put_number("bits", *bits);
            values.put_lines(number_default(of.base.kind));
        }
        Default::Bytes(bytes) => {
            values.put_text("literal", byte_string(alloc, bytes.as_slice()));
            values.put_lines("const=const DEFAULT: &[u8] = ~literal~;");
            values.put_lines(pointer_default(of));
        }
        Default::Words(bytes) => {
            values.put_text("array", byte_array(alloc, bytes.as_slice()));
            values.put_lines(pointer_default(of));
        }
        Default::Zero | Default::Unknown => {}
    }
}

// What is done with a field of a type.
fn form_of(of: Type) -> Lines {
    match of.base.kind {
        _ if is_list_of_structs(of) => LIST_OF_STRUCTS,
        _ if of.lists > 0 => LIST,
        BaseKind::Void => "",
        BaseKind::Bool => BOOL,
        BaseKind::Text => TEXT,
        BaseKind::Data => DATA,
        BaseKind::Struct => STRUCT,
        BaseKind::Capability => CAPABILITY,
        BaseKind::Pointer => POINTER,
        _ => NUMBER,
    }
}

// What is done with a number that has a default value.
fn number_default(kind: BaseKind) -> Lines {
    match kind {
        BaseKind::Bool => BOOL_OR,
        BaseKind::Float => FLOAT_OR,
        BaseKind::Enum => ENUM_OR,
        _ => NUMBER_OR,
    }
}

// What is done with a pointer that has a default value.
fn pointer_default(of: Type) -> Lines {
    match of.base.kind {
        _ if of.lists > 0 => "read=g::list_or(self.0.get_pointer(~index~), DEFAULT)",
        BaseKind::Text => TEXT_OR,
        BaseKind::Data => "read=g::data_or(self.0.get_pointer(~index~), DEFAULT)",
        _ => "read=g::struct_or(self.0.get_pointer(~index~), DEFAULT)",
    }
}

const BOOL: Lines = "payload=bool
read=self.0.get_bool(~index~)
value=bool
set=self.0.set_bool(~index~, value)";

const BOOL_OR: Lines = "read=!self.0.get_bool(~index~)
set=self.0.set_bool(~index~, !value)
shown= = true";

const NUMBER: Lines = "payload=~rust~
read=self.0.get(~index~)
value=~rust~
set=self.0.set(~index~, value)";

const NUMBER_OR: Lines = "read=self.0.get_or(~index~, ~literal~)
set=self.0.set_or(~index~, value, ~literal~)
shown= = ~literal~";

const FLOAT_OR: Lines = "const=const DEFAULT: ~rust~ = ~rust~::from_bits(~bits~);
read=self.0.get_or(~index~, DEFAULT)
set=self.0.set_or(~index~, value, DEFAULT)";

const ENUM_OR: Lines = "read=self.0.get_or(~index~, ~bits~u16.into())
set=self.0.set_or(~index~, value, ~bits~u16.into())";

const TEXT: Lines = "payload=&'a str
fails=?
read=self.0.get_text(~index~)
read_bytes=self.0.get_text_bytes(~index~)
value=&str
set=self.0.set_text(~index~, value)";

const TEXT_OR: Lines = "read=g::text_or(self.0.get_pointer(~index~), DEFAULT)
read_bytes=g::text_bytes_or(self.0.get_pointer(~index~), DEFAULT)";

const DATA: Lines = "payload=&'a [u8]
fails=?
read=self.0.get_data(~index~)
value=&[u8]
set=self.0.set_data(~index~, value)";

const STRUCT: Lines = "payload=~path~~item~<'a, M>
fails=?
read=self.0.get_struct(~index~).map(Into::into)
value=~path~~item~<'_, M>
set=self.0.set_struct(~index~, g::Struct::from(value))
gives_init=~path~~module~::Builder<'_>
init_about=Sets `~field~` to a new struct.
init=self.0.init_as(~index~)
edit_about=The struct that `~field~` leads to; a new one if it is null.
edit=self.0.edit_as(~index~)";

const CAPABILITY: Lines = "payload=Option<u32>
fails=?
read=g::capability(self.0.get_pointer(~index~))
value=u32
set=self.0.set_capability(~index~, value)";

const POINTER: Lines = "payload=g::Pointer<'a, M::Plain>
read=g::any(self.0.get_pointer(~index~))
value=g::Pointer<'_, M>
set=self.0.set_pointer(~index~, value)
gives_init=g::PointerBuilder<'_>
init_about=What `~field~` leads to.
init=g::PointerBuilder::of(self.0.reborrow(), ~index~)";

const LIST: Lines = "payload=g::List<'a, ~element~, M>
fails=?
read=self.0.get_list(~index~)
value=g::List<'_, ~built~, M>
set=self.0.set_list(~index~, value)
gives_init=g::ListBuilder<'_, ~built~>
init_about=Sets `~field~` to a new list of `count` elements.
init=self.0.init_list(~index~, count)";

const LIST_OF_STRUCTS: Lines = "payload=g::List<'a, ~element~, M>
fails=?
read=self.0.get_list(~index~)
value=g::List<'_, ~built~, M>
set=self.0.set_list(~index~, value)
gives_init=g::ListBuilder<'_, ~built~>
init_about=Sets `~field~` to a new list of `count` structs.
init=self.0.init_structs_of(~index~, count)
edit_about=The list that `~field~` leads to; one without elements if it is null.
edit=self.0.edit_structs_of(~index~)";

/// Bytes as a literal of a byte string.
pub fn byte_string(alloc: Global, bytes: &[u8]) -> Text {
    let mut literal = Text::new(alloc);
    literal.push("b\"");
    for byte in bytes {
        push_string_byte(&mut literal, *byte);
    }
    literal.push("\"");
    literal
}

// Appends a byte of a byte string.
fn push_string_byte(to: &mut Text, byte: u8) {
    match byte {
        b'"' => to.push("\\\""),
        b'\\' => to.push("\\\\"),
        b' '..=b'~' => to.push_char(char::from(byte)),
        _ => to.push_escaped_byte(byte),
    }
}

/// Bytes as the elements of an array, with `, ` between them.
pub fn byte_array(alloc: Global, bytes: &[u8]) -> Text {
    let mut items = Text::new(alloc);
    for byte in bytes {
        if !items.as_str().is_empty() {
            items.push(", ");
        }
        items.push_number(u64::from(*byte));
    }
    items
}
