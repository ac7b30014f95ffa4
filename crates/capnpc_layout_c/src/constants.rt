//! Writes constants.

use crate::bytes::byte_array;
use crate::comments::push_comment;
use crate::forms::{literal_of, put_type};
use crate::members::is_wrapped;
use crate::readers::Schema;
use capnpc_schema::model::{Constant, Default, Node, Type, find_node, type_name};
use capnpc_schema::text::{Lines, Values};
use capnpc_schema::types::BaseKind;

impl<'m> Schema<'m> {
    /// Why a constant isn't written; empty if it is.
    pub fn lacking_of_constant(&self, constant: &Constant) -> &'static str {
        let of = constant.of;
        match of.base.kind {
            BaseKind::Void if of.lists == 0 => "it has no value",
            BaseKind::Capability | BaseKind::Pointer if of.lists == 0 => "its type is any pointer",
            BaseKind::Struct if find_node(self.nodes, of.id).is_none() => "its type is unknown",
            _ => match &constant.value {
                Default::Unknown => "its value is unknown",
                _ => "",
            },
        }
    }

    /// Writes a constant.
    pub fn write_constant(&mut self, node: &Node, constant: &Constant) {
        let of = constant.of;
        let mut values = self.node_values(node);
        values.put_text("of", type_name(self.alloc, self.nodes, of));
        values.put_lines("line=const ~full~ :~of~\nmissing=0");
        put_type(self.nodes, of, &mut values);
        put_value(self, constant, &mut values);
        self.text.push("\n");
        push_comment(&mut self.text, node.comment.as_str(), values.get("line"));
        values.put_lines(type_of_constant(of));
        self.push(template_of(of), &values);
    }
}

// Puts the value of a constant.
fn put_value(schema: &Schema<'_>, constant: &Constant, values: &mut Values) {
    let of = constant.of;
    let array = match &constant.value {
        Default::Number { literal, bits } => {
            values.put("literal", literal.as_str());
            values.put_number("bits", *bits);
            values.put_lines(literal_of(of.base));
            return;
        }
        Default::Bytes(bytes) => {
            values.put_number("length", bytes.len() as u64);
            let mut array = byte_array(schema.alloc, bytes.as_slice(), "        ");
            array.push(", 0");
            array
        }
        Default::Words(words) => byte_array(schema.alloc, words.as_slice(), "        "),
        Default::Zero | Default::Unknown => {
            if is_bytes(of) {
                values.put("length", "0");
                byte_array(schema.alloc, &[0], "        ")
            } else {
                byte_array(schema.alloc, &[0, 0, 0, 0, 0, 0, 0, 0], "        ")
            }
        }
    };
    values.put_text("array", array);
}

// Whether a type is text or data.
fn is_bytes(of: Type) -> bool {
    of.lists == 0 && matches!(of.base.kind, BaseKind::Text | BaseKind::Data)
}

// What the type of a constant is in C, if it isn't a number, and how that is read.
fn type_of_constant(of: Type) -> Lines {
    match of.base.kind {
        BaseKind::Struct if of.lists == 0 => "gives=~item~\nread=capnp_get_struct(&of, 0)",
        BaseKind::Struct if of.lists == 1 => {
            "gives=~item~_list\nread=capnp_get_list(&of, 0, CAPNP_STRUCT)"
        }
        _ if of.lists > 0 => "gives=struct capnp_list\nread=capnp_get_list(&of, 0, ~size~)",
        _ => "",
    }
}

// The text of a constant.
fn template_of(of: Type) -> &'static str {
    match (of.base.kind, of.base.bits) {
        _ if is_wrapped(of) => WRAPPED,
        _ if of.lists > 0 => LIST,
        (BaseKind::Text, _) => TEXT,
        (BaseKind::Data, _) => DATA,
        (BaseKind::Float, 32) => FLOAT,
        (BaseKind::Float, _) => DOUBLE,
        _ => NUMBER,
    }
}

const NUMBER: &str = "static const ~number~ ~type~ = ~missing~;
";

const FLOAT: &str = "CAPNP_INLINE float ~type~(void) {
    const uint32_t bits = ~missing~;
    float value;
    memcpy(&value, &bits, sizeof value);
    return value;
}
";

const DOUBLE: &str = "CAPNP_INLINE double ~type~(void) {
    const uint64_t bits = ~missing~;
    double value;
    memcpy(&value, &bits, sizeof value);
    return value;
}
";

const TEXT: &str = "CAPNP_INLINE struct capnp_text ~type~(void) {
    static const uint8_t bytes[] = {~array~};
    struct capnp_text to;
    to.text = (const char *)bytes;
    to.size = ~length~;
    return to;
}
";

const DATA: &str = "CAPNP_INLINE struct capnp_data ~type~(void) {
    static const uint8_t bytes[] = {~array~};
    struct capnp_data to;
    to.bytes = bytes;
    to.size = ~length~;
    return to;
}
";

const LIST: &str = "CAPNP_INLINE ~gives~ ~type~(void) {
    static const uint8_t bytes[] = {~array~};
    CAPNP_DEFAULT(value, bytes);
    struct capnp_struct of = capnp_constant(&value);
    return ~read~;
}
";

const WRAPPED: &str = "CAPNP_INLINE ~gives~ ~type~(void) {
    static const uint8_t bytes[] = {~array~};
    CAPNP_DEFAULT(value, bytes);
    struct capnp_struct of = capnp_constant(&value);
    ~gives~ to;
    to.reader = ~read~;
    return to;
}
";
