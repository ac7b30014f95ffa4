//! Writes constants.

use crate::docs::push_docs;
use crate::enums::{name_at, variant_names};
use crate::forms::{byte_array, byte_string};
use crate::piece::Piece;
use crate::readers::{Schema, put_allow};
use crate::types::{element_type, scalar_type};
use capnpc_schema::model::{Constant, Default, Node, NodeKind, Type, find_node, type_name};
use capnpc_schema::text::Values;
use capnpc_schema::types::BaseKind;

/// Why a constant isn't written; empty if it is.
pub fn lacking_of_constant(schema: &Schema<'_>, constant: &Constant) -> &'static str {
    let of = constant.of;
    match of.base.kind {
        BaseKind::Capability | BaseKind::Pointer if of.lists == 0 => "its type is any pointer",
        BaseKind::Struct | BaseKind::Enum if find_node(schema.nodes, of.id).is_none() => {
            "its type is unknown"
        }
        _ => match &constant.value {
            Default::Unknown => "its value is unknown",
            _ => "",
        },
    }
}

/// Writes a constant.
pub fn write_constant(
    schema: &Schema<'_>,
    node: &Node,
    constant: &Constant,
    depth: usize,
) -> Piece {
    let mut piece = Piece::new(schema.alloc, depth);
    let of = constant.of;
    let mut values = schema.node_values(node);
    put_allow(depth, &mut values);
    values.put_text("of", type_name(schema.alloc, schema.nodes, of));
    values.put_lines("line=const ~full~ :~of~");
    push_docs(
        &mut piece.text,
        "",
        node.comment.as_str(),
        values.get("line"),
    );
    if of.lists > 0 || matches!(of.base.kind, BaseKind::Struct) {
        write_object(schema, &mut piece, node, constant, &mut values);
        return piece;
    }
    put_value(schema, node, constant, &mut values);
    values.put_lines("const=pub const ~type~: ~rust~ = ~value~;");
    piece.text.push(values.get("allow"));
    piece.push_constant("", values.get("const"));
    piece
}

// Puts the type of a constant that isn't a struct or a list, and its value.
fn put_value(schema: &Schema<'_>, node: &Node, constant: &Constant, values: &mut Values) {
    let of = constant.of;
    let (literal, bits) = match &constant.value {
        Default::Number { literal, bits } => (literal.as_str(), *bits),
        _ => ("0", 0),
    };
    let bytes: &[u8] = match &constant.value {
        Default::Bytes(bytes) => bytes.as_slice(),
        _ => &[],
    };
    values.put("literal", literal);
    values.put_number("bits", bits);
    values.put_text("bytes", byte_string(schema.alloc, bytes));
    let scalar = scalar_type(schema.alloc, schema.nodes, node.scope, of);
    values.put_text("rust", scalar);
    values.put_lines(match of.base.kind {
        BaseKind::Void => "value=()",
        BaseKind::Bool if bits == 0 => "value=false",
        BaseKind::Bool => "value=true",
        BaseKind::Float => "value=~rust~::from_bits(~bits~)",
        BaseKind::Enum => "value=~rust~::Unknown(~bits~)",
        BaseKind::Text => "rust=&str\nvalue=g::text(~bytes~)",
        BaseKind::Data => "rust=&[u8]\nvalue=~bytes~",
        _ => "value=~literal~",
    });
    if matches!(of.base.kind, BaseKind::Enum) {
        put_variant(schema, of, bits, values);
    }
}

// Puts the value of an enum with this number, if it has a name.
fn put_variant(schema: &Schema<'_>, of: Type, bits: u64, values: &mut Values) {
    if let Some(node) = find_node(schema.nodes, of.id)
        && let NodeKind::Enum(names) = &node.kind
    {
        let variants = variant_names(schema.alloc, names.as_slice());
        let variant = name_at(variants.as_slice(), bits as usize);
        if !variant.is_empty() {
            values.put("variant", variant);
            values.put_lines("value=~rust~::~variant~");
        }
    }
}

// Writes the function of a struct or a list.
fn write_object(
    schema: &Schema<'_>,
    piece: &mut Piece,
    node: &Node,
    constant: &Constant,
    values: &mut Values,
) {
    let of = constant.of;
    let items = match &constant.value {
        Default::Words(words) => byte_array(schema.alloc, words.as_slice()),
        _ => byte_array(schema.alloc, &[0, 0, 0, 0, 0, 0, 0, 0]),
    };
    let element = element_type(schema.alloc, schema.nodes, node.scope, of, "'static");
    values.put_text("element", element);
    let is_list = of.lists > 0;
    values.put_lines(if is_list {
        "gives=g::List<'static, ~element~, g::Typed>\nread=g::constant_list(DEFAULT)"
    } else {
        "gives=~element~\nread=g::constant_struct(DEFAULT)"
    });
    piece.push("~allow~pub fn ~type~() -> ~gives~ {\n", values);
    piece.push_array("    ", "const DEFAULT: &[u8] = &[", items.as_str(), "];");
    piece.push("    ~read~\n}\n", values);
}
