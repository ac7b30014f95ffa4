//! What generated C does with a field of each type. A word between two `~` stands for what `put_slot`
//! puts there.

use crate::bytes::{byte_array, list_array};
use capnpc_schema::model::{Default, Node, NodeKind, Slot, Type, find_node};
use capnpc_schema::text::{Lines, Values};
use capnpc_schema::types::{Base, BaseKind};
use std::alloc::Global;

/// Puts what the calls of a field have in common: `gives`, the type of its value; `read`, how a reader's
/// call reads it; `params` and `set` of a builder's call; `array` for a default value. A struct or a list
/// of structs is `wrapped`: its type has the name `gives`.
pub fn put_slot(alloc: Global, nodes: &[Node], slot: &Slot, values: &mut Values) {
    let of = slot.of;
    let bits = of.base.bits;
    values.put_number("index", u64::from(slot.offset));
    if bits >= 8 {
        values.put_number("offset", u64::from(slot.offset).saturating_mul(bits / 8));
    }
    put_type(nodes, of, values);
    values.put("or", "");
    values.put("default", "");
    values.put("missing", missing_of(of.base));
    put_default(alloc, of, &slot.default, values);
    values.put_lines(form_of(of));
}

/// Puts what a type is in C: `number`, `suffix` and `size` of a number, `item` of a struct.
pub fn put_type(nodes: &[Node], of: Type, values: &mut Values) {
    values.put("number", number_type(of.base));
    values.put("suffix", suffix_of(of.base));
    values.put("size", size_of(of));
    if let Some(node) = find_node(nodes, of.id) {
        values.put("item", node.item.as_str());
        if let NodeKind::Struct(it) = &node.kind {
            values.put_number("item_words", u64::from(it.data_words));
            values.put_number("item_pointers", u64::from(it.pointers));
        }
    }
}

// Puts what takes a default value into account.
fn put_default(alloc: Global, of: Type, default: &Default, values: &mut Values) {
    match default {
        Default::Number { literal, bits } => {
            values.put("literal", literal.as_str());
            values.put_number("bits", *bits);
            values.put_lines("shown= = ~literal~");
            values.put_lines(literal_of(of.base));
        }
        Default::Bytes(bytes) => {
            let zeros = usize::from(matches!(of.base.kind, BaseKind::Text));
            let array = list_array(alloc, bytes.as_slice(), zeros, "    ");
            values.put_text("array", array);
            values.put_lines(HAS_DEFAULT);
        }
        Default::Words(words) => {
            values.put_text("array", byte_array(alloc, words.as_slice(), "    "));
            values.put_lines(HAS_DEFAULT);
        }
        Default::Zero | Default::Unknown => {}
    }
}

const HAS_DEFAULT: Lines = "or=_or
default=, &~type~_default_~name~";

// The default value of a field whose default is zero.
fn missing_of(base: &Base) -> &'static str {
    match base.kind {
        BaseKind::Bool => "false",
        _ => "0",
    }
}

/// The value of a number with a default, as a constant of C.
pub fn literal_of(base: &Base) -> Lines {
    match (base.kind, base.bits) {
        (BaseKind::Bool, _) => "missing=true\nshown= = true",
        (BaseKind::Float, 32) => "missing=UINT32_C(~bits~)\nshown=, not 0",
        (BaseKind::Float, _) => "missing=UINT64_C(~bits~)\nshown=, not 0",
        (BaseKind::Signed, 64) => "missing=(int64_t)UINT64_C(~bits~)",
        (BaseKind::Unsigned, 32) => "missing=UINT32_C(~bits~)",
        (BaseKind::Unsigned, 64) => "missing=UINT64_C(~bits~)",
        _ => "missing=~literal~",
    }
}

// The type of a number.
fn number_type(base: &Base) -> &'static str {
    match (base.kind, base.bits) {
        (BaseKind::Bool, _) => "bool",
        (BaseKind::Float, 32) => "float",
        (BaseKind::Float, _) => "double",
        (BaseKind::Signed, 8) => "int8_t",
        (BaseKind::Signed, 16) => "int16_t",
        (BaseKind::Signed, 32) => "int32_t",
        (BaseKind::Signed, _) => "int64_t",
        (_, 8) => "uint8_t",
        (_, 16) => "uint16_t",
        (_, 32) => "uint32_t",
        _ => "uint64_t",
    }
}

// What ends the names of the runtime's calls for a number.
fn suffix_of(base: &Base) -> &'static str {
    match (base.kind, base.bits) {
        (BaseKind::Float, 32) => "f32",
        (BaseKind::Float, _) => "f64",
        _ => base.rust,
    }
}

// The size of elements of a list.
fn size_of(of: Type) -> &'static str {
    match (of.element().kind, of.element().bits) {
        (BaseKind::Void, _) => "CAPNP_VOID",
        (BaseKind::Struct, _) => "CAPNP_STRUCT",
        (_, 1) => "CAPNP_BIT",
        (_, 8) => "CAPNP_BYTE",
        (_, 16) => "CAPNP_TWO_BYTES",
        (_, 32) => "CAPNP_FOUR_BYTES",
        (_, 64) => "CAPNP_EIGHT_BYTES",
        _ => "CAPNP_POINTER",
    }
}

// What is done with a field of a type.
fn form_of(of: Type) -> Lines {
    match of.base.kind {
        BaseKind::Struct if of.lists == 1 => LIST_OF_STRUCTS,
        _ if of.lists > 0 => LIST,
        BaseKind::Void => "",
        BaseKind::Bool => BOOL,
        BaseKind::Text => TEXT,
        BaseKind::Data => DATA,
        BaseKind::Struct => STRUCT,
        BaseKind::Capability => CAPABILITY,
        BaseKind::Pointer => POINTER,
        _ => NUMBER,
    }
}

const BOOL: Lines = "gives=bool
read=capnp_get_bool(~from~, ~index~, ~missing~)
params=, bool value
set=capnp_set_bool(&of->it, ~index~, value, ~missing~)";

const NUMBER: Lines = "gives=~number~
read=capnp_get_~suffix~(~from~, ~offset~, ~missing~)
params=, ~number~ value
set=capnp_set_~suffix~(&of->it, ~offset~, value, ~missing~)";

const TEXT: Lines = "gives=struct capnp_text
read=capnp_get_text~or~(~from~, ~index~~default~)
params=, const char *text
set=capnp_set_text(&of->it, ~index~, text)
params_n=, const char *text, size_t size
set_n=capnp_set_text_n(&of->it, ~index~, text, size)";

const DATA: Lines = "gives=struct capnp_data
read=capnp_get_data~or~(~from~, ~index~~default~)
params=, const void *data, size_t size
set=capnp_set_data(&of->it, ~index~, data, size)";

const STRUCT: Lines = "wrapped=.reader
gives=~item~
read=capnp_get_struct~or~(~from~, ~index~~default~)
built=~item~_builder
init=capnp_init_struct(&of->it, ~index~, ~item_words~, ~item_pointers~)
open=capnp_open_struct(&of->it, ~index~, ~item_words~, ~item_pointers~)
copies=yes";

const CAPABILITY: Lines = "params=, uint32_t capability
set=capnp_set_capability(&of->it, ~index~, capability)";

const POINTER: Lines = "gives=struct capnp_struct
read=capnp_get_pointer~or~(~from~, ~index~~default~)
init_gives=struct capnp_struct_builder
init=capnp_builder_pointer(&of->it, ~index~)
copies=yes";

const LIST: Lines = "gives=struct capnp_list
read=capnp_get_list~or~(~from~, ~index~, ~size~~default~)
count=, uint32_t count
init_gives=struct capnp_list_builder
init=capnp_init_list(&of->it, ~index~, ~size~, count)
copies=yes";

const LIST_OF_STRUCTS: Lines = "wrapped=.reader
gives=~item~_list
read=capnp_get_list~or~(~from~, ~index~, CAPNP_STRUCT~default~)
count=, uint32_t count
built=~item~_list_builder
init=capnp_init_struct_list(&of->it, ~index~, count, ~item_words~, ~item_pointers~)
copies=yes";
