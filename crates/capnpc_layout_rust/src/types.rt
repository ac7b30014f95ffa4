//! Types of the schema language in Rust.

use crate::paths::push_path;
use capnpc_schema::model::{Default, Node, Type, find_node};
use capnpc_schema::text::Text;
use capnpc_schema::types::BaseKind;
use std::alloc::Global;

/// Whether the type is text or data.
pub fn is_bytes(of: Type) -> bool {
    of.lists == 0 && matches!(of.base.kind, BaseKind::Text | BaseKind::Data)
}

/// Whether the type is a list of structs.
pub fn is_list_of_structs(of: Type) -> bool {
    of.lists == 1 && matches!(of.base.kind, BaseKind::Struct)
}

/// Why a field of the type with this default value has no calls; empty if it has some.
pub fn lacking_in_rust(of: Type, default: &Default) -> &'static str {
    let has_words = matches!(default, Default::Words(_));
    let is_any = matches!(of.base.kind, BaseKind::Capability | BaseKind::Pointer);
    if has_words && is_any && of.lists == 0 {
        return "it has a default value, and can lead to anything";
    }
    ""
}

/// The path of the module that a declaration is in, for code in the module `from`; empty if the
/// declaration isn't known.
pub fn path_to(alloc: Global, nodes: &[Node], from: u64, id: u64) -> Text {
    let mut path = Text::new(alloc);
    if let Some(node) = find_node(nodes, id) {
        push_path(alloc, nodes, from, node.scope, &mut path);
    }
    path
}

/// The type of a number or an enum.
pub fn scalar_type(alloc: Global, nodes: &[Node], from: u64, of: Type) -> Text {
    let mut name = path_to(alloc, nodes, from, of.id);
    match (of.base.kind, of.base.bits) {
        (BaseKind::Enum, _) => {
            if let Some(node) = find_node(nodes, of.id) {
                name.push(node.item.as_str());
            }
        }
        (BaseKind::Float, 32) => name.push("f32"),
        (BaseKind::Float, _) => name.push("f64"),
        _ => name.push(of.base.rust),
    }
    name
}

/// The type that a list names for its elements, with this lifetime if it has one.
pub fn element_type(alloc: Global, nodes: &[Node], from: u64, of: Type, life: &str) -> Text {
    let mut name = Text::new(alloc);
    for _ in 1..of.lists {
        name.push("g::Lists<");
    }
    match of.base.kind {
        BaseKind::Text => name.push("str"),
        BaseKind::Data => name.push("[u8]"),
        BaseKind::Capability | BaseKind::Pointer => name.push("g::Pointers"),
        BaseKind::Struct => push_struct_type(alloc, nodes, from, of.id, life, &mut name),
        _ => name.append(&scalar_type(alloc, nodes, from, of)),
    }
    for _ in 1..of.lists {
        name.push(">");
    }
    name
}

/// The type of the plain value of a field.
pub fn element_value(alloc: Global, nodes: &[Node], from: u64, of: Type) -> Text {
    let mut name = Text::new(alloc);
    for _ in 0..of.lists {
        name.push("g::Vec<");
    }
    match of.base.kind {
        BaseKind::Text => name.push("g::String"),
        BaseKind::Data => name.push("g::Vec<u8>"),
        BaseKind::Struct => {
            name.append(&path_to(alloc, nodes, from, of.id));
            if let Some(node) = find_node(nodes, of.id) {
                name.push(node.module.as_str());
                name.push("::Value");
            }
        }
        _ => name.append(&scalar_type(alloc, nodes, from, of)),
    }
    for _ in 0..of.lists {
        name.push(">");
    }
    name
}

// Appends the type of a struct's reader.
fn push_struct_type(alloc: Global, nodes: &[Node], from: u64, id: u64, life: &str, to: &mut Text) {
    to.append(&path_to(alloc, nodes, from, id));
    if let Some(node) = find_node(nodes, id) {
        to.push_all(&[node.item.as_str(), "<", life, ">"]);
    }
}
