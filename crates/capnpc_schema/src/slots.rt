//! The parts of a struct that the fields of a group are.

use crate::model::{FieldKind, Node, NodeKind, Struct, Type, find_node};
use crate::names::Names;
use crate::text::Text;
use std::alloc::Global;

/// Adds the parts of a struct that the fields of a group are, and those of the groups in it: the kind
/// of each and its offset, such as `TwoBytes 3`.
pub fn add_group_slots(alloc: Global, nodes: &[Node], id: u64, slots: &mut Names) {
    for node in nodes {
        if let NodeKind::Struct(it) = &node.kind
            && it.is_group
            && is_inside(nodes, node, id)
        {
            add_field_slots(alloc, it, slots);
        }
    }
}

// Whether a group is this one, or in it.
fn is_inside(nodes: &[Node], node: &Node, id: u64) -> bool {
    let mut at = node;
    for _ in 0..nodes.len() {
        if at.id == id {
            return true;
        }
        match (&at.kind, find_node(nodes, at.scope)) {
            (NodeKind::Struct(it), Some(outer)) if it.is_group => at = outer,
            _ => return false,
        }
    }
    false
}

// Adds the fields of a group as parts of a struct.
fn add_field_slots(alloc: Global, it: &Struct, slots: &mut Names) {
    if it.members > 0 {
        add_slot_once(alloc, "TwoBytes", it.tag_offset, slots);
    }
    for field in it.fields.iter() {
        if let FieldKind::Slot(slot) = &field.kind {
            let kind = slot_kind(slot.of);
            if !kind.is_empty() {
                add_slot_once(alloc, kind, slot.offset, slots);
            }
        }
    }
}

// Adds a part of a struct, unless it is there.
fn add_slot_once(alloc: Global, kind: &str, offset: u32, slots: &mut Names) {
    let mut slot = Text::new(alloc);
    slot.push(kind);
    slot.push(" ");
    slot.push_number(u64::from(offset));
    slots.add_once(alloc, slot.as_str());
}

// The kind of the part of a struct that a field is; nothing for one without a place.
fn slot_kind(of: Type) -> &'static str {
    if of.is_void() {
        return "";
    }
    if of.lists > 0 {
        return "Pointer";
    }
    match of.base.bits {
        1 => "Bit",
        8 => "Byte",
        16 => "TwoBytes",
        32 => "FourBytes",
        64 => "EightBytes",
        _ => "Pointer",
    }
}
