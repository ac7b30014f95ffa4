//! Names the fields of structs, and the definitions of what readers return of them.

use crate::names::SPEC_WORDS;
use capnpc_schema::model::{Default, Field, FieldKind, Node, NodeKind};
use capnpc_schema::names::{Names, snake_case};
use capnpc_schema::noted::Noted;
use capnpc_schema::text::Text;
use std::alloc::Global;

/// Names the fields of each struct, and the definitions.
pub fn name_definitions(nodes: &mut Vec<Node>, order: &[usize], noted: &mut Noted) {
    let mut taken = Names::new(noted.alloc);
    for node in nodes.iter() {
        reserve_own_names(noted.alloc, node, &mut taken);
    }
    for i in order {
        if let Some(node) = nodes.get_mut(*i) {
            name_struct_definitions(node, &mut taken, noted);
        }
    }
    noted.note_if_failed(taken.has_failed);
}

// Takes the names of the definitions of a declaration itself: of a struct, its sections; of an enum
// and of a union, the numbers.
fn reserve_own_names(alloc: Global, node: &Node, taken: &mut Names) {
    match &node.kind {
        NodeKind::Struct(it) => {
            if !it.is_group {
                reserve_name(alloc, node.module.as_str(), "_size", taken);
            }
            if it.members > 0 {
                reserve_name(alloc, it.which.as_str(), "_number", taken);
            }
        }
        NodeKind::Enum(_) => reserve_name(alloc, node.module.as_str(), "_number", taken),
        NodeKind::File | NodeKind::Const(_) | NodeKind::Other(_) => {}
    }
}

// Takes the name that begins with `start` and ends with `end`.
fn reserve_name(alloc: Global, start: &str, end: &str, taken: &mut Names) {
    let mut name = Text::new(alloc);
    name.push_all(&[start, end]);
    taken.add_once(alloc, name.as_str());
}

// Names the fields of a struct, and the definition of the tag of its union.
fn name_struct_definitions(node: &mut Node, taken: &mut Names, noted: &mut Noted) {
    if let NodeKind::Struct(it) = &mut node.kind {
        name_fields(node.snake.as_str(), &mut it.fields, taken, noted);
        if it.members > 0 {
            it.tag = noted.unique_name(node.snake.as_str(), "_tag", SPEC_WORDS, taken);
        }
    }
}

// Names fields. `node` is the name of their struct in snake case.
fn name_fields(node: &str, fields: &mut Vec<Field>, taken: &mut Names, noted: &mut Noted) {
    let mut names = Names::new(noted.alloc);
    for field in fields.iter_mut() {
        name_field(node, field, &mut names, taken, noted);
    }
    noted.note_if_failed(names.has_failed);
}

// Names a field. `names` are those of the fields before it.
fn name_field(
    node: &str,
    field: &mut Field,
    names: &mut Names,
    taken: &mut Names,
    noted: &mut Noted,
) {
    let mut name = snake_case(noted.alloc, field.name.as_str());
    names.make_unique_and_add(noted.alloc, &[], &mut name);
    let mut end = Text::new(noted.alloc);
    end.push("_");
    end.append(&name);
    field.snake = noted.string_or_note(name);
    let (has_spec, has_default) = match &field.kind {
        FieldKind::Slot(slot) => (
            !slot.of.is_void(),
            matches!(slot.default, Default::Words(_)),
        ),
        _ => (false, false),
    };
    if has_spec {
        field.spec = noted.unique_name(node, end.as_str(), SPEC_WORDS, taken);
    }
    if has_default {
        field.default_spec = noted.unique_name(field.spec.as_str(), "_default", SPEC_WORDS, taken);
    }
}
