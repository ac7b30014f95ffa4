//! Names the declarations of a request and the fields of structs in generated Rust.

use crate::names::{
    CALL_WORDS, CALLS, ITEM_WORDS, RUST_WORDS, VALUE_WORDS, VARIANT_WORDS, is_word, last_part,
    snake_name, upper_name,
};
use crate::types::is_bytes;
use capnpc_schema::input::stem;
use capnpc_schema::model::{Field, Node, NodeKind};
use capnpc_schema::names::{Names, capitalized};
use capnpc_schema::noted::Noted;
use capnpc_schema::text::Text;
use std::alloc::Global;

/// Names each declaration: its module, and its type or constant. Names the fields of structs. If
/// `has_values` says so, the names of plain values in the scope of each struct stay free.
pub fn name_nodes(nodes: &mut Vec<Node>, has_values: bool, noted: &mut Noted) {
    let mut taken = Names::new(noted.alloc);
    if has_values {
        for node in nodes.iter() {
            take_values(node, &mut taken, noted.alloc);
        }
    }
    for node in nodes.iter_mut() {
        name_node(node, &mut taken, noted);
    }
    noted.note_if_failed(taken.has_failed);
}

// Takes the names of plain values in the scope of a struct.
fn take_values(node: &Node, taken: &mut Names, alloc: Global) {
    if let NodeKind::Struct(_) = &node.kind {
        for name in VALUE_WORDS {
            let key = scoped(alloc, node.id, name);
            taken.add(alloc, key.as_str());
        }
    }
}

// Names a declaration.
fn name_node(node: &mut Node, taken: &mut Names, noted: &mut Noted) {
    let alloc = noted.alloc;
    let scope = node.scope;
    let last = last_part(node.full.as_str());
    let snake = snake_name(alloc, last);
    match &mut node.kind {
        NodeKind::File => {
            let module = file_module(alloc, node.full.as_str());
            node.module = unique_in(scope, module, taken, noted);
        }
        NodeKind::Struct(it) => {
            node.module = unique_in(scope, snake, taken, noted);
            node.item = unique_in(scope, capitalized(alloc, last), taken, noted);
            name_fields(&mut it.fields, noted);
        }
        NodeKind::Enum(_) => node.item = unique_in(scope, capitalized(alloc, last), taken, noted),
        NodeKind::Const(constant) => {
            let is_call = match constant {
                Some(it) => it.of.is_pointer() && !is_bytes(it.of),
                None => false,
            };
            let name = if is_call {
                snake
            } else {
                upper_name(alloc, last)
            };
            node.item = unique_in(scope, name, taken, noted);
        }
        NodeKind::Other(_) => node.module = unique_in(scope, snake, taken, noted),
    }
}

// The name of a file's module.
fn file_module(alloc: Global, path: &str) -> Text {
    let mut name = snake_name(alloc, stem(path));
    name.push("_capnp");
    name
}

// Returns a name that nothing else in a scope has, and that neither Rust nor generated code uses: this
// one, with as many `_` after it as that takes. Adds it to `taken`.
fn unique_in(scope: u64, mut name: Text, taken: &mut Names, noted: &mut Noted) -> String {
    let alloc = noted.alloc;
    for _ in 0..u32::MAX {
        let key = scoped(alloc, scope, name.as_str());
        if !is_word(ITEM_WORDS, name.as_str()) && !taken.contains(key.as_str()) {
            taken.add(alloc, key.as_str());
            break;
        }
        name.push_char('_');
    }
    noted.string_or_note(name)
}

// A name with that of its scope.
fn scoped(alloc: Global, scope: u64, name: &str) -> Text {
    let mut key = Text::new(alloc);
    key.push_number(scope);
    key.push(":");
    key.push(name);
    key
}

// Names the fields of a struct.
fn name_fields(fields: &mut Vec<Field>, noted: &mut Noted) {
    let mut calls = Names::new(noted.alloc);
    let mut variants = Names::new(noted.alloc);
    for field in fields.iter_mut() {
        name_field(field, &mut calls, &mut variants, noted);
    }
    noted.note_if_failed(calls.has_failed || variants.has_failed);
}

// Names a field: its calls, and its member of a union. `calls` are those of the fields before it.
fn name_field(field: &mut Field, calls: &mut Names, variants: &mut Names, noted: &mut Noted) {
    let alloc = noted.alloc;
    let mut name = snake_name(alloc, field.name.as_str());
    for _ in 0..u32::MAX {
        if !has_taken_call(alloc, name.as_str(), calls) {
            break;
        }
        name.push_char('_');
    }
    add_calls(alloc, name.as_str(), calls);
    field.snake = noted.string_or_note(name);
    let mut variant = capitalized(alloc, field.name.as_str());
    variants.make_unique_and_add(alloc, VARIANT_WORDS, &mut variant);
    field.variant = noted.string_or_note(variant);
}

// Whether another field has one of the calls that a field of this name would have.
fn has_taken_call(alloc: Global, name: &str, calls: &Names) -> bool {
    for (start, end) in CALLS {
        let call = call_name(alloc, start, name, end);
        if calls.contains(call.as_str()) || is_word(CALL_WORDS, call.as_str()) {
            return true;
        }
    }
    false
}

// Takes the calls of a field.
fn add_calls(alloc: Global, name: &str, calls: &mut Names) {
    for (start, end) in CALLS {
        let call = call_name(alloc, start, name, end);
        calls.add(alloc, call.as_str());
    }
}

/// The name of a call of a field: `start`, the field's name, and `end`, before any `_` that makes that
/// name new.
pub fn call_name(alloc: Global, start: &str, name: &str, end: &str) -> Text {
    let plain = name.trim_end_matches('_');
    let (_, new) = name.split_at_checked(plain.len()).unwrap_or((name, ""));
    let mut call = Text::new(alloc);
    call.push_all(&[start, plain, end, new]);
    call
}

/// The name of a field's own call: with a `_` after it if it is a word of Rust.
pub fn accessor(alloc: Global, field: &Field) -> Text {
    let mut name = Text::new(alloc);
    name.push(field.snake.as_str());
    if is_word(RUST_WORDS, name.as_str()) {
        name.push_char('_');
    }
    name
}
