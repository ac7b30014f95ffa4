//! Names the modules of a generated crate.

use crate::names::{MODULE_WORDS, TABLE_MODULE, module_name};
use capnpc_schema::model::{Node, NodeKind, find_node};
use capnpc_schema::names::Names;
use capnpc_schema::noted::Noted;

/// The order in which declarations get names: first those of this file, so that what it imports renames
/// none of them.
pub fn naming_order(nodes: &[Node], file: u64, noted: &mut Noted) -> Vec<usize> {
    let mut order = Vec::new(noted.alloc);
    push_declared(nodes, file, true, &mut order, noted);
    push_declared(nodes, file, false, &mut order, noted);
    order
}

// Appends the declarations that are in a file, or those that aren't.
fn push_declared(
    nodes: &[Node],
    file: u64,
    is_own: bool,
    order: &mut Vec<usize>,
    noted: &mut Noted,
) {
    for (i, node) in nodes.iter().enumerate() {
        if is_declared_in(nodes, node, file) == is_own {
            noted.push(order, i);
        }
    }
}

/// Whether a declaration is in a file.
pub fn is_declared_in(nodes: &[Node], node: &Node, file: u64) -> bool {
    let mut at = node;
    for _ in 0..nodes.len() {
        if at.scope == file {
            return true;
        }
        match find_node(nodes, at.scope) {
            Some(outer) => at = outer,
            None => return false,
        }
    }
    false
}

/// Names the module of each declaration that is written, and then the modules of unions.
pub fn name_modules(nodes: &mut Vec<Node>, order: &[usize], noted: &mut Noted) {
    let mut taken = Names::new(noted.alloc);
    taken.add(noted.alloc, TABLE_MODULE);
    for i in order {
        if let Some(node) = nodes.get_mut(*i) {
            name_module(node, &mut taken, noted);
        }
    }
    for i in order {
        if let Some(node) = nodes.get_mut(*i) {
            name_union_module(node, &mut taken, noted);
        }
    }
    noted.note_if_failed(taken.has_failed);
}

// Names the module of a declaration.
fn name_module(node: &mut Node, taken: &mut Names, noted: &mut Noted) {
    if matches!(node.kind, NodeKind::Struct(_) | NodeKind::Enum(_)) {
        let name = module_name(noted.alloc, node.snake.as_str(), node.id);
        node.module = noted.unique_name(name.as_str(), "", MODULE_WORDS, taken);
        noted.note_if_failed(name.has_failed);
    }
}

// Names the module of the members of a struct's union.
fn name_union_module(node: &mut Node, taken: &mut Names, noted: &mut Noted) {
    if let NodeKind::Struct(it) = &mut node.kind {
        if it.members > 0 {
            let name = module_name(noted.alloc, node.snake.as_str(), node.id);
            it.which = noted.unique_name(name.as_str(), "_which", MODULE_WORDS, taken);
            noted.note_if_failed(name.has_failed);
        }
    }
}
