//! The order in which declarations are written.

use capnpc_schema::model::{Node, NodeKind};
use std::alloc::Global;

/// A declaration to be written.
#[derive(Clone, Copy)]
pub struct Entry {
    /// Its place in the list of declarations.
    pub index: usize,
    /// How many modules are around it.
    pub depth: usize,
}

/// The declarations of a file, each before those in its scope, by their order in the request. The
/// list is marked as failed if memory was lacking.
#[derive(Drop)]
pub struct Order {
    /// The declarations.
    pub entries: Vec<Entry>,
    /// Whether memory was lacking.
    pub has_failed: bool,
}

/// Returns the order of the declarations of the file with this id.
pub fn order_of(alloc: Global, nodes: &[Node], file: u64) -> Order {
    let mut order = Order {
        entries: Vec::new(alloc),
        has_failed: false,
    };
    // the scopes around the next declaration, each with its next declaration
    let mut open = Vec::new(alloc);
    order.has_failed = open.push((file, 0usize)).is_err();
    for _ in 0..nodes.len().saturating_mul(2).saturating_add(1) {
        let Some((scope, start)) = open.pop() else {
            break;
        };
        let depth = open.len();
        if let Some(index) = next_in(nodes, scope, start) {
            order.add(Entry { index, depth });
            order.open(&mut open, scope, index.saturating_add(1));
            if let Some(node) = nodes.get(index) {
                order.open(&mut open, node.id, 0);
            }
        }
    }
    order
}

impl Order {
    // Adds a declaration.
    fn add(&mut self, entry: Entry) {
        if self.entries.push(entry).is_err() {
            self.has_failed = true;
        }
    }

    // Adds a scope to those that are open.
    fn open(&mut self, open: &mut Vec<(u64, usize)>, scope: u64, start: usize) {
        if open.push((scope, start)).is_err() {
            self.has_failed = true;
        }
    }
}

// The first declaration of a scope from `start` on.
fn next_in(nodes: &[Node], scope: u64, start: usize) -> Option<usize> {
    for (index, node) in nodes.iter().enumerate() {
        if index >= start && node.scope == scope && !matches!(node.kind, NodeKind::File) {
            return Some(index);
        }
    }
    None
}
