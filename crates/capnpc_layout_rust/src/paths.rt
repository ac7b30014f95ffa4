//! Paths from a module of generated code to another.

use capnpc_schema::model::{Node, find_node};
use capnpc_schema::text::Text;
use std::alloc::Global;

/// Appends the path of the module `scope` for code in the module `from`: nothing for that module itself.
/// Modules are named by the ids of their declarations; files are in the module 0.
pub fn push_path(alloc: Global, nodes: &[Node], from: u64, scope: u64, to: &mut Text) {
    let mut at = from;
    for _ in 0..nodes.len().saturating_add(1) {
        if let Some(path) = path_below(alloc, nodes, at, scope) {
            to.append(&path);
            return;
        }
        to.push("super::");
        at = match find_node(nodes, at) {
            Some(node) => node.scope,
            None => 0,
        };
    }
}

// The path of the module `scope` in the module `top`; `None` if it isn't in there.
fn path_below(alloc: Global, nodes: &[Node], top: u64, scope: u64) -> Option<Text> {
    let mut path = Text::new(alloc);
    let mut at = scope;
    for _ in 0..nodes.len().saturating_add(1) {
        if at == top {
            return Some(path);
        }
        let node = find_node(nodes, at)?;
        path = joined(alloc, node.module.as_str(), &path);
        at = node.scope;
    }
    None
}

// A path that begins with this module.
fn joined(alloc: Global, module: &str, path: &Text) -> Text {
    let mut longer = Text::new(alloc);
    longer.push_all(&[module, "::"]);
    longer.append(path);
    longer
}
