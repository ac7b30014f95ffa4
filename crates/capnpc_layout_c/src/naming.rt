//! Names the declarations of a request and the fields of structs in generated C.

use crate::annotated::{member_name, name_in_scope, prefix_of};
use crate::words::{CALL_WORDS, INNER_WORDS, OUTER_WORDS, is_word};
use capnpc_schema::model::{Node, NodeKind, find_node};
use capnpc_schema::noted::Noted;
use capnpc_schema::request::SchemaFile;
use capnpc_schema::text::Text;
use std::alloc::Global;

// The names of a declaration: its own, and those of its fields, with and without what they have in calls.
#[derive(Drop)]
struct NodeNames {
    item: String,
    fields: Vec<String>,
    in_calls: Vec<String>,
}

/// Names each declaration, and the fields of structs. A file's name is that of its header; empty if
/// another file has that header.
pub fn name_nodes(nodes: &mut Vec<Node>, requested: &[SchemaFile], noted: &mut Noted) {
    for i in 0..nodes.len() {
        let names = names_of(nodes.as_slice(), i, noted);
        if let Some(node) = nodes.get_mut(i) {
            set_names(node, names);
        }
    }
    for i in 0..nodes.len() {
        if has_taken_header(nodes.as_slice(), requested, i)
            && let Some(node) = nodes.get_mut(i)
        {
            node.item = String::new(noted.alloc);
        }
    }
}

// Whether declaration `index` is a file whose header is another file's.
fn has_taken_header(nodes: &[Node], requested: &[SchemaFile], index: usize) -> bool {
    match nodes.get(index) {
        Some(node) => {
            matches!(&node.kind, NodeKind::File)
                && header_owner(nodes, requested, node.item.as_str()) != node.id
        }
        None => false,
    }
}

// The id of the file that has a header of this name: the first one that is requested, or the first of
// all if none is; 0 if there is none.
fn header_owner(nodes: &[Node], requested: &[SchemaFile], header: &str) -> u64 {
    for file in requested {
        if let Some(node) = find_node(nodes, file.id)
            && node.item.as_str() == header
        {
            return node.id;
        }
    }
    for node in nodes {
        if matches!(&node.kind, NodeKind::File) && node.item.as_str() == header {
            return node.id;
        }
    }
    0
}

// The names of declaration `index`.
fn names_of(nodes: &[Node], index: usize, noted: &mut Noted) -> NodeNames {
    let mut names = NodeNames {
        item: String::new(noted.alloc),
        fields: Vec::new(noted.alloc),
        in_calls: Vec::new(noted.alloc),
    };
    let Some(node) = nodes.get(index) else {
        return names;
    };
    let item = match &node.kind {
        NodeKind::File => header_name(noted.alloc, node.full.as_str()),
        _ => scoped_name(noted.alloc, nodes, node),
    };
    names.item = noted.string_or_note(item);
    if let NodeKind::Struct(it) = &node.kind {
        for (i, field) in it.fields.iter().enumerate() {
            let name = member_name(nodes, node, i, field.name.as_str());
            let in_call = escaped(noted.alloc, name, CALL_WORDS);
            let in_call = noted.string_or_note(in_call);
            let name = noted.copy_text(name);
            noted.push(&mut names.fields, name);
            noted.push(&mut names.in_calls, in_call);
        }
    }
    names
}

// Sets the names of a declaration.
fn set_names(node: &mut Node, names: NodeNames) {
    let NodeNames {
        item,
        mut fields,
        mut in_calls,
    } = names;
    node.item = item;
    if let NodeKind::Struct(it) = &mut node.kind {
        for field in it.fields.iter_mut().rev() {
            if let Some(name) = fields.pop() {
                field.variant = name;
            }
            if let Some(name) = in_calls.pop() {
                field.snake = name;
            }
        }
    }
}

// The name of a file's header: that of the file, without its folders, and `.h`.
fn header_name(alloc: Global, path: &str) -> Text {
    let (_, name) = path.rsplit_once('/').unwrap_or(("", path));
    let mut header = Text::new(alloc);
    for c in name.chars() {
        let is_plain = c.is_ascii_alphanumeric() || matches!(c, '.' | '-' | '_');
        header.push_char(if is_plain { c } else { '_' });
    }
    header.push(".h");
    header
}

// The name of a declaration: the prefix of its file, its scopes and its own name, with `_` between them.
// That of a constant that is in no struct has `const_` before it.
fn scoped_name<'m>(alloc: Global, nodes: &'m [Node], node: &'m Node) -> Text {
    let mut name = Text::new(alloc);
    let mut at = node;
    for _ in 0..nodes.len().saturating_add(1) {
        let outer = find_node(nodes, at.scope);
        let is_outermost = match outer {
            Some(scope) => matches!(&scope.kind, NodeKind::File),
            None => true,
        };
        let part = name_in_scope(nodes, at);
        let mut longer = Text::new(alloc);
        if is_outermost {
            let prefix = outer.map_or("", prefix_of);
            push_outermost(alloc, &mut longer, prefix, part);
        } else {
            longer.append(&escaped(alloc, part, words_for(part, INNER_WORDS)));
        }
        if !name.as_str().is_empty() {
            longer.push_char('_');
        }
        longer.append(&name);
        name = longer;
        match outer {
            Some(scope) if !is_outermost => at = scope,
            _ => break,
        }
    }
    name
}

// Appends the name of a declaration that is in no other one.
fn push_outermost(alloc: Global, to: &mut Text, prefix: &str, part: &str) {
    to.push(prefix);
    if part.starts_with(is_small) {
        to.push_all(&["const_", part]);
    } else if prefix.is_empty() {
        to.append(&escaped(alloc, part, OUTER_WORDS));
    } else {
        to.push(part);
    }
}

// The words that a name with this part can't have: those of calls, for fields, groups and constants.
fn words_for(part: &str, of_types: &'static [&'static str]) -> &'static [&'static str] {
    if part.starts_with(is_small) {
        CALL_WORDS
    } else {
        of_types
    }
}

// Whether a name that starts with this is that of a field, a group or a constant.
fn is_small(c: char) -> bool {
    c.is_ascii_lowercase()
}

// A name, with a `_` after it if it is one of these words.
fn escaped(alloc: Global, name: &str, words: &[&'static str]) -> Text {
    let mut new = Text::new(alloc);
    new.push(name);
    if is_word(words, name) {
        new.push_char('_');
    }
    new
}
