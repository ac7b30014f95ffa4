//! Names that annotations of a schema give, from `capnp_layout_c.capnp`.

use crate::comments::push_escaped;
use crate::files::file_of;
use crate::readers::Schema;
use capnpc_schema::annotations::annotation_text;
use capnpc_schema::model::{FieldKind, Node, NodeKind, find_node};

// The ids of the annotations.
const PREFIX: u64 = 0xa753_63eb_88b0_edfc;

const NAME: u64 = 0xa718_b959_be0c_9d68;

/// What the names of a file's declarations begin with; nothing if its annotation isn't a prefix.
pub fn prefix_of(file: &Node) -> &str {
    match given_prefix(file) {
        Some(prefix) if is_prefix(prefix) => prefix,
        _ => "",
    }
}

/// The prefix that the annotation of a file has.
pub fn given_prefix(file: &Node) -> Option<&str> {
    annotation_text(file.annotations.as_slice(), PREFIX, None)
}

/// Whether the names of declarations may begin with this text: it starts with a small letter, so that
/// they aren't names without a prefix, and isn't that of the runtime.
pub fn is_prefix(text: &str) -> bool {
    text.starts_with(is_small) && !text.starts_with("capnp_") && text.chars().all(is_part)
}

// Whether a prefix may have this character.
fn is_part(c: char) -> bool {
    c.is_ascii_alphanumeric() || c == '_'
}

fn is_small(c: char) -> bool {
    c.is_ascii_lowercase()
}

fn is_letter_or_digit(c: char) -> bool {
    c.is_ascii_alphanumeric()
}

/// The name of a declaration in its scope: what its annotation says, or the name in the schema.
pub fn name_in_scope<'m>(nodes: &'m [Node], node: &'m Node) -> &'m str {
    let old = last_part(node.full.as_str());
    if is_group(node) {
        return match find_node(nodes, node.scope) {
            Some(outer) => name_of_group(nodes, outer, node.id, old),
            None => old,
        };
    }
    match annotation_text(node.annotations.as_slice(), NAME, None) {
        Some(given) if is_usable(nodes, node.scope, old, given) => given,
        _ => old,
    }
}

// The name of a group, which is that of its field.
fn name_of_group<'m>(nodes: &'m [Node], outer: &'m Node, id: u64, old: &'m str) -> &'m str {
    if let NodeKind::Struct(it) = &outer.kind {
        for (i, field) in it.fields.iter().enumerate() {
            if let FieldKind::Group(group) = &field.kind
                && *group == id
            {
                return member_name(nodes, outer, i, field.name.as_str());
            }
        }
    }
    old
}

/// The name of a field or an enumerant: what its annotation says, or `old`, the name in the schema.
pub fn member_name<'m>(nodes: &[Node], node: &'m Node, index: usize, old: &'m str) -> &'m str {
    match given_name(node, index) {
        Some(given) if is_usable(nodes, node.id, old, given) => given,
        _ => old,
    }
}

/// The name that the annotation of a field or an enumerant has.
pub fn given_name(node: &Node, index: usize) -> Option<&str> {
    match u32::try_from(index) {
        Ok(index) => annotation_text(node.annotations.as_slice(), NAME, Some(index)),
        Err(_) => None,
    }
}

/// The name that the annotation of a declaration has.
pub fn given_node_name(node: &Node) -> Option<&str> {
    annotation_text(node.annotations.as_slice(), NAME, None)
}

/// Whether a name may take the place of `old`: it has letters and digits only, starts with a letter of
/// the same case, and nothing else in its scope has it.
pub fn is_usable(nodes: &[Node], scope: u64, old: &str, given: &str) -> bool {
    let is_like = if old.starts_with(is_small) {
        given.starts_with(is_small)
    } else {
        given.starts_with(is_capital)
    };
    is_like && given.chars().all(is_letter_or_digit) && count_named(nodes, scope, given) == 1
}

fn is_capital(c: char) -> bool {
    c.is_ascii_uppercase()
}

// How many declarations, fields and enumerants of a scope have this name, in the schema or by an annotation.
fn count_named(nodes: &[Node], scope: u64, name: &str) -> u32 {
    let mut count = 0u32;
    for node in nodes {
        if node.scope == scope && !is_group(node) {
            let has_it = last_part(node.full.as_str()) == name
                || given_node_name(node) == Some(name);
            count = count.saturating_add(u32::from(has_it));
        }
        if node.id == scope {
            count = count.saturating_add(count_members(node, name));
        }
    }
    count
}

// How many fields or enumerants of a declaration have this name.
fn count_members(node: &Node, name: &str) -> u32 {
    let mut count = 0u32;
    match &node.kind {
        NodeKind::Struct(it) => {
            for (i, field) in it.fields.iter().enumerate() {
                let has_it = field.name.as_str() == name || given_name(node, i) == Some(name);
                count = count.saturating_add(u32::from(has_it));
            }
        }
        NodeKind::Enum(names) => {
            for (i, old) in names.iter().enumerate() {
                let has_it = old.as_str() == name || given_name(node, i) == Some(name);
                count = count.saturating_add(u32::from(has_it));
            }
        }
        _ => {}
    }
    count
}

/// Whether a declaration is a group.
pub fn is_group(node: &Node) -> bool {
    match &node.kind {
        NodeKind::Struct(it) => it.is_group,
        _ => false,
    }
}

/// The name of a declaration in the schema, without those of its scopes.
pub fn last_part(full: &str) -> &str {
    let (_, last) = full.rsplit_once('.').unwrap_or(("", full));
    last
}

impl<'m> Schema<'m> {
    /// Notes the annotations of a file that have no effect.
    pub fn note_names(&mut self, file: u64) {
        let nodes = self.nodes;
        for node in nodes {
            if node.id == file || file_of(nodes, node.id) == file {
                self.note_names_of(node);
            }
        }
    }

    // Notes those of a declaration, its fields and its enumerants.
    fn note_names_of(&mut self, node: &'m Node) {
        if let Some(prefix) = given_prefix(node)
            && !is_prefix(prefix)
        {
            self.note_name(node, "", prefix);
        }
        if let Some(given) = given_node_name(node)
            && name_in_scope(self.nodes, node) != given
        {
            self.note_name(node, "", given);
        }
        match &node.kind {
            NodeKind::Struct(it) => {
                for (i, field) in it.fields.iter().enumerate() {
                    self.note_member(node, i, field.name.as_str());
                }
            }
            NodeKind::Enum(names) => {
                for (i, name) in names.iter().enumerate() {
                    self.note_member(node, i, name.as_str());
                }
            }
            _ => {}
        }
    }

    // Notes the annotation of a field or an enumerant.
    fn note_member<'n>(&mut self, node: &'n Node, index: usize, old: &'n str) {
        if let Some(given) = given_name(node, index)
            && member_name(self.nodes, node, index, old) != given
        {
            self.note_name(node, old, given);
        }
    }

    // Notes a name that isn't used.
    fn note_name(&mut self, node: &Node, member: &str, given: &str) {
        self.skipped.push(node.full.as_str());
        if !member.is_empty() {
            self.skipped.push_all(&[".", member]);
        }
        self.skipped.push(" keeps its name: \"");
        push_escaped(&mut self.skipped, given);
        self.skipped.push("\" can't be used\n");
    }
}
