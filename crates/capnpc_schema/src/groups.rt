//! The groups of a struct, with the members of unions that have to be set for each; and the structs of
//! a file.

use crate::model::{FieldKind, NO_DISCRIMINANT, Node, NodeKind, Struct, find_node, find_struct};
use crate::text::Text;
use std::alloc::Global;

/// That a union's number, which is at this offset, counted in 16-bit numbers, is this one.
#[derive(Clone, Copy)]
pub struct Test {
    /// The offset.
    pub offset: u32,
    /// The number.
    pub number: u16,
}

/// A struct, or a group in it.
#[derive(Drop)]
pub struct Group {
    /// The id of its declaration.
    pub id: u64,
    /// What has to hold for the group to be set, outer unions first.
    pub tests: Vec<Test>,
    /// What is before the name of a field: the names of the groups around it, and dots.
    pub prefix: Text,
}

/// A struct and its groups. The list is marked as failed if memory was lacking.
#[derive(Drop)]
pub struct Groups {
    /// The groups: the struct itself, and each before those in it.
    pub groups: Vec<Group>,
    /// Whether memory was lacking.
    pub has_failed: bool,
}

impl Group {
    /// What has to hold for field `index` of `it`, which is this group, to be set. Sets `has_failed`
    /// if memory was lacking.
    pub fn tests_of(
        &self,
        alloc: Global,
        it: &Struct,
        index: usize,
        has_failed: &mut bool,
    ) -> Vec<Test> {
        let mut tests = match self.tests.as_slice().to_vec(alloc) {
            Ok(tests) => tests,
            Err(_) => {
                *has_failed = true;
                Vec::new(alloc)
            }
        };
        if let Some(field) = it.fields.get(index)
            && field.discriminant != NO_DISCRIMINANT
        {
            let test = Test {
                offset: it.tag_offset,
                number: field.discriminant,
            };
            if tests.push(test).is_err() {
                *has_failed = true;
            }
        }
        tests
    }
}

/// Returns the struct with this id and its groups.
pub fn groups_of(alloc: Global, nodes: &[Node], id: u64) -> Groups {
    let mut found = Groups {
        groups: Vec::new(alloc),
        has_failed: false,
    };
    let tests = Vec::new(alloc);
    let prefix = Text::new(alloc);
    found.add(Group { id, tests, prefix });
    for i in 0..nodes.len() {
        if let Some(group) = found.groups.get(i) {
            let id = group.id;
            if let Some(it) = find_struct(nodes, id) {
                found.add_inner(alloc, it, i);
            }
        }
    }
    found
}

impl Groups {
    // Adds a group.
    fn add(&mut self, group: Group) {
        let has_failed = group.prefix.has_failed;
        if self.groups.push(group).is_err() || has_failed {
            self.has_failed = true;
        }
    }

    // Adds the groups in `it`, which is group `index`.
    fn add_inner(&mut self, alloc: Global, it: &Struct, index: usize) {
        for (i, field) in it.fields.iter().enumerate() {
            if let FieldKind::Group(id) = &field.kind {
                self.add_group(alloc, it, index, i, *id);
            }
        }
    }

    // Adds the group with this id, which is field `field` of `it`, which is group `index`.
    fn add_group(&mut self, alloc: Global, it: &Struct, index: usize, field: usize, id: u64) {
        let mut has_failed = false;
        let mut prefix = Text::new(alloc);
        let tests = match self.groups.get(index) {
            Some(outer) => {
                prefix.append(&outer.prefix);
                outer.tests_of(alloc, it, field, &mut has_failed)
            }
            None => Vec::new(alloc),
        };
        if let Some(declared) = it.fields.get(field) {
            prefix.push(declared.name.as_str());
            prefix.push(".");
        }
        self.add(Group { id, tests, prefix });
        self.has_failed = self.has_failed || has_failed;
    }
}

/// The ids of structs. The list is marked as failed if memory was lacking.
#[derive(Drop)]
pub struct Ids {
    /// The ids.
    pub ids: Vec<u64>,
    /// Whether memory was lacking.
    pub has_failed: bool,
}

/// The structs that are declared in the file with this id, in the order of their names.
pub fn structs_of_file(alloc: Global, nodes: &[Node], file: u64) -> Ids {
    let mut found = Ids {
        ids: Vec::new(alloc),
        has_failed: false,
    };
    let mut declared = Vec::new(alloc);
    for (i, node) in nodes.iter().enumerate() {
        if is_struct(node) && is_in_file(nodes, node, file) && declared.push(i).is_err() {
            found.has_failed = true;
        }
    }
    let mut last = "";
    for _ in 0..declared.len() {
        if let Some(node) = next_by_name(nodes, declared.as_slice(), last) {
            last = node.full.as_str();
            found.add(node.id);
        }
    }
    found
}

impl Ids {
    // Adds an id.
    fn add(&mut self, id: u64) {
        if self.ids.push(id).is_err() {
            self.has_failed = true;
        }
    }
}

// Whether a declaration is a struct, and not a group.
fn is_struct(node: &Node) -> bool {
    match &node.kind {
        NodeKind::Struct(it) => !it.is_group,
        _ => false,
    }
}

// Whether a declaration is in the file with this id.
fn is_in_file(nodes: &[Node], node: &Node, file: u64) -> bool {
    let mut scope = node.scope;
    for _ in 0..nodes.len() {
        if scope == file {
            return true;
        }
        match find_node(nodes, scope) {
            Some(outer) => scope = outer.scope,
            None => return false,
        }
    }
    false
}

// The first declaration by name whose name is after this one, of those at these places.
fn next_by_name<'m>(nodes: &'m [Node], places: &[usize], last: &str) -> Option<&'m Node> {
    let mut found: Option<&'m Node> = None;
    for place in places {
        let node = nodes.get(*place)?;
        let name = node.full.as_str();
        let is_first = match found {
            Some(known) => name < known.full.as_str(),
            None => true,
        };
        if name > last && is_first {
            found = Some(node);
        }
    }
    found
}
