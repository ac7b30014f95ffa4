//! The files that declarations are in, and the headers that the header of each one includes.

use crate::members::is_wrapped;
use capnpc_schema::model::{FieldKind, Node, NodeKind, Type, find_node};
use std::alloc::Global;

/// The id of the file that a declaration is in; 0 if it is in none.
pub fn file_of(nodes: &[Node], id: u64) -> u64 {
    let mut at = id;
    for _ in 0..nodes.len().saturating_add(1) {
        match find_node(nodes, at) {
            Some(node) => match &node.kind {
                NodeKind::File => return node.id,
                _ => at = node.scope,
            },
            None => return 0,
        }
    }
    0
}

/// Whether a file has no header of its own, since another file has it.
pub fn lacks_header(nodes: &[Node], file: u64) -> bool {
    match find_node(nodes, file) {
        Some(node) => node.item.as_str().is_empty(),
        None => true,
    }
}

/// Whether two files declare the same name, so that no header can include those of both.
pub fn clash(nodes: &[Node], file: u64, other: u64) -> bool {
    for node in nodes {
        if node.scope == file && file != other && declares(nodes, other, node.item.as_str()) {
            return true;
        }
    }
    false
}

// Whether a file declares this.
fn declares(nodes: &[Node], file: u64, name: &str) -> bool {
    for node in nodes {
        if node.scope == file && node.item.as_str() == name {
            return true;
        }
    }
    false
}

/// Files, each of them once.
#[derive(Drop)]
pub struct Files {
    /// Their ids.
    pub ids: Vec<u64>,
    /// Whether memory was lacking.
    pub has_failed: bool,
}

impl Files {
    /// No files.
    pub fn new(alloc: Global) -> Self {
        Files {
            ids: Vec::new(alloc),
            has_failed: false,
        }
    }

    /// Whether this file is among them.
    pub fn contains(&self, file: u64) -> bool {
        for id in self.ids.iter() {
            if *id == file {
                return true;
            }
        }
        false
    }

    // Adds a file.
    fn add(&mut self, file: u64) {
        if !self.contains(file) && self.ids.push(file).is_err() {
            self.has_failed = true;
        }
    }

    // Adds these files.
    fn add_all(&mut self, others: &Files) {
        for id in others.ids.iter() {
            self.add(*id);
        }
        self.has_failed = self.has_failed || others.has_failed;
    }

    // Whether one of these files declares a name of another file.
    fn clash_with(&self, nodes: &[Node], file: u64) -> bool {
        for id in self.ids.iter() {
            if clash(nodes, *id, file) {
                return true;
            }
        }
        false
    }
}

// A file, and another one, whose header its own may include since it has types of that.
#[derive(Clone, Copy)]
struct Link {
    file: u64,
    other: u64,
}

/// Which headers each file's may include: those with types of its fields and constants, unless one of
/// the two files has no header, or both declare the same name.
#[derive(Drop)]
pub struct Links {
    alloc: Global,
    links: Vec<Link>,
    /// Whether memory was lacking.
    pub has_failed: bool,
}

/// The links between the files of a request.
pub fn links_of(alloc: Global, nodes: &[Node]) -> Links {
    let mut made = Links {
        alloc,
        links: Vec::new(alloc),
        has_failed: false,
    };
    for node in nodes {
        let file = file_of(nodes, node.id);
        match &node.kind {
            NodeKind::Struct(it) => {
                for field in it.fields.iter() {
                    if let FieldKind::Slot(slot) = &field.kind {
                        made.add(nodes, file, slot.of);
                    }
                }
            }
            NodeKind::Const(Some(constant)) => made.add(nodes, file, constant.of),
            _ => {}
        }
    }
    made
}

impl Links {
    // Adds the link from a file to that of a type that it has.
    fn add(&mut self, nodes: &[Node], file: u64, of: Type) {
        if !is_wrapped(of) {
            return;
        }
        let other = file_of(nodes, of.id);
        let is_known = self.contains(file, other);
        if !is_known
            && file != other
            && !lacks_header(nodes, other)
            && !clash(nodes, file, other)
            && self.links.push(Link { file, other }).is_err()
        {
            self.has_failed = true;
        }
    }

    // Whether this link is there.
    fn contains(&self, file: u64, other: u64) -> bool {
        for link in self.links.iter() {
            if link.file == file && link.other == other {
                return true;
            }
        }
        false
    }

    // A file and all that its links lead to: no other header comes with its own.
    fn reached_from(&self, file: u64) -> Files {
        let mut reached = Files::new(self.alloc);
        reached.add(file);
        for i in 0..self.links.len().saturating_add(1) {
            let Some(from) = reached.ids.get(i).copied() else {
                break;
            };
            for link in self.links.iter() {
                if link.file == from {
                    reached.add(link.other);
                }
            }
        }
        reached
    }

    /// The files whose headers a file's includes, so that no two of all that come with it declare the same
    /// name. An earlier one comes before a later one with such a name.
    pub fn included_by(&self, nodes: &[Node], file: u64) -> Files {
        let mut included = Files::new(self.alloc);
        let mut all = Files::new(self.alloc);
        all.add(file);
        for link in self.links.iter() {
            if link.file == file {
                let more = self.reached_from(link.other);
                if !have_clash(nodes, &all, &more) {
                    all.add_all(&more);
                    included.add(link.other);
                }
            }
        }
        included.has_failed = included.has_failed || all.has_failed;
        included
    }
}

// Whether a file of `more` declares a name of another one of these files.
fn have_clash(nodes: &[Node], all: &Files, more: &Files) -> bool {
    for id in more.ids.iter() {
        if all.clash_with(nodes, *id) || more.clash_with(nodes, *id) {
            return true;
        }
    }
    false
}
