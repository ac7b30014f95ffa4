//! The files of a crate as they are generated.

use crate::imports::Kind;
use crate::modules::is_declared_in;
use crate::names::{has_enum, upper_camel_case};
use crate::writing::Module;
use capnpc_schema::files::File;
use capnpc_schema::model::{Node, NodeKind, find_node};
use capnpc_schema::names::Names;
use capnpc_schema::text::Text;
use std::alloc::{AllocError, Global};

/// A crate as it is generated.
#[derive(Drop)]
pub struct Output<'m> {
    /// Where memory comes from.
    pub alloc: Global,
    /// The name of the crate.
    pub name: &'m str,
    // The name of the crate of readers of the same schema.
    reading: &'m str,
    /// All declarations.
    pub nodes: &'m [Node],
    // What it has.
    kind: &'static Kind,
    // The names of the modules.
    modules: Names,
    // The files of definitions of numbers.
    numbers: Names,
    // The files.
    files: Vec<File>,
    // Whether memory was lacking.
    has_failed: bool,
}

impl<'m> Output<'m> {
    /// Returns a crate without files. `reading` is the name of the crate of readers of the same schema.
    pub fn new(
        alloc: Global,
        name: &'m str,
        reading: &'m str,
        nodes: &'m [Node],
        kind: &'static Kind,
    ) -> Self {
        Output {
            alloc,
            name,
            reading,
            nodes,
            kind,
            modules: Names::new(alloc),
            numbers: Names::new(alloc),
            files: Vec::new(alloc),
            has_failed: false,
        }
    }

    /// The declaration with this id.
    pub fn node(&self, id: u64) -> Option<&'m Node> {
        find_node(self.nodes, id)
    }

    /// The struct that a struct or a group is in.
    pub fn owner(&self, node: &'m Node) -> &'m Node {
        let mut at = node;
        for _ in 0..self.nodes.len() {
            match (&at.kind, self.node(at.scope)) {
                (NodeKind::Struct(it), Some(outer)) if it.is_group => at = outer,
                _ => break,
            }
        }
        at
    }

    /// Returns the files that are written.
    pub fn into_files(self) -> Result<Vec<File>, AllocError> {
        if self.has_failed || self.modules.has_failed || self.numbers.has_failed {
            return Err(AllocError);
        }
        Ok(self.files)
    }

    /// Notes that memory was lacking elsewhere, if it was.
    pub fn note_if_failed(&mut self, has_failed: bool) {
        self.has_failed = self.has_failed || has_failed;
    }

    /// Adds a module's file.
    pub fn add_module(&mut self, module: &mut Module, about: &str) {
        self.modules.add(self.alloc, module.name.as_str());
        let name = path_in_crate(self.alloc, "src/", module.name.as_str(), ".rt");
        let text = module.file_text(about, self.name, self.reading, self.kind);
        self.add_file(&name, text);
    }

    /// Adds the file of the numbers of an enum, or of a union's members. `name` is that of its module.
    pub fn add_numbers_file(&mut self, name: &str, text: Text) {
        let camel = upper_camel_case(self.alloc, name);
        self.numbers.add(self.alloc, camel.as_str());
        let mut file = Text::new(self.alloc);
        file.push("Of");
        file.append(&camel);
        self.add_specs_file(file.as_str(), text);
    }

    /// Adds the root module, and the files that name the definitions. `stem` is the name of the
    /// schema's file, without its ending, and `definitions` are those of the fields.
    pub fn finish_crate(&mut self, stem: &str, definitions: Text) {
        self.add_root_module(stem);
        let first = self.kind.definitions;
        let mut text = Text::new(self.alloc);
        text.push_all(&["pub mod ", first, "\n"]);
        self.numbers.sort();
        push_lines(&mut text, "pub mod Of", self.numbers.as_slice(), "\n");
        self.add_specs_file("Lib", text);
        self.add_specs_file(first, definitions);
    }

    // Adds a file of definitions.
    fn add_specs_file(&mut self, file: &str, text: Text) {
        let name = path_in_crate(self.alloc, "specs/", file, ".antt");
        self.add_file(&name, text);
    }

    // Adds a file. `name` is its name from the crate's folder on.
    fn add_file(&mut self, name: &Text, text: Text) {
        let mut path = Text::new(self.alloc);
        path.push(self.name);
        path.push("/");
        path.append(name);
        if let Ok(path) = path.into_string()
            && let Ok(text) = text.into_string()
            && self.files.push(File { path, text }).is_ok()
        {
            return;
        }
        self.has_failed = true;
    }

    // Adds the file of the root module.
    fn add_root_module(&mut self, stem: &str) {
        let mut text = first_line(self.alloc, self.kind.about, stem);
        let nodes = self.nodes;
        for node in nodes {
            push_line_if_unwritten(&mut text, node);
        }
        text.push("#![tactic(auto)]\n\n");
        self.modules.sort();
        push_lines(&mut text, "pub mod ", self.modules.as_slice(), ";\n");
        let mut name = Text::new(self.alloc);
        name.push("src/lib.rt");
        self.add_file(&name, text);
    }
}

// How the first line of the root module ends.
const ENDING: &str = ".capnp`, generated by capnpc-rattle.\n";

// Returns the path of a file from the crate's folder on: its folder, its name, and its ending.
fn path_in_crate(alloc: Global, folder: &str, name: &str, ending: &str) -> Text {
    let mut text = Text::new(alloc);
    text.push_all(&[folder, name, ending]);
    text
}

// Returns the first line of the root module.
fn first_line(alloc: Global, about: &str, stem: &str) -> Text {
    let mut line = Text::new(alloc);
    line.push_all(&["//! ", about, " of `", stem, ENDING]);
    line
}

// Writes a line for each name.
fn push_lines(to: &mut Text, start: &str, names: &[String], end: &str) {
    for name in names {
        to.push_all(&[start, name.as_str(), end]);
    }
}

// Writes the line of the root module for a declaration, if that gets no code.
fn push_line_if_unwritten(to: &mut Text, node: &Node) {
    let what = why_unwritten(node);
    if !what.is_empty() {
        to.push("//!\n//! Not written: `");
        push_two(to, node.full.as_str(), "`, ", what);
        to.push(".\n");
    }
}

// Appends what a declaration is called, and what it is.
fn push_two(to: &mut Text, full: &str, between: &str, what: &str) {
    to.push(full);
    to.push(between);
    to.push(what);
}

// What a declaration is that gets no code; empty if it gets some.
fn why_unwritten(node: &Node) -> &'static str {
    match &node.kind {
        NodeKind::Const(_) => "a constant",
        NodeKind::Other(what) => what,
        NodeKind::Enum(names) if !has_enum(names.len()) => AS_NUMBERS,
        _ => "",
    }
}

const AS_NUMBERS: &str = "an enum with no names or too many, whose fields are numbers";

/// Returns a line for each declaration of a file that gets no code.
pub fn unwritten_lines(alloc: Global, nodes: &[Node], file: u64) -> Result<String, AllocError> {
    let mut lines = Text::new(alloc);
    for node in nodes {
        let what = why_unwritten(node);
        if !what.is_empty() && is_declared_in(nodes, node, file) {
            push_two(&mut lines, node.full.as_str(), " isn't written: ", what);
            lines.push("\n");
        }
    }
    lines.into_string()
}
