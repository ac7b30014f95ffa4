//! Writes the text of generated files.

use crate::imports::Kind;
use crate::names::upper_camel_case;
use crate::templates;
use capnpc_schema::names::Names;
use capnpc_schema::text::{Text, Values};
use std::alloc::Global;

// Two imports that `rt fmt` makes one of. They are the last of a module of readers.
const BOTH: &str = "use typed_reading::list;\nuse typed_reading::value;\n";

/// A module as it grows.
#[derive(Drop)]
pub struct Module {
    /// Where memory comes from.
    pub alloc: Global,
    /// Its name.
    pub name: Text,
    /// Its text, without its imports.
    pub body: Text,
    /// The definitions of fields that it names.
    pub specs: Names,
    /// The definitions of sections of structs that it names.
    pub sizes: Names,
    /// The modules whose numbers it names.
    pub numbers: Names,
    /// The modules that it names.
    pub modules: Names,
    /// The modules of the crate of readers that it names.
    pub outside: Names,
    /// Whether it names the definition of the schema's table.
    pub has_table: bool,
}

impl Module {
    /// Returns a module without text.
    pub fn new(alloc: Global, named: &str) -> Self {
        let mut name = Text::new(alloc);
        name.push(named);
        Module {
            alloc,
            name,
            body: Text::new(alloc),
            specs: Names::new(alloc),
            sizes: Names::new(alloc),
            numbers: Names::new(alloc),
            modules: Names::new(alloc),
            outside: Names::new(alloc),
            has_table: false,
        }
    }

    /// Begins an item of an `impl` block, with an empty line unless it is the first of the text.
    pub fn begin_item(&mut self) {
        if !self.body.as_str().is_empty() {
            self.body.push("\n");
        }
    }

    /// Appends the first line of a call, or its first lines if one would have over 100 columns: `params`
    /// in `values`, with a `;` between them, and around them what these templates say.
    pub fn push_signature(&mut self, start: &str, end: &str, values: &Values) {
        self.push_items("    ", start, "params", end, 100, values);
    }

    /// Appends a statement of a body: the items that a word of `values` stands for, with a `;` between
    /// them, and around them what these templates say.
    pub fn push_statement(&mut self, start: &str, word: &str, end: &str, values: &Values) {
        self.push_items("        ", start, word, end, 60, values);
    }

    // Appends such items: in one line if they have at most `width` columns and the line has at most 100,
    // and otherwise a line for each.
    fn push_items(
        &mut self,
        indent: &str,
        start: &str,
        word: &str,
        end: &str,
        width: usize,
        values: &Values,
    ) {
        let items = values.get(word);
        let mut line = Text::new(self.alloc);
        line.push(indent);
        line.push_filled(start, values);
        let head = line.as_str().len();
        line.push_joined(items);
        let joined = line.as_str().len().saturating_sub(head);
        line.push_filled(end, values);
        if joined <= width && line.as_str().len() <= 101 {
            self.body.append(&line);
            return;
        }
        self.body.push(indent);
        self.body.push_filled(start, values);
        self.push_item_lines(indent, items);
        self.body.push(indent);
        self.body.push_filled(end, values);
    }

    // Ends a line, and appends a line for each item.
    fn push_item_lines(&mut self, indent: &str, items: &str) {
        self.body.push("\n");
        for item in items.split(';') {
            self.body.push_all(&[indent, "    ", item, ",\n"]);
        }
    }

    /// Appends `template`, filled. A line with over 100 columns is broken after its first
    /// `.words`.
    pub fn push_filled(&mut self, template: &str, values: &Values) {
        let mut filled = Text::new(self.alloc);
        filled.push_filled(template, values);
        for line in filled.as_str().split_inclusive('\n') {
            match line.split_once(".words ") {
                Some((head, rest)) if line.len() > 101 && line.chars().count() > 101 => {
                    self.body.push_all(&[head, ".words\n            ", rest]);
                }
                _ => self.body.push(line),
            }
        }
        self.body.note_if_failed(filled.has_failed);
    }

    /// Takes the text, and leaves none.
    pub fn take_body(&mut self) -> Text {
        std::mem::replace(&mut self.body, Text::new(self.alloc))
    }

    /// Appends an `impl` block with these items, unless there are none.
    pub fn push_impl(&mut self, head: &str, items: &Text) {
        if !items.as_str().is_empty() {
            self.body.push("\n");
            self.body.push(head);
            self.body.append(items);
            self.body.push("}\n");
        }
    }

    /// Puts what code writes before the items of a module as `path`, and notes that this module names
    /// the other.
    pub fn put_path(&mut self, other: &str, values: &mut Values) {
        if self.name.as_str() == other {
            values.put("path", "");
            return;
        }
        self.modules.add_once(self.alloc, other);
        put_module_path(self.alloc, other, values);
    }

    /// Puts the same for a module of the crate of readers.
    pub fn put_outside(&mut self, other: &str, values: &mut Values) {
        self.outside.add_once(self.alloc, other);
        put_module_path(self.alloc, other, values);
    }

    /// Returns the text of the module's file.
    pub fn file_text(&mut self, about: &str, crate_name: &str, reading: &str, kind: &Kind) -> Text {
        let alloc = self.alloc;
        let mut text = Text::new(alloc);
        let mut values = Values::new(alloc);
        values.put("about", about);
        values.put("crate", crate_name);
        values.put("reading", reading);
        text.push_filled("//! ~about~\n", &values);
        push_imports(
            alloc,
            &mut text,
            self.body.as_str(),
            kind.ghost_imports,
            "ghost use ",
            ".",
        );
        self.push_own_imports(&mut text, &mut values);
        text.push("\n");
        self.modules.sort();
        push_module_imports(alloc, &mut text, "crate", &self.modules);
        self.outside.sort();
        let mut outside = Text::new(alloc);
        push_module_imports(alloc, &mut outside, reading, &self.outside);
        let mut uses = Text::new(alloc);
        push_imports(
            alloc,
            &mut uses,
            self.body.as_str(),
            kind.imports,
            "use ",
            "::",
        );
        if !uses.as_str().is_empty() {
            let mut joined = Text::new(alloc);
            push_joined_imports(&mut joined, uses.as_str());
            push_in_order(&mut text, joined.as_str(), outside.as_str(), reading);
            text.note_if_failed(joined.has_failed || outside.has_failed);
            text.push("\n");
        }
        text.push(self.body.as_str());
        text
    }

    // Appends the imports of the crate's own definitions.
    fn push_own_imports(&self, text: &mut Text, values: &mut Values) {
        if self.has_table {
            text.push_filled(templates::TABLE_IMPORT, values);
        }
        self.push_own_import(templates::SIZES_IMPORT, &self.sizes, text, values);
        self.push_own_import(templates::SPECS_IMPORT, &self.specs, text, values);
        for module in self.numbers.as_slice() {
            let mut row = Values::new(self.alloc);
            row.put("reading", values.get("reading"));
            row.put("module", module.as_str());
            row.put_text("file", upper_camel_case(self.alloc, module.as_str()));
            text.push_filled(templates::NUMBERS_IMPORT, &row);
        }
        text.note_if_failed(self.numbers.has_failed);
    }

    // Appends an import of some definitions, if there are any.
    fn push_own_import(&self, template: &str, names: &Names, text: &mut Text, values: &mut Values) {
        if !names.as_slice().is_empty() {
            let mut specs = Text::new(self.alloc);
            names.join_into(&mut specs);
            values.put_text("specs", specs);
            text.push_filled(template, values);
        }
    }
}

// Puts the path of a module's items.
fn put_module_path(alloc: Global, module: &str, values: &mut Values) {
    let mut path = Text::new(alloc);
    path.push_all(&[module, "::"]);
    values.put_text("path", path);
}

// Appends imports, and among them those of the crate `reading`, in the order of the crates' names.
fn push_in_order(to: &mut Text, uses: &str, outside: &str, reading: &str) {
    let mut is_left = true;
    for line in uses.split_inclusive('\n') {
        if is_left && is_import_after(line, reading) {
            to.push(outside);
            is_left = false;
        }
        to.push(line);
    }
    if is_left {
        to.push(outside);
    }
}

// Whether a line begins the import of a crate whose name comes after this one.
fn is_import_after(line: &str, name: &str) -> bool {
    match line.strip_prefix("use ") {
        Some(path) => match path.split_once("::") {
            Some((first, _)) => first > name,
            None => false,
        },
        None => false,
    }
}

// Appends imports, with the two that `rt fmt` makes one of as one.
fn push_joined_imports(text: &mut Text, uses: &str) {
    match uses.split_once(BOTH) {
        Some((before, _)) => {
            text.push(before);
            text.push("use typed_reading::{list, value};\n");
        }
        None => text.push(uses),
    }
}

// Appends the import of modules of a crate, in the layout of `rt fmt`.
fn push_module_imports(alloc: Global, to: &mut Text, from: &str, modules: &Names) {
    let mut all = Text::new(alloc);
    modules.join_into(&mut all);
    let mut values = Values::new(alloc);
    values.put_text("all", all);
    values.put("from", from);
    let count = modules.as_slice().len();
    if count == 1 {
        to.push_filled("use ~from~::~all~;\n", &values);
    } else if count > 1 && values.get("all").len().saturating_add(from.len()) <= 89 {
        to.push_filled("use ~from~::{~all~};\n", &values);
    } else if count > 1 {
        push_module_import_lines(to, from, modules.as_slice());
    }
}

// Appends an import of modules that takes more than one line.
fn push_module_import_lines(to: &mut Text, from: &str, modules: &[String]) {
    to.push_all(&["use ", from, "::{\n   "]);
    let mut column = 3u64;
    for module in modules {
        let width = (module.len() as u64).saturating_add(2);
        if column.saturating_add(width) > 100 {
            to.push("\n   ");
            column = 3;
        }
        to.push_all(&[" ", module.as_str(), ","]);
        column = column.saturating_add(width);
    }
    to.push("\n};\n");
}

// Appends the imports that a module with this body needs. `table` is one of those of `Kind`, `start`
// is what a line begins with, and `dot` what separates names.
fn push_imports(alloc: Global, to: &mut Text, body: &str, table: &str, start: &str, dot: &str) {
    for block in table.split("\n\n") {
        if let Some((module, rows)) = block.split_once('\n') {
            let mut found = Text::new(alloc);
            push_needed_names(&mut found, body, rows);
            if !found.as_str().is_empty() {
                to.push_all(&[start, module]);
                push_import_end(to, found.as_str(), dot);
            }
        }
    }
}

// Appends the names of the rows whose text is in `body`, with commas between them.
fn push_needed_names(to: &mut Text, body: &str, rows: &str) {
    for row in rows.lines() {
        if let Some((text, name)) = row.split_once('|')
            && body.contains(text)
            && !to.as_str().ends_with(name)
        {
            if !to.as_str().is_empty() {
                to.push(", ");
            }
            to.push(name);
        }
    }
}

// Appends the end of an import of these names.
fn push_import_end(to: &mut Text, names: &str, dot: &str) {
    let is_code = dot == "::";
    if names == "self" {
        to.push(";\n");
    } else if is_code && !names.contains(", ") {
        to.push_all(&[dot, names, ";\n"]);
    } else if is_code && names.len() > 72 {
        to.push_all(&[dot, "{\n    ", names, ",\n};\n"]);
    } else {
        to.push_all(&[dot, "{", names, "};\n"]);
    }
}
