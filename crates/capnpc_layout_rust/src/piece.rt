//! Pieces of generated Rust: text of one depth, in the layout of rustfmt.

use crate::docs::MAX_WIDTH;
use capnpc_schema::text::{Text, Values};
use std::alloc::Global;

/// The most characters of an array's items in one line.
const ARRAY_WIDTH: usize = 60;

/// The most characters of a call's arguments in one line.
const CALL_WIDTH: usize = 60;

/// What begins a public call.
pub const PUBLIC: &str = "    pub fn ~name~(";

/// Text that will be inside of `depth` modules.
#[derive(Drop)]
pub struct Piece {
    /// Where memory comes from.
    pub alloc: Global,
    /// The text, indented as if it were outside of all modules.
    pub text: Text,
    // How many characters a line of the text may have.
    width: usize,
}

impl Piece {
    /// Returns an empty piece.
    pub fn new(alloc: Global, depth: usize) -> Self {
        Piece {
            alloc,
            text: Text::new(alloc),
            width: MAX_WIDTH.saturating_sub(depth.saturating_mul(4)),
        }
    }

    /// Begins an item of an `impl` block, with an empty line unless it is the first.
    pub fn begin_item(&mut self) {
        if !self.text.as_str().is_empty() {
            self.text.push("\n");
        }
    }

    /// Appends a template.
    pub fn push(&mut self, template: &str, values: &Values) {
        self.text.push_filled(template, values);
    }

    /// Appends the first line of a call, or its first lines if one would be too long: `start` with its
    /// name, `params` with a `;` between them, and `gives`.
    pub fn push_signature(&mut self, start: &str, values: &Values) {
        let mut line = Text::new(self.alloc);
        line.push_filled(start, values);
        line.push_joined(values.get("params"));
        line.push_filled(") -> ~gives~ {\n", values);
        if self.has_room_for(&line) {
            self.text.append(&line);
            return;
        }
        self.push(start, values);
        self.text.push("\n");
        for param in values.get("params").split(';') {
            self.text.push_all(&["        ", param, ",\n"]);
        }
        self.push("    ) -> ~gives~ {\n", values);
    }

    /// Whether a line, with its end, fits.
    pub fn has_room_for(&self, line: &Text) -> bool {
        line.as_str().len() <= self.width.saturating_add(1)
    }

    /// Appends what shows a field, after `indent`: its name and how it is read.
    pub fn push_shown(&mut self, indent: &str, name: &str, read: &str) {
        let width = name.len().saturating_add(read.len()).saturating_add(4);
        let line = width.saturating_add(14).saturating_add(indent.len());
        let text = &mut self.text;
        if width <= CALL_WIDTH && line <= self.width {
            text.push_all(&[indent, "shown.field(\"", name, "\", ", read, ");\n"]);
            return;
        }
        text.push_all(&[indent, "shown.field(\n", indent, "    \"", name, "\",\n"]);
        text.push_all(&[indent, "    ", read, ",\n", indent, ");\n"]);
    }

    /// Appends the constant of a default value, if there is one.
    pub fn push_default(&mut self, indent: &str, values: &Values) {
        if !values.get("const").is_empty() {
            self.push_constant(indent, values.get("const"));
        }
        if !values.get("array").is_empty() {
            self.push_array(
                indent,
                "const DEFAULT: &[u8] = &[",
                values.get("array"),
                "];",
            );
        }
    }

    /// Appends a constant, with its value in a line of its own if the line would be too long.
    pub fn push_constant(&mut self, indent: &str, line: &str) {
        let is_long = indent.len().saturating_add(line.len()) > self.width;
        match line.split_once(" = ") {
            Some((head, value)) if is_long => {
                self.text
                    .push_all(&[indent, head, " =\n", indent, "    ", value, "\n"]);
            }
            _ => self.text.push_all(&[indent, line, "\n"]),
        }
    }

    /// Appends an array, in lines that are as full as they can be unless it is short.
    pub fn push_array(&mut self, indent: &str, start: &str, items: &str, end: &str) {
        self.text.push_all(&[indent, start]);
        let line = indent.len().saturating_add(start.len());
        let whole = line.saturating_add(items.len()).saturating_add(end.len());
        if items.len() <= ARRAY_WIDTH && whole <= self.width {
            self.text.push_all(&[items, end, "\n"]);
            return;
        }
        let start_of_line = indent.len().saturating_add(3);
        let mut column = self.width;
        for item in items.split(", ") {
            column = column.saturating_add(item.len()).saturating_add(2);
            if column >= self.width {
                self.text.push_all(&["\n", indent, "   "]);
                column = start_of_line.saturating_add(item.len()).saturating_add(2);
            }
            self.text.push_all(&[" ", item, ","]);
        }
        self.text.push_all(&["\n", indent, end, "\n"]);
    }

    /// Takes the text, and leaves none.
    pub fn take(&mut self) -> Text {
        std::mem::replace(&mut self.text, Text::new(self.alloc))
    }

    /// Appends an `impl` block with these items, unless there are none.
    pub fn push_impl(&mut self, head: &str, items: &Text, values: &Values) {
        if !items.as_str().is_empty() {
            self.text.push("\n");
            self.push(head, values);
            self.text.append(items);
            self.text.push("}\n");
        }
    }

    /// Appends the text to a file, inside of its modules.
    pub fn push_into(&self, to: &mut Text, depth: usize) {
        for line in self.text.as_str().lines() {
            push_indented(to, line, depth);
        }
        to.note_if_failed(self.text.has_failed);
    }
}

// Appends a line inside of this many modules.
fn push_indented(to: &mut Text, line: &str, depth: usize) {
    if !line.is_empty() {
        for _ in 0..depth {
            to.push("    ");
        }
        to.push(line);
    }
    to.push("\n");
}
