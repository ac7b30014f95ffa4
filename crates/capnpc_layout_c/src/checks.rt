//! Writes the table of a file's structs, and the calls that check messages by it.

use crate::readers::Schema;
use crate::templates;
use capnpc_schema::groups::structs_of_file;
use capnpc_schema::model::Node;
use capnpc_schema::table::{TEXT, Table, TableRow, table_of};
use capnpc_schema::text::{Text, Values};
use std::alloc::Global;

/// How many words of a table are in a line.
const WORDS_IN_LINE: usize = 12;

/// The table of the structs of a file, and of all that they can lead to.
pub fn table_of_file(alloc: Global, nodes: &[Node], file: u64) -> Table {
    let structs = structs_of_file(alloc, nodes, file);
    let mut table = table_of(alloc, nodes, structs.ids.as_slice(), TEXT);
    table.has_failed = table.has_failed || structs.has_failed;
    table
}

impl<'m> Schema<'m> {
    /// Writes the table of a file, and the names of its fields.
    pub fn write_table(&mut self) {
        self.text.note_if_failed(self.table.has_failed);
        if self.table.rows.is_empty() {
            return;
        }
        let mut values = Values::new(self.alloc);
        values.put("id", self.file_id.as_str());
        values.put_text("words", words_of(self.alloc, self.table.words.as_slice()));
        values.put_text("names", names_of(self.alloc, self.table.rows.as_slice()));
        self.push(templates::TABLE, &values);
    }

    /// Writes the calls that check a message with a struct as its root.
    pub fn write_checks(&mut self, node: &Node, values: &mut Values) {
        if let Some(row) = self.table.row_of(node.id) {
            values.put_number("row", u64::from(row));
            values.put("id", self.file_id.as_str());
            self.push(templates::CHECKS, values);
        }
    }
}

// The elements of an array with the words of a table.
fn words_of(alloc: Global, words: &[u32]) -> Text {
    let mut text = Text::new(alloc);
    for (i, word) in words.iter().enumerate() {
        text.push(if i == 0 {
            "\n    "
        } else if i % WORDS_IN_LINE == 0 {
            ",\n    "
        } else {
            ", "
        });
        text.push_number(u64::from(*word));
    }
    text
}

// The elements of an array with the names of the fields of rows.
fn names_of(alloc: Global, rows: &[TableRow]) -> Text {
    let mut text = Text::new(alloc);
    for row in rows {
        if row.id == 0 {
            push_name(
                &mut text,
                row.position,
                0,
                &["an element of ", row.name.as_str()],
            );
        }
        for (index, field) in row.fields.iter().enumerate() {
            if !field.is_empty() {
                let name = [row.name.as_str(), ".", field.as_str()];
                push_name(&mut text, row.position, index, &name);
            }
        }
    }
    text
}

// Appends the name of pointer `index` of a row.
fn push_name(to: &mut Text, row: u32, index: usize, name: &[&str]) {
    to.push("\n    {");
    to.push_number(u64::from(row));
    to.push(", ");
    to.push_number(index as u64);
    to.push(", \"");
    to.push_all(name);
    to.push("\"},");
}
