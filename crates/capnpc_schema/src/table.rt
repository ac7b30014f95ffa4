//! The flat table of a schema: what each pointer of its structs may lead to. `typed_conforming` has
//! its form.

use crate::groups::{Group, Test, groups_of};
use crate::model::{FieldKind, Node, NodeKind, Struct, Type, find_node, find_struct};
use crate::text::Text;
use crate::types::BaseKind;
use std::alloc::Global;

/// The kind of a pointer to a text.
pub const TEXT: u32 = 2;

/// The kind of a pointer to a text that has to be UTF-8.
pub const UTF8: u32 = 3;

// The other kinds, which are the low four bits of a word. That of a list has the size of its elements
// added to it.
const ANY: u32 = 0;

const CAPABILITY: u32 = 1;

const DATA: u32 = 4;

const STRUCT: u32 = 5;

const ANY_LIST: u32 = 6;

const TEST: u32 = 7;

const LIST: u32 = 8;

// The sizes of elements that are pointers, and of those that are structs.
const POINTER_SIZE: u32 = 6;

const STRUCT_SIZE: u32 = 7;

/// A row of a table.
#[derive(Drop)]
pub struct TableRow {
    /// Its position in the table.
    pub position: u32,
    /// The id of the struct; 0 if the row is of the elements of a list of pointers.
    pub id: u64,
    /// The name of the struct, with those of the scopes around it. For elements of a list, that of
    /// the struct and of the field that is the list: `Person.names`.
    pub name: String,
    /// The name of the field of each pointer, with those of the groups around it. Empty if the schema
    /// has none there. If several members of unions share the pointer, their names have ` or ` between
    /// them. A row of elements has no names.
    pub fields: Vec<String>,
}

/// The table of a schema.
#[derive(Drop)]
pub struct Table {
    alloc: Global,
    /// The words of the table.
    pub words: Vec<u32>,
    /// The rows, by their positions. Row 0, which has no pointers, isn't among them.
    pub rows: Vec<TableRow>,
    /// Whether memory was lacking, or the table would have 2^28 words or more.
    pub has_failed: bool,
}

// A word that names the row of a struct.
#[derive(Clone, Copy)]
struct Use {
    position: u32,
    tag: u32,
    id: u64,
}

// A table that is being made.
#[derive(Drop)]
struct Making<'m> {
    nodes: &'m [Node],
    // The kind of a text.
    text: u32,
    table: Table,
    // The structs that have a row, and then those that will have one.
    ids: Vec<u64>,
    uses: Vec<Use>,
}

/// Makes the table of the structs with these ids and of all structs that they can lead to. The structs
/// come in this order, and then the others, by the first field that leads to them; so the table
/// doesn't depend on the order of declarations in the request. `text` is the kind of a text:
/// `TEXT` or `UTF8`. An id that isn't that of a struct has no row.
pub fn table_of(alloc: Global, nodes: &[Node], ids: &[u64], text: u32) -> Table {
    let mut making = Making {
        nodes,
        text,
        table: Table {
            alloc,
            words: Vec::new(alloc),
            rows: Vec::new(alloc),
            has_failed: false,
        },
        ids: Vec::new(alloc),
        uses: Vec::new(alloc),
    };
    making.table.push(0);
    for id in ids {
        making.want(*id);
    }
    making.add_structs();
    making.fill_uses();
    let Making { table, .. } = making;
    table
}

impl Table {
    /// The position of the row of the struct with this id.
    pub fn row_of(&self, id: u64) -> Option<u32> {
        for row in self.rows.iter() {
            if row.id == id {
                return Some(row.position);
            }
        }
        None
    }

    // Appends a word, and returns its position; 0 if that is too large for a table.
    fn push(&mut self, word: u32) -> u32 {
        let position = match u32::try_from(self.words.len()) {
            Ok(position) if position < 1 << 28 => position,
            _ => {
                self.has_failed = true;
                return 0;
            }
        };
        if self.words.push(word).is_err() {
            self.has_failed = true;
        }
        position
    }

    // Appends the row of a struct with `count` pointers that lead to anything, and returns its position.
    fn push_row(&mut self, count: u16) -> u32 {
        let row = self.push(u32::from(count));
        for _ in 0..count {
            self.push(ANY);
        }
        row
    }

    // Writes a word, unless it is the first.
    fn set(&mut self, position: u32, word: u32) {
        if position > 0
            && let Some(at) = self.words.get_mut(position as usize)
        {
            *at = word;
        }
    }

    // Writes a kind with its argument.
    fn set_kind(&mut self, position: u32, tag: u32, argument: u32) {
        self.set(position, argument.wrapping_mul(16) | tag);
    }

    // Adds a row to the list of rows.
    fn add_row(&mut self, row: TableRow) {
        if self.rows.push(row).is_err() {
            self.has_failed = true;
        }
    }

    // Returns a text; an empty one if memory was lacking for a part of it.
    fn string_of(&mut self, text: Text) -> String {
        match text.into_string() {
            Ok(text) => text,
            Err(_) => {
                self.has_failed = true;
                String::new(self.alloc)
            }
        }
    }

    // Appends a test of a union's number, and returns its position.
    fn push_test(&mut self, test: Test) -> u32 {
        let position = self.push(test.offset);
        self.push(u32::from(test.number));
        self.push(ANY);
        self.push(ANY);
        position
    }

    // Appends a row for the elements of a list of pointers, and returns the position of the kind of the
    // elements. Writes the kind of the list to `at`.
    fn push_elements(&mut self, at: u32, name: &str) -> u32 {
        let row = self.push_row(1);
        self.set_kind(at, LIST + POINTER_SIZE, row);
        let mut copied = Text::new(self.alloc);
        copied.push(name);
        let name = self.string_of(copied);
        let fields = Vec::new(self.alloc);
        self.add_row(TableRow {
            position: row,
            id: 0,
            name,
            fields,
        });
        row.saturating_add(1)
    }
}

impl<'m> Making<'m> {
    // Notes that a struct has to have a row.
    fn want(&mut self, id: u64) {
        for known in self.ids.iter() {
            if *known == id {
                return;
            }
        }
        if self.ids.push(id).is_err() {
            self.table.has_failed = true;
        }
    }

    // Adds the rows of all structs that have to have one.
    fn add_structs(&mut self) {
        for i in 0..self.nodes.len() {
            let Some(id) = self.ids.get(i) else {
                return;
            };
            if let Some(node) = find_node(self.nodes, *id)
                && let NodeKind::Struct(it) = &node.kind
            {
                self.add_struct(node, it);
            }
        }
    }

    // Adds the row of a struct.
    fn add_struct(&mut self, node: &Node, it: &Struct) {
        let alloc = self.table.alloc;
        let groups = groups_of(alloc, self.nodes, node.id);
        self.table.has_failed = self.table.has_failed || groups.has_failed;
        let row = self.table.push_row(it.pointers);
        let place = self.table.rows.len();
        let mut name = Text::new(alloc);
        name.push(node.full.as_str());
        let name = self.table.string_of(name);
        self.table.add_row(TableRow {
            position: row,
            id: node.id,
            name,
            fields: Vec::new(alloc),
        });
        let mut fields = Vec::new(alloc);
        for index in 0..it.pointers {
            let groups = groups.groups.as_slice();
            let names = self.add_pointer(node, groups, row, u32::from(index));
            if fields.push(names).is_err() {
                self.table.has_failed = true;
            }
        }
        if let Some(added) = self.table.rows.get_mut(place) {
            added.fields = fields;
        }
    }

    // Writes what pointer `index` of a row may lead to, and returns the names of its fields.
    fn add_pointer(&mut self, node: &Node, groups: &[Group], row: u32, index: u32) -> String {
        let alloc = self.table.alloc;
        let mut names = Text::new(alloc);
        // the words that say what else the pointer may lead to
        let mut open = Vec::new(alloc);
        self.push_open(&mut open, row.saturating_add(1).saturating_add(index));
        for group in groups {
            if let Some(it) = find_struct(self.nodes, group.id) {
                self.add_fields(node, group, it, index, &mut open, &mut names);
            }
        }
        self.table.string_of(names)
    }

    // Adds the fields of a group that are pointer `index`.
    fn add_fields(
        &mut self,
        node: &Node,
        group: &Group,
        it: &Struct,
        index: u32,
        open: &mut Vec<u32>,
        names: &mut Text,
    ) {
        for (i, field) in it.fields.iter().enumerate() {
            if let FieldKind::Slot(slot) = &field.kind
                && slot.offset == index
                && slot.of.is_pointer()
            {
                let at = self.add_tests_of(group, it, i, open);
                push_name(names, group.prefix.as_str(), field.name.as_str());
                let mut name = Text::new(self.table.alloc);
                name.push(node.full.as_str());
                name.push(".");
                name.append(&group.prefix);
                name.push(field.name.as_str());
                self.add_kind(at, slot.of, name.as_str());
            }
        }
    }

    // Adds the tests that have to hold for field `index` of a group.
    fn add_tests_of(
        &mut self,
        group: &Group,
        it: &Struct,
        index: usize,
        open: &mut Vec<u32>,
    ) -> u32 {
        let mut has_failed = false;
        let tests = group.tests_of(self.table.alloc, it, index, &mut has_failed);
        self.table.has_failed = self.table.has_failed || has_failed;
        self.add_tests(tests.as_slice(), open)
    }

    // Adds tests that all have to hold, and returns the position of the word that says what is so then.
    // `open` are the words that say what is so otherwise.
    fn add_tests(&mut self, tests: &[Test], open: &mut Vec<u32>) -> u32 {
        let alloc = self.table.alloc;
        let mut at = match open.first() {
            Some(at) => *at,
            None => 0,
        };
        let mut otherwise = Vec::new(alloc);
        for test in tests {
            let position = self.table.push_test(*test);
            self.set_tests(open.as_slice(), position);
            at = position.saturating_add(2);
            *open = Vec::new(alloc);
            self.push_open(open, at);
            self.push_open(&mut otherwise, position.saturating_add(3));
        }
        *open = otherwise;
        at
    }

    // Makes words name a test.
    fn set_tests(&mut self, open: &[u32], position: u32) {
        for at in open {
            self.table.set_kind(*at, TEST, position);
        }
    }

    // Adds a position to a list.
    fn push_open(&mut self, open: &mut Vec<u32>, position: u32) {
        if open.push(position).is_err() {
            self.table.has_failed = true;
        }
    }

    // Writes the kind of a type to `at`, and adds the rows of elements that it takes. `name` is that of the
    // field.
    fn add_kind(&mut self, at: u32, of: Type, name: &str) {
        let mut at = at;
        for _ in 1..of.lists {
            at = self.table.push_elements(at, name);
        }
        let is_list = of.lists > 0;
        match of.base.kind {
            BaseKind::Struct => {
                let tag = if is_list { LIST + STRUCT_SIZE } else { STRUCT };
                self.add_use(at, tag, of.id);
            }
            BaseKind::Pointer if is_list && of.base.name == "AnyPointer" => {
                self.table.set(at, LIST + POINTER_SIZE);
            }
            BaseKind::Text | BaseKind::Data | BaseKind::Capability | BaseKind::Pointer => {
                if is_list {
                    at = self.table.push_elements(at, name);
                }
                let kind = self.kind_of_pointer(of);
                self.table.set(at, kind);
            }
            _ => self.table.set(at, list_kind(of.base.bits)),
        }
    }

    // The kind of a pointer to what isn't a struct of a schema, nor a list of a type.
    fn kind_of_pointer(&self, of: Type) -> u32 {
        match of.base.kind {
            BaseKind::Text => self.text,
            BaseKind::Data => DATA,
            BaseKind::Capability => CAPABILITY,
            _ => match of.base.name {
                "AnyStruct" => STRUCT,
                "AnyList" => ANY_LIST,
                "Capability" => CAPABILITY,
                _ => ANY,
            },
        }
    }

    // Notes that a word names the row of a struct.
    fn add_use(&mut self, position: u32, tag: u32, id: u64) {
        self.want(id);
        if self.uses.push(Use { position, tag, id }).is_err() {
            self.table.has_failed = true;
        }
    }

    // Writes the words that name rows of structs. One whose struct isn't known stays a pointer to anything.
    fn fill_uses(&mut self) {
        for found in self.uses.iter() {
            if let Some(row) = self.table.row_of(found.id) {
                self.table.set_kind(found.position, found.tag, row);
            }
        }
    }
}

// Adds a name to those of the fields that share a pointer.
fn push_name(names: &mut Text, prefix: &str, name: &str) {
    if !names.as_str().is_empty() {
        names.push(" or ");
    }
    names.push(prefix);
    names.push(name);
}

// The kind of a list of elements with this many bits.
fn list_kind(bits: u64) -> u32 {
    match bits {
        1 => LIST + 1,
        8 => LIST + 2,
        16 => LIST + 3,
        32 => LIST + 4,
        64 => LIST + 5,
        _ => LIST,
    }
}
