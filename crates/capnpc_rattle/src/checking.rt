//! Generates readers of messages that are checked against the schema, once.

use crate::checking_forms::{CheckedForm, checked_form_of};
use crate::checking_templates as templates;
use crate::fields::{
    bytes_literal, push_field_comment, push_skip_comment, put_declared, put_names, put_slot,
    skip_reason, text_literal,
};
use crate::forms::form_of;
use crate::imports::CHECKING;
use crate::names::{TABLE_MODULE, has_enum};
use crate::output::Output;
use crate::readers::Generated;
use crate::tables::{kind_word, number_list, push_words, row_comments};
use crate::unions::{MemberTag, member_list, set_condition, tags_of, tests_of};
use crate::writing::Module;
use capnpc_schema::model::{Default, Field, FieldKind, Node, NodeKind, Slot, Struct};
use capnpc_schema::table::{Table, UTF8, table_of};
use capnpc_schema::text::{Text, Values};
use capnpc_schema::types::BaseKind;
use std::alloc::{AllocError, Global};

// The most columns of a call in one line, and of its arguments.
const CALL_WIDTH: usize = 60;

// A struct or a group whose readers are written.
#[derive(Clone, Copy)]
struct Place<'m> {
    node: &'m Node,
    it: &'m Struct,
    // The row of the struct that it is, or is in.
    row: u32,
}

/// A crate of readers of checked messages as it is generated.
#[derive(Drop)]
pub struct Checking<'m> {
    alloc: Global,
    // Its files.
    output: Output<'m>,
    // The name of the crate of readers.
    reading: &'m str,
    // The table of the schema.
    table: Table,
    // A line for each field that has a getter only in the crate of readers.
    skipped: Text,
}

impl<'m> Checking<'m> {
    /// Returns a crate without files. `reading` is the name of the crate of readers, and `ids` those of
    /// the structs that come first in the table.
    pub fn new(
        alloc: Global,
        name: &'m str,
        reading: &'m str,
        nodes: &'m [Node],
        ids: &[u64],
    ) -> Self {
        Checking {
            alloc,
            output: Output::new(alloc, name, reading, nodes, CHECKING),
            reading,
            table: table_of(alloc, nodes, ids, UTF8),
            skipped: Text::new(alloc),
        }
    }

    /// Generates all files, and returns them. `stem` is the name of the schema's file, without its
    /// ending.
    pub fn generate(mut self, stem: &str) -> Result<Generated, AllocError> {
        let nodes = self.output.nodes;
        for node in nodes {
            if let NodeKind::Struct(it) = &node.kind {
                self.write_struct(node, it);
            }
        }
        self.write_table();
        let mut definitions = Text::new(self.alloc);
        let mut values = Values::new(self.alloc);
        values.put_text("numbers", number_list(self.alloc, &self.table));
        definitions.push_filled(templates::TABLE_DEFINITION, &values);
        let Checking {
            mut output,
            table,
            skipped,
            ..
        } = self;
        output.note_if_failed(table.has_failed);
        output.finish_crate(stem, definitions);
        let files = output.into_files()?;
        let skipped = skipped.into_string()?;
        Ok(Generated { files, skipped })
    }

    // Writes the module of the table.
    fn write_table(&mut self) {
        let mut module = Module::new(self.alloc, TABLE_MODULE);
        let mut values = Values::new(self.alloc);
        let mut words = Text::new(self.alloc);
        push_words(&mut words, self.alloc, &self.table);
        values.put_number("count", self.table.words.len() as u64);
        values.put_text("words", words);
        values.put_text("rows", row_comments(self.alloc, &self.table));
        module.has_table = true;
        module.body.push_filled(templates::TABLE, &values);
        self.output
            .add_module(&mut module, "The table of the schema");
    }

    // Writes the module of a struct or a group.
    fn write_struct(&mut self, node: &'m Node, it: &'m Struct) {
        let owner = self.output.owner(node);
        let Some(row) = self.table.row_of(owner.id) else {
            return;
        };
        let mut module = Module::new(self.alloc, node.module.as_str());
        let mut values = self.struct_values(node, row);
        if !it.is_group {
            module.has_table = true;
            module.body.push_filled(templates::ROOT, &values);
        }
        module.begin_item();
        module.body.push(templates::AS_READER_ABOUT);
        values.put_lines(templates::AS_READER_PARTS);
        push_getter(&mut module, templates::AS_READER, &values);
        self.write_getters(&mut module, Place { node, it, row });
        let methods = module.take_body();
        module.modules.add_once(self.alloc, TABLE_MODULE);
        module.body.push_filled(templates::CHECKED, &values);
        module.push_impl("impl<'a, A: ReaderArena> Checked<'a, A> {\n", &methods);
        if !it.is_group {
            module.body.push_filled(templates::CHECKED_LIST, &values);
        }
        self.output.add_module(&mut module, node.full.as_str());
    }

    // What the text of a struct has in common.
    fn struct_values(&self, node: &Node, row: u32) -> Values {
        let mut values = Values::new(self.alloc);
        values.put("full", node.full.as_str());
        values.put("reading", self.reading);
        values.put("module", node.module.as_str());
        values.put_number("row", u64::from(row));
        values
    }

    // Writes the getters of a struct.
    fn write_getters(&mut self, module: &mut Module, place: Place<'m>) {
        for field in place.it.fields.iter() {
            let mut values = self.struct_values(place.node, place.row);
            values.put("in", "checked.");
            values.put("space", " ");
            values.put("name", field.name.as_str());
            values.put("snake", field.snake.as_str());
            values.put("spec", field.spec.as_str());
            values.put("line", "\n        ");
            values.put_lines(crate::templates::ANY);
            self.write_field_call(module, place, field, &mut values);
        }
        if place.it.members > 0 {
            self.write_which(module, place.it);
        }
    }

    // Writes the call that says which member of a union is set.
    fn write_which(&mut self, module: &mut Module, it: &Struct) {
        let mut values = Values::new(self.alloc);
        let offset = u64::from(it.tag_offset);
        values.put("in", "checked.");
        values.put("spec", it.tag.as_str());
        values.put("module", it.which.as_str());
        values.put_number("index", offset);
        values.put_number("count", u64::from(it.members));
        values.put_lines(crate::templates::ANY);
        module.specs.add_once(self.alloc, it.tag.as_str());
        module.begin_item();
        if !has_enum(usize::from(it.members)) {
            values.put_lines(crate::templates::WHICH);
            values.put_lines(crate::templates::WHICH_NUMBER);
            module.body.push(crate::templates::WHICH_NUMBER_ABOUT);
            push_getter(module, crate::templates::UNSIGNED, &values);
            return;
        }
        module.put_outside(it.which.as_str(), &mut values);
        module.numbers.add_once(self.alloc, it.which.as_str());
        values.put_lines(crate::templates::WHICH);
        module.body.push(crate::templates::WHICH_ABOUT);
        push_getter(module, crate::templates::ENUM, &values);
    }

    // Writes the call of a field.
    fn write_field_call(
        &mut self,
        module: &mut Module,
        place: Place<'m>,
        field: &'m Field,
        values: &mut Values,
    ) {
        match &field.kind {
            FieldKind::Group(id) => self.write_group_getter(module, *id, values),
            FieldKind::Slot(slot) => {
                let why = skip_reason(self.output.nodes, slot);
                if !why.is_empty() {
                    push_skip_comment(module, why, values);
                } else if has_other_text(slot) {
                    self.skip_text(module, values);
                } else if let Some(form) = checked_form_of(slot) {
                    self.write_pointer(module, place, field, slot, form, values);
                } else if !slot.of.is_void() {
                    self.write_plain(module, field, slot, values);
                }
            }
            FieldKind::Unknown => push_skip_comment(module, "its type is unknown", values),
        }
    }

    // Writes a comment in place of the getter of a text whose default value isn't UTF-8, and notes that.
    // The crate of readers has one, which returns bytes.
    fn skip_text(&mut self, module: &mut Module, values: &mut Values) {
        push_skip_comment(module, "its default value isn't UTF-8", values);
        self.skipped.push_filled(
            "~full~.~name~ isn't written for checked messages: ~why~\n",
            values,
        );
    }

    // Writes the getter of a group.
    fn write_group_getter(&mut self, module: &mut Module, id: u64, values: &mut Values) {
        let Some(node) = self.output.node(id) else {
            push_skip_comment(module, "its group is unknown", values);
            return;
        };
        module.begin_item();
        module.body.push_filled("    /// ~name~ :group\n", values);
        module.put_path(node.module.as_str(), values);
        values.put_lines(templates::GROUP_PARTS);
        push_getter(module, templates::GROUP, values);
    }

    // Writes the getter of a field that no check concerns, as in a reader that isn't checked.
    fn write_plain(
        &mut self,
        module: &mut Module,
        field: &Field,
        slot: &Slot,
        values: &mut Values,
    ) {
        let form = form_of(self.output.nodes, slot.of);
        let has_default = !matches!(slot.default, Default::Zero);
        put_slot(&self.output, slot, values);
        module.begin_item();
        push_field_comment(module, field.ordinal, values);
        if form.is_declared
            && let Some(node) = self.output.node(slot.of.id)
        {
            module.put_outside(node.module.as_str(), values);
            put_names(module, node, values);
        }
        values.put_lines(if has_default { form.read_or } else { form.read });
        module.specs.add_once(self.alloc, field.spec.as_str());
        push_getter(module, form.getter, values);
        if form.is_pointer {
            write_has(module, values);
        }
    }

    // Writes the getter of a pointer that the check has seen.
    fn write_pointer(
        &mut self,
        module: &mut Module,
        place: Place<'m>,
        field: &'m Field,
        slot: &Slot,
        form: &CheckedForm,
        values: &mut Values,
    ) {
        let mut has_failed = false;
        let tags = tags_of(&self.output, place.node, place.it, field, &mut has_failed);
        self.output.note_if_failed(has_failed);
        let is_member = !tags.is_empty();
        self.put_pointer(module, slot, form, values);
        self.put_members(place, slot, tags.as_slice(), values);
        values.put_lines(form.read);
        for tag in tags.iter() {
            module.specs.add_once(self.alloc, tag.name);
        }
        module.specs.add_once(self.alloc, field.spec.as_str());
        module.begin_item();
        push_field_comment(module, field.ordinal, values);
        let may_be_null = matches!(slot.default, Default::Words(_));
        module.body.push(about(is_member, may_be_null));
        if is_member || may_be_null {
            values.put_lines("gives=Option<~type~>\nit=r");
        } else {
            values.put_lines("gives=~type~\nit=result");
        }
        values.put_lines("holds=~holds_start~~it~~holds_end~");
        values.put_lines(if is_member {
            templates::MEMBER_CALL
        } else {
            templates::CALL
        });
        let mut read = Text::new(self.alloc);
        read.push_filled(read_template(form, is_member, layout_of(values)), values);
        values.put_text("read", read);
        push_getter(module, template(is_member, may_be_null), values);
        write_has(module, values);
    }

    // Puts what a pointer's getter has.
    fn put_pointer(
        &mut self,
        module: &mut Module,
        slot: &Slot,
        form: &CheckedForm,
        values: &mut Values,
    ) {
        put_slot(&self.output, slot, values);
        if form.is_declared
            && let Some(node) = self.output.node(slot.of.id)
        {
            put_declared(module, node, values);
        }
        if let Default::Bytes(bytes) = &slot.default {
            values.put_text("bytes", bytes_literal(self.alloc, bytes.as_slice()));
            if let Some(text) = text_literal(self.alloc, bytes.as_slice()) {
                values.put_text("text", text);
            }
        }
    }

    // Puts the members that have to be set, and the row of the elements of a list of pointers.
    fn put_members(
        &mut self,
        place: Place<'m>,
        slot: &Slot,
        tags: &[MemberTag<'_>],
        values: &mut Values,
    ) {
        values.put_text("members", member_list(self.alloc, tags));
        values.put_text("when", set_condition(self.alloc, tags));
        let mut has_failed = false;
        let tests = tests_of(self.alloc, tags, &mut has_failed);
        self.output.note_if_failed(has_failed);
        let word = kind_word(&self.table, place.row, slot.offset, tests.as_slice());
        values.put_number("below", u64::from(word / 16));
    }
}

// Whether a field is a text whose default value isn't UTF-8.
fn has_other_text(slot: &Slot) -> bool {
    match &slot.default {
        Default::Bytes(bytes) => is_text(slot) && str::from_utf8(bytes.as_slice()).is_err(),
        _ => false,
    }
}

// Whether a field is a text.
fn is_text(slot: &Slot) -> bool {
    slot.of.lists == 0 && matches!(slot.of.base.kind, BaseKind::Text)
}

// Writes the call that says whether a pointer is null.
fn write_has(module: &mut Module, values: &mut Values) {
    values.put_lines(crate::templates::HAS_PARTS);
    module.body.push_filled(crate::templates::HAS_ABOUT, values);
    push_getter(module, crate::templates::HAS, values);
}

// Writes a call from its name on: `template` has its clauses and its body.
fn push_getter(module: &mut Module, template: &str, values: &Values) {
    module.push_signature("pub fn ~call~(", ") -> ~gives~\n", values);
    module.body.push_filled(template, values);
}

// The further comment of a getter whose value may not be there.
fn about(is_member: bool, may_be_null: bool) -> &'static str {
    match (is_member, may_be_null) {
        (true, true) => templates::MEMBER_NULL_ABOUT,
        (true, false) => templates::MEMBER_ABOUT,
        (false, true) => templates::NULL_ABOUT,
        (false, false) => "",
    }
}

// The contract and the body of a getter.
fn template(is_member: bool, may_be_null: bool) -> &'static str {
    match (is_member, may_be_null) {
        (true, true) => templates::MEMBER_UNLESS_NULL,
        (true, false) => templates::MEMBER,
        (false, true) => templates::UNLESS_NULL,
        (false, false) => templates::POINTER,
    }
}

// How `rt fmt` lays out the call that reads a field.
#[derive(Clone, Copy)]
enum Layout {
    OneLine,
    TwoLines,
    LineOfEachArgument,
}

// The layout of the call that `CALL` or `MEMBER_CALL` has put.
fn layout_of(values: &Values) -> Layout {
    let args = values.get("args").chars().count();
    let around = "self.checked.()".len();
    let name = values.get("reads").len();
    if around.saturating_add(name).saturating_add(args) <= CALL_WIDTH {
        Layout::OneLine
    } else if args <= CALL_WIDTH {
        Layout::TwoLines
    } else {
        Layout::LineOfEachArgument
    }
}

// The expression that reads a field.
fn read_template(form: &CheckedForm, is_member: bool, layout: Layout) -> &'static str {
    match (form.is_declared, is_member, layout) {
        (true, true, Layout::OneLine) => templates::READ_CHECKED_MEMBER,
        (true, true, _) => templates::READ_CHECKED_MEMBER_IN_LINES,
        (true, false, _) => templates::READ_CHECKED,
        (false, _, Layout::OneLine) => templates::READ,
        (false, _, Layout::TwoLines) => templates::READ_IN_TWO,
        (false, _, Layout::LineOfEachArgument) => templates::READ_IN_LINES,
    }
}
