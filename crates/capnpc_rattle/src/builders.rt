//! Generates builders.

use crate::calls::write_call;
use crate::fields::{
    enum_type_name, push_field_comment, push_skip_comment, put_declared, put_slot,
};
use crate::forms::form_of;
use crate::imports::BUILDERS;
use crate::names::{BUILDER_WORDS, has_enum, variant_name};
use crate::output::Output;
use crate::parts::builder_template;
use crate::slots::{slot_items, slot_list};
use crate::writing::Module;
use crate::{building as templates, calls};
use capnpc_schema::files::File;
use capnpc_schema::model::{
    Default, Field, FieldKind, NO_DISCRIMINANT, Node, NodeKind, Slot, Struct, lacking,
};
use capnpc_schema::names::Names;
use capnpc_schema::slots::add_group_slots;
use capnpc_schema::text::{Text, Values};
use capnpc_schema::types::BaseKind;
use std::alloc::{AllocError, Global};

/// A crate of builders as it is generated.
#[derive(Drop)]
pub struct Builders<'m> {
    alloc: Global,
    // Its files.
    output: Output<'m>,
    // The name of the crate of readers.
    reading: &'m str,
    // The definitions of the structs' sections.
    sizes: Text,
}

impl<'m> Builders<'m> {
    /// Returns a crate without files. `reading` is the name of the crate of readers.
    pub fn new(alloc: Global, name: &'m str, reading: &'m str, nodes: &'m [Node]) -> Self {
        Builders {
            alloc,
            output: Output::new(alloc, name, reading, nodes, BUILDERS),
            reading,
            sizes: Text::new(alloc),
        }
    }

    /// Generates all files, and returns them. `stem` is the name of the schema's file, without its
    /// ending.
    pub fn generate(mut self, stem: &str) -> Result<Vec<File>, AllocError> {
        self.sizes.push(templates::SIZE_DEFINITIONS);
        let nodes = self.output.nodes;
        for node in nodes {
            match &node.kind {
                NodeKind::Struct(it) => self.write_struct(node, it),
                NodeKind::Enum(names) => self.write_enum(node, names.as_slice()),
                NodeKind::File | NodeKind::Const(_) | NodeKind::Other(_) => {}
            }
        }
        let Builders {
            mut output,
            sizes,
            ..
        } = self;
        output.finish_crate(stem, sizes);
        output.into_files()
    }

    // Writes the module of a struct or a group.
    fn write_struct(&mut self, node: &'m Node, it: &Struct) {
        let mut module = Module::new(self.alloc, node.module.as_str());
        let mut values = Values::new(self.alloc);
        values.put("full", node.full.as_str());
        values.put("owner", self.output.owner(node).module.as_str());
        values.put("what", if it.is_group { "the group" } else { "a struct" });
        put_sections(it, &mut values);
        if !it.is_group {
            self.sizes.push_filled(templates::SIZE_DEFINITION, &values);
            module.push_filled(templates::ROOT, &values);
        }
        self.write_calls(&mut module, node, it);
        let methods = module.take_body();
        self.add_size_if_named(&mut module, self.output.owner(node), &methods);
        if !it.is_group {
            module.push_filled(templates::SIZE, &values);
        }
        module.push_filled(templates::BUILDER, &values);
        if !it.is_group {
            module.push_filled(templates::FROM_PLACE, &values);
        }
        module.push_impl("impl Builder {\n", &methods);
        if !it.is_group {
            module.push_filled(templates::BUILDERS, &values);
        }
        self.output.add_module(&mut module, node.full.as_str());
    }

    // Adds the definition of a struct's sections to those that the module names, if its text names it.
    fn add_size_if_named(&self, module: &mut Module, node: &Node, body: &Text) {
        let mut size = Text::new(self.alloc);
        size.push_all(&[" ", node.module.as_str(), "_size"]);
        if body.as_str().contains(size.as_str()) {
            module
                .sizes
                .add_once(self.alloc, size.as_str().trim_start());
        }
    }

    // Writes the calls of a struct's fields, and that of its union.
    fn write_calls(&mut self, module: &mut Module, node: &'m Node, it: &Struct) {
        let mut names = Names::new(self.alloc);
        for field in it.fields.iter() {
            let mut values = self.common_values(node);
            self.put_field_names(field, &mut names, &mut values);
            put_tag(field, it, &mut values);
            self.write_field_calls(module, field, &mut values);
        }
        self.output.note_if_failed(names.has_failed);
        if it.members > 0 {
            let mut values = self.common_values(node);
            values.put("spec", it.tag.as_str());
            values.put("module", it.which.as_str());
            values.put_number("index", u64::from(it.tag_offset));
            values.put_number("count", u64::from(it.members));
            module.specs.add(self.alloc, it.tag.as_str());
            if !has_enum(usize::from(it.members)) {
                write_call(module, calls::WHICH_NUMBER, &mut values);
                return;
            }
            module.numbers.add_once(self.alloc, it.which.as_str());
            write_call(module, calls::WHICH, &mut values);
        }
    }

    // What the calls of a struct's fields have in common.
    fn common_values(&self, node: &'m Node) -> Values {
        let mut values = Values::new(self.alloc);
        values.put("full", node.full.as_str());
        values.put("owner", self.output.owner(node).module.as_str());
        values.put("reading", self.reading);
        values.put("reads", templates::READS);
        values
    }

    // Puts the names of a field. `names` are those of the fields before it.
    fn put_field_names(&self, field: &Field, names: &mut Names, values: &mut Values) {
        let mut name = Text::new(self.alloc);
        name.push(field.snake.as_str());
        names.make_unique_and_add(self.alloc, BUILDER_WORDS, &mut name);
        values.put("name", field.name.as_str());
        values.put_text("snake", name);
        values.put("spec", field.spec.as_str());
    }

    // Writes the module of an enum.
    fn write_enum(&mut self, node: &Node, names: &[String]) {
        if !has_enum(names.len()) {
            return;
        }
        let mut module = Module::new(self.alloc, node.module.as_str());
        module.numbers.add(self.alloc, node.module.as_str());
        let mut values = Values::new(self.alloc);
        values.put("reading", self.reading);
        values.put("module", node.module.as_str());
        values.put_text("enum", enum_type_name(self.alloc, node));
        put_arms(self.alloc, names, &mut values);
        module.push_filled(templates::NUMBER, &values);
        self.output.add_module(&mut module, node.full.as_str());
    }

    // Writes the calls of a field.
    fn write_field_calls(&mut self, module: &mut Module, field: &Field, values: &mut Values) {
        match &field.kind {
            FieldKind::Group(id) => self.write_group_calls(module, *id, values),
            FieldKind::Slot(slot) => {
                let why = lacking(self.output.nodes, slot);
                if !why.is_empty() {
                    push_skip_comment(module, why, values);
                } else {
                    self.write_slot_calls(module, field, slot, values);
                }
            }
            FieldKind::Unknown => push_skip_comment(module, "its type is unknown", values),
        }
    }

    // Writes the calls of a group: one returns its builder, and one makes its fields zero before that.
    fn write_group_calls(&mut self, module: &mut Module, id: u64, values: &mut Values) {
        let Some(node) = self.output.node(id) else {
            push_skip_comment(module, "its group is unknown", values);
            return;
        };
        module.put_path(node.module.as_str(), values);
        let mut slots = Names::new(self.alloc);
        add_group_slots(self.alloc, self.output.nodes, id, &mut slots);
        self.output.note_if_failed(slots.has_failed);
        values.put_text("slots", slot_list(self.alloc, &slots));
        values.put_text("items", slot_items(self.alloc, &slots));
        let is_empty = slots.as_slice().is_empty();
        values.put("array", if is_empty { "&[]" } else { "&slots" });
        write_call(module, calls::GET_GROUP, values);
        write_call(module, calls::INIT_GROUP, values);
    }

    // Writes the calls of a field that isn't a group.
    fn write_slot_calls(
        &mut self,
        module: &mut Module,
        field: &Field,
        slot: &Slot,
        values: &mut Values,
    ) {
        if slot.of.is_void() && field.discriminant == NO_DISCRIMINANT {
            return;
        }
        let form = form_of(self.output.nodes, slot.of);
        let has_default = !matches!(slot.default, Default::Zero);
        put_slot(&self.output, slot, values);
        if slot.of.lists > 0 || !matches!(slot.of.base.kind, BaseKind::Pointer) {
            module.begin_item();
            push_field_comment(module, field.ordinal, values);
        }
        if form.is_declared
            && let Some(node) = self.output.node(slot.of.id)
        {
            self.put_contract_values(module, node, values);
        }
        if !form.is_pointer && !slot.of.is_void() {
            module.specs.add(self.alloc, field.spec.as_str());
        }
        values.put_lines(if has_default {
            form.build_or
        } else {
            form.build
        });
        for lines in if has_default {
            form.calls_or
        } else {
            form.calls
        } {
            write_call(module, lines, values);
        }
    }

    // Puts what the calls of a struct, of a list of structs, or of an enum have in their contracts. Of an
    // enum, writes what the prover needs for the first of them.
    fn put_contract_values(&self, module: &mut Module, node: &Node, values: &mut Values) {
        put_declared(module, node, values);
        match &node.kind {
            NodeKind::Struct(inner) => {
                let mut size = Text::new(self.alloc);
                size.push_all(&[node.module.as_str(), "_size"]);
                module.sizes.add_once(self.alloc, size.as_str());
                put_sections(inner, values);
            }
            _ => module.push_filled(builder_template(values.get("of_call")), values),
        }
    }
}

// Puts the sections of a struct, how many words they have, and how many of it a list can have.
fn put_sections(it: &Struct, values: &mut Values) {
    let data = u64::from(it.data_words);
    let pointers = u64::from(it.pointers);
    let words = data.saturating_add(pointers);
    values.put_number("data", data);
    values.put_number("pointers", pointers);
    values.put_number("words", words);
    values.put_lines(if words == 0 {
        calls::NO_WORDS
    } else {
        calls::WORDS
    });
}

// Puts what the calls of a member of a union have that another field's calls don't have.
fn put_tag(field: &Field, it: &Struct, values: &mut Values) {
    if field.discriminant == NO_DISCRIMINANT {
        values.put_lines(calls::FIELD);
        return;
    }
    let offset = u64::from(it.tag_offset);
    values.put_number("tag_offset", offset);
    values.put_number("tag_bit", offset.saturating_mul(16));
    values.put_number("tag", u64::from(field.discriminant));
    values.put_lines(calls::MEMBER);
}

// Puts the arms of the function that returns the number of an enum. `values` has its type.
fn put_arms(alloc: Global, names: &[String], values: &mut Values) {
    let mut taken = Names::new(alloc);
    let mut arms = Text::new(alloc);
    let mut number = 0u64;
    for name in names {
        let variant = variant_name(alloc, values.get("enum"), name.as_str(), &mut taken);
        let mut row = Values::new(alloc);
        row.put_text("variant", variant);
        row.put("enum", values.get("enum"));
        row.put_number("number", number);
        arms.push_filled("        ~enum~::~variant~ => ~number~,\n", &row);
        number = number.saturating_add(1);
    }
    values.put_text("arms", arms);
}
