//! Generates readers.

use crate::fields::{
    enum_type_name, push_field_comment, push_skip_comment, put_declared, put_slot, skip_reason,
};
use crate::forms::form_of;
use crate::imports::READERS;
use crate::names::{has_enum, variant_name};
use crate::output::Output;
use crate::templates;
use crate::writing::Module;
use capnpc_schema::files::File;
use capnpc_schema::model::{Default, Field, FieldKind, Node, NodeKind, Slot, Struct};
use capnpc_schema::names::Names;
use capnpc_schema::text::{Text, Values};
use std::alloc::{AllocError, Global};

/// What is generated for readers.
#[derive(Drop)]
pub struct Generated {
    /// The files.
    pub files: Vec<File>,
    /// A line for each field that isn't written.
    pub skipped: String,
}

/// A crate of readers as it is generated.
#[derive(Drop)]
pub struct Readers<'m> {
    alloc: Global,
    // Its files.
    output: Output<'m>,
    // The definitions of the fields.
    definitions: Text,
    // A line for each field that has no calls.
    skipped: Text,
}

impl<'m> Readers<'m> {
    /// Returns a crate without files.
    pub fn new(alloc: Global, name: &'m str, nodes: &'m [Node]) -> Self {
        Readers {
            alloc,
            output: Output::new(alloc, name, name, nodes, READERS),
            definitions: Text::new(alloc),
            skipped: Text::new(alloc),
        }
    }

    /// Generates all files. `stem` is the name of the schema's file, without its ending.
    pub fn generate(mut self, stem: &str) -> Result<Generated, AllocError> {
        self.definitions.push(templates::DEFINITIONS);
        let nodes = self.output.nodes;
        for node in nodes {
            match &node.kind {
                NodeKind::Struct(it) => self.write_struct(node, it),
                NodeKind::Enum(names) => self.write_enum(node, names.as_slice()),
                NodeKind::File | NodeKind::Const(_) | NodeKind::Other(_) => {}
            }
        }
        let Readers {
            mut output,
            definitions,
            skipped,
            ..
        } = self;
        output.finish_crate(stem, definitions);
        let files = output.into_files()?;
        let skipped = skipped.into_string()?;
        Ok(Generated { files, skipped })
    }

    // Adds a definition: `values` has its name, `spec`, what it is about, its type, and its value.
    fn define(&mut self, module: &mut Module, template: &str, values: &Values) {
        module.specs.add(self.alloc, values.get("spec"));
        self.definitions.push_filled(template, values);
    }

    // Writes the module of a struct or a group, and that of its union.
    fn write_struct(&mut self, node: &Node, it: &Struct) {
        let mut module = Module::new(self.alloc, node.module.as_str());
        let mut values = Values::new(self.alloc);
        values.put("full", node.full.as_str());
        if !it.is_group {
            module.body.push(templates::ROOT);
        }
        self.write_getters(&mut module, node, it);
        if it.members > 0 {
            self.write_which(&mut module, node, it);
        }
        let methods = module.take_body();
        module.body.push_filled(templates::READER, &values);
        module.push_impl("impl<'a, A: ReaderArena> Reader<'a, A> {\n", &methods);
        if !it.is_group {
            module.body.push_filled(templates::READERS, &values);
        }
        self.output.add_module(&mut module, node.full.as_str());
        if it.members > 0 {
            self.write_union_module(node, it);
        }
    }

    // Writes the module of a union's members.
    fn write_union_module(&mut self, node: &Node, it: &Struct) {
        if !has_enum(usize::from(it.members)) {
            return;
        }
        let mut about = Text::new(self.alloc);
        about.push_all(&["Which member of ", node.full.as_str(), " is set"]);
        let members = member_names(self.alloc, it);
        self.output
            .note_if_failed(about.has_failed || members.has_failed);
        self.write_enum_module(
            it.which.as_str(),
            "Which",
            about.as_str(),
            members.as_slice(),
        );
    }

    // Writes the getters of a struct.
    fn write_getters(&mut self, module: &mut Module, node: &Node, it: &Struct) {
        for field in it.fields.iter() {
            let mut values = Values::new(self.alloc);
            values.put("full", node.full.as_str());
            values.put("name", field.name.as_str());
            values.put("snake", field.snake.as_str());
            values.put("spec", field.spec.as_str());
            values.put("line", "\n        ");
            values.put_lines(templates::ANY);
            self.write_field_calls(module, field, &mut values);
        }
    }

    // Writes the call that says which member of a union is set.
    fn write_which(&mut self, module: &mut Module, node: &Node, it: &Struct) {
        let mut values = Values::new(self.alloc);
        let offset = u64::from(it.tag_offset);
        values.put("full", node.full.as_str());
        values.put("spec", it.tag.as_str());
        values.put("module", it.which.as_str());
        values.put_number("bit", offset.saturating_mul(16));
        values.put_number("index", offset);
        values.put_number("count", u64::from(it.members));
        values.put_lines(templates::ANY);
        if !has_enum(usize::from(it.members)) {
            values.put_lines(templates::WHICH);
            values.put_lines(templates::WHICH_NUMBER);
            self.define(module, templates::DEFINITION, &values);
            module.begin_item();
            module.body.push(templates::WHICH_NUMBER_ABOUT);
            push_getter(module, templates::UNSIGNED, &values);
            return;
        }
        module.put_path(it.which.as_str(), &mut values);
        module.numbers.add_once(self.alloc, it.which.as_str());
        values.put_lines(templates::WHICH);
        self.define(module, templates::DEFINITION, &values);
        module.begin_item();
        module.body.push(templates::WHICH_ABOUT);
        push_getter(module, templates::ENUM, &values);
    }

    // Writes the module of an enum.
    fn write_enum(&mut self, node: &Node, names: &[String]) {
        if !has_enum(names.len()) {
            return;
        }
        let name = enum_type_name(self.alloc, node);
        self.write_enum_module(
            node.module.as_str(),
            name.as_str(),
            node.full.as_str(),
            names,
        );
    }

    // Writes the module of an enum, or of the members of a union.
    fn write_enum_module(&mut self, name: &str, of: &str, about: &str, names: &[String]) {
        let mut module = Module::new(self.alloc, name);
        module.numbers.add(self.alloc, name);
        let mut values = Values::new(self.alloc);
        values.put("full", about);
        values.put("type", of);
        values.put("module", name);
        values.put("crate", self.output.name);
        values.put_number("count", names.len() as u64);
        put_variants(self.alloc, names, &mut values);
        module.body.push_filled(templates::NAMES, &values);
        let mut text = Text::new(self.alloc);
        text.push_filled(templates::NUMBERS, &values);
        self.output.add_numbers_file(name, text);
        self.output.add_module(&mut module, about);
    }

    // Writes the calls of a field.
    fn write_field_calls(&mut self, module: &mut Module, field: &Field, values: &mut Values) {
        match &field.kind {
            FieldKind::Group(id) => self.write_group_getter(module, *id, values),
            FieldKind::Slot(slot) => {
                let why = skip_reason(self.output.nodes, slot);
                if !why.is_empty() {
                    self.skip_field(module, why, values);
                } else if !slot.of.is_void() {
                    self.write_slot_calls(module, field, slot, values);
                }
            }
            FieldKind::Unknown => self.skip_field(module, "its type is unknown", values),
        }
    }

    // Writes the getter of a group.
    fn write_group_getter(&mut self, module: &mut Module, id: u64, values: &mut Values) {
        let Some(node) = self.output.node(id) else {
            self.skip_field(module, "its group is unknown", values);
            return;
        };
        module.begin_item();
        module.body.push_filled("    /// ~name~ :group\n", values);
        module.put_path(node.module.as_str(), values);
        values.put_lines(templates::GROUP_PARTS);
        push_getter(module, templates::GROUP, values);
    }

    // Writes a comment in place of a field's calls, and notes that.
    fn skip_field(&mut self, module: &mut Module, why: &'static str, values: &mut Values) {
        push_skip_comment(module, why, values);
        self.skipped
            .push_filled("~full~.~name~ isn't written: ~why~\n", values);
    }

    // Writes the getter of a field that isn't a group, and of a pointer the call that says whether it is
    // null.
    fn write_slot_calls(
        &mut self,
        module: &mut Module,
        field: &Field,
        slot: &Slot,
        values: &mut Values,
    ) {
        let form = form_of(self.output.nodes, slot.of);
        let has_default = !matches!(slot.default, Default::Zero);
        put_slot(&self.output, slot, values);
        module.begin_item();
        push_field_comment(module, field.ordinal, values);
        if form.is_declared
            && let Some(node) = self.output.node(slot.of.id)
        {
            put_declared(module, node, values);
        }
        values.put_lines(if has_default { form.read_or } else { form.read });
        self.define(module, templates::DEFINITION, values);
        self.define_default(module, field.default_spec.as_str(), values);
        let getter = if has_default {
            form.getter_or
        } else {
            form.getter
        };
        push_getter(module, getter, values);
        if form.is_pointer {
            values.put_lines(templates::HAS_PARTS);
            module.body.push_filled(templates::HAS_ABOUT, values);
            push_getter(module, templates::HAS, values);
        }
    }

    // Adds the definition of the default value of a struct or a list, if there is one.
    fn define_default(&mut self, module: &mut Module, spec: &str, values: &mut Values) {
        values.put("default", spec);
        if !spec.is_empty() {
            module.specs.add(self.alloc, spec);
            self.definitions.push_filled(templates::DEFAULT, values);
        }
    }
}

// Writes a call from its name on: `template` has its clauses and its body.
fn push_getter(module: &mut Module, template: &str, values: &Values) {
    module.push_signature("pub fn ~call~(", ") -> ~gives~\n", values);
    module.body.push_filled(template, values);
}

// Puts the variants of an enum, what reads them, and their numbers. `values` has the enum's type and
// module.
fn put_variants(alloc: Global, names: &[String], values: &mut Values) {
    let mut taken = Names::new(alloc);
    let mut variants = Text::new(alloc);
    let mut arms = Text::new(alloc);
    let mut numbers = Text::new(alloc);
    let mut number = 0u64;
    for name in names {
        let row = variant_values(alloc, name.as_str(), number, &mut taken, values);
        variants.push_filled("    /// ~name~ @~number~\n    ~variant~,\n", &row);
        arms.push_filled("        ~number~ => ~type~::~variant~,\n", &row);
        numbers.push_filled("~module~_number ~variant~ = ~number~\n", &row);
        number = number.saturating_add(1);
    }
    values.put_text("variants", variants);
    values.put_text("arms", arms);
    values.put_text("numbers", numbers);
    let mut list = Text::new(alloc);
    taken.join_into(&mut list);
    values.put_text("names", list);
}

// The words of a variant. `taken` are the variants before it, and `values` has the enum's type and
// module.
fn variant_values(
    alloc: Global,
    name: &str,
    number: u64,
    taken: &mut Names,
    values: &Values,
) -> Values {
    let variant = variant_name(alloc, values.get("type"), name, taken);
    let mut row = Values::new(alloc);
    row.put("name", name);
    row.put_text("variant", variant);
    row.put("type", values.get("type"));
    row.put("module", values.get("module"));
    row.put_number("number", number);
    row
}

// The names of a union's members, by their numbers.
fn member_names(alloc: Global, it: &Struct) -> Names {
    let mut names = Names::new(alloc);
    for number in 0..it.members {
        add_member(alloc, it, number, &mut names);
    }
    names
}

// Adds the name of the member of a union with this number.
fn add_member(alloc: Global, it: &Struct, number: u16, names: &mut Names) {
    for field in it.fields.iter() {
        if field.discriminant == number {
            names.add(alloc, field.name.as_str());
            return;
        }
    }
}
