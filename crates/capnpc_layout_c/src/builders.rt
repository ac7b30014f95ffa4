//! Writes the calls of structs that build.

use crate::members::{is_member, is_void};
use crate::readers::Schema;
use crate::templates;
use capnpc_schema::model::{Default, Field, FieldKind, Slot};
use capnpc_schema::names::Names;
use capnpc_schema::slots::add_group_slots;
use capnpc_schema::text::{Text, Values};
use std::alloc::Global;

impl<'m> Schema<'m> {
    /// Writes the calls of a field that build.
    pub fn write_setters(&mut self, field: &Field, comment: &str, values: &mut Values) {
        match &field.kind {
            FieldKind::Group(id) => self.write_group(*id, is_member(field), values),
            FieldKind::Slot(_) if is_void(field) => {
                if is_member(field) {
                    self.begin_call(comment, values);
                    self.push(templates::SET_VOID, values);
                }
            }
            FieldKind::Slot(slot) => self.write_slot_setters(slot, values),
            FieldKind::Unknown => {}
        }
    }

    // Writes the calls of a field that isn't a group.
    fn write_slot_setters(&mut self, slot: &Slot, values: &Values) {
        self.push_if("set", templates::SET, values);
        self.push_if("set_n", templates::SET_N, values);
        self.push_if("init_gives", templates::INIT, values);
        self.push_if("built", templates::INIT_WRAPPED, values);
        if matches!(slot.default, Default::Zero) {
            self.push_if("open", templates::OPEN_STRUCT, values);
        }
        self.push_if("copies", templates::COPY, values);
    }

    // Appends a template if there is something for this word.
    fn push_if(&mut self, word: &str, template: &str, values: &Values) {
        if !values.get(word).is_empty() {
            self.push(template, values);
        }
    }

    // Writes the calls of a group.
    fn write_group(&mut self, id: u64, is_member: bool, values: &mut Values) {
        self.push(templates::BUILD_GROUP, values);
        if is_member {
            values.put_text("zeros", zeros_of(self, id));
            self.push(templates::INIT_GROUP, values);
        }
    }
}

// The statements that make all fields of a group zero or null.
fn zeros_of(schema: &Schema<'_>, id: u64) -> Text {
    let mut slots = Names::new(schema.alloc);
    add_group_slots(schema.alloc, schema.nodes, id, &mut slots);
    let mut zeros = Text::new(schema.alloc);
    for slot in slots.as_slice() {
        let (kind, offset) = slot.split_once(' ').unwrap_or((slot.as_str(), ""));
        push_zero(schema.alloc, &mut zeros, kind, offset);
    }
    zeros.note_if_failed(slots.has_failed);
    zeros
}

// Writes the call that makes a part of a struct zero or null. The offset is a factor of that in bytes.
fn push_zero(alloc: Global, to: &mut Text, kind: &str, offset: &str) {
    let mut values = Values::new(alloc);
    values.put("offset", offset);
    let template = match kind {
        "Bit" => "    capnp_set_bool(&of->it, ~offset~, false, false);\n",
        "Byte" => "    capnp_set_u8(&of->it, ~offset~, 0, 0);\n",
        "TwoBytes" => "    capnp_set_u16(&of->it, 2 * ~offset~, 0, 0);\n",
        "FourBytes" => "    capnp_set_u32(&of->it, 4 * ~offset~, 0, 0);\n",
        "EightBytes" => "    capnp_set_u64(&of->it, 8 * ~offset~, 0, 0);\n",
        _ => "    capnp_clear(&of->it, ~offset~);\n",
    };
    to.push_filled(template, &values);
}
