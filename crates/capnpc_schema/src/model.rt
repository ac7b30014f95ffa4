//! What a schema declares.

use crate::annotations::Annotation;
use crate::text::Text;
use crate::types::{ANY_POINTER, Base, BaseKind};
use std::alloc::Global;

/// A type of a field: `base`, or a list of it, or a list of lists of it, and so on.
#[derive(Clone, Copy)]
pub struct Type {
    /// How many lists are around the base type.
    pub lists: u32,
    /// The base type.
    pub base: &'static Base,
    /// The id of the base type's declaration, if it has one.
    pub id: u64,
}

impl Type {
    /// The base type; any pointer for a list of lists, which has pointers as elements.
    pub fn element(self) -> &'static Base {
        if self.lists > 1 {
            return ANY_POINTER;
        }
        self.base
    }

    /// Whether a field of the type is in its struct's pointer section.
    pub fn is_pointer(self) -> bool {
        self.lists > 0
            || matches!(
                self.base.kind,
                BaseKind::Text
                    | BaseKind::Data
                    | BaseKind::Struct
                    | BaseKind::Capability
                    | BaseKind::Pointer
            )
    }

    /// Whether a field of the type has no value.
    pub fn is_void(self) -> bool {
        self.lists == 0 && matches!(self.base.kind, BaseKind::Void)
    }
}

/// The default value of a field.
#[derive(Drop)]
pub enum Default {
    /// Zero, false, or null.
    Zero,
    /// A number, with its bits.
    Number { literal: String, bits: u64 },
    /// The bytes of a text, or data.
    Bytes(Vec<u8>),
    /// The words of a struct or a list: one segment, with its pointer in the first word.
    Words(Vec<u8>),
    /// Something that this program doesn't know.
    Unknown,
}

/// A field that isn't a group.
#[derive(Drop)]
pub struct Slot {
    /// Where the field is in its section: for a pointer, its index; for a number, counted in numbers
    /// of its size.
    pub offset: u32,
    /// The type.
    pub of: Type,
    /// The default value.
    pub default: Default,
}

/// What a field is.
#[derive(Drop)]
pub enum FieldKind {
    /// A group, with the id of its declaration.
    Group(u64),
    /// A field of its own.
    Slot(Slot),
    /// Neither: something that this program doesn't know.
    Unknown,
}

/// A field of a struct or a group.
#[derive(Drop)]
pub struct Field {
    /// The name in the schema.
    pub name: String,
    /// The same in snake case. Other fields of the struct have other names.
    pub snake: String,
    /// The name of its member of a union, in generated code that has one.
    pub variant: String,
    /// The name of the definition of what readers return; empty if there is none.
    pub spec: String,
    /// The name of the definition of the default value, if that is a struct or a list.
    pub default_spec: String,
    /// The number in the schema; none for a group.
    pub ordinal: Option<u16>,
    /// Its number in its union, or `NO_DISCRIMINANT`.
    pub discriminant: u16,
    /// What it is.
    pub kind: FieldKind,
}

/// The discriminant of a field that isn't in a union.
pub const NO_DISCRIMINANT: u16 = 0xffff;

/// A struct or a group.
#[derive(Drop)]
pub struct Struct {
    /// Whether it is a group.
    pub is_group: bool,
    /// How many words its data section has.
    pub data_words: u16,
    /// How many pointers it has.
    pub pointers: u16,
    /// How many members its union has; 0 if it has none.
    pub members: u16,
    /// Where the number of the member that is set is, counted in 16-bit numbers.
    pub tag_offset: u32,
    /// The name of the module that has the members; empty if there is no union.
    pub which: String,
    /// The name of the definition of the number of the member that is set.
    pub tag: String,
    /// The fields, by their order in the request.
    pub fields: Vec<Field>,
}

/// A constant.
#[derive(Drop)]
pub struct Constant {
    /// The type.
    pub of: Type,
    /// The value.
    pub value: Default,
}

/// What a declaration is.
#[derive(Drop)]
pub enum NodeKind {
    /// A file, which has no code of its own.
    File,
    /// A struct or a group.
    Struct(Struct),
    /// An enum, with the names of its enumerants.
    Enum(Vec<String>),
    /// A constant; `None` if its type or its value isn't known.
    Const(Option<Constant>),
    /// Something that isn't written, and what to call it.
    Other(&'static str),
}

/// A declaration.
#[derive(Drop)]
pub struct Node {
    /// The id.
    pub id: u64,
    /// The id of the declaration that it is in.
    pub scope: u64,
    /// The name, with those of the scopes around it.
    pub full: String,
    /// The same in snake case.
    pub snake: String,
    /// The name of its module.
    pub module: String,
    /// The name of its type, in generated code where that differs from the module's.
    pub item: String,
    /// The comment in the schema.
    pub comment: String,
    /// The comments of its fields or enumerants, in their order; may be empty.
    pub comments: Vec<String>,
    /// The annotations of the declaration, and of its fields or enumerants, whose values are texts.
    pub annotations: Vec<Annotation>,
    /// What it is.
    pub kind: NodeKind,
}

/// The declaration with this id.
pub fn find_node(nodes: &[Node], id: u64) -> Option<&Node> {
    for node in nodes {
        if node.id == id {
            return Some(node);
        }
    }
    None
}

/// The struct or group with this id.
pub fn find_struct(nodes: &[Node], id: u64) -> Option<&Struct> {
    match find_node(nodes, id) {
        Some(node) => match &node.kind {
            NodeKind::Struct(it) => Some(it),
            _ => None,
        },
        None => None,
    }
}

/// The name of a type in the schema.
pub fn type_name(alloc: Global, nodes: &[Node], of: Type) -> Text {
    let mut name = Text::new(alloc);
    for _ in 0..of.lists {
        name.push("List(");
    }
    if !of.base.name.is_empty() {
        name.push(of.base.name);
    } else if let Some(node) = find_node(nodes, of.id) {
        name.push(node.full.as_str());
    } else {
        name.push("unknown");
    }
    for _ in 0..of.lists {
        name.push(")");
    }
    name
}

/// Why a field has no calls; empty if it has some.
pub fn lacking(nodes: &[Node], slot: &Slot) -> &'static str {
    if let Default::Unknown = &slot.default {
        return "its default value is unknown";
    }
    match (&slot.of.base.kind, find_node(nodes, slot.of.id)) {
        (BaseKind::Struct, None) => "its struct is unknown",
        (BaseKind::Enum, None) => "its enum is unknown",
        (BaseKind::Enum, Some(node)) => match &node.kind {
            NodeKind::Enum(_) => "",
            _ => "its enum is unknown",
        },
        _ => "",
    }
}
