//! Reads the schema compiler's request, a `CodeGeneratorRequest`, by generated readers.

use crate::annotations::read_node_annotations;
use crate::defaults::canonical_words;
use crate::model::{Constant, Default, Field, FieldKind, Node, NodeKind, Slot, Struct, Type};
use crate::noted::Noted;
use crate::text::Text;
use crate::types::{ANY_CAPABILITY, ANY_LIST, ANY_POINTER, ANY_STRUCT, Base, BaseKind, base_of};
use capnp_arena_traits::arena::ReaderArena;
use capnp_readers::readers::PointerReader;
use capnp_words::error::ErrorKind;
use capnp_words::read_limiter::ReadLimiter;
use schema_reading::{
    code_generator_request, code_generator_request_requested_file, enumerant, field, field_ordinal,
    field_ordinal_which, field_slot, field_which, node, node_const, node_source_info,
    node_source_info_member, node_struct, node_which, type_, type_any_pointer,
    type_any_pointer_unconstrained_which, type_any_pointer_which, type_which, value_,
};

/// The most lists of lists that a type is read of.
const MAX_LISTS: u32 = 64;

/// The schema compiler's request.
#[derive(Drop)]
pub struct Request {
    /// The files that it asks for.
    pub files: Vec<SchemaFile>,
    /// All declarations, by their order in the request, without names of modules.
    pub nodes: Vec<Node>,
}

impl Request {
    /// The name of the first file that it asks for; empty if it asks for none.
    pub fn first_file(&self) -> &str {
        match self.files.first() {
            Some(file) => file.name.as_str(),
            None => "",
        }
    }

    /// The id of that file; 0 if there is none.
    pub fn first_id(&self) -> u64 {
        match self.files.first() {
            Some(file) => file.id,
            None => 0,
        }
    }
}

/// A file of a schema.
#[derive(Drop)]
pub struct SchemaFile {
    /// The id of its declaration.
    pub id: u64,
    /// Its name in the command line.
    pub name: String,
}

/// Reads a request.
pub fn read_request<A: ReaderArena>(
    from: code_generator_request::Reader<'_, A>,
    lim: &mut ReadLimiter,
    noted: &mut Noted,
) -> Request {
    let mut files = Vec::new(noted.alloc);
    if let Some(requested) = noted.ok_or_note(from.get_requested_files(lim)) {
        read_files(requested, &mut files, lim, noted);
    }
    let mut nodes = Vec::new(noted.alloc);
    if let Some(declared) = noted.ok_or_note(from.get_nodes(lim)) {
        read_nodes(declared, &mut nodes, lim, noted);
    }
    if let Some(infos) = noted.ok_or_note(from.get_source_info(lim)) {
        read_comments(infos, &mut nodes, lim, noted);
    }
    Request { files, nodes }
}

// Reads the requested files, and appends them to `files`.
fn read_files<A: ReaderArena>(
    requested: code_generator_request_requested_file::Readers<'_, A>,
    files: &mut Vec<SchemaFile>,
    lim: &mut ReadLimiter,
    noted: &mut Noted,
) {
    for i in 0..requested.len() {
        let file = requested.get(i);
        let name = noted.text_or_note(file.get_filename(lim));
        let name = noted.copy_text(name);
        let id = file.get_id();
        noted.push(files, SchemaFile { id, name });
    }
}

// Reads the comments of declarations.
fn read_comments<A: ReaderArena>(
    infos: node_source_info::Readers<'_, A>,
    nodes: &mut Vec<Node>,
    lim: &mut ReadLimiter,
    noted: &mut Noted,
) {
    for i in 0..infos.len() {
        let info = infos.get(i);
        let mut comments = Vec::new(noted.alloc);
        let comment = noted.text_or_note(info.get_doc_comment(lim));
        let comment = noted.copy_text(comment);
        if let Some(members) = noted.ok_or_note(info.get_members(lim)) {
            read_member_comments(members, &mut comments, lim, noted);
        }
        set_comments(nodes, info.get_id(), comment, comments);
    }
}

// Reads the comments of members, and appends them to `comments`.
fn read_member_comments<A: ReaderArena>(
    members: node_source_info_member::Readers<'_, A>,
    comments: &mut Vec<String>,
    lim: &mut ReadLimiter,
    noted: &mut Noted,
) {
    for i in 0..members.len() {
        let comment = noted.text_or_note(members.get(i).get_doc_comment(lim));
        let comment = noted.copy_text(comment);
        noted.push(comments, comment);
    }
}

// Sets the comments of the declaration with this id.
fn set_comments(nodes: &mut Vec<Node>, id: u64, comment: String, comments: Vec<String>) {
    for node in nodes.iter_mut() {
        if node.id == id {
            node.comment = comment;
            node.comments = comments;
            return;
        }
    }
}

// Reads the declarations, and appends them to `nodes`.
fn read_nodes<A: ReaderArena>(
    declared: node::Readers<'_, A>,
    nodes: &mut Vec<Node>,
    lim: &mut ReadLimiter,
    noted: &mut Noted,
) {
    for i in 0..declared.len() {
        let node = read_node(declared.get(i), lim, noted);
        noted.push(nodes, node);
    }
}

// Reads a declaration.
fn read_node<A: ReaderArena>(
    from: node::Reader<'_, A>,
    lim: &mut ReadLimiter,
    noted: &mut Noted,
) -> Node {
    let full = strip_file_name(noted.text_or_note(from.get_display_name(lim)));
    let kind = read_node_kind(from, lim, noted);
    let annotations = read_node_annotations(from, lim, noted);
    Node {
        id: from.get_id(),
        scope: from.get_scope_id(),
        full: noted.copy_text(full),
        snake: noted.snake_case(full),
        module: String::new(noted.alloc),
        item: String::new(noted.alloc),
        comment: String::new(noted.alloc),
        comments: Vec::new(noted.alloc),
        annotations,
        kind,
    }
}

// The name of a declaration in its file, without the file's name before it.
fn strip_file_name(shown: &str) -> &str {
    match shown.split_once(':') {
        Some((_, full)) => full,
        None => shown,
    }
}

// Reads what a declaration is.
fn read_node_kind<A: ReaderArena>(
    from: node::Reader<'_, A>,
    lim: &mut ReadLimiter,
    noted: &mut Noted,
) -> NodeKind {
    match from.which() {
        Ok(node_which::Which::File) => NodeKind::File,
        Ok(node_which::Which::Struct) => NodeKind::Struct(read_struct(
            from.get_struct(),
            lim,
            noted,
        )),
        Ok(node_which::Which::Enum) => NodeKind::Enum(read_enum(from, lim, noted)),
        Ok(node_which::Which::Interface) => NodeKind::Other("an interface"),
        Ok(node_which::Which::Const) => NodeKind::Const(read_constant(
            from.get_const(),
            lim,
            noted,
        )),
        Ok(node_which::Which::Annotation) => NodeKind::Other("an annotation"),
        Err(_) => NodeKind::Other("a declaration of an unknown kind"),
    }
}

// Reads a constant; `None` if its type is of an unknown kind.
fn read_constant<A: ReaderArena>(
    from: node_const::Reader<'_, A>,
    lim: &mut ReadLimiter,
    noted: &mut Noted,
) -> Option<Constant> {
    let of = noted.ok_or_note(from.get_type(lim))?;
    let of = read_type(of, lim, noted)?;
    let value = noted.ok_or_note(from.get_value(lim))?;
    let value = read_default(value, of, lim, noted);
    Some(Constant { of, value })
}

// Reads the names of an enum.
fn read_enum<A: ReaderArena>(
    from: node::Reader<'_, A>,
    lim: &mut ReadLimiter,
    noted: &mut Noted,
) -> Vec<String> {
    let mut names = Vec::new(noted.alloc);
    if let Some(enumerants) = noted.ok_or_note(from.get_enum().get_enumerants(lim)) {
        read_enumerants(enumerants, &mut names, lim, noted);
    }
    names
}

// Reads enumerants, and appends their names to `names`.
fn read_enumerants<A: ReaderArena>(
    enumerants: enumerant::Readers<'_, A>,
    names: &mut Vec<String>,
    lim: &mut ReadLimiter,
    noted: &mut Noted,
) {
    for i in 0..enumerants.len() {
        let name = noted.text_or_note(enumerants.get(i).get_name(lim));
        let name = noted.copy_text(name);
        noted.push(names, name);
    }
}

// Reads a struct or a group.
fn read_struct<A: ReaderArena>(
    from: node_struct::Reader<'_, A>,
    lim: &mut ReadLimiter,
    noted: &mut Noted,
) -> Struct {
    let mut fields = Vec::new(noted.alloc);
    if let Some(declared) = noted.ok_or_note(from.get_fields(lim)) {
        read_fields(declared, &mut fields, lim, noted);
    }
    Struct {
        is_group: from.get_is_group(),
        data_words: from.get_data_word_count(),
        pointers: from.get_pointer_count(),
        members: from.get_discriminant_count(),
        tag_offset: from.get_discriminant_offset(),
        which: String::new(noted.alloc),
        tag: String::new(noted.alloc),
        fields,
    }
}

// Reads fields, and appends them to `fields`.
fn read_fields<A: ReaderArena>(
    declared: field::Readers<'_, A>,
    fields: &mut Vec<Field>,
    lim: &mut ReadLimiter,
    noted: &mut Noted,
) {
    for i in 0..declared.len() {
        let field = read_field(declared.get(i), lim, noted);
        noted.push(fields, field);
    }
}

// Reads a field.
fn read_field<A: ReaderArena>(
    from: field::Reader<'_, A>,
    lim: &mut ReadLimiter,
    noted: &mut Noted,
) -> Field {
    let name = noted.text_or_note(from.get_name(lim));
    let kind = read_field_kind(from, lim, noted);
    Field {
        name: noted.copy_text(name),
        snake: String::new(noted.alloc),
        variant: String::new(noted.alloc),
        spec: String::new(noted.alloc),
        default_spec: String::new(noted.alloc),
        ordinal: ordinal_of(from.get_ordinal()),
        discriminant: from.get_discriminant_value(),
        kind,
    }
}

// The number of a field in the schema; `None` for a group.
fn ordinal_of<A: ReaderArena>(from: field_ordinal::Reader<'_, A>) -> Option<u16> {
    match from.which() {
        Ok(field_ordinal_which::Which::Explicit) => Some(from.get_explicit()),
        _ => None,
    }
}

// Reads what a field is.
fn read_field_kind<A: ReaderArena>(
    from: field::Reader<'_, A>,
    lim: &mut ReadLimiter,
    noted: &mut Noted,
) -> FieldKind {
    match from.which() {
        Ok(field_which::Which::Group) => FieldKind::Group(from.get_group().get_type_id()),
        Ok(field_which::Which::Slot) => read_slot(from.get_slot(), lim, noted),
        Err(_) => FieldKind::Unknown,
    }
}

// Reads a field that isn't a group.
fn read_slot<A: ReaderArena>(
    from: field_slot::Reader<'_, A>,
    lim: &mut ReadLimiter,
    noted: &mut Noted,
) -> FieldKind {
    let Some(of) = read_slot_type(from, lim, noted) else {
        return FieldKind::Unknown;
    };
    let default = match noted.ok_or_note(from.get_default_value(lim)) {
        Some(value) => read_default(value, of, lim, noted),
        None => Default::Zero,
    };
    FieldKind::Slot(Slot {
        offset: from.get_offset(),
        of,
        default,
    })
}

// Reads the type of a field; `None` if it is of an unknown kind.
fn read_slot_type<A: ReaderArena>(
    from: field_slot::Reader<'_, A>,
    lim: &mut ReadLimiter,
    noted: &mut Noted,
) -> Option<Type> {
    let of = noted.ok_or_note(from.get_type(lim))?;
    read_type(of, lim, noted)
}

// Reads a type; `None` if it is of an unknown kind.
fn read_type<A: ReaderArena>(
    from: type_::Reader<'_, A>,
    lim: &mut ReadLimiter,
    noted: &mut Noted,
) -> Option<Type> {
    let mut inner = from;
    for lists in 0..MAX_LISTS {
        let which = inner.which().ok()?;
        if !matches!(which, type_which::Which::List) {
            return Some(type_of(inner, which, lists));
        }
        inner = noted.ok_or_note(inner.get_list().get_element_type(lim))?;
    }
    None
}

// The type that `which` names, in this many lists. The id of a declaration is in the same place for an
// enum, a struct and an interface.
fn type_of<A: ReaderArena>(
    from: type_::Reader<'_, A>,
    which: type_which::Which,
    lists: u32,
) -> Type {
    let base = match which {
        type_which::Which::AnyPointer => any_base_of(from.get_any_pointer()),
        _ => base_of(which as usize),
    };
    let is_declared = base.name.is_empty();
    Type {
        lists,
        base,
        id: if is_declared {
            from.get_struct().get_type_id()
        } else {
            0
        },
    }
}

// The type of a pointer that isn't typed any further. A type parameter is any pointer.
fn any_base_of<A: ReaderArena>(from: type_any_pointer::Reader<'_, A>) -> &'static Base {
    if !matches!(
        from.which(),
        Ok(type_any_pointer_which::Which::Unconstrained)
    ) {
        return ANY_POINTER;
    }
    match from.get_unconstrained().which() {
        Ok(type_any_pointer_unconstrained_which::Which::Struct) => ANY_STRUCT,
        Ok(type_any_pointer_unconstrained_which::Which::List) => ANY_LIST,
        Ok(type_any_pointer_unconstrained_which::Which::Capability) => ANY_CAPABILITY,
        _ => ANY_POINTER,
    }
}

// Reads the default value of a field of this type.
fn read_default<A: ReaderArena>(
    from: value_::Reader<'_, A>,
    of: Type,
    lim: &mut ReadLimiter,
    noted: &mut Noted,
) -> Default {
    if from.which().is_err() {
        return Default::Unknown;
    }
    if of.lists > 0 {
        return words_default(from.get_list(), lim, noted);
    }
    match of.base.kind {
        BaseKind::Text => bytes_default(from.get_text(lim), noted),
        BaseKind::Data => bytes_default(from.get_data(lim), noted),
        BaseKind::Struct => words_default(from.get_struct(), lim, noted),
        BaseKind::Pointer => words_default(from.get_any_pointer(), lim, noted),
        _ => number_default(value_bits(from, of.base.bits), of.base.largest, noted),
    }
}

// The bits of a number of this many bits; 1 for `true`. Members of a union that have the same size are in
// the same place.
fn value_bits<A: ReaderArena>(from: value_::Reader<'_, A>, bits: u64) -> u64 {
    match bits {
        1 => u64::from(from.get_bool()),
        8 => u64::from(from.get_uint8()),
        16 => u64::from(from.get_uint16()),
        32 => u64::from(from.get_uint32()),
        64 => from.get_uint64(),
        _ => 0,
    }
}

// The default of a number with these bits. One above the largest number is below zero.
fn number_default(bits: u64, largest: u64, noted: &mut Noted) -> Default {
    if bits == 0 {
        return Default::Zero;
    }
    let mut literal = Text::new(noted.alloc);
    if bits > largest {
        let all = largest.saturating_mul(2).saturating_add(1);
        literal.push("-");
        literal.push_number(bits.wrapping_neg() & all);
    } else {
        literal.push_number(bits);
    }
    let literal = noted.string_or_note(literal);
    Default::Number { literal, bits }
}

// The default of a text or of data.
fn bytes_default(read: Result<&[u8], ErrorKind>, noted: &mut Noted) -> Default {
    let bytes = noted.bytes_or_note(read);
    if bytes.is_empty() {
        return Default::Zero;
    }
    Default::Bytes(noted.copy_bytes(bytes))
}

// The default of a struct, a list, or any pointer.
fn words_default<A: ReaderArena>(
    from: PointerReader<'_, A>,
    lim: &mut ReadLimiter,
    noted: &mut Noted,
) -> Default {
    if from.is_null() {
        return Default::Zero;
    }
    match noted.ok_or_note(canonical_words(noted.alloc, from, lim)) {
        Some(words) => Default::Words(words),
        None => Default::Zero,
    }
}
