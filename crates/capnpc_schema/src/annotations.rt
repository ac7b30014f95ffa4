//! Reads the annotations of declarations.

use crate::noted::Noted;
use capnp_arena_traits::arena::ReaderArena;
use capnp_words::read_limiter::ReadLimiter;
use schema_reading::{annotation, enumerant, field, node, node_which, value_which};

/// An annotation whose value is a text.
#[derive(Drop)]
pub struct Annotation {
    /// The id of the annotation's own declaration.
    pub id: u64,
    /// The index of the field or enumerant that has it; `None` if the declaration itself has it.
    pub member: Option<u32>,
    /// The text.
    pub text: String,
}

/// Reads the annotations of a declaration, and of its fields or enumerants, whose values are texts.
pub fn read_node_annotations<A: ReaderArena>(
    from: node::Reader<'_, A>,
    lim: &mut ReadLimiter,
    noted: &mut Noted,
) -> Vec<Annotation> {
    let mut found = Vec::new(noted.alloc);
    if let Some(own) = noted.ok_or_note(from.get_annotations(lim)) {
        read_annotations(own, None, &mut found, lim, noted);
    }
    match from.which() {
        Ok(node_which::Which::Struct) => {
            if let Some(fields) = noted.ok_or_note(from.get_struct().get_fields(lim)) {
                read_of_fields(fields, &mut found, lim, noted);
            }
        }
        Ok(node_which::Which::Enum) => {
            if let Some(enumerants) = noted.ok_or_note(from.get_enum().get_enumerants(lim)) {
                read_of_enumerants(enumerants, &mut found, lim, noted);
            }
        }
        _ => {}
    }
    found
}

// Reads the annotations of fields, and appends them to `found`.
fn read_of_fields<A: ReaderArena>(
    fields: field::Readers<'_, A>,
    found: &mut Vec<Annotation>,
    lim: &mut ReadLimiter,
    noted: &mut Noted,
) {
    for i in 0..fields.len() {
        if let Some(own) = noted.ok_or_note(fields.get(i).get_annotations(lim)) {
            read_annotations(own, Some(i), found, lim, noted);
        }
    }
}

// Reads the annotations of enumerants, and appends them to `found`.
fn read_of_enumerants<A: ReaderArena>(
    enumerants: enumerant::Readers<'_, A>,
    found: &mut Vec<Annotation>,
    lim: &mut ReadLimiter,
    noted: &mut Noted,
) {
    for i in 0..enumerants.len() {
        if let Some(own) = noted.ok_or_note(enumerants.get(i).get_annotations(lim)) {
            read_annotations(own, Some(i), found, lim, noted);
        }
    }
}

// Reads annotations, and appends those whose values are texts to `found`.
fn read_annotations<A: ReaderArena>(
    annotations: annotation::Readers<'_, A>,
    member: Option<u32>,
    found: &mut Vec<Annotation>,
    lim: &mut ReadLimiter,
    noted: &mut Noted,
) {
    for i in 0..annotations.len() {
        let own = annotations.get(i);
        if let Some(value) = noted.ok_or_note(own.get_value(lim))
            && let Ok(value_which::Which::Text) = value.which()
        {
            let text = noted.text_or_note(value.get_text(lim));
            let text = noted.copy_text(text);
            let id = own.get_id();
            noted.push(found, Annotation { id, member, text });
        }
    }
}

/// The text of the annotation that is declared with this id, of a declaration or of one of its members.
pub fn annotation_text(annotations: &[Annotation], id: u64, member: Option<u32>) -> Option<&str> {
    for annotation in annotations {
        if annotation.id == id && annotation.member == member {
            return Some(annotation.text.as_str());
        }
    }
    None
}
