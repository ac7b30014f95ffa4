//! The text of the members of unions that have to be set for a field, in readers of checked messages.

use crate::output::Output;
use capnpc_schema::groups::Test;
use capnpc_schema::model::{Field, FieldKind, NO_DISCRIMINANT, Node, NodeKind, Struct};
use capnpc_schema::text::Text;
use std::alloc::Global;

/// A member of a union.
#[derive(Clone, Copy)]
pub struct MemberTag<'m> {
    /// The name of the definition of the union's tag.
    pub name: &'m str,
    /// The offset of the tag, counted in 16 bits.
    pub offset: u32,
    /// The number of the member.
    pub number: u16,
}

/// The members that have to be set for a field of `it`, which is the struct or group `node`: the field
/// itself, if it is one, and then the groups around it, from the innermost one on. Sets `has_failed` if memory
/// was lacking.
pub fn tags_of<'m>(
    output: &Output<'m>,
    node: &'m Node,
    it: &'m Struct,
    field: &'m Field,
    has_failed: &mut bool,
) -> Vec<MemberTag<'m>> {
    let mut tags = Vec::new(output.alloc);
    let mut tag = tag_of(it, field);
    let mut at = node;
    for _ in 0..output.nodes.len() {
        if let Some(tag) = tag
            && tags.push(tag).is_err()
        {
            *has_failed = true;
        }
        let Some((outer, around)) = struct_around(output, at) else {
            break;
        };
        tag = tag_of_group(around, at.id);
        at = outer;
    }
    tags
}

// The struct or group that a group is in.
fn struct_around<'m>(output: &Output<'m>, node: &'m Node) -> Option<(&'m Node, &'m Struct)> {
    let outer = output.node(node.scope)?;
    match (&node.kind, &outer.kind) {
        (NodeKind::Struct(it), NodeKind::Struct(around)) if it.is_group => Some((outer, around)),
        _ => None,
    }
}

// The group with this id in `it`, if it is a member of the union of `it`.
fn tag_of_group<'m>(it: &'m Struct, id: u64) -> Option<MemberTag<'m>> {
    for field in it.fields.iter() {
        if is_group(field, id) {
            return tag_of(it, field);
        }
    }
    None
}

// Whether a field is the group with this id.
fn is_group(field: &Field, id: u64) -> bool {
    match &field.kind {
        FieldKind::Group(of) => *of == id,
        _ => false,
    }
}

// A field of `it`, if it is a member of the union of `it`.
fn tag_of<'m>(it: &'m Struct, field: &Field) -> Option<MemberTag<'m>> {
    if field.discriminant == NO_DISCRIMINANT {
        return None;
    }
    Some(MemberTag {
        name: it.tag.as_str(),
        offset: it.tag_offset,
        number: field.discriminant,
    })
}

/// The same members as tests of a table.
pub fn tests_of(alloc: Global, tags: &[MemberTag<'_>], has_failed: &mut bool) -> Vec<Test> {
    let mut tests = Vec::new(alloc);
    for tag in tags {
        let test = Test {
            offset: tag.offset,
            number: tag.number,
        };
        if tests.push(test).is_err() {
            *has_failed = true;
        }
    }
    tests
}

/// The members as the elements of an array.
pub fn member_list(alloc: Global, tags: &[MemberTag<'_>]) -> Text {
    let mut list = Text::new(alloc);
    for tag in tags {
        if !list.as_str().is_empty() {
            list.push(", ");
        }
        list.push("Member(");
        list.push_number(u64::from(tag.offset));
        list.push(", ");
        list.push_number(u64::from(tag.number));
        list.push(")");
    }
    list
}

/// The clause that all of these members are set in the value `t`.
pub fn set_condition(alloc: Global, tags: &[MemberTag<'_>]) -> Text {
    let mut clause = Text::new(alloc);
    for (i, tag) in tags.iter().enumerate() {
        let is_last = i.saturating_add(1) == tags.len();
        clause.push_all(&[if is_last { "(" } else { "((" }, tag.name, " t ≡ "]);
        clause.push_number(u64::from(tag.number));
        clause.push(if is_last { ")" } else { ") × " });
    }
    for _ in 1..tags.len() {
        clause.push(")");
    }
    clause
}
