//! What fields are.

use capnpc_schema::model::{Field, FieldKind, NO_DISCRIMINANT, Type};
use capnpc_schema::types::BaseKind;

/// Whether a field is a member of its struct's union.
pub fn is_member(field: &Field) -> bool {
    field.discriminant != NO_DISCRIMINANT
}

/// Whether a field has no value.
pub fn is_void(field: &Field) -> bool {
    match &field.kind {
        FieldKind::Slot(slot) => slot.of.is_void(),
        _ => false,
    }
}

/// Whether a field of the type is in its struct's pointer section.
pub fn is_pointer(of: Type) -> bool {
    of.lists > 0
        || matches!(
            of.base.kind,
            BaseKind::Text
                | BaseKind::Data
                | BaseKind::Struct
                | BaseKind::Capability
                | BaseKind::Pointer
        )
}

/// Whether a type is a struct or a list of structs, which have C types of their own.
pub fn is_wrapped(of: Type) -> bool {
    of.lists < 2 && matches!(of.base.kind, BaseKind::Struct)
}
