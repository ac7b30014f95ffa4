//! What readers of checked messages do with pointers of each type.

use capnpc_schema::model::{Default, Slot};
use capnpc_schema::text::Lines;
use capnpc_schema::types::BaseKind;

/// What is done with a pointer that the check has seen.
pub struct CheckedForm {
    /// What the getter puts: the type that it returns, `type`; the end of the name of the call that
    /// reads it, `getter`; the field of the type that has the result of this call, `field`; and what is
    /// around the result in the clause that says what it is.
    pub read: Lines,
    /// Whether its contract names the module of its declaration.
    pub is_declared: bool,
}

/// What is done with a pointer of a type; `None` if its getter is that of a reader that isn't checked.
pub fn checked_form_of(slot: &Slot) -> Option<&'static CheckedForm> {
    let has_default = matches!(slot.default, Default::Bytes(_));
    match (slot.of.lists, slot.of.base.kind) {
        (0, BaseKind::Text) if has_default => Some(TEXT_OR),
        (0, BaseKind::Text) => Some(TEXT),
        (0, BaseKind::Data) if has_default => Some(DATA_OR),
        (0, BaseKind::Data) => Some(DATA),
        (0, BaseKind::Struct) => Some(STRUCT),
        (0, _) => None,
        (1, BaseKind::Struct) => Some(STRUCTS),
        (1, BaseKind::Text | BaseKind::Data | BaseKind::Capability | BaseKind::Pointer) => {
            Some(POINTERS)
        }
        (1, _) => Some(NUMBERS),
        _ => Some(POINTERS),
    }
}

// A text.
const TEXT: &CheckedForm = &CheckedForm {
    read: "type=&'a str
getter=str
holds_end=.now ≡ ~spec~ t",
    is_declared: false,
};

// A text with a default value.
const TEXT_OR: &CheckedForm = &CheckedForm {
    read: "type=&'a str
getter=str_or
default=, ~text~
default_line=,~line~    ~text~
holds_end=.now ≡ ~spec~ t",
    is_declared: false,
};

// Data.
const DATA: &CheckedForm = &CheckedForm {
    read: "type=&'a [u8]
getter=data
holds_end=.now ≡ ~spec~ t",
    is_declared: false,
};

// Data with a default value.
const DATA_OR: &CheckedForm = &CheckedForm {
    read: "type=&'a [u8]
getter=data_or
default=, ~bytes~
default_line=,~line~    ~bytes~
holds_end=.now ≡ ~spec~ t",
    is_declared: false,
};

// A struct.
const STRUCT: &CheckedForm = &CheckedForm {
    read: "type=~path~Checked<'a, A>
made=~path~Checked
getter=struct
field=checked
holds_start=ShowsStructOf A.ReaderArena~space~
holds_end=.checked.reader (~spec~ t)",
    is_declared: true,
};

// A list of structs.
const STRUCTS: &CheckedForm = &CheckedForm {
    read: "type=~path~CheckedList<'a, A>
made=~path~CheckedList
getter=structs
field=list
holds_start=ShowsListOf A.ReaderArena~space~
holds_end=.list.list.reader (~spec~ t)",
    is_declared: true,
};

// A list of pointers.
const POINTERS: &CheckedForm = &CheckedForm {
    read: "type=RowStructs<'a, A, schema_table::Table, ~below~>
getter=pointers
holds_start=ShowsListOf A.ReaderArena~space~
holds_end=.list.reader (~spec~ t)",
    is_declared: false,
};

// A list of numbers.
const NUMBERS: &CheckedForm = &CheckedForm {
    read: "type=NumbersReader<'a, A, ~rust~>
getter=numbers
holds_start=ShowsListOf A.ReaderArena~space~
holds_end=.reader (~spec~ t)",
    is_declared: false,
};
