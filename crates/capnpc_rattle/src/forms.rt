//! The types of the schema language, and what generated code does with fields of each.

use crate::names::has_enum;
use crate::{calls, templates};
use capnpc_schema::model::{Node, NodeKind, Type, find_node};
use capnpc_schema::text::Lines;
use capnpc_schema::types::{Base, BaseKind};

/// What generated code does with a field. Of what is there twice, the second is for a field with a
/// default value.
pub struct Form {
    /// Whether the field is in its struct's pointer section.
    pub is_pointer: bool,
    /// Whether its contracts name the module of its declaration.
    pub is_declared: bool,
    /// What a reader's call puts.
    pub read: Lines,
    pub read_or: Lines,
    /// The clauses and the body of that call.
    pub getter: &'static str,
    pub getter_or: &'static str,
    /// What a builder's calls put.
    pub build: Lines,
    pub build_or: Lines,
    /// The builder's calls.
    pub calls: &'static [Lines],
    pub calls_or: &'static [Lines],
}

/// What generated code does with a field of a type.
pub fn form_of(nodes: &[Node], of: Type) -> &'static Form {
    match of.lists {
        0 if is_enum_of_numbers(nodes, of) => UNSIGNED,
        0 => form_of_kind(of.base.kind),
        1 if matches!(of.base.kind, BaseKind::Struct) => STRUCTS,
        _ => LIST,
    }
}

// Whether a type is an enum of the schema whose fields are numbers.
fn is_enum_of_numbers(nodes: &[Node], of: Type) -> bool {
    match find_node(nodes, of.id) {
        Some(node) => match &node.kind {
            NodeKind::Enum(names) => !has_enum(names.len()),
            _ => false,
        },
        None => false,
    }
}

// What is done with a field of a type of this kind.
fn form_of_kind(kind: BaseKind) -> &'static Form {
    match kind {
        BaseKind::Void => VOID,
        BaseKind::Bool => BOOL,
        BaseKind::Signed => SIGNED,
        BaseKind::Unsigned | BaseKind::Float => UNSIGNED,
        BaseKind::Enum => ENUM,
        BaseKind::Text => TEXT,
        BaseKind::Data => DATA,
        BaseKind::Struct => STRUCT,
        BaseKind::Capability => CAPABILITY,
        BaseKind::Pointer => POINTER,
    }
}

/// What a list puts for the size of its elements.
pub fn size_of_elements(base: &Base) -> Lines {
    match (base.kind, base.bits) {
        (BaseKind::Void, _) => VOID_SIZE,
        (BaseKind::Struct, _) => INLINE_COMPOSITE,
        (_, 1) => BIT,
        (_, 8) => BYTE,
        (_, 16) => TWO_BYTES,
        (_, 32) => FOUR_BYTES,
        (_, 64) => EIGHT_BYTES,
        _ => POINTER_SIZE,
    }
}

/// What a list puts for its reader: the getter, its type, and the further arguments of that.
pub fn reader_of_list(base: &Base) -> Lines {
    match base.kind {
        BaseKind::Text => TEXTS,
        BaseKind::Data => DATA_LIST,
        BaseKind::Struct => "",
        BaseKind::Capability | BaseKind::Pointer => POINTERS,
        _ => NUMBERS,
    }
}

const VOID_SIZE: Lines = "size=Void
size_number=0";

const BIT: Lines = "size=Bit
size_number=1";

const BYTE: Lines = "size=Byte
size_number=2";

const TWO_BYTES: Lines = "size=TwoBytes
size_number=3";

const FOUR_BYTES: Lines = "size=FourBytes
size_number=4";

const EIGHT_BYTES: Lines = "size=EightBytes
size_number=5";

const POINTER_SIZE: Lines = "size=Pointer
size_number=6";

const INLINE_COMPOSITE: Lines = "size=InlineComposite
size_number=7";

const NUMBERS: Lines = "get=get_numbers
reader=NumbersReader
arguments=, ~rust~";

const TEXTS: Lines = "get=get_texts
reader=TextsReader";

const DATA_LIST: Lines = "get=get_data_list
reader=DataListReader";

const POINTERS: Lines = "get=get_pointers
reader=PointersReader";

// A field without a value; a call sets a member of a union.
const VOID: &Form = &Form {
    is_pointer: false,
    is_declared: false,
    read: "",
    read_or: "",
    getter: "",
    getter_or: "",
    build: "",
    build_or: "",
    calls: &[calls::SET_VOID],
    calls_or: &[calls::SET_VOID],
};

// A bit.
const BOOL: &Form = &Form {
    is_pointer: false,
    is_declared: false,
    read: "type=ℕ
gives=~rust~
sense=≡
value=bits_in ~bit~ ~bits~ t
read=value::get_bool(&self.~in~reader, ~index~)",
    read_or: "type=ℕ
gives=~rust~
sense=≢
value=bits_in ~bit~ ~bits~ t
read=value::get_bool_or(&self.~in~reader, ~index~, true)",
    getter: templates::BOOL,
    getter_or: templates::BOOL,
    build: "value_type=bool
gives=bool
argument=value
plain=(cond value 1 0)
getter=get_bool
function=set_bool
stored=~plain~
sense=≡
read=reading::get_bool(arena, self.place, ~index~)",
    build_or: "value_type=bool
gives=bool
argument=value
plain=(cond value 1 0)
getter=get_bool
function=set_bool_default_true
stored=(cond value 0 1)
sense=≢
read=!reading::get_bool(arena, self.place, ~index~)",
    calls: &[calls::SET_NUMBER, calls::GET_NUMBER],
    calls_or: &[calls::SET_NUMBER, calls::GET_NUMBER],
};

// A number with a sign, whose bits are stored.
const SIGNED: &Form = &Form {
    is_pointer: false,
    is_declared: false,
    read: "type=ℕ
gives=~rust~
value=bits_in ~bit~ ~bits~ t
read=value::get_number(&self.~in~reader, ~index~)",
    read_or: "type=ℕ
gives=~rust~
value=bit_xor (bits_in ~bit~ ~bits~ t) ~mask~
read=value::get_number_or::<A, ~rust~>(&self.~in~reader, ~index~, ~literal~)",
    getter: templates::SIGNED,
    getter_or: templates::SIGNED,
    build: "value_type=~rust~
gives=~rust~
argument=value
plain=(int~bits~_bits value)
getter=get_signed
function=set_number
stored=~plain~
sense=≡
read=reading::get_number(arena, self.place, ~index~)",
    build_or: "value_type=~rust~
gives=~rust~
argument=value
plain=(int~bits~_bits value)
getter=get_signed
function=set_number_or
default=;~literal~
stored=(bit_xor ~plain~ ~mask~)
sense=≢
read=reading::get_number_or::<A, ~rust~>(arena, self.place, ~index~, ~literal~)",
    calls: &[calls::SET_NUMBER, calls::GET_NUMBER],
    calls_or: &[calls::SET_NUMBER, calls::GET_NUMBER],
};

// A number without a sign, or a float, by its bits.
const UNSIGNED: &Form = &Form {
    is_pointer: false,
    is_declared: false,
    read: "type=ℕ
gives=~rust~
value=bits_in ~bit~ ~bits~ t
read=value::get_number(&self.~in~reader, ~index~)",
    read_or: "type=ℕ
gives=~rust~
value=bit_xor (bits_in ~bit~ ~bits~ t) ~mask~
read=value::get_number_or::<A, ~rust~>(&self.~in~reader, ~index~, ~literal~)",
    getter: templates::UNSIGNED,
    getter_or: templates::UNSIGNED,
    build: "value_type=~rust~
gives=~rust~
argument=value
plain=value
getter=get_unsigned
function=set_number
stored=~plain~
sense=≡
read=reading::get_number(arena, self.place, ~index~)",
    build_or: "value_type=~rust~
gives=~rust~
argument=value
plain=value
getter=get_unsigned
function=set_number_or
default=;~literal~
stored=(bit_xor ~plain~ ~mask~)
sense=≢
read=reading::get_number_or::<A, ~rust~>(arena, self.place, ~index~, ~literal~)",
    calls: &[calls::SET_NUMBER, calls::GET_NUMBER],
    calls_or: &[calls::SET_NUMBER, calls::GET_NUMBER],
};

// An enum.
const ENUM: &Form = &Form {
    is_pointer: false,
    is_declared: true,
    read: "type=ℕ
gives=~rust~
value=bits_in ~bit~ ~bits~ t
read=value::get_number(&self.~in~reader, ~index~)
gives=Result<~path~~enum~, NotInSchema>",
    read_or: "type=ℕ
gives=~rust~
value=bit_xor (bits_in ~bit~ ~bits~ t) ~mask~
read=value::get_number_or::<A, ~rust~>(&self.~in~reader, ~index~, ~literal~)
gives=Result<~path~~enum~, NotInSchema>",
    getter: templates::ENUM,
    getter_or: templates::ENUM,
    build: "value_type=~path~~enum~
gives=Result<~path~~enum~, NotInSchema>
argument=~path~number(value)
plain=(~module~_number value)
getter=get_enum
function=set_number
stored=~plain~
sense=≡
read=reading::get_number(arena, self.place, ~index~)",
    build_or: "value_type=~path~~enum~
gives=Result<~path~~enum~, NotInSchema>
argument=~path~number(value)
plain=(~module~_number value)
getter=get_enum
function=set_number_or
default=;~literal~
stored=(bit_xor ~plain~ ~mask~)
sense=≢
read=reading::get_number_or::<A, ~rust~>(arena, self.place, ~index~, ~literal~)",
    calls: &[calls::SET_NUMBER, calls::GET_NUMBER],
    calls_or: &[calls::SET_NUMBER, calls::GET_NUMBER],
};

// A text.
const TEXT: &Form = &Form {
    is_pointer: true,
    is_declared: false,
    read: "params=&self;lim: &mut ReadLimiter
gives=Result<&'a [u8], ErrorKind>
type=List ℕ
value=text_bytes (child ~index~ t)
read=value::get_text(&self.~in~reader, ~index~, lim)",
    read_or: "params=&self;lim: &mut ReadLimiter
gives=Result<&'a [u8], ErrorKind>
type=List ℕ
value=text_or (~numbers~) (child ~index~ t)
read=let default =~literal~;~line~value::get_text_or(&self.~in~reader, ~index~, default, lim)",
    getter: templates::TEXT,
    getter_or: templates::TEXT,
    build: "",
    build_or: "",
    calls: &[calls::SET_TEXT, calls::HAS],
    calls_or: &[calls::SET_TEXT, calls::HAS],
};

// Data.
const DATA: &Form = &Form {
    is_pointer: true,
    is_declared: false,
    read: "params=&self;lim: &mut ReadLimiter
gives=Result<&'a [u8], ErrorKind>
type=List ℕ
value=list_numbers (child ~index~ t)
read=value::get_data(&self.~in~reader, ~index~, lim)",
    read_or: "params=&self;lim: &mut ReadLimiter
gives=Result<&'a [u8], ErrorKind>
type=List ℕ
value=data_or (~numbers~) (child ~index~ t)
read=let default =~literal~;~line~value::get_data_or(&self.~in~reader, ~index~, default, lim)",
    getter: templates::DATA,
    getter_or: templates::DATA,
    build: "",
    build_or: "",
    calls: &[calls::SET_DATA, calls::HAS],
    calls_or: &[calls::SET_DATA, calls::HAS],
};

// A struct.
const STRUCT: &Form = &Form {
    is_pointer: true,
    is_declared: true,
    read: "type=Tree
value=child ~index~ t
params=&self;lim: &mut ReadLimiter
gives=Result<~path~Reader<'a, A>, ErrorKind>",
    read_or: "type=Tree
value=child ~index~ t
params=&self;lim: &mut ReadLimiter
gives=Result<~path~Reader<'a, A>, ErrorKind>",
    getter: templates::STRUCT,
    getter_or: templates::STRUCT_OR,
    build: "from=&~reading~::~module~::Reader<'_, B>
shows=ShowsStructOf B.ReaderArena from.now.reader
original=struct_read B.ReaderArena from.now.reader
copy=(copied_struct t)
source=&from.reader
copier=set_struct_from",
    build_or: "from=&~reading~::~module~::Reader<'_, B>
shows=ShowsStructOf B.ReaderArena from.now.reader
original=struct_read B.ReaderArena from.now.reader
copy=(copied_struct t)
source=&from.reader
copier=set_struct_from",
    calls: &[
        calls::INIT_STRUCT,
        calls::OPEN_STRUCT,
        calls::COPY,
        calls::HAS,
    ],
    calls_or: &[calls::INIT_STRUCT, calls::COPY, calls::HAS],
};

// A capability, by its index.
const CAPABILITY: &Form = &Form {
    is_pointer: true,
    is_declared: false,
    read: "type=Tree
value=child ~index~ t
gives=Result<u32, ErrorKind>",
    read_or: "type=Tree
value=child ~index~ t
gives=Result<u32, ErrorKind>",
    getter: templates::CAPABILITY,
    getter_or: templates::CAPABILITY,
    build: "",
    build_or: "",
    calls: &[calls::SET_CAPABILITY, calls::HAS],
    calls_or: &[calls::SET_CAPABILITY, calls::HAS],
};

// Any pointer.
const POINTER: &Form = &Form {
    is_pointer: true,
    is_declared: false,
    read: "type=Tree
value=child ~index~ t
gives=PointerReader<'a, A>",
    read_or: "type=Tree
value=child ~index~ t
gives=PointerReader<'a, A>",
    getter: templates::POINTER,
    getter_or: templates::POINTER,
    build: "from=PointerReader<'_, B>
shows=HasValue (read_by B.ReaderArena from.entry)
original=value_original (read_by B.ReaderArena from.entry)
copy=t
source=from
copier=set_pointer_from",
    build_or: "from=PointerReader<'_, B>
shows=HasValue (read_by B.ReaderArena from.entry)
original=value_original (read_by B.ReaderArena from.entry)
copy=t
source=from
copier=set_pointer_from",
    calls: &[calls::COPY, calls::HAS],
    calls_or: &[calls::COPY, calls::HAS],
};

// A list of structs.
const STRUCTS: &Form = &Form {
    is_pointer: true,
    is_declared: true,
    read: "type=Tree
value=child ~index~ t
params=&self;lim: &mut ReadLimiter
list=r.list.reader
gives=Result<~path~Readers<'a, A>, ErrorKind>
read=match list::get_structs(&self.~in~reader, ~index~, lim) {~line~    Ok(list) => Ok(~path~Readers { list }),~line~    Err(k) => Err(k),~line~}",
    read_or: "type=Tree
value=child ~index~ t
params=&self;lim: &mut ReadLimiter
list=r.list.reader
gives=Result<~path~Readers<'a, A>, ErrorKind>
read=match list::get_structs_or(&self.~in~reader, ~index~, default, lim) {~line~    Ok(list) => Ok(~path~Readers { list }),~line~    Err(k) => Err(k),~line~}",
    getter: templates::LIST,
    getter_or: templates::LIST_OR,
    build: "from=&~reading~::~module~::Readers<'_, B>
shows=ShowsListOf B.ReaderArena from.now.list.reader
original=list_read B.ReaderArena from.now.list.reader
copy=(copied_list from.now.list.reader.element_size from.now.list.reader.struct_size t)
source=&from.list.reader
copier=set_list_from",
    build_or: "from=&~reading~::~module~::Readers<'_, B>
shows=ShowsListOf B.ReaderArena from.now.list.reader
original=list_read B.ReaderArena from.now.list.reader
copy=(copied_list from.now.list.reader.element_size from.now.list.reader.struct_size t)
source=&from.list.reader
copier=set_list_from",
    calls: &[
        calls::INIT_STRUCTS,
        calls::OPEN_STRUCTS,
        calls::COPY,
        calls::HAS,
    ],
    calls_or: &[calls::INIT_STRUCTS, calls::COPY, calls::HAS],
};

// A list whose elements aren't structs.
const LIST: &Form = &Form {
    is_pointer: true,
    is_declared: false,
    read: "type=Tree
value=child ~index~ t
params=&self;lim: &mut ReadLimiter
list=r.reader
gives=Result<~reader~<'a, A~arguments~>, ErrorKind>
read=list::~get~(&self.~in~reader, ~index~, lim)",
    read_or: "type=Tree
value=child ~index~ t
params=&self;lim: &mut ReadLimiter
list=r.reader
gives=Result<~reader~<'a, A~arguments~>, ErrorKind>
read=list::~get~_or(&self.~in~reader, ~index~, default, lim)",
    getter: templates::LIST,
    getter_or: templates::LIST_OR,
    build: "from=&~reader~<'_, B~arguments~>
shows=ShowsListOf B.ReaderArena from.now.reader
original=list_read B.ReaderArena from.now.reader
copy=(copied_list from.now.reader.element_size from.now.reader.struct_size t)
source=&from.reader
copier=set_list_from",
    build_or: "from=&~reader~<'_, B~arguments~>
shows=ShowsListOf B.ReaderArena from.now.reader
original=list_read B.ReaderArena from.now.reader
copy=(copied_list from.now.reader.element_size from.now.reader.struct_size t)
source=&from.reader
copier=set_list_from",
    calls: &[calls::INIT_LIST, calls::OPEN_LIST, calls::COPY, calls::HAS],
    calls_or: &[calls::INIT_LIST, calls::COPY, calls::HAS],
};
