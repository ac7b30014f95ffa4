//! The types of the schema language.

/// What a type of the schema language is.
#[derive(Clone, Copy, PartialEq, Eq)]
pub enum BaseKind {
    Void,
    Bool,
    Signed,
    Unsigned,
    Float,
    Enum,
    Text,
    Data,
    Struct,
    Capability,
    Pointer,
}

/// A type of the schema language that isn't a list.
pub struct Base {
    /// What it is.
    pub kind: BaseKind,
    /// Its name in a schema; empty if it is declared there.
    pub name: &'static str,
    /// The Rust type of its values if it is a number, a bit or nothing. Of a float that of its bits,
    /// and of an enum that of its numbers.
    pub rust: &'static str,
    /// The size of a value in a data section, in bits; 0 if it has none there.
    pub bits: u64,
    /// The largest number; of a type without a sign, that of 64 bits.
    pub largest: u64,
}

// A type, with its columns in the order of their declarations.
macro_rules! base {
    ($kind:ident, $name:expr, $rust:expr, $bits:expr, $largest:expr) => {
        Base {
            kind: BaseKind::$kind,
            name: $name,
            rust: $rust,
            bits: $bits,
            largest: $largest,
        }
    };
}

/// The type with this number in `schema.capnp`. Lists and unknown types are any pointer.
pub fn base_of(number: usize) -> &'static Base {
    match BASES.get(number) {
        Some(base) => base,
        None => ANY_POINTER,
    }
}

// The largest number of a type without a sign.
const MAX: u64 = u64::MAX;

/// Any pointer.
pub const ANY_POINTER: &Base = &base!(Pointer, "AnyPointer", "()", 0, MAX);

/// A pointer to a struct of any type.
pub const ANY_STRUCT: &Base = &base!(Pointer, "AnyStruct", "()", 0, MAX);

/// A pointer to a list of any type.
pub const ANY_LIST: &Base = &base!(Pointer, "AnyList", "()", 0, MAX);

/// A capability of any type, as a pointer.
pub const ANY_CAPABILITY: &Base = &base!(Pointer, "Capability", "()", 0, MAX);

// The types, by their numbers in `schema.capnp`.
const BASES: &[Base] = &[
    base!(Void, "Void", "()", 0, MAX),
    base!(Bool, "Bool", "bool", 1, MAX),
    base!(Signed, "Int8", "i8", 8, 0x7f),
    base!(Signed, "Int16", "i16", 16, 0x7fff),
    base!(Signed, "Int32", "i32", 32, 0x7fff_ffff),
    base!(Signed, "Int64", "i64", 64, MAX / 2),
    base!(Unsigned, "UInt8", "u8", 8, MAX),
    base!(Unsigned, "UInt16", "u16", 16, MAX),
    base!(Unsigned, "UInt32", "u32", 32, MAX),
    base!(Unsigned, "UInt64", "u64", 64, MAX),
    base!(Float, "Float32", "u32", 32, MAX),
    base!(Float, "Float64", "u64", 64, MAX),
    base!(Text, "Text", "()", 0, MAX),
    base!(Data, "Data", "()", 0, MAX),
    // a list, which `read_type` looks into
    base!(Pointer, "AnyPointer", "()", 0, MAX),
    base!(Enum, "", "u16", 16, MAX),
    base!(Struct, "", "()", 0, MAX),
    base!(Capability, "", "()", 0, MAX),
];
