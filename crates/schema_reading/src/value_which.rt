//! Which member of Value is set
ghost use Rattle.std.specs.Prelude.{◌≡◌, ◌≤◌, IfOk, IfErr};
ghost use Rattle.schema_reading.specs.OfValueWhich.{value_which_number};

use typed_reading::error::NotInSchema;

/// Which member of Value is set.
#[derive(Clone, Copy, Debug, PartialEq, Eq)]
pub enum Which {
    /// void @0
    Void,
    /// bool @1
    Bool,
    /// int8 @2
    Int8,
    /// int16 @3
    Int16,
    /// int32 @4
    Int32,
    /// int64 @5
    Int64,
    /// uint8 @6
    Uint8,
    /// uint16 @7
    Uint16,
    /// uint32 @8
    Uint32,
    /// uint64 @9
    Uint64,
    /// float32 @10
    Float32,
    /// float64 @11
    Float64,
    /// text @12
    Text,
    /// data @13
    Data,
    /// list @14
    List,
    /// enum @15
    Enum,
    /// struct @16
    Struct,
    /// interface @17
    Interface,
    /// anyPointer @18
    AnyPointer,
}

/// Returns what `number` names.
pub fn of_number(number: u16) -> Result<Which, NotInSchema>
    ensures value { IfOk result (λ e. value_which_number e ≡ number) }
    ensures unknown { IfErr result (λ e. (e.0 ≡ number) × (19 ≤ number)) }
{
    let variant = match number {
        0 => Which::Void,
        1 => Which::Bool,
        2 => Which::Int8,
        3 => Which::Int16,
        4 => Which::Int32,
        5 => Which::Int64,
        6 => Which::Uint8,
        7 => Which::Uint16,
        8 => Which::Uint32,
        9 => Which::Uint64,
        10 => Which::Float32,
        11 => Which::Float64,
        12 => Which::Text,
        13 => Which::Data,
        14 => Which::List,
        15 => Which::Enum,
        16 => Which::Struct,
        17 => Which::Interface,
        18 => Which::AnyPointer,
        _ => return Err(NotInSchema(number)),
    };
    Ok(variant)
}
