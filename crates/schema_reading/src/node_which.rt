//! Which member of Node is set
ghost use Rattle.std.specs.Prelude.{◌≡◌, ◌≤◌, IfOk, IfErr};
ghost use Rattle.schema_reading.specs.OfNodeWhich.{node_which_number};

use typed_reading::error::NotInSchema;

/// Which member of Node is set.
#[derive(Clone, Copy, Debug, PartialEq, Eq)]
pub enum Which {
    /// file @0
    File,
    /// struct @1
    Struct,
    /// enum @2
    Enum,
    /// interface @3
    Interface,
    /// const @4
    Const,
    /// annotation @5
    Annotation,
}

/// Returns what `number` names.
pub fn of_number(number: u16) -> Result<Which, NotInSchema>
    ensures value { IfOk result (λ e. node_which_number e ≡ number) }
    ensures unknown { IfErr result (λ e. (e.0 ≡ number) × (6 ≤ number)) }
{
    let variant = match number {
        0 => Which::File,
        1 => Which::Struct,
        2 => Which::Enum,
        3 => Which::Interface,
        4 => Which::Const,
        5 => Which::Annotation,
        _ => return Err(NotInSchema(number)),
    };
    Ok(variant)
}
