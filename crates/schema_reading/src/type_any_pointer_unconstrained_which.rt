//! Which member of Type.anyPointer.unconstrained is set
ghost use Rattle.std.specs.Prelude.{◌≡◌, ◌≤◌, IfOk, IfErr};
ghost use Rattle.schema_reading.specs.OfTypeAnyPointerUnconstrainedWhich.{type_any_pointer_unconstrained_which_number};

use typed_reading::error::NotInSchema;

/// Which member of Type.anyPointer.unconstrained is set.
#[derive(Clone, Copy, Debug, PartialEq, Eq)]
pub enum Which {
    /// anyKind @0
    AnyKind,
    /// struct @1
    Struct,
    /// list @2
    List,
    /// capability @3
    Capability,
}

/// Returns what `number` names.
pub fn of_number(number: u16) -> Result<Which, NotInSchema>
    ensures value { IfOk result (λ e. type_any_pointer_unconstrained_which_number e ≡ number) }
    ensures unknown { IfErr result (λ e. (e.0 ≡ number) × (4 ≤ number)) }
{
    let variant = match number {
        0 => Which::AnyKind,
        1 => Which::Struct,
        2 => Which::List,
        3 => Which::Capability,
        _ => return Err(NotInSchema(number)),
    };
    Ok(variant)
}
