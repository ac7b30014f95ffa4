//! Which member of Type.anyPointer is set
ghost use Rattle.std.specs.Prelude.{◌≡◌, ◌≤◌, IfOk, IfErr};
ghost use Rattle.schema_reading.specs.OfTypeAnyPointerWhich.{type_any_pointer_which_number};

use typed_reading::error::NotInSchema;

/// Which member of Type.anyPointer is set.
#[derive(Clone, Copy, Debug, PartialEq, Eq)]
pub enum Which {
    /// unconstrained @0
    Unconstrained,
    /// parameter @1
    Parameter,
    /// implicitMethodParameter @2
    ImplicitMethodParameter,
}

/// Returns what `number` names.
pub fn of_number(number: u16) -> Result<Which, NotInSchema>
    ensures value { IfOk result (λ e. type_any_pointer_which_number e ≡ number) }
    ensures unknown { IfErr result (λ e. (e.0 ≡ number) × (3 ≤ number)) }
{
    let variant = match number {
        0 => Which::Unconstrained,
        1 => Which::Parameter,
        2 => Which::ImplicitMethodParameter,
        _ => return Err(NotInSchema(number)),
    };
    Ok(variant)
}
