//! Which member of Field is set
ghost use Rattle.std.specs.Prelude.{◌≡◌, ◌≤◌, IfOk, IfErr};
ghost use Rattle.schema_reading.specs.OfFieldWhich.{field_which_number};

use typed_reading::error::NotInSchema;

/// Which member of Field is set.
#[derive(Clone, Copy, Debug, PartialEq, Eq)]
pub enum Which {
    /// slot @0
    Slot,
    /// group @1
    Group,
}

/// Returns what `number` names.
pub fn of_number(number: u16) -> Result<Which, NotInSchema>
    ensures value { IfOk result (λ e. field_which_number e ≡ number) }
    ensures unknown { IfErr result (λ e. (e.0 ≡ number) × (2 ≤ number)) }
{
    let variant = match number {
        0 => Which::Slot,
        1 => Which::Group,
        _ => return Err(NotInSchema(number)),
    };
    Ok(variant)
}
