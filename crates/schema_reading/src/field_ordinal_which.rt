//! Which member of Field.ordinal is set
ghost use Rattle.std.specs.Prelude.{◌≡◌, ◌≤◌, IfOk, IfErr};
ghost use Rattle.schema_reading.specs.OfFieldOrdinalWhich.{field_ordinal_which_number};

use typed_reading::error::NotInSchema;

/// Which member of Field.ordinal is set.
#[derive(Clone, Copy, Debug, PartialEq, Eq)]
pub enum Which {
    /// implicit @0
    Implicit,
    /// explicit @1
    Explicit,
}

/// Returns what `number` names.
pub fn of_number(number: u16) -> Result<Which, NotInSchema>
    ensures value { IfOk result (λ e. field_ordinal_which_number e ≡ number) }
    ensures unknown { IfErr result (λ e. (e.0 ≡ number) × (2 ≤ number)) }
{
    let variant = match number {
        0 => Which::Implicit,
        1 => Which::Explicit,
        _ => return Err(NotInSchema(number)),
    };
    Ok(variant)
}
