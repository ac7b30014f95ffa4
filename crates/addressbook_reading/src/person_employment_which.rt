//! Which member of Person.employment is set
ghost use Rattle.std.specs.Prelude.{◌≡◌, ◌≤◌, IfOk, IfErr};
ghost use Rattle.addressbook_reading.specs.OfPersonEmploymentWhich.{person_employment_which_number};

use typed_reading::error::NotInSchema;

/// Which member of Person.employment is set.
#[derive(Clone, Copy, Debug, PartialEq, Eq)]
pub enum Which {
    /// unemployed @0
    Unemployed,
    /// employer @1
    Employer,
    /// school @2
    School,
    /// selfEmployed @3
    SelfEmployed,
}

/// Returns what `number` names.
pub fn of_number(number: u16) -> Result<Which, NotInSchema>
    ensures value { IfOk result (λ e. person_employment_which_number e ≡ number) }
    ensures unknown { IfErr result (λ e. (e.0 ≡ number) × (4 ≤ number)) }
{
    let variant = match number {
        0 => Which::Unemployed,
        1 => Which::Employer,
        2 => Which::School,
        3 => Which::SelfEmployed,
        _ => return Err(NotInSchema(number)),
    };
    Ok(variant)
}
