//! Person.PhoneNumber.Type
ghost use Rattle.std.specs.Prelude.{◌≡◌, ◌≤◌, IfOk, IfErr};
ghost use Rattle.addressbook_reading.specs.OfPersonPhoneNumberType.{person_phone_number_type_number};

use typed_reading::error::NotInSchema;

/// Person.PhoneNumber.Type.
#[derive(Clone, Copy, Debug, PartialEq, Eq)]
pub enum Type_ {
    /// mobile @0
    Mobile,
    /// home @1
    Home,
    /// work @2
    Work,
}

/// Returns what `number` names.
pub fn of_number(number: u16) -> Result<Type_, NotInSchema>
    ensures value { IfOk result (λ e. person_phone_number_type_number e ≡ number) }
    ensures unknown { IfErr result (λ e. (e.0 ≡ number) × (3 ≤ number)) }
{
    let variant = match number {
        0 => Type_::Mobile,
        1 => Type_::Home,
        2 => Type_::Work,
        _ => return Err(NotInSchema(number)),
    };
    Ok(variant)
}
