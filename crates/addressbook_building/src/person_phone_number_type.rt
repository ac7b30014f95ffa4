//! Person.PhoneNumber.Type
ghost use Rattle.std.specs.Prelude.{◌≡◌};
ghost use Rattle.addressbook_reading.specs.OfPersonPhoneNumberType.{person_phone_number_type_number};

pub use addressbook_reading::person_phone_number_type::{Type_, of_number};

/// Returns the number of `value`.
pub fn number(value: Type_) -> u16
    ensures { result ≡ person_phone_number_type_number value }
{
    match value {
        Type_::Mobile => 0,
        Type_::Home => 1,
        Type_::Work => 2,
    }
}
