//! Which member of Brand.Binding is set
ghost use Rattle.std.specs.Prelude.{◌≡◌, ◌≤◌, IfOk, IfErr};
ghost use Rattle.schema_reading.specs.OfBrandBindingWhich.{brand_binding_which_number};

use typed_reading::error::NotInSchema;

/// Which member of Brand.Binding is set.
#[derive(Clone, Copy, Debug, PartialEq, Eq)]
pub enum Which {
    /// unbound @0
    Unbound,
    /// type @1
    Type_,
}

/// Returns what `number` names.
pub fn of_number(number: u16) -> Result<Which, NotInSchema>
    ensures value { IfOk result (λ e. brand_binding_which_number e ≡ number) }
    ensures unknown { IfErr result (λ e. (e.0 ≡ number) × (2 ≤ number)) }
{
    let variant = match number {
        0 => Which::Unbound,
        1 => Which::Type_,
        _ => return Err(NotInSchema(number)),
    };
    Ok(variant)
}
