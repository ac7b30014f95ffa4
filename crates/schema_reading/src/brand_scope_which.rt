//! Which member of Brand.Scope is set
ghost use Rattle.std.specs.Prelude.{◌≡◌, ◌≤◌, IfOk, IfErr};
ghost use Rattle.schema_reading.specs.OfBrandScopeWhich.{brand_scope_which_number};

use typed_reading::error::NotInSchema;

/// Which member of Brand.Scope is set.
#[derive(Clone, Copy, Debug, PartialEq, Eq)]
pub enum Which {
    /// bind @0
    Bind,
    /// inherit @1
    Inherit,
}

/// Returns what `number` names.
pub fn of_number(number: u16) -> Result<Which, NotInSchema>
    ensures value { IfOk result (λ e. brand_scope_which_number e ≡ number) }
    ensures unknown { IfErr result (λ e. (e.0 ≡ number) × (2 ≤ number)) }
{
    let variant = match number {
        0 => Which::Bind,
        1 => Which::Inherit,
        _ => return Err(NotInSchema(number)),
    };
    Ok(variant)
}
