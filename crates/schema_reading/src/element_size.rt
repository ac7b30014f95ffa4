//! ElementSize
ghost use Rattle.std.specs.Prelude.{◌≡◌, ◌≤◌, IfOk, IfErr};
ghost use Rattle.schema_reading.specs.OfElementSize.{element_size_number};

use typed_reading::error::NotInSchema;

/// ElementSize.
#[derive(Clone, Copy, Debug, PartialEq, Eq)]
pub enum ElementSize {
    /// empty @0
    Empty,
    /// bit @1
    Bit,
    /// byte @2
    Byte,
    /// twoBytes @3
    TwoBytes,
    /// fourBytes @4
    FourBytes,
    /// eightBytes @5
    EightBytes,
    /// pointer @6
    Pointer,
    /// inlineComposite @7
    InlineComposite,
}

/// Returns what `number` names.
pub fn of_number(number: u16) -> Result<ElementSize, NotInSchema>
    ensures value { IfOk result (λ e. element_size_number e ≡ number) }
    ensures unknown { IfErr result (λ e. (e.0 ≡ number) × (8 ≤ number)) }
{
    let variant = match number {
        0 => ElementSize::Empty,
        1 => ElementSize::Bit,
        2 => ElementSize::Byte,
        3 => ElementSize::TwoBytes,
        4 => ElementSize::FourBytes,
        5 => ElementSize::EightBytes,
        6 => ElementSize::Pointer,
        7 => ElementSize::InlineComposite,
        _ => return Err(NotInSchema(number)),
    };
    Ok(variant)
}
