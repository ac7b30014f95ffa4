//! Writes bytes to an output, until all of them are written.
ghost use Rattle.std.specs.Prelude.{◌≡◌, false};
ghost use Rattle.capnp_framing.specs.Writing.{Writes};

use super::{DeviceFault, Output};

/// Writes all of `from`, in as many writes as it takes. Precondition: `output` hasn't failed.
pub fn write_all<W: Output>(output: &mut W, from: &[u8]) -> Result<(), DeviceFault>
    requires { W.has_failed output.old ≡ false }
    ensures { Writes W.Output result output.old output.new from.now }
{
    let mut rest = from;
    while !rest.is_empty() {
        let n = output.write(rest)?;
        rest = &rest[n..];
    }
    Ok(())
}
