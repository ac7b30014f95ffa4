//! Reads all bytes of an input into memory.
ghost use Rattle.std.specs.Prelude.{◌≡◌, ◌++◌, false, true, IfOk, IfErr, IfSome};
ghost use Rattle.capnp_layout.specs.Reading.{CountsRead, WorksUnlessBad};

use super::lines::{InputFault, append_bytes};
use crate::devices::Input;
use capnp_arena::arena::Allocator;
use std::alloc::Global;

/// Reads all bytes that an input still has. Refusals, which lose the bytes read so far: `BadInput`
/// if a read failed; `NoMemory` if `allocator` refused a byte, and counted the refusal. The list of
/// bytes has its memory from `alloc`. Each byte is appended by `Allocator::keep`, so `allocator`
/// may refuse any of them.
pub(crate) fn read_to_end<A: Allocator, R: Input>(
    alloc: Global,
    allocator: &mut A,
    input: &mut R,
) -> Result<Vec<u8>, InputFault>
    requires { R.has_failed input.old ≡ false }
    ensures bytes { IfOk result (λ v. IfSome (R.remaining input.old) (λ text. v.items ≡ text)) }
    ensures bad { IfErr result (λ e. e ≡ InputFault.BadInput → R.has_failed input.new ≡ true) }
    ensures counted { CountsRead (A.refusals allocator.old) (A.refusals allocator.new) result }
    ensures works { WorksUnlessBad (R.has_failed input.new) result }
{
    let mut text = Vec::new(alloc);
    let mut buffer = [0u8; 4096];
    loop {
        match input.read(&mut buffer) {
            Ok(0) => return Ok(text),
            Ok(n) => append_bytes(allocator, &mut text, &buffer[..n])?,
            Err(_) => return Err(InputFault::BadInput),
        }
    }
}
