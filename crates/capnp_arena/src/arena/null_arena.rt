//! An arena that holds no message.
ghost use Rattle.std.below.core.specs.declared.int.i32.TheConstants.{MAX};
ghost use Rattle.std.specs.Prelude.{[], pos, false, refl};
ghost use Rattle.capnp_words.specs.declared.error.ErrorKind.TheVariants.{TriedToReadFromNullArena};

use crate::arena::ReaderArena;
use capnp_words::error::ErrorKind;

/// An arena without segments. Refuses every segment number with `TriedToReadFromNullArena`. Charges
/// nothing, and its nesting limit is `i32::MAX`.
#[derive(Clone, Copy)]
pub struct NullArena;

impl ReaderArena for NullArena {
    ghost segments = { λ _. [] };

    ghost nesting = { λ _. MAX };

    ghost charging = { λ _. false };

    ghost absent = { λ _ _. TriedToReadFromNullArena };

    ghost use Rattle.std.proofs.Common.{inr};

    ghost absent_named = { λ _ _. inr (refl, refl) };

    fn get_segment(&self, _id: u32) -> Result<&[u8], ErrorKind> {
        Err(ErrorKind::TriedToReadFromNullArena)
    }

    fn nesting_limit(&self) -> i32 {
        i32::MAX
    }

    fn charges(&self) -> bool {
        false
    }

    fn size_in_words(&self) -> usize {
        0
    }
}
