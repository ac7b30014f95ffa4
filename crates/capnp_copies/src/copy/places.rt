//! The next places of a copy.
ghost use Rattle.std.specs.Prelude.{◌≡◌, ◌+◌, ◌<◌, ◌^◌};

use capnp_arena_traits::arena::WordPlace;

/// The place `words` words after `place`, in the same segment. Precondition: `place.at + words` is
/// below 2^32.
pub fn place_past(place: WordPlace, words: u32) -> WordPlace
    requires { place.at + words < 2 ^ 32 }
    ensures { result ≡ record place { at = place.at + words } }
{
    WordPlace {
        at: place.at + words,
        ..place
    }
}
