//! Laws of what calls return that follow a pointer, and of what they leave of the limiter. Each
//! function does nothing: its contract is the law.
ghost use Rattle.std.specs.Prelude.{◌≡◌, ◌↔◌, ℕ, List, None, Some, false};
ghost use Rattle.capnp_words.specs.Meter.{Meter};
ghost use Rattle.capnp_words.specs.declared.error.ErrorKind.{ErrorKind};
ghost use Rattle.capnp_format.specs.Segments.{Target};
ghost use Rattle.capnp_format.specs.Tree.{Tree};
ghost use Rattle.capnp_pointers.specs.Demands.{own_charge};
ghost use Rattle.capnp_pointers.specs.Expected.{HasExpected, RefusesExpected, expectation};
ghost use Rattle.capnp_pointers.specs.Outcomes.{MeansThere};
ghost use Rattle.capnp_pointers.specs.Reading.{Reading, word_of};
ghost use Rattle.capnp_pointers.specs.Spending.{after_charge};
ghost use Rattle.capnp_pointers.specs.Wanted.{FollowsTo};
ghost use Rattle.capnp_pointers.specs.declared.object.Expected.{Expected};
ghost use Rattle.capnp_pointers.specs.declared.object.Purpose.TheVariants.{Value};
ghost use Rattle.capnp_readers.specs.Values.{IsStructOrNull, ShowsStructOf};
ghost use Rattle.typed_reading.specs.Outcomes.{default_outcome, reading_outcome};
ghost use Rattle.typed_reading.specs.Sections.{LeadsToSectionsOf, ShowsSectionsOf};

use capnp_arena_traits::arena::ReaderArena;
use capnp_readers::readers::StructReader;

/// A call succeeds exactly if the pointer is null or leads to what the call expects, and the
/// limiter covers what that charges (`answered`). It is refused with the error of the first check
/// that fails (`refused`). A null pointer charges nothing and isn't counted (`null`). Another one
/// is counted, and if the call succeeds, the words of its landing pads and of the object are
/// charged (`charged`). A place that isn't charged, like a default's, leaves the limiter unchanged,
/// also after a refusal (`free`).
pub fn outcome_of_reading()
    ensures answered { (e : Expected) (r : Reading) (m m' : Meter)
        → reading_outcome (expectation e) r m ≡ (None, m') → HasExpected (expectation e) r m }
    ensures refused { (e : Expected) (r : Reading) (m m' : Meter) (k : ErrorKind)
        → RefusesExpected (expectation e) r m m' k
        ↔ (reading_outcome (expectation e) r m ≡ (Some k, m')) }
    ensures null { (e : Expected) (r : Reading) (m : Meter) → word_of r ≡ 0
        → reading_outcome (expectation e) r m ≡ (None, m) }
    ensures charged { (e : Expected) (r : Reading) (m m' : Meter) (a : Target) → FollowsTo r a
        → reading_outcome (expectation e) r m ≡ (None, m')
        → m' ≡ after_charge r.charging m (own_charge Value r.segments a) 1 }
    ensures free { (e : Expected) (r : Reading) (m : Meter) → r.charging ≡ false
        → (reading_outcome (expectation e) r m).1 ≡ m }
{}

/// A default is read only if the pointer is null (`unread`), and charges nothing (`free`).
pub fn outcome_with_default()
    ensures unread { (e : Expected) (bytes : List ℕ) (r : Reading) (m : Meter)
        → (word_of r ≡ 0 → ⊥)
        → default_outcome (expectation e) bytes r m ≡ reading_outcome (expectation e) r m }
    ensures free { (e : Expected) (bytes : List ℕ) (r : Reading) (m : Meter) → word_of r ≡ 0
        → (default_outcome (expectation e) bytes r m).1 ≡ m }
{}

/// A pointer that means a struct, or null, leads to the sections of that value.
pub fn meant_sections()
    ensures { (r : Reading) (t : Tree) (c : ℕ) → IsStructOrNull t → MeansThere r t c
        → LeadsToSectionsOf r t }
{}

/// A reader that shows a struct shows its sections.
pub fn shown_sections<A: ReaderArena>(reader: &StructReader<'_, A>)
    ensures { (t : Tree) → ShowsStructOf A.ReaderArena reader.now t
        → ShowsSectionsOf A.ReaderArena reader.now t }
{
    let _ = reader;
}
