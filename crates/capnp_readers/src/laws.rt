//! Laws of the test for canonical form that hold for more than one call (encoding specification,
//! "Canonicalization"; docs/FORMAT.md, "The test for canonical form"). Each function does nothing:
//! its contract is the law, proved for all messages and limits.

ghost use Rattle.std.specs.Prelude.{◌≡◌, ◌↔◌, ◌-◌, ◌≤◌, ◌∷◌, ℕ, IsOk, length};
ghost use Rattle.capnp_words.specs.Meter.{Meter};
ghost use Rattle.capnp_format.specs.Tree.{Tree};
ghost use Rattle.capnp_format.specs.Canonical.{HasCanonicalAt, charge, trim};
ghost use Rattle.capnp_format.specs.Segments.{words_at, AreWords};
ghost use Rattle.capnp_pointers.specs.Outcomes.{MeansThere, Reads};
ghost use Rattle.capnp_pointers.specs.Spending.{Paid};
ghost use Rattle.capnp_pointers.specs.Reading.{Reading, word_of, segment_read};
ghost use Rattle.capnp_pointers.specs.Wanted.{canonical};
ghost use Rattle.capnp_pointers.specs.Checking.{CanAllBeFound, CanBeFound, Finds, Progress, progress};
ghost use Rattle.capnp_pointers.specs.Testing.{test_value, test_values};

/// The test for canonical form never refuses a pointer if the pointer and words of its segment are
/// the canonical words of a value, and reading them is within the nesting limit and the traversal
/// limit. The same holds for a test of several consecutive pointers.
pub fn canonical_is_answered()
    ensures place { (r : Reading) (head : ℕ) (m : Meter) → CanBeFound r (progress head m)
        → IsOk (test_value r head m).0 }
    ensures pointers { (i : ℕ) (r : Reading) (head : ℕ) (m : Meter)
        → CanAllBeFound r i (progress head m) → IsOk (test_values i r head m).0 }
{}

/// The test for canonical form accepts the words of a canonical copy if the test starts with the
/// nesting limit and the limiter that the copying started with. The copy's pointer may be at any
/// place, and its other words may start at any position of the pointer's segment.
pub fn copy_is_answered()
    ensures { (r q : Reading) (m m' : Meter) (h : ℕ) (t : Tree)
        → AreWords r.segments → Reads canonical r m m' t
        → q.levels ≡ r.levels → q.charging ≡ r.charging → h ≤ length (segment_read q)
        → HasCanonicalAt q.segments q.segment q.at h (trim t)
        → CanBeFound q (progress h m) }
{}

/// If the test for canonical form accepts the pointer at a place as one to some value, then by the
/// encoding specification the pointer leads to this value, within the nesting limit, and reading
/// the value costs exactly what the test charged.
pub fn found_is_meant()
    ensures { (r : Reading) (from to : Progress) (t : Tree)
        → Finds r from to t → MeansThere r t (charge t) }
{}

/// Suppose that two pointers are at the same position of their segments, and that the test for
/// canonical form accepts both, each starting with the same `head`. Then their values are equal
/// exactly if their words are equal: the pointer's own word, and the words past which the test
/// moved `head`.
pub fn same_words()
    ensures { (r q : Reading) (from to start end : Progress) (t u : Tree)
        → Finds r from to t → Finds q start end u
        → r.at ≡ q.at → from.head ≡ start.head
        → (word_of r ∷ words_at r.segments r.segment from.head (to.head - from.head)
        ≡ word_of q ∷ words_at q.segments q.segment start.head (end.head - start.head))
        ↔ (t ≡ u) }
{}

/// A test for canonical form changes the limiter as reading does, also if it finds a fault or is
/// refused: the words that were granted are subtracted from the words left, and the pointers that
/// were followed are added to the count of pointers. If nothing is charged, for example for a
/// default value, the limiter is unchanged.
pub fn test_is_charged()
    ensures place { (r : Reading) (head : ℕ) (m : Meter)
        → (g : ℕ) × (i : ℕ) × Paid r.charging m (test_value r head m).1 g i }
    ensures pointers { (n : ℕ) (r : Reading) (head : ℕ) (m : Meter)
        → (g : ℕ) × (i : ℕ) × Paid r.charging m (test_values n r head m).1 g i }
{}
