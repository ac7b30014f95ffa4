//! Laws of sizes, of the test for canonical form, and of values that can be read. Each function does
//! nothing: its contract is the law, proved for all messages and limits.

ghost use Rattle.std.specs.Prelude.{◌≡◌, ◌<◌, ◌≤◌, ◌+◌, ◌++◌, ◌∷◌, ℕ, List, true, Some, Ok, Err, ◌↔◌};
ghost use Rattle.capnp_words.specs.declared.error.ErrorKind.{ErrorKind};
ghost use Rattle.capnp_words.specs.Meter.{Affords, Meter};
ghost use Rattle.capnp_format.specs.Canonical.{trim, word_count};
ghost use Rattle.capnp_format.specs.Segments.{AreWords};
ghost use Rattle.capnp_format.specs.Tree.{Tree, capabilities, depth};
ghost use Rattle.capnp_pointers.specs.declared.object.Expected.{Expected};
ghost use Rattle.capnp_pointers.specs.Expected.{expectation};
ghost use Rattle.capnp_pointers.specs.Outcomes.{MeansThere};
ghost use Rattle.capnp_pointers.specs.Reading.{Reading};
ghost use Rattle.capnp_pointers.specs.Spending.{after_charge, pointers_in};
ghost use Rattle.capnp_pointers.specs.Values.{expect, value, read_values, value_within};
ghost use Rattle.capnp_pointers.specs.Wanted.{plain};
ghost use Rattle.capnp_pointers.specs.Checking.{AreCanonicalAt, AreFound, HasSmallSegment, IsCanonicalAt, IsFound, progress};
ghost use Rattle.capnp_pointers.specs.Measure.{FitSize, measure, only_words};
ghost use Rattle.capnp_pointers.specs.Testing.{test_value, test_values, IsTestName};
ghost use Rattle.capnp_pointers.specs.Traversals.{Traverses, IsUnexpected};
ghost use Rattle.capnp_pointers.specs.Unexpected.{LeadsToOther};
ghost use Rattle.capnp_pointers.specs.ValueSize.{value_size};
ghost use Rattle.capnp_pointers.specs.declared.pointers.canonical_fault.CanonicalFault.{CanonicalFault};
ghost use Rattle.capnp_pointers.specs.declared.pointers.sizes.MessageSize.{MessageSize};

/// If a place means a value, and the place has a size, it is that value's: its words and its
/// capabilities. The size and the value may have different nesting limits (`size`). The value's
/// canonical words, without the root pointer, are at most as many as the words of the size
/// (`canonical`).
pub fn size_of_value()
    ensures size { (r : Reading) (n : ℕ) (m m' : Meter) (z : MessageSize) (t : Tree) (c : ℕ)
        → measure r (only_words 0) m ≡ (Ok z, m') → MeansThere (record r { levels = n }) t c
        → z ≡ value_size t }
    ensures canonical { (r : Reading) (n : ℕ) (m m' : Meter) (z : MessageSize) (t : Tree) (c : ℕ)
        → AreWords r.segments
        → measure r (only_words 0) m ≡ (Ok z, m') → MeansThere (record r { levels = n }) t c
        → word_count (trim t) ≤ z.word_count }
{}

/// If a place means a value that the traversal limit covers, whose depth is below the nesting
/// limit, and whose numbers of words and capabilities fit a size, then the place has this size, at
/// no greater cost than that of reading the value.
pub fn values_have_sizes()
    ensures { (r : Reading) (n : ℕ) (m : Meter) (t : Tree) (c : ℕ)
        → MeansThere (record r { levels = n }) t c → depth t < r.levels → Affords r.charging m c
        → FitSize (word_count t) (capabilities t)
        → (k : ℕ) × (k ≤ c) × (measure r (only_words 0) m
        ≡ (Ok (value_size t), after_charge r.charging m k (pointers_in t))) }
{}

/// Only one name is possible if a size is refused, and the limiter has only one state after it.
pub fn one_size_refusal()
    ensures { (r : Reading) (z : MessageSize) (m m' m'' : Meter) (k l : ErrorKind)
        → measure r z m ≡ (Err k, m') → measure r z m ≡ (Err l, m'')
        → (k ≡ l) × (m' ≡ m'') }
{}

/// What a test for canonical form says of a place. If each word of the place's segment has 64 bits,
/// the test finds words from the head on exactly if they are the canonical words of a value that the
/// limits allow; then it moves the head past them and charges what reading the value costs
/// (`found`). If it finds a fault, there are no canonical words, under any limits (`fault`).
pub fn tests_of_places()
    ensures found { (r : Reading) (head end : ℕ) (m m' : Meter) → HasSmallSegment r
        → (test_value r head m ≡ (Ok (Ok end), m'))
        ↔ IsFound r (progress head m) (progress end m') }
    ensures fault { (r : Reading) (head : ℕ) (m m' : Meter) (f : CanonicalFault) → HasSmallSegment r
        → test_value r head m ≡ (Ok (Err f), m') → IsCanonicalAt r head → ⊥ }
{}

/// The same for a test of `i` consecutive pointers. Without a pointer, the segment doesn't matter.
pub fn tests_of_pointers()
    ensures found { (i : ℕ) (r : Reading) (head end : ℕ) (m m' : Meter)
        → (0 < i → HasSmallSegment r) → test_values i r head m ≡ (Ok (Ok end), m')
        → AreFound r i (progress head m) (progress end m') }
    ensures fault { (i : ℕ) (r : Reading) (head : ℕ) (m m' : Meter) (f : CanonicalFault)
        → (0 < i → HasSmallSegment r) → test_values i r head m ≡ (Ok (Err f), m')
        → AreCanonicalAt r i head → ⊥ }
{}

/// If a test for canonical form is refused, reading the plain value of the place is refused too, and
/// leaves the same limiter. The error is the same, too, except that a test refuses a list without a
/// level left with `NestingLimitExceeded`. The same holds for a test of consecutive pointers.
pub fn refused_as_reading()
    ensures place { (r : Reading) (head : ℕ) (m m' : Meter) (k : ErrorKind)
        → test_value r head m ≡ (Err k, m')
        → (l : ErrorKind) × IsTestName l k × (value plain r m ≡ (Err l, m')) }
    ensures pointers { (i : ℕ) (r : Reading) (head : ℕ) (m m' : Meter) (k : ErrorKind)
        → test_values i r head m ≡ (Err k, m') → (l : ErrorKind) × IsTestName l k
        × (read_values (value_within plain r.levels) i r m ≡ (Err l, m')) }
{}

/// If a test for canonical form finds a fault, only one is possible; if it is refused, only one name
/// is. The limiter has only one state afterwards. The same holds for the refusal of a test of
/// consecutive pointers.
pub fn one_verdict()
    ensures fault { (r : Reading) (head : ℕ) (m m' m'' : Meter) (f g : CanonicalFault)
        → test_value r head m ≡ (Ok (Err f), m') → test_value r head m ≡ (Ok (Err g), m'')
        → (f ≡ g) × (m' ≡ m'') }
    ensures refused { (r : Reading) (head : ℕ) (m m' m'' : Meter) (k l : ErrorKind)
        → test_value r head m ≡ (Err k, m') → test_value r head m ≡ (Err l, m'')
        → (k ≡ l) × (m' ≡ m'') }
    ensures pointers { (i : ℕ) (r : Reading) (head : ℕ) (m m' m'' : Meter) (k l : ErrorKind)
        → test_values i r head m ≡ (Err k, m') → test_values i r head m ≡ (Err l, m'')
        → (k ≡ l) × (m' ≡ m'') }
{}

/// The extent of a value that is read within a traversal limit is exact: the value has at most as
/// many words as the limit, and at most one capability more. Its depth is at most the nesting limit.
pub fn extents_within_limits()
    ensures { (r : Reading) (m m' : Meter) (t : Tree) (x : ℕ) → r.charging ≡ true → m.left ≡ Some x
        → value plain r m ≡ (Ok t, m')
        → (depth t ≤ r.levels) × (word_count t ≤ x) × (capabilities t ≤ x + 1) }
{}

/// If a place means a value, the traversal limit covers its cost, and a level is left, then a call
/// that expects an object of some kind there is refused only if the object is of another kind, or
/// isn't as expected: a text doesn't end in a zero byte, or the elements of a list are too narrow.
pub fn refused_as_unexpected()
    ensures { (e : Expected) (r : Reading) (m m' : Meter) (t : Tree) (c : ℕ) (k : ErrorKind)
        → MeansThere r t c → 0 < r.levels → Affords r.charging m c
        → expect (expectation e) r m ≡ (Err k, m') → LeadsToOther (expectation e) r k }
{}

/// What `Pointer::validate` is for. If a value can be read within both limits, then whoever reads it
/// with these limits, following each of its pointers at most once, in any order, by calls that
/// expect objects of some kind, is never refused for a limit or for a broken message. A call is
/// refused only for what it found: an object of another kind, a text that doesn't end in a zero
/// byte, or elements of a list that are too narrow; or, where no level is left, a capability.
pub fn traversals_within_limits()
    ensures { (r : Reading) (m left now next : Meter) (t : Tree) (before later : List Reading)
        (s : Reading) (e : Expected) (k : ErrorKind) → value plain r m ≡ (Ok t, left)
        → Traverses r m (before ++ (s ∷ later)) now
        → expect (expectation e) s now ≡ (Err k, next) → IsUnexpected e s k }
{}
